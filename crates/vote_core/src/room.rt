//! What the vote writes on.

ghost use Rattle.std.specs.Prelude.{◌≡◌, length, IfOk};

use std::alloc::{AllocError, Global};

/// Lists to write on.
#[derive(Drop)]
pub struct Scratch {
    /// The next entries of a row, or the products of a class.
    pub row: Vec<u8>,
    /// For each row its vote on the member that is voted on, if it has one.
    pub votes: Vec<Option<u8>>,
    /// For each value how many candidates voted for it.
    pub tally: Vec<u32>,
}

/// Lists for n rows and so many values.
pub fn new_scratch(alloc: Global, n: usize, values: usize) -> Result<Scratch, AllocError>
    ensures row { IfOk result (λ s. length s.row.items ≡ n) }
    ensures votes { IfOk result (λ s. length s.votes.items ≡ n) }
    ensures tally { IfOk result (λ s. length s.tally.items ≡ values) }
{
    Ok(Scratch {
        row: vec![in alloc; 0; n]?,
        votes: vec![in alloc; None; n]?,
        tally: vec![in alloc; 0; values]?,
    })
}
