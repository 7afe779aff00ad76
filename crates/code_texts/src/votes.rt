//! What the candidates of a decoding said.

ghost use Rattle.std.specs.Prelude.{◌≡◌, ℕ, IfOk};
ghost use Rattle.code_texts.specs.Texts.{votes_text_of};

use ag_texts::{LineBuf, votes_line};
use std::alloc::{AllocError, Global};
use vote_core::VoteLine;

/// The lines of a ledger: of each unchecked member its label, its pairs, and the right and the wrong candidates.
#[tactic(auto, using(crate::proofs::Lines::steps))]
pub fn votes_text(alloc: Global, ledger: &[VoteLine]) -> Result<Vec<u8>, AllocError>
    ensures { IfOk result (λ text. text.items ≡ votes_text_of ledger.now) }
{
    let mut text = Vec::new(alloc);
    let mut line = LineBuf::new();
    for votes in ledger {
        votes_line(
            &mut line,
            votes.label,
            votes.pairs,
            votes.right,
            votes.wrong,
        );
        text.extend_from_slice(line.bytes())?;
    }
    Ok(text)
}
