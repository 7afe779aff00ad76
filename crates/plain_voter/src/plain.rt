//! The plain voter.

ghost use Rattle.std.specs.Prelude.{◌≡◌, ◌+◌, ◌*◌, length, IfOk};
ghost use Rattle.order_theory.specs.Codes.{low_bits, IsBound};
ghost use Rattle.plain_voter.specs.Finds.{IsAnswer};

use crate::line::PlainLine;
use crate::turns::vote_on_all;
use crate::working::{low_symbols, weight_of};
use eval_basis::{Checked, EvalBasis};
use gf_field::Field;
use std::alloc::{AllocError, Global};

/// An error, and how the votes went that found it.
#[derive(Drop)]
pub struct PlainFind {
    pub err: Vec<u8>,
    /// A line for each member that is not checked, in rising order.
    pub lines: Vec<PlainLine>,
}

/// Some: the error of at most t symbols that leads the low bits of `got` into the code, with the lines of the votes. None:
/// there is no such error.
pub fn find_plainly<F: Field>(
    alloc: Global,
    basis: &EvalBasis<F>,
    checked: &Checked,
    t: u32,
    got: &[u8],
) -> Result<Option<PlainFind>, AllocError>
    requires marks { length checked.now ≡ basis.now.n }
    requires bound { IsBound basis.now checked.now (2 * t + 1) }
    requires received { length got.now ≡ basis.now.n }
    ensures { IfOk result (IsAnswer basis.now checked.now t (low_bits basis.now.bits got.now)) }
{
    let mut work = low_symbols(alloc, basis.bits(), got)?;
    let lines = vote_on_all(alloc, basis, checked, &mut work)?;
    if weight_of(&work) > t as usize {
        return Ok(None);
    }
    Ok(Some(PlainFind { err: work, lines }))
}
