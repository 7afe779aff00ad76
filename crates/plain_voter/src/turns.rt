//! The turns of the vote: each unchecked member in its order gives the working list one more syndrome.

ghost use Rattle.std.specs.Prelude.{ℕ, ◌≡◌, ◌<◌, ◌^◌, length, IfOk};
ghost use Rattle.order_theory.specs.Basis.{times, IsWord};
ghost use Rattle.plain_voter.specs.Lines.{IsTurn, Recovers};

use crate::ballot::elect;
use crate::line::PlainLine;
use crate::working::take_on;
use eval_basis::{Checked, EvalBasis};
use gf_field::Field;
use std::alloc::{AllocError, Global};

/// Votes on member k: the working list takes on the syndrome that wins.
fn turn<F: Field>(
    alloc: Global,
    basis: &EvalBasis<F>,
    k: u32,
    work: &mut [u8],
) -> Result<PlainLine, AllocError>
    requires word { IsWord basis.now.bits basis.now.n work.old }
    requires member { k < basis.now.n }
    ensures turn { IfOk result (IsTurn basis.now work.old k work.new) }
    ensures word { IsWord basis.now.bits basis.now.n work.new }
{
    let vote = elect(alloc, basis, work, k)?;
    take_on(basis, k, vote.winner, work);
    Ok(PlainLine {
        label: basis.label(k),
        pairs: basis.pairs(k),
        right: vote.votes,
        wrong: vote.candidates - vote.votes,
    })
}

/// Votes on each unchecked member in its order; there is a line for each.
pub fn vote_on_all<F: Field>(
    alloc: Global,
    basis: &EvalBasis<F>,
    checked: &Checked,
    work: &mut [u8],
) -> Result<Vec<PlainLine>, AllocError>
    requires marks { length checked.now ≡ basis.now.n }
    requires word { IsWord basis.now.bits basis.now.n work.old }
    ensures found { IfOk result (λ lines. Recovers basis.now checked.now work.old work.new
        lines.items) }
{
    let mut lines = Vec::new(alloc);
    for k in 0..basis.n() {
        if !checked.holds(k) {
            lines.push(turn(alloc, basis, k, work)?)?;
        }
    }
    Ok(lines)
}
