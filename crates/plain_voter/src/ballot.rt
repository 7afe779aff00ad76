//! The vote on one member, pair by pair.

ghost use Rattle.std.specs.Prelude.{ℕ, ◌≡◌, ◌+◌, ◌<◌, ◌≤◌, ◌^◌, length, IfOk};
ghost use Rattle.std.specs.List.{IsFirstMaxByKey};
ghost use Rattle.order_theory.specs.Basis.{times, IsWord};
ghost use Rattle.order_theory.specs.Voting.{IsElected, votes_at, candidates_at};
ghost use Rattle.plain_voter.specs.Ballots.{PairVotes, IsPolled};
ghost use Rattle.plain_voter.specs.Sheets.{IsSheetOf};

use crate::sheet::{Sheet, is_candidate, sheet_of};
use crate::working::syndrome;
use eval_basis::EvalBasis;
use gf_field::Field;
use gf_linear::part_residue;
use std::alloc::{AllocError, Global};

/// How the vote on one member went.
#[derive(Clone, Copy)]
pub struct Election {
    /// The least of the values with the most votes.
    pub winner: u8,
    /// How many candidates voted for it.
    pub votes: u32,
    /// How many candidates there were.
    pub candidates: u32,
}

/// The votes on one member, as far as they are counted.
#[derive(Drop)]
struct Poll {
    /// For each value how many candidates voted for it.
    tally: Vec<u32>,
    candidates: u32,
}

/// What the pair (i, j) says of member k: nothing, where it has another sum or is no candidate.
fn pair_vote<F: Field>(
    basis: &EvalBasis<F>,
    work: &[u8],
    k: u32,
    i: u32,
    j: u32,
    sheet: &mut Sheet,
) -> Option<u8>
    requires word { IsWord basis.now.bits basis.now.n work.now }
    requires member { k < basis.now.n }
    requires row { i < basis.now.n }
    requires column { j < basis.now.n }
    requires sheet { IsSheetOf basis.now work.now sheet.old }
    ensures vote { PairVotes basis.now work.now k i j result }
    ensures sheet { IsSheetOf basis.now work.now sheet.new }
{
    let f = basis.field();
    if basis.sum_at(i, j) != basis.rank_at(k) {
        return None;
    }
    if !is_candidate(f, i, j, sheet) {
        return None;
    }
    let kept = part_residue(f, &sheet.table, i, j, &mut sheet.room);
    let entry = sheet.table.row(i)[j as usize];
    let known = syndrome(basis, work, k);
    let inverse = f.inv(basis.lead(i, j));
    Some(f.add(f.mul(inverse, f.add(kept, entry)), known))
}

/// Counts the votes of row i on member k.
fn poll_row<F: Field>(
    basis: &EvalBasis<F>,
    work: &[u8],
    k: u32,
    i: u32,
    sheet: &mut Sheet,
    poll: &mut Poll,
)
    requires word { IsWord basis.now.bits basis.now.n work.now }
    requires member { k < basis.now.n }
    requires row { i < basis.now.n }
    requires sheet { IsSheetOf basis.now work.now sheet.old }
    requires so_far { IsPolled basis.now work.now k poll.old.tally.items poll.old.candidates i 0 }
    ensures polled { IsPolled basis.now work.now k poll.new.tally.items poll.new.candidates (i + 1)
        0 }
    ensures sheet { IsSheetOf basis.now work.now sheet.new }
{
    for j in 0..basis.n() {
        if let Some(v) = pair_vote(basis, work, k, i, j, sheet) {
            poll.tally[v as usize] += 1;
            poll.candidates += 1;
        }
    }
}

/// The least value with the greatest tally.
fn first_most(tally: &[u32]) -> usize
    requires { 0 < length tally.now }
    ensures { IsFirstMaxByKey (λ x. x) tally.now (length tally.now) result }
{
    let mut best = 0;
    for v in 1..tally.len() {
        if tally[v] > tally[best] {
            best = v;
        }
    }
    best
}

/// The votes on member k.
fn poll_of<F: Field>(
    alloc: Global,
    basis: &EvalBasis<F>,
    work: &[u8],
    k: u32,
) -> Result<Poll, AllocError>
    requires word { IsWord basis.now.bits basis.now.n work.now }
    requires member { k < basis.now.n }
    ensures { IfOk result (λ poll. IsPolled basis.now work.now k poll.tally.items poll.candidates
        basis.now.n 0) }
{
    let mut sheet = sheet_of(alloc, basis, work)?;
    let mut poll = Poll {
        tally: vec![in alloc; 0; 1usize << basis.field().bits()]?,
        candidates: 0,
    };
    for i in 0..basis.n() {
        poll_row(basis, work, k, i, &mut sheet, &mut poll);
    }
    Ok(poll)
}

/// The vote on member k.
pub fn elect<F: Field>(
    alloc: Global,
    basis: &EvalBasis<F>,
    work: &[u8],
    k: u32,
) -> Result<Election, AllocError>
    requires word { IsWord basis.now.bits basis.now.n work.now }
    requires member { k < basis.now.n }
    ensures elected { IfOk result (λ vote. IsElected (times basis.now) basis.now work.now k
        vote.winner) }
    ensures votes { IfOk result (λ vote. vote.votes
        ≡ votes_at (times basis.now) basis.now work.now k vote.winner) }
    ensures candidates { IfOk result (λ vote. vote.candidates
        ≡ candidates_at (times basis.now) basis.now work.now k) }
{
    // the basis is sound, so a symbol has at most eight bits
    basis.n();
    let poll = poll_of(alloc, basis, work, k)?;
    let winner = first_most(&poll.tally);
    Ok(Election {
        winner: winner as u8,
        votes: poll.tally[winner],
        candidates: poll.candidates,
    })
}
