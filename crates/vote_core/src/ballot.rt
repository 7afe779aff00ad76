//! The vote on one member.

ghost use Rattle.std.specs.Prelude.{ℕ, ◌≡◌, ◌+◌, ◌<◌, ◌≤◌, ◌^◌, List, length, slice_index, All, IfSome};
ghost use Rattle.std.specs.List.{IsFirstMaxByKey};
ghost use Rattle.order_theory.specs.Basis.{times, rank_at as rank_of, IsWord};
ghost use Rattle.order_theory.specs.Errors.{entry, syndrome as syndrome_of};
ghost use Rattle.order_theory.specs.Voting.{IsElected, votes_at, candidates_at};
ghost use Rattle.product_classes.specs.Table.{AreClassesOf};
ghost use Rattle.product_classes.specs.Values.{AreValues};
ghost use Rattle.vote_core.specs.Reading.{IsSettled, IsRead};
ghost use Rattle.vote_core.specs.Votes.{RowVotes, AreVotes, IsShown};
ghost use Rattle.vote_core.specs.Rooms.{IsScratch};

use crate::course::syndrome;
use crate::room::Scratch;
use eval_basis::EvalBasis;
use gf_field::Field;
use product_classes::Classes;
use vote_matrix::GrowingRows;

/// How the vote on one member went.
#[derive(Clone, Copy)]
pub struct Election {
    /// The least of the values with the most votes.
    pub winner: u8,
    /// How many candidates voted for it.
    pub votes: u32,
    /// How many candidates there were.
    pub candidates: u32,
}

/// What row i says of member k, whose syndrome of the working list is `known`.
fn row_vote<F: Field>(
    basis: &EvalBasis<F>,
    classes: &Classes,
    k: u32,
    known: u8,
    i: u32,
    values: &[u8],
    matrix: &GrowingRows,
) -> Option<u8>
    requires classes { AreClassesOf basis.now classes.now }
    requires member { k < basis.now.n }
    requires known { known < 2 ^ basis.now.bits }
    requires row { i < basis.now.n }
    requires values { classes.now.size ≤ length values.now }
    requires symbols { All (λ x. x < 2 ^ basis.now.bits) values.now }
    requires settled { IsSettled basis.now matrix.now (rank_of basis.now k) basis.now.n }
    ensures vote { (w : List ℕ) → IsShown basis.now classes.now w values.now matrix.now k known
        → RowVotes basis.now w k i result }
    ensures symbol { IfSome result (λ v. v < 2 ^ basis.now.bits) }
{
    let sum = basis.rank_at(k);
    let j = matrix.reach(i);
    if j == basis.n() || basis.sum_at(i, j) != sum {
        return None;
    }
    if !matrix.candidate(i, j) {
        return None;
    }
    let f = basis.field();
    let entry = classes.value_at(i, j, values);
    let kept = matrix.residue(f, i, j);
    let inverse = f.inv(basis.lead(i, j));
    Some(f.add(f.mul(inverse, f.add(kept, entry)), known))
}

/// What row i says of member k. It is written down.
fn cast_vote<F: Field>(
    basis: &EvalBasis<F>,
    classes: &Classes,
    k: u32,
    known: u8,
    i: u32,
    values: &[u8],
    matrix: &GrowingRows,
    scratch: &mut Scratch,
) -> Option<u8>
    requires classes { AreClassesOf basis.now classes.now }
    requires member { k < basis.now.n }
    requires known { known < 2 ^ basis.now.bits }
    requires row { i < basis.now.n }
    requires values { classes.now.size ≤ length values.now }
    requires symbols { All (λ x. x < 2 ^ basis.now.bits) values.now }
    requires settled { IsSettled basis.now matrix.now (rank_of basis.now k) basis.now.n }
    requires scratch { IsScratch basis.now scratch.old }
    ensures vote { (w : List ℕ) → IsShown basis.now classes.now w values.now matrix.now k known
        → RowVotes basis.now w k i result }
    ensures votes { (w : List ℕ) → IsShown basis.now classes.now w values.now matrix.now k known
        → AreVotes basis.now w k scratch.old.votes.items i
        → AreVotes basis.now w k scratch.new.votes.items (i + 1) }
    ensures symbol { IfSome result (λ v. v < 2 ^ basis.now.bits) }
    ensures scratch { IsScratch basis.now scratch.new }
    ensures tally { scratch.new.tally ≡ scratch.old.tally }
{
    let vote = row_vote(basis, classes, k, known, i, values, matrix);
    scratch.votes[i as usize] = vote;
    vote
}

/// The least value with the greatest tally.
fn first_most(tally: &[u32]) -> usize
    requires { 0 < length tally.now }
    ensures { IsFirstMaxByKey (λ x. x) tally.now (length tally.now) result }
{
    let mut best = 0;
    for v in 1..tally.len() {
        if tally[v] > tally[best] {
            best = v;
        }
    }
    best
}

/// The vote on member k.
pub fn elect<F: Field>(
    basis: &EvalBasis<F>,
    classes: &Classes,
    list: &[u8],
    k: u32,
    values: &[u8],
    matrix: &GrowingRows,
    scratch: &mut Scratch,
) -> Election
    requires classes { AreClassesOf basis.now classes.now }
    requires word { IsWord basis.now.bits basis.now.n list.now }
    requires member { k < basis.now.n }
    requires room { classes.now.size ≤ length values.now }
    requires symbols { All (λ x. x < 2 ^ basis.now.bits) values.now }
    requires values { AreValues basis.now classes.now list.now values.now
        (rank_of basis.now k + 1) }
    requires read { IsRead basis.now list.now matrix.now (rank_of basis.now k) basis.now.n }
    requires scratch { IsScratch basis.now scratch.old }
    ensures elected { IsElected (times basis.now) basis.now list.now k result.winner }
    ensures votes { result.votes ≡ votes_at (times basis.now) basis.now list.now k result.winner }
    ensures candidates { result.candidates ≡ candidates_at (times basis.now) basis.now list.now k }
    ensures all_votes { AreVotes basis.now list.now k scratch.new.votes.items basis.now.n }
    ensures scratch { IsScratch basis.now scratch.new }
{
    scratch.tally.fill(0);
    let known = syndrome(basis, list, k);
    let mut candidates = 0;
    for i in 0..basis.n() {
        if let Some(v) = cast_vote(basis, classes, k, known, i, values, matrix, scratch) {
            scratch.tally[v as usize] += 1;
            candidates += 1;
        }
    }
    let winner = first_most(&scratch.tally);
    Election {
        winner: winner as u8,
        votes: scratch.tally[winner],
        candidates,
    }
}
