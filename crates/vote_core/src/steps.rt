//! The steps of a vote.

ghost use Rattle.std.specs.Prelude.{ℕ, ◌≡◌, ◌<◌, ◌≤◌, ◌^◌, List, All, length};
ghost use Rattle.order_theory.specs.Basis.{Basis, rank_at as rank_of, IsWord, IsSoundBasis};
ghost use Rattle.product_classes.specs.Table.{ClassTable, AreClassesOf};
ghost use Rattle.product_classes.specs.Values.{AreValues};
ghost use Rattle.vote_core.specs.Polls.{IsReady, Pursues, Comes, Says, without_ledger};
ghost use Rattle.vote_core.specs.Progress.{poll_of, IsProgress};
ghost use Rattle.vote_core.specs.Voters.{VoterState};

use crate::course::weight_of;
use crate::poll::Step;
use crate::progress::{Progress, first_free};
use crate::rows::{next_row, settle_row};
use crate::turns::{excludes, turn};
use crate::voter::Found;
use eval_basis::EvalBasis;
use gf_field::Field;
use product_classes::Classes;

/// Gives up: the working list becomes 0, and no line is told.
fn refuse(progress: &mut Progress) -> Step
    requires kept { IsProgress progress.old }
    ensures kept { IsProgress progress.new }
    ensures zeros { All (λ x. x ≡ 0) progress.new.list.items }
    ensures rest { progress.new ≡ record progress.old { list = progress.new.list; told = 0 } }
    ensures far { result ≡ Step.Ended Found.Far }
{
    progress.list.fill(0);
    progress.told = 0;
    Step::Ended(Found::Far)
}

/// Settles the next row. Where it has no entry that is known, no row below it has.
fn settle_next<F: Field>(basis: &EvalBasis<F>, classes: &Classes, progress: &mut Progress) -> Step
    requires kept { IsProgress progress.old }
    requires ready { IsReady basis.now classes.now (poll_of progress.old) }
    requires member { progress.old.member < basis.now.n }
    requires row { progress.old.row < basis.now.n }
    ensures kept { IsProgress progress.new }
    ensures comes { (v : VoterState) (y : List ℕ)
        → Pursues basis.now classes.now v y (poll_of progress.old)
        → Comes basis.now classes.now v y (poll_of progress.old) (poll_of progress.new) result }
    ensures numbers { without_ledger (poll_of progress.new).voter
        ≡ without_ledger (poll_of progress.old).voter }
    ensures room { length progress.new.values.items ≡ length progress.old.values.items }
{
    let i = progress.row;
    let limit = basis.rank_at(progress.member);
    settle_row(
        basis,
        classes,
        limit,
        i,
        &progress.values,
        &mut progress.matrix,
        &mut progress.scratch.row,
    );
    if progress.matrix.pivots() > progress.t {
        return refuse(progress);
    }
    progress.row = next_row(basis, limit, i, &progress.matrix);
    Step::Row(i)
}

/// Writes the values of the classes with sums from member k on to those of the next member, if there is one.
fn write_to_next<F: Field>(
    basis: &EvalBasis<F>,
    classes: &Classes,
    list: &[u8],
    k: u32,
    next: u32,
    row: &mut [u8],
    values: &mut [u8],
)
    requires classes { AreClassesOf basis.now classes.now }
    requires word { IsWord basis.now.bits basis.now.n list.now }
    requires member { k < basis.now.n }
    requires row { length row.old ≡ basis.now.n }
    requires room { classes.now.size ≤ length values.old }
    requires symbols { All (λ x. x < 2 ^ basis.now.bits) values.old }
    requires values { AreValues basis.now classes.now list.now values.old (rank_of basis.now k) }
    ensures symbols { All (λ x. x < 2 ^ basis.now.bits) values.new }
    ensures values { next < basis.now.n
        → AreValues basis.now classes.now list.now values.new (rank_of basis.now next) }
{
    if next < basis.n() {
        let from = basis.rank_at(k);
        let to = basis.rank_at(next);
        classes.write_sums(basis, list, from, to, row, values);
    }
}

/// Votes on the next member that is not checked.
fn elect_next<F: Field>(basis: &EvalBasis<F>, classes: &Classes, progress: &mut Progress) -> Step
    requires kept { IsProgress progress.old }
    requires ready { IsReady basis.now classes.now (poll_of progress.old) }
    requires member { progress.old.member < basis.now.n }
    requires row { progress.old.row ≡ basis.now.n }
    ensures kept { IsProgress progress.new }
    ensures comes { (v : VoterState) (y : List ℕ)
        → Pursues basis.now classes.now v y (poll_of progress.old)
        → Comes basis.now classes.now v y (poll_of progress.old) (poll_of progress.new) result }
    ensures numbers { without_ledger (poll_of progress.new).voter
        ≡ without_ledger (poll_of progress.old).voter }
    ensures room { length progress.new.values.items ≡ length progress.old.values.items }
{
    let k = progress.member;
    let line = turn(
        basis,
        classes,
        k,
        &mut progress.list,
        &mut progress.values,
        &mut progress.matrix,
        &mut progress.scratch,
    );
    if excludes(line, progress.t) {
        return refuse(progress);
    }
    progress.lines[progress.told] = line;
    progress.told += 1;
    let next = first_free(&progress.marks, k + 1);
    progress.member = next;
    progress.row = 0;
    write_to_next(
        basis,
        classes,
        &progress.list,
        k,
        next,
        &mut progress.scratch.row,
        &mut progress.values,
    );
    Step::Elected
}

/// The answer, where all members that are not checked were voted on: the working list is the one error that there can be.
fn end_vote(progress: &mut Progress) -> Step
    requires kept { IsProgress progress.old }
    ensures kept { IsProgress progress.new }
    ensures comes { (b : Basis) (table : ClassTable) (v : VoterState) (y : List ℕ)
        → IsSoundBasis b → progress.old.member ≡ b.n
        → Pursues b table v y (poll_of progress.old)
        → Comes b table v y (poll_of progress.old) (poll_of progress.new) result }
    ensures numbers { without_ledger (poll_of progress.new).voter
        ≡ without_ledger (poll_of progress.old).voter }
    ensures room { length progress.new.values.items ≡ length progress.old.values.items }
{
    if weight_of(&progress.list) > progress.t as usize {
        return refuse(progress);
    }
    Step::Ended(Found::Error)
}

/// Goes one step on.
pub fn go_on<F: Field>(basis: &EvalBasis<F>, classes: &Classes, progress: &mut Progress) -> Step
    requires kept { IsProgress progress.old }
    requires ready { IsReady basis.now classes.now (poll_of progress.old) }
    ensures kept { IsProgress progress.new }
    ensures comes { (v : VoterState) (y : List ℕ)
        → Pursues basis.now classes.now v y (poll_of progress.old)
        → Comes basis.now classes.now v y (poll_of progress.old) (poll_of progress.new) result }
    ensures numbers { without_ledger (poll_of progress.new).voter
        ≡ without_ledger (poll_of progress.old).voter }
    ensures room { length progress.new.values.items ≡ length progress.old.values.items }
{
    let n = basis.n();
    if progress.member == n {
        return end_vote(progress);
    }
    if progress.row < n {
        return settle_next(basis, classes, progress);
    }
    elect_next(basis, classes, progress)
}

/// Goes on to the end.
pub fn go_through<F: Field>(
    basis: &EvalBasis<F>,
    classes: &Classes,
    progress: &mut Progress,
) -> Found
    requires kept { IsProgress progress.old }
    requires pursues { (v : VoterState) × (y : List ℕ)
        × Pursues basis.now classes.now v y (poll_of progress.old) }
    ensures kept { IsProgress progress.new }
    ensures says { (v : VoterState) (y : List ℕ)
        → Pursues basis.now classes.now v y (poll_of progress.old)
        → Says basis.now v y result (poll_of progress.new) }
    ensures room { length progress.new.values.items ≡ length progress.old.values.items }
{
    loop {
        if let Step::Ended(found) = go_on(basis, classes, progress) {
            return found;
        }
    }
}
