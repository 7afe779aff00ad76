//! A vote from a list that was received to the answer.

ghost use Rattle.std.specs.Prelude.{ℕ, ◌≡◌, ◌≢◌, ◌*◌, ◌≤◌, List, All, length, take, IsTrue, true, false};
ghost use Rattle.order_theory.specs.Basis.{IsWord};
ghost use Rattle.product_classes.specs.Table.{HasColumns, IsRoomFor};
ghost use Rattle.vote_core.specs.Ledgers.{ledger_of};
ghost use Rattle.vote_core.specs.Polls.{CanPursue, Says};
ghost use Rattle.vote_core.specs.Progress.{poll_of, IsProgress};
ghost use Rattle.vote_core.specs.Voters.{Fits};

use crate::course::is_undamaged;
use crate::ledger::VoteLine;
use crate::progress::{Progress, start};
use crate::steps::go_through;
use crate::voter::Found;
use eval_basis::EvalBasis;
use gf_field::Field;
use product_classes::Classes;

/// Writes the ledger of no error: each pair is a right candidate.
fn write_unanimous<F: Field>(basis: &EvalBasis<F>, marks: &[bool], lines: &mut [VoteLine]) -> usize
    requires marks { length marks.now ≡ basis.now.n }
    requires lines { length lines.old ≡ basis.now.n }
    ensures lines { (e : List ℕ) → IsWord basis.now.bits basis.now.n e → All (λ x. x ≡ 0) e
        → take result lines.new ≡ ledger_of basis.now marks.now e }
    ensures few { result ≤ basis.now.n }
{
    let mut told = 0;
    for k in 0..basis.n() {
        if !marks[k as usize] {
            let pairs = basis.pairs(k);
            lines[told] = VoteLine {
                label: basis.label(k),
                pairs,
                right: pairs,
                wrong: 0,
            };
            told += 1;
        }
    }
    told
}

/// Whether a list is in the code. Then there is no error, and the answer says so.
fn answer_none<F: Field>(basis: &EvalBasis<F>, list: &[u8], progress: &mut Progress) -> bool
    requires kept { IsProgress progress.old }
    requires fits { Fits (poll_of progress.old).voter basis.now }
    requires word { IsWord basis.now.bits basis.now.n list.now }
    ensures kept { IsProgress progress.new }
    ensures says { IsTrue result → Says basis.now (poll_of progress.old).voter list.now
        Found.Error (poll_of progress.new) }
    ensures room { length progress.new.values.items ≡ length progress.old.values.items }
    ensures same { result ≡ false → progress.new ≡ progress.old }
{
    if !is_undamaged(basis, &progress.marks, list) {
        return false;
    }
    progress.list.fill(0);
    progress.told = write_unanimous(basis, &progress.marks, &mut progress.lines);
    true
}

/// The answer for a list that was received.
pub fn run<F: Field>(
    basis: &EvalBasis<F>,
    classes: &Classes,
    list: &[u8],
    progress: &mut Progress,
) -> Found
    requires kept { IsProgress progress.old }
    requires can { CanPursue basis.now classes.now (poll_of progress.old) }
    requires columns { HasColumns basis.now classes.now }
    requires word { IsWord basis.now.bits basis.now.n list.now }
    ensures kept { IsProgress progress.new }
    ensures says { Says basis.now (poll_of progress.old).voter list.now result
        (poll_of progress.new) }
    ensures room { length progress.new.values.items ≡ length progress.old.values.items }
{
    if answer_none(basis, list, progress) {
        return Found::Error;
    }
    start(basis, classes, list, progress);
    go_through(basis, classes, progress)
}

/// The answer for a list that was received. The classes are found in this room.
pub fn run_in_room<F: Field>(
    basis: &EvalBasis<F>,
    classes: &mut Classes,
    list: &[u8],
    progress: &mut Progress,
) -> Found
    requires kept { IsProgress progress.old }
    requires fits { Fits (poll_of progress.old).voter basis.now }
    requires classes { IsRoomFor basis.now.n classes.old }
    requires long { classes.old.size ≤ length progress.old.values.items }
    requires word { IsWord basis.now.bits basis.now.n list.now }
    ensures kept { IsProgress progress.new }
    ensures says { Says basis.now (poll_of progress.old).voter list.now result
        (poll_of progress.new) }
    ensures room { length progress.new.values.items ≡ length progress.old.values.items }
    ensures classes { IsRoomFor basis.now.n classes.new }
{
    if answer_none(basis, list, progress) {
        return Found::Error;
    }
    classes.fill(basis, 0);
    start(basis, classes, list, progress);
    go_through(basis, classes, progress)
}
