//! The vote as steps.

ghost use Rattle.std.specs.Prelude.{ℕ, ◌≡◌, ◌+◌, ◌*◌, ◌<◌, ◌≤◌, [], List, length, IfOk, false};
ghost use Rattle.order_theory.specs.Basis.{IsWord};
ghost use Rattle.order_theory.specs.Codes.{marked, IsBound};
ghost use Rattle.product_classes.specs.Table.{HasColumns, IsRoomFor};

use crate::ledger::VoteLine;
use crate::progress::{Progress, new_progress, start};
use crate::runs::{run, run_in_room};
use crate::steps::go_on;
use crate::voter::Found;
use eval_basis::{Checked, EvalBasis};
use gf_field::Field;
use product_classes::Classes;
use std::alloc::{AllocError, Global};
use std::marker::Model;
use vote_matrix::GrowingRows;

/// What a step did.
#[derive(Clone, Copy, PartialEq, Eq, Debug)]
pub enum Step {
    /// This row was settled as far as it is known below the next member that is not checked.
    Row(u32),
    /// The next member that is not checked was voted on, and the working list took its syndrome on.
    Elected,
    /// The answer is there.
    Ended(Found),
}

/// The decoder as steps, with its room: rows of the matrix are settled one by one, and where all are, the next member that is
/// not checked is voted on. It may be used with each basis that it fits, and so often as one likes.
#[derive(Drop)]
pub struct Poll {
    progress: Progress,
}

impl Model for Poll {
    ghost use Rattle.vote_core.specs.Polls.{PollState};

    ghost Value = { PollState };

    ghost use Rattle.vote_core.specs.Progress.{poll_of, IsProgress};

    ghost view = { λ a. poll_of a.progress };

    ghost invariant = { λ a. IsProgress a.progress };
}

impl Poll {
    ghost use Rattle.vote_core.specs.Polls.{PollState, CanPursue, IsReady, Pursues, Comes, Says, without_ledger};
    ghost use Rattle.vote_core.specs.Voters.{VoterState, Fits};

    /// A poll for the members that are not checked, with room for so many values of classes (`Classes::len`). It corrects up
    /// to t symbols.
    pub fn new<F: Field>(
        alloc: Global,
        basis: &EvalBasis<F>,
        room: usize,
        checked: &Checked,
        t: u32,
    ) -> Result<Poll, AllocError>
        requires marks { length checked.now ≡ basis.now.n }
        requires some_free { (k : ℕ) × (k < basis.now.n) × (marked checked.now k ≡ false) }
        requires radius { IsBound basis.now checked.now (2 * t + 1) }
        ensures voter { IfOk result (λ p. p.voter ≡ record {
          bits = basis.now.bits;
          modulus = basis.now.modulus;
          n = basis.now.n;
          marks = checked.now;
          t = t;
          ledger = [];
        }) }
        ensures room { IfOk result (λ p. length p.values ≡ room) }
    {
        Ok(Poll {
            progress: new_progress(alloc, basis, room, checked, t)?,
        })
    }

    /// Begins with a list that was received. Nothing is settled, and the first member that is not checked comes next.
    pub fn start<F: Field>(&mut self, basis: &EvalBasis<F>, classes: &Classes, list: &[u8])
        requires can { CanPursue basis.now classes.now self.old }
        requires columns { HasColumns basis.now classes.now }
        requires word { IsWord basis.now.bits basis.now.n list.now }
        ensures pursues { Pursues basis.now classes.now self.old.voter list.now self.new }
        ensures room { length self.new.values ≡ length self.old.values }
    {
        start(basis, classes, list, &mut self.progress);
    }

    /// Goes one step on. It takes no memory.
    pub fn step<F: Field>(&mut self, basis: &EvalBasis<F>, classes: &Classes) -> Step
        requires ready { IsReady basis.now classes.now self.old }
        ensures comes { (v : VoterState) (y : List ℕ) → Pursues basis.now classes.now v y self.old
            → Comes basis.now classes.now v y self.old self.new result }
        ensures numbers { without_ledger self.new.voter ≡ without_ledger self.old.voter }
        ensures room { length self.new.values ≡ length self.old.values }
    {
        go_on(basis, classes, &mut self.progress)
    }

    /// The answer for a list that was received, by all steps in turn.
    pub fn run<F: Field>(&mut self, basis: &EvalBasis<F>, classes: &Classes, list: &[u8]) -> Found
        requires can { CanPursue basis.now classes.now self.old }
        requires columns { HasColumns basis.now classes.now }
        requires word { IsWord basis.now.bits basis.now.n list.now }
        ensures says { Says basis.now self.old.voter list.now result self.new }
        ensures room { length self.new.values ≡ length self.old.values }
    {
        run(basis, classes, list, &mut self.progress)
    }

    // As `run`, with classes that are found in this room.
    pub(crate) fn run_in_room<F: Field>(
        &mut self,
        basis: &EvalBasis<F>,
        classes: &mut Classes,
        list: &[u8],
    ) -> Found
        requires fits { Fits self.old.voter basis.now }
        requires classes { IsRoomFor basis.now.n classes.old }
        requires long { classes.old.size ≤ length self.old.values }
        requires word { IsWord basis.now.bits basis.now.n list.now }
        ensures says { Says basis.now self.old.voter list.now result self.new }
        ensures room { length self.new.values ≡ length self.old.values }
        ensures classes { IsRoomFor basis.now.n classes.new }
    {
        run_in_room(basis, classes, list, &mut self.progress)
    }

    /// The matrix of the working list, as far as it is settled.
    pub fn matrix(&self) -> &GrowingRows
        ensures matrix { result.now ≡ self.now.matrix }
        ensures bits { result.now.bits ≡ self.now.voter.bits }
        ensures modulus { result.now.modulus ≡ self.now.voter.modulus }
        ensures n { result.now.n ≡ self.now.voter.n }
    {
        &self.progress.matrix
    }

    /// After Error the error, after Far only 0; before, the working list.
    pub fn error(&self) -> &[u8]
        ensures error { result.now ≡ self.now.list }
        ensures long { length result.now ≡ self.now.voter.n }
    {
        &self.progress.list
    }

    /// After Error one line for each unchecked member, in rising order, with more right candidates than wrong ones; before, the
    /// lines of the members that were voted on. Empty after Far.
    pub fn ledger(&self) -> &[VoteLine]
        ensures { result.now ≡ self.now.voter.ledger }
    {
        &self.progress.lines[..self.progress.told]
    }
}
