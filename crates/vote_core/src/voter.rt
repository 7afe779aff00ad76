//! The decoder and its ledger.

ghost use Rattle.std.specs.Prelude.{ℕ, ◌≡◌, ◌+◌, ◌*◌, ◌<◌, ◌≤◌, ◌^◌, [], length, take, List, All, IfOk, IfSome, IfNone, Some, None, MatchOption, false};
ghost use Rattle.order_theory.specs.Basis.{times, IsWord, IsSoundBasis};
ghost use Rattle.order_theory.specs.Codes.{marked, low_bits, IsBound};
ghost use Rattle.order_theory.specs.Course.{IsErrorOf};
ghost use Rattle.vote_core.specs.Ledgers.{ledger_of};

use crate::ledger::VoteLine;
use crate::poll::Poll;
use eval_basis::{Checked, EvalBasis};
use gf_field::Field;
use product_classes::Classes;
use std::alloc::{AllocError, Global};
use std::marker::Model;

/// Whether there is an error of weight at most t that leads what was received into the code.
#[derive(Clone, Copy, PartialEq, Eq, Debug)]
pub enum Found {
    Error,
    Far,
}

/// The low bits of each byte.
fn low_symbols(bits: u32, bytes: &[u8], symbols: &mut [u8])
    requires bits { bits ≤ 8 }
    requires same { length bytes.now ≡ length symbols.old }
    ensures { symbols.new ≡ low_bits bits bytes.now }
{
    let size = 1u32 << bits;
    for p in 0..symbols.len() {
        symbols[p] = (u32::from(bytes[p]) % size) as u8;
    }
}

/// The decoder with its room. It may be used with each basis that it fits.
#[derive(Drop)]
pub struct Voter {
    poll: Poll,
    classes: Classes,
}

impl Model for Voter {
    ghost use Rattle.vote_core.specs.Voters.{VoterState};

    ghost Value = { VoterState };

    ghost use Rattle.vote_core.specs.Kept.{state_of, IsKept};

    ghost view = { state_of };

    ghost invariant = { IsKept };
}

impl Voter {
    ghost use Rattle.vote_core.specs.Voters.{Fits, Told};
    ghost use Rattle.vote_core.specs.Found.{IsAnswer};

    /// A voter for the members that are not checked. It corrects up to t symbols.
    pub fn new<F: Field>(
        alloc: Global,
        basis: &EvalBasis<F>,
        checked: &Checked,
        t: u32,
    ) -> Result<Voter, AllocError>
        requires marks { length checked.now ≡ basis.now.n }
        requires some_free { (k : ℕ) × (k < basis.now.n) × (marked checked.now k ≡ false) }
        requires radius { IsBound basis.now checked.now (2 * t + 1) }
        ensures { IfOk result (λ v. v ≡ record {
          bits = basis.now.bits;
          modulus = basis.now.modulus;
          n = basis.now.n;
          marks = checked.now;
          t = t;
          ledger = [];
        }) }
    {
        let classes = Classes::room(alloc, basis.n())?;
        let poll = Poll::new(alloc, basis, classes.len(), checked, t)?;
        Ok(Voter { poll, classes })
    }

    /// Error: `err` has at most t symbols that are not 0, and the low bits of `got` and `err` together are in the code.
    /// Far: there is no such list, and `err` is all 0. It takes no memory.
    pub fn find<F: Field>(&mut self, basis: &EvalBasis<F>, got: &[u8], err: &mut [u8]) -> Found
        requires fits { Fits self.old basis.now }
        requires received { length got.now ≡ basis.now.n }
        requires room { length err.old ≡ basis.now.n }
        ensures answer { IsAnswer basis.now self.old.marks self.old.t
            (low_bits basis.now.bits got.now) err.new result }
        ensures ledger { Told basis.now self.old err.new result self.new }
    {
        low_symbols(basis.bits(), got, err);
        let found = self.poll.run_in_room(basis, &mut self.classes, err);
        err.copy_from_slice(self.poll.error());
        found
    }

    /// After Error one line for each unchecked member, in rising order, with more right candidates than wrong ones. Empty
    /// after Far and before the first `find`.
    pub fn ledger(&self) -> &[VoteLine]
        ensures { result.now ≡ self.now.ledger }
    {
        self.poll.ledger()
    }
}
