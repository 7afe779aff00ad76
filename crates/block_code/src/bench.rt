//! The memory that decoding a block uses, and its ledger.

ghost use Rattle.std.specs.Prelude.{ℕ, ◌≡◌, ◌+◌, ◌<◌, ◌≤◌, ◌*◌, [], List, All, length, IfOk};
ghost use Rattle.order_theory.specs.Basis.{IsSoundBasis};
ghost use Rattle.block_code.specs.Benches.{is_near as is_near_of};
ghost use Rattle.block_code.specs.Compiled.{IsMade, numbers_of};
ghost use Rattle.block_code.specs.Decoding.{IsVerdict, ledger_after};

use crate::code::Code;
use crate::correction::{find_near, repair_near};
use coded_block::Verdict;
use error_guess::Guess;
use gf_field::Field;
use std::alloc::{AllocError, Global};
use std::marker::Model;
use vote_core::{Poll, VoteLine};

/// The memory to decode one block at a time. Contracts see what it keeps of the code that it was made for, and its ledger.
#[derive(Drop)]
pub struct Bench {
    poll: Poll,
    guess: Guess,
    // room for the sum of a block and a codeword
    differences: Vec<u8>,
    // room for a message
    msg: Vec<u8>,
    // whether the last block was near a codeword, and its ledger was asked for
    told: bool,
}

impl Model for Bench {
    ghost use Rattle.block_code.specs.Benches.{BenchState};

    ghost Value = { BenchState };

    ghost use Rattle.std.specs.Prelude.{length};
    ghost use Rattle.block_code.specs.Benches.{state_of, PartsFit};

    ghost view = { λ s. state_of s.poll.voter s.told };

    ghost invariant = { λ s. PartsFit s.poll s.guess
        (length s.differences.items) (length s.msg.items) };
}

fn is_near(verdict: Verdict) -> bool
    ensures { result ≡ is_near_of verdict }
{
    match verdict {
        Verdict::Near { .. } => true,
        Verdict::Beyond => false,
    }
}

impl Bench {
    /// A bench for a code, with an empty ledger.
    pub fn new<F: Field>(alloc: Global, code: &Code<F>) -> Result<Bench, AllocError>
        ensures { IfOk result (λ b. b ≡ record { numbers = numbers_of code.now; ledger = [] }) }
    {
        let (basis, radius) = (code.basis(), code.radius());
        let n = code.n() as usize;
        Ok(Bench {
            poll: Poll::new(alloc, basis, n * n + 15, code.checked(), radius)?,
            guess: Guess::new(alloc, basis, code.classes().first(), radius)?,
            differences: vec![in alloc; 0; n]?,
            msg: vec![in alloc; 0; n]?,
            told: false,
        })
    }

    /// After `Code::decode_block` and Near one line for each member that is not checked, in rising order, with more right
    /// candidates than wrong ones. Empty after Beyond, after `Code::repair_block` and before the first block.
    pub fn ledger(&self) -> &[VoteLine]
        ensures { result.now ≡ self.now.ledger }
    {
        if self.told { self.poll.ledger() } else { &[] }
    }

    // As `Code::decode_block` says.
    pub(crate) fn decode<F: Field>(
        &mut self,
        code: &Code<F>,
        got: &[u8],
        word: &mut [u8],
    ) -> Verdict
        requires fits { self.old.numbers ≡ numbers_of code.now }
        requires received { length got.now ≡ code.now.basis.n }
        requires positions { length word.old ≡ code.now.basis.n }
        ensures verdict { IsVerdict code.now got.now word.new result }
        ensures bench { self.new
            ≡ record self.old { ledger = ledger_after code.now got.now word.new result } }
        ensures majority { All (λ line. line.wrong < line.right) self.new.ledger }
        ensures made { IsMade code.now }
    {
        let verdict = find_near(&mut self.poll, &mut self.differences, code, got, word);
        self.told = is_near(verdict);
        verdict
    }

    // As `Code::repair_block` says.
    pub(crate) fn repair<F: Field>(
        &mut self,
        code: &Code<F>,
        got: &[u8],
        word: &mut [u8],
    ) -> Verdict
        requires fits { self.old.numbers ≡ numbers_of code.now }
        requires received { length got.now ≡ code.now.basis.n }
        requires positions { length word.old ≡ code.now.basis.n }
        ensures verdict { IsVerdict code.now got.now word.new result }
        ensures bench { self.new ≡ record self.old { ledger = [] } }
        ensures made { IsMade code.now }
    {
        self.told = false;
        repair_near(
            &mut self.poll,
            &mut self.guess,
            code,
            got,
            &mut self.differences,
            &mut self.msg,
            word,
        )
    }
}
