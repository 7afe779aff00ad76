//! The code as coded files see it.

ghost use Rattle.std.specs.Prelude.{ℕ, ◌≡◌, ◌<◌, ◌≤◌, List, map, length, slice_index};
ghost use Rattle.stored_form.specs.Form.{message_of};
ghost use Rattle.block_code.specs.Compiled.{form_in, numbers_of};

use crate::bench::Bench;
use crate::code::Code;
use coded_block::{BlockBench, BlockCode, Verdict};
use gf_field::Field;
use std::alloc::{AllocError, Global};

impl BlockBench for Bench {
    ghost numbers = { λ b. b.numbers };
}

impl<F: Field> BlockCode for Code<F> {
    type Bench = Bench;

    ghost form = { form_in };

    ghost numbers = { numbers_of };

    fn n(&self) -> u32 {
        Code::n(self)
    }

    fn k(&self) -> u32 {
        Code::k(self)
    }

    fn bits(&self) -> u32 {
        Code::bits(self)
    }

    fn bench(&self, alloc: Global) -> Result<Bench, AllocError> {
        Bench::new(alloc, self)
    }

    fn encode_block(&self, msg: &[u8], word: &mut [u8]) {
        Code::encode_block(self, msg, word);
    }

    fn decode_block(&self, bench: &mut Bench, got: &[u8], word: &mut [u8]) -> Verdict {
        Code::repair_block(self, bench, got, word)
    }

    fn message(&self, word: &[u8], msg: &mut [u8]) {
        take_places(self.parity().places(), word, msg);
    }
}

// Writes the symbols of a word at these places.
pub fn take_places(places: &[u32], word: &[u8], msg: &mut [u8])
    requires same { length msg.old ≡ length places.now }
    requires within { (i : ℕ) → i < length places.now → slice_index places.now i < length word.now }
    ensures { msg.new ≡ map (slice_index word.now) places.now }
{
    for i in 0..msg.len() {
        msg[i] = word[places[i] as usize];
    }
}
