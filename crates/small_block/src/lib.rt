//! The small code of `stored_form` as a code of blocks: eight symbols over the field of four elements, found by a search
//! through its 64 words. It is a yardstick for tests of whatever works over any code of blocks.
#![tactic(auto)]

ghost use Rattle.std.specs.Prelude.{ℕ, ◌≡◌, ◌+◌, ◌*◌, ◌%◌, ◌<◌, ◌≤◌, ◌^◌, List, length, map, All, slice_index, slice_index_or, IfOk};
ghost use Rattle.std.specs.Option.{unwrap_or};
ghost use Rattle.stored_form.specs.Form.{Form, distance as distance_of};
ghost use Rattle.stored_form.specs.Search.{first_within};
ghost use Rattle.stored_form.specs.SmallCode.{small_form};
ghost use Rattle.coded_block.specs.Codes.{BenchNumbers, verdict_by};
ghost use Rattle.small_block.specs.Numbers.{small_numbers};

use coded_block::{BlockBench, BlockCode, Verdict};
use std::alloc::{AllocError, Global};

/// The words of the code, by their messages.
static WORDS: [[u8; 8]; 64] = [
    [0, 0, 0, 0, 0, 0, 0, 0],
    [0, 0, 1, 1, 2, 2, 3, 3],
    [0, 0, 2, 2, 3, 3, 1, 1],
    [0, 0, 3, 3, 1, 1, 2, 2],
    [0, 1, 0, 1, 1, 0, 3, 2],
    [0, 1, 1, 0, 3, 2, 0, 1],
    [0, 1, 2, 3, 2, 3, 2, 3],
    [0, 1, 3, 2, 0, 1, 1, 0],
    [0, 2, 0, 2, 2, 0, 1, 3],
    [0, 2, 1, 3, 0, 2, 2, 0],
    [0, 2, 2, 0, 1, 3, 0, 2],
    [0, 2, 3, 1, 3, 1, 3, 1],
    [0, 3, 0, 3, 3, 0, 2, 1],
    [0, 3, 1, 2, 1, 2, 1, 2],
    [0, 3, 2, 1, 0, 3, 3, 0],
    [0, 3, 3, 0, 2, 1, 0, 3],
    [1, 0, 0, 1, 2, 3, 1, 0],
    [1, 0, 1, 0, 0, 1, 2, 3],
    [1, 0, 2, 3, 1, 0, 0, 1],
    [1, 0, 3, 2, 3, 2, 3, 2],
    [1, 1, 0, 0, 3, 3, 2, 2],
    [1, 1, 1, 1, 1, 1, 1, 1],
    [1, 1, 2, 2, 0, 0, 3, 3],
    [1, 1, 3, 3, 2, 2, 0, 0],
    [1, 2, 0, 3, 0, 3, 0, 3],
    [1, 2, 1, 2, 2, 1, 3, 0],
    [1, 2, 2, 1, 3, 0, 1, 2],
    [1, 2, 3, 0, 1, 2, 2, 1],
    [1, 3, 0, 2, 1, 3, 3, 1],
    [1, 3, 1, 3, 3, 1, 0, 2],
    [1, 3, 2, 0, 2, 0, 2, 0],
    [1, 3, 3, 1, 0, 2, 1, 3],
    [2, 0, 0, 2, 3, 1, 2, 0],
    [2, 0, 1, 3, 1, 3, 1, 3],
    [2, 0, 2, 0, 0, 2, 3, 1],
    [2, 0, 3, 1, 2, 0, 0, 2],
    [2, 1, 0, 3, 2, 1, 1, 2],
    [2, 1, 1, 2, 0, 3, 2, 1],
    [2, 1, 2, 1, 1, 2, 0, 3],
    [2, 1, 3, 0, 3, 0, 3, 0],
    [2, 2, 0, 0, 1, 1, 3, 3],
    [2, 2, 1, 1, 3, 3, 0, 0],
    [2, 2, 2, 2, 2, 2, 2, 2],
    [2, 2, 3, 3, 0, 0, 1, 1],
    [2, 3, 0, 1, 0, 1, 0, 1],
    [2, 3, 1, 0, 2, 3, 3, 2],
    [2, 3, 2, 3, 3, 2, 1, 0],
    [2, 3, 3, 2, 1, 0, 2, 3],
    [3, 0, 0, 3, 1, 2, 3, 0],
    [3, 0, 1, 2, 3, 0, 0, 3],
    [3, 0, 2, 1, 2, 1, 2, 1],
    [3, 0, 3, 0, 0, 3, 1, 2],
    [3, 1, 0, 2, 0, 2, 0, 2],
    [3, 1, 1, 3, 2, 0, 3, 1],
    [3, 1, 2, 0, 3, 1, 1, 3],
    [3, 1, 3, 1, 1, 3, 2, 0],
    [3, 2, 0, 1, 3, 2, 2, 3],
    [3, 2, 1, 0, 1, 0, 1, 0],
    [3, 2, 2, 3, 0, 1, 3, 2],
    [3, 2, 3, 2, 2, 3, 0, 1],
    [3, 3, 0, 0, 2, 2, 1, 1],
    [3, 3, 1, 1, 0, 0, 2, 2],
    [3, 3, 2, 2, 1, 1, 0, 0],
    [3, 3, 3, 3, 3, 3, 3, 3],
];

/// The code. Contracts see it as `small_form 1`, which stands for it in groups of any depth and layout.
#[derive(Clone, Copy)]
pub struct SmallCode;

/// Decoding by search needs no memory.
#[derive(Drop)]
pub struct SmallBench;

impl BlockBench for SmallBench {
    ghost numbers = { λ s. small_numbers };
}

impl BlockCode for SmallCode {
    type Bench = SmallBench;

    ghost form = { λ s. small_form 1 };

    ghost numbers = { λ s. small_numbers };

    fn n(&self) -> u32 {
        8
    }

    fn k(&self) -> u32 {
        3
    }

    fn bits(&self) -> u32 {
        2
    }

    fn bench(&self, _alloc: Global) -> Result<SmallBench, AllocError> {
        Ok(SmallBench)
    }

    fn encode_block(&self, msg: &[u8], word: &mut [u8]) {
        let number = msg[0] as usize * 16 + msg[1] as usize * 4 + msg[2] as usize;
        word.copy_from_slice(&WORDS[number]);
    }

    fn decode_block(&self, _bench: &mut SmallBench, got: &[u8], word: &mut [u8]) -> Verdict {
        search(&WORDS, got, word)
    }

    fn message(&self, word: &[u8], msg: &mut [u8]) {
        msg.copy_from_slice(&word[..3]);
    }
}

/// Writes the first of some words at which a block differs in at most two places, or else the low bits of the block.
fn search(words: &[[u8; 8]], got: &[u8], word: &mut [u8]) -> Verdict
    requires got_long { length got.now ≡ 8 }
    requires word_long { length word.old ≡ 8 }
    ensures word { word.new
        ≡ unwrap_or (first_within 2 words.now got.now) (map (λ b. b % 4) got.now) }
    ensures verdict { result ≡ verdict_by got.now (first_within 2 words.now got.now) }
{
    for candidate in words {
        let changes = distance(got, candidate);
        if changes <= 2 {
            word.copy_from_slice(candidate);
            return Verdict::Near { changes };
        }
    }
    low_bits(got, word);
    Verdict::Beyond
}

/// At how many places two lists differ.
fn distance(xs: &[u8], ys: &[u8]) -> u32
    requires few { length xs.now ≤ 8 }
    requires same { length ys.now ≡ length xs.now }
    ensures { result ≡ distance_of xs.now ys.now }
{
    let mut count: u32 = 0;
    for p in 0..xs.len() {
        if xs[p] != ys[p] {
            count += 1;
        }
    }
    count
}

/// The symbols of bytes.
fn low_bits(got: &[u8], word: &mut [u8])
    requires { length word.old ≡ length got.now }
    ensures { word.new ≡ map (λ b. b % 4) got.now }
{
    for p in 0..got.len() {
        word[p] = got[p] % 4;
    }
}

#[cfg(test)]
mod tests;
