//! The codewords of a window, each with what decoding it takes.

ghost use Rattle.std.specs.Prelude.{ℕ, ◌≡◌, ◌<◌, ◌≤◌, ◌^◌, ◌++◌, List, length, take, drop, All, map, IfOk};
ghost use Rattle.stored_form.specs.Form.{Form};
ghost use Rattle.stream_codec.specs.Slots.{SlotState, CanDecode, loaded, decoded};

use ag_pool::{Gate, Work, Workers, each};
use coded_block::{BlockBench, BlockCode, Verdict};
use std::alloc::{AllocError, Global};
use std::marker::Model;
use std::thread::Threads;

/// One codeword of a window: the bench that decodes it, the block that came, its codeword and what was found.
#[derive(Drop)]
pub struct Slot<B: BlockBench> {
    bench: B,
    got: Vec<u8>,
    word: Vec<u8>,
    verdict: Verdict,
}

impl<B: BlockBench> Model for Slot<B> {
    ghost use Rattle.stream_codec.specs.Slots.{SlotState};

    ghost Value = { SlotState };

    ghost view = { λ s. record {
      bench = B.numbers s.bench;
      got = s.got.items;
      word = s.word.items;
      verdict = s.verdict;
    } };
}

impl<B: BlockBench> Slot<B> {
    /// A slot for blocks of a code.
    pub fn new<C: BlockCode<Bench = B>>(alloc: Global, code: &C) -> Result<Slot<B>, AllocError>
        ensures { IfOk result (CanDecode (C.form code.now) (C.numbers code.now)) }
    {
        let n = code.n() as usize;
        let bench = code.bench(alloc)?;
        let got = vec![in alloc; 0u8; n]?;
        let word = vec![in alloc; 0u8; n]?;
        Ok(Slot {
            bench,
            got,
            word,
            verdict: Verdict::Beyond,
        })
    }

    /// Takes a block.
    pub fn load(&mut self, block: &[u8])
        requires { length block.now ≡ length self.old.got }
        ensures { self.new ≡ loaded self.old block.now }
    {
        self.got.copy_from_slice(block);
    }

    /// The block that came.
    pub fn got(&self) -> &[u8]
        ensures { result.now ≡ self.now.got }
    {
        &self.got
    }

    /// The codeword that stands for the block.
    pub fn word(&self) -> &[u8]
        ensures { result.now ≡ self.now.word }
    {
        &self.word
    }

    /// What was found.
    pub fn verdict(&self) -> Verdict
        ensures { result ≡ self.now.verdict }
    {
        self.verdict
    }
}

/// Decodes the block of each slot.
#[derive(Drop)]
struct DecodeWork<'a, C: BlockCode + Sync, G: Gate> {
    code: &'a C,
    gate: &'a G,
}

impl<'a, C: BlockCode + Sync, G: Gate> Work for DecodeWork<'a, C, G> {
    type Slot = Slot<C::Bench>;

    ghost ready = { λ w s. CanDecode (C.form w.code.now) (C.numbers w.code.now) s };

    ghost after = { λ w i s. decoded (C.form w.code.now) s };

    fn act(&self, index: u32, slot: &mut Slot<C::Bench>) {
        self.gate.enter(index);
        slot.verdict = self
            .code
            .decode_block(&mut slot.bench, &slot.got, &mut slot.word);
    }
}

/// Decodes the blocks of the first `count` slots at the same time.
pub fn decode_slots<X: Threads + Sync, C: BlockCode + Sync, G: Gate>(
    rt: &X,
    code: &C,
    slots: &mut [Slot<C::Bench>],
    count: usize,
    workers: Workers,
    gate: &G,
)
    requires within { count ≤ length slots.old }
    requires few { length slots.old < 2 ^ 32 }
    requires ready { All (CanDecode (C.form code.now) (C.numbers code.now)) slots.old }
    ensures decoded { slots.new
        ≡ map (decoded (C.form code.now)) (take count slots.old) ++ drop count slots.old }
    ensures ready { All (CanDecode (C.form code.now) (C.numbers code.now)) slots.new }
{
    each(rt, &DecodeWork { code, gate }, &mut slots[..count], workers);
}
