//! The groups that are decoded at the same time.

ghost use Rattle.std.specs.Prelude.{ℕ, ◌≡◌, ◌+◌, ◌*◌, ◌<◌, ◌≤◌, ◌++◌, List, length, take, drop, map, All, IfOk};
ghost use Rattle.ag_frame.specs.Layouts.{IsLayout, bytes_in_group, symbols_stored, words_of_group};
ghost use Rattle.stored_form.specs.Form.{Form};
ghost use Rattle.coded_block.specs.Codes.{BenchNumbers};
ghost use Rattle.stream_codec.specs.Layouts.{Fits};
ghost use Rattle.stream_codec.specs.Slots.{CanDecode, decoded, blocks_of};
ghost use Rattle.stream_codec.specs.declared.limits.TheConstants.{MOST_BYTES};
ghost use Rattle.stream_codec.specs.Windows.{WindowState, WindowFits, WindowFilled};

use crate::slot::{Slot, decode_slots};
use ag_frame::{Layout, gather};
use ag_io::{Filled, Source, fill};
use ag_pool::{Gate, Workers};
use coded_block::{BlockBench, BlockCode};
use std::alloc::{AllocError, Global};
use std::marker::Model;
use std::thread::Threads;

/// Why a window was filled no further.
#[derive(Drop)]
pub enum Tail {
    /// It is full, and there may be more.
    More,
    /// The source ended `got` bytes after the last whole group.
    End { got: usize },
    /// A read failed after the last whole group.
    Fault,
    /// More bytes than the limit were taken.
    TooLong,
}

/// How far a window was filled: its whole groups, the bytes taken from the source in all, and why no further.
#[derive(Drop)]
pub struct Filling {
    pub groups: usize,
    pub taken: u64,
    pub tail: Tail,
}

/// As few groups as hold enough codewords for the workers, with a slot for each of their codewords.
#[derive(Drop)]
pub struct Window<B: BlockBench> {
    layout: Layout,
    groups: usize,
    slots: Vec<Slot<B>>,
    group: Vec<u8>,
    words: Vec<u8>,
}

impl<B: BlockBench> Model for Window<B> {
    ghost use Rattle.std.specs.Prelude.{length};
    ghost use Rattle.stream_codec.specs.declared.limits.TheConstants.{MOST_BYTES};
    ghost use Rattle.stream_codec.specs.Windows.{WindowState, WindowFits};

    ghost Value = { WindowState };

    ghost view = { λ s. record { layout = s.layout; slots = s.slots.items } };

    ghost invariant = { λ s. WindowFits s.layout s.groups
        (length s.slots.items) (length s.group.items) (length s.words.items) };
}

impl<B: BlockBench> Window<B> {
    /// A window for so many workers.
    pub fn new<C: BlockCode<Bench = B>>(
        alloc: Global,
        code: &C,
        layout: Layout,
        workers: Workers,
    ) -> Result<Window<B>, AllocError>
        requires fits { Fits layout (C.form code.now) }
        ensures layout { IfOk result (λ w. w.layout ≡ layout) }
        ensures slots { IfOk result
            (λ w. All (CanDecode (C.form code.now) (C.numbers code.now)) w.slots) }
    {
        let groups = codewords_for(workers).div_ceil(layout.depth) as usize;
        let bytes = layout.group_bytes() as usize;
        let stored = layout.n as usize * layout.depth as usize;
        let slots = new_slots(alloc, code, groups * layout.depth as usize)?;
        let group = vec![in alloc; 0u8; bytes]?;
        let words = vec![in alloc; 0u8; stored]?;
        Ok(Window {
            layout,
            groups,
            slots,
            group,
            words,
        })
    }

    /// Takes groups from a source, up to the first that is not whole or passes the limit. `taken` bytes were taken before.
    pub fn fill<I: Source>(&mut self, src: &mut I, taken: u64, limit: u64) -> Filling
        requires within { taken ≤ limit }
        requires limit { limit ≤ MOST_BYTES }
        requires got_long { All (λ s. length s.got ≡ self.old.layout.n) self.old.slots }
        ensures filled { (z p : List ℕ) × WindowFilled self.old.layout
            I.tells (I.view src.old) (I.view src.new) limit taken self.new.slots result z p }
        ensures kept { (F : Form) (numbers : BenchNumbers)
            → All (CanDecode F numbers) self.old.slots → All (CanDecode F numbers) self.new.slots }
        ensures layout { self.new.layout ≡ self.old.layout }
        ensures counted { (I.view src.old).faults ≤ (I.view src.new).faults }
    {
        fill_groups(
            &self.layout,
            self.groups,
            &mut self.group,
            &mut self.words,
            &mut self.slots,
            src,
            taken,
            limit,
        )
    }

    /// Decodes the first groups.
    pub fn decode<X: Threads + Sync, C: BlockCode<Bench = B> + Sync, G: Gate>(
        &mut self,
        rt: &X,
        code: &C,
        groups: usize,
        workers: Workers,
        gate: &G,
    )
        requires few { groups * self.old.layout.depth ≤ length self.old.slots }
        requires ready { All (CanDecode (C.form code.now) (C.numbers code.now)) self.old.slots }
        ensures layout { self.new.layout ≡ self.old.layout }
        ensures decoded { let count = groups * self.old.layout.depth in
            take count self.new.slots
            ≡ map (decoded (C.form code.now)) (take count self.old.slots) }
        ensures ready { All (CanDecode (C.form code.now) (C.numbers code.now)) self.new.slots }
    {
        let count = groups * self.layout.depth as usize;
        decode_slots(rt, code, &mut self.slots, count, workers, gate);
    }

    /// The slots of a group.
    pub fn slots_of(&self, group: usize) -> &[Slot<B>]
        requires { (group + 1) * self.now.layout.depth ≤ length self.now.slots }
        ensures { let depth = self.now.layout.depth in
            result.now ≡ take depth (drop (group * depth) self.now.slots) }
    {
        let depth = self.layout.depth as usize;
        let at = group * depth;
        &self.slots[at..at + depth]
    }
}

/// How many codewords a window has at the least. Workers are started for each window anew, which takes some time, so where
/// there are several it has many; a single one decodes group by group.
fn codewords_for(workers: Workers) -> u32
    ensures enough { workers ≤ result }
    ensures few { result ≤ 64 }
{
    if workers.count() == 1 { 1 } else { 64 }
}

/// So many slots for blocks of a code.
fn new_slots<C: BlockCode>(
    alloc: Global,
    code: &C,
    count: usize,
) -> Result<Vec<Slot<C::Bench>>, AllocError>
    ensures count { IfOk result (λ slots. length slots.items ≡ count) }
    ensures fit { IfOk result
        (λ slots. All (CanDecode (C.form code.now) (C.numbers code.now)) slots.items) }
{
    let mut slots = Vec::new(alloc);
    for _ in 0..count {
        let slot = Slot::new(alloc, code)?;
        slots.push(slot)?;
    }
    Ok(slots)
}

/// Takes groups from a source into slots.
fn fill_groups<B: BlockBench, I: Source>(
    layout: &Layout,
    count: usize,
    group: &mut [u8],
    words: &mut [u8],
    slots: &mut [Slot<B>],
    src: &mut I,
    taken: u64,
    limit: u64,
) -> Filling
    requires layout { IsLayout layout.now }
    requires some { 1 ≤ count }
    requires within { taken ≤ limit }
    requires limit { limit ≤ MOST_BYTES }
    requires group_long { length group.old ≡ bytes_in_group layout.now }
    requires words_long { length words.old ≡ symbols_stored layout.now }
    requires slots_are { length slots.old ≡ count * layout.now.depth }
    requires got_long { All (λ s. length s.got ≡ layout.now.n) slots.old }
    ensures filled { (z p : List ℕ) × WindowFilled layout.now
        I.tells (I.view src.old) (I.view src.new) limit taken slots.new result z p }
    ensures kept { (F : Form) (numbers : BenchNumbers)
        → All (CanDecode F numbers) slots.old → All (CanDecode F numbers) slots.new }
    ensures counted { (I.view src.old).faults ≤ (I.view src.new).faults }
{
    let bytes = group.len() as u64;
    let depth = layout.depth as usize;
    let mut total = taken;
    for g in 0..count {
        match fill(src, group) {
            Filled::Whole => total += bytes,
            Filled::End { got } => {
                return closed(g, total + got as u64, limit, Tail::End { got });
            }
            Filled::Fault { got } => return closed(g, total + got as u64, limit, Tail::Fault),
        }
        if total > limit {
            return closed(g, total, limit, Tail::TooLong);
        }
        let at = g * depth;
        load_group(layout, group, words, &mut slots[at..at + depth]);
    }
    closed(count, total, limit, Tail::More)
}

/// A window that is filled no further: where the limit is passed, for that cause.
fn closed(groups: usize, taken: u64, limit: u64, tail: Tail) -> Filling
    ensures passed { limit < taken
        → result ≡ record { groups = groups; taken = taken; tail = Tail.TooLong } }
    ensures within { taken ≤ limit
        → result ≡ record { groups = groups; taken = taken; tail = tail } }
{
    Filling {
        groups,
        taken,
        tail: if taken > limit { Tail::TooLong } else { tail },
    }
}

/// Takes the codewords of a stored group into slots.
fn load_group<B: BlockBench>(layout: &Layout, group: &[u8], words: &mut [u8], slots: &mut [Slot<B>])
    requires layout { IsLayout layout.now }
    requires group_long { length group.now ≡ bytes_in_group layout.now }
    requires words_long { length words.old ≡ symbols_stored layout.now }
    requires slots_are { length slots.old ≡ layout.now.depth }
    requires got_long { All (λ s. length s.got ≡ layout.now.n) slots.old }
    ensures blocks { blocks_of slots.new ≡ words_of_group layout.now group.now }
    ensures kept { (F : Form) (numbers : BenchNumbers)
        → All (CanDecode F numbers) slots.old → All (CanDecode F numbers) slots.new }
    ensures got_long { All (λ s. length s.got ≡ layout.now.n) slots.new }
{
    let n = layout.n as usize;
    gather(layout, group, words);
    for (c, slot) in slots.iter_mut().enumerate() {
        let at = c * n;
        slot.load(&words[at..at + n]);
    }
}
