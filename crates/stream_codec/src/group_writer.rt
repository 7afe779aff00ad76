//! The groups that bytes fill.

ghost use Rattle.std.specs.Prelude.{ℕ, ◌≡◌, ◌*◌, ◌+◌, ◌<◌, ◌≤◌, ◌^◌, ◌++◌, [], ◌↔◌, List, length, take, drop, flat_map, All, IsTrue, IfOk, MatchResult};
ghost use Rattle.ag_frame.specs.Layouts.{IsLayout, bytes_in_group, symbols_in_group, bits_in_group, symbols_stored};
ghost use Rattle.ag_io.specs.Puts.{Wrote, WroteSome};
ghost use Rattle.coded_block.specs.Codes.{IsCode};
ghost use Rattle.stored_form.specs.Bits.{whole_pieces, bits_of, bits_of_symbols};
ghost use Rattle.stored_form.specs.Frame.{group_of};
ghost use Rattle.stream_codec.specs.Layouts.{Fits, in_groups};
ghost use Rattle.stream_codec.specs.Groups.{stored, full_groups, last_group, GroupState, IsShort, Pushed};
ghost use Rattle.stream_codec.specs.declared.limits.TheConstants.{PIECE};

use ag_frame::{BitsIn, Layout, spread};
use ag_io::{Failed, Sink, put};
use coded_block::BlockCode;
use std::alloc::{AllocError, Global};
use std::marker::Model;

/// Writes each group as soon as its bits are there. Contracts see how groups are stored, and the bits that wait. Only `new`
/// takes memory.
#[derive(Drop)]
pub struct GroupWriter {
    layout: Layout,
    bits: BitsIn,
    messages: Vec<u8>,
    words: Vec<u8>,
    group: Vec<u8>,
}

impl Model for GroupWriter {
    ghost use Rattle.std.specs.Prelude.{length};
    ghost use Rattle.stream_codec.specs.Groups.{GroupState, GroupWriterFits};

    ghost Value = { GroupState };

    ghost view = { λ s. record { layout = s.layout; waiting = s.bits.waiting } };

    ghost invariant = { λ s. GroupWriterFits s.layout s.bits (length s.messages.items)
        (length s.words.items) (length s.group.items) };
}

impl GroupWriter {
    /// A writer of groups of this layout, for which no bit waits.
    pub fn new(alloc: Global, layout: &Layout) -> Result<GroupWriter, AllocError>
        requires { IsLayout layout.now }
        ensures { IfOk result (λ w. w ≡ record { layout = layout.now; waiting = [] }) }
    {
        let bits = BitsIn::new(alloc, layout)?;
        let symbols = layout.depth as usize * layout.k as usize;
        let stored = layout.n as usize * layout.depth as usize;
        let bytes = layout.group_bytes() as usize;
        let messages = vec![in alloc; 0u8; symbols]?;
        let words = vec![in alloc; 0u8; stored]?;
        let group = vec![in alloc; 0u8; bytes]?;
        Ok(GroupWriter {
            layout: *layout,
            bits,
            messages,
            words,
            group,
        })
    }

    /// Lets no bit wait.
    pub fn clear(&mut self)
        ensures { self.new ≡ record self.old { waiting = [] } }
    {
        self.bits.clear();
    }

    /// Takes at most a piece of bytes, writes the groups that they fill, and answers how many. After `Failed` the bits that
    /// wait are left open.
    pub fn push<C: BlockCode, O: Sink>(
        &mut self,
        code: &C,
        bytes: &[u8],
        sink: &mut O,
    ) -> Result<u64, Failed>
        requires fits { Fits self.old.layout (C.form code.now) }
        requires short { IsShort self.old }
        requires few { length bytes.now ≤ PIECE }
        ensures pushed { let F = in_groups self.old.layout (C.form code.now) in
            let bits = self.old.waiting ++ bits_of_symbols 8 bytes.now in
            MatchResult result
            (Pushed F O.tells (O.view sink.old) (O.view sink.new) bits self.new.waiting)
            (λ _. WroteSome O.tells (O.view sink.old) (O.view sink.new) (full_groups F bits)) }
        ensures layout { self.new.layout ≡ self.old.layout }
    {
        let mut groups: u64 = 0;
        for i in 0..bytes.len() {
            self.add(bytes[i]);
            groups += self.emit(code, sink)?;
        }
        Ok(groups)
    }

    /// Writes the last group: the bits that wait, the marker and zeros.
    pub fn close<C: BlockCode, O: Sink>(&mut self, code: &C, sink: &mut O) -> Result<(), Failed>
        requires fits { Fits self.old.layout (C.form code.now) }
        requires short { IsShort self.old }
        ensures written { let F = in_groups self.old.layout (C.form code.now) in
            let last = group_of F (last_group F self.old.waiting) in
            MatchResult result
            (λ _. Wrote O.tells (O.view sink.old) (O.view sink.new) last)
            (λ _. WroteSome O.tells (O.view sink.old) (O.view sink.new) last) }
        ensures layout { self.new.layout ≡ self.old.layout }
    {
        self.bits.close(&mut self.messages);
        write_group(
            code,
            &self.layout,
            &self.messages,
            &mut self.words,
            &mut self.group,
            sink,
        )
    }

    /// Adds the bits of a byte.
    fn add(&mut self, byte: u8)
        requires { IsShort self.old }
        ensures { self.new ≡ record self.old { waiting = self.old.waiting ++ bits_of 8 byte } }
    {
        self.bits.push(byte);
    }

    /// Whether a whole group waits.
    fn is_ready(&self) -> bool
        ensures { IsTrue result ↔ (bits_in_group self.now.layout ≤ length self.now.waiting) }
    {
        self.bits.ready()
    }

    /// Writes the groups that the waiting bits fill, and answers how many.
    fn emit<C: BlockCode, O: Sink>(&mut self, code: &C, sink: &mut O) -> Result<u64, Failed>
        requires fits { Fits self.old.layout (C.form code.now) }
        requires few { length self.old.waiting < bits_in_group self.old.layout + 8 }
        ensures pushed { let F = in_groups self.old.layout (C.form code.now) in
            let bits = self.old.waiting in
            MatchResult result
            (Pushed F O.tells (O.view sink.old) (O.view sink.new) bits self.new.waiting)
            (λ _. WroteSome O.tells (O.view sink.old) (O.view sink.new) (full_groups F bits)) }
        ensures layout { self.new.layout ≡ self.old.layout }
    {
        let mut groups: u64 = 0;
        while self.is_ready() {
            self.write_next(code, sink)?;
            groups += 1;
        }
        Ok(groups)
    }

    /// Writes the first group of the bits that wait.
    fn write_next<C: BlockCode, O: Sink>(&mut self, code: &C, sink: &mut O) -> Result<(), Failed>
        requires fits { Fits self.old.layout (C.form code.now) }
        requires ready { bits_in_group self.old.layout ≤ length self.old.waiting }
        ensures written { let F = in_groups self.old.layout (C.form code.now) in
            let group = group_of F (take (bits_in_group self.old.layout) self.old.waiting) in
            MatchResult result
            (λ _. Wrote O.tells (O.view sink.old) (O.view sink.new) group)
            (λ _. WroteSome O.tells (O.view sink.old) (O.view sink.new) group) }
        ensures rest { self.new ≡ record self.old {
          waiting = drop (bits_in_group self.old.layout) self.old.waiting;
        } }
    {
        self.bits.take(&mut self.messages);
        write_group(
            code,
            &self.layout,
            &self.messages,
            &mut self.words,
            &mut self.group,
            sink,
        )
    }
}

/// Writes the group of these messages.
fn write_group<C: BlockCode, O: Sink>(
    code: &C,
    layout: &Layout,
    messages: &[u8],
    words: &mut [u8],
    group: &mut [u8],
    sink: &mut O,
) -> Result<(), Failed>
    requires fits { Fits layout.now (C.form code.now) }
    requires messages_long { length messages.now ≡ symbols_in_group layout.now }
    requires messages_fit { All (λ s. s < 2 ^ (C.form code.now).bits) messages.now }
    requires words_long { length words.old ≡ symbols_stored layout.now }
    requires group_long { length group.old ≡ bytes_in_group layout.now }
    ensures { let bytes = stored (in_groups layout.now (C.form code.now)) messages.now in
        MatchResult result
        (λ _. Wrote O.tells (O.view sink.old) (O.view sink.new) bytes)
        (λ _. WroteSome O.tells (O.view sink.old) (O.view sink.new) bytes) }
{
    encode_words(
        code,
        layout.n as usize,
        layout.k as usize,
        layout.depth as usize,
        messages,
        words,
    );
    spread(layout, words, group);
    put(sink, group)
}

/// Encodes the messages of a group, one after the other.
fn encode_words<C: BlockCode>(
    code: &C,
    n: usize,
    k: usize,
    depth: usize,
    messages: &[u8],
    words: &mut [u8],
)
    requires n { n ≡ (C.form code.now).n }
    requires k { k ≡ (C.form code.now).k }
    requires code { IsCode (C.form code.now) }
    requires messages_long { length messages.now ≡ depth * k }
    requires messages_fit { All (λ s. s < 2 ^ (C.form code.now).bits) messages.now }
    requires words_long { length words.old ≡ depth * n }
    ensures { words.new ≡ flat_map (C.form code.now).word (whole_pieces k messages.now) }
{
    for c in 0..depth {
        let from = c * k;
        let at = c * n;
        code.encode_block(&messages[from..from + k], &mut words[at..at + n]);
    }
}
