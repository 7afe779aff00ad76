//! The file that decoded groups carry.

ghost use Rattle.std.specs.Prelude.{ℕ, ◌≡◌, ◌+◌, ◌*◌, ◌/◌, ◌<◌, ◌≤◌, ◌++◌, List, Bool, [], length, take, flat_map, All, MatchResult, MatchOption, IfOk, IfSome, IsSome, Some, None};
ghost use Rattle.ag_frame.specs.Layouts.{IsLayout, symbols_in_group};
ghost use Rattle.ag_frame.specs.Queues.{OutState, out_bits, bits_held};
ghost use Rattle.stored_form.specs.Bits.{symbols_of};
ghost use Rattle.stored_form.specs.Form.{message_of};
ghost use Rattle.stored_form.specs.Reading.{message_bits};
ghost use Rattle.coded_block.specs.Codes.{IsCode};
ghost use Rattle.ag_io.specs.Puts.{Wrote, WroteSome};
ghost use Rattle.stream_codec.specs.Slots.{words_of};
ghost use Rattle.stream_codec.specs.Writing.{bytes_in, last_bytes, bytes_left, WriterFits, EndsFile, EndsNoFile};

use crate::slot::Slot;
use ag_frame::{BitsOut, Layout};
use ag_io::{Failed, Sink, put};
use coded_block::BlockCode;
use std::alloc::{AllocError, Global};
use std::marker::Model;

/// Writes the file that the messages of decoded groups carry. One group is held back, since the marker may be in it.
/// Contracts see the bits that are released and the group that is held.
#[derive(Drop)]
pub struct FileWriter {
    bits: BitsOut,
    holds: bool,
    msg: Vec<u8>,
    out: Vec<u8>,
}

impl Model for FileWriter {
    ghost use Rattle.std.specs.Prelude.{length};
    ghost use Rattle.ag_frame.specs.Queues.{OutState};
    ghost use Rattle.stream_codec.specs.Writing.{WriterFits};

    ghost Value = { OutState };

    ghost view = { λ s. s.bits };

    ghost invariant = { λ s. WriterFits s.bits s.holds (length s.msg.items) (length s.out.items) };
}

impl FileWriter {
    /// No bit is released, and no group is held.
    pub fn new(alloc: Global, layout: &Layout) -> Result<FileWriter, AllocError>
        requires { IsLayout layout.now }
        ensures { IfOk result (λ w. w ≡ record {
          size = symbols_in_group layout.now;
          width = layout.now.bits;
          released = [];
          held = None;
        }) }
    {
        let symbols = layout.depth as usize * layout.k as usize;
        let bytes = layout.group_bits() as usize / 8 + 2;
        let bits = BitsOut::new(alloc, layout)?;
        let msg = vec![in alloc; 0u8; symbols]?;
        let out = vec![in alloc; 0u8; bytes]?;
        Ok(FileWriter {
            bits,
            holds: false,
            msg,
            out,
        })
    }

    /// Releases no bit and holds no group.
    pub fn clear(&mut self)
        ensures { self.new ≡ record self.old { released = []; held = None } }
    {
        self.bits.clear();
        self.holds = false;
    }

    /// Writes the whole bytes of the released bits and of the group that is held, if one is, and answers how many.
    pub fn release<O: Sink>(&mut self, sink: &mut O) -> Result<u64, Failed>
        ensures written { MatchResult result
            (λ count. Wrote O.tells (O.view sink.old) (O.view sink.new) (bytes_in self.old)
            × (count ≡ length (bytes_in self.old)))
            (λ _. WroteSome O.tells (O.view sink.old) (O.view sink.new) (bytes_in self.old)) }
        ensures few { IfOk result (λ count. 8 * count < out_bits self.old + 8) }
        ensures left { self.new ≡ record self.old {
          released = bytes_left (self.old.released ++ bits_held self.old.held);
          held = None;
        } }
    {
        if self.holds {
            self.bits.release();
            self.holds = false;
        }
        flush(&mut self.bits, &mut self.out, sink)
    }

    /// Holds the messages of these codewords back.
    pub fn hold<C: BlockCode>(&mut self, code: &C, slots: &[Slot<C::Bench>])
        requires none { self.old.held ≡ None }
        requires width { self.old.width ≡ (C.form code.now).bits }
        requires size { self.old.size ≡ length slots.now * (C.form code.now).k }
        requires words { All (λ s. length s.word ≡ (C.form code.now).n) slots.now }
        ensures { self.new ≡ record self.old {
          held = Some (message_bits (C.form code.now) (words_of slots.now));
        } }
    {
        messages(code, slots, &mut self.msg);
        self.bits.hold(&self.msg);
        self.holds = true;
    }

    /// Writes the last bytes of the file and answers how many, or answers None where the held group ends no file.
    pub fn finish<O: Sink>(&mut self, sink: &mut O) -> Result<Option<u64>, Failed>
        requires { IsSome self.old.held }
        ensures written { MatchResult result
            (λ found. MatchOption found
            (EndsNoFile self.old × Wrote O.tells (O.view sink.old) (O.view sink.new) [])
            (λ count. (front : List Bool) × EndsFile self.old front
            × Wrote O.tells (O.view sink.old) (O.view sink.new) (last_bytes self.old front)
            × (count ≡ length (last_bytes self.old front))))
            (λ _. (front : List Bool) × EndsFile self.old front
            × WroteSome O.tells (O.view sink.old) (O.view sink.new) (last_bytes self.old front)) }
        ensures few { IfOk result
            (λ found. IfSome found (λ count. 8 * count < out_bits self.old + 8)) }
        ensures size { self.new.size ≡ self.old.size }
        ensures width { self.new.width ≡ self.old.width }
    {
        if !self.bits.strip() {
            return Ok(None);
        }
        self.holds = false;
        let count = flush(&mut self.bits, &mut self.out, sink)?;
        Ok(Some(count))
    }
}

/// Takes the released bytes.
fn take_bytes(bits: &mut BitsOut, out: &mut [u8]) -> usize
    requires { length bits.old.released / 8 ≤ length out.old }
    ensures count { result ≡ length bits.old.released / 8 }
    ensures bytes { take result out.new ≡ symbols_of 8 bits.old.released }
    ensures left { bits.new ≡ record bits.old { released = bytes_left bits.old.released } }
{
    let mut count: usize = 0;
    while let Some(byte) = bits.next_byte() {
        out[count] = byte;
        count += 1;
    }
    count
}

/// Writes the released bytes, and answers how many they are.
fn flush<O: Sink>(bits: &mut BitsOut, out: &mut [u8], sink: &mut O) -> Result<u64, Failed>
    requires { length bits.old.released / 8 ≤ length out.old }
    ensures written { let bytes = symbols_of 8 bits.old.released in MatchResult result
        (λ count. Wrote O.tells (O.view sink.old) (O.view sink.new) bytes × (count ≡ length bytes))
        (λ _. WroteSome O.tells (O.view sink.old) (O.view sink.new) bytes) }
    ensures few { IfOk result (λ count. 8 * count ≤ length bits.old.released) }
    ensures left { bits.new ≡ record bits.old { released = bytes_left bits.old.released } }
{
    let count = take_bytes(bits, out);
    put(sink, &out[..count])?;
    Ok(count as u64)
}

/// The messages of codewords, one after the other.
fn messages<C: BlockCode>(code: &C, slots: &[Slot<C::Bench>], msg: &mut [u8])
    requires words { All (λ s. length s.word ≡ (C.form code.now).n) slots.now }
    requires msg_long { length msg.old ≡ length slots.now * (C.form code.now).k }
    ensures { msg.new ≡ flat_map (message_of (C.form code.now)) (words_of slots.now) }
{
    let k = code.k() as usize;
    for (c, slot) in slots.iter().enumerate() {
        let at = c * k;
        code.message(slot.word(), &mut msg[at..at + k]);
    }
}
