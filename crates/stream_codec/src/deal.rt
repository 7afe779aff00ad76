//! Decoded groups, one after the other.

ghost use Rattle.std.specs.Prelude.{ℕ, ◌≡◌, ◌+◌, ◌*◌, ◌<◌, ◌≤◌, ◌++◌, List, length, take, All, MatchResult, MatchOption, IfOk, None};
ghost use Rattle.ag_frame.specs.Layouts.{symbols_in_group};
ghost use Rattle.stored_form.specs.Form.{Form};
ghost use Rattle.coded_block.specs.Codes.{IsCode};
ghost use Rattle.stream_codec.specs.Layouts.{Fits, in_groups};
ghost use Rattle.stream_codec.specs.Sinks.{sinks_of};
ghost use Rattle.stream_codec.specs.Dealing.{IsNear, FirstLost, NoneLost, CountsFit, GroupDealt, GroupFault, HoldsGroups};
ghost use Rattle.stream_codec.specs.Dealing.{Dealt, TextStopped};
ghost use Rattle.stream_codec.specs.declared.deal.WhenLost.TheVariants.{Stop};
ghost use Rattle.stream_codec.specs.declared.limits.TheConstants.{MOST_BYTES};
ghost use Rattle.ag_io.specs.Views.{SinkView};
ghost use Rattle.stream_codec.specs.Slots.{IsSettled, blocks_of};

use crate::decode::DecodeFault;
use crate::report::tell_group;
use crate::slot::Slot;
use crate::window::Window;
use crate::writer::FileWriter;
use ag_io::{Failed, Sink};
use coded_block::{BlockBench, BlockCode, Verdict};

/// What a codeword without near does. Nothing else differs between decoding and salvage.
#[derive(Clone, Copy)]
pub enum WhenLost {
    /// It ends the run.
    Stop,
    /// Its low bits are kept, it is told as lost, and the run goes on.
    Keep,
}

/// What was counted of the groups so far.
#[derive(Clone, Copy)]
pub struct Tally {
    pub groups: u64,
    pub bytes: u64,
    pub changes: u64,
    pub lost: u64,
}

/// Deals with the first groups of a window that was decoded, one after the other.
pub fn deal_groups<C: BlockCode, O: Sink, R: Sink>(
    code: &C,
    window: &Window<C::Bench>,
    groups: usize,
    when_lost: WhenLost,
    writer: &mut FileWriter,
    tally: &mut Tally,
    sink: &mut O,
    report: &mut R,
) -> Result<(), DecodeFault>
    requires fits { Fits window.now.layout (C.form code.now) }
    requires holds { (w : List ℕ) × HoldsGroups (C.form code.now) window.now groups w }
    requires size { writer.old.size ≡ symbols_in_group window.now.layout }
    requires width { writer.old.width ≡ window.now.layout.bits }
    requires counts { CountsFit tally.old }
    requires none { NoneLost when_lost tally.old.lost }
    requires groups { tally.old.groups + groups ≤ MOST_BYTES }
    ensures dealt { (z w : List ℕ) (out report_out : SinkView) →
        let G = in_groups window.now.layout (C.form code.now) in
        HoldsGroups (C.form code.now) window.now groups w
        → Dealt G (sinks_of O.tells out (O.view sink.old) R.tells report_out (R.view report.old))
        writer.old tally.old z
        → MatchResult result
        (λ _. Dealt G
        (sinks_of O.tells out (O.view sink.new) R.tells report_out (R.view report.new))
        writer.new tally.new (z ++ w))
        (λ fault. TextStopped G
        (sinks_of O.tells out (O.view sink.new) R.tells report_out (R.view report.new))
        when_lost (z ++ w) fault) }
    ensures counts { IfOk result (λ _. CountsFit tally.new) }
    ensures none { IfOk result (λ _. NoneLost when_lost tally.new.lost) }
    ensures groups { IfOk result (λ _. tally.new.groups ≡ tally.old.groups + groups) }
    ensures size { writer.new.size ≡ writer.old.size }
    ensures width { writer.new.width ≡ writer.old.width }
{
    for g in 0..groups {
        let slots = window.slots_of(g);
        deal_group(code, slots, when_lost, writer, tally, sink, report)?;
    }
    Ok(())
}

/// Writes the bytes of the group that is held, and tells the lines of a decoded group and holds it, unless one of its
/// codewords ends the run.
fn deal_group<C: BlockCode, O: Sink, R: Sink>(
    code: &C,
    slots: &[Slot<C::Bench>],
    when_lost: WhenLost,
    writer: &mut FileWriter,
    tally: &mut Tally,
    sink: &mut O,
    report: &mut R,
) -> Result<(), DecodeFault>
    requires few { length slots.now ≤ 64 }
    requires settled { All (IsSettled (C.form code.now)) slots.now }
    requires size { writer.old.size ≡ length slots.now * (C.form code.now).k }
    requires width { writer.old.width ≡ (C.form code.now).bits }
    requires counts { CountsFit tally.old }
    requires none { NoneLost when_lost tally.old.lost }
    requires groups { tally.old.groups < MOST_BYTES }
    ensures dealt { let sinks = sinks_of O.tells (O.view sink.old) (O.view sink.new)
        R.tells (R.view report.old) (R.view report.new) in
        let blocks = blocks_of slots.now in
        MatchResult result
        (λ _. GroupDealt (C.form code.now) sinks
        writer.old writer.new tally.old tally.new blocks)
        (λ fault. GroupFault (C.form code.now) sinks when_lost writer.old tally.old blocks fault) }
    ensures counts { IfOk result (λ _. CountsFit tally.new) }
    ensures none { IfOk result (λ _. NoneLost when_lost tally.new.lost) }
    ensures size { writer.new.size ≡ writer.old.size }
    ensures width { writer.new.width ≡ writer.old.width }
{
    let n = code.n() as usize;
    match writer.release(sink) {
        Ok(bytes) => tally.bytes += bytes,
        Err(Failed) => return Err(DecodeFault::OutFault),
    }
    let group = tally.groups;
    if let Some(word) = ending_word(when_lost, slots) {
        return Err(DecodeFault::Beyond { group, word });
    }
    match tell_group(group, slots, n, report) {
        Ok(told) => {
            tally.changes += told.changes;
            tally.lost += told.lost;
        }
        Err(Failed) => return Err(DecodeFault::ReportFault),
    }
    writer.hold(code, slots);
    tally.groups = group + 1;
    Ok(())
}

/// The codeword that ends the run, if one does.
fn ending_word<B: BlockBench>(when_lost: WhenLost, slots: &[Slot<B>]) -> Option<u32>
    requires { length slots.now ≤ 64 }
    ensures { MatchOption result
        ((F : Form) → All (IsSettled F) slots.now → when_lost ≡ Stop
        → All (IsNear F) (blocks_of slots.now))
        (λ word. (F : Form) → All (IsSettled F) slots.now
        → (when_lost ≡ Stop) × FirstLost F (blocks_of slots.now) word) }
{
    match when_lost {
        WhenLost::Stop => first_beyond(slots),
        WhenLost::Keep => None,
    }
}

/// The first codeword that has no near.
fn first_beyond<B: BlockBench>(slots: &[Slot<B>]) -> Option<u32>
    requires { length slots.now ≤ 64 }
    ensures { MatchOption result
        ((F : Form) → All (IsSettled F) slots.now → All (IsNear F) (blocks_of slots.now))
        (λ word. (F : Form) → All (IsSettled F) slots.now
        → FirstLost F (blocks_of slots.now) word) }
{
    for (c, slot) in slots.iter().enumerate() {
        match slot.verdict() {
            Verdict::Near { .. } => {}
            Verdict::Beyond => return Some(c as u32),
        }
    }
    None
}
