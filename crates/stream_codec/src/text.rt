//! A text, window after window, up to its end.

ghost use Rattle.std.specs.Prelude.{ℕ, ◌≡◌, ◌+◌, ◌*◌, ◌<◌, ◌≤◌, ◌++◌, List, [], length, All, IsSome, IfOk, MatchResult, None};
ghost use Rattle.ag_frame.specs.Layouts.{symbols_in_group};
ghost use Rattle.ag_frame.specs.Queues.{out_bits};
ghost use Rattle.stored_form.specs.Form.{Form, IsSound};
ghost use Rattle.stored_form.specs.Frame.{group_bytes};
ghost use Rattle.stream_codec.specs.Layouts.{Fits, in_groups};
ghost use Rattle.stream_codec.specs.Sinks.{sinks_of};
ghost use Rattle.stream_codec.specs.declared.limits.TheConstants.{MOST_BYTES};
ghost use Rattle.ag_io.specs.Views.{SinkView};
ghost use Rattle.ag_io.specs.Puts.{WroteSome};
ghost use Rattle.stream_codec.specs.Slots.{CanDecode};
ghost use Rattle.stream_codec.specs.Writing.{bytes_in};
ghost use Rattle.stream_codec.specs.Dealing.{CountsFit, Dealt, TextEnded};
ghost use Rattle.stream_codec.specs.Decoding.{decode_of};
ghost use Rattle.stream_codec.specs.Running.{RunAs, EndTold, EndWritten};

use crate::deal::{Tally, WhenLost, deal_groups};
use crate::decode::DecodeFault;
use crate::report::{tell_done, tell_salvaged};
use crate::salvage::{SalvageCounts, SalvageEnd};
use crate::window::{Tail, Window};
use crate::writer::FileWriter;
use ag_io::{Failed, Sink, Source};
use ag_pool::{Gate, Workers};
use coded_block::BlockCode;
use std::thread::Threads;

/// How a text ends, and how many bytes were written at its end.
#[derive(Clone, Copy)]
pub struct Last {
    pub end: SalvageEnd,
    pub bytes: u64,
}

/// Decodes window after window.
pub fn decode_text<X: Threads + Sync, C: BlockCode + Sync, I: Source, O: Sink, R: Sink, G: Gate>(
    rt: &X,
    code: &C,
    window: &mut Window<C::Bench>,
    writer: &mut FileWriter,
    workers: Workers,
    when_lost: WhenLost,
    src: &mut I,
    sink: &mut O,
    report: &mut R,
    limit: u64,
    gate: &G,
) -> Result<SalvageCounts, DecodeFault>
    requires fits { Fits window.old.layout (C.form code.now) }
    requires ready { All (CanDecode (C.form code.now) (C.numbers code.now)) window.old.slots }
    requires size { writer.old.size ≡ symbols_in_group window.old.layout }
    requires width { writer.old.width ≡ window.old.layout.bits }
    requires released { writer.old.released ≡ [] }
    requires held { writer.old.held ≡ None }
    requires limit { limit ≤ MOST_BYTES }
    ensures run { RunAs (decode_of (in_groups window.old.layout (C.form code.now)) limit
        I.tells (I.view src.old) (I.view src.new) O.tells (O.view sink.old) (O.view sink.new)
        R.tells (R.view report.old) (R.view report.new)) when_lost result }
    ensures layout { window.new.layout ≡ window.old.layout }
    ensures ready { All (CanDecode (C.form code.now) (C.numbers code.now)) window.new.slots }
    ensures size { writer.new.size ≡ writer.old.size }
    ensures width { writer.new.width ≡ writer.old.width }
{
    let mut tally = Tally {
        groups: 0,
        bytes: 0,
        changes: 0,
        lost: 0,
    };
    let mut taken: u64 = 0;
    'windows: loop {
        let filling = window.fill(src, taken, limit);
        window.decode(rt, code, filling.groups, workers, gate);
        deal_groups(
            code,
            window,
            filling.groups,
            when_lost,
            writer,
            &mut tally,
            sink,
            report,
        )?;
        taken = filling.taken;
        match filling.tail {
            Tail::More => {}
            Tail::End { got } => return end_text(got, writer, tally, sink, report),
            Tail::Fault => return Err(DecodeFault::InputFault),
            Tail::TooLong => return Err(DecodeFault::TooLong { taken }),
        }
    }
}

/// Ends a text whose whole groups were dealt with, and after which `extra` bytes stand.
fn end_text<O: Sink, R: Sink>(
    extra: usize,
    writer: &mut FileWriter,
    tally: Tally,
    sink: &mut O,
    report: &mut R,
) -> Result<SalvageCounts, DecodeFault>
    requires few { extra < 65536 }
    requires small { out_bits writer.old ≤ 524288 }
    requires counts { CountsFit tally }
    requires groups { tally.groups ≤ MOST_BYTES }
    requires held { 0 < tally.groups → IsSome writer.old.held }
    ensures ended { (G : Form) (z p : List ℕ) (out_first report_first : SinkView) → IsSound G
        → Dealt G
        (sinks_of O.tells out_first (O.view sink.old) R.tells report_first (R.view report.old))
        writer.old tally z
        → length p ≡ extra → extra < group_bytes G
        → TextEnded G
        (sinks_of O.tells out_first (O.view sink.new) R.tells report_first (R.view report.new))
        (z ++ p) result }
    ensures size { writer.new.size ≡ writer.old.size }
    ensures width { writer.new.width ≡ writer.old.width }
{
    let last = match write_last(extra, tally.groups, writer, sink) {
        Ok(last) => last,
        Err(Failed) => return Err(DecodeFault::OutFault),
    };
    let counts = SalvageCounts {
        groups: tally.groups,
        bytes: tally.bytes + last.bytes,
        changes: tally.changes,
        lost: tally.lost,
        end: last.end,
    };
    tell_last(counts, report)
}

/// Writes the last bytes of a text, and answers how it ends. A last group that ends no file stays held.
fn write_last<O: Sink>(
    extra: usize,
    groups: u64,
    writer: &mut FileWriter,
    sink: &mut O,
) -> Result<Last, Failed>
    requires few { extra < 65536 }
    requires small { out_bits writer.old ≤ 524288 }
    requires held { 0 < groups → IsSome writer.old.held }
    ensures closed { MatchResult result
        (λ last. EndWritten extra groups writer.old
        O.tells (O.view sink.old) (O.view sink.new) last.bytes last.end)
        (λ _. WroteSome O.tells (O.view sink.old) (O.view sink.new) (bytes_in writer.old)) }
    ensures few { IfOk result (λ last. last.bytes ≤ 65537) }
    ensures size { writer.new.size ≡ writer.old.size }
    ensures width { writer.new.width ≡ writer.old.width }
{
    if extra > 0 || groups == 0 {
        let bytes = writer.release(sink)?;
        return Ok(Last {
            end: SalvageEnd::Ragged {
                extra: extra as u32,
            },
            bytes,
        });
    }
    match writer.finish(sink)? {
        Some(bytes) => Ok(Last {
            end: SalvageEnd::File,
            bytes,
        }),
        None => Ok(Last {
            end: SalvageEnd::Framing,
            bytes: 0,
        }),
    }
}

/// Tells the last lines, and answers.
fn tell_last<R: Sink>(counts: SalvageCounts, report: &mut R) -> Result<SalvageCounts, DecodeFault>
    ensures { EndTold R.tells (R.view report.old) (R.view report.new) counts result }
{
    if counts.lost > 0 {
        return match tell_salvaged(&counts, report) {
            Ok(()) => Ok(counts),
            Err(Failed) => Err(DecodeFault::ReportFault),
        };
    }
    match counts.end {
        SalvageEnd::File => {
            match tell_done(counts.bytes, counts.groups, counts.changes, report) {
                Ok(()) => Ok(counts),
                Err(Failed) => Err(DecodeFault::ReportFault),
            }
        }
        SalvageEnd::Ragged { extra } => Err(DecodeFault::Ragged { extra }),
        SalvageEnd::Framing => Err(DecodeFault::Framing),
    }
}
