//! Encoded texts as files.

ghost use Rattle.std.specs.Prelude.{◌≡◌, ℕ, ◌≤◌};
ghost use Rattle.agcode_top.specs.Calls.{source_call, sink_call};
ghost use Rattle.agcode_top.specs.Leaves.{DecodeLeaves};
ghost use Rattle.agcode_top.specs.Streams.{decode_status, salvage_status};

use crate::status::Status;
use ag_io::{Sink, Source};
use ag_pool::Gate;
use command_words::Words;
use descriptor_code::DescribedCode;
use std::alloc::Global;
use std::thread::Threads;
use stream_codec::{
    DecodeCounts, DecodeFault, DecodeRoom, MOST_BYTES, SalvageCounts, decode_stream, layout_of,
    salvage_stream,
};

// The status of an answer.
fn status_of(answer: Result<DecodeCounts, DecodeFault>) -> Status
    ensures { result ≡ decode_status answer }
{
    match answer {
        Ok(_) => Status::Done,
        Err(DecodeFault::InputFault) => Status::InputFault,
        Err(DecodeFault::OutFault) => Status::OutFault,
        Err(DecodeFault::ReportFault) => Status::ReportFault,
        Err(DecodeFault::TooLong { taken }) => Status::TooLong { taken },
        Err(DecodeFault::Beyond { group, word }) => Status::Beyond { group, word },
        Err(DecodeFault::Ragged { extra }) => Status::Ragged { extra },
        Err(DecodeFault::Framing) => Status::Framing,
    }
}

// The status of an answer of a salvage.
fn salvage_status_of(answer: Result<SalvageCounts, DecodeFault>) -> Status
    ensures { result ≡ salvage_status answer }
{
    match answer {
        Ok(counts) => {
            if counts.lost == 0 {
                Status::Done
            } else {
                Status::Salvaged
            }
        }
        Err(fault) => status_of(Err(fault)),
    }
}

/// Writes the file that the input is the encoded text of, and tells its changes. Where it is asked to, it goes on past lost
/// codewords, writes what is left, and tells these too. All memory is taken before the first byte of the input.
pub fn decode<X: Threads + Sync, I: Source, O: Sink, R: Sink, G: Gate>(
    rt: &X,
    alloc: Global,
    described: &DescribedCode,
    asked: &Words,
    input: &mut I,
    out: &mut O,
    report: &mut R,
    gate: &G,
) -> Status
    ensures leaves { DecodeLeaves asked.now described.now
        (source_call I.Source input.old input.new)
        (sink_call O.Sink out.old out.new)
        (sink_call R.Sink report.old report.new) result }
    ensures input_counted { (I.view input.old).faults ≤ (I.view input.new).faults }
    ensures out_counted { (O.view out.old).faults ≤ (O.view out.new).faults }
    ensures report_counted { (R.view report.old).faults ≤ (R.view report.new).faults }
{
    let code = described.code();
    let layout = layout_of(code, described.depth(), described.is_packed());
    let Ok(mut room) = DecodeRoom::new(alloc, code, &layout, asked.workers) else {
        return Status::NoMemory;
    };
    if asked.salvage {
        let answer = salvage_stream(rt, code, &mut room, input, out, report, MOST_BYTES, gate);
        return salvage_status_of(answer);
    }
    status_of(decode_stream(rt, code, &mut room, input, out, report, MOST_BYTES, gate))
}
