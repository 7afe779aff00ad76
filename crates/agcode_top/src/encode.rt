//! Files as encoded texts.

ghost use Rattle.std.specs.Prelude.{◌≡◌, ℕ, ◌≤◌, IsTrue, Bool};
ghost use Rattle.ag_io.specs.Views.{SinkView};
ghost use Rattle.agcode_top.specs.Calls.{source_call, sink_call, still_sink};
ghost use Rattle.agcode_top.specs.Leaves.{EncodeLeaves};
ghost use Rattle.agcode_top.specs.Streams.{encode_status};

use crate::status::Status;
use ag_io::{Sink, Source};
use descriptor_code::DescribedCode;
use std::alloc::Global;
use stream_codec::{EncodeCounts, EncodeFault, EncodeRoom, MOST_BYTES, encode_stream, layout_of};

// The status of an answer.
fn status_of(answer: Result<EncodeCounts, EncodeFault>) -> Status
    ensures { result ≡ encode_status answer }
{
    match answer {
        Ok(_) => Status::Done,
        Err(EncodeFault::InputFault) => Status::InputFault,
        Err(EncodeFault::OutFault) => Status::OutFault,
        Err(EncodeFault::TooLong { taken }) => Status::TooLong { taken },
    }
}

/// Writes the encoded text of the input. All memory is taken before the first byte of it.
pub fn encode<I: Source, O: Sink>(
    alloc: Global,
    described: &DescribedCode,
    input: &mut I,
    out: &mut O,
) -> Status
    ensures leaves { (tells : Bool) (report : SinkView) → EncodeLeaves described.now
        (source_call I.Source input.old input.new)
        (sink_call O.Sink out.old out.new) (still_sink tells report) result }
    ensures input_counted { (I.view input.old).faults ≤ (I.view input.new).faults }
    ensures out_counted { (O.view out.old).faults ≤ (O.view out.new).faults }
{
    let code = described.code();
    let layout = layout_of(code, described.depth(), described.is_packed());
    let Ok(mut room) = EncodeRoom::new(alloc, code, &layout) else {
        return Status::NoMemory;
    };
    status_of(encode_stream(code, &mut room, input, out, MOST_BYTES))
}
