//! A trial of a code.

ghost use Rattle.std.specs.Prelude.{◌≡◌, ℕ, ◌≤◌, Bool};
ghost use Rattle.ag_io.specs.Views.{SourceView, SinkView};
ghost use Rattle.command_words.specs.declared.words.Command.TheVariants.{Trial};
ghost use Rattle.agcode_top.specs.Calls.{sink_call, still_source, still_sink};
ghost use Rattle.agcode_top.specs.Leaves.{AnswerLeaves};

use crate::status::Status;
use crate::word::answer;
use ag_io::Sink;
use code_trial::trial_text;
use command_words::{MOST_TRIAL_BYTES, Words};
use descriptor_code::DescribedCode;
use std::alloc::Global;
use std::thread::Threads;
use stream_codec::layout_of;

/// Encodes a file that is made from the seed, damages its image within the radius, decodes it, and writes what came of it.
pub fn trial<X: Threads + Sync, O: Sink>(
    rt: &X,
    alloc: Global,
    asked: &Words,
    described: &DescribedCode,
    out: &mut O,
) -> Status
    requires few_bytes { asked.now.bytes ≤ MOST_TRIAL_BYTES }
    ensures leaves { (reads tells : Bool) (input : SourceView) (report : SinkView) →
        AnswerLeaves asked.now Trial described.now (still_source reads input)
        (sink_call O.Sink out.old out.new) (still_sink tells report) result }
    ensures out_counted { (O.view out.old).faults ≤ (O.view out.new).faults }
{
    let code = described.code();
    let radius = code.radius();
    let layout = layout_of(code, described.depth(), described.is_packed());
    match trial_text(rt, alloc, code, &layout, radius, asked.seed, asked.bytes) {
        Ok(text) => answer(out, &text, Status::Done),
        Err(_) => Status::NoMemory,
    }
}
