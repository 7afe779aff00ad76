//! What to check so that a wanted number of errors is repaired.

ghost use Rattle.std.specs.Prelude.{◌≡◌, ℕ, ◌≤◌, Bool};
ghost use Rattle.ag_io.specs.Views.{SourceView, SinkView};
ghost use Rattle.command_words.specs.declared.words.Command.TheVariants.{Design};
ghost use Rattle.agcode_top.specs.Calls.{sink_call, still_source, still_sink};
ghost use Rattle.agcode_top.specs.Leaves.{CompileAndServe};

use crate::status::Status;
use crate::word::answer;
use ag_io::Sink;
use code_descriptor::{DescCause, Descriptor};
use command_words::{MOST_WANTED, Words};
use descriptor_design::{DesignSays, design as design_at};
use std::alloc::Global;
use std::thread::Threads;

/// Writes the plans for the wanted number of errors at the points of a descriptor. Its rule is not used.
pub fn design<X: Threads + Sync, O: Sink>(
    rt: &X,
    alloc: Global,
    asked: &Words,
    descriptor: Descriptor,
    out: &mut O,
) -> Status
    requires { asked.now.want ≤ MOST_WANTED }
    ensures leaves { (reads tells : Bool) (input : SourceView) (report : SinkView) →
        CompileAndServe asked.now Design descriptor (still_source reads input)
        (sink_call O.Sink out.old out.new) (still_sink tells report) result }
    ensures out_counted { (O.view out.old).faults ≤ (O.view out.new).faults }
{
    if descriptor.points().is_empty() {
        return Status::Descriptor {
            cause: DescCause::NoPoints,
        };
    }
    match design_at(rt, alloc, descriptor, asked.want, asked.workers) {
        Ok(DesignSays::Text { text }) => answer(out, &text, Status::Done),
        Ok(DesignSays::Nothing { most }) => Status::NoDesign { most },
        Err(_) => Status::NoMemory,
    }
}
