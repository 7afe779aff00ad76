//! The making of the code of a descriptor.

ghost use Rattle.std.specs.Prelude.{◌≡◌, ℕ, ◌≤◌, true, false};
ghost use Rattle.command_words.specs.Built.{is_built};
ghost use Rattle.agcode_top.specs.Calls.{source_call, sink_call};
ghost use Rattle.agcode_top.specs.Commands.{needs};
ghost use Rattle.agcode_top.specs.declared.needs.Needs.TheVariants.{Code};
ghost use Rattle.agcode_top.specs.Leaves.{CompileAndServe};

use crate::serve::serve;
use crate::status::Status;
use ag_io::{Sink, Source};
use ag_pool::Gate;
use block_code::CompileFault;
use code_descriptor::{DescCause, Descriptor};
use command_words::{MOST_TRIAL_BYTES, Words};
use descriptor_code::DescribedCode;
use std::alloc::Global;
use std::thread::Threads;

/// Makes the code of a descriptor, and serves a command with it.
pub fn compile_and_serve<X: Threads + Sync, I: Source, O: Sink, R: Sink, G: Gate>(
    rt: &X,
    alloc: Global,
    asked: &Words,
    descriptor: Descriptor,
    input: &mut I,
    out: &mut O,
    report: &mut R,
    gate: &G,
) -> Status
    requires code { needs asked.now.command ≡ Code }
    requires built { is_built asked.now.command ≡ true }
    requires few_bytes { asked.now.bytes ≤ MOST_TRIAL_BYTES }
    ensures leaves { CompileAndServe asked.now asked.now.command descriptor
        (source_call I.Source input.old input.new)
        (sink_call O.Sink out.old out.new) (sink_call R.Sink report.old report.new) result }
    ensures input_counted { (I.view input.old).faults ≤ (I.view input.new).faults }
    ensures out_counted { (O.view out.old).faults ≤ (O.view out.new).faults }
    ensures report_counted { (R.view report.old).faults ≤ (R.view report.new).faults }
{
    if descriptor.points().is_empty() {
        return Status::Descriptor {
            cause: DescCause::NoPoints,
        };
    }
    match DescribedCode::compile(rt, alloc, descriptor, asked.workers) {
        Ok(described) => serve(rt, alloc, asked, &described, input, out, report, gate),
        Err(CompileFault::NoMemory) => Status::NoMemory,
        Err(CompileFault::NothingFree) => Status::Descriptor {
            cause: DescCause::NothingFree,
        },
    }
}
