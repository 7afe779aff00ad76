//! The reading of the descriptor, and what follows for a command.

ghost use Rattle.std.specs.Prelude.{◌≡◌, ℕ, ◌+◌, ◌≤◌, true};
ghost use Rattle.command_words.specs.Built.{is_built};
ghost use Rattle.agcode_top.specs.Calls.{call, source_call, TakesAtMost};
ghost use Rattle.agcode_top.specs.Leaves.{CarryOutLeaves};

use crate::compile_and_serve::compile_and_serve;
use crate::design::design;
use crate::needs::{Needs, needs_of};
use crate::points::points;
use crate::status::Status;
use crate::text::{TextFault, read_text};
use ag_io::{Sink, Source};
use ag_pool::Gate;
use code_descriptor::{DescError, MOST_TEXT, read};
use command_words::{MOST_TRIAL_BYTES, MOST_WANTED, Words};
use std::alloc::Global;
use std::thread::Threads;

/// Reads the descriptor, and carries out a command.
pub fn carry_out<X: Threads + Sync, D: Source, I: Source, O: Sink, R: Sink, G: Gate>(
    rt: &X,
    alloc: Global,
    asked: &Words,
    desc: &mut D,
    input: &mut I,
    out: &mut O,
    report: &mut R,
    gate: &G,
) -> Status
    requires built { is_built asked.now.command ≡ true }
    requires few_bytes { asked.now.bytes ≤ MOST_TRIAL_BYTES }
    requires few_wanted { asked.now.want ≤ MOST_WANTED }
    ensures leaves { CarryOutLeaves asked.now asked.now.command (call
        D.Source desc.old desc.new I.Source input.old input.new
        O.Sink out.old out.new R.Sink report.old report.new) result }
    ensures desc_taken { TakesAtMost (MOST_TEXT + 1) (source_call D.Source desc.old desc.new) }
    ensures desc_counted { (D.view desc.old).faults ≤ (D.view desc.new).faults }
    ensures input_counted { (I.view input.old).faults ≤ (I.view input.new).faults }
    ensures out_counted { (O.view out.old).faults ≤ (O.view out.new).faults }
    ensures report_counted { (R.view report.old).faults ≤ (R.view report.new).faults }
{
    let text = match read_text(alloc, desc) {
        Ok(text) => text,
        Err(TextFault::NoMemory) => return Status::NoMemory,
        Err(TextFault::Fault) => return Status::DescFault,
    };
    let descriptor = match read(alloc, &text) {
        Ok(descriptor) => descriptor,
        Err(DescError::NoMemory) => return Status::NoMemory,
        Err(DescError::Refused { cause }) => return Status::Descriptor { cause },
    };
    match needs_of(asked.command) {
        Needs::Space => points(alloc, &descriptor, out),
        Needs::Basis => design(rt, alloc, asked, descriptor, out),
        Needs::Code => compile_and_serve(rt, alloc, asked, descriptor, input, out, report, gate),
    }
}
