//! The reading of the words, and what follows.

ghost use Rattle.std.specs.Prelude.{◌≡◌, ℕ, ◌+◌, ◌≤◌, map};
ghost use Rattle.std.specs.String.{string_bytes};
ghost use Rattle.agcode_top.specs.Calls.{call, source_call, TakesAtMost};
ghost use Rattle.agcode_top.specs.Leaves.{ObeyLeaves};

use crate::carry_out::carry_out;
use crate::status::Status;
use ag_io::{Sink, Source};
use ag_pool::Gate;
use code_descriptor::MOST_TEXT;
use command_words::read_words;
use std::alloc::Global;
use std::thread::Threads;

/// Does what the words ask for. The line of the status is still to be told.
pub fn obey<X: Threads + Sync, D: Source, I: Source, O: Sink, R: Sink, G: Gate>(
    rt: &X,
    alloc: Global,
    words: &[String],
    desc: &mut D,
    input: &mut I,
    out: &mut O,
    report: &mut R,
    gate: &G,
) -> Status
    ensures leaves { ObeyLeaves (map string_bytes words.now) (call
        D.Source desc.old desc.new I.Source input.old input.new
        O.Sink out.old out.new R.Sink report.old report.new) result }
    ensures desc_taken { TakesAtMost (MOST_TEXT + 1) (source_call D.Source desc.old desc.new) }
    ensures desc_counted { (D.view desc.old).faults ≤ (D.view desc.new).faults }
    ensures input_counted { (I.view input.old).faults ≤ (I.view input.new).faults }
    ensures out_counted { (O.view out.old).faults ≤ (O.view out.new).faults }
    ensures report_counted { (R.view report.old).faults ≤ (R.view report.new).faults }
{
    let Some(asked) = read_words(words) else {
        return Status::Usage;
    };
    carry_out(rt, alloc, &asked, desc, input, out, report, gate)
}
