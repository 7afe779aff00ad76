//! The commands that work on the code of a descriptor.

ghost use Rattle.std.specs.Prelude.{◌≡◌, ℕ, ◌≤◌, true, false};
ghost use Rattle.command_words.specs.Built.{is_built};
ghost use Rattle.agcode_top.specs.Calls.{source_call, sink_call};
ghost use Rattle.agcode_top.specs.Commands.{needs};
ghost use Rattle.agcode_top.specs.declared.needs.Needs.TheVariants.{Code};
ghost use Rattle.agcode_top.specs.Leaves.{ServeLeaves};

use crate::check::check;
use crate::decode::decode;
use crate::encode::encode;
use crate::erase::erase;
use crate::member::member;
use crate::params::params;
use crate::status::Status;
use crate::table::table;
use crate::trial::trial;
use crate::votes::votes;
use ag_io::{Sink, Source};
use ag_pool::Gate;
use command_words::{Command, MOST_TRIAL_BYTES, Words};
use descriptor_code::DescribedCode;
use std::alloc::Global;
use std::thread::Threads;

/// Serves a command that works on the code of a descriptor.
pub fn serve<X: Threads + Sync, I: Source, O: Sink, R: Sink, G: Gate>(
    rt: &X,
    alloc: Global,
    asked: &Words,
    described: &DescribedCode,
    input: &mut I,
    out: &mut O,
    report: &mut R,
    gate: &G,
) -> Status
    requires code { needs asked.now.command ≡ Code }
    requires built { is_built asked.now.command ≡ true }
    requires few_bytes { asked.now.bytes ≤ MOST_TRIAL_BYTES }
    ensures leaves { ServeLeaves asked.now asked.now.command described.now
        (source_call I.Source input.old input.new)
        (sink_call O.Sink out.old out.new) (sink_call R.Sink report.old report.new) result }
    ensures input_counted { (I.view input.old).faults ≤ (I.view input.new).faults }
    ensures out_counted { (O.view out.old).faults ≤ (O.view out.new).faults }
    ensures report_counted { (R.view report.old).faults ≤ (R.view report.new).faults }
{
    match asked.command {
        Command::Member => member(alloc, described, input, out),
        Command::Params => params(alloc, described, out),
        Command::Bound => table(alloc, described, out),
        Command::Check => check(alloc, described, input, out),
        Command::Encode => encode(alloc, described, input, out),
        Command::Decode => decode(rt, alloc, described, asked, input, out, report, gate),
        Command::Votes => votes(alloc, described, input, out),
        Command::Trial => trial(rt, alloc, asked, described, out),
        Command::Erase => erase(alloc, described, input, out, report),
        Command::Points | Command::Design => unreachable!(),
    }
}
