//! The table of the order bound.

ghost use Rattle.std.specs.Prelude.{◌≡◌, ℕ, ◌≤◌, Bool};
ghost use Rattle.ag_io.specs.Views.{SourceView, SinkView};
ghost use Rattle.command_words.specs.declared.words.Command.TheVariants.{Bound};
ghost use Rattle.command_words.specs.declared.words.Words.{Words};
ghost use Rattle.agcode_top.specs.Calls.{sink_call, still_source, still_sink};
ghost use Rattle.agcode_top.specs.Leaves.{AnswerLeaves};

use crate::status::Status;
use crate::word::answer;
use ag_io::Sink;
use descriptor_code::DescribedCode;
use order_bound::table_text;
use std::alloc::Global;

/// Writes the table of the order bound.
pub fn table<O: Sink>(alloc: Global, described: &DescribedCode, out: &mut O) -> Status
    ensures leaves { (w : Words) (reads tells : Bool) (input : SourceView) (report : SinkView) →
        AnswerLeaves w Bound described.now (still_source reads input)
        (sink_call O.Sink out.old out.new) (still_sink tells report) result }
    ensures out_counted { (O.view out.old).faults ≤ (O.view out.new).faults }
{
    let code = described.code();
    match table_text(alloc, code.basis(), code.checked()) {
        Ok(text) => answer(out, &text, Status::Done),
        Err(_) => Status::NoMemory,
    }
}
