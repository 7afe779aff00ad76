//! Whether the input is the table of the order bound.

ghost use Rattle.std.specs.Prelude.{◌≡◌, ℕ, ◌≤◌, IfOk, Bool};
ghost use Rattle.ag_io.specs.Views.{SinkView};
ghost use Rattle.command_words.specs.declared.words.Command.TheVariants.{Check};
ghost use Rattle.command_words.specs.declared.words.Words.{Words};
ghost use Rattle.agcode_top.specs.Calls.{source_call, sink_call, still_sink};
ghost use Rattle.agcode_top.specs.Leaves.{AnswerLeaves};
ghost use Rattle.agcode_top.specs.Steps.{SaysOf};

use crate::input::{InputFault, read_input};
use crate::limit::MOST_TABLE;
use crate::status::Status;
use crate::word::answer;
use ag_io::{Sink, Source};
use ag_texts::{LineBuf, number_line};
use descriptor_code::DescribedCode;
use order_bound::{TableSays, check_table};
use std::alloc::{AllocError, Global};

// What the checks of a text say.
fn verdict(alloc: Global, described: &DescribedCode, text: &[u8]) -> Result<TableSays, AllocError>
    ensures { IfOk result (SaysOf described.now text.now) }
{
    let code = described.code();
    code.basis();
    check_table(
        alloc,
        code.field(),
        described.domain(),
        described.points(),
        described.rule(),
        text,
    )
}

/// Reads a text, and says whether it is the table of the order bound.
pub fn check<I: Source, O: Sink>(
    alloc: Global,
    described: &DescribedCode,
    input: &mut I,
    out: &mut O,
) -> Status
    ensures leaves { (w : Words) (tells : Bool) (report : SinkView) →
        AnswerLeaves w Check described.now (source_call I.Source input.old input.new)
        (sink_call O.Sink out.old out.new) (still_sink tells report) result }
    ensures input_counted { (I.view input.old).faults ≤ (I.view input.new).faults }
    ensures out_counted { (O.view out.old).faults ≤ (O.view out.new).faults }
{
    let text = match read_input(alloc, MOST_TABLE, input) {
        Ok(text) => text,
        Err(InputFault::NoMemory) => return Status::NoMemory,
        Err(InputFault::Fault) => return Status::InputFault,
        Err(InputFault::TooLong { taken }) => return Status::TooLong { taken },
    };
    match verdict(alloc, described, &text) {
        Ok(TableSays::Accepted { bound }) => {
            let mut line = LineBuf::new();
            number_line(&mut line, "accepted bound", u64::from(bound));
            answer(out, line.bytes(), Status::Done)
        }
        Ok(TableSays::Refused { line }) => Status::TableRefused { line },
        Err(_) => Status::NoMemory,
    }
}
