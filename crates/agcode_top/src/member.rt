//! Whether a word of the input is in the code.

ghost use Rattle.std.specs.Prelude.{◌≡◌, ℕ, ◌≤◌, Bool};
ghost use Rattle.ag_io.specs.Views.{SinkView};
ghost use Rattle.command_words.specs.declared.words.Command.TheVariants.{Member};
ghost use Rattle.command_words.specs.declared.words.Words.{Words};
ghost use Rattle.agcode_top.specs.Calls.{source_call, sink_call, still_sink};
ghost use Rattle.agcode_top.specs.Leaves.{AnswerLeaves};

use crate::status::Status;
use crate::word::{answer, read_word};
use ag_io::{Sink, Source};
use descriptor_code::DescribedCode;
use std::alloc::Global;

/// Reads a word, and says whether it is in the code.
pub fn member<I: Source, O: Sink>(
    alloc: Global,
    described: &DescribedCode,
    input: &mut I,
    out: &mut O,
) -> Status
    ensures leaves { (w : Words) (tells : Bool) (report : SinkView) →
        AnswerLeaves w Member described.now (source_call I.Source input.old input.new)
        (sink_call O.Sink out.old out.new) (still_sink tells report) result }
    ensures input_counted { (I.view input.old).faults ≤ (I.view input.new).faults }
    ensures out_counted { (O.view out.old).faults ≤ (O.view out.new).faults }
{
    let code = described.code();
    let word = match read_word(alloc, code.n() as usize, input) {
        Ok(word) => word,
        Err(status) => return status,
    };
    if code.parity().member(code.field(), &word) {
        answer(out, b"codeword\n", Status::Done)
    } else {
        answer(out, b"not a codeword\n", Status::NotCodeword)
    }
}
