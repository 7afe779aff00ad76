//! What the candidates of a decoding said.

ghost use Rattle.std.specs.Prelude.{◌≡◌, ℕ, ◌≤◌, length, IsTrue, Bool};
ghost use Rattle.ag_io.specs.Views.{SinkView};
ghost use Rattle.command_words.specs.declared.words.Command.TheVariants.{Votes};
ghost use Rattle.command_words.specs.declared.words.Words.{Words};
ghost use Rattle.agcode_top.specs.Calls.{source_call, sink_call, still_sink};
ghost use Rattle.agcode_top.specs.Leaves.{AnswerLeaves};

use crate::status::Status;
use crate::word::{answer, read_word};
use ag_io::{Sink, Source};
use block_code::{Bench, Verdict};
use code_texts::votes_text;
use descriptor_code::DescribedCode;
use std::alloc::Global;

/// Reads a word, decodes it, and writes the ledger.
pub fn votes<I: Source, O: Sink>(
    alloc: Global,
    described: &DescribedCode,
    input: &mut I,
    out: &mut O,
) -> Status
    ensures leaves { (w : Words) (tells : Bool) (report : SinkView) →
        AnswerLeaves w Votes described.now (source_call I.Source input.old input.new)
        (sink_call O.Sink out.old out.new) (still_sink tells report) result }
    ensures input_counted { (I.view input.old).faults ≤ (I.view input.new).faults }
    ensures out_counted { (O.view out.old).faults ≤ (O.view out.new).faults }
{
    let code = described.code();
    let n = code.n() as usize;
    let Ok(mut bench) = Bench::new(alloc, code) else {
        return Status::NoMemory;
    };
    let Ok(mut word) = vec![in alloc; 0u8; n] else {
        return Status::NoMemory;
    };
    let got = match read_word(alloc, n, input) {
        Ok(got) => got,
        Err(status) => return status,
    };
    match code.decode_block(&mut bench, &got, &mut word) {
        Verdict::Beyond => Status::Beyond { group: 0, word: 0 },
        Verdict::Near { .. } => match votes_text(alloc, bench.ledger()) {
            Ok(text) => answer(out, &text, Status::Done),
            Err(_) => Status::NoMemory,
        },
    }
}
