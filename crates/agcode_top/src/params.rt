//! The parameters of a code.

ghost use Rattle.std.specs.Prelude.{◌≡◌, ℕ, ◌≤◌, IfOk, Bool};
ghost use Rattle.ag_io.specs.Views.{SourceView, SinkView};
ghost use Rattle.command_words.specs.declared.words.Command.TheVariants.{Params};
ghost use Rattle.command_words.specs.declared.words.Words.{Words};
ghost use Rattle.agcode_top.specs.Calls.{sink_call, still_source, still_sink};
ghost use Rattle.agcode_top.specs.Commands.{HasParameters};
ghost use Rattle.agcode_top.specs.Leaves.{AnswerLeaves};

use crate::status::Status;
use crate::word::answer;
use ag_io::Sink;
use code_texts::{Parameters, params_text};
use descriptor_code::DescribedCode;
use std::alloc::{AllocError, Global};

// The text of the parameters of a code.
fn text_of(alloc: Global, described: &DescribedCode) -> Result<Vec<u8>, AllocError>
    ensures { IfOk result (λ text. HasParameters described.now text.items) }
{
    let code = described.code();
    let numbers = Parameters {
        n: code.n(),
        bound: code.bound(),
        radius: code.radius(),
    };
    let labels = described.labels(alloc)?;
    let checked = described.checked_labels(alloc)?;
    params_text(alloc, numbers, &labels, &checked, described.relation())
}

/// Writes the parameters of a code, on a curve with the normal form of `y^a`.
pub fn params<O: Sink>(alloc: Global, described: &DescribedCode, out: &mut O) -> Status
    ensures leaves { (w : Words) (reads tells : Bool) (input : SourceView) (report : SinkView) →
        AnswerLeaves w Params described.now (still_source reads input)
        (sink_call O.Sink out.old out.new) (still_sink tells report) result }
    ensures out_counted { (O.view out.old).faults ≤ (O.view out.new).faults }
{
    match text_of(alloc, described) {
        Ok(text) => answer(out, &text, Status::Done),
        Err(_) => Status::NoMemory,
    }
}
