//! The text of an outcome.

ghost use Rattle.std.specs.Prelude.{◌≡◌, ◌≤◌, ◌++◌, length, IfOk};
ghost use Rattle.ag_texts.specs.Lines.{number_line_of};
ghost use Rattle.code_trial.specs.Trials.{outcome_lines};

use ag_texts::{LineBuf, number_line, plain_line};
use std::alloc::{AllocError, Global};

/// What a trial found: the codewords of the image, the stored symbols that were changed, the changes that decoding reported, and
/// whether the file came back.
#[derive(Clone, Copy)]
pub struct Outcome {
    pub codewords: u64,
    pub changed: u64,
    pub corrected: u64,
    pub equal: bool,
}

// Adds a line of a name and a number.
fn push_number_line(
    text: &mut Vec<u8>,
    line: &mut LineBuf,
    name: &str,
    v: u64,
) -> Result<(), AllocError>
    requires { length name.now ≤ 200 }
    ensures { IfOk result (λ _. text.new.items ≡ text.old.items ++ number_line_of name.now v) }
{
    number_line(line, name, v);
    text.extend_from_slice(line.bytes())?;
    Ok(())
}

/// The five lines of an outcome with a file of `bytes` bytes.
pub fn outcome_text(alloc: Global, bytes: u32, outcome: &Outcome) -> Result<Vec<u8>, AllocError>
    ensures { IfOk result (λ text. text.items ≡ outcome_lines bytes outcome.now) }
{
    let mut text = Vec::new(alloc);
    let mut line = LineBuf::new();
    push_number_line(&mut text, &mut line, "bytes", u64::from(bytes))?;
    push_number_line(&mut text, &mut line, "codewords", outcome.codewords)?;
    push_number_line(&mut text, &mut line, "changed", outcome.changed)?;
    push_number_line(&mut text, &mut line, "corrected", outcome.corrected)?;
    let equal = if outcome.equal {
        "equal yes"
    } else {
        "equal no"
    };
    plain_line(&mut line, equal);
    text.extend_from_slice(line.bytes())?;
    Ok(text)
}
