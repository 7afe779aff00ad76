//! The pieces that long lines are made of.

ghost use Rattle.std.specs.Prelude.{◌≡◌, ℕ, ◌≤◌, ◌++◌, ◌∷◌, [], length, codes, IfOk};
ghost use Rattle.std.specs.Fmt.{decimal};
ghost use Rattle.ag_texts.specs.Lines.{number_line_of};

use ag_texts::{LineBuf, number_line};
use std::alloc::AllocError;

/// Adds a line of a name and a number.
pub fn push_number_line(
    text: &mut Vec<u8>,
    line: &mut LineBuf,
    name: &str,
    v: u32,
) -> Result<(), AllocError>
    requires { length name.now ≤ 200 }
    ensures { IfOk result (λ _. text.new.items ≡ text.old.items ++ number_line_of name.now v) }
{
    number_line(line, name, u64::from(v));
    text.extend_from_slice(line.bytes())?;
    Ok(())
}

/// Adds a space and a number.
#[tactic(auto, using(ag_texts::proofs::Digits::twenty_digits))]
pub fn push_field(text: &mut Vec<u8>, line: &mut LineBuf, v: u32) -> Result<(), AllocError>
    ensures { IfOk result (λ _. text.new.items ≡ text.old.items ++ 32 ∷ decimal v) }
{
    line.clear();
    line.word(" ");
    line.number(u64::from(v));
    text.extend_from_slice(line.bytes())?;
    Ok(())
}

/// Adds a space and two numbers with a colon between them.
#[tactic(auto, using(ag_texts::proofs::Digits::twenty_digits))]
pub fn push_pair(
    text: &mut Vec<u8>,
    line: &mut LineBuf,
    first: u32,
    second: u32,
) -> Result<(), AllocError>
    ensures { IfOk result (λ _. text.new.items
        ≡ text.old.items ++ 32 ∷ (decimal first ++ codes ":" ++ decimal second)) }
{
    line.clear();
    line.word(" ");
    line.number(u64::from(first));
    line.word(":");
    line.number(u64::from(second));
    text.extend_from_slice(line.bytes())?;
    Ok(())
}

/// Adds a space and a term: its weight and its coefficient, with a colon between them.
pub fn push_term(
    text: &mut Vec<u8>,
    line: &mut LineBuf,
    weight: u32,
    c: u8,
) -> Result<(), AllocError>
    ensures { IfOk result (λ _. text.new.items
        ≡ text.old.items ++ 32 ∷ (decimal weight ++ codes ":" ++ decimal c)) }
{
    push_pair(text, line, weight, u32::from(c))
}
