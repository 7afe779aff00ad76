//! The parameters of a code.

ghost use Rattle.std.specs.Prelude.{◌≡◌, ◌≢◌, ℕ, ◌≤◌, ◌++◌, ◌∷◌, [], length, codes, IfOk};
ghost use Rattle.ag_texts.specs.Lines.{line_of};
ghost use Rattle.code_texts.specs.Texts.{numbers_line_of, relation_line_of, relation_text_of, params_text_of};

use crate::pieces::{push_field, push_number_line, push_term};
use ag_texts::LineBuf;
use cab_curve::{NormTerm, Normal};
use std::alloc::{AllocError, Global};

/// The numbers of a code: its length, the order bound and the radius.
#[derive(Clone, Copy)]
pub struct Parameters {
    pub n: u32,
    pub bound: u32,
    pub radius: u32,
}

// Adds a line of a word and numbers.
#[tactic(auto, using(crate::proofs::Lines::steps))]
fn push_numbers(
    text: &mut Vec<u8>,
    line: &mut LineBuf,
    word: &str,
    numbers: &[u32],
) -> Result<(), AllocError>
    ensures { IfOk result (λ _.
        text.new.items ≡ text.old.items ++ numbers_line_of word.now numbers.now) }
{
    text.extend_from_slice(word.as_bytes())?;
    for number in numbers {
        push_field(text, line, *number)?;
    }
    text.push(b'\n')?;
    Ok(())
}

// Adds the line of the terms of a normal form.
#[tactic(auto, using(crate::proofs::Lines::steps))]
fn push_relation(
    text: &mut Vec<u8>,
    line: &mut LineBuf,
    relation: &[NormTerm],
) -> Result<(), AllocError>
    ensures { IfOk result (λ _. text.new.items ≡ text.old.items ++ relation_line_of relation.now) }
{
    text.extend_from_slice(b"relation")?;
    for term in relation {
        push_term(text, line, term.weight, term.c)?;
    }
    text.push(b'\n')?;
    Ok(())
}

// Adds the line of a normal form, or of none.
fn push_any_relation(
    text: &mut Vec<u8>,
    line: &mut LineBuf,
    relation: &Option<Normal>,
) -> Result<(), AllocError>
    ensures { IfOk result (λ _. text.new.items ≡ text.old.items ++ relation_text_of relation.now) }
{
    match relation {
        Some(normal) => push_relation(text, line, normal.terms()),
        None => {
            text.extend_from_slice(b"relation none\n")?;
            Ok(())
        }
    }
}

/// The parameters of a code: n, k, the number of checks, the order bound, the radius, the labels of all members and of the
/// checked ones, and the normal form of `y^a` on a curve, a line each. The line of no labels is its word alone.
pub fn params_text(
    alloc: Global,
    numbers: Parameters,
    labels: &[u32],
    checked: &[u32],
    relation: &Option<Normal>,
) -> Result<Vec<u8>, AllocError>
    requires { length checked.now ≤ numbers.n }
    ensures { IfOk result (λ text. text.items
        ≡ params_text_of numbers.n labels.now checked.now
        numbers.bound numbers.radius relation.now) }
{
    let Parameters { n, bound, radius } = numbers;
    let mut text = Vec::new(alloc);
    let mut buffer = LineBuf::new();
    let line = &mut buffer;
    let size = checked.len() as u32;
    push_number_line(&mut text, line, "n", n)?;
    push_number_line(&mut text, line, "k", n - size)?;
    push_number_line(&mut text, line, "checks", size)?;
    push_number_line(&mut text, line, "bound", bound)?;
    push_number_line(&mut text, line, "t", radius)?;
    push_numbers(&mut text, line, "labels", labels)?;
    push_numbers(&mut text, line, "checked", checked)?;
    push_any_relation(&mut text, line, relation)?;
    Ok(text)
}
