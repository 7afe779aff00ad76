//! Which positions were filled in, and with what.

ghost use Rattle.std.specs.Prelude.{◌≡◌, ℕ, ◌<◌, ◌^◌, ◌++◌, length, slice_index, IfOk};
ghost use Rattle.std.specs.List.{flat_map};
ghost use Rattle.ag_texts.specs.Lines.{filled_line_of};
ghost use Rattle.code_texts.specs.Texts.{filled_text_of};

use crate::pieces::push_number_line;
use ag_texts::{LineBuf, filled_line};
use std::alloc::{AllocError, Global};

// Adds a line for each of these places, with the symbol of a word there.
#[tactic(auto, using(crate::proofs::Lines::steps))]
fn filled_lines(alloc: Global, places: &[u32], word: &[u8]) -> Result<Vec<u8>, AllocError>
    requires { (i : ℕ) → i < length places.now → slice_index places.now i < length word.now }
    ensures { IfOk result (λ text. text.items
        ≡ flat_map (λ p. filled_line_of p (slice_index word.now p)) places.now) }
{
    let mut text = Vec::new(alloc);
    let mut line = LineBuf::new();
    for place in places {
        filled_line(&mut line, *place, word[*place as usize]);
        text.extend_from_slice(line.bytes())?;
    }
    Ok(text)
}

/// A line for each of these places, with the symbol of a word there, and the number of the places.
pub fn filled_text(alloc: Global, places: &[u32], word: &[u8]) -> Result<Vec<u8>, AllocError>
    requires within { (i : ℕ) → i < length places.now →
        slice_index places.now i < length word.now }
    requires few { length places.now < 2 ^ 32 }
    ensures { IfOk result (λ text. text.items ≡ filled_text_of places.now word.now) }
{
    let mut text = filled_lines(alloc, places, word)?;
    let mut line = LineBuf::new();
    push_number_line(&mut text, &mut line, "done filled", places.len() as u32)?;
    Ok(text)
}
