//! All of the input.

ghost use Rattle.std.specs.Prelude.{◌≡◌, ℕ, ◌%◌, ◌<◌, ◌≤◌, length, IsTrue, IfOk, IfErr};
ghost use Rattle.agcode_top.specs.Calls.{source_call, IsEnded, ReadsWell};
ghost use Rattle.agcode_top.specs.Inputs.{IsInputFault, IsFaultAt, Took, TookPiece};

use crate::limit::MOST_TABLE;
use ag_io::{Filled, Source, fill};
use std::alloc::{AllocError, Global};
use stream_codec::PIECE;

/// Why an input was not read.
#[derive(Clone, Copy, Debug, PartialEq, Eq)]
pub enum InputFault {
    NoMemory,
    Fault,
    /// More bytes than the limit were taken.
    TooLong { taken: u64 },
}

impl From<AllocError> for InputFault {
    ghost use Rattle.agcode_top.specs.declared.input.InputFault.TheVariants.{NoMemory};

    ghost from_gives = { λ _ fault. fault ≡ NoMemory };

    fn from(_: AllocError) -> InputFault {
        InputFault::NoMemory
    }
}

// What came after a piece.
#[derive(Clone, Copy)]
enum Tail {
    More,
    End,
    // A read failed after `got` bytes, which are not kept.
    Fault { got: usize },
}

// Adds the next piece of the input to a text.
fn take_piece<I: Source>(
    text: &mut Vec<u8>,
    piece: &mut [u8],
    input: &mut I,
) -> Result<Tail, AllocError>
    requires { length piece.old ≡ PIECE }
    ensures took { IfOk result
        (Took (source_call I.Source input.old input.new) text.old.items text.new.items) }
    ensures piece { IfErr result (λ _. TookPiece (source_call I.Source input.old input.new)) }
    ensures counted { (I.view input.old).faults ≤ (I.view input.new).faults }
{
    match fill(input, piece) {
        Filled::Whole => {
            text.extend_from_slice(piece)?;
            Ok(Tail::More)
        }
        Filled::End { got } => {
            text.extend_from_slice(&piece[..got])?;
            Ok(Tail::End)
        }
        Filled::Fault { got } => Ok(Tail::Fault { got }),
    }
}

// Why an input was not read of which a read failed after so many bytes.
fn fault_at(limit: usize, taken: usize) -> InputFault
    ensures { IsFaultAt limit taken result }
{
    if taken > limit {
        return InputFault::TooLong {
            taken: taken as u64,
        };
    }
    InputFault::Fault
}

/// Reads all of the input, but no more than one piece beyond the limit, which is a number of whole pieces.
pub fn read_input<I: Source>(
    alloc: Global,
    limit: usize,
    input: &mut I,
) -> Result<Vec<u8>, InputFault>
    requires most { limit ≤ MOST_TABLE }
    requires whole { limit % PIECE ≡ 0 }
    ensures all { IfOk result (λ text. IsTrue I.tells → (I.view input.old).left ≡ text.items) }
    ensures within { IfOk result (λ text. length text.items ≤ limit) }
    ensures ended { IfOk result (λ _. IsEnded (source_call I.Source input.old input.new)) }
    ensures well { IfOk result (λ _. ReadsWell (source_call I.Source input.old input.new)) }
    ensures fault { IfErr result
        (IsInputFault limit (source_call I.Source input.old input.new)) }
    ensures counted { (I.view input.old).faults ≤ (I.view input.new).faults }
{
    let mut text = Vec::new(alloc);
    let mut piece = [0u8; PIECE];
    while text.len() <= limit {
        let tail = take_piece(&mut text, &mut piece, input)?;
        if let Tail::Fault { got } = tail {
            return Err(fault_at(limit, text.len() + got));
        }
        if text.len() > limit {
            break;
        }
        if matches!(tail, Tail::End) {
            return Ok(text);
        }
    }
    Err(InputFault::TooLong {
        taken: text.len() as u64,
    })
}
