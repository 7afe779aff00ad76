//! The text of the descriptor.

ghost use Rattle.std.specs.Prelude.{◌≡◌, ℕ, ◌+◌, ◌≤◌, ◌++◌, length, IsTrue, IfOk, IfErr};
ghost use Rattle.code_descriptor.specs.Meaning.{MeansTheSame};
ghost use Rattle.agcode_top.specs.Calls.{source_call, ReadsWell, TakesAtMost};
ghost use Rattle.agcode_top.specs.Texts.{IsReadFault, IsFront};

use ag_io::{Filled, Source, fill};
use code_descriptor::MOST_TEXT;
use std::alloc::{AllocError, Global};

// One byte more than the longest text: a text that fills it is too large.
const ROOM: usize = MOST_TEXT + 1;

/// Why the text of the descriptor was not read.
#[derive(Clone, Copy, Debug, PartialEq, Eq)]
pub enum TextFault {
    NoMemory,
    Fault,
}

impl From<AllocError> for TextFault {
    ghost use Rattle.agcode_top.specs.declared.text.TextFault.TheVariants.{NoMemory};

    ghost from_gives = { λ _ fault. fault ≡ NoMemory };

    fn from(_: AllocError) -> TextFault {
        TextFault::NoMemory
    }
}

// Reads to the end of the source, but at most `room` bytes.
fn read_at_most<D: Source>(alloc: Global, desc: &mut D, room: usize) -> Result<Vec<u8>, TextFault>
    ensures front { IfOk result (λ text. IsTrue D.tells →
        IsFront room text.items (D.view desc.old).left (D.view desc.new).left) }
    ensures well { IfOk result (λ _. ReadsWell (source_call D.Source desc.old desc.new)) }
    ensures fault { IfErr result (IsReadFault (source_call D.Source desc.old desc.new)) }
    ensures taken { TakesAtMost room (source_call D.Source desc.old desc.new) }
    ensures counted { (D.view desc.old).faults ≤ (D.view desc.new).faults }
{
    let mut text = vec![in alloc; 0u8; room]?;
    match fill(desc, &mut text) {
        Filled::Whole => Ok(text),
        Filled::End { got } => {
            text.truncate(got);
            Ok(text)
        }
        Filled::Fault { .. } => Err(TextFault::Fault),
    }
}

/// Reads the text of the descriptor, but no more than one byte beyond the greatest length. What is left out changes nothing
/// of what the text means: it is too large.
pub fn read_text<D: Source>(alloc: Global, desc: &mut D) -> Result<Vec<u8>, TextFault>
    ensures text { IfOk result
        (λ text. IsTrue D.tells → MeansTheSame text.items (D.view desc.old).left) }
    ensures well { IfOk result (λ _. ReadsWell (source_call D.Source desc.old desc.new)) }
    ensures fault { IfErr result (IsReadFault (source_call D.Source desc.old desc.new)) }
    ensures taken { TakesAtMost (MOST_TEXT + 1) (source_call D.Source desc.old desc.new) }
    ensures counted { (D.view desc.old).faults ≤ (D.view desc.new).faults }
{
    read_at_most(alloc, desc, ROOM)
}
