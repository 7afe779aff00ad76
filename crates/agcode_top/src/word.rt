//! A word of the input, and a text of out.

ghost use Rattle.std.specs.Prelude.{◌≡◌, ℕ, ◌*◌, ◌≤◌, length, IsTrue, IfOk, IfErr};
ghost use Rattle.agcode_top.specs.Calls.{source_call, sink_call, IsEnded, ReadsWell};
ghost use Rattle.agcode_top.specs.Steps.{IsWordFault, LeavesText};

use crate::status::Status;
use ag_io::{Filled, Sink, Source, fill, put};
use order_domain::MOST_POINTS;
use std::alloc::Global;

/// Reads a word of n bytes, which is all of the input; else the status says why there is none.
#[tactic(auto, using(crate::proofs::TextLemmas::word_steps))]
pub fn read_word<I: Source>(alloc: Global, n: usize, input: &mut I) -> Result<Vec<u8>, Status>
    requires { n ≤ 2 * MOST_POINTS }
    ensures long { IfOk result (λ word. length word.items ≡ n) }
    ensures word { IfOk result (λ word. IsTrue I.tells → (I.view input.old).left ≡ word.items) }
    ensures ended { IfOk result (λ _. IsEnded (source_call I.Source input.old input.new)) }
    ensures well { IfOk result (λ _. ReadsWell (source_call I.Source input.old input.new)) }
    ensures fault { IfErr result (IsWordFault n (source_call I.Source input.old input.new)) }
    ensures counted { (I.view input.old).faults ≤ (I.view input.new).faults }
{
    let Ok(mut word) = vec![in alloc; 0u8; n + 1] else {
        return Err(Status::NoMemory);
    };
    match fill(input, &mut word) {
        Filled::Whole => Err(Status::WordLength {
            taken: n as u32 + 1,
        }),
        Filled::End { got } => {
            if got != n {
                return Err(Status::WordLength { taken: got as u32 });
            }
            word.truncate(n);
            Ok(word)
        }
        Filled::Fault { .. } => Err(Status::InputFault),
    }
}

/// Writes a text, and answers the status, or that the output could not be written.
pub fn answer<O: Sink>(out: &mut O, text: &[u8], status: Status) -> Status
    ensures leaves { LeavesText (sink_call O.Sink out.old out.new) text.now status result }
    ensures counted { (O.view out.old).faults ≤ (O.view out.new).faults }
{
    match put(out, text) {
        Ok(()) => status,
        Err(_) => Status::OutFault,
    }
}
