//! The decoder by majority voting of G.-L. Feng and T. R. N. Rao, "Decoding algebraic-geometric codes up to the designed
//! minimum distance", IEEE Transactions on Information Theory, 1993: it finds the one error of weight at most t that
//! leads a received list into the code, exactly where there is one. Start at `Poll`, the vote as steps; `Voter` goes through
//! them all. It knows of the code's functions only what an `EvalBasis` tells of them.
#![tactic(auto)]

ghost use Rattle.vote_core.specs.RefusalLaws.{PivotLaw, LineLaw};

mod ballot;
mod course;
mod ledger;
mod outcome;
mod poll;
mod progress;
mod room;
mod rows;
mod runs;
mod steps;
mod turns;
mod voter;

pub use ledger::VoteLine;
pub use poll::{Poll, Step};
pub use voter::{Found, Voter};

/// What a vote may refuse by: no error of at most t symbols has more than t pivots in what is known of its matrix, nor a line
/// whose pairs and wrong candidates are more than its right ones and 2t.
pub fn refusals()
    ensures pivots { PivotLaw }
    ensures lines { LineLaw }
{}
