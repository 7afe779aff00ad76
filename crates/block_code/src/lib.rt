//! One codeword in and out: the code of a basis and a rule, the codeword of a message, and the codeword near a block of
//! bytes, found by majority voting. Start at `Code`; contracts see it as the plain data of specs/Compiled.
#![tactic(auto)]

mod bench;
mod code;
mod coded;
mod correction;

pub use bench::Bench;
pub use code::{Code, CompileFault};
pub use coded_block::{BlockBench, BlockCode, Verdict};
pub use vote_core::VoteLine;
