//! The plain voter: it finds an error by votes on one member after the other, and eliminates from scratch at each pair. It is
//! the definition of the vote as a program, far too slow for use; a faster voter is compared with it in tests. Start at
//! `find_plainly`.
#![tactic(auto)]

mod ballot;
mod line;
mod plain;
mod sheet;
mod turns;
mod working;

pub use line::PlainLine;
pub use plain::{PlainFind, find_plainly};
