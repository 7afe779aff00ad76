//! Lost symbols of a codeword are filled in: the one codeword that equals the bytes at all positions that are not lost, or
//! that there are several and where they differ first, or that there is none. Start at `fill_lost`; specs/Filling says what
//! each answer means.
//!
//! The symbols at the lost positions solve linear equations, one for each check. Their columns are taken from the last
//! position down, so that the last column without a pivot is the least position at which two codewords differ.
#![tactic(auto)]

mod equations;
mod fill;
mod kept;
mod laws;
mod marks;
mod solutions;

pub use fill::{FillSays, fill_lost};
pub use laws::{answers_exclude_each_other, codewords_agree};
pub use marks::{first_bad_mark, lost_of, positions};
