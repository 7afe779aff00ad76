//! Classes of equal products: pairs of members of a basis whose products are the same list, so that the matrix of every
//! list has the same entry at all pairs of a class. Start at `Classes`.
#![tactic(auto)]

mod classes;
mod columns;
mod listing;
mod reaches;
mod shifts;

pub use classes::Classes;
