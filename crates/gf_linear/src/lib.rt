//! Linear algebra over a field: matrices, products of lists, ranks, the reduced row echelon form, dual lists and solutions.
//! Start at `Matrix`; the functions take a field that meets `Field`.
//!
//! Everything rests on one elimination in place, `reduce` in `elimination.rt`, which works on the rows of a list.
#![tactic(auto)]

mod columns;
mod combining;
mod duals;
mod elimination;
mod lanes;
mod lists;
mod matrix;
mod parts;
mod ranks;
mod rows;
mod solutions;
#[cfg(test)]
mod tests;

pub use combining::combine_rows;
pub use duals::dual_of;
pub use lists::{add_scaled, dot};
pub use matrix::Matrix;
pub use parts::{part_rank, part_residue};
pub use ranks::{echelon, rank};
pub use solutions::solve;
