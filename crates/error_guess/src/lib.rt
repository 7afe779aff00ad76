//! Guesses the error of a block from the matrix of its syndromes: a row that adds nothing to the rows above it gives a function
//! that vanishes at the places of the error, and the symbols at the zeros of such functions solve linear equations. It is the
//! basic algorithm of A. N. Skorobogatov and S. G. Vladut, "On the decoding of algebraic-geometric codes", IEEE Transactions
//! on Information Theory, 1990, over any basis.
//!
//! What comes out is advice: it is encoded again, and the bytes that differ are counted. So nothing here has to be right,
//! and contracts say no more than that lists keep their length and hold symbols. Start at `Guess`.
#![tactic(auto)]

mod functions;
mod guess;
mod system;

pub use guess::Guess;
