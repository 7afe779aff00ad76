//! The design of a code: which members of a basis to check, so that the order bound is above twice a wanted number of
//! errors. Start at `design`; specs/Serving says what it is for a set of checked members to serve, and specs/Designs
//! what a plan is.
//!
//! Sources: G.-L. Feng, T. R. N. Rao, "Improved geometric Goppa codes, part I: basic theory", IEEE Transactions on
//! Information Theory, 1995; T. Høholdt, J. H. van Lint, R. Pellikaan, "Algebraic geometry codes", in the Handbook of
//! Coding Theory, 1998.
#![tactic(auto)]

mod members;
mod plans;

pub use plans::{Designed, Plan, design};
