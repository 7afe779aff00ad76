//! Curves in the form C_ab over the fields of 2 to 8 bits: an equation with the leads `y^a` and `x^b`, where every other
//! term has a weight below `a·b`. Start at [`Curve::new`]; what it accepts stands in specs/Equation.
//!
//! Source: S. Miura, "Linear codes on affine algebraic curves", 1998, for the form of the curves.
#![tactic(auto, using(crate::proofs::Least::steps))]

mod domain;
mod equation;
mod functions;
mod monomials;
mod normal;
mod points;
mod relation;

pub use curve_theory::Term;
pub use domain::CabDomain;
pub use equation::{Curve, CurveFault};
pub use monomials::monomial;
pub use normal::{NormTerm, Normal};
pub use order_domain::Point;

#[cfg(test)]
mod tests;
