//! Affine spaces as order domains: the monomials in 1 to 3 variables on the points of the space, by rising degree.
//! Nothing is kept of the list: the index of a monomial, and the monomial at an index, are computed from binomials. Start
//! at [`AffineDomain::new`]; the list stands in `theory_affine`, specs/Monomials, the domain in specs/Domain.
//!
//! Source: T. Høholdt, J. H. van Lint, R. Pellikaan, "Algebraic geometry codes", in the Handbook of Coding Theory, 1998.
#![tactic(auto)]

ghost use Rattle.affine_domain.specs.Pairs.{PairsOfMonomials};

mod domain;
mod levels;
mod monomials;
mod points;

pub use domain::{AffineDomain, MOST_DEGREE, MOST_FUNCTIONS};
pub use order_domain::Point;

/// The function of a space with the exponents x, y and z is the sum of (x + 1)·(y + 1)·(z + 1) ordered pairs. The contract is
/// the theorem.
pub fn pairs_of_monomials()
    ensures { PairsOfMonomials }
{}

#[cfg(test)]
mod tests;
