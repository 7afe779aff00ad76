//! How many monomials have a degree below a bound, and the degree of the monomial at an index.

ghost use Rattle.std.specs.Prelude.{◌≡◌, ℕ, ◌<◌, ◌≤◌};
ghost use Rattle.theory_affine.specs.Monomials.{below_degree, degree_at, rest_at};

use crate::domain::MOST_FUNCTIONS;

/// A power of two above each degree.
pub const DEGREES: u32 = 1_024;

/// How many monomials in so many variables have a degree below n.
pub fn below_degree(vars: u32, n: u32) -> u32
    requires vars { vars ≤ 3 }
    requires n { n ≤ DEGREES }
    ensures { result ≡ below_degree vars n }
{
    match vars {
        0 => 0,
        1 => n,
        2 => n * (n + 1) / 2,
        _ => n * (n + 1) * (n + 2) / 6,
    }
}

// The degree of monomial i in so many variables, in ten steps.
fn degree_at(vars: u32, i: u32) -> u32
    requires vars { vars ≤ 3 }
    requires i { i < MOST_FUNCTIONS }
    ensures { result ≡ degree_at vars i }
{
    if vars < 2 {
        return i;
    }
    let mut low = 0;
    let mut high = DEGREES;
    while high - low > 1 {
        let middle = (low + high) / 2;
        if below_degree(vars, middle) <= i {
            low = middle;
        } else {
            high = middle;
        }
    }
    low
}

/// The degree of monomial i in so many variables, and its place among the monomials of that degree.
pub fn split(vars: u32, i: u32) -> (u32, u32)
    requires vars { vars ≤ 3 }
    requires i { i < MOST_FUNCTIONS }
    requires small { vars < 2 → i ≤ DEGREES }
    ensures degree { result.0 ≡ degree_at vars i }
    ensures rest { result.1 ≡ rest_at vars i }
    ensures few { result.0 ≤ DEGREES }
    ensures less { result.1 ≤ i }
{
    let degree = degree_at(vars, i);
    (degree, i - below_degree(vars, degree))
}
