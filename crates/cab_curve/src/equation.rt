//! The equation of a curve, and why one is refused.

ghost use Rattle.std.specs.Prelude.{◌≡◌, ◌≢◌, ℕ, ◌+◌, ◌*◌, ◌<◌, ◌≤◌, ◌^◌, Some, None, length, IfOk, IfErr};
ghost use Rattle.curve_theory.specs.Curve.{has_term};
ghost use Rattle.cab_curve.specs.First.{least};
ghost use Rattle.cab_curve.specs.Equation.{IsCurve, is_bad_term, curve_refusal};

use crate::Term;
use gf_field::Field;
use std::alloc::Global;
use std::marker::Model;
use weight_semi::Semi;

/// Why an equation is refused.
#[derive(Clone, Copy, Debug, PartialEq, Eq)]
pub enum CurveFault {
    NoMemory,
    /// The weights are not 2 to 32, or they are not coprime.
    BadDegrees,
    /// The first term that is refused: its coefficient is 0 or no symbol, its weight is above `a·b`, or an earlier term has
    /// its exponents.
    BadTerm { index: u32 },
    /// There is no term `y^a` or no term `x^b`.
    MissingLead,
}

/// A curve in the form C_ab, seen as the bits of its symbols, the weights a and b of x and y, and its terms.
#[derive(Drop)]
pub struct Curve {
    bits: u32,
    a: u32,
    b: u32,
    terms: Vec<Term>,
}

impl Model for Curve {
    ghost use Rattle.cab_curve.specs.Equation.{Equation, IsCurve};

    ghost Value = { Equation };

    ghost view = { λ c. record { bits = c.bits; a = c.a; b = c.b; terms = c.terms.items } };

    ghost invariant = { λ c.
        IsCurve (record { bits = c.bits; a = c.a; b = c.b; terms = c.terms.items }) };
}

// Whether a term has these exponents.
fn has_term(terms: &[Term], i: u32, j: u32) -> bool
    ensures { result ≡ has_term terms.now i j }
{
    for term in terms {
        if term.i == i && term.j == j {
            return true;
        }
    }
    false
}

// Whether term `k` is refused; a symbol is below `size`.
#[tactic(auto, using(std::proofs::lemmas::Bool::Decides::nat_tests), unfolding(crate::specs::Equation::is_bad_term))]
fn is_bad_term(size: u32, a: u32, b: u32, terms: &[Term], k: usize) -> bool
    requires a { a ≤ 32 }
    requires b { b ≤ 32 }
    requires k { k < length terms.now }
    ensures { result ≡ is_bad_term size a b terms.now k }
{
    let Term { i, j, c } = terms[k];
    let weight = u64::from(a) * u64::from(i) + u64::from(b) * u64::from(j);
    c == 0 || u32::from(c) >= size || weight > u64::from(a * b) || has_term(&terms[..k], i, j)
}

// The place of the first term that is refused.
fn first_bad_term(size: u32, a: u32, b: u32, terms: &[Term]) -> Option<u32>
    requires a { a ≤ 32 }
    requires b { b ≤ 32 }
    requires few { length terms.now < 2 ^ 32 }
    ensures { result ≡ least (length terms.now) (is_bad_term size a b terms.now) }
{
    for k in 0..terms.len() {
        if is_bad_term(size, a, b, terms, k) {
            return Some(k as u32);
        }
    }
    None
}

impl Curve {
    /// The curve of these weights and terms over the symbols of `f`, or the first cause that refuses them, in the order of
    /// [`CurveFault`]. Want of memory may come in place of any answer.
    #[tactic(auto, unfolding(crate::specs::Equation::curve_refusal))]
    pub fn new<F: Field>(
        alloc: Global,
        f: &F,
        a: u32,
        b: u32,
        terms: &[Term],
    ) -> Result<Curve, CurveFault>
        requires few { length terms.now < 2 ^ 32 }
        ensures accepted { IfOk result (λ _.
            curve_refusal (2 ^ F.bits_of f.now) a b terms.now ≡ None) }
        ensures curve { IfOk result (λ c.
            c ≡ record { bits = F.bits_of f.now; a = a; b = b; terms = terms.now }) }
        ensures refused { IfErr result (λ e. e ≢ CurveFault.NoMemory →
            curve_refusal (2 ^ F.bits_of f.now) a b terms.now ≡ Some e) }
    {
        if Semi::new(a, b).is_none() {
            return Err(CurveFault::BadDegrees);
        }
        let bits = f.bits();
        if let Some(index) = first_bad_term(1 << bits, a, b, terms) {
            return Err(CurveFault::BadTerm { index });
        }
        if !(has_term(terms, 0, a) && has_term(terms, b, 0)) {
            return Err(CurveFault::MissingLead);
        }
        match terms.to_vec(alloc) {
            Ok(terms) => Ok(Curve { bits, a, b, terms }),
            Err(_) => Err(CurveFault::NoMemory),
        }
    }

    /// The bits of a symbol.
    pub fn bits(&self) -> u32
        ensures bits { result ≡ self.now.bits }
        ensures curve { IsCurve self.now }
    {
        self.bits
    }

    /// The weight of x, which is the degree of y.
    pub fn a(&self) -> u32
        ensures a { result ≡ self.now.a }
        ensures curve { IsCurve self.now }
    {
        self.a
    }

    /// The weight of y, which is the degree of x.
    pub fn b(&self) -> u32
        ensures b { result ≡ self.now.b }
        ensures curve { IsCurve self.now }
    {
        self.b
    }

    /// The terms of the equation.
    pub fn terms(&self) -> &[Term]
        ensures terms { result.now ≡ self.now.terms }
        ensures curve { IsCurve self.now }
    {
        self.terms.as_slice()
    }
}
