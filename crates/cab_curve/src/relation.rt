//! What `y^a` is on a curve, and the powers of y by it.

ghost use Rattle.std.specs.Prelude.{◌≡◌, ℕ, ◌+◌, ◌*◌, ◌-◌, ◌<◌, ◌≤◌, ◌^◌, ◌&&◌, nat_eq, false, length, slice_index, All, IfOk, bit_xor};
ghost use Rattle.gf_theory.specs.Field.{gf_mul};
ghost use Rattle.curve_theory.specs.Semigroup.{is_member};
ghost use Rattle.curve_theory.specs.Curve.{coefficient};
ghost use Rattle.curve_theory.specs.Normal.{weight_coefficient};
ghost use Rattle.curve_theory.specs.Weights.{y_times_monomial, times_y_by_weights};
ghost use Rattle.cab_curve.specs.Relation.{IsRelationOf, HasPowerOfY};

use crate::{Curve, Term};
use gf_field::Field;
use std::alloc::{AllocError, Global};
use weight_semi::Semi;

/// What `y^a` is on a curve, as terms of weight at most `a·b` whose exponents of y are below a.
#[derive(Drop)]
pub struct Relation {
    pub semi: Semi,
    pub terms: Vec<Term>,
    ghost weights: { All (λ t. semi.a * t.i + semi.b * t.j ≤ semi.a * semi.b) terms.items },
}

fn has_exponents(term: &Term, i: u32, j: u32) -> bool
    ensures { result ≡ (nat_eq term.now.i i && nat_eq term.now.j j) }
{
    term.i == i && term.j == j
}

/// The sum of the coefficients of the terms with the exponents i and j.
pub fn coefficient(terms: &[Term], i: u32, j: u32) -> u8
    ensures { result ≡ coefficient terms.now i j }
{
    let mut sum = 0;
    for term in terms {
        if has_exponents(term, i, j) {
            sum ^= term.c;
        }
    }
    sum
}

impl Relation {
    // Adds c·y times the function x^i·y^j to the sums by weight.
    fn add_y_times<F: Field>(&self, f: &F, i: u32, j: u32, c: u8, sums: &mut [u8])
        requires symbol { c < 2 ^ F.bits_of f.now }
        requires symbols { All (λ t. t.c < 2 ^ F.bits_of f.now) self.now.terms.items }
        requires degree { j < self.now.semi.a }
        requires room { self.now.semi.a * i + self.now.semi.b * (j + 1) < length sums.old }
        requires few { length sums.old ≤ 65536 }
        ensures { (w : ℕ) → slice_index sums.new w
            ≡ bit_xor (slice_index sums.old w) (gf_mul (F.bits_of f.now) (F.modulus_of f.now) c
            (weight_coefficient self.now.semi.a self.now.semi.b
            (y_times_monomial (gf_mul (F.bits_of f.now) (F.modulus_of f.now)) self.now.semi.a
            self.now.terms.items i j) w)) }
    {
        let Semi { a, b, .. } = self.semi;
        if j + 1 < a {
            sums[(a * i + b * (j + 1)) as usize] ^= c;
        } else {
            for term in &self.terms {
                sums[(a * (i + term.i) + b * term.j) as usize] ^= f.mul(c, term.c);
            }
        }
    }

    // Adds y times a combination of functions, given by weight, to the sums.
    fn add_y_times_all<F: Field>(&self, f: &F, combination: &[u8], sums: &mut [u8])
        requires symbols { All (λ t. t.c < 2 ^ F.bits_of f.now) self.now.terms.items }
        requires combination { All (λ c. c < 2 ^ F.bits_of f.now) combination.now }
        requires members { (w : ℕ) → is_member self.now.semi.a self.now.semi.b w ≡ false →
            slice_index combination.now w ≡ 0 }
        requires some { 0 < length combination.now }
        requires room { length sums.old ≡ length combination.now + self.now.semi.b }
        requires few { length sums.old ≤ 65536 }
        requires empty { (w : ℕ) → slice_index sums.old w ≡ 0 }
        ensures { (w : ℕ) → slice_index sums.new w
            ≡ times_y_by_weights (gf_mul (F.bits_of f.now) (F.modulus_of f.now))
            self.now.semi.a self.now.semi.b self.now.terms.items
            (length combination.now - 1) (slice_index combination.now) w }
    {
        for weight in 0..combination.len() {
            if let Some((i, j)) = self.semi.exps(weight as u32) {
                self.add_y_times(f, i, j, combination[weight], sums);
            }
        }
    }
}

impl Curve {
    // What y^a is on the curve.
    fn relation<F: Field>(&self, alloc: Global, f: &F) -> Result<Relation, AllocError>
        requires { F.bits_of f.now ≡ self.now.bits }
        ensures { IfOk result (λ r.
            IsRelationOf self.now (F.modulus_of f.now) r.semi.a r.semi.b r.terms.items) }
    {
        let a = self.a();
        let Some(semi) = Semi::new(a, self.b()) else {
            unreachable!()
        };
        let equation = self.terms();
        let unit = f.inv(coefficient(equation, 0, a));
        let mut terms = Vec::new(alloc);
        for term in equation {
            if !has_exponents(term, 0, a) {
                terms.push(Term {
                    c: f.mul(unit, term.c),
                    ..*term
                })?;
            }
        }
        Ok(Relation { semi, terms })
    }

    /// The coefficients of the normal form of `y^j`, by weight up to `b·j`.
    pub fn power_of_y<F: Field>(&self, alloc: Global, f: &F, j: u32) -> Result<Vec<u8>, AllocError>
        requires bits { F.bits_of f.now ≡ self.now.bits }
        requires j { j ≤ 62 }
        ensures { IfOk result (λ v. HasPowerOfY self.now (F.modulus_of f.now) j v.items) }
    {
        let b = self.b() as usize;
        let relation = self.relation(alloc, f)?;
        let mut power = vec![in alloc; 1u8; 1]?;
        for _ in 0..j {
            let mut next = vec![in alloc; 0u8; power.len() + b]?;
            relation.add_y_times_all(f, &power, &mut next);
            power = next;
        }
        Ok(power)
    }
}
