//! The points of a curve.

ghost use Rattle.std.specs.Prelude.{◌≡◌, ℕ, ◌<◌, ◌≤◌, ◌^◌, ◌++◌, ◌↔◌, All, filter, IsTrue, IfOk, OnOk};
ghost use Rattle.gf_theory.specs.Field.{gf_mul};
ghost use Rattle.curve_theory.specs.Curve.{value, IsOnCurve};
ghost use Rattle.cab_curve.specs.Points.{is_on_curve, points_of_row, curve_points};

use crate::monomials::monomial;
use crate::{Curve, Point, Term};
use gf_field::Field;
use std::alloc::{AllocError, Global};

// The value of the terms at p.
fn value_at<F: Field>(f: &F, terms: &[Term], p: &Point) -> u8
    requires symbols { All (λ t. t.c < 2 ^ F.bits_of f.now) terms.now }
    requires x { p.now.x < 2 ^ F.bits_of f.now }
    requires y { p.now.y < 2 ^ F.bits_of f.now }
    ensures { result
        ≡ value (gf_mul (F.bits_of f.now) (F.modulus_of f.now)) terms.now p.now.x p.now.y }
{
    let mut sum = 0;
    for term in terms {
        sum ^= f.mul(term.c, monomial(f, term.i, term.j, p));
    }
    sum
}

impl Curve {
    /// Whether p is on the curve: its x and y are symbols, its z is 0, and the equation has the value 0 there.
    #[tactic(auto, using(std::proofs::lemmas::Bool::Decides::nat_tests), unfolding(crate::specs::Points::is_on_curve))]
    pub fn holds<F: Field>(&self, f: &F, p: &Point) -> bool
        requires { F.bits_of f.now ≡ self.now.bits }
        ensures test { result
            ≡ is_on_curve (F.bits_of f.now) (F.modulus_of f.now) self.now.terms p.now }
        ensures on_curve { IsTrue result
            ↔ (p.now.z ≡ 0) × IsOnCurve (2 ^ F.bits_of f.now)
            (gf_mul (F.bits_of f.now) (F.modulus_of f.now)) self.now.terms p.now.x p.now.y }
    {
        let size = 1u32 << f.bits();
        let are_symbols = u32::from(p.x) < size && u32::from(p.y) < size;
        are_symbols && p.z == 0 && value_at(f, self.terms(), p) == 0
    }

    // Adds the points of the curve with this x, by rising y.
    fn push_row<F: Field>(&self, f: &F, x: u8, points: &mut Vec<Point>) -> Result<(), AllocError>
        requires { F.bits_of f.now ≡ self.now.bits }
        ensures { OnOk result (points.new.items
            ≡ points.old.items
            ++ filter (is_on_curve (F.bits_of f.now) (F.modulus_of f.now) self.now.terms)
            (points_of_row (2 ^ F.bits_of f.now) x)) }
    {
        for y in 0..1u32 << f.bits() {
            let point = Point {
                x,
                y: y as u8,
                z: 0,
            };
            if self.holds(f, &point) {
                points.push(point)?;
            }
        }
        Ok(())
    }

    /// All points of the curve, by rising x, then rising y.
    pub fn all_points<F: Field>(&self, alloc: Global, f: &F) -> Result<Vec<Point>, AllocError>
        requires { F.bits_of f.now ≡ self.now.bits }
        ensures { IfOk result (λ points. points.items
            ≡ curve_points (F.bits_of f.now) (F.modulus_of f.now) self.now.terms) }
    {
        let mut points = Vec::new(alloc);
        for x in 0..1u32 << f.bits() {
            self.push_row(f, x as u8, &mut points)?;
        }
        Ok(points)
    }
}
