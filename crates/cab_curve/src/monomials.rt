//! Monomials at a point.

ghost use Rattle.std.specs.Prelude.{◌≡◌, ℕ, ◌<◌, ◌^◌};
ghost use Rattle.gf_theory.specs.Field.{gf_mul};
ghost use Rattle.curve_theory.specs.Curve.{monomial};

use crate::Point;
use field_power::power;
use gf_field::Field;

/// The value of `x^i·y^j` at p, whose coordinates are symbols.
pub fn monomial<F: Field>(f: &F, i: u32, j: u32, p: &Point) -> u8
    requires x { p.now.x < 2 ^ F.bits_of f.now }
    requires y { p.now.y < 2 ^ F.bits_of f.now }
    ensures value { result
        ≡ monomial (gf_mul (F.bits_of f.now) (F.modulus_of f.now)) i j p.now.x p.now.y }
    ensures symbol { result < 2 ^ F.bits_of f.now }
{
    f.mul(power(f, p.x, i), power(f, p.y, j))
}
