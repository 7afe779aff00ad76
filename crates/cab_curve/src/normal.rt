//! Normal forms: a monomial as the one combination of functions of a curve that it equals modulo the equation.

ghost use Rattle.std.specs.Prelude.{◌≡◌, ℕ, ◌+◌, ◌<◌, ◌≤◌, ◌^◌, length, IfOk};
ghost use Rattle.cab_curve.specs.NormalForms.{IsNormalList, IsRaised, IsNormalOf};

use crate::Curve;
use gf_field::Field;
use std::alloc::{AllocError, Global};
use std::marker::Model;

/// A coefficient times the function of a weight.
#[derive(Clone, Copy, PartialEq, Eq, Debug)]
pub struct NormTerm {
    pub weight: u32,
    pub c: u8,
}

/// A normal form, seen as the list of its terms: the weights rise, and no coefficient is 0.
#[derive(Drop)]
pub struct Normal {
    terms: Vec<NormTerm>,
}

impl Model for Normal {
    ghost use Rattle.std.specs.Prelude.{List};
    ghost use Rattle.cab_curve.specs.declared.normal.NormTerm.{NormTerm};

    ghost Value = { List NormTerm };

    ghost use Rattle.cab_curve.specs.NormalForms.{IsNormalList};

    ghost view = { λ n. n.terms.items };

    ghost invariant = { λ n. IsNormalList n.terms.items };
}

impl Normal {
    /// The terms, by rising weight.
    pub fn terms(&self) -> &[NormTerm]
        ensures terms { result.now ≡ self.now }
        ensures normal { IsNormalList self.now }
    {
        self.terms.as_slice()
    }
}

// The terms of these coefficients by weight, those that are not 0, with `shift` added to each weight.
fn raised_terms(alloc: Global, shift: u32, coefficients: &[u8]) -> Result<Normal, AllocError>
    requires { shift + length coefficients.now ≤ 65536 }
    ensures normal { IfOk result IsNormalList }
    ensures raised { IfOk result (IsRaised shift coefficients.now) }
{
    let mut terms = Vec::new(alloc);
    for weight in 0..coefficients.len() {
        let c = coefficients[weight];
        if c != 0 {
            terms.push(NormTerm {
                weight: shift + weight as u32,
                c,
            })?;
        }
    }
    Ok(Normal { terms })
}

impl Curve {
    /// The normal form of `x^i·y^j`: the one combination of functions of the curve that it equals modulo the equation.
    pub fn normal<F: Field>(
        &self,
        alloc: Global,
        f: &F,
        i: u32,
        j: u32,
    ) -> Result<Normal, AllocError>
        requires bits { F.bits_of f.now ≡ self.now.bits }
        requires i { i ≤ 1023 }
        requires j { j ≤ 62 }
        ensures { IfOk result (IsNormalOf self.now (F.modulus_of f.now) i j) }
    {
        let power = self.power_of_y(alloc, f, j)?;
        raised_terms(alloc, self.a() * i, &power)
    }
}

#[cfg(test)]
mod tests {
    use super::*;
    use crate::Term;
    use gf_field::PolyField;

    fn term(i: u32, j: u32, c: u8) -> Term {
        Term { i, j, c }
    }

    // The pairs (weight, coefficient) of the normal form of x^i·y^j.
    fn normal_pairs<F: Field>(
        alloc: Global,
        f: &F,
        a: u32,
        b: u32,
        equation: &[Term],
        i: u32,
        j: u32,
    ) -> Option<Vec<(u32, u8)>>
        requires few { length equation.now < 2 ^ 32 }
        requires i { i ≤ 1023 }
        requires j { j ≤ 62 }
    {
        let curve = Curve::new(alloc, f, a, b, equation).ok()?;
        let normal = curve.normal(alloc, f, i, j).ok()?;
        normal
            .terms()
            .iter()
            .map(|t| (t.weight, t.c))
            .collect(alloc)
            .ok()
    }

    #[test]
    fn reduces_powers_of_y(rt: HostRuntime) {
        let alloc = rt.alloc();
        let f = PolyField::new(2, 7).expect(&rt, "irreducible");
        let cubic = [term(0, 2, 1), term(0, 1, 1), term(3, 0, 1)];
        let scaled = [term(0, 2, 2), term(0, 1, 1), term(3, 0, 1)];
        let with_constant = [term(0, 2, 1), term(0, 1, 1), term(3, 0, 1), term(0, 0, 2)];
        let cases = [
            (&cubic[..], 0, 2, &[(3, 1), (6, 1)][..]),
            (&cubic[..], 0, 3, &[(3, 1), (6, 1), (9, 1)][..]),
            (&cubic[..], 2, 3, &[(7, 1), (10, 1), (13, 1)][..]),
            (&cubic[..], 3, 1, &[(9, 1)][..]),
            (&cubic[..], 0, 0, &[(0, 1)][..]),
            (&scaled[..], 0, 2, &[(3, 3), (6, 3)][..]),
            (&with_constant[..], 0, 2, &[(0, 2), (3, 1), (6, 1)][..]),
        ];
        for (equation, i, j, expected) in cases {
            let pairs = normal_pairs(alloc, &f, 2, 3, equation, i, j).expect(
                &rt,
                "a curve, and memory",
            );
            assert_eq!(rt; pairs.as_slice(), expected);
        }
    }

    #[test]
    fn states_the_relation_of_larger_curves(rt: HostRuntime) {
        let alloc = rt.alloc();
        let f = PolyField::new(4, 19).expect(&rt, "irreducible");
        let relation = normal_pairs(
            alloc,
            &f,
            4,
            5,
            &[term(0, 4, 1), term(0, 1, 1), term(5, 0, 1)],
            0,
            4,
        );
        assert_eq!(rt;
            relation.expect(&rt, "memory").as_slice(),
            &[(5, 1), (20, 1)][..]
        );
        let f = PolyField::new(6, 67).expect(&rt, "irreducible");
        let relation = normal_pairs(
            alloc,
            &f,
            8,
            9,
            &[term(0, 8, 1), term(0, 1, 1), term(9, 0, 1)],
            0,
            8,
        );
        assert_eq!(rt;
            relation.expect(&rt, "memory").as_slice(),
            &[(9, 1), (72, 1)][..]
        );
        let f = PolyField::new(3, 11).expect(&rt, "irreducible");
        let relation = normal_pairs(
            alloc,
            &f,
            4,
            7,
            &[term(0, 4, 1), term(0, 2, 1), term(0, 1, 1), term(7, 0, 1)],
            0,
            4,
        );
        assert_eq!(rt;
            relation.expect(&rt, "memory").as_slice(),
            &[(7, 1), (14, 1), (28, 1)][..]
        );
    }
}
