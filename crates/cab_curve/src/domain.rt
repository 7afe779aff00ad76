//! The order domain of a curve.

ghost use Rattle.std.specs.Prelude.{◌≡◌, ℕ, ◌<◌, ◌^◌, IfOk};
ghost use Rattle.curve_theory.specs.Curve.{coefficient};
ghost use Rattle.cab_curve.specs.Equation.{IsCurve};
ghost use Rattle.curve_theory.specs.Semigroup.{function_count};
ghost use Rattle.cab_curve.specs.Functions.{IsFunctionRow, IsFunctionTable};
ghost use Rattle.cab_curve.specs.Domain.{top_of, cab_domain};

use crate::functions::{Function, FunctionTable, functions_up_to};
use crate::monomials::monomial;
use crate::relation::coefficient;
use crate::{Curve, Point};
use gf_field::Field;
use order_domain::OrderDomain;
use std::alloc::{AllocError, Global};
use weight_semi::Semi;

/// The functions of a curve as an order domain: `f_w` for each member w of the semigroup up to the top weight, with w as its
/// label. All calls but [`CabDomain::new`] answer from its tables.
#[derive(Drop)]
pub struct CabDomain {
    /// The curve, whose functions they are.
    pub curve: Curve,
    functions: FunctionTable,
    // the coefficients of x^b and of y^a
    x_lead: u8,
    y_lead: u8,
    ghost is_curve: { IsCurve curve },
    ghost tables: { IsFunctionTable curve.a curve.b (top_of curve)
        functions.rows.items functions.places.items },
    ghost x_lead_is: { x_lead ≡ coefficient curve.terms curve.b 0 },
    ghost y_lead_is: { y_lead ≡ coefficient curve.terms 0 curve.a },
}

impl CabDomain {
    /// The domain of the curve, whose symbols have `bits` bits.
    pub fn new(alloc: Global, curve: Curve, bits: u32) -> Result<CabDomain, AllocError>
        requires { curve.bits ≡ bits }
        ensures domain { IfOk result (λ d.
            ⟦<CabDomain as OrderDomain>⟧.domain d ≡ cab_domain curve) }
        ensures curve { IfOk result (λ d. d.curve ≡ curve) }
    {
        let a = curve.a();
        let b = curve.b();
        let Some(semi) = Semi::new(a, b) else {
            unreachable!()
        };
        let top = a * ((1 << bits) - 1) + b * (a - 1);
        let functions = functions_up_to(alloc, &semi, top)?;
        let x_lead = coefficient(curve.terms(), b, 0);
        let y_lead = coefficient(curve.terms(), 0, a);
        Ok(CabDomain {
            curve,
            functions,
            x_lead,
            y_lead,
        })
    }

    // Function i.
    fn row(&self, i: u32) -> Function
        requires { i < function_count self.now.curve.a self.now.curve.b (top_of self.now.curve) }
        ensures row { let c = self.now.curve in
            IsFunctionRow c.a c.b (top_of c) i result }
        ensures top { top_of self.now.curve < 10000 }
    {
        self.functions.rows[i as usize]
    }
}

impl OrderDomain for CabDomain {
    ghost use Rattle.cab_curve.specs.DomainLaws.{cab_domain-lawful};

    ghost domain = { λ d. cab_domain d.curve };

    ghost lawful = { λ d. cab_domain-lawful d.curve d.is_curve.equation };

    fn bits(&self) -> u32 {
        self.curve.bits()
    }

    fn count(&self) -> u32 {
        self.functions.rows.len() as u32
    }

    fn label(&self, i: u32) -> u32 {
        self.row(i).weight
    }

    fn eval<F: Field>(&self, f: &F, i: u32, p: &Point) -> u8 {
        let Function { i, j, .. } = self.row(i);
        monomial(f, i, j, p)
    }

    fn sum(&self, i: u32, j: u32) -> Option<u32> {
        let weight = self.row(i).weight + self.row(j).weight;
        self.functions.places.get(weight as usize).copied()
    }

    fn lead<F: Field>(&self, f: &F, i: u32, j: u32) -> u8 {
        let degree = self.row(i).j + self.row(j).j;
        if degree < self.curve.a() {
            1
        } else {
            f.mul(self.x_lead, f.inv(self.y_lead))
        }
    }

    fn on<F: Field>(&self, f: &F, p: &Point) -> bool {
        self.curve.holds(f, p)
    }
}

#[cfg(test)]
mod tests {
    use super::*;
    use crate::Term;
    use gf_field::PolyField;

    // y^2 + y = x^3
    const CUBIC: [Term; 3] = [
        Term { i: 0, j: 2, c: 1 },
        Term { i: 0, j: 1, c: 1 },
        Term { i: 3, j: 0, c: 1 },
    ];

    // 2·y^2 + y = x^3
    const SCALED: [Term; 3] = [
        Term { i: 0, j: 2, c: 2 },
        Term { i: 0, j: 1, c: 1 },
        Term { i: 3, j: 0, c: 1 },
    ];

    // The label of each function, and its values at those of the points that are on the domain.
    fn evaluations<F: Field, D: OrderDomain>(
        alloc: Global,
        f: &F,
        d: &D,
        points: &[Point],
    ) -> Result<Vec<(u32, Vec<u8>)>, AllocError>
        requires { F.bits_of f.now ≡ (D.domain d.now).bits }
    {
        let mut rows = Vec::new(alloc);
        for i in 0..d.count() {
            let mut row = Vec::new(alloc);
            for p in points {
                if d.on(f, p) {
                    row.push(d.eval(f, i, p))?;
                }
            }
            rows.push((d.label(i), row))?;
        }
        Ok(rows)
    }

    // The lead of the square of each function, and the index of that square; (0, count) where the domain does not list it.
    fn squares<F: Field, D: OrderDomain>(
        alloc: Global,
        f: &F,
        d: &D,
    ) -> Result<Vec<(u8, u32)>, AllocError>
        requires { F.bits_of f.now ≡ (D.domain d.now).bits }
    {
        let mut squares = Vec::new(alloc);
        for i in 0..d.count() {
            match d.sum(i, i) {
                Some(s) => squares.push((d.lead(f, i, i), s))?,
                None => squares.push((0, d.count()))?,
            }
        }
        Ok(squares)
    }

    #[test]
    fn evaluates_the_functions_of_a_cubic(rt: HostRuntime) {
        let alloc = rt.alloc();
        let f = PolyField::new(2, 7).expect(&rt, "irreducible");
        let curve = Curve::new(alloc, &f, 2, 3, &CUBIC).expect(&rt, "a curve");
        let points = curve.all_points(alloc, &f).expect(&rt, "memory");
        let domain = CabDomain::new(alloc, curve, 2).expect(&rt, "memory");
        let expected: [(u32, [u8; 8]); 9] = [
            (0, [1, 1, 1, 1, 1, 1, 1, 1]),
            (2, [0, 0, 1, 1, 2, 2, 3, 3]),
            (3, [0, 1, 2, 3, 2, 3, 2, 3]),
            (4, [0, 0, 1, 1, 3, 3, 2, 2]),
            (5, [0, 0, 2, 3, 3, 1, 1, 2]),
            (6, [0, 0, 1, 1, 1, 1, 1, 1]),
            (7, [0, 0, 2, 3, 1, 2, 3, 1]),
            (8, [0, 0, 1, 1, 2, 2, 3, 3]),
            (9, [0, 0, 2, 3, 2, 3, 2, 3]),
        ];
        let rows = evaluations(alloc, &f, &domain, &points).expect(&rt, "memory");
        assert_eq!(rt; rows.len(), expected.len());
        for ((label, values), (expected_label, expected_values)) in rows
            .iter()
            .zip(expected.iter())
        {
            assert_eq!(rt; label, expected_label);
            assert_eq!(rt; values.as_slice(), &expected_values[..]);
        }
        // the functions 1, x and y have squares of weight 0, 4 and 6, and so on up to x^2
        let expected = [
            (1, 0),
            (1, 3),
            (1, 5),
            (1, 7),
            (0, 9),
            (0, 9),
            (0, 9),
            (0, 9),
            (0, 9),
        ];
        assert_eq!(rt;
            squares(alloc, &f, &domain).expect(&rt, "memory").as_slice(),
            &expected[..]
        );
    }

    // On this curve y^2 is 3·x^3 + 3·y, since 2·3 is 1.
    #[test]
    fn leads_by_the_coefficients_of_the_equation(rt: HostRuntime) {
        let alloc = rt.alloc();
        let f = PolyField::new(2, 7).expect(&rt, "irreducible");
        let curve = Curve::new(alloc, &f, 2, 3, &SCALED).expect(&rt, "a curve");
        let domain = CabDomain::new(alloc, curve, 2).expect(&rt, "memory");
        let expected = [
            (1, 0),
            (1, 3),
            (3, 5),
            (1, 7),
            (0, 9),
            (0, 9),
            (0, 9),
            (0, 9),
            (0, 9),
        ];
        assert_eq!(rt;
            squares(alloc, &f, &domain).expect(&rt, "memory").as_slice(),
            &expected[..]
        );
    }
}
