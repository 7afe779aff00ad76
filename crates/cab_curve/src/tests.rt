ghost use Rattle.std.specs.Prelude.{◌≡◌, ℕ, ◌<◌, ◌^◌, length};

use super::*;
use gf_field::PolyField;
use std::alloc::Global;
use std::process::Abort;
use std::test::Fail;

fn term(i: u32, j: u32, c: u8) -> Term {
    Term { i, j, c }
}

fn point(x: u8, y: u8) -> Point
    ensures { (result.x ≡ x) × (result.y ≡ y) }
{
    Point { x, y, z: 0 }
}

fn four(rt: &impl Abort) -> PolyField
    ensures { result.bits ≡ 2 }
{
    PolyField::new(2, 7).expect(rt, "irreducible")
}

fn refusal(alloc: Global, f: &PolyField, a: u32, b: u32, terms: &[Term]) -> Option<CurveFault>
    requires { length terms.now < 2 ^ 32 }
{
    Curve::new(alloc, f, a, b, terms).err()
}

#[test]
fn names_the_first_cause(rt: HostRuntime) {
    let alloc = rt.alloc();
    let f = four(&rt);
    let good = [term(0, 2, 1), term(0, 1, 1), term(3, 0, 1)];
    assert_eq!(rt; refusal(alloc, &f, 2, 3, &good), None);
    assert_eq!(rt;
        refusal(alloc, &f, 4, 6, &good),
        Some(CurveFault::BadDegrees)
    );
    let heavy = [term(1, 2, 1), term(0, 2, 0), term(3, 0, 1)];
    assert_eq!(rt;
        refusal(alloc, &f, 2, 3, &heavy),
        Some(CurveFault::BadTerm { index: 0 })
    );
    let zero = [term(0, 2, 1), term(0, 1, 0), term(9, 9, 9)];
    assert_eq!(rt;
        refusal(alloc, &f, 2, 3, &zero),
        Some(CurveFault::BadTerm { index: 1 })
    );
    let no_symbol = [term(0, 2, 4)];
    assert_eq!(rt;
        refusal(alloc, &f, 2, 3, &no_symbol),
        Some(CurveFault::BadTerm { index: 0 })
    );
    let twice = [term(0, 2, 1), term(3, 0, 1), term(0, 2, 1)];
    assert_eq!(rt;
        refusal(alloc, &f, 2, 3, &twice),
        Some(CurveFault::BadTerm { index: 2 })
    );
    assert_eq!(rt;
        refusal(alloc, &f, 2, 3, &good[..2]),
        Some(CurveFault::MissingLead)
    );
    assert_eq!(rt;
        refusal(alloc, &f, 2, 3, &good[1..]),
        Some(CurveFault::MissingLead)
    );
    assert_eq!(rt;
        refusal(alloc, &f, 2, 3, &[]),
        Some(CurveFault::MissingLead)
    );
    let huge = [term(u32::MAX, u32::MAX, 1)];
    assert_eq!(rt;
        refusal(alloc, &f, 2, 3, &huge),
        Some(CurveFault::BadTerm { index: 0 })
    );
}

#[test]
fn lists_the_points_in_order(rt: HostRuntime) -> Result<(), Fail> {
    let f = four(&rt);
    let points = [
        point(0, 0),
        point(0, 1),
        point(1, 2),
        point(1, 3),
        point(2, 2),
        point(2, 3),
        point(3, 2),
        point(3, 3),
    ];
    // The second equation is twice the first.
    for c in 1..3u8 {
        let terms = [term(0, 2, c), term(0, 1, c), term(3, 0, c)];
        let curve = Curve::new(rt.alloc(), &f, 2, 3, &terms)?;
        assert_eq!(rt;
            curve.all_points(rt.alloc(), &f)?.as_slice(),
            points.as_slice()
        );
        assert_eq!(rt;
            (curve.bits(), curve.a(), curve.b(), curve.terms().len()),
            (2, 2, 3, 3)
        );
    }
    // y² + 2·y = 3·x³
    let terms = [term(0, 2, 1), term(0, 1, 2), term(3, 0, 3)];
    let curve = Curve::new(rt.alloc(), &f, 2, 3, &terms)?;
    let points = [
        point(0, 0),
        point(0, 2),
        point(1, 1),
        point(1, 3),
        point(2, 1),
        point(2, 3),
        point(3, 1),
        point(3, 3),
    ];
    assert_eq!(rt;
        curve.all_points(rt.alloc(), &f)?.as_slice(),
        points.as_slice()
    );
    assert!(rt; curve.holds(&f, &point(0, 2)));
    assert!(rt; !curve.holds(&f, &point(0, 1)));
    assert!(rt; !curve.holds(&f, &point(0, 4)));
    assert!(rt; !curve.holds(&f, &Point { x: 0, y: 0, z: 1 }));
    Ok(())
}

#[test]
fn finds_as_many_points_as_are_known(rt: HostRuntime) -> Result<(), Fail> {
    let cases = [
        (
            4,
            19,
            4,
            5,
            [term(0, 4, 1), term(0, 1, 1), term(5, 0, 1)],
            64,
        ),
        (
            6,
            67,
            8,
            9,
            [term(0, 8, 1), term(0, 1, 1), term(9, 0, 1)],
            512,
        ),
        (
            8,
            283,
            16,
            17,
            [term(0, 16, 1), term(0, 1, 1), term(17, 0, 1)],
            4096,
        ),
    ];
    for (bits, modulus, a, b, terms, count) in cases {
        let f = PolyField::new(bits, modulus).expect(&rt, "irreducible");
        let curve = Curve::new(rt.alloc(), &f, a, b, &terms)?;
        assert_eq!(rt; curve.all_points(rt.alloc(), &f)?.len(), count);
    }
    let f = PolyField::new(3, 11).expect(&rt, "irreducible");
    let terms = [term(0, 4, 1), term(0, 2, 1), term(0, 1, 1), term(7, 0, 1)];
    let curve = Curve::new(rt.alloc(), &f, 4, 7, &terms)?;
    assert_eq!(rt; curve.all_points(rt.alloc(), &f)?.len(), 32);
    Ok(())
}

#[test]
fn takes_powers(rt: HostRuntime) {
    let f = four(&rt);
    assert_eq!(rt; monomial(&f, 1, 1, &point(2, 3)), 1);
    assert_eq!(rt; monomial(&f, 2, 0, &point(2, 3)), 3);
    assert_eq!(rt; monomial(&f, 0, 0, &point(0, 0)), 1);
    assert_eq!(rt; monomial(&f, 5, 0, &point(0, 0)), 0);
    // 65535 and 65533 are 0 and 1 modulo the order 3 of 2 and 3.
    assert_eq!(rt; monomial(&f, 65_535, 65_533, &point(2, 3)), 3);
}
