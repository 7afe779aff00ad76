//! What a generic caller has of a domain: each function below is proved for every domain, by one of its laws.

ghost use Rattle.std.specs.Prelude.{ℕ, ◌≡◌, ◌<◌, ◌≤◌, IsTrue, IfSome, bit_xor, length};
ghost use Rattle.gf_theory.specs.Field.{gf_mul};
ghost use Rattle.order_domain.specs.Domain.{combined};

use super::{MOST_POINTS, OrderDomain, Point, Points};
use gf_field::{Field, PolyField};
use std::alloc::Global;

// by `neutral`
fn sum_with_first<D: OrderDomain>(d: &D, i: u32) -> Option<u32>
    requires { i < (D.domain d.now).count }
    ensures { result ≡ Some i }
{
    d.bits();
    d.sum(0, i)
}

// by `labels_rise`
fn later_label_is_greater<D: OrderDomain>(d: &D, i: u32, j: u32) -> bool
    requires order { i < j }
    requires index { j < (D.domain d.now).count }
    ensures { IsTrue result }
{
    d.bits();
    d.label(i) < d.label(j)
}

// by `sums_rise`
fn sum_is_symmetric<D: OrderDomain>(d: &D, i: u32, j: u32) -> bool
    requires left { i < (D.domain d.now).count }
    requires right { j < (D.domain d.now).count }
    ensures { IsTrue result }
{
    d.bits();
    d.sum(i, j) == d.sum(j, i)
}

// by `product_law`
fn leading_part<F: Field, D: OrderDomain>(f: &F, d: &D, i: u32, j: u32, p: &Point) -> Option<u8>
    requires bits { F.bits_of f.now ≡ (D.domain d.now).bits }
    requires left { i < (D.domain d.now).count }
    requires right { j < (D.domain d.now).count }
    requires on { IsTrue ((D.domain d.now).on (F.modulus_of f.now) p.now) }
    ensures { IfSome result (λ v. (s : ℕ) × (
        gf_mul (F.bits_of f.now) (F.modulus_of f.now)
        ((D.domain d.now).eval (F.modulus_of f.now) i p.now)
        ((D.domain d.now).eval (F.modulus_of f.now) j p.now)
        ≡ bit_xor v (combined (D.domain d.now) (F.modulus_of f.now) s
        ((D.domain d.now).product_coefficient (F.modulus_of f.now) i j) p.now))) }
{
    f.bits();
    d.bits();
    let s = d.sum(i, j)?;
    let lead = d.lead(f, i, j);
    let value = d.eval(f, s, p);
    Some(f.mul(lead, value))
}

// The functions 1, x, x² and x³ on the points of a line over GF(4): a domain with no curve in it.
#[derive(Drop)]
struct Line {}

impl OrderDomain for Line {
    ghost use Rattle.order_domain.specs.Line.{line};
    ghost use Rattle.order_domain.specs.LineLaws.{line-lawful};

    ghost domain = { λ _. line };

    ghost lawful = { λ _. line-lawful };

    fn bits(&self) -> u32 {
        2
    }

    fn count(&self) -> u32 {
        4
    }

    fn label(&self, i: u32) -> u32 {
        i
    }

    fn eval<F: Field>(&self, f: &F, i: u32, p: &Point) -> u8 {
        f.bits();
        let mut value = 1;
        for _ in 0..i {
            value = f.mul(p.x, value);
        }
        value
    }

    fn sum(&self, i: u32, j: u32) -> Option<u32> {
        if i + j < 4 { Some(i + j) } else { None }
    }

    fn lead<F: Field>(&self, f: &F, _i: u32, _j: u32) -> u8 {
        f.bits();
        1
    }

    fn on<F: Field>(&self, _f: &F, p: &Point) -> bool {
        p.x < 4 && p.y == 0 && p.z == 0
    }
}

#[test]
fn computes_on_a_line(rt: HostRuntime) {
    let f = PolyField::new(2, 7).expect(&rt, "irreducible");
    let line = Line {};
    let two = Point { x: 2, y: 0, z: 0 };
    assert!(rt; line.on(&f, &two));
    assert!(rt; !line.on(&f, &Point { x: 2, y: 1, z: 0 }));
    assert_eq!(rt; line.count(), 4);
    assert_eq!(rt; line.label(3), 3);
    assert!(rt; later_label_is_greater(&line, 0, 2));
    assert!(rt; sum_is_symmetric(&line, 1, 3));
    assert_eq!(rt; line.eval(&f, 2, &two), 3);
    assert_eq!(rt; sum_with_first(&line, 3), Some(3));
    assert_eq!(rt; leading_part(&f, &line, 1, 2, &two), Some(1));
    assert_eq!(rt; leading_part(&f, &line, 2, 2, &two), None);
}

// A list of these points on the line, and what is told of it: its length, whether it has (2, 0) and whether all are on the
// line; None where a point would be there twice.
fn told_of(alloc: Global, f: &PolyField, xs: &[u8]) -> Option<(usize, bool, bool)>
    requires few { length xs.now ≤ 8 }
    requires bits { f.now.bits ≡ 2 }
{
    let mut points = Points::new(alloc);
    for x in xs {
        let point = Point { x: *x, y: 0, z: 0 };
        if points.contains(&point) || points.len() >= MOST_POINTS {
            return None;
        }
        points.push(point).ok()?;
    }
    let two = Point { x: 2, y: 0, z: 0 };
    Some((
        points.len(),
        points.contains(&two),
        points.are_on(f, &Line {}),
    ))
}

#[test]
fn keeps_points_apart(rt: HostRuntime) {
    let alloc = rt.alloc();
    let f = PolyField::new(2, 7).expect(&rt, "irreducible");
    assert!(rt; Points::new(alloc).is_empty());
    assert_eq!(rt; told_of(alloc, &f, &[0, 2]), Some((2, true, true)));
    assert_eq!(rt; told_of(alloc, &f, &[3, 4]), Some((2, false, false)));
    assert_eq!(rt; told_of(alloc, &f, &[1, 2, 1]), None);
    let twice = vec![in alloc; Point { x: 1, y: 0, z: 0 }; 2].expect(&rt, "memory");
    assert!(rt; Points::of(twice).is_none());
    let once = vec![in alloc; Point { x: 1, y: 0, z: 0 }; 1].expect(&rt, "memory");
    let points = Points::of(once).expect(&rt, "one point");
    assert_eq!(rt; points.as_slice().len(), 1);
}
