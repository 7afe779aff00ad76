//! Small spaces, beside lists that are written out.

ghost use Rattle.std.specs.Prelude.{◌≡◌, ℕ, ◌<◌};

use crate::{AffineDomain, Point};
use gf_field::{Field, PolyField};
use order_domain::OrderDomain;
use std::alloc::{AllocError, Global};

// The values of each function at a point, where it is on the domain.
fn values<F: Field, D: OrderDomain>(
    alloc: Global,
    f: &F,
    d: &D,
    p: &Point,
) -> Result<Vec<u8>, AllocError>
    requires { F.bits_of f.now ≡ (D.domain d.now).bits }
{
    let mut values = Vec::new(alloc);
    if d.on(f, p) {
        for i in 0..d.count() {
            values.push(d.eval(f, i, p))?;
        }
    }
    Ok(values)
}

// The sum of function i and each function, the number of functions where there is none, and the leads of the sums.
fn sums<F: Field, D: OrderDomain>(
    alloc: Global,
    f: &F,
    d: &D,
    i: u32,
) -> Result<Vec<(u32, u8)>, AllocError>
    requires { F.bits_of f.now ≡ (D.domain d.now).bits }
{
    let mut sums = Vec::new(alloc);
    if i >= d.count() {
        return Ok(sums);
    }
    for j in 0..d.count() {
        match d.sum(i, j) {
            Some(s) => sums.push((s, d.lead(f, i, j)))?,
            None => sums.push((d.count(), 0))?,
        }
    }
    Ok(sums)
}

// The exponents of the monomials of a space.
fn exponents(alloc: Global, d: &AffineDomain) -> Result<Vec<(u32, u32, u32)>, AllocError> {
    let mut exponents = Vec::new(alloc);
    for i in 0..d.count() {
        exponents.push(d.exps(i))?;
    }
    Ok(exponents)
}

// The exponents of the monomial at an index, where there is one.
fn exponents_at(d: &AffineDomain, i: u32) -> Option<(u32, u32, u32)> {
    if i < d.count() { Some(d.exps(i)) } else { None }
}

// Whether the index of each monomial is that where it stands.
fn has_indices(d: &AffineDomain, exponents: &[(u32, u32, u32)]) -> bool {
    exponents.iter().enumerate().all(|(i, (x, y, z))| d.index(*x, *y, *z) == u32::try_from(i).ok())
}

#[test]
fn lists_the_monomials_of_a_plane(rt: HostRuntime) {
    let alloc = rt.alloc();
    let d = AffineDomain::new(2, 2).expect(&rt, "a space");
    let expected = [
        (0, 0, 0),
        (1, 0, 0),
        (0, 1, 0),
        (2, 0, 0),
        (1, 1, 0),
        (0, 2, 0),
        (3, 0, 0),
        (2, 1, 0),
        (1, 2, 0),
        (0, 3, 0),
        (4, 0, 0),
        (3, 1, 0),
        (2, 2, 0),
        (1, 3, 0),
        (0, 4, 0),
        (5, 0, 0),
        (4, 1, 0),
        (3, 2, 0),
        (2, 3, 0),
        (1, 4, 0),
        (0, 5, 0),
        (6, 0, 0),
        (5, 1, 0),
        (4, 2, 0),
        (3, 3, 0),
        (2, 4, 0),
        (1, 5, 0),
        (0, 6, 0),
    ];
    let listed = exponents(alloc, &d).expect(&rt, "memory");
    assert_eq!(rt; listed.as_slice(), &expected[..]);
    assert!(rt; has_indices(&d, &expected[..]));
    assert_eq!(rt; exponents_at(&d, 24), Some((3, 3, 0)));
    assert_eq!(rt; exponents_at(&d, 28), None);
    assert_eq!(rt; d.index(1, 1, 0), Some(4));
    assert_eq!(rt; d.index(4, 3, 0), None);
    assert_eq!(rt; d.index(1, 1, 1), None);
    assert_eq!(rt; d.index(u32::MAX, 1, 0), None);
}

#[test]
fn lists_the_monomials_of_three_variables(rt: HostRuntime) {
    let d = AffineDomain::new(2, 3).expect(&rt, "a space");
    let first = [
        (0, 0, 0),
        (1, 0, 0),
        (0, 1, 0),
        (0, 0, 1),
        (2, 0, 0),
        (1, 1, 0),
        (1, 0, 1),
        (0, 2, 0),
        (0, 1, 1),
        (0, 0, 2),
        (3, 0, 0),
        (2, 1, 0),
        (2, 0, 1),
        (1, 2, 0),
        (1, 1, 1),
        (1, 0, 2),
        (0, 3, 0),
    ];
    assert!(rt; has_indices(&d, &first[..]));
    assert_eq!(rt; d.vars(), 3);
    assert_eq!(rt; d.count(), 220);
    assert_eq!(rt; d.index(0, 0, 9), Some(219));
}

// Whether the index of the exponents of each monomial is its own.
fn are_inverse(d: &AffineDomain) -> bool {
    for i in 0..d.count() {
        let (x, y, z) = d.exps(i);
        if d.index(x, y, z) != Some(i) {
            return false;
        }
    }
    true
}

#[test]
fn index_and_exponents_are_inverse_on_the_largest_space(rt: HostRuntime) {
    let d = AffineDomain::new(5, 3).expect(&rt, "a space");
    assert_eq!(rt; d.count(), 142_880);
    assert!(rt; are_inverse(&d));
    // 95·94·93 / 6 monomials have a degree below 93, and 63·62 / 2 of degree 93 have y + z below 62
    assert_eq!(rt; d.index(93, 0, 0), Some(138_415));
    assert_eq!(rt; d.index(31, 31, 31), Some(140_399));
    assert_eq!(rt; d.index(0, 0, 94), None);
    assert_eq!(rt; exponents_at(&d, 138_414), Some((0, 0, 92)));
    assert_eq!(rt; exponents_at(&d, 142_879), Some((0, 0, 93)));
}

#[test]
fn knows_the_spaces(rt: HostRuntime) {
    assert!(rt; AffineDomain::new(1, 1).is_none());
    assert!(rt; AffineDomain::new(9, 1).is_none());
    assert!(rt; AffineDomain::new(2, 0).is_none());
    assert!(rt; AffineDomain::new(2, 4).is_none());
    assert!(rt; AffineDomain::new(6, 3).is_none());
    assert_eq!(rt; AffineDomain::new(8, 1).expect(&rt, "a space").count(), 256);
    assert_eq!(rt;
        AffineDomain::new(8, 2).expect(&rt, "a space").count(),
        130_816
    );
}

#[test]
fn is_an_order_domain(rt: HostRuntime) {
    let alloc = rt.alloc();
    let f = PolyField::new(2, 7).expect(&rt, "irreducible");
    let line = AffineDomain::new(2, 1).expect(&rt, "a space");
    let at_two = values(alloc, &f, &line, &Point { x: 2, y: 0, z: 0 }).expect(&rt, "memory");
    assert_eq!(rt; at_two.as_slice(), &[1, 2, 3, 1][..]);
    let outside = values(alloc, &f, &line, &Point { x: 2, y: 1, z: 0 }).expect(&rt, "memory");
    assert!(rt; outside.as_slice().is_empty());
    let of_x = sums(alloc, &f, &line, 1).expect(&rt, "memory");
    assert_eq!(rt; of_x.as_slice(), &[(1, 1), (2, 1), (3, 1), (4, 0)][..]);
}

#[test]
fn lists_the_points(rt: HostRuntime) {
    let alloc = rt.alloc();
    let f = PolyField::new(2, 7).expect(&rt, "irreducible");
    let line = AffineDomain::new(2, 1).expect(&rt, "a space");
    let expected = [
        Point { x: 0, y: 0, z: 0 },
        Point { x: 1, y: 0, z: 0 },
        Point { x: 2, y: 0, z: 0 },
        Point { x: 3, y: 0, z: 0 },
    ];
    let points = line.all_points(alloc, &f).expect(&rt, "memory");
    assert_eq!(rt; points.as_slice(), &expected[..]);
}
