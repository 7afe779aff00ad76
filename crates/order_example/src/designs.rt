//! Designs on bases of small curves, as they were worked by hand.

use crate::rig::{built, on_curve, point, small_points, small_terms, term};
use cab_curve::{CabDomain, Curve};
use code_design::{Designed, Plan, design};
use eval_basis::EvalBasis;
use gf_field::{Field, PolyField};
use order_domain::Point;
use std::alloc::Global;
use std::thread::Threads;

// A wanted number of errors, and what a design gives for it.
type Row = (u32, Designed);

// Whether a design on a basis gives what each row says.
fn are_designed(basis: &EvalBasis<PolyField>, rows: &[Row]) -> bool {
    for (want, gives) in rows {
        if *want >= 1 << 31 {
            return false;
        }
        if design(basis, *want) != *gives {
            return false;
        }
    }
    true
}

// The same of the basis of y² + y = x³ over GF(4) at some of its points.
fn are_designed_at<X: Threads + Sync>(
    rt: &X,
    alloc: Global,
    points: &[Point],
    rows: &[Row],
) -> Option<bool> {
    let basis = on_curve(rt, alloc, small_terms(), points)?;
    Some(are_designed(&basis, rows))
}

// The same of the basis of y⁴ + y = x⁵ over GF(16), at some of its points or at all 64.
fn are_designed_by_quartics<X: Threads + Sync>(
    rt: &X,
    alloc: Global,
    some: Option<&[Point]>,
    rows: &[Row],
) -> Option<bool> {
    let f = PolyField::new(4, 19)?;
    let terms = [term(0, 4, 1), term(0, 1, 1), term(5, 0, 1)];
    let curve = Curve::new(alloc, &f, 4, 5, &terms).ok()?;
    if curve.bits() != 4 {
        return None;
    }
    if f.bits() != 4 {
        return None;
    }
    let all = curve.all_points(alloc, &f).ok()?;
    let dom = CabDomain::new(alloc, curve, 4).ok()?;
    let basis = built(rt, alloc, f, &dom, some.unwrap_or(&all))?;
    Some(are_designed(&basis, rows))
}

// A plan whose weight is the label of its stop, and whose two sets are as large.
fn stopped(label: u32, stop: u32, checks: u32, pairs: u32, bound: u32) -> Designed {
    let plan = Plan {
        order: Some(label),
        order_checks: checks,
        order_bound: bound,
        stop: Some(stop),
        pairs,
        checks,
        bound,
    };
    Designed::Found { plan }
}

#[test]
fn plans_on_the_small_curve(rt: HostRuntime) {
    let unstopped = Plan {
        order: Some(0),
        order_checks: 1,
        order_bound: 2,
        stop: None,
        pairs: 1,
        checks: 0,
        bound: 1,
    };
    let rows = [
        (0, Designed::Found { plan: unstopped }),
        (1, stopped(3, 2, 3, 3, 3)),
        (2, stopped(5, 4, 5, 5, 5)),
        (3, stopped(7, 6, 7, 7, 8)),
        (4, Designed::Nothing { most: 8 }),
        (511, Designed::Nothing { most: 8 }),
        (2_147_483_647, Designed::Nothing { most: 8 }),
    ];
    assert!(rt; are_designed_at(&rt, rt.alloc(), &small_points(), &rows) == Some(true));
}

#[test]
fn plans_on_one_point(rt: HostRuntime) {
    let alone = Plan {
        order: None,
        order_checks: 0,
        order_bound: 0,
        stop: None,
        pairs: 1,
        checks: 0,
        bound: 1,
    };
    let rows = [
        (0, Designed::Found { plan: alone }),
        (1, Designed::Nothing { most: 1 }),
    ];
    assert!(rt; are_designed_at(&rt, rt.alloc(), &small_points()[..1], &rows) == Some(true));
}

// Labels 13 and 14 have six pairs, and label 15 has four.
#[test]
fn checks_fewer_members_by_pairs_than_by_labels(rt: HostRuntime) {
    let two = Plan {
        order: Some(15),
        order_checks: 10,
        order_bound: 5,
        stop: Some(9),
        pairs: 5,
        checks: 8,
        bound: 5,
    };
    let four = Plan {
        order: Some(19),
        order_checks: 14,
        order_bound: 9,
        stop: Some(13),
        pairs: 9,
        checks: 13,
        bound: 9,
    };
    let rows = [
        (1, stopped(5, 2, 3, 3, 3)),
        (2, Designed::Found { plan: two }),
        (3, stopped(16, 10, 11, 7, 8)),
        (4, Designed::Found { plan: four }),
    ];
    assert!(rt; are_designed_by_quartics(&rt, rt.alloc(), None, &rows) == Some(true));
}

// At these points the labels are 0 4 5 8 9 10 13 15, and their pairs 1 2 2 3 4 3 6 4: label 13 has many, and the last few.
#[test]
fn plans_by_pairs_where_no_weight_serves(rt: HostRuntime) {
    let points = [
        point(1, 2),
        point(1, 3),
        point(1, 4),
        point(1, 5),
        point(8, 2),
        point(8, 3),
        point(12, 2),
        point(12, 3),
    ];
    let two = Plan {
        order: None,
        order_checks: 0,
        order_bound: 0,
        stop: Some(7),
        pairs: 5,
        checks: 7,
        bound: 6,
    };
    let rows = [
        (1, stopped(5, 2, 3, 3, 3)),
        (2, Designed::Found { plan: two }),
        (3, Designed::Nothing { most: 6 }),
    ];
    let points = Some(points.as_slice());
    assert!(rt; are_designed_by_quartics(&rt, rt.alloc(), points, &rows) == Some(true));
}
