//! Errors with a structure beside the plain voter, on a code of 32 symbols over GF(8) that corrects three: bursts, points of
//! lines, and steps, of one value or of rising ones, of one to four symbols. Random errors hardly make wrong votes; some of
//! these do.

ghost use Rattle.std.specs.Prelude.{◌≡◌, ◌≤◌, length, IfOk};

use crate::rig::{built, term};
use crate::voters::{SmallCode, both_say, code_of};
use cab_curve::{CabDomain, Curve};
use eval_basis::EvalBasis;
use gf_field::PolyField;
use std::alloc::{AllocError, Global};
use std::thread::Threads;

// A symbol at every `step` of the positions from one on: 1 more than `value`, and the next one greater by `rise`, where 1
// follows 7. Four positions in a row are the points of one line x = c where the first is a multiple of four.
#[derive(Clone, Copy)]
struct Shape {
    from: u8,
    step: u8,
    value: u8,
    rise: u8,
}

// The basis of the curve y⁴ + y² + y = x⁷ over GF(8) at all its points.
fn curve_basis<X: Threads + Sync>(rt: &X, alloc: Global) -> Option<EvalBasis<PolyField>> {
    let f = PolyField::new(3, 11)?;
    let terms = [term(0, 4, 1), term(0, 2, 1), term(0, 1, 1), term(7, 0, 1)];
    let curve = Curve::new(alloc, &f, 4, 7, &terms).ok()?;
    if curve.bits() != 3 {
        return None;
    }
    let points = curve.all_points(alloc, &f).ok()?;
    let dom = CabDomain::new(alloc, curve, 3).ok()?;
    built(rt, alloc, f, &dom, &points)
}

// A code of it, which corrects three symbols.
fn curve_code<X: Threads + Sync>(rt: &X, alloc: Global) -> Option<SmallCode> {
    code_of(alloc, curve_basis(rt, alloc)?, 23, 3)
}

// Adds an error of so many symbols.
fn add_shape(shape: Shape, count: u8, got: &mut [u8])
    requires some { 1 ≤ length got.old }
    ensures { length got.new ≡ length got.old }
{
    for j in 0..count {
        let p = (usize::from(shape.from) + usize::from(shape.step) * usize::from(j)) % got.len();
        let value = u32::from(shape.value) + u32::from(shape.rise) * u32::from(j);
        got[p] ^= (value % 7 + 1) as u8;
    }
}

// A codeword with such an error.
fn received(alloc: Global, code: &SmallCode, shape: Shape, count: u8) -> Result<Vec<u8>, AllocError>
    ensures { IfOk result (λ v. length v.items ≡ code.now.basis.n) }
{
    // For its facts: there is a member.
    code.basis.n();
    let mut got = code.basis.dual(code.free).to_vec(alloc)?;
    add_shape(shape, count, &mut got);
    Ok(got)
}

// How many lines of the ledger of such an error have wrong votes, where both voters say the same of it, and find an error where
// they must.
fn wrong_lines(alloc: Global, code: &SmallCode, shape: Shape, count: u8) -> Option<usize> {
    let got = received(alloc, code, shape, count).ok()?;
    let says = both_say(alloc, code, &got).ok()??;
    if count <= 3 && says.weight() != count as usize {
        return None;
    }
    Some(says.wrong_lines())
}

// Bursts on one line and across two, steps along and across the lines.
const SHAPES: [Shape; 10] = [
    Shape {
        from: 0,
        step: 1,
        value: 0,
        rise: 0,
    },
    Shape {
        from: 0,
        step: 1,
        value: 0,
        rise: 1,
    },
    Shape {
        from: 6,
        step: 1,
        value: 4,
        rise: 0,
    },
    Shape {
        from: 28,
        step: 1,
        value: 2,
        rise: 2,
    },
    Shape {
        from: 0,
        step: 4,
        value: 0,
        rise: 0,
    },
    Shape {
        from: 3,
        step: 4,
        value: 5,
        rise: 1,
    },
    Shape {
        from: 1,
        step: 5,
        value: 6,
        rise: 0,
    },
    Shape {
        from: 2,
        step: 3,
        value: 1,
        rise: 0,
    },
    Shape {
        from: 9,
        step: 8,
        value: 3,
        rise: 0,
    },
    Shape {
        from: 12,
        step: 1,
        value: 1,
        rise: 3,
    },
];

// The lines with wrong votes of all shapes of so many symbols, where both voters say the same of each.
fn all_wrong_lines(alloc: Global, code: &SmallCode, count: u8) -> Option<usize> {
    let mut lines: usize = 0;
    for shape in SHAPES {
        lines = lines.checked_add(wrong_lines(alloc, code, shape, count)?)?;
    }
    Some(lines)
}

#[test]
fn agrees_with_the_plain_voter_on_structured_errors(rt: HostRuntime) {
    let alloc = rt.alloc();
    let code = curve_code(&rt, alloc).expect(&rt, "a code");
    for count in 1..5u8 {
        assert!(rt; all_wrong_lines(alloc, &code, count).is_some());
    }
}

#[test]
fn meets_wrong_votes_of_structured_errors(rt: HostRuntime) {
    let alloc = rt.alloc();
    let code = curve_code(&rt, alloc).expect(&rt, "a code");
    assert!(rt; all_wrong_lines(alloc, &code, 3).unwrap_or(0) > 0);
}
