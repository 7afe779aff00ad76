//! Errors with a structure on codes of 64 and of 512 symbols: bursts, points of lines, grids, steps, zeros of functions, and one
//! that misleads a guess by a single function. Each comes with one change less than the radius, with as many, and with one more,
//! all on one bench. Repairing, which guesses first, and the vote alone say the same.

ghost use Rattle.std.specs.Prelude.{◌≡◌, ◌<◌, ◌≤◌, length};
ghost use Rattle.block_code.specs.Compiled.{numbers_of};

use crate::rig::{decode, large, middle};
use crate::searched::repair;
use block_code::{Bench, Code, Verdict};
use gf_field::Field;
use std::alloc::Global;
use std::thread::Threads;

// From a position on blocks of so many in a row, each so far after the one before, all changed by one value: the first
// position, the width, the step, the value. Where the points of a line x = c stand side by side, as those of these curves do,
// blocks are lines or parts of lines, and so grids.
type Shape = (u16, u16, u16, u8);

// Places that are changed, one after the other, and the value of each.
#[derive(Clone, Copy)]
struct Changes<'a> {
    places: &'a [u16],
    values: &'a [u8],
}

// On 64 positions, four points a line: bursts, lines, grids, steps.
const SHAPES: [Shape; 17] = [
    (0, 64, 0, 1),
    (7, 64, 0, 9),
    (40, 64, 0, 6),
    (52, 64, 0, 3),
    (63, 64, 0, 15),
    (0, 4, 8, 1),
    (4, 4, 20, 7),
    (0, 2, 4, 1),
    (1, 3, 8, 5),
    (2, 2, 12, 11),
    (0, 1, 4, 5),
    (1, 1, 5, 15),
    (2, 1, 3, 7),
    (0, 1, 6, 2),
    (9, 1, 7, 1),
    (4, 1, 9, 12),
    (21, 1, 21, 4),
];

// On 512 positions, eight points a line.
const LONG_SHAPES: [Shape; 5] = [
    (37, 512, 0, 21),
    (0, 8, 40, 1),
    (3, 4, 16, 9),
    (1, 1, 5, 1),
    (6, 2, 8, 44),
];

// Zeros of (y + 2) (y + x) (y + 2x + 2) on the curve y^4 + y = x^5 over GF(16).
const ZEROS: [u16; 11] = [4, 32, 40, 48, 60, 0, 37, 45, 55, 58, 20];

// On the curve y^8 + y = x^9 over GF(64): the places are the points of nine lines x = c and of three lines y = ax + b, and one
// more, Q. On the lines the functions of weight at most 153 have one dependency; the values are its coefficients, each divided by
// the value of a function of weight at most 102 that is 0 at Q and nowhere on the lines. So this function passes for one that
// vanishes at all changed places, and it does so at Q alone.
const MISLEADING_PLACES: [u16; 100] = [
    8, 24, 25, 26, 27, 28, 29, 30, 31, 32, 33, 34, 35, 36, 37, 38, 39, 47, 53, 67, 72, 73, 74, 75,
    76, 77, 78, 79, 103, 104, 123, 138, 200, 201, 202, 203, 204, 205, 206, 207, 208, 250, 252, 265,
    272, 273, 274, 275, 276, 277, 278, 279, 284, 295, 306, 309, 317, 328, 329, 330, 331, 332, 333,
    334, 335, 345, 357, 361, 367, 400, 407, 414, 416, 417, 418, 419, 420, 421, 422, 423, 426, 440,
    472, 480, 481, 482, 483, 484, 485, 486, 487, 498, 504, 505, 506, 507, 508, 509, 510, 511,
];

const MISLEADING_VALUES: [u8; 100] = [
    11, 50, 51, 2, 24, 42, 36, 62, 20, 45, 8, 40, 20, 39, 61, 62, 2, 14, 17, 42, 39, 25, 35, 15,
    40, 36, 37, 5, 25, 50, 7, 36, 26, 31, 41, 12, 47, 32, 49, 38, 10, 31, 56, 11, 28, 48, 24, 38,
    7, 10, 52, 14, 39, 8, 28, 61, 30, 33, 62, 51, 50, 57, 50, 9, 36, 1, 45, 59, 8, 40, 7, 6, 48,
    33, 62, 63, 9, 45, 31, 1, 58, 35, 59, 58, 34, 8, 15, 28, 12, 37, 7, 47, 4, 10, 35, 36, 40, 10,
    19, 8,
];

// Writes where a shape changes a word of n symbols.
fn write_places(shape: Shape, n: u16, places: &mut [u16]) {
    let (from, width, step, _) = shape;
    if n == 0 {
        return;
    }
    if width == 0 {
        return;
    }
    for q in 0..places.len() {
        let (block, place) = (q / usize::from(width), q % usize::from(width));
        let p = usize::from(from).wrapping_add(block.wrapping_mul(usize::from(step)));
        places[q] = (p.wrapping_add(place) % usize::from(n)) as u16;
    }
}

// Writes the first changes of a list, so many.
fn write_error(places: &[u16], values: &[u8], changes: u32, got: &mut [u8])
    requires { length places.now ≡ length values.now }
{
    got.fill(0);
    for q in 0..places.len().min(changes as usize) {
        let p = usize::from(places[q]);
        if p < got.len() {
            got[p] = values[q];
        }
    }
}

// Whether both ways to decode a block say the same, and that it has so many changes where these are at most t.
fn agree<F: Field>(
    code: &Code<F>,
    bench: &mut Bench,
    changes: u32,
    got: &[u8],
    voted: &mut [u8],
    word: &mut [u8],
) -> bool
    requires fits { bench.old.numbers ≡ numbers_of code.now }
    requires received { length got.now ≡ code.now.basis.n }
    requires voted { length voted.old ≡ code.now.basis.n }
    requires word { length word.old ≡ code.now.basis.n }
    ensures { bench.new.numbers ≡ numbers_of code.now }
{
    let verdict = decode(code, bench, got, voted);
    if changes <= code.radius() && verdict != (Verdict::Near { changes }) {
        return false;
    }
    if repair(code, bench, got, word) != verdict {
        return false;
    }
    *word == *voted
}

// Whether they do at the first t - 1, t and t + 1 changes of a list.
fn agree_at<F: Field>(
    code: &Code<F>,
    bench: &mut Bench,
    places: &[u16],
    values: &[u8],
    got: &mut [u8],
    voted: &mut [u8],
    word: &mut [u8],
) -> bool
    requires list { length places.now ≡ length values.now }
    requires fits { bench.old.numbers ≡ numbers_of code.now }
    requires received { length got.old ≡ code.now.basis.n }
    requires voted { length voted.old ≡ code.now.basis.n }
    requires word { length word.old ≡ code.now.basis.n }
    ensures fits { bench.new.numbers ≡ numbers_of code.now }
    ensures received { length got.new ≡ length got.old }
    ensures voted { length voted.new ≡ length voted.old }
    ensures word { length word.new ≡ length word.old }
{
    let fewest = code.radius().saturating_sub(1);
    for more in 0..3u32 {
        let changes = fewest.wrapping_add(more);
        write_error(places, values, changes, got);
        if !agree(code, bench, changes, got, voted, word) {
            return false;
        }
    }
    true
}

// At how many of these shapes they do, one after the other, where they do at all.
fn agreed_shapes<F: Field>(
    alloc: Global,
    code: &Code<F>,
    bench: &mut Bench,
    shapes: &[Shape],
    got: &mut [u8],
    voted: &mut [u8],
    word: &mut [u8],
) -> Option<usize>
    requires fits { bench.old.numbers ≡ numbers_of code.now }
    requires received { length got.old ≡ code.now.basis.n }
    requires voted { length voted.old ≡ code.now.basis.n }
    requires word { length word.old ≡ code.now.basis.n }
    ensures fits { bench.new.numbers ≡ numbers_of code.now }
    ensures received { length got.new ≡ length got.old }
    ensures voted { length voted.new ≡ length voted.old }
    ensures word { length word.new ≡ length word.old }
{
    let most = (code.radius() as usize).saturating_add(1);
    let n = code.n() as u16;
    let mut places = vec![in alloc; 0u16; most].ok()?;
    let mut values = vec![in alloc; 0u8; most].ok()?;
    for shape in shapes {
        write_places(*shape, n, &mut places);
        let (_, _, _, value) = *shape;
        values.fill(value);
        if !agree_at(code, bench, &places, &values, got, voted, word) {
            return None;
        }
    }
    Some(shapes.len())
}

// The same, and then at a list of places and values.
fn agreed_then<F: Field>(
    alloc: Global,
    code: &Code<F>,
    bench: &mut Bench,
    shapes: &[Shape],
    list: Changes,
    got: &mut [u8],
    voted: &mut [u8],
    word: &mut [u8],
) -> Option<usize>
    requires fits { bench.old.numbers ≡ numbers_of code.now }
    requires received { length got.old ≡ code.now.basis.n }
    requires voted { length voted.old ≡ code.now.basis.n }
    requires word { length word.old ≡ code.now.basis.n }
{
    let count = agreed_shapes(alloc, code, bench, shapes, got, voted, word)?;
    if list.places.len() != list.values.len() {
        return None;
    }
    if !agree_at(code, bench, list.places, list.values, got, voted, word) {
        return None;
    }
    Some(count)
}

// The same in new rooms.
fn agreed_on<F: Field>(
    alloc: Global,
    code: &Code<F>,
    bench: &mut Bench,
    shapes: &[Shape],
    list: Changes,
) -> Option<usize>
    requires { bench.old.numbers ≡ numbers_of code.now }
{
    let n = code.n() as usize;
    let mut got = vec![in alloc; 0u8; n].ok()?;
    let mut voted = vec![in alloc; 0u8; n].ok()?;
    let mut word = vec![in alloc; 0u8; n].ok()?;
    agreed_then(
        alloc, code, bench, shapes, list, &mut got, &mut voted, &mut word,
    )
}

// The same on a new bench.
fn agreed<F: Field>(
    alloc: Global,
    code: &Code<F>,
    shapes: &[Shape],
    list: Changes,
) -> Option<usize> {
    let mut bench = Bench::new(alloc, code).ok()?;
    agreed_on(alloc, code, &mut bench, shapes, list)
}

#[test]
fn repairs_as_the_vote_does(rt: HostRuntime) {
    let alloc = rt.alloc();
    let code = middle(&rt, alloc, 1).expect(&rt, "a code");
    assert!(rt; code.radius() == 10);
    let found = agreed(
        alloc,
        &code,
        &SHAPES,
        Changes {
            places: &ZEROS,
            values: &[7; 11],
        },
    );
    assert!(rt; found == Some(17));
}

// 6 is a cube root of 1, so that this curve has 64 points as well; a product of two functions may have a factor other than 1.
#[test]
fn repairs_as_the_vote_does_on_a_scaled_curve(rt: HostRuntime) {
    let alloc = rt.alloc();
    let code = middle(&rt, alloc, 6).expect(&rt, "a code");
    assert!(rt; code.radius() == 10);
    let found = agreed(
        alloc,
        &code,
        &SHAPES,
        Changes {
            places: &ZEROS,
            values: &[1; 11],
        },
    );
    assert!(rt; found == Some(17));
}

#[test]
fn repairs_as_the_vote_does_on_a_long_code(rt: HostRuntime) {
    let alloc = rt.alloc();
    let code = large(&rt, alloc).expect(&rt, "a code");
    assert!(rt; code.radius() == 100);
    let found = agreed(
        alloc,
        &code,
        &LONG_SHAPES,
        Changes {
            places: &MISLEADING_PLACES,
            values: &MISLEADING_VALUES,
        },
    );
    assert!(rt; found == Some(5));
}
