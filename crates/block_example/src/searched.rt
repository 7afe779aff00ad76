//! The decoder compared with a search through all words, at every error of a weight up to one more than the radius.

ghost use Rattle.std.specs.Prelude.{◌≡◌, ◌≤◌, length};
ghost use Rattle.block_code.specs.Compiled.{numbers_of};

use crate::rig::{decode, made, points};
use block_code::{Bench, Code, Verdict};
use cab_curve::Point;
use eval_basis::CheckRule;
use gf_field::Field;
use search_decoder::near_by_search;
use std::alloc::Global;
use std::thread::Threads;

// How many bytes differ.
fn distance(xs: &[u8], ys: &[u8]) -> u32
    requires { length xs.now ≡ length ys.now }
{
    let mut count: u32 = 0;
    for p in 0..xs.len() {
        count = count.wrapping_add(u32::from(xs[p] != ys[p]));
    }
    count
}

// Whether the search finds a codeword near a block.
fn is_near<F: Field>(code: &Code<F>, got: &[u8], word: &mut [u8]) -> bool
    requires received { length got.now ≡ code.now.basis.n }
    requires positions { length word.old ≡ code.now.basis.n }
{
    let t = code.radius();
    near_by_search(code.basis(), code.checked(), t, got, word)
}

// What the search says of a block, and the codeword near it, or the block itself where there is none.
fn search<F: Field>(code: &Code<F>, got: &[u8], word: &mut [u8]) -> Verdict
    requires received { length got.now ≡ code.now.basis.n }
    requires positions { length word.old ≡ code.now.basis.n }
{
    if !is_near(code, got, word) {
        word.copy_from_slice(got);
        return Verdict::Beyond;
    }
    Verdict::Near {
        changes: distance(got, word),
    }
}

/// Repairs a block, and tells no more of it than the verdict.
pub fn repair<F: Field>(code: &Code<F>, bench: &mut Bench, got: &[u8], word: &mut [u8]) -> Verdict
    requires fits { bench.old.numbers ≡ numbers_of code.now }
    requires received { length got.now ≡ code.now.basis.n }
    requires positions { length word.old ≡ code.now.basis.n }
    ensures { bench.new.numbers ≡ numbers_of code.now }
{
    code.repair_block(bench, got, word)
}

// Whether both ways to decode a block say what the search says, and repairing leaves no ledger.
fn agree<F: Field>(
    code: &Code<F>,
    bench: &mut Bench,
    got: &[u8],
    expected: &mut [u8],
    word: &mut [u8],
) -> bool
    requires fits { bench.old.numbers ≡ numbers_of code.now }
    requires received { length got.now ≡ code.now.basis.n }
    requires expected { length expected.old ≡ code.now.basis.n }
    requires word { length word.old ≡ code.now.basis.n }
    ensures { bench.new.numbers ≡ numbers_of code.now }
{
    let verdict = search(code, got, expected);
    word.copy_from_slice(got);
    if decode(code, bench, got, word) != verdict {
        return false;
    }
    if *word != *expected {
        return false;
    }
    word.copy_from_slice(got);
    if repair(code, bench, got, word) != verdict {
        return false;
    }
    *word == *expected && bench.ledger().is_empty()
}

// How many digits of a number in base 4 are not 0.
fn weight_of(error: u32) -> u32 {
    ((error | error >> 1) & 0x5555_5555).count_ones()
}

// Writes what comes of a word by an error, whose symbols are the digits of a number in base 4.
fn damage(sent: &[u8], error: u32, got: &mut [u8])
    requires { length got.old ≡ length sent.now }
{
    let mut rest = error;
    for p in 0..sent.len() {
        got[p] = sent[p] ^ (rest % 4) as u8;
        rest /= 4;
    }
}

// How many errors up to a weight were tried on a codeword, where decoder and search say the same after each.
fn agreed_up_to<F: Field>(
    code: &Code<F>,
    bench: &mut Bench,
    sent: &[u8],
    weight: u32,
) -> Option<u32>
    requires fits { bench.old.numbers ≡ numbers_of code.now }
    requires long { length sent.now ≡ code.now.basis.n }
    requires short { length sent.now ≤ 8 }
{
    let n = sent.len();
    let mut got = [0; 8];
    let mut expected = [0; 8];
    let mut word = [0; 8];
    let mut count: u32 = 0;
    for error in 0..1u32 << (2 * n) {
        if weight_of(error) <= weight {
            damage(sent, error, &mut got[..n]);
            if !agree(code, bench, &got[..n], &mut expected[..n], &mut word[..n]) {
                return None;
            }
            count = count.wrapping_add(1);
        }
    }
    Some(count)
}

// The same on a bench, for a code of this radius.
fn agreed_on<F: Field>(code: &Code<F>, bench: &mut Bench, sent: &[u8], radius: u32) -> Option<u32>
    requires { bench.old.numbers ≡ numbers_of code.now }
{
    if code.n() as usize != sent.len() {
        return None;
    }
    if sent.len() > 8 {
        return None;
    }
    if code.radius() != radius {
        return None;
    }
    agreed_up_to(code, bench, sent, radius.saturating_add(1))
}

fn agreed_by<F: Field>(alloc: Global, code: &Code<F>, sent: &[u8], radius: u32) -> Option<u32> {
    let mut bench = Bench::new(alloc, code).ok()?;
    agreed_on(code, &mut bench, sent, radius)
}

// How many errors were tried on a codeword of the code at these points, where decoder and search say the same after each.
fn agreed<X: Threads + Sync>(
    rt: &X,
    alloc: Global,
    points: &[Point],
    rule: CheckRule,
    sent: &[u8],
    radius: u32,
) -> Option<u32> {
    let code = made(rt, alloc, points, rule)?;
    agreed_by(alloc, &code, sent, radius)
}

#[test]
fn decodes_as_the_search_does(rt: HostRuntime) {
    let alloc = rt.alloc();
    let points = points();
    // the points, the rule, a codeword, the radius, and how many errors there are
    let rows: [(&[Point], CheckRule, &[u8], u32, u32); 5] = [
        (
            &points,
            CheckRule::AtMost { weight: 5 },
            &[2, 0, 0, 2, 3, 1, 2, 0],
            2,
            1 + 24 + 252 + 1512,
        ),
        (
            &points,
            CheckRule::AtMost { weight: 0 },
            &[2, 0, 0, 0, 0, 0, 0, 2],
            0,
            1 + 24,
        ),
        (
            &points[..5],
            CheckRule::AtMost { weight: 3 },
            &[2, 1, 2, 0, 1],
            1,
            1 + 15 + 90,
        ),
        (
            &points,
            CheckRule::Small { pairs: 3 },
            &[2, 0, 0, 0, 0, 1, 1, 2],
            1,
            1 + 24 + 252,
        ),
        (
            &points,
            CheckRule::Small { pairs: 0 },
            &[1, 2, 3, 0, 0, 1, 2, 3],
            0,
            1 + 24,
        ),
    ];
    for (points, rule, sent, radius, count) in rows {
        assert!(rt; agreed(&rt, alloc, points, rule, sent, radius) == Some(count));
    }
}
