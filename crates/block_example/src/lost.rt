//! What is filled in at lost positions: worked words, and all sets of lost positions beside a search through all codewords.

ghost use Rattle.std.specs.Prelude.{◌≡◌, ◌<◌, ◌≤◌, ◌^◌, ◌↔◌, All, IsTrue, length};

use crate::rig::{made, points};
use block_code::{BlockCode, Code};
use cab_curve::Point;
use erase_code::{FillSays, fill_lost};
use eval_basis::CheckRule;
use gf_field::Field;
use std::alloc::Global;
use std::thread::Threads;

// A word, which positions are lost, the answer, and what is left in the place of nines.
type Row = ([u8; 8], [bool; 8], FillSays, [u8; 8]);

// Fills, and tells no more than the answer.
fn fill<F: Field>(
    alloc: Global,
    code: &Code<F>,
    word: &[u8],
    lost: &[bool],
    out: &mut [u8],
) -> Option<FillSays>
    requires received { length word.now ≡ code.now.basis.n }
    requires marks { length lost.now ≡ code.now.basis.n }
    requires room { length out.old ≡ code.now.basis.n }
{
    fill_lost(alloc, code, word, lost, out).ok()
}

// Whether the first n positions of a row are answered as it says, for a code of n positions.
fn is_met<F: Field>(alloc: Global, code: &Code<F>, row: &Row) -> bool {
    let n = code.n() as usize;
    if n > 8 {
        return false;
    }
    let mut out = [9; 8];
    let says = fill(alloc, code, &row.0[..n], &row.1[..n], &mut out[..n]);
    says == Some(row.2) && out == row.3
}

fn are_met_by<F: Field>(alloc: Global, code: &Code<F>, rows: &[Row]) -> bool {
    for row in rows {
        if !is_met(alloc, code, row) {
            return false;
        }
    }
    true
}

// Whether the code at these points answers as the rows say.
fn are_met<X: Threads + Sync>(
    rt: &X,
    alloc: Global,
    points: &[Point],
    rule: CheckRule,
    rows: &[Row],
) -> Option<bool> {
    let code = made(rt, alloc, points, rule)?;
    Some(are_met_by(alloc, &code, rows))
}

// The positions of a set, whose first is the highest of eight bits.
fn marks(bits: u8) -> [bool; 8] {
    let mut lost = [false; 8];
    for p in 0..8 {
        lost[p] = bits >> (7 - p) & 1 == 1;
    }
    lost
}

// ---- the search

// The codeword of a message of three symbols, for a code of eight.
fn codeword<C: BlockCode>(code: &C, msg: &[u8; 3]) -> Option<[u8; 8]>
    requires { All (λ s. s < 2 ^ 2) msg.now }
{
    if code.n() != 8 {
        return None;
    }
    if code.k() != 3 {
        return None;
    }
    if code.bits() != 2 {
        return None;
    }
    let mut word = [0; 8];
    code.encode_block(msg, &mut word);
    Some(word)
}

// All codewords.
fn codewords<C: BlockCode>(alloc: Global, code: &C) -> Option<Vec<[u8; 8]>> {
    let mut words = Vec::new(alloc);
    for m in 0..64u8 {
        words
            .push(codeword(code, &[m / 16, m / 4 % 4, m % 4])?)
            .ok()?;
    }
    Some(words)
}

// Whether a word has the bytes of another at each position that is kept.
fn fits(x: &[u8; 8], word: &[u8; 8], lost: &[bool; 8]) -> bool {
    for p in 0..8 {
        if !lost[p] && x[p] != word[p] {
            return false;
        }
    }
    true
}

// The first position at which two words differ, or 8.
fn difference(x: &[u8; 8], z: &[u8; 8]) -> u32 {
    for p in 0..8u32 {
        if x[p as usize] != z[p as usize] {
            return p;
        }
    }
    8
}

// What a search says, and what it leaves in the place of nines.
fn search(words: &[[u8; 8]], word: &[u8; 8], lost: &[bool; 8]) -> (FillSays, [u8; 8]) {
    let mut found = 0u32;
    let mut first = [9; 8];
    let mut place = 8;
    for x in words {
        if fits(x, word, lost) {
            if found == 0 {
                first = *x;
            }
            place = place.min(difference(&first, x));
            found = found.saturating_add(1);
        }
    }
    match found {
        0 => (FillSays::NoCodeword, [9; 8]),
        1 => (
            FillSays::Filled {
                count: lost.iter().filter(|m| **m).count() as u32,
            },
            first,
        ),
        _ => (FillSays::Ambiguous { place }, [9; 8]),
    }
}

// How many sets of lost positions of a word are answered as the search says.
fn answered<F: Field>(alloc: Global, code: &Code<F>, words: &[[u8; 8]], word: &[u8; 8]) -> u32 {
    let mut count: u32 = 0;
    for bits in 0..=255u8 {
        let lost = marks(bits);
        let (says, left) = search(words, word, &lost);
        let met = is_met(alloc, code, &(*word, lost, says, left));
        count = count.saturating_add(u32::from(met));
    }
    count
}

// The same, for the code at all points where labels up to 5 are checked.
fn answered_as_searched<X: Threads + Sync>(rt: &X, alloc: Global, word: &[u8; 8]) -> Option<u32> {
    let code = made(rt, alloc, &points(), CheckRule::AtMost { weight: 5 })?;
    let words = codewords(alloc, &code)?;
    Some(answered(alloc, &code, &words, word))
}

#[test]
fn answers_each_set_as_the_search_does(rt: HostRuntime) {
    // two codewords, and a word that differs from every codeword at three positions or more
    for word in [
        [2, 0, 0, 2, 3, 1, 2, 0],
        [0, 0, 1, 1, 2, 2, 3, 3],
        [1, 1, 1, 0, 0, 0, 0, 0],
    ] {
        assert!(rt; answered_as_searched(&rt, rt.alloc(), &word) == Some(256));
    }
}

#[test]
fn fills_lost_symbols(rt: HostRuntime) {
    let sent = [2, 0, 0, 2, 3, 1, 2, 0];
    let far = [1, 1, 1, 0, 0, 0, 0, 0];
    let rows = [
        (
            [0, 0, 0, 0, 3, 1, 2, 0],
            marks(0b1111_0000),
            FillSays::Filled { count: 4 },
            sent,
        ),
        // what stands at a lost position does not count
        (
            [0xff, 9, 0, 2, 3, 1, 2, 7],
            marks(0b1100_0001),
            FillSays::Filled { count: 3 },
            sent,
        ),
        (sent, marks(0), FillSays::Filled { count: 0 }, sent),
        // the places of a codeword of least weight, 1 0 0 1 2 3 1 0
        (
            [0; 8],
            marks(0b1001_1110),
            FillSays::Ambiguous { place: 0 },
            [9; 8],
        ),
        // those of the codeword 0 0 1 1 2 2 3 3
        (
            [0; 8],
            marks(0b0011_1111),
            FillSays::Ambiguous { place: 2 },
            [9; 8],
        ),
        (far, marks(0), FillSays::NoCodeword, [9; 8]),
        // right in its low bits, but no symbol
        (
            [6, 0, 0, 2, 3, 1, 2, 0],
            marks(0b0100_0000),
            FillSays::NoCodeword,
            [9; 8],
        ),
    ];
    let rule = CheckRule::AtMost { weight: 5 };
    assert!(rt; are_met(&rt, rt.alloc(), &points(), rule, &rows) == Some(true));
}

// The only check is that the sum of all symbols is 0.
#[test]
fn fills_by_one_check(rt: HostRuntime) {
    let rows = [
        (
            [1, 2, 9, 0, 0, 0, 0, 1],
            marks(0b0010_0000),
            FillSays::Filled { count: 1 },
            [1, 2, 2, 0, 0, 0, 0, 1],
        ),
        (
            [1, 2, 9, 0, 9, 0, 0, 1],
            marks(0b0010_1000),
            FillSays::Ambiguous { place: 2 },
            [9; 8],
        ),
        (
            [1, 2, 0, 0, 0, 0, 0, 1],
            marks(0),
            FillSays::NoCodeword,
            [9; 8],
        ),
    ];
    let rule = CheckRule::AtMost { weight: 0 };
    assert!(rt; are_met(&rt, rt.alloc(), &points(), rule, &rows) == Some(true));
}

#[test]
fn fills_nothing_without_a_check(rt: HostRuntime) {
    let word = [1, 2, 3, 0, 0, 1, 2, 3];
    let rows = [
        (word, marks(0), FillSays::Filled { count: 0 }, word),
        (
            word,
            marks(0b0000_0101),
            FillSays::Ambiguous { place: 5 },
            [9; 8],
        ),
    ];
    let rule = CheckRule::Small { pairs: 0 };
    assert!(rt; are_met(&rt, rt.alloc(), &points(), rule, &rows) == Some(true));
    let alone = [
        (
            [3, 9, 9, 9, 9, 9, 9, 9],
            marks(0),
            FillSays::Filled { count: 0 },
            [3, 9, 9, 9, 9, 9, 9, 9],
        ),
        (
            [0; 8],
            marks(0b1000_0000),
            FillSays::Ambiguous { place: 0 },
            [9; 8],
        ),
    ];
    assert!(rt; are_met(&rt, rt.alloc(), &points()[..1], rule, &alone) == Some(true));
}
