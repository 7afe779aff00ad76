//! The voter beside the plain voter, on codes of the small curve.

ghost use Rattle.std.specs.Prelude.{◌≡◌, ◌+◌, ◌*◌, ◌<◌, length, IsTrue, IfOk, IfSome, false};
ghost use Rattle.order_theory.specs.Codes.{marked, IsBound};
ghost use Rattle.vote_core.specs.Voters.{Fits};

use crate::rig::{on_curve, small_points, small_terms};
use eval_basis::{CheckRule, Checked, EvalBasis};
use gf_field::PolyField;
use plain_voter::{PlainFind, PlainLine, find_plainly};
use std::alloc::{AllocError, Global};
use std::thread::Threads;
use vote_core::{Found, VoteLine, Voter};

// A code, and a number of changes that it corrects.
#[derive(Drop)]
pub struct SmallCode {
    pub basis: EvalBasis<PolyField>,
    pub checked: Checked,
    // a member that is not checked
    pub free: u32,
    pub t: u32,
    ghost marks: { length checked ≡ basis.n },
    ghost inside: { free < basis.n },
    ghost is_free: { marked checked free ≡ false },
    ghost radius: { IsBound basis checked (2 * t + 1) },
}

// A member that is not checked.
fn free_member(basis: &EvalBasis<PolyField>, checked: &Checked) -> Option<u32>
    requires { length checked.now ≡ basis.now.n }
    ensures inside { IfSome result (λ k. k < basis.now.n) }
    ensures free { IfSome result (λ k. marked checked.now k ≡ false) }
{
    for k in 0..basis.n() {
        if !checked.holds(k) {
            return Some(k);
        }
    }
    None
}

// Whether each member that is not checked has more than 2t pairs.
fn corrects(basis: &EvalBasis<PolyField>, checked: &Checked, t: u32) -> bool
    requires marks { length checked.now ≡ basis.now.n }
    requires small { t < 1000 }
    ensures { IsTrue result → IsBound basis.now checked.now (2 * t + 1) }
{
    for k in 0..basis.n() {
        if !checked.holds(k) {
            if basis.pairs(k) <= 2 * t {
                return false;
            }
        }
    }
    true
}

// A member that is not checked, where these are the parts of a code that corrects t changes.
fn free_in_code(basis: &EvalBasis<PolyField>, checked: &Checked, t: u32) -> Option<u32>
    requires { length checked.now ≡ basis.now.n }
    ensures inside { IfSome result (λ free. free < basis.now.n) }
    ensures is_free { IfSome result (λ free. marked checked.now free ≡ false) }
    ensures radius { IfSome result (λ free. IsBound basis.now checked.now (2 * t + 1)) }
{
    if t >= 1000 {
        return None;
    }
    if !corrects(basis, checked, t) {
        return None;
    }
    free_member(basis, checked)
}

/// Some of the points of the small curve, the greatest label that is checked, and the radius.
#[derive(Clone, Copy)]
pub struct Kind {
    points: u32,
    weight: u32,
    t: u32,
}

/// The code of eight points that corrects two changes.
pub const STRONG: Kind = Kind {
    points: 8,
    weight: 5,
    t: 2,
};

/// The code at the first five points, which corrects one change.
pub const SHORT: Kind = Kind {
    points: 5,
    weight: 3,
    t: 1,
};

/// The code that is checked by one sum alone, and corrects nothing.
pub const WEAK: Kind = Kind {
    points: 8,
    weight: 0,
    t: 0,
};

// The basis of the small curve at the first of its points.
fn small_basis<X: Threads + Sync>(
    rt: &X,
    alloc: Global,
    count: u32,
) -> Option<EvalBasis<PolyField>> {
    let points = small_points();
    on_curve(rt, alloc, small_terms(), points.get(..count as usize)?)
}

/// The code of a basis that checks labels up to a weight, where it corrects t changes.
pub fn code_of(
    alloc: Global,
    basis: EvalBasis<PolyField>,
    weight: u32,
    t: u32,
) -> Option<SmallCode> {
    let checked = Checked::new(alloc, &basis, CheckRule::AtMost { weight }).ok()?;
    let free = free_in_code(&basis, &checked, t)?;
    Some(SmallCode {
        basis,
        checked,
        free,
        t,
    })
}

/// The code of a kind.
pub fn small_code<X: Threads + Sync>(rt: &X, alloc: Global, kind: Kind) -> Option<SmallCode> {
    code_of(
        alloc,
        small_basis(rt, alloc, kind.points)?,
        kind.weight,
        kind.t,
    )
}

/// What a voter says of a word: whether there is an error, which, and for each line of the votes its label, its pairs, and
/// the right and the wrong candidates.
#[derive(Drop)]
pub struct Says {
    is_found: bool,
    err: Vec<u8>,
    lines: Vec<[u32; 4]>,
}

impl Says {
    /// Whether there is an error that leads a word to this one.
    pub fn leads_to(&self, got: &[u8], word: &[u8]) -> bool {
        let mut pairs = self.err.iter().zip(got).zip(word);
        self.is_found && self.err.len() == word.len() && pairs.all(|((e, x), y)| e ^ x == *y)
    }

    /// Whether there is none, and no line of a vote.
    pub fn is_far(&self) -> bool {
        !self.is_found && self.lines.is_empty()
    }

    /// How many symbols the error has.
    pub fn weight(&self) -> usize {
        self.err.iter().filter(|x| **x != 0).count()
    }

    /// How many lines have a wrong candidate.
    pub fn wrong_lines(&self) -> usize {
        self.lines.iter().filter(|line| line[3] > 0).count()
    }
}

// Whether the voter finds an error, which it writes.
fn finds(code: &SmallCode, voter: &mut Voter, got: &[u8], err: &mut [u8]) -> bool
    requires fits { Fits voter.old code.now.basis }
    requires got { length got.now ≡ code.now.basis.n }
    requires err { length err.old ≡ code.now.basis.n }
{
    voter.find(&code.basis, got, err) == Found::Error
}

// The votes as plain numbers.
fn lines_of(alloc: Global, ledger: &[VoteLine]) -> Result<Vec<[u32; 4]>, AllocError> {
    let mut lines = Vec::new(alloc);
    for line in ledger {
        lines.push([line.label, line.pairs, line.right, line.wrong])?;
    }
    Ok(lines)
}

fn plain_lines_of(alloc: Global, ledger: &[PlainLine]) -> Result<Vec<[u32; 4]>, AllocError> {
    let mut lines = Vec::new(alloc);
    for line in ledger {
        lines.push([line.label, line.pairs, line.right, line.wrong])?;
    }
    Ok(lines)
}

fn told_by(
    alloc: Global,
    code: &SmallCode,
    voter: &mut Voter,
    got: &[u8],
    mut err: Vec<u8>,
) -> Result<Says, AllocError>
    requires fits { Fits voter.old code.now.basis }
    requires got { length got.now ≡ code.now.basis.n }
    requires err { length err.items ≡ code.now.basis.n }
{
    let is_found = finds(code, voter, got, &mut err);
    Ok(Says {
        is_found,
        err,
        lines: lines_of(alloc, voter.ledger())?,
    })
}

/// What the voter says of a word.
pub fn voter_says(alloc: Global, code: &SmallCode, got: &[u8]) -> Result<Says, AllocError>
    requires { length got.now ≡ code.now.basis.n }
{
    let err = vec![in alloc; 0; got.len()]?;
    let mut voter = Voter::new(alloc, &code.basis, &code.checked, code.t)?;
    told_by(alloc, code, &mut voter, got, err)
}

// Seeks an error plainly, and tells no more of it than what was found.
fn found_plainly(
    alloc: Global,
    code: &SmallCode,
    got: &[u8],
) -> Result<Option<PlainFind>, AllocError>
    requires { length got.now ≡ code.now.basis.n }
{
    find_plainly(alloc, &code.basis, &code.checked, code.t, got)
}

fn plain_voter_says(alloc: Global, code: &SmallCode, got: &[u8]) -> Result<Says, AllocError>
    requires { length got.now ≡ code.now.basis.n }
{
    match found_plainly(alloc, code, got)? {
        Some(find) => Ok(Says {
            is_found: true,
            lines: plain_lines_of(alloc, &find.lines)?,
            err: find.err,
        }),
        None => Ok(Says {
            is_found: false,
            err: vec![in alloc; 0; got.len()]?,
            lines: Vec::new(alloc),
        }),
    }
}

/// What both voters say of a word, where they say the same.
pub fn both_say(alloc: Global, code: &SmallCode, got: &[u8]) -> Result<Option<Says>, AllocError>
    requires { length got.now ≡ code.now.basis.n }
{
    let fast = voter_says(alloc, code, got)?;
    let plain = plain_voter_says(alloc, code, got)?;
    let is_same = fast.is_found == plain.is_found
        && fast.err.as_slice() == plain.err.as_slice()
        && fast.lines.as_slice() == plain.lines.as_slice();
    Ok(is_same.then_some(fast))
}

// The word with its symbols at two places changed by the low and the high half of a number below 16.
fn changed(
    alloc: Global,
    word: &[u8],
    p: usize,
    q: usize,
    change: u8,
) -> Result<Vec<u8>, AllocError>
    requires first { p < length word.now }
    requires second { q < length word.now }
    ensures { IfOk result (λ v. length v.items ≡ length word.now) }
{
    let mut got = word.to_vec(alloc)?;
    got[p] ^= change % 4;
    got[q] ^= change / 4;
    Ok(got)
}

// Whether both voters say the same of each word that differs from this one at two places at most.
fn agree_around(alloc: Global, code: &SmallCode, word: &[u8]) -> Result<bool, AllocError>
    requires { length word.now ≡ code.now.basis.n }
{
    for p in 1..word.len() {
        for q in 0..p {
            for change in 0..16u8 {
                let got = changed(alloc, word, p, q, change)?;
                if both_say(alloc, code, &got)?.is_none() {
                    return Ok(false);
                }
            }
        }
    }
    Ok(true)
}

// Whether both voters agree around a word, where it is as long as those of the code.
fn agree_at(alloc: Global, code: &SmallCode, word: &[u8]) -> Option<bool> {
    if word.len() != code.basis.n() as usize {
        return None;
    }
    agree_around(alloc, code, word).ok()
}

// The same of a word of a kind of code.
fn agree<X: Threads + Sync>(rt: &X, alloc: Global, kind: Kind, word: &[u8]) -> Option<bool> {
    let code = small_code(rt, alloc, kind)?;
    agree_at(alloc, &code, word)
}

#[test]
fn agrees_with_the_plain_voter(rt: HostRuntime) {
    // a codeword of each kind
    let rows: [(Kind, &[u8]); 3] = [
        (STRONG, &[2, 0, 0, 2, 3, 1, 2, 0]),
        (SHORT, &[0, 1, 0, 3, 2]),
        (WEAK, &[1, 2, 3, 0, 0, 0, 0, 0]),
    ];
    for (kind, word) in rows {
        assert!(rt; agree(&rt, rt.alloc(), kind, word) == Some(true));
    }
}

// An error, and the lines of the votes.
type Find<'a> = (&'a [u8], &'a [[u32; 4]]);

fn is_told(says: &Says, find: Option<Find>) -> bool {
    match find {
        Some((err, lines)) => {
            says.is_found && says.err.as_slice() == err && says.lines.as_slice() == lines
        }
        None => !says.is_found,
    }
}

// Whether both voters find this in a word, where it is as long as those of the code.
fn both_find(
    alloc: Global,
    code: &SmallCode,
    got: &[u8],
    find: Option<Find>,
) -> Result<bool, AllocError> {
    if got.len() != code.basis.n() as usize {
        return Ok(false);
    }
    match both_say(alloc, code, got)? {
        Some(says) => Ok(is_told(&says, find)),
        None => Ok(false),
    }
}

// The same of a word of a kind of code.
fn find<X: Threads + Sync>(
    rt: &X,
    alloc: Global,
    kind: Kind,
    got: &[u8],
    find: Option<Find>,
) -> Option<bool> {
    let code = small_code(rt, alloc, kind)?;
    both_find(alloc, &code, got, find).ok()
}

#[test]
fn finds_two_changes_in_spite_of_a_wrong_vote(rt: HostRuntime) {
    let got = [2, 0, 1, 0, 3, 1, 2, 0];
    let err = [0, 0, 1, 2, 0, 0, 0, 0];
    let lines = [[6, 5, 2, 1], [7, 6, 2, 0], [9, 8, 4, 0]];
    assert!(rt; find(&rt, rt.alloc(), STRONG, &got, Some((&err, &lines))) == Some(true));
}

#[test]
fn finds_one_change_at_five_points(rt: HostRuntime) {
    let got = [0, 1, 2, 3, 2];
    let err = [0, 0, 2, 0, 0];
    let lines = [[4, 3, 1, 0], [5, 4, 2, 0]];
    assert!(rt; find(&rt, rt.alloc(), SHORT, &got, Some((&err, &lines))) == Some(true));
}

#[test]
fn finds_no_error_where_nothing_is_corrected(rt: HostRuntime) {
    let alloc = rt.alloc();
    let lines = [
        [2, 2, 2, 0],
        [3, 2, 2, 0],
        [4, 3, 3, 0],
        [5, 4, 4, 0],
        [6, 5, 5, 0],
        [7, 6, 6, 0],
        [9, 8, 8, 0],
    ];
    let rows: [([u8; 8], Option<Find>); 2] = [
        ([1, 2, 3, 0, 0, 0, 0, 0], Some((&[0; 8], &lines))),
        ([1, 2, 2, 0, 0, 0, 0, 0], None),
    ];
    for (got, told) in rows {
        assert!(rt; find(&rt, alloc, WEAK, &got, told) == Some(true));
    }
}

#[test]
fn gives_up_on_words_that_are_far(rt: HostRuntime) {
    let words = [
        [1, 1, 1, 0, 0, 0, 0, 0],
        [1, 2, 3, 0, 0, 0, 0, 0],
        [2, 0, 1, 1, 2, 1, 2, 0],
        [3, 0, 0, 2, 3, 1, 1, 1],
    ];
    for got in words {
        assert!(rt; find(&rt, rt.alloc(), STRONG, &got, None) == Some(true));
    }
}
