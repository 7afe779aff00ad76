//! The codes of the small curve, and what tests ask of them. Each call stands in a function of its own that tells little of
//! it, so that no test knows what a call ensures.

ghost use Rattle.std.specs.Prelude.{◌≡◌, ◌<◌, ◌≤◌, ◌^◌, ◌↔◌, All, IsTrue, length};
ghost use Rattle.block_code.specs.Compiled.{numbers_of};

use ag_pool::Workers;
use block_code::{Bench, BlockCode, Code, CompileFault, Verdict, VoteLine};
use cab_curve::{CabDomain, Curve, Point, Term};
use eval_basis::CheckRule;
use gf_field::{Field, PolyField};
use gf_tables::TableField;
use order_domain::{OrderDomain, Points};
use std::alloc::Global;
use std::thread::Threads;

// y^2 + y = x^3
fn equation() -> [Term; 3] {
    [
        Term { i: 0, j: 2, c: 1 },
        Term { i: 0, j: 1, c: 1 },
        Term { i: 3, j: 0, c: 1 },
    ]
}

fn point(x: u8, y: u8) -> Point {
    Point { x, y, z: 0 }
}

/// The points of the curve.
pub fn points() -> [Point; 8] {
    [
        point(0, 0),
        point(0, 1),
        point(1, 2),
        point(1, 3),
        point(2, 2),
        point(2, 3),
        point(3, 2),
        point(3, 3),
    ]
}

// A list of these points, where no two of them are the same.
fn list(alloc: Global, points: &[Point]) -> Option<Points> {
    let mut items = Vec::new(alloc);
    for p in points {
        items.push(*p).ok()?;
    }
    Points::of(items)
}

// What compiling a code at these points answers, where they are points of the domain.
fn compiled_on<X: Threads + Sync, F: Field + Sync, D: OrderDomain>(
    rt: &X,
    alloc: Global,
    f: F,
    dom: &D,
    points: &Points,
    rule: CheckRule,
) -> Option<Result<Code<F>, CompileFault>> {
    if points.is_empty() {
        return None;
    }
    if f.bits() != dom.bits() {
        return None;
    }
    if !points.are_on(&f, dom) {
        return None;
    }
    Some(Code::compile(rt, alloc, f, dom, points, rule, Workers::ONE))
}

// What compiling the code at these points answers.
fn compiled<X: Threads + Sync>(
    rt: &X,
    alloc: Global,
    points: &[Point],
    rule: CheckRule,
) -> Option<Result<Code<PolyField>, CompileFault>> {
    let f = PolyField::new(2, 7)?;
    let curve = Curve::new(alloc, &f, 2, 3, &equation()).ok()?;
    if curve.bits() != 2 {
        return None;
    }
    let dom = CabDomain::new(alloc, curve, 2).ok()?;
    compiled_on(rt, alloc, f, &dom, &list(alloc, points)?, rule)
}

/// The code at these points.
pub fn made<X: Threads + Sync>(
    rt: &X,
    alloc: Global,
    points: &[Point],
    rule: CheckRule,
) -> Option<Code<PolyField>> {
    compiled(rt, alloc, points, rule)?.ok()
}

// The code of a curve at all its points.
fn at_all_points<X: Threads + Sync, F: Field + Sync>(
    rt: &X,
    alloc: Global,
    f: F,
    curve: Curve,
    weight: u32,
) -> Option<Code<F>> {
    let bits = f.bits();
    if curve.bits() != bits {
        return None;
    }
    let points = Points::of(curve.all_points(alloc, &f).ok()?)?;
    let dom = CabDomain::new(alloc, curve, bits).ok()?;
    compiled_on(rt, alloc, f, &dom, &points, CheckRule::AtMost { weight })?.ok()
}

/// The code of the curve `y^4 + y = c x^5` over GF(16) at all its points, which are 64 where c is a cube root of 1; it corrects
/// ten symbols then.
pub fn middle<X: Threads + Sync>(rt: &X, alloc: Global, c: u8) -> Option<Code<PolyField>> {
    let f = PolyField::new(4, 19)?;
    let terms = [
        Term { i: 0, j: 4, c: 1 },
        Term { i: 0, j: 1, c: 1 },
        Term { i: 5, j: 0, c },
    ];
    let curve = Curve::new(alloc, &f, 4, 5, &terms).ok()?;
    at_all_points(rt, alloc, f, curve, 31)
}

/// The code of the curve `y^8 + y = x^9` over GF(64) at its 512 points, which corrects a hundred symbols.
pub fn large<X: Threads + Sync>(rt: &X, alloc: Global) -> Option<Code<TableField>> {
    let f = TableField::new(alloc, &PolyField::new(6, 67)?).ok()?;
    let terms = [
        Term { i: 0, j: 8, c: 1 },
        Term { i: 0, j: 1, c: 1 },
        Term { i: 9, j: 0, c: 1 },
    ];
    let curve = Curve::new(alloc, &f, 8, 9, &terms).ok()?;
    at_all_points(rt, alloc, f, curve, 255)
}

/// Why there is no code at all points.
pub fn cause<X: Threads + Sync>(rt: &X, alloc: Global, rule: CheckRule) -> Option<CompileFault> {
    compiled(rt, alloc, &points(), rule)?.err()
}

// A line of the votes: its label, its pairs, and the right and the wrong candidates.
type Line = [u32; 4];

/// What is asked of a code of eight symbols, and what it has to answer.
#[derive(Clone, Copy)]
pub enum Row<'a> {
    /// n, k, the bound, the radius, and how many members are checked.
    Numbers([u32; 5]),
    /// The message places.
    Places(&'a [u32]),
    /// The codeword of a message.
    Encodes(&'a [u8], [u8; 8]),
    /// Whether a word is a codeword.
    Member([u8; 8], bool),
    /// The verdict on a block, the word that is kept, and the ledger.
    Decodes([u8; 8], Verdict, [u8; 8], &'a [Line]),
    /// The message of a block, by what coded files know of a code.
    Reads([u8; 8], [u8; 3]),
}

fn has_numbers<F: Field>(code: &Code<F>, numbers: [u32; 5]) -> bool {
    [
        code.n(),
        code.k(),
        code.bound(),
        code.radius(),
        code.checked().size(),
    ] == numbers
}

// Whether these are symbols of two bits.
fn are_symbols(msg: &[u8]) -> bool
    ensures { IsTrue result ↔ All (λ s. s < 2 ^ 2) msg.now }
{
    msg.iter().all(|s| *s < 4)
}

fn encodes<C: BlockCode>(code: &C, msg: &[u8], word: [u8; 8]) -> bool {
    if code.n() != 8 {
        return false;
    }
    if code.k() as usize != msg.len() {
        return false;
    }
    if code.bits() != 2 {
        return false;
    }
    if !are_symbols(msg) {
        return false;
    }
    let mut found = [0; 8];
    code.encode_block(msg, &mut found);
    found == word
}

fn is_member<F: Field>(code: &Code<F>, word: &[u8]) -> bool
    requires { length word.now ≡ code.now.basis.n }
{
    code.parity().member(code.field(), word)
}

/// Decodes a block, and tells no more of it than the verdict.
pub fn decode<F: Field>(code: &Code<F>, bench: &mut Bench, got: &[u8], word: &mut [u8]) -> Verdict
    requires fits { bench.old.numbers ≡ numbers_of code.now }
    requires received { length got.now ≡ code.now.basis.n }
    requires positions { length word.old ≡ code.now.basis.n }
    ensures { bench.new.numbers ≡ numbers_of code.now }
{
    code.decode_block(bench, got, word)
}

// Whether the votes went as these lines say.
fn are_lines(ledger: &[VoteLine], lines: &[Line]) -> bool {
    if ledger.len() != lines.len() {
        return false;
    }
    for k in 0..lines.len() {
        let line = ledger[k];
        if [line.label, line.pairs, line.right, line.wrong] != lines[k] {
            return false;
        }
    }
    true
}

fn decodes<F: Field>(
    code: &Code<F>,
    bench: &mut Bench,
    got: [u8; 8],
    verdict: Verdict,
    word: [u8; 8],
    lines: &[Line],
) -> bool
    requires fits { bench.old.numbers ≡ numbers_of code.now }
    requires long { code.now.basis.n ≡ 8 }
    ensures { bench.new.numbers ≡ numbers_of code.now }
{
    let mut found = [0; 8];
    let told = decode(code, bench, &got, &mut found);
    told == verdict && found == word && are_lines(bench.ledger(), lines)
}

fn reads<C: BlockCode>(code: &C, bench: &mut C::Bench, got: [u8; 8], msg: [u8; 3]) -> bool
    requires { C.Bench.numbers bench.old ≡ C.numbers code.now }
    ensures { C.Bench.numbers bench.new ≡ C.numbers code.now }
{
    if code.n() != 8 {
        return false;
    }
    if code.k() != 3 {
        return false;
    }
    let mut word = [0; 8];
    code.decode_block(bench, &got, &mut word);
    let mut found = [0; 3];
    code.message(&word, &mut found);
    found == msg
}

// Whether a code answers what a row says.
fn is_met<F: Field>(code: &Code<F>, bench: &mut Bench, row: Row) -> bool
    requires fits { bench.old.numbers ≡ numbers_of code.now }
    requires long { code.now.basis.n ≡ 8 }
    ensures { bench.new.numbers ≡ numbers_of code.now }
{
    match row {
        Row::Numbers(numbers) => has_numbers(code, numbers),
        Row::Places(places) => code.parity().places() == places,
        Row::Encodes(msg, word) => encodes(code, msg, word),
        Row::Member(word, is_one) => is_member(code, &word) == is_one,
        Row::Decodes(got, verdict, word, lines) => decodes(code, bench, got, verdict, word, lines),
        Row::Reads(got, msg) => reads(code, bench, got, msg),
    }
}

// Whether all rows are met, one after the other on a bench that has no ledger yet.
fn are_met_on<F: Field>(code: &Code<F>, bench: &mut Bench, rows: &[Row]) -> bool
    requires { bench.old.numbers ≡ numbers_of code.now }
{
    if code.n() != 8 {
        return false;
    }
    if !bench.ledger().is_empty() {
        return false;
    }
    for row in rows {
        if !is_met(code, bench, *row) {
            return false;
        }
    }
    true
}

fn are_met_by<F: Field>(alloc: Global, code: &Code<F>, rows: &[Row]) -> Option<bool> {
    let mut bench = Bench::new(alloc, code).ok()?;
    Some(are_met_on(code, &mut bench, rows))
}

/// Whether all rows are met by the code at all points.
pub fn are_met<X: Threads + Sync>(
    rt: &X,
    alloc: Global,
    rule: CheckRule,
    rows: &[Row],
) -> Option<bool> {
    let code = made(rt, alloc, &points(), rule)?;
    are_met_by(alloc, &code, rows)
}
