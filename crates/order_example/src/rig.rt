//! Bases of small curves, and what tests ask of them. Each call stands in a function of its own that tells little of it, so
//! that no test knows what a call ensures.

ghost use Rattle.std.specs.Prelude.{◌≡◌, length, IfSome};

use ag_pool::Workers;
use cab_curve::{CabDomain, Curve, Point, Term};
use eval_basis::{CheckRule, Checked, EvalBasis};
use gf_field::{Field, PolyField};
use order_bound::{TableSays, bound, check_table, table_text};
use order_domain::{OrderDomain, Points};
use search_decoder::near_by_search;
use std::alloc::Global;
use std::thread::Threads;

/// A term of an equation.
pub fn term(i: u32, j: u32, c: u8) -> Term {
    Term { i, j, c }
}

/// A point of a plane curve.
pub fn point(x: u8, y: u8) -> Point {
    Point { x, y, z: 0 }
}

// These points, where they are distinct.
fn listed(alloc: Global, points: &[Point]) -> Option<Points> {
    Points::of(points.to_vec(alloc).ok()?)
}

/// The basis of the domain at these points, where they are distinct and points of it.
pub fn built<X: Threads + Sync, F: Field + Sync, D: OrderDomain>(
    rt: &X,
    alloc: Global,
    f: F,
    dom: &D,
    points: &[Point],
) -> Option<EvalBasis<F>> {
    let points = listed(alloc, points)?;
    if f.bits() != dom.bits() {
        return None;
    }
    if points.is_empty() {
        return None;
    }
    if !points.are_on(&f, dom) {
        return None;
    }
    EvalBasis::build(rt, alloc, f, dom, &points, Workers::ONE).ok()
}

/// The basis of a curve with the weights 2 and 3 over GF(4).
pub fn on_curve<X: Threads + Sync>(
    rt: &X,
    alloc: Global,
    terms: [Term; 3],
    points: &[Point],
) -> Option<EvalBasis<PolyField>> {
    let f = PolyField::new(2, 7)?;
    let curve = Curve::new(alloc, &f, 2, 3, &terms).ok()?;
    if curve.bits() != 2 {
        return None;
    }
    let dom = CabDomain::new(alloc, curve, 2).ok()?;
    built(rt, alloc, f, &dom, points)
}

/// y² + y = x³
pub fn small_terms() -> [Term; 3] {
    [term(0, 2, 1), term(0, 1, 1), term(3, 0, 1)]
}

/// All points of that curve.
pub fn small_points() -> [Point; 8] {
    [
        point(0, 0),
        point(0, 1),
        point(1, 2),
        point(1, 3),
        point(2, 2),
        point(2, 3),
        point(3, 2),
        point(3, 3),
    ]
}

/// What is asked of a basis of eight members, and what it has to answer.
#[derive(Clone, Copy)]
pub enum Row<'a> {
    /// The bits and the modulus of the field, and the number of functions.
    Numbers([u32; 3]),
    Labels([u32; 8]),
    Ranks([u32; 8]),
    Pairs([u32; 8]),
    /// The values of a member.
    Vector(u32, [u8; 8]),
    Dual(u32, [u8; 8]),
    /// The index of the sum of two members.
    Sum(u32, u32, u32),
    Lead(u32, u32, u8),
    /// How many members a rule checks.
    Checks(CheckRule, u32),
    /// The order bound where labels up to a weight are checked.
    Bound(u32, Option<u32>),
    /// What is near these bytes, where labels up to 5 are checked and t is 2.
    Near([u8; 8], Option<[u8; 8]>),
    /// The table, where labels up to 5 are checked.
    Table(&'a [u8]),
}

fn has_numbers(basis: &EvalBasis<PolyField>, numbers: [u32; 3]) -> bool {
    [basis.bits(), basis.modulus(), basis.count()] == numbers
}

fn has_labels(basis: &EvalBasis<PolyField>, labels: [u32; 8]) -> bool
    requires { basis.now.n ≡ 8 }
{
    for k in 0..8u32 {
        if basis.label(k) != labels[k as usize] {
            return false;
        }
    }
    true
}

fn has_ranks(basis: &EvalBasis<PolyField>, ranks: [u32; 8]) -> bool
    requires { basis.now.n ≡ 8 }
{
    for k in 0..8u32 {
        if basis.rank_at(k) != ranks[k as usize] {
            return false;
        }
    }
    true
}

fn has_pairs(basis: &EvalBasis<PolyField>, pairs: [u32; 8]) -> bool
    requires { basis.now.n ≡ 8 }
{
    for k in 0..8u32 {
        if basis.pairs(k) != pairs[k as usize] {
            return false;
        }
    }
    true
}

fn has_vector(basis: &EvalBasis<PolyField>, k: u32, vector: [u8; 8]) -> bool
    requires { basis.now.n ≡ 8 }
{
    k < 8 && basis.vector(k) == vector.as_slice()
}

fn has_dual(basis: &EvalBasis<PolyField>, k: u32, dual: [u8; 8]) -> bool
    requires { basis.now.n ≡ 8 }
{
    k < 8 && basis.dual(k) == dual.as_slice()
}

fn has_sum(basis: &EvalBasis<PolyField>, i: u32, j: u32, sum: u32) -> bool
    requires { basis.now.n ≡ 8 }
{
    i < 8 && j < 8 && basis.sum_at(i, j) == sum
}

fn has_lead(basis: &EvalBasis<PolyField>, i: u32, j: u32, lead: u8) -> bool
    requires { basis.now.n ≡ 8 }
{
    i < 8 && j < 8 && basis.lead(i, j) == lead
}

// How many members have a mark.
fn marks_in(checked: &Checked) -> u32
    requires { length checked.now ≡ 8 }
{
    let mut count: u32 = 0;
    for k in 0..8u32 {
        count = count.wrapping_add(u32::from(checked.holds(k)));
    }
    count
}

fn checks(alloc: Global, basis: &EvalBasis<PolyField>, rule: CheckRule, size: u32) -> Option<bool>
    requires { basis.now.n ≡ 8 }
{
    let checked = Checked::new(alloc, basis, rule).ok()?;
    Some(checked.size() == size && marks_in(&checked) == size)
}

// The members with labels up to a weight.
fn up_to(alloc: Global, basis: &EvalBasis<PolyField>, weight: u32) -> Option<Checked>
    ensures { IfSome result (λ checked. length checked ≡ basis.now.n) }
{
    Checked::new(alloc, basis, CheckRule::AtMost { weight }).ok()
}

fn has_bound(
    alloc: Global,
    basis: &EvalBasis<PolyField>,
    weight: u32,
    least: Option<u32>,
) -> Option<bool> {
    let checked = up_to(alloc, basis, weight)?;
    Some(bound(basis, &checked) == least)
}

// What the search finds near these bytes.
fn near(basis: &EvalBasis<PolyField>, checked: &Checked, got: [u8; 8]) -> Option<[u8; 8]>
    requires marks { length checked.now ≡ basis.now.n }
    requires long { basis.now.n ≡ 8 }
{
    let mut word = [0; 8];
    if !near_by_search(basis, checked, 2, &got, &mut word) {
        return None;
    }
    Some(word)
}

fn has_near(
    alloc: Global,
    basis: &EvalBasis<PolyField>,
    got: [u8; 8],
    word: Option<[u8; 8]>,
) -> Option<bool>
    requires { basis.now.n ≡ 8 }
{
    let checked = up_to(alloc, basis, 5)?;
    Some(near(basis, &checked, got) == word)
}

fn has_table(alloc: Global, basis: &EvalBasis<PolyField>, table: &[u8]) -> Option<bool> {
    let checked = up_to(alloc, basis, 5)?;
    bound(basis, &checked)?;
    let text = table_text(alloc, basis, &checked).ok()?;
    Some(text.as_slice() == table)
}

// Whether a basis answers what a row says.
fn is_met(alloc: Global, basis: &EvalBasis<PolyField>, row: Row) -> bool
    requires { basis.now.n ≡ 8 }
{
    match row {
        Row::Numbers(numbers) => has_numbers(basis, numbers),
        Row::Labels(labels) => has_labels(basis, labels),
        Row::Ranks(ranks) => has_ranks(basis, ranks),
        Row::Pairs(pairs) => has_pairs(basis, pairs),
        Row::Vector(k, vector) => has_vector(basis, k, vector),
        Row::Dual(k, dual) => has_dual(basis, k, dual),
        Row::Sum(i, j, sum) => has_sum(basis, i, j, sum),
        Row::Lead(i, j, lead) => has_lead(basis, i, j, lead),
        Row::Checks(rule, size) => checks(alloc, basis, rule, size) == Some(true),
        Row::Bound(weight, least) => has_bound(alloc, basis, weight, least) == Some(true),
        Row::Near(got, word) => has_near(alloc, basis, got, word) == Some(true),
        Row::Table(table) => has_table(alloc, basis, table) == Some(true),
    }
}

fn are_met_by(alloc: Global, basis: &EvalBasis<PolyField>, rows: &[Row]) -> bool {
    if basis.n() != 8 {
        return false;
    }
    for row in rows {
        if !is_met(alloc, basis, *row) {
            return false;
        }
    }
    true
}

/// Whether all rows are met by the basis of a curve with the weights 2 and 3 over GF(4), which has eight members.
pub fn are_met<X: Threads + Sync>(
    rt: &X,
    alloc: Global,
    terms: [Term; 3],
    points: &[Point],
    rows: &[Row],
) -> Option<bool> {
    let basis = on_curve(rt, alloc, terms, points)?;
    Some(are_met_by(alloc, &basis, rows))
}

// What the checks say of a text as the table of a domain at the points of the small curve, where labels up to 5 are checked.
fn said_on<F: Field, D: OrderDomain>(
    alloc: Global,
    f: &F,
    dom: &D,
    text: &[u8],
) -> Option<TableSays> {
    let points = listed(alloc, &small_points())?;
    if f.bits() != dom.bits() {
        return None;
    }
    if points.is_empty() {
        return None;
    }
    if !points.are_on(f, dom) {
        return None;
    }
    let rule = CheckRule::AtMost { weight: 5 };
    check_table(alloc, f, dom, &points, rule, text).ok()
}

/// What the checks say of a text as the table of the small curve.
pub fn said(alloc: Global, text: &[u8]) -> Option<TableSays> {
    let f = PolyField::new(2, 7)?;
    let curve = Curve::new(alloc, &f, 2, 3, &small_terms()).ok()?;
    if curve.bits() != 2 {
        return None;
    }
    let dom = CabDomain::new(alloc, curve, 2).ok()?;
    said_on(alloc, &f, &dom, text)
}

/// What they say of a table with one piece of it replaced.
pub fn said_with(alloc: Global, table: &str, from: &str, to: &str) -> Option<TableSays> {
    let text = table.replace(alloc, from, to).ok()?;
    said(alloc, text.as_bytes())
}
