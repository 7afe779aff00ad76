//! Whether the lines of a table are those of the members. Few functions are looked at: those of the lines, and of the others
//! those that are no sum of a function that is not new. This says yes of each table, and no more than that: where a line is
//! wrong, the checks one by one tell which.

ghost use Rattle.std.specs.Prelude.{ℕ, ◌≡◌, ◌+◌, ◌*◌, ◌^◌, ◌<◌, ◌≤◌, All, length, slice_index, IfOk, IsTrue, false, MatchBool};
ghost use Rattle.field_theory.specs.Sums.{unit};
ghost use Rattle.gf_linear.specs.Cells.{cell};
ghost use Rattle.order_theory.specs.Codes.{marked};
ghost use Rattle.order_domain.specs.Domain.{ArePoints};
ghost use Rattle.eval_basis.specs.Flat.{IsTable};
ghost use Rattle.eval_basis.specs.Found.{AreMarked};
ghost use Rattle.order_bound.specs.Looking.{product_at, AreDualTo, VanishFrom, IsLookedAt, AreNewLines, HaveMembers, AreSaidOf};

use crate::checks::{end_of, multiply};
use crate::reader::Entries;
use eval_basis::{CheckRule, evaluate, mark_sums};
use gf_field::Field;
use order_domain::{OrderDomain, Point};
use std::alloc::{AllocError, Global};

/// Dual lists that stand one after the other, position by position.
#[tactic(auto, using(eval_basis::proofs::Pushing::pushing))]
fn by_position(alloc: Global, duals: &[u8], n: usize) -> Result<Vec<u8>, AllocError>
    requires few { n ≤ 1024 }
    requires fits { length duals.now ≡ n * n }
    ensures { IfOk result (λ v. IsTable n (λ p q. cell duals.now n q p) v.items) }
{
    let mut lists = Vec::with_capacity(alloc, n * n)?;
    for p in 0..n {
        for q in 0..n {
            lists.push(duals[q * n + p])?;
        }
    }
    Ok(lists)
}

/// Writes the products of function i with all lists. The first room is for its values.
fn products_with<F: Field, D: OrderDomain>(
    f: &F,
    dom: &D,
    points: &[Point],
    i: u32,
    lists: &[u8],
    values: &mut [u8],
    products: &mut [u8],
)
    requires bits { F.bits_of f.now ≡ (D.domain dom.now).bits }
    requires few { length points.now ≤ 1024 }
    requires points { ArePoints (D.domain dom.now) (F.modulus_of f.now) points.now }
    requires function { i < (D.domain dom.now).count }
    requires fits { length lists.now ≡ length points.now * length points.now }
    requires symbols { All (λ x. x < 2 ^ F.bits_of f.now) lists.now }
    requires values_room { length values.old ≡ length points.now }
    requires products_room { length products.old ≡ length points.now }
    ensures { (q : ℕ) → q < length points.now → slice_index products.new q
        ≡ product_at (D.domain dom.now) (F.modulus_of f.now) points.now lists.now i q }
{
    evaluate(f, dom, i, points, values);
    multiply(f, values, lists, products);
}

/// The product of the function of line k with list q.
fn unit_at(k: usize, q: usize) -> u8
    ensures { result ≡ unit k q }
{
    if q == k { 1 } else { 0 }
}

/// Whether products are those of the function of line k.
fn is_unit(products: &[u8], k: usize) -> bool
    ensures { MatchBool result
        ((q : ℕ) → q < length products.now → slice_index products.now q ≡ unit k q)
        (((q : ℕ) → q < length products.now → slice_index products.now q ≡ unit k q) → ⊥) }
{
    for q in 0..products.len() {
        if products[q] != unit_at(k, q) {
            return false;
        }
    }
    true
}

/// Whether the products from a place on are 0.
fn vanishes_from(products: &[u8], from: usize) -> bool
    ensures { MatchBool result
        ((q : ℕ) → from ≤ q → q < length products.now → slice_index products.now q ≡ 0)
        (((q : ℕ) → from ≤ q → q < length products.now → slice_index products.now q ≡ 0) → ⊥) }
{
    for q in from..products.len() {
        if products[q] != 0 {
            return false;
        }
    }
    true
}

/// Whether the lists are dual to the functions of the lines.
fn are_dual<F: Field, D: OrderDomain>(
    f: &F,
    dom: &D,
    points: &[Point],
    indices: &[u32],
    lists: &[u8],
    values: &mut [u8],
    products: &mut [u8],
) -> bool
    requires bits { F.bits_of f.now ≡ (D.domain dom.now).bits }
    requires few { length points.now ≤ 1024 }
    requires points { ArePoints (D.domain dom.now) (F.modulus_of f.now) points.now }
    requires lines { length indices.now ≡ length points.now }
    requires functions { (k : ℕ) → k < length indices.now →
        slice_index indices.now k < (D.domain dom.now).count }
    requires fits { length lists.now ≡ length points.now * length points.now }
    requires symbols { All (λ x. x < 2 ^ F.bits_of f.now) lists.now }
    requires values_room { length values.old ≡ length points.now }
    requires products_room { length products.old ≡ length points.now }
    ensures { IsTrue result → AreDualTo (D.domain dom.now) (F.modulus_of f.now) points.now
        indices.now lists.now }
{
    for k in 0..indices.len() {
        products_with(f, dom, points, indices[k], lists, values, products);
        if !is_unit(products, k) {
            return false;
        }
    }
    true
}

/// Whether function i is marked, or the lists from a place on vanish on it. If so its sums are marked.
fn look_at<F: Field, D: OrderDomain>(
    f: &F,
    dom: &D,
    points: &[Point],
    i: u32,
    lists: &[u8],
    from: usize,
    old: &mut [bool],
    values: &mut [u8],
    products: &mut [u8],
) -> bool
    requires bits { F.bits_of f.now ≡ (D.domain dom.now).bits }
    requires few { length points.now ≤ 1024 }
    requires points { ArePoints (D.domain dom.now) (F.modulus_of f.now) points.now }
    requires function { i < (D.domain dom.now).count }
    requires fits { length lists.now ≡ length points.now * length points.now }
    requires symbols { All (λ x. x < 2 ^ F.bits_of f.now) lists.now }
    requires marks { length old.old ≡ (D.domain dom.now).count }
    requires values_room { length values.old ≡ length points.now }
    requires products_room { length products.old ≡ length points.now }
    ensures looked { IsTrue result → IsLookedAt (D.domain dom.now) (F.modulus_of f.now) points.now
        lists.now old.old i from }
    ensures marks { IsTrue result → AreMarked (D.domain dom.now) i old.old old.new }
{
    if !old[i as usize] {
        products_with(f, dom, points, i, lists, values, products);
        if !vanishes_from(products, from) {
            return false;
        }
    }
    mark_sums(dom, i, old);
    true
}

/// Whether function i is that of a line.
fn is_on_line(indices: &[u32], line: usize, i: u32) -> bool
    ensures { IsTrue result → (line < length indices.now) × (slice_index indices.now line ≡ i) }
{
    if line >= indices.len() {
        return false;
    }
    indices[line] == i
}

/// Whether the functions before `end` are those of the lines, in their order, and others that are combinations of the
/// functions before them.
fn are_all<F: Field, D: OrderDomain>(
    f: &F,
    dom: &D,
    points: &[Point],
    indices: &[u32],
    end: u32,
    lists: &[u8],
    old: &mut [bool],
    values: &mut [u8],
    products: &mut [u8],
) -> bool
    requires bits { F.bits_of f.now ≡ (D.domain dom.now).bits }
    requires few { length points.now ≤ 1024 }
    requires points { ArePoints (D.domain dom.now) (F.modulus_of f.now) points.now }
    requires lines { length indices.now ≡ length points.now }
    requires functions { end ≤ (D.domain dom.now).count }
    requires fits { length lists.now ≡ length points.now * length points.now }
    requires symbols { All (λ x. x < 2 ^ F.bits_of f.now) lists.now }
    requires dual { AreDualTo (D.domain dom.now) (F.modulus_of f.now) points.now indices.now
        lists.now }
    requires marks { length old.old ≡ (D.domain dom.now).count }
    requires no_marks { (j : ℕ) → marked old.old j ≡ false }
    requires values_room { length values.old ≡ length points.now }
    requires products_room { length products.old ≡ length points.now }
    ensures { IsTrue result → AreNewLines (D.domain dom.now) (F.modulus_of f.now) points.now
        indices.now }
{
    f.bits();
    dom.bits();
    let mut next = 0;
    for i in 0..end {
        if is_on_line(indices, next, i) {
            next += 1;
        } else if !look_at(f, dom, points, i, lists, next, old, values, products) {
            return false;
        }
    }
    next == indices.len()
}

/// Whether all functions with these indices are of the domain.
fn are_functions(indices: &[u32], count: u32) -> bool
    ensures { MatchBool result
        ((k : ℕ) → k < length indices.now → slice_index indices.now k < count)
        (((k : ℕ) → k < length indices.now → slice_index indices.now k < count) → ⊥) }
{
    for k in 0..indices.len() {
        if indices[k] >= count {
            return false;
        }
    }
    true
}

/// Whether the functions of the lines are the members, and their lists dual to them.
pub fn have_members<F: Field, D: OrderDomain>(
    alloc: Global,
    f: &F,
    dom: &D,
    points: &[Point],
    indices: &[u32],
    duals: &[u8],
) -> Result<bool, AllocError>
    requires bits { F.bits_of f.now ≡ (D.domain dom.now).bits }
    requires few { length points.now ≤ 1024 }
    requires points { ArePoints (D.domain dom.now) (F.modulus_of f.now) points.now }
    requires lines { length indices.now ≡ length points.now }
    requires fits { length duals.now ≡ length points.now * length points.now }
    requires symbols { All (λ x. x < 2 ^ F.bits_of f.now) duals.now }
    ensures { IfOk result (λ yes. IsTrue yes → HaveMembers (D.domain dom.now) (F.modulus_of f.now)
        points.now indices.now duals.now) }
{
    let n = points.len();
    let count = dom.count();
    if !are_functions(indices, count) {
        return Ok(false);
    }
    let lists = by_position(alloc, duals, n)?;
    let mut values = vec![in alloc; 0u8; n]?;
    let mut products = vec![in alloc; 0u8; n]?;
    if !are_dual(f, dom, points, indices, &lists, &mut values, &mut products) {
        return Ok(false);
    }
    let mut old = vec![in alloc; false; count as usize]?;
    let end = end_of(indices, count);
    Ok(are_all(
        f,
        dom,
        points,
        indices,
        end,
        &lists,
        &mut old,
        &mut values,
        &mut products,
    ))
}

/// Whether the lines say these pairs, and the marks that the rule gives.
pub fn are_said(entries: &Entries, rule: CheckRule, labels: &[u32], counts: &[u32]) -> bool
    requires lines { length entries.now.pairs.items ≡ length labels.now }
    requires marks { length entries.now.marks.items ≡ length labels.now }
    requires counts { length counts.now ≡ length labels.now }
    ensures { IsTrue result → AreSaidOf (length labels.now) rule labels.now counts.now
        entries.now.pairs.items entries.now.marks.items }
{
    for k in 0..labels.len() {
        if entries.pairs[k] != u64::from(counts[k]) {
            return false;
        }
        if entries.marks[k] != rule.checks(labels[k], counts[k]) {
            return false;
        }
    }
    true
}
