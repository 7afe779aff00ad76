//! The checks of what a table says, by lists of plain numbers.

ghost use Rattle.std.specs.Prelude.{ℕ, ◌≡◌, ◌+◌, ◌*◌, ◌^◌, ◌<◌, ◌≤◌, suc, Bool, All, length, slice_index, IfOk, MatchBool, MatchOption};
ghost use Rattle.gf_theory.specs.Field.{gf_mul};
ghost use Rattle.linear_theory.specs.Linear.{combine};
ghost use Rattle.gf_linear.specs.Cells.{cell};
ghost use Rattle.order_bound.specs.Checking.{AreFunctions, IsIndexOf, AreIndices, IsLabelBy, IsDualBy, IsLeastFree, IsHeadBy};
ghost use Rattle.order_bound.specs.TableChecks.{AreGood, IsFirstBad};

use crate::functions::Functions;
use crate::pairs::pairs_of;
use crate::reader::{Entries, Said};
use eval_basis::CheckRule;
use gf_field::Field;
use gf_linear::add_scaled;
use order_domain::OrderDomain;
use std::alloc::{AllocError, Global};

/// The place of a label in a list of labels, or the list's length where it is not there.
fn index_of(labels: &[u32], label: u64) -> u32
    requires { length labels.now < 2 ^ 32 }
    ensures { IsIndexOf labels.now label result }
{
    for i in 0..labels.len() {
        if u64::from(labels[i]) == label {
            return i as u32;
        }
    }
    labels.len() as u32
}

/// The places of the labels that a table says.
pub fn indices_of(alloc: Global, labels: &[u32], said: &[u64]) -> Result<Vec<u32>, AllocError>
    requires { length labels.now < 2 ^ 32 }
    ensures { IfOk result (λ v. AreIndices labels.now said.now v.items) }
{
    let mut indices = Vec::with_capacity(alloc, said.len())?;
    for label in said {
        indices.push(index_of(labels, *label))?;
    }
    Ok(indices)
}

/// The number of functions up to the last of these.
pub fn end_of(indices: &[u32], count: u32) -> u32
    requires { (j : ℕ) → j < length indices.now → slice_index indices.now j < count }
    ensures above { (j : ℕ) → j < length indices.now → slice_index indices.now j < result }
    ensures within { result ≤ count }
{
    let mut end = 0;
    for j in 0..indices.len() {
        end = end.max(indices[j] + 1);
    }
    end
}

/// Whether label k is above the one before it.
fn rises(labels: &[u64], k: usize) -> bool
    requires { k < length labels.now }
    ensures { MatchBool result
        ((j : ℕ) → k ≡ suc j → slice_index labels.now j < slice_index labels.now k)
        (((j : ℕ) → k ≡ suc j → slice_index labels.now j < slice_index labels.now k) → ⊥) }
{
    if k == 0 {
        return true;
    }
    labels[k - 1] < labels[k]
}

/// Whether the label on line k is that of a function, with its pairs and the mark of the rule.
fn is_good_label<D: OrderDomain>(
    dom: &D,
    functions: &Functions,
    rule: CheckRule,
    entries: &Entries,
    indices: &[u32],
    k: usize,
) -> bool
    requires line { k < length indices.now }
    requires labels { length entries.now.labels.items ≡ length indices.now }
    requires pairs { length entries.now.pairs.items ≡ length indices.now }
    requires marks { length entries.now.marks.items ≡ length indices.now }
    requires functions { AreFunctions (D.domain dom.now) functions.now }
    ensures { MatchBool result
        (IsLabelBy (D.domain dom.now) functions.now rule
        entries.now.labels.items entries.now.pairs.items entries.now.marks.items
        indices.now k)
        (IsLabelBy (D.domain dom.now) functions.now rule
        entries.now.labels.items entries.now.pairs.items entries.now.marks.items
        indices.now k → ⊥) }
{
    let index = indices[k] as usize;
    if index >= functions.labels.len() {
        return false;
    }
    if !rises(&entries.labels, k) {
        return false;
    }
    let pairs = pairs_of(dom, index as u32);
    if entries.pairs[k] != u64::from(pairs) {
        return false;
    }
    entries.marks[k] == rule.checks(functions.labels[index], pairs)
}

/// The first line whose label is not as it should be.
pub fn first_bad_label<D: OrderDomain>(
    dom: &D,
    functions: &Functions,
    rule: CheckRule,
    entries: &Entries,
    indices: &[u32],
) -> Option<u32>
    requires few { length indices.now ≤ 1024 }
    requires labels { length entries.now.labels.items ≡ length indices.now }
    requires pairs { length entries.now.pairs.items ≡ length indices.now }
    requires marks { length entries.now.marks.items ≡ length indices.now }
    requires functions { AreFunctions (D.domain dom.now) functions.now }
    ensures { MatchOption result
        (AreGood (length indices.now) (IsLabelBy (D.domain dom.now) functions.now rule
        entries.now.labels.items entries.now.pairs.items entries.now.marks.items indices.now))
        (IsFirstBad (length indices.now) (IsLabelBy (D.domain dom.now) functions.now rule
        entries.now.labels.items entries.now.pairs.items entries.now.marks.items indices.now)) }
{
    for k in 0..indices.len() {
        if !is_good_label(dom, functions, rule, entries, indices, k) {
            return Some(k as u32);
        }
    }
    None
}

/// The products of a list with all functions, whose values stand position by position.
pub fn multiply<F: Field>(f: &F, list: &[u8], values: &[u8], products: &mut [u8])
    requires few { length list.now ≤ 1024 }
    requires fits { length values.now ≡ length list.now * length products.old }
    requires list { All (λ x. x < 2 ^ F.bits_of f.now) list.now }
    requires values { All (λ x. x < 2 ^ F.bits_of f.now) values.now }
    ensures products { (i : ℕ) → i < length products.old → slice_index products.new i
        ≡ combine (gf_mul (F.bits_of f.now) (F.modulus_of f.now)) (length list.now)
        (slice_index list.now) (cell values.now (length products.old)) i }
{
    f.bits();
    let functions = products.len();
    products.fill(0);
    for p in 0..list.len() {
        let row = p * functions;
        add_scaled(f, products, list[p], &values[row..row + functions]);
    }
}

/// Whether the first products are 0.
fn vanishes_before(products: &[u8], end: usize) -> bool
    requires { end ≤ length products.now }
    ensures { MatchBool result ((i : ℕ) → i < end → slice_index products.now i ≡ 0)
        (((i : ℕ) → i < end → slice_index products.now i ≡ 0) → ⊥) }
{
    for i in 0..end {
        if products[i] != 0 {
            return false;
        }
    }
    true
}

/// Whether the products with the functions on the lines after line k are 0.
fn vanishes_later(products: &[u8], indices: &[u32], k: usize) -> bool
    requires few { length indices.now ≤ 1024 }
    requires line { k < length indices.now }
    requires functions { (j : ℕ) → j < length indices.now →
        slice_index indices.now j < length products.now }
    ensures { MatchBool result
        ((j : ℕ) → k < j → j < length indices.now →
        slice_index products.now (slice_index indices.now j) ≡ 0)
        (((j : ℕ) → k < j → j < length indices.now →
        slice_index products.now (slice_index indices.now j) ≡ 0) → ⊥) }
{
    for j in k + 1..indices.len() {
        if products[indices[j] as usize] != 0 {
            return false;
        }
    }
    true
}

/// Whether the dual list on line k has the products that it should have. The room is for them.
fn is_good_dual<F: Field>(
    f: &F,
    values: &[u8],
    duals: &[u8],
    indices: &[u32],
    k: usize,
    products: &mut [u8],
) -> bool
    requires few { length indices.now ≤ 1024 }
    requires line { k < length indices.now }
    requires functions { (j : ℕ) → j < length indices.now →
        slice_index indices.now j < length products.old }
    requires fits { length values.now ≡ length indices.now * length products.old }
    requires lists { length duals.now ≡ length indices.now * length indices.now }
    requires values { All (λ x. x < 2 ^ F.bits_of f.now) values.now }
    requires duals { All (λ x. x < 2 ^ F.bits_of f.now) duals.now }
    ensures { MatchBool result
        (IsDualBy (F.bits_of f.now) (F.modulus_of f.now) (length indices.now)
        (length products.old) values.now duals.now indices.now k)
        (IsDualBy (F.bits_of f.now) (F.modulus_of f.now) (length indices.now)
        (length products.old) values.now duals.now indices.now k → ⊥) }
{
    let n = indices.len();
    multiply(f, &duals[k * n..k * n + n], values, products);
    let index = indices[k] as usize;
    if !vanishes_before(products, index) {
        return false;
    }
    if products[index] != 1 {
        return false;
    }
    vanishes_later(products, indices, k)
}

/// The first line whose dual list has not the products that it should have. The room is for the products of a list.
pub fn first_bad_dual<F: Field>(
    f: &F,
    values: &[u8],
    duals: &[u8],
    indices: &[u32],
    products: &mut [u8],
) -> Option<u32>
    requires few { length indices.now ≤ 1024 }
    requires functions { (j : ℕ) → j < length indices.now →
        slice_index indices.now j < length products.old }
    requires fits { length values.now ≡ length indices.now * length products.old }
    requires lists { length duals.now ≡ length indices.now * length indices.now }
    requires values { All (λ x. x < 2 ^ F.bits_of f.now) values.now }
    requires duals { All (λ x. x < 2 ^ F.bits_of f.now) duals.now }
    ensures { MatchOption result
        (AreGood (length indices.now) (IsDualBy (F.bits_of f.now) (F.modulus_of f.now)
        (length indices.now) (length products.old) values.now duals.now indices.now))
        (IsFirstBad (length indices.now) (IsDualBy (F.bits_of f.now) (F.modulus_of f.now)
        (length indices.now) (length products.old) values.now duals.now indices.now)) }
{
    for k in 0..indices.len() {
        if !is_good_dual(f, values, duals, indices, k, products) {
            return Some(k as u32);
        }
    }
    None
}

/// The least pairs of a line with no mark.
fn least_free(pairs: &[u64], marks: &[bool]) -> Option<u64>
    requires { length pairs.now ≡ length marks.now }
    ensures { MatchOption result
        ((least : ℕ) → IsLeastFree (length marks.now) pairs.now marks.now least → ⊥)
        (IsLeastFree (length marks.now) pairs.now marks.now) }
{
    let mut least = None;
    for k in 0..marks.len() {
        if !marks[k] {
            least = Some(match least {
                None => pairs[k],
                Some(d) => pairs[k].min(d),
            });
        }
    }
    least
}

/// Whether the second line counts the lines with a mark, and names the least pairs of one without.
pub fn is_good_head(said: &Said) -> bool
    requires { length said.now.entries.pairs.items ≡ length said.now.entries.marks.items }
    ensures { MatchBool result
        (IsHeadBy said.now.checked said.now.bound said.now.entries.pairs.items
        said.now.entries.marks.items)
        (IsHeadBy said.now.checked said.now.bound said.now.entries.pairs.items
        said.now.entries.marks.items → ⊥) }
{
    let checked = said.entries.marks.iter().filter(|mark| **mark).count();
    if checked as u64 != said.checked {
        return false;
    }
    match least_free(&said.entries.pairs, &said.entries.marks) {
        Some(least) => least == said.bound,
        None => false,
    }
}
