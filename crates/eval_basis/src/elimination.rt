//! One step of the search for the functions that are no combination of those before them. Beside the members found so far
//! it keeps n lists in an order: the first are dual to the members, and the others vanish on them. A function is new exactly
//! where one of the others does not vanish on it.
//!
//! The lists are stored by position: row p of `symbols` has the symbols of all lists at position p. So the products of a
//! function with all lists are one combination of rows, and a list that is taken changes each row by one multiple of the
//! products. A position is not used, and its row still a unit, until the list of its own number is taken.

ghost use Rattle.std.specs.Prelude.{ℕ, ◌≡◌, ◌≢◌, ◌*◌, ◌<◌, ◌≤◌, ◌^◌, false, length, slice_index, All, IfOk, MatchOption};
ghost use Rattle.field_theory.specs.Sums.{unit};
ghost use Rattle.gf_theory.specs.Field.{gf_mul};
ghost use Rattle.linear_theory.specs.Linear.{combine};
ghost use Rattle.order_theory.specs.Codes.{marked};
ghost use Rattle.gf_linear.specs.Cells.{cell};
ghost use Rattle.eval_basis.specs.Flat.{IsList, IsTable};
ghost use Rattle.eval_basis.specs.Lists.{list_of, AreTakes, IsSettled};

use crate::takes::{Takes, add_take};
use gf_field::Field;
use gf_linear::add_scaled;
use std::alloc::{AllocError, Global};

// The symbol of list q at position p, before the first function.
fn unit_symbol<F: Field>(f: &F, p: usize, q: usize) -> u8
    ensures value { result ≡ unit p q }
    ensures symbol { result < 2 ^ F.bits_of f.now }
{
    f.bits();
    if q == p { 1 } else { 0 }
}

/// The lists before the first function: list q is 1 at position q, and 0 elsewhere.
#[tactic(auto, using(crate::proofs::Pushing::pushing))]
pub fn unit_lists<F: Field>(alloc: Global, f: &F, n: usize) -> Result<Vec<u8>, AllocError>
    requires { n ≤ 1024 }
    ensures lists { IfOk result (λ v. IsTable n unit v.items) }
    ensures symbols { IfOk result (λ v. All (λ x. x < 2 ^ F.bits_of f.now) v.items) }
{
    let mut symbols = Vec::with_capacity(alloc, n * n)?;
    for p in 0..n {
        for q in 0..n {
            symbols.push(unit_symbol(f, p, q))?;
        }
    }
    Ok(symbols)
}

/// The order of the lists before the first function: by their numbers.
#[tactic(auto, using(crate::proofs::Pushing::pushing))]
pub fn first_order(alloc: Global, n: usize) -> Result<Vec<u32>, AllocError>
    requires { n ≤ 1024 }
    ensures { IfOk result (λ v. IsList n (λ k. k) v.items) }
{
    let mut order = Vec::with_capacity(alloc, n)?;
    for k in 0..n {
        order.push(k as u32)?;
    }
    Ok(order)
}

/// The lists in their order, one after the other.
#[tactic(auto, using(crate::proofs::Pushing::pushing))]
pub fn in_order(alloc: Global, symbols: &[u8], order: &[u32]) -> Result<Vec<u8>, AllocError>
    requires few { length order.now ≤ 1024 }
    requires fits { length symbols.now ≡ length order.now * length order.now }
    requires numbers { (k : ℕ) → k < length order.now →
        slice_index order.now k < length order.now }
    ensures { IfOk result (λ v. IsTable (length order.now)
        (list_of (length order.now) symbols.now order.now) v.items) }
{
    let n = order.len();
    let mut lists = Vec::with_capacity(alloc, n * n)?;
    for k in 0..n {
        for p in 0..n {
            lists.push(symbols[p * n + order[k] as usize])?;
        }
    }
    Ok(lists)
}

/// The products of the values with all lists.
pub fn multiply<F: Field>(f: &F, values: &[u8], symbols: &[u8], used: &[bool], products: &mut [u8])
    requires few { length values.now ≤ 1024 }
    requires fits { length symbols.now ≡ length values.now * length values.now }
    requires marks { length used.now ≡ length values.now }
    requires room { length products.old ≡ length values.now }
    requires values { All (λ x. x < 2 ^ F.bits_of f.now) values.now }
    requires symbols { All (λ x. x < 2 ^ F.bits_of f.now) symbols.now }
    requires units { (p q : ℕ) → p < length values.now → q < length values.now →
        marked used.now p ≡ false → cell symbols.now (length values.now) p q ≡ unit p q }
    ensures products { (q : ℕ) → q < length values.now → slice_index products.new q
        ≡ combine (gf_mul (F.bits_of f.now) (F.modulus_of f.now)) (length values.now)
        (slice_index values.now) (cell symbols.now (length values.now)) q }
    ensures symbols { All (λ x. x < 2 ^ F.bits_of f.now) products.new }
{
    f.bits();
    let n = values.len();
    products.fill(0);
    for p in 0..n {
        if used[p] {
            add_scaled(f, products, values[p], &symbols[p * n..p * n + n]);
        } else {
            products[p] = f.add(products[p], values[p]);
        }
    }
}

// The first place in the order, from k on, of a list whose product is not 0.
fn first_seeing(products: &[u8], order: &[u32], k: usize) -> Option<usize>
    requires { (i : ℕ) → i < length order.now →
        slice_index order.now i < length products.now }
    ensures { MatchOption result
        ((i : ℕ) → k ≤ i → i < length order.now →
        slice_index products.now (slice_index order.now i) ≡ 0)
        (λ i. (k ≤ i) × (i < length order.now)
        × (slice_index products.now (slice_index order.now i) ≢ 0)) }
{
    for i in k..order.len() {
        if products[order[i] as usize] != 0 {
            return Some(i);
        }
    }
    None
}

/// Whether the function that has these products with the lists is new, where k members are known. If so list k of the order
/// becomes its dual list, and what that does to the lists is one take more. The products then have 1 for the list taken.
pub fn step<F: Field>(
    f: &F,
    k: usize,
    products: &mut [u8],
    order: &mut [u32],
    used: &mut [bool],
    takes: &mut Takes,
) -> Result<bool, AllocError>
    requires n_order { length order.old ≡ length products.old }
    requires n_used { length used.old ≡ length products.old }
    requires numbers { (i : ℕ) → i < length order.old →
        slice_index order.old i < length products.old }
    requires products { All (λ x. x < 2 ^ F.bits_of f.now) products.old }
    requires takes { AreTakes (F.bits_of f.now) (length products.old) takes.old.numbers.items
        takes.old.factors.items takes.old.products.items }
    ensures settled { IfOk result (IsSettled (F.bits_of f.now) (F.modulus_of f.now)
        (length products.old) k products.old order.old takes.old.numbers.items
        takes.old.factors.items takes.old.products.items used.old order.new
        takes.new.numbers.items takes.new.factors.items takes.new.products.items used.new) }
    ensures takes { IfOk result (λ _. AreTakes (F.bits_of f.now) (length products.old)
        takes.new.numbers.items takes.new.factors.items takes.new.products.items) }
    ensures numbers { (i : ℕ) → i < length order.old →
        slice_index order.new i < length products.old }
{
    f.bits();
    match first_seeing(products, order, k) {
        None => Ok(false),
        Some(place) => {
            let q = order[place];
            order[place] = order[k];
            order[k] = q;
            used[q as usize] = true;
            add_take(f, q, products, takes)?;
            Ok(true)
        }
    }
}
