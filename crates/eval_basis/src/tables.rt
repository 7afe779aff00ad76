//! The tables of a basis, from its members: labels, sums, leads, and how many pairs each member has.

ghost use Rattle.std.specs.Prelude.{ℕ, ◌≡◌, ◌+◌, ◌*◌, ◌<◌, ◌≤◌, ◌^◌, ◌==◌, length, slice_index, count_by, All, IfOk};
ghost use Rattle.order_domain.specs.Values.{sum_or_count as sum_or_count_of, lead_at};
ghost use Rattle.eval_basis.specs.Flat.{IsList, IsTable};
ghost use Rattle.eval_basis.specs.Found.{AreTables};

use gf_field::Field;
use order_domain::OrderDomain;
use std::alloc::{AllocError, Global};

/// The tables of a basis.
#[derive(Drop)]
pub struct Tables {
    pub labels: Vec<u32>,
    pub pair_counts: Vec<u32>,
    pub sums: Vec<u32>,
    pub leads: Vec<u8>,
}

/// The labels of the functions with these indices.
#[tactic(auto, using(crate::proofs::Pushing::pushing))]
fn labels_of<D: OrderDomain>(alloc: Global, dom: &D, ranks: &[u32]) -> Result<Vec<u32>, AllocError>
    requires { (k : ℕ) → k < length ranks.now → slice_index ranks.now k < (D.domain dom.now).count }
    ensures { IfOk result (λ v. IsList (length ranks.now)
        (λ k. (D.domain dom.now).label (slice_index ranks.now k)) v.items) }
{
    let mut labels = Vec::with_capacity(alloc, ranks.len())?;
    for rank in ranks {
        labels.push(dom.label(*rank))?;
    }
    Ok(labels)
}

/// The index of the sum of functions i and j, or the number of functions where there is none.
fn sum_or_count<D: OrderDomain>(dom: &D, i: u32, j: u32) -> u32
    requires left { i < (D.domain dom.now).count }
    requires right { j < (D.domain dom.now).count }
    ensures { result ≡ sum_or_count_of (D.domain dom.now) i j }
{
    match dom.sum(i, j) {
        Some(sum) => sum,
        None => dom.count(),
    }
}

/// The sums of the functions with these indices, row by row; the number of functions where there is none.
#[tactic(auto, using(crate::proofs::Pushing::pushing))]
fn sums_of<D: OrderDomain>(alloc: Global, dom: &D, ranks: &[u32]) -> Result<Vec<u32>, AllocError>
    requires few { length ranks.now ≤ 1024 }
    requires below { (k : ℕ) → k < length ranks.now →
        slice_index ranks.now k < (D.domain dom.now).count }
    ensures { IfOk result (λ v. IsTable (length ranks.now)
        (λ i j. sum_or_count_of (D.domain dom.now) (slice_index ranks.now i)
        (slice_index ranks.now j)) v.items) }
{
    let mut sums = Vec::with_capacity(alloc, ranks.len() * ranks.len())?;
    for i in 0..ranks.len() {
        for j in 0..ranks.len() {
            sums.push(sum_or_count(dom, ranks[i], ranks[j]))?;
        }
    }
    Ok(sums)
}

/// The lead of functions i and j where they have a sum, else 0.
fn lead_or_zero<F: Field, D: OrderDomain>(f: &F, dom: &D, i: u32, j: u32) -> u8
    requires bits { F.bits_of f.now ≡ (D.domain dom.now).bits }
    requires left { i < (D.domain dom.now).count }
    requires right { j < (D.domain dom.now).count }
    ensures value { result ≡ lead_at (D.domain dom.now) (F.modulus_of f.now) i j }
    ensures symbol { result < 2 ^ F.bits_of f.now }
{
    match dom.sum(i, j) {
        Some(_) => dom.lead(f, i, j),
        None => 0,
    }
}

/// The leads of the functions with these indices, row by row; 0 where there is no sum.
#[tactic(auto, using(crate::proofs::Pushing::pushing))]
fn leads_of<F: Field, D: OrderDomain>(
    alloc: Global,
    f: &F,
    dom: &D,
    ranks: &[u32],
) -> Result<Vec<u8>, AllocError>
    requires bits { F.bits_of f.now ≡ (D.domain dom.now).bits }
    requires few { length ranks.now ≤ 1024 }
    requires below { (k : ℕ) → k < length ranks.now →
        slice_index ranks.now k < (D.domain dom.now).count }
    ensures leads { IfOk result (λ v. IsTable (length ranks.now)
        (λ i j. lead_at (D.domain dom.now) (F.modulus_of f.now) (slice_index ranks.now i)
        (slice_index ranks.now j)) v.items) }
    ensures symbols { IfOk result (λ v. All (λ x. x < 2 ^ F.bits_of f.now) v.items) }
{
    let mut leads = Vec::with_capacity(alloc, ranks.len() * ranks.len())?;
    for i in 0..ranks.len() {
        for j in 0..ranks.len() {
            leads.push(lead_or_zero(f, dom, ranks[i], ranks[j]))?;
        }
    }
    Ok(leads)
}

/// The number of the member with each index; n for an index that is no member's.
fn numbers_of(alloc: Global, count: u32, ranks: &[u32]) -> Result<Vec<u32>, AllocError>
    requires few { length ranks.now ≤ 1024 }
    requires below { (k : ℕ) → k < length ranks.now → slice_index ranks.now k < count }
    requires rising { (j k : ℕ) → j < k → k < length ranks.now →
        slice_index ranks.now j < slice_index ranks.now k }
    ensures long { IfOk result (λ v. length v.items ≡ count) }
    ensures member { IfOk result (λ v. (k : ℕ) → k < length ranks.now →
        slice_index v.items (slice_index ranks.now k) ≡ k) }
    ensures found { IfOk result (λ v. (s : ℕ) → s < count →
        slice_index v.items s < length ranks.now →
        slice_index ranks.now (slice_index v.items s) ≡ s) }
{
    let mut numbers = vec![in alloc; ranks.len() as u32; count as usize]?;
    for k in 0..ranks.len() {
        numbers[ranks[k] as usize] = k as u32;
    }
    Ok(numbers)
}

/// For each member how many of the sums are its index.
fn pair_counts_of(
    alloc: Global,
    count: u32,
    ranks: &[u32],
    sums: &[u32],
) -> Result<Vec<u32>, AllocError>
    requires few { length ranks.now ≤ 1024 }
    requires few_sums { length sums.now < 2 ^ 32 }
    requires below { (k : ℕ) → k < length ranks.now → slice_index ranks.now k < count }
    requires rising { (j k : ℕ) → j < k → k < length ranks.now →
        slice_index ranks.now j < slice_index ranks.now k }
    ensures { IfOk result (λ v. IsList (length ranks.now)
        (λ k. count_by (λ s. s == slice_index ranks.now k) sums.now) v.items) }
{
    let numbers = numbers_of(alloc, count, ranks)?;
    let mut counts = vec![in alloc; 0u32; ranks.len()]?;
    for sum in sums {
        if *sum < count {
            let k = numbers[*sum as usize] as usize;
            if k < ranks.len() {
                counts[k] += 1;
            }
        }
    }
    Ok(counts)
}

/// The tables of the members with these indices.
pub fn tables_of<F: Field, D: OrderDomain>(
    alloc: Global,
    f: &F,
    dom: &D,
    ranks: &[u32],
) -> Result<Tables, AllocError>
    requires bits { F.bits_of f.now ≡ (D.domain dom.now).bits }
    requires few { length ranks.now ≤ 1024 }
    requires below { (k : ℕ) → k < length ranks.now →
        slice_index ranks.now k < (D.domain dom.now).count }
    requires rising { (j k : ℕ) → j < k → k < length ranks.now →
        slice_index ranks.now j < slice_index ranks.now k }
    ensures { IfOk result (λ t. AreTables (D.domain dom.now) (F.modulus_of f.now) ranks.now
        t.labels.items t.pair_counts.items t.sums.items t.leads.items) }
{
    let sums = sums_of(alloc, dom, ranks)?;
    Ok(Tables {
        labels: labels_of(alloc, dom, ranks)?,
        pair_counts: pair_counts_of(alloc, dom.count(), ranks, &sums)?,
        leads: leads_of(alloc, f, dom, ranks)?,
        sums,
    })
}
