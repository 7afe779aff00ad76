//! The dual list of a square matrix.

ghost use Rattle.std.specs.Prelude.{◌≡◌, ℕ, ◌+◌, ◌*◌, ◌<◌, ◌≤◌, ◌^◌, length, slice_index, All, IfOk, MatchOption};
ghost use Rattle.std.specs.Bool.{OnTrue, OnFalse};
ghost use Rattle.gf_theory.specs.Field.{gf_mul};
ghost use Rattle.linear_theory.specs.Linear.{AreIndependent, IsDual};
ghost use Rattle.gf_linear.specs.Cells.{cell};
ghost use Rattle.gf_linear.specs.Matrix.{IsOver};
ghost use Rattle.gf_linear.specs.Elimination.{AreDependent, IsDualOf, beside_unit};

use crate::elimination::reduce;
use crate::matrix::Matrix;
use gf_field::Field;
use std::alloc::{AllocError, Global};

// The row becomes row `i` of a matrix, followed by row `i` of the unit matrix.
fn join_row(row: &mut [u8], left: &[u8], i: usize)
    requires wide { length row.old ≡ length left.now + length left.now }
    requires i_in { i < length left.now }
    ensures { (p : ℕ) → p < length row.old →
        slice_index row.new p ≡ beside_unit (λ _. slice_index left.now) (length left.now) i p }
{
    let n = left.len();
    row[..n].copy_from_slice(left);
    row[n..].fill(0);
    row[n + i] = 1;
}

// The matrix with the unit matrix to its right.
fn join_unit(entries: &[u8], n: usize, joined: &mut [u8])
    requires small { n ≤ 1024 }
    requires fits { length entries.now ≡ n * n }
    requires wide { length joined.old ≡ n * (n + n) }
    ensures { (i p : ℕ) → i < n → p < n + n →
        cell joined.new (n + n) i p ≡ beside_unit (cell entries.now n) n i p }
{
    let cols = n + n;
    for i in 0..n {
        join_row(
            &mut joined[i * cols..i * cols + cols],
            &entries[i * n..i * n + n],
            i,
        );
    }
}

// The row becomes column `i` of the right half.
fn read_column(joined: &[u8], i: usize, row: &mut [u8])
    requires small { length row.old ≤ 1024 }
    requires fits { length joined.now ≡ length row.old * (length row.old + length row.old) }
    requires i_in { i < length row.old }
    ensures { (j : ℕ) → j < length row.old →
        slice_index row.new j ≡ cell joined.now (length row.old + length row.old) j
        (length row.old + i) }
{
    let n = row.len();
    for j in 0..n {
        row[j] = joined[j * (n + n) + (n + i)];
    }
}

// The matrix whose rows are the columns of the right half.
fn read_columns(joined: &[u8], n: usize, entries: &mut [u8])
    requires small { n ≤ 1024 }
    requires fits { length joined.now ≡ n * (n + n) }
    requires room { length entries.old ≡ n * n }
    ensures { (i j : ℕ) → i < n → j < n → cell entries.new n i j
        ≡ cell joined.now (n + n) j (n + i) }
{
    for i in 0..n {
        read_column(joined, i, &mut entries[i * n..i * n + n]);
    }
}

// Whether the `n` rows of `n` entries are independent. If they are, `duals` becomes their dual list; `joined` is room.
fn find_duals<F: Field>(
    f: &F,
    entries: &[u8],
    n: usize,
    joined: &mut [u8],
    duals: &mut [u8],
) -> bool
    requires small { n ≤ 1024 }
    requires fits { length entries.now ≡ n * n }
    requires wide { length joined.old ≡ n * (n + n) }
    requires room { length duals.old ≡ n * n }
    requires symbols { All (λ a. a < 2 ^ F.bits_of f.now) entries.now }
    ensures dependent { OnFalse result (AreIndependent (2 ^ F.bits_of f.now)
        (gf_mul (F.bits_of f.now) (F.modulus_of f.now)) n (cell entries.now n) n → ⊥) }
    ensures dual { OnTrue result (IsDual (gf_mul (F.bits_of f.now) (F.modulus_of f.now)) n
        (cell entries.now n) (cell duals.new n)) }
    ensures symbols { OnTrue result (All (λ a. a < 2 ^ F.bits_of f.now) duals.new) }
{
    join_unit(entries, n, joined);
    if reduce(f, joined, n, n + n, n) < n {
        return false;
    }
    read_columns(joined, n, duals);
    true
}

/// The dual list of the rows of a square matrix: the matrix whose row i has product 1 with row i and 0 with each other
/// row. `None` exactly where the rows are dependent.
pub fn dual_of<F: Field>(alloc: Global, f: &F, m: &Matrix) -> Result<Option<Matrix>, AllocError>
    requires square { length m.now.rows ≡ m.now.cols }
    requires symbols { IsOver (F.bits_of f.now) m.now }
    ensures { IfOk result (λ o. MatchOption o
        (AreDependent (F.bits_of f.now) (F.modulus_of f.now) m.now)
        (IsDualOf (F.bits_of f.now) (F.modulus_of f.now) m.now)) }
{
    let n = m.rows as usize;
    let mut joined = vec![in alloc; 0; n * (n + n)]?;
    let mut entries = vec![in alloc; 0; n * n]?;
    if !find_duals(f, &m.entries, n, &mut joined, &mut entries) {
        return Ok(None);
    }
    Ok(Some(Matrix {
        rows: m.rows,
        cols: m.cols,
        entries,
    }))
}
