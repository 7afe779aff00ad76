//! Solutions of linear equations.

ghost use Rattle.std.specs.Prelude.{◌≡◌, ◌≢◌, ℕ, ◌+◌, ◌*◌, ◌<◌, ◌≤◌, ◌^◌, length, slice_index, List, All, IfOk, MatchOption};
ghost use Rattle.std.specs.Bool.{OnTrue, OnFalse};
ghost use Rattle.gf_theory.specs.Field.{gf_mul};
ghost use Rattle.linear_theory.specs.Linear.{dot, IsReduced, IsFree};
ghost use Rattle.gf_linear.specs.Cells.{cell};
ghost use Rattle.gf_linear.specs.Matrix.{IsOver};
ghost use Rattle.gf_linear.specs.Elimination.{IsSolution, HasFreeZeros, beside_column};

use crate::elimination::{lead_of, reduce};
use crate::matrix::Matrix;
use gf_field::Field;
use std::alloc::{AllocError, Global};

// The row becomes the left side of an equation, followed by its right side.
fn join_side(row: &mut [u8], left: &[u8], right: u8)
    requires wide { length row.old ≡ length left.now + 1 }
    ensures { (p : ℕ) → p < length row.old →
        slice_index row.new p ≡ beside_column (λ _. slice_index left.now) (length left.now)
        (λ _. right) 0 p }
{
    let n = left.len();
    row[..n].copy_from_slice(left);
    row[n] = right;
}

// The matrix with the right sides as a column to its right.
fn join_sides(entries: &[u8], rhs: &[u8], cols: usize, joined: &mut [u8])
    requires small { cols ≤ 2048 }
    requires fits { length entries.now ≡ length rhs.now * cols }
    requires wide { length joined.old ≡ length rhs.now * (cols + 1) }
    ensures { (i p : ℕ) → i < length rhs.now → p < cols + 1 →
        cell joined.new (cols + 1) i p
        ≡ beside_column (cell entries.now cols) cols (slice_index rhs.now) i p }
{
    let wide = cols + 1;
    for i in 0..rhs.len() {
        join_side(
            &mut joined[i * wide..i * wide + wide],
            &entries[i * cols..i * cols + cols],
            rhs[i],
        );
    }
}

// Reads the solution off the reduced form with `count` pivots: at each pivot the last entry of its row, and 0 elsewhere.
// `false` where a pivot stands in the column of the right sides.
fn read_solution(joined: &[u8], rows: usize, count: usize, x: &mut [u8]) -> bool
    requires small { length x.old ≤ 2048 }
    requires fits { length joined.now ≡ rows * (length x.old + 1) }
    requires few { count ≤ rows }
    requires zero { (j : ℕ) → slice_index x.old j ≡ 0 }
    ensures none { OnFalse result ((h : IsReduced (length x.old + 1)
        (cell joined.now (length x.old + 1)) rows count) → (t : ℕ) × (t < count)
        × (h.pivots t ≡ length x.old)) }
    ensures low { OnTrue result ((h : IsReduced (length x.old + 1)
        (cell joined.now (length x.old + 1)) rows count) → (t : ℕ) → t < count →
        h.pivots t < length x.old) }
    ensures at_pivots { OnTrue result ((h : IsReduced (length x.old + 1)
        (cell joined.now (length x.old + 1)) rows count) → (t : ℕ) → t < count →
        slice_index x.new (h.pivots t) ≡ cell joined.now (length x.old + 1) t (length x.old)) }
    ensures elsewhere { OnTrue result ((h : IsReduced (length x.old + 1)
        (cell joined.now (length x.old + 1)) rows count) → (j : ℕ) →
        ((t : ℕ) → t < count → h.pivots t ≢ j) → slice_index x.new j ≡ 0) }
{
    let cols = x.len();
    let wide = cols + 1;
    for t in 0..count {
        let row = &joined[t * wide..t * wide + wide];
        let lead = lead_of(row);
        if lead >= cols {
            return false;
        }
        x[lead] = row[cols];
    }
    true
}

// Solves the equations, or answers `false` where they have no solution; `joined` is room.
fn find_solution<F: Field>(
    f: &F,
    entries: &[u8],
    rhs: &[u8],
    joined: &mut [u8],
    x: &mut [u8],
) -> bool
    requires small { length x.old ≤ 2048 }
    requires fits { length entries.now ≡ length rhs.now * length x.old }
    requires wide { length joined.old ≡ length rhs.now * (length x.old + 1) }
    requires zero { (j : ℕ) → slice_index x.old j ≡ 0 }
    requires entry_symbols { All (λ a. a < 2 ^ F.bits_of f.now) entries.now }
    requires rhs_symbols { All (λ a. a < 2 ^ F.bits_of f.now) rhs.now }
    ensures none { OnFalse result ((y : ℕ → ℕ) →
        ((i : ℕ) → i < length rhs.now →
        dot (gf_mul (F.bits_of f.now) (F.modulus_of f.now)) (length x.old)
        (cell entries.now (length x.old) i) y ≡ slice_index rhs.now i) → ⊥) }
    ensures solves { OnTrue result ((i : ℕ) → i < length rhs.now →
        dot (gf_mul (F.bits_of f.now) (F.modulus_of f.now)) (length x.old)
        (cell entries.now (length x.old) i) (slice_index x.new) ≡ slice_index rhs.now i) }
    ensures free { OnTrue result ((j : ℕ) → j < length x.old →
        IsFree (2 ^ F.bits_of f.now) (gf_mul (F.bits_of f.now) (F.modulus_of f.now))
        (cell entries.now (length x.old)) (length rhs.now) j → slice_index x.new j ≡ 0) }
    ensures symbols { OnTrue result (All (λ a. a < 2 ^ F.bits_of f.now) x.new) }
{
    let cols = x.len();
    join_sides(entries, rhs, cols, joined);
    let count = reduce(f, joined, rhs.len(), cols + 1, cols + 1);
    read_solution(joined, rhs.len(), count, x)
}

/// The list x whose product with each row is the right side of that row, and which is 0 at each place that has no pivot
/// in the reduced row echelon form. `None` exactly where no list has these products.
pub fn solve<F: Field>(
    alloc: Global,
    f: &F,
    m: &Matrix,
    rhs: &[u8],
) -> Result<Option<Vec<u8>>, AllocError>
    requires sides { length rhs.now ≡ length m.now.rows }
    requires entry_symbols { IsOver (F.bits_of f.now) m.now }
    requires rhs_symbols { All (λ a. a < 2 ^ F.bits_of f.now) rhs.now }
    ensures solved { IfOk result (λ o. MatchOption o
        ((x : List ℕ) → IsSolution (F.bits_of f.now) (F.modulus_of f.now) m.now rhs.now x → ⊥)
        (λ x. IsSolution (F.bits_of f.now) (F.modulus_of f.now) m.now rhs.now x.items)) }
    ensures free { IfOk result (λ o. MatchOption o (Unit {0})
        (λ x. HasFreeZeros (F.bits_of f.now) (F.modulus_of f.now) m.now x.items)) }
{
    let cols = m.cols as usize;
    let mut joined = vec![in alloc; 0; rhs.len() * (cols + 1)]?;
    let mut x = vec![in alloc; 0; cols]?;
    if find_solution(f, &m.entries, rhs, &mut joined, &mut x) {
        Ok(Some(x))
    } else {
        Ok(None)
    }
}
