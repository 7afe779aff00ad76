//! The reduced row echelon form, in place, of a matrix that is stored row by row.

ghost use Rattle.std.specs.Prelude.{◌≡◌, ◌≢◌, ℕ, ◌+◌, ◌*◌, ◌<◌, ◌≤◌, ◌^◌, length, slice_index, bit_xor, All};
ghost use Rattle.gf_theory.specs.Field.{gf_mul};
ghost use Rattle.linear_theory.specs.Linear.{SameSpan, IsReduced};
ghost use Rattle.gf_linear.specs.Cells.{cell, AreKept};

use crate::lists::add_scaled;
use crate::rows::clear_others;
use gf_field::Field;

// The first row from `k` on whose entry in column `j` is not 0, or `rows`.
fn find_pivot(m: &[u8], rows: usize, cols: usize, k: usize, j: usize) -> usize
    requires fits { length m.now ≡ rows * cols }
    requires k_in { k ≤ rows }
    requires j_in { j < cols }
    ensures above { k ≤ result }
    ensures within { result ≤ rows }
    ensures before { (i : ℕ) → k ≤ i → i < result → cell m.now cols i j ≡ 0 }
    ensures found { result < rows → cell m.now cols result j ≢ 0 }
{
    for i in k..rows {
        if m[i * cols + j] != 0 {
            return i;
        }
    }
    rows
}

/// The first place at which the row is not 0, or its length.
pub fn lead_of(row: &[u8]) -> usize
    ensures within { result ≤ length row.now }
    ensures before { (p : ℕ) → p < result → slice_index row.now p ≡ 0 }
    ensures found { result < length row.now → slice_index row.now result ≢ 0 }
{
    for (p, entry) in row.iter().enumerate() {
        if *entry != 0 {
            return p;
        }
    }
    row.len()
}

// Adds row `p` to row `k`, which stands above it.
fn add_row<F: Field>(f: &F, m: &mut [u8], rows: usize, cols: usize, k: usize, p: usize)
    requires fits { length m.old ≡ rows * cols }
    requires above { k < p }
    requires within { p < rows }
    requires symbols { All (λ a. a < 2 ^ F.bits_of f.now) m.old }
    ensures row { (j : ℕ) → j < cols → cell m.new cols k j
        ≡ bit_xor (cell m.old cols k j)
        (gf_mul (F.bits_of f.now) (F.modulus_of f.now) 1 (cell m.old cols p j)) }
    ensures kept { AreKept rows cols (λ q. q ≢ k) m.old m.new }
    ensures symbols { All (λ a. a < 2 ^ F.bits_of f.now) m.new }
{
    let (_above, rest) = m.split_at_mut(k * cols);
    let (row, below) = rest.split_at_mut(cols);
    let start = (p - k - 1) * cols;
    add_scaled(f, row, 1, &below[start..start + cols]);
}

// Makes the entry at row `k`, column `j` other than 0, where row `p` is the first from row `k` on with such an entry there.
fn raise<F: Field>(f: &F, m: &mut [u8], rows: usize, cols: usize, k: usize, j: usize, p: usize)
    requires fits { length m.old ≡ rows * cols }
    requires k_in { k ≤ p }
    requires p_in { p < rows }
    requires j_in { j < cols }
    requires symbols { All (λ a. a < 2 ^ F.bits_of f.now) m.old }
    requires before { (i : ℕ) → k ≤ i → i < p → cell m.old cols i j ≡ 0 }
    requires found { cell m.old cols p j ≢ 0 }
    requires zeros { (i q : ℕ) → k ≤ i → i < rows → q < j → cell m.old cols i q ≡ 0 }
    ensures pivot { cell m.new cols k j ≢ 0 }
    ensures zeros { (i q : ℕ) → k ≤ i → i < rows → q < j → cell m.new cols i q ≡ 0 }
    ensures kept { AreKept rows cols (λ q. q < k) m.old m.new }
    ensures span { SameSpan (gf_mul (F.bits_of f.now) (F.modulus_of f.now)) cols (cell m.old cols)
        rows (cell m.new cols) rows }
    ensures symbols { All (λ a. a < 2 ^ F.bits_of f.now) m.new }
{
    if p != k {
        add_row(f, m, rows, cols, k, p);
    }
}

// The row becomes `x` times itself.
fn scale_row<F: Field>(f: &F, row: &mut [u8], x: u8)
    requires factor { x < 2 ^ F.bits_of f.now }
    requires symbols { All (λ a. a < 2 ^ F.bits_of f.now) row.old }
    ensures value { (p : ℕ) → p < length row.old →
        slice_index row.new p ≡ gf_mul (F.bits_of f.now) (F.modulus_of f.now) x
        (slice_index row.old p) }
    ensures symbols { All (λ a. a < 2 ^ F.bits_of f.now) row.new }
{
    for p in 0..row.len() {
        row[p] = f.mul(x, row[p]);
    }
}

// Makes the entry at row `k`, column `j` 1.
fn make_one<F: Field>(f: &F, m: &mut [u8], rows: usize, cols: usize, k: usize, j: usize)
    requires fits { length m.old ≡ rows * cols }
    requires k_in { k < rows }
    requires j_in { j < cols }
    requires symbols { All (λ a. a < 2 ^ F.bits_of f.now) m.old }
    requires pivot { cell m.old cols k j ≢ 0 }
    requires zeros { (i q : ℕ) → k ≤ i → i < rows → q < j → cell m.old cols i q ≡ 0 }
    ensures one { cell m.new cols k j ≡ 1 }
    ensures zeros { (i q : ℕ) → k ≤ i → i < rows → q < j → cell m.new cols i q ≡ 0 }
    ensures kept { AreKept rows cols (λ q. q ≢ k) m.old m.new }
    ensures span { SameSpan (gf_mul (F.bits_of f.now) (F.modulus_of f.now)) cols (cell m.old cols)
        rows (cell m.new cols) rows }
    ensures symbols { All (λ a. a < 2 ^ F.bits_of f.now) m.new }
{
    let inverse = f.inv(m[k * cols + j]);
    scale_row(f, &mut m[k * cols..k * cols + cols], inverse);
}

// Reduces column `j`, where the columns before it are reduced and have `k` pivots. Answers the number of pivots.
fn reduce_column<F: Field>(
    f: &F,
    m: &mut [u8],
    rows: usize,
    cols: usize,
    k: usize,
    j: usize,
) -> usize
    requires fits { length m.old ≡ rows * cols }
    requires j_in { j < cols }
    requires symbols { All (λ a. a < 2 ^ F.bits_of f.now) m.old }
    requires reduced { IsReduced j (cell m.old cols) rows k }
    ensures reduced { IsReduced (j + 1) (cell m.new cols) rows result }
    ensures span { SameSpan (gf_mul (F.bits_of f.now) (F.modulus_of f.now)) cols (cell m.old cols)
        rows (cell m.new cols) rows }
    ensures symbols { All (λ a. a < 2 ^ F.bits_of f.now) m.new }
{
    let p = find_pivot(m, rows, cols, k, j);
    if p == rows {
        return k;
    }
    raise(f, m, rows, cols, k, j, p);
    make_one(f, m, rows, cols, k, j);
    clear_others(f, m, rows, cols, k, j, j);
    k + 1
}

/// Reduces the first `width` columns by operations on whole rows. Answers the number of pivots.
pub fn reduce<F: Field>(f: &F, m: &mut [u8], rows: usize, cols: usize, width: usize) -> usize
    requires fits { length m.old ≡ rows * cols }
    requires width_in { width ≤ cols }
    requires symbols { All (λ a. a < 2 ^ F.bits_of f.now) m.old }
    ensures reduced { IsReduced width (cell m.new cols) rows result }
    ensures span { SameSpan (gf_mul (F.bits_of f.now) (F.modulus_of f.now)) cols (cell m.old cols)
        rows (cell m.new cols) rows }
    ensures symbols { All (λ a. a < 2 ^ F.bits_of f.now) m.new }
{
    let mut k: usize = 0;
    for j in 0..width {
        k = reduce_column(f, m, rows, cols, k, j);
    }
    k
}
