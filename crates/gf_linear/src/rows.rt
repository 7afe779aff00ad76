//! Steps on the rows of a matrix that is stored row by row.

ghost use Rattle.std.specs.Prelude.{◌≡◌, ◌≢◌, ℕ, ◌+◌, ◌*◌, ◌<◌, ◌≤◌, ◌^◌, length, slice_index, bit_xor, All};
ghost use Rattle.gf_theory.specs.Field.{gf_mul};
ghost use Rattle.gf_linear.specs.Cells.{cell, AreKept};

use crate::lists::add_scaled;
use gf_field::Field;

// Adds to a row its entry at `col` times the pivot row, which is 0 before `from`.
pub fn clear_row<F: Field>(f: &F, row: &mut [u8], col: usize, from: usize, pivot: &[u8])
    requires same { length row.old ≡ length pivot.now }
    requires col_in { col < length row.old }
    requires from_in { from ≤ length row.old }
    requires zeros { (p : ℕ) → p < from → slice_index pivot.now p ≡ 0 }
    requires row_symbols { All (λ a. a < 2 ^ F.bits_of f.now) row.old }
    requires pivot_symbols { All (λ a. a < 2 ^ F.bits_of f.now) pivot.now }
    ensures value { (p : ℕ) → p < length row.old →
        slice_index row.new p ≡ bit_xor (slice_index row.old p)
        (gf_mul (F.bits_of f.now) (F.modulus_of f.now) (slice_index row.old col)
        (slice_index pivot.now p)) }
    ensures symbols { All (λ a. a < 2 ^ F.bits_of f.now) row.new }
{
    let factor = row[col];
    add_scaled(f, &mut row[from..], factor, &pivot[from..]);
}

// Clears each of these rows.
pub fn clear_rows<F: Field>(
    f: &F,
    block: &mut [u8],
    rows: usize,
    col: usize,
    from: usize,
    pivot: &[u8],
)
    requires fits { length block.old ≡ rows * length pivot.now }
    requires col_in { col < length pivot.now }
    requires from_in { from ≤ length pivot.now }
    requires zeros { (p : ℕ) → p < from → slice_index pivot.now p ≡ 0 }
    requires block_symbols { All (λ a. a < 2 ^ F.bits_of f.now) block.old }
    requires pivot_symbols { All (λ a. a < 2 ^ F.bits_of f.now) pivot.now }
    ensures value { (q p : ℕ) → q < rows → p < length pivot.now →
        cell block.new (length pivot.now) q p
        ≡ bit_xor (cell block.old (length pivot.now) q p)
        (gf_mul (F.bits_of f.now) (F.modulus_of f.now) (cell block.old (length pivot.now) q col)
        (slice_index pivot.now p)) }
    ensures symbols { All (λ a. a < 2 ^ F.bits_of f.now) block.new }
{
    let cols = pivot.len();
    for q in 0..rows {
        clear_row(f, &mut block[q * cols..q * cols + cols], col, from, pivot);
    }
}

// Clears all rows but row `k`.
pub fn clear_others<F: Field>(
    f: &F,
    m: &mut [u8],
    rows: usize,
    cols: usize,
    k: usize,
    col: usize,
    from: usize,
)
    requires fits { length m.old ≡ rows * cols }
    requires k_in { k < rows }
    requires col_in { col < cols }
    requires from_in { from ≤ cols }
    requires zeros { (p : ℕ) → p < from → cell m.old cols k p ≡ 0 }
    requires symbols { All (λ a. a < 2 ^ F.bits_of f.now) m.old }
    ensures value { (q p : ℕ) → q < rows → q ≢ k → p < cols →
        cell m.new cols q p ≡ bit_xor (cell m.old cols q p)
        (gf_mul (F.bits_of f.now) (F.modulus_of f.now) (cell m.old cols q col)
        (cell m.old cols k p)) }
    ensures kept { AreKept rows cols (λ q. q ≡ k) m.old m.new }
    ensures symbols { All (λ a. a < 2 ^ F.bits_of f.now) m.new }
{
    let (above, rest) = m.split_at_mut(k * cols);
    let (pivot, below) = rest.split_at_mut(cols);
    clear_rows(f, above, k, col, from, pivot);
    clear_rows(f, below, rows - k - 1, col, from, pivot);
}
