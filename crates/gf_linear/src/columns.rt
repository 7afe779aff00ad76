//! A column is cleared in threads.

ghost use Rattle.std.specs.Prelude.{◌≡◌, ◌≢◌, ℕ, ◌*◌, ◌<◌, ◌≤◌, ◌^◌, length, slice_index, bit_xor, All};
ghost use Rattle.gf_theory.specs.Field.{gf_mul};
ghost use Rattle.gf_linear.specs.Cells.{cell, AreKept};

use crate::rows::clear_row;
use ag_pool::{RowWork, Workers, each_row};
use gf_field::Field;
use std::thread::Threads;

// Adds to a row its entry at `col` times the pivot row.
#[derive(Drop)]
struct Clearing<'a, F: Field + Sync> {
    field: &'a F,
    pivot: &'a [u8],
    col: usize,
}

impl<'a, F: Field + Sync> RowWork for Clearing<'a, F> {
    ghost use Rattle.std.specs.Prelude.{◌≡◌, ◌<◌, ◌^◌, length, slice_index, All};
    ghost use Rattle.gf_theory.specs.Field.{gf_mul};
    ghost use Rattle.gf_linear.specs.Elimination.{plus_multiple};

    ghost ready = { λ w row. (length row ≡ length w.pivot.now) × (w.col < length row)
        × All (λ a. a < 2 ^ F.bits_of w.field.now) row
        × All (λ a. a < 2 ^ F.bits_of w.field.now) w.pivot.now };

    ghost after = { λ w _ row. plus_multiple (gf_mul (F.bits_of w.field.now)
        (F.modulus_of w.field.now)) (slice_index row w.col) row w.pivot.now };

    fn act(&self, _index: u32, row: &mut [u8]) {
        clear_row(self.field, row, self.col, 0, self.pivot);
    }
}

// Clears each of these rows, in at most so many threads as there are workers.
fn clear_band<X: Threads + Sync, F: Field + Sync>(
    rt: &X,
    f: &F,
    block: &mut [u8],
    rows: u32,
    cols: u32,
    col: u32,
    pivot: &[u8],
    workers: Workers,
)
    requires wide { length pivot.now ≡ cols }
    requires fits { length block.old ≡ rows * cols }
    requires col_in { col < cols }
    requires block_symbols { All (λ a. a < 2 ^ F.bits_of f.now) block.old }
    requires pivot_symbols { All (λ a. a < 2 ^ F.bits_of f.now) pivot.now }
    ensures { (q p : ℕ) → q < rows → p < cols →
        cell block.new cols q p ≡ bit_xor (cell block.old cols q p)
        (gf_mul (F.bits_of f.now) (F.modulus_of f.now) (cell block.old cols q col)
        (slice_index pivot.now p)) }
{
    let work = Clearing {
        field: f,
        pivot,
        col: col as usize,
    };
    each_row(rt, &work, block, rows, cols, workers);
}

/// Clears all rows but row `k`, in at most so many threads as there are workers for the rows above it, and as many for
/// those below it.
pub fn clear_in_threads<X: Threads + Sync, F: Field + Sync>(
    rt: &X,
    f: &F,
    m: &mut [u8],
    rows: u32,
    cols: u32,
    k: u32,
    col: u32,
    workers: Workers,
)
    requires fits { length m.old ≡ rows * cols }
    requires k_in { k < rows }
    requires col_in { col < cols }
    requires symbols { All (λ a. a < 2 ^ F.bits_of f.now) m.old }
    ensures value { (q p : ℕ) → q < rows → q ≢ k → p < cols →
        cell m.new cols q p ≡ bit_xor (cell m.old cols q p)
        (gf_mul (F.bits_of f.now) (F.modulus_of f.now) (cell m.old cols q col)
        (cell m.old cols k p)) }
    ensures kept { AreKept rows cols (λ q. q ≡ k) m.old m.new }
    ensures long { length m.new ≡ length m.old }
{
    let (above, rest) = m.split_at_mut(k as usize * cols as usize);
    let (pivot, below) = rest.split_at_mut(cols as usize);
    clear_band(rt, f, above, k, cols, col, pivot, workers);
    clear_band(rt, f, below, rows - k - 1, cols, col, pivot, workers);
}
