//! The first rows and columns of a matrix: their rank, and the value of an entry that keeps it. A room takes the part, so
//! that no memory is taken.

ghost use Rattle.std.specs.Prelude.{◌≡◌, ℕ, ◌+◌, ◌-◌, ◌*◌, ◌<◌, ◌≤◌, ◌^◌, length, slice_index, All};
ghost use Rattle.gf_theory.specs.Field.{gf_mul};
ghost use Rattle.linear_theory.specs.Linear.{rank as rank_of, IsReduced, IsCandidate, KeepsRank};
ghost use Rattle.gf_linear.specs.Cells.{cell};
ghost use Rattle.gf_linear.specs.Matrix.{entry, IsOver};
ghost use Rattle.gf_linear.specs.Elimination.{residue_of};

use crate::elimination::{lead_of, reduce};
use crate::matrix::Matrix;
use gf_field::Field;

// The first `cols` columns of the first `rows` rows, without gaps between the rows.
fn copy_part(m: &Matrix, rows: u32, cols: usize, part: &mut [u8])
    requires rows_in { rows ≤ length m.now.rows }
    requires cols_in { cols ≤ m.now.cols }
    requires fits { length part.old ≡ rows * cols }
    ensures { (i j : ℕ) → i < rows → j < cols → cell part.new cols i j ≡ entry m.now i j }
{
    for i in 0..rows {
        let start = i as usize * cols;
        part[start..start + cols].copy_from_slice(&m.row(i)[..cols]);
    }
}

/// The rank of the first `rows` rows and the first `cols` columns. The room has at least as many rows and columns as the
/// matrix, and its entries are open afterwards.
pub fn part_rank<F: Field>(f: &F, m: &Matrix, rows: u32, cols: u32, room: &mut Matrix) -> u32
    requires rows_in { rows ≤ length m.now.rows }
    requires cols_in { cols ≤ m.now.cols }
    requires room_rows { length m.now.rows ≤ length room.old.rows }
    requires room_cols { m.now.cols ≤ room.old.cols }
    requires symbols { IsOver (F.bits_of f.now) m.now }
    ensures value { result ≡ rank_of (2 ^ F.bits_of f.now)
        (gf_mul (F.bits_of f.now) (F.modulus_of f.now)) cols (entry m.now) rows }
    ensures same_rows { length room.new.rows ≡ length room.old.rows }
    ensures same_cols { room.new.cols ≡ room.old.cols }
{
    let width = cols as usize;
    let part = &mut room.entries[..rows as usize * width];
    copy_part(m, rows, width, part);
    reduce(f, part, rows as usize, width, width) as u32
}

// The entries of the last column at the rows with a pivot, each times the entry of `row` at that pivot, in sum.
fn residue<F: Field>(f: &F, part: &[u8], rows: usize, cols: usize, count: usize, row: &[u8]) -> u8
    requires fits { length part.now ≡ rows * cols }
    requires some { 0 < cols }
    requires wide { cols ≤ length row.now }
    requires part_symbols { All (λ a. a < 2 ^ F.bits_of f.now) part.now }
    requires row_symbols { All (λ a. a < 2 ^ F.bits_of f.now) row.now }
    requires reduced { IsReduced cols (cell part.now cols) rows count }
    ensures value { (h : IsReduced cols (cell part.now cols) rows count) →
        result ≡ residue_of (gf_mul (F.bits_of f.now) (F.modulus_of f.now)) count h.pivots
        (slice_index row.now) (cell part.now cols) (cols - 1) }
    ensures symbol { result < 2 ^ F.bits_of f.now }
{
    let mut sum: u8 = 0;
    for t in 0..count {
        let reduced = &part[t * cols..t * cols + cols];
        let lead = lead_of(reduced);
        sum = f.add(sum, f.mul(row[lead], reduced[cols - 1]));
    }
    sum
}

/// The one value at row `i`, column `j` with which the first i + 1 rows and j + 1 columns have the rank of the first i rows
/// and j columns. The room is that of `part_rank`.
pub fn part_residue<F: Field>(f: &F, m: &Matrix, i: u32, j: u32, room: &mut Matrix) -> u8
    requires row_in { i < length m.now.rows }
    requires col_in { j < m.now.cols }
    requires room_rows { length m.now.rows ≤ length room.old.rows }
    requires room_cols { m.now.cols ≤ room.old.cols }
    requires symbols { IsOver (F.bits_of f.now) m.now }
    requires candidate { IsCandidate (2 ^ F.bits_of f.now)
        (gf_mul (F.bits_of f.now) (F.modulus_of f.now)) (entry m.now) i j }
    ensures keeps { KeepsRank (2 ^ F.bits_of f.now) (gf_mul (F.bits_of f.now) (F.modulus_of f.now))
        (entry m.now) i j result }
    ensures only { (x : ℕ) → x < 2 ^ F.bits_of f.now →
        KeepsRank (2 ^ F.bits_of f.now) (gf_mul (F.bits_of f.now) (F.modulus_of f.now))
        (entry m.now) i j x → x ≡ result }
    ensures symbol { result < 2 ^ F.bits_of f.now }
    ensures same_rows { length room.new.rows ≡ length room.old.rows }
    ensures same_cols { room.new.cols ≡ room.old.cols }
{
    let rows = i as usize;
    let width = j as usize + 1;
    let part = &mut room.entries[..rows * width];
    copy_part(m, i, width, part);
    let count = reduce(f, part, rows, width, width);
    residue(f, part, rows, width, count, m.row(i))
}
