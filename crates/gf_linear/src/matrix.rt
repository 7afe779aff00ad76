ghost use Rattle.std.specs.Prelude.{◌≡◌, ◌≢◌, ℕ, ◌*◌, ◌<◌, ◌≤◌, ◌^◌, length, slice_index, bit_xor, All, IfOk};
ghost use Rattle.linear_theory.specs.Linear.{combine};
ghost use Rattle.gf_theory.specs.Field.{gf_mul};
ghost use Rattle.gf_linear.specs.Matrix.{entry, row as row_of, IsMatrix, IsOver, zero_matrix, with_row, with_entry};

use crate::columns::clear_in_threads;
use crate::combining::combine_rows;
use ag_pool::Workers;
use gf_field::Field;
use std::alloc::{AllocError, Global};
use std::marker::Model;
use std::thread::Threads;

/// A matrix of bytes, stored row by row.
#[derive(Drop)]
pub struct Matrix {
    pub(crate) rows: u32,
    pub(crate) cols: u32,
    pub(crate) entries: Vec<u8>,
}

impl Model for Matrix {
    ghost use Rattle.std.specs.Prelude.{◌≡◌, ℕ, ◌*◌, ◌≤◌, length};
    ghost use Rattle.gf_linear.specs.Matrix.{Matrix, matrix_of};

    ghost Value = { Matrix };

    ghost view = { λ a. matrix_of a.rows a.cols a.entries.items };

    ghost invariant = { λ a. (a.rows ≤ 1024) × (a.cols ≤ 2048)
        × (length a.entries.items ≡ a.rows * a.cols) };
}

impl Matrix {
    /// The matrix of this size whose entries are 0.
    pub fn new(alloc: Global, rows: u32, cols: u32) -> Result<Matrix, AllocError>
        requires few_rows { rows ≤ 1024 }
        requires few_cols { cols ≤ 2048 }
        ensures { IfOk result (λ m. m ≡ zero_matrix rows cols) }
    {
        Ok(Matrix {
            rows,
            cols,
            entries: vec![in alloc; 0; rows as usize * cols as usize]?,
        })
    }

    /// The number of rows.
    pub fn rows(&self) -> u32
        ensures rows { result ≡ length self.now.rows }
        ensures sound { IsMatrix self.now }
    {
        self.rows
    }

    /// The number of columns.
    pub fn cols(&self) -> u32
        ensures cols { result ≡ self.now.cols }
        ensures sound { IsMatrix self.now }
    {
        self.cols
    }

    /// Row `i`.
    pub fn row(&self, i: u32) -> &[u8]
        requires { i < length self.now.rows }
        ensures row { result.now ≡ row_of self.now i }
        ensures width { length result.now ≡ self.now.cols }
    {
        let start = i as usize * self.cols as usize;
        &self.entries[start..start + self.cols as usize]
    }

    /// The entry at row `i`, column `j` becomes `v`.
    pub fn set(&mut self, i: u32, j: u32, v: u8)
        requires row { i < length self.old.rows }
        requires column { j < self.old.cols }
        ensures { self.new ≡ with_entry self.old i j v }
    {
        self.entries[i as usize * self.cols as usize + j as usize] = v;
    }

    /// Row `i` becomes this list.
    pub fn set_row(&mut self, i: u32, entries: &[u8])
        requires row { i < length self.old.rows }
        requires width { length entries.now ≡ self.old.cols }
        ensures { self.new ≡ with_row self.old i entries.now }
    {
        let start = i as usize * self.cols as usize;
        self.entries[start..start + self.cols as usize].copy_from_slice(entries);
    }

    /// Makes `sum` the sum of the rows, each times its factor.
    pub fn combine<F: Field>(&self, f: &F, factors: &[u8], sum: &mut [u8])
        requires count { length factors.now ≡ length self.now.rows }
        requires factors { All (λ a. a < 2 ^ F.bits_of f.now) factors.now }
        requires over { IsOver (F.bits_of f.now) self.now }
        requires width { length sum.old ≡ self.now.cols }
        ensures value { (q : ℕ) → q < length sum.old →
            slice_index sum.new q ≡ combine (gf_mul (F.bits_of f.now) (F.modulus_of f.now))
            (length self.now.rows) (slice_index factors.now) (entry self.now) q }
        ensures symbols { All (λ a. a < 2 ^ F.bits_of f.now) sum.new }
    {
        combine_rows(f, factors, &self.entries, sum);
    }

    /// Each row other than row `pivot` becomes itself plus its entry at `col` times row `pivot`, so that it is 0 at `col`;
    /// row `pivot` stays. It works in at most so many threads as there are workers, and takes no memory.
    pub fn clear_column<X: Threads + Sync, F: Field + Sync>(
        &mut self,
        rt: &X,
        f: &F,
        pivot: u32,
        col: u32,
        workers: Workers,
    )
        requires pivot_in { pivot < length self.old.rows }
        requires col_in { col < self.old.cols }
        requires one { entry self.old pivot col ≡ 1 }
        requires symbols { IsOver (F.bits_of f.now) self.old }
        ensures others { (q p : ℕ) → q < length self.old.rows → q ≢ pivot → p < self.old.cols →
            entry self.new q p ≡ bit_xor (entry self.old q p)
            (gf_mul (F.bits_of f.now) (F.modulus_of f.now) (entry self.old q col)
            (entry self.old pivot p)) }
        ensures cleared { (q : ℕ) → q < length self.old.rows → q ≢ pivot →
            entry self.new q col ≡ 0 }
        ensures kept { row_of self.new pivot ≡ row_of self.old pivot }
        ensures symbols { IsOver (F.bits_of f.now) self.new }
        ensures same_rows { length self.new.rows ≡ length self.old.rows }
        ensures same_cols { self.new.cols ≡ self.old.cols }
    {
        f.bits();
        clear_in_threads(
            rt,
            f,
            &mut self.entries,
            self.rows,
            self.cols,
            pivot,
            col,
            workers,
        );
    }
}
