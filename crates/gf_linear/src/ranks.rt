//! The rank and the reduced row echelon form of a matrix.

ghost use Rattle.std.specs.Prelude.{◌≡◌, ◌^◌, length, IfOk};
ghost use Rattle.gf_theory.specs.Field.{gf_mul};
ghost use Rattle.linear_theory.specs.Linear.{rank as rank_of, IsGreatestNumber};
ghost use Rattle.gf_linear.specs.Matrix.{entry, IsOver};
ghost use Rattle.gf_linear.specs.Elimination.{IsEchelonOf};

use crate::elimination::reduce;
use crate::matrix::Matrix;
use gf_field::Field;
use std::alloc::{AllocError, Global};

/// The reduced row echelon form: the pivot of a row is its first entry that is not 0, and it is 1; the pivots move to the
/// right from row to row; a column with a pivot is 0 in the other rows; the rows that are 0 come last. It has the rows'
/// combinations, and is the only such matrix.
pub fn echelon<F: Field>(alloc: Global, f: &F, m: &Matrix) -> Result<Matrix, AllocError>
    requires symbols { IsOver (F.bits_of f.now) m.now }
    ensures { IfOk result (IsEchelonOf (F.bits_of f.now) (F.modulus_of f.now) m.now) }
{
    let mut entries = Vec::from_slice(alloc, &m.entries)?;
    let width = m.cols as usize;
    reduce(f, &mut entries, m.rows as usize, width, width);
    Ok(Matrix {
        rows: m.rows,
        cols: m.cols,
        entries,
    })
}

/// The greatest number of independent rows.
pub fn rank<F: Field>(alloc: Global, f: &F, m: &Matrix) -> Result<u32, AllocError>
    requires symbols { IsOver (F.bits_of f.now) m.now }
    ensures value { IfOk result (λ k. k ≡ rank_of (2 ^ F.bits_of f.now)
        (gf_mul (F.bits_of f.now) (F.modulus_of f.now)) m.now.cols (entry m.now)
        (length m.now.rows)) }
    ensures greatest { IfOk result (IsGreatestNumber (2 ^ F.bits_of f.now)
        (gf_mul (F.bits_of f.now) (F.modulus_of f.now)) m.now.cols (entry m.now)
        (length m.now.rows)) }
{
    let mut entries = Vec::from_slice(alloc, &m.entries)?;
    let width = m.cols as usize;
    Ok(reduce(f, &mut entries, m.rows as usize, width, width) as u32)
}
