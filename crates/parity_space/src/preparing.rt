//! What a `Parity` is made of: the vectors of the checked members, the pivots of their reduced form from the last position
//! down, the message places, and the codewords of the messages with a single 1.

ghost use Rattle.std.specs.Prelude.{◌≡◌, ◌≢◌, ℕ, ◌+◌, ◌-◌, ◌<◌, ◌≤◌, List, length, slice_index, IfOk, drop};
ghost use Rattle.linear_theory.specs.Linear.{IsReduced};
ghost use Rattle.order_theory.specs.Basis.{IsWord};
ghost use Rattle.gf_linear.specs.Matrix.{row as row_of, entry};
ghost use Rattle.block_theory.specs.Marked.{chosen};
ghost use Rattle.parity_space.specs.Forms.{IsMirrorOf, HasPivots, free_places as free_places_of, IsUnitWord};

use eval_basis::{Checked, EvalBasis};
use gf_field::Field;
use gf_linear::Matrix;
use std::alloc::{AllocError, Global};

// A matrix whose rows are the vectors of the checked members.
pub fn checked_vectors<F: Field>(
    alloc: Global,
    basis: &EvalBasis<F>,
    checked: &Checked,
) -> Result<Matrix, AllocError>
    requires { length checked.now ≡ basis.now.n }
    ensures rows { IfOk result (λ m. m.rows ≡ chosen checked.now basis.now.vectors) }
    ensures cols { IfOk result (λ m. m.cols ≡ basis.now.n) }
    ensures words { IfOk result (λ m. (i : ℕ) → i < length m.rows →
        IsWord basis.now.bits basis.now.n (row_of m i)) }
{
    let mut vectors = Matrix::new(alloc, checked.size(), basis.n())?;
    let mut next = 0;
    for k in 0..basis.n() {
        if checked.holds(k) {
            vectors.set_row(next, basis.vector(k));
            next += 1;
        }
    }
    Ok(vectors)
}

// The matrix with each row in the opposite direction.
pub fn mirrored(alloc: Global, m: &Matrix) -> Result<Matrix, AllocError>
    ensures { IfOk result (IsMirrorOf m.now) }
{
    let mut mirror = Matrix::new(alloc, m.rows(), m.cols())?;
    let mut line = vec![in alloc; 0u8; m.cols() as usize]?;
    for i in 0..m.rows() {
        line.copy_from_slice(m.row(i));
        line.reverse();
        mirror.set_row(i, &line);
    }
    Ok(mirror)
}

// The pivots of a matrix in reduced row echelon form, rising.
pub fn pivots_of(alloc: Global, e: &Matrix) -> Result<Vec<u32>, AllocError>
    requires { (k : ℕ) × IsReduced e.now.cols (entry e.now) (length e.now.rows) k }
    ensures { IfOk result (λ v. HasPivots e.now v.items) }
{
    let mut pivots = Vec::new(alloc);
    for j in 0..e.cols() {
        let t = pivots.len() as u32;
        if t < e.rows() && e.row(t)[j as usize] != 0 {
            pivots.push(j)?;
        }
    }
    Ok(pivots)
}

// The positions whose columns, counted from the last position down, are no pivots, rising.
pub fn free_places(alloc: Global, e: &Matrix, pivots: &[u32]) -> Result<Vec<u32>, AllocError>
    requires { HasPivots e.now pivots.now }
    ensures places { IfOk result (λ v. v.items ≡ free_places_of e.now.cols pivots.now) }
    ensures count { IfOk result (λ v. length v.items + length pivots.now ≡ e.now.cols) }
{
    let n = e.cols();
    let mut places = Vec::new(alloc);
    let mut left = pivots.len();
    for p in 0..n {
        if left > 0 && pivots[left - 1] == n - 1 - p {
            left -= 1;
        } else {
            places.push(p)?;
        }
    }
    Ok(places)
}

// The least position whose column is a pivot, or the number of positions where there is none.
pub fn first_check(e: &Matrix, pivots: &[u32]) -> u32
    requires { HasPivots e.now pivots.now }
    ensures within { result ≤ e.now.cols }
    ensures below { (t : ℕ) → t < length pivots.now →
        result ≤ e.now.cols - 1 - slice_index pivots.now t }
{
    match pivots.last() {
        Some(j) => e.cols() - 1 - j,
        None => e.cols(),
    }
}

// Writes the codeword whose only symbol at the message places is a 1 at p.
fn write_unit(line: &mut [u8], e: &Matrix, pivots: &[u32], p: u32)
    requires pivots { HasPivots e.now pivots.now }
    requires width { length line.old ≡ e.now.cols }
    requires place { p < e.now.cols }
    requires free { (t : ℕ) → t < length pivots.now →
        slice_index pivots.now t ≢ e.now.cols - 1 - p }
    ensures word { IsUnitWord e.now pivots.now e.now.cols p line.new }
{
    line.fill(0);
    line[p as usize] = 1;
    let column = (e.cols() - 1 - p) as usize;
    for t in 0..pivots.len() {
        line[(e.cols() - 1 - pivots[t]) as usize] = e.row(t as u32)[column];
    }
}

// For each message place its codeword, from position `first` on.
pub fn tails_of(
    alloc: Global,
    e: &Matrix,
    pivots: &[u32],
    places: &[u32],
    first: u32,
) -> Result<Matrix, AllocError>
    requires pivots { HasPivots e.now pivots.now }
    requires places { places.now ≡ free_places_of e.now.cols pivots.now }
    requires few { length places.now ≤ 1024 }
    requires first { first ≤ e.now.cols }
    ensures rows { IfOk result (λ m. length m.rows ≡ length places.now) }
    ensures cols { IfOk result (λ m. first + m.cols ≡ e.now.cols) }
    ensures each { IfOk result (λ m. (i : ℕ) → i < length places.now →
        (word : List ℕ) × IsUnitWord e.now pivots.now e.now.cols (slice_index places.now i) word
        × (row_of m i ≡ drop first word)) }
{
    let n = e.cols();
    let mut tails = Matrix::new(alloc, places.len() as u32, n - first)?;
    let mut buffer = vec![in alloc; 0u8; n as usize]?;
    let line = buffer.as_mut_slice();
    for i in 0..places.len() {
        write_unit(line, e, pivots, places[i]);
        tails.set_row(i as u32, &line[first as usize..]);
    }
    Ok(tails)
}
