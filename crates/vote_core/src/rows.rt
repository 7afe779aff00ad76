//! The rows of the matrix of a working list: each is settled as far as sums are below a limit.

ghost use Rattle.std.specs.Prelude.{ℕ, ◌≡◌, ◌+◌, ◌<◌, ◌≤◌, ◌^◌, List, length, slice_index, All};
ghost use Rattle.order_theory.specs.Basis.{times, sum_at as sum_of};
ghost use Rattle.order_theory.specs.Errors.{entry};
ghost use Rattle.product_classes.specs.Table.{AreClassesOf};
ghost use Rattle.product_classes.specs.Values.{AreValues};
ghost use Rattle.vote_core.specs.Reading.{IsWidth, IsSettled};
ghost use Rattle.vote_matrix.specs.Elimination.{Grows, IsEliminationOf};

use eval_basis::EvalBasis;
use gf_field::Field;
use product_classes::Classes;
use vote_matrix::GrowingRows;

/// How many of the first columns of row i have sums below `limit`, where the first `from` columns have.
fn width_of<F: Field>(basis: &EvalBasis<F>, classes: &Classes, limit: u32, i: u32, from: u32) -> u32
    requires classes { AreClassesOf basis.now classes.now }
    requires limit { limit ≤ basis.now.count }
    requires row { i < basis.now.n }
    requires from { from ≤ basis.now.n }
    requires below { (q : ℕ) → q < from → sum_of basis.now i q < limit }
    ensures { IsWidth basis.now limit i result }
{
    if classes.limit() == limit {
        return classes.reach(i);
    }
    let n = basis.n();
    for j in from..n {
        if basis.sum_at(i, j) >= limit {
            return j;
        }
    }
    n
}

/// Settles the next entries of row i, from column `from` on: as many as there is room for.
fn settle_entries<F: Field>(
    basis: &EvalBasis<F>,
    classes: &Classes,
    i: u32,
    from: u32,
    values: &[u8],
    matrix: &mut GrowingRows,
    entries: &mut [u8],
)
    requires classes { AreClassesOf basis.now classes.now }
    requires values { classes.now.size ≤ length values.now }
    requires symbols { All (λ x. x < 2 ^ basis.now.bits) values.now }
    requires bits { matrix.old.bits ≡ basis.now.bits }
    requires modulus { matrix.old.modulus ≡ basis.now.modulus }
    requires n { matrix.old.n ≡ basis.now.n }
    requires row { i < basis.now.n }
    requires at { from ≡ slice_index matrix.old.known i }
    requires columns { from + length entries.old ≤ basis.now.n }
    requires above { (p : ℕ) → p < i → from + length entries.old ≤ slice_index matrix.old.known p }
    requires room { matrix.old.count < matrix.old.most }
    ensures grown { Grows matrix.old i (length entries.old) matrix.new }
    ensures eliminated { (w : List ℕ) (s : ℕ) → AreValues basis.now classes.now w values.now s
        → ((q : ℕ) → q < from + length entries.old → sum_of basis.now i q < s)
        → IsEliminationOf (entry (times basis.now) basis.now w) matrix.old
        → IsEliminationOf (entry (times basis.now) basis.now w) matrix.new }
{
    classes.gather(i, from, values, entries);
    matrix.settle_row(basis.field(), i, entries);
}

/// Settles row i as far as sums are below `limit`.
pub fn settle_row<F: Field>(
    basis: &EvalBasis<F>,
    classes: &Classes,
    limit: u32,
    i: u32,
    values: &[u8],
    matrix: &mut GrowingRows,
    row: &mut [u8],
)
    requires classes { AreClassesOf basis.now classes.now }
    requires limit { limit ≤ basis.now.count }
    requires values { classes.now.size ≤ length values.now }
    requires symbols { All (λ x. x < 2 ^ basis.now.bits) values.now }
    requires row { i < basis.now.n }
    requires settled { IsSettled basis.now matrix.old limit i }
    requires room { matrix.old.count < matrix.old.most }
    requires long { length row.old ≡ basis.now.n }
    ensures settled { IsSettled basis.now matrix.new limit (i + 1) }
    ensures most { matrix.new.most ≡ matrix.old.most }
    ensures eliminated { (w : List ℕ) → AreValues basis.now classes.now w values.now limit
        → IsEliminationOf (entry (times basis.now) basis.now w) matrix.old
        → IsEliminationOf (entry (times basis.now) basis.now w) matrix.new }
{
    // For its facts: the basis is sound.
    basis.n();
    let from = matrix.reach(i);
    let to = width_of(basis, classes, limit, i, from);
    if from < to {
        let len = (to - from) as usize;
        settle_entries(basis, classes, i, from, values, matrix, &mut row[..len]);
    }
}

/// The row that comes after row i. Where row i has no entry that is known, no row below it has one, so it is the last.
pub fn next_row<F: Field>(basis: &EvalBasis<F>, limit: u32, i: u32, matrix: &GrowingRows) -> u32
    requires limit { limit ≤ basis.now.count }
    requires row { i < basis.now.n }
    requires settled { IsSettled basis.now matrix.now limit (i + 1) }
    ensures settled { IsSettled basis.now matrix.now limit result }
    ensures later { i < result }
    ensures within { result ≤ basis.now.n }
{
    let n = basis.n();
    if matrix.reach(i) == 0 { n } else { i + 1 }
}
