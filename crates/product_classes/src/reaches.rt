//! How many of the first columns of each row have sums below a limit.

ghost use Rattle.std.specs.Prelude.{ℕ, ◌≡◌, ◌+◌, ◌<◌, ◌≤◌, length};
ghost use Rattle.order_theory.specs.Basis.{sum_at as sum_of};
ghost use Rattle.product_classes.specs.Table.{AreReaches};

use eval_basis::EvalBasis;
use gf_field::Field;

/// After which of the first `most` columns of row i the sums are the limit or more.
fn reach_of<F: Field>(basis: &EvalBasis<F>, limit: u32, i: u32, most: u32) -> u32
    requires row { i < basis.now.n }
    requires most { most ≤ basis.now.n }
    ensures within { result ≤ most }
    ensures last { (j : ℕ) → j + 1 ≡ result → sum_of basis.now i j < limit }
    ensures after { (j : ℕ) → result ≤ j → j < most → limit ≤ sum_of basis.now i j }
{
    for j in (0..most).rev() {
        if basis.sum_at(i, j) < limit {
            return j + 1;
        }
    }
    0
}

/// Writes for each row how many of its first columns have sums below the limit.
pub fn write_reaches<F: Field>(basis: &EvalBasis<F>, limit: u32, reaches: &mut [u32])
    requires limit { limit ≤ basis.now.count }
    requires rows { length reaches.old ≡ basis.now.n }
    ensures reaches { AreReaches basis.now limit reaches.new }
    ensures rows { length reaches.new ≡ length reaches.old }
{
    let mut most = basis.n();
    for i in 0..reaches.len() {
        most = reach_of(basis, limit, i as u32, most);
        reaches[i] = most;
    }
}
