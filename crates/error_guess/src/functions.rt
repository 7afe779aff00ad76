//! The functions of rows that add nothing, and their zeros.

ghost use Rattle.std.specs.Prelude.{ℕ, ◌≡◌, ◌<◌, ◌≤◌, length};
ghost use Rattle.order_theory.specs.Basis.{IsWord};
ghost use Rattle.error_guess.specs.Guesses.{IsMatrixOf};

use eval_basis::EvalBasis;
use gf_field::Field;
use gf_linear::add_scaled;
use vote_matrix::GrowingRows;

/// Writes the values of the function of row i, which adds nothing: that member, and the members of the pivot rows, each times
/// its factor.
fn write_function<F: Field>(
    basis: &EvalBasis<F>,
    matrix: &GrowingRows,
    i: u32,
    factors: &mut [u8],
    line: &mut [u8],
)
    requires matrix { IsMatrixOf basis.now matrix.now }
    requires row { i < basis.now.n }
    requires room { length factors.old ≡ matrix.now.most }
    requires long { length line.old ≡ basis.now.n }
    ensures room { length factors.new ≡ length factors.old }
    ensures long { length line.new ≡ length line.old }
{
    let f = basis.field();
    matrix.combination(f, i, factors);
    line.copy_from_slice(basis.vector(i));
    for t in 0..matrix.pivots() {
        let vector = basis.vector(matrix.pivot_row(t));
        add_scaled(f, line, factors[t as usize], vector);
    }
}

/// Drops the places at which a function is not 0; the answer is how many are left.
fn keep_zeros(line: &[u8], zeros: &mut [bool]) -> u32
    requires same { length zeros.old ≡ length line.now }
    requires few { length line.now ≤ 1024 }
    ensures { length zeros.new ≡ length zeros.old }
{
    let mut left = 0;
    for p in 0..line.len() {
        let is_zero = zeros[p] && line[p] == 0;
        zeros[p] = is_zero;
        left += u32::from(is_zero);
    }
    left
}

/// Drops the places at which the function of row i, which adds nothing, is not 0; the answer is how many are left.
pub fn narrow_zeros<F: Field>(
    basis: &EvalBasis<F>,
    matrix: &GrowingRows,
    i: u32,
    factors: &mut [u8],
    line: &mut [u8],
    zeros: &mut [bool],
) -> u32
    requires matrix { IsMatrixOf basis.now matrix.now }
    requires row { i < basis.now.n }
    requires line { length line.old ≡ basis.now.n }
    requires zeros { length zeros.old ≡ basis.now.n }
    ensures factors { length factors.new ≡ length factors.old }
    ensures line { length line.new ≡ length line.old }
    ensures zeros { length zeros.new ≡ length zeros.old }
{
    let n = basis.n();
    let most = matrix.most() as usize;
    if most > factors.len() {
        return n;
    }
    write_function(basis, matrix, i, &mut factors[..most], line);
    keep_zeros(line, zeros)
}
