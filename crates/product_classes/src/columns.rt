//! Products of classes at positions, and combinations of them.

ghost use Rattle.std.specs.Prelude.{ℕ, ◌≡◌, ◌+◌, ◌-◌, ◌*◌, ◌/◌, ◌<◌, ◌≤◌, ◌^◌, length, slice_index, All, IfOk};
ghost use Rattle.gf_theory.specs.Field.{gf_mul};
ghost use Rattle.linear_theory.specs.Linear.{dot as dot_of};
ghost use Rattle.gf_linear.specs.Cells.{cell};
ghost use Rattle.order_theory.specs.Basis.{times, vector, IsWord};
ghost use Rattle.order_theory.specs.Errors.{entry};
ghost use Rattle.product_classes.specs.Columns.{ArePairs, AreRising, AreColumns, AreOthersKept, sum_of_class};

use eval_basis::EvalBasis;
use gf_field::Field;
use gf_linear::dot;
use std::alloc::{AllocError, Global};

/// So many symbols in whole registers.
pub fn padded(size: usize) -> usize
    requires { size ≤ 1048576 }
    ensures value { result ≡ (size + 15) / 16 * 16 }
    ensures enough { size ≤ result }
    ensures few { result ≤ size + 15 }
{
    (size + 15) / 16 * 16
}

/// The products of two lists, place by place.
pub fn multiply<F: Field>(f: &F, x: &[u8], y: &[u8], products: &mut [u8])
    requires same_x { length x.now ≡ length products.old }
    requires same_y { length y.now ≡ length products.old }
    requires left { All (λ a. a < 2 ^ F.bits_of f.now) x.now }
    requires right { All (λ a. a < 2 ^ F.bits_of f.now) y.now }
    ensures value { (p : ℕ) → p < length products.old
        → slice_index products.new p ≡ gf_mul (F.bits_of f.now) (F.modulus_of f.now)
        (slice_index x.now p) (slice_index y.now p) }
    ensures symbols { All (λ a. a < 2 ^ F.bits_of f.now) products.new }
    ensures long { length products.new ≡ length products.old }
{
    for p in 0..products.len() {
        products[p] = f.mul(x[p], y[p]);
    }
}

/// The entry of the matrix of a list at (i, j). The row is room for the products of the list and vector i.
pub fn entry_at<F: Field>(basis: &EvalBasis<F>, list: &[u8], i: u32, j: u32, row: &mut [u8]) -> u8
    requires word { IsWord basis.now.bits basis.now.n list.now }
    requires row { i < basis.now.n }
    requires column { j < basis.now.n }
    requires room { length row.old ≡ basis.now.n }
    ensures value { result ≡ entry (times basis.now) basis.now list.now i j }
    ensures symbol { result < 2 ^ basis.now.bits }
    ensures room { length row.new ≡ length row.old }
{
    multiply(basis.field(), list, basis.vector(i), row);
    dot(basis.field(), row, basis.vector(j))
}

/// Writes the products of one class, those of two lists, at the positions from `first` on.
fn write_class<F: Field>(
    f: &F,
    left: &[u8],
    right: &[u8],
    first: usize,
    class: usize,
    width: usize,
    columns: &mut [u8],
)
    requires same { length left.now ≡ length right.now }
    requires few { length left.now ≤ 1024 }
    requires narrow { width ≤ 1048591 }
    requires first { first ≤ length left.now }
    requires class { class < width }
    requires fit { length columns.old ≡ (length left.now - first) * width }
    requires left { All (λ x. x < 2 ^ F.bits_of f.now) left.now }
    requires right { All (λ x. x < 2 ^ F.bits_of f.now) right.now }
    requires columns { All (λ x. x < 2 ^ F.bits_of f.now) columns.old }
    ensures long { length columns.new ≡ length columns.old }
    ensures columns { All (λ x. x < 2 ^ F.bits_of f.now) columns.new }
    ensures value { (q : ℕ) → q < length left.now - first → cell columns.new width q class
        ≡ gf_mul (F.bits_of f.now) (F.modulus_of f.now) (slice_index left.now (first + q))
        (slice_index right.now (first + q)) }
    ensures others { AreOthersKept width class columns.old columns.new }
{
    for q in 0..left.len() - first {
        columns[q * width + class] = f.mul(left[first + q], right[first + q]);
    }
}

/// Writes the products of these classes.
fn write_classes<F: Field>(
    basis: &EvalBasis<F>,
    lefts: &[u32],
    rights: &[u32],
    first: usize,
    width: usize,
    columns: &mut [u8],
)
    requires pairs { ArePairs basis.now.n lefts.now rights.now }
    requires narrow { width ≤ 1048591 }
    requires few { length lefts.now ≤ width }
    requires first { first ≤ basis.now.n }
    requires fit { length columns.old ≡ (basis.now.n - first) * width }
    requires columns { All (λ x. x < 2 ^ basis.now.bits) columns.old }
    ensures long { length columns.new ≡ length columns.old }
    ensures columns { All (λ x. x < 2 ^ basis.now.bits) columns.new }
    ensures value { AreColumns basis.now lefts.now rights.now first width (length lefts.now)
        columns.new }
{
    // For its facts: there are at most 1024 members.
    basis.n();
    for class in 0..lefts.len() {
        write_class(
            basis.field(),
            basis.vector(lefts[class]),
            basis.vector(rights[class]),
            first,
            class,
            width,
            columns,
        );
    }
}

/// The products of these classes at each position from `first` on, so many at each.
pub fn columns_of<F: Field>(
    alloc: Global,
    basis: &EvalBasis<F>,
    lefts: &[u32],
    rights: &[u32],
    first: usize,
    width: usize,
) -> Result<Vec<u8>, AllocError>
    requires pairs { ArePairs basis.now.n lefts.now rights.now }
    requires narrow { width ≤ 1048591 }
    requires few { length lefts.now ≤ width }
    requires first { first ≤ basis.now.n }
    ensures fit { IfOk result (λ v. length v.items ≡ (basis.now.n - first) * width) }
    ensures symbols { IfOk result (λ v. All (λ x. x < 2 ^ basis.now.bits) v.items) }
    ensures value { IfOk result (λ v. AreColumns basis.now lefts.now rights.now first width
        (length lefts.now) v.items) }
{
    let n = basis.n() as usize;
    let mut columns = vec![in alloc; 0; (n - first) * width]?;
    write_classes(basis, lefts, rights, first, width, &mut columns);
    Ok(columns)
}

/// The number of the first of these classes, which are numbered by rising sums, whose sum is at least s.
pub fn classes_below<F: Field>(basis: &EvalBasis<F>, lefts: &[u32], rights: &[u32], s: u32) -> usize
    requires pairs { ArePairs basis.now.n lefts.now rights.now }
    requires rise { AreRising basis.now lefts.now rights.now }
    ensures within { result ≤ length lefts.now }
    ensures below { (c : ℕ) → c < result → sum_of_class basis.now lefts.now rights.now c < s }
    ensures above { (c : ℕ) → result ≤ c → c < length lefts.now
        → s ≤ sum_of_class basis.now lefts.now rights.now c }
{
    let mut low = 0;
    let mut high = lefts.len();
    while low < high {
        let middle = low + (high - low) / 2;
        if basis.sum_at(lefts[middle], rights[middle]) < s {
            low = middle + 1;
        } else {
            high = middle;
        }
    }
    low
}

/// Writes the entries of the matrix of a list at the pairs of the classes from `from` to `to`.
pub fn write_range<F: Field>(
    basis: &EvalBasis<F>,
    list: &[u8],
    lefts: &[u32],
    rights: &[u32],
    from: usize,
    to: usize,
    row: &mut [u8],
    values: &mut [u8],
)
    requires word { IsWord basis.now.bits basis.now.n list.now }
    requires pairs { ArePairs basis.now.n lefts.now rights.now }
    requires to { to ≤ length lefts.now }
    requires room { to ≤ length values.old }
    requires row { length row.old ≡ basis.now.n }
    ensures long { length values.new ≡ length values.old }
    ensures row { length row.new ≡ length row.old }
    ensures symbols { All (λ x. x < 2 ^ basis.now.bits) values.old
        → All (λ x. x < 2 ^ basis.now.bits) values.new }
    ensures written { (c : ℕ) → from ≤ c → c < to → slice_index values.new c
        ≡ entry (times basis.now) basis.now list.now (slice_index lefts.now c)
        (slice_index rights.now c) }
    ensures before { (c : ℕ) → c < from → slice_index values.new c ≡ slice_index values.old c }
    ensures after { (c : ℕ) → to ≤ c → slice_index values.new c ≡ slice_index values.old c }
{
    for c in from..to {
        values[c] = entry_at(basis, list, lefts[c], rights[c], row);
    }
}
