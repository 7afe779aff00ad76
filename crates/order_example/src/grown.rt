//! The matrix that is settled row by row beside the ranks of its parts, each from scratch.

ghost use Rattle.std.specs.Prelude.{ℕ, ◌≡◌, ◌<◌, ◌≤◌, length, slice_index, All, IsTrue};
ghost use Rattle.gf_linear.specs.Matrix.{IsOver};

use gf_field::PolyField;
use gf_linear::{Matrix, part_rank, part_residue};
use std::alloc::{AllocError, Global};
use vote_matrix::GrowingRows;

fn are_symbols(list: &[u8]) -> bool
    ensures { IsTrue result → All (λ x. x < 4) list.now }
{
    list.iter().all(|x| *x < 4)
}

// Whether the entries are symbols of two bits.
fn holds_symbols(m: &Matrix) -> bool
    ensures { IsTrue result → IsOver 2 m.now }
{
    for i in 0..m.rows() {
        if !are_symbols(m.row(i)) {
            return false;
        }
    }
    true
}

// Whether (i, j) is the next entry of row i, and settled in the rows above.
fn is_next(growing: &GrowingRows, i: u32, j: u32) -> bool
    requires row { i < growing.now.n }
    ensures next { IsTrue result → slice_index growing.now.known i ≡ j }
    ensures above { IsTrue result → (p : ℕ) → p < i → j < slice_index growing.now.known p }
{
    for p in 0..i {
        if growing.reach(p) <= j {
            return false;
        }
    }
    growing.reach(i) == j
}

// Whether (i, j) is a candidate by the ranks of three parts; where it is one, whether both have the same value that keeps
// the rank.
fn agrees_before(
    f: &PolyField,
    m: &Matrix,
    room: &mut Matrix,
    growing: &GrowingRows,
    i: u32,
    j: u32,
) -> bool
    requires bits { f.now.bits ≡ growing.now.bits }
    requires modulus { f.now.modulus ≡ growing.now.modulus }
    requires symbols { IsOver f.now.bits m.now }
    requires three { growing.now.n ≡ 3 }
    requires row { i < 3 }
    requires column { j < 3 }
    requires rows { length m.now.rows ≡ 3 }
    requires cols { m.now.cols ≡ 3 }
    requires room_rows { length room.old.rows ≡ 3 }
    requires room_cols { room.old.cols ≡ 3 }
    ensures room_rows { length room.new.rows ≡ 3 }
    ensures room_cols { room.new.cols ≡ 3 }
{
    if !is_next(growing, i, j) {
        return false;
    }
    let before = part_rank(f, m, i, j, room);
    let row = part_rank(f, m, i + 1, j, room);
    let column = part_rank(f, m, i, j + 1, room);
    if row != before {
        return !growing.candidate(i, j);
    }
    if column != before {
        return !growing.candidate(i, j);
    }
    growing.candidate(i, j) && growing.residue(f, i, j) == part_residue(f, m, i, j, room)
}

// Whether the pivots are those that the ranks tell once (i, j) is settled: those of the rows above, and one more where row i
// adds to the rank as far as column j. Where it does not, the matrix says so.
fn agrees_after(
    f: &PolyField,
    m: &Matrix,
    room: &mut Matrix,
    growing: &GrowingRows,
    i: u32,
    j: u32,
) -> bool
    requires symbols { IsOver f.now.bits m.now }
    requires three { growing.now.n ≡ 3 }
    requires row { i < 3 }
    requires column { j < 3 }
    requires rows { length m.now.rows ≡ 3 }
    requires cols { m.now.cols ≡ 3 }
    requires room_rows { length room.old.rows ≡ 3 }
    requires room_cols { room.old.cols ≡ 3 }
    ensures room_rows { length room.new.rows ≡ 3 }
    ensures room_cols { room.new.cols ≡ 3 }
{
    let above = part_rank(f, m, i, 3, room);
    let without = part_rank(f, m, i, j + 1, room);
    let with = part_rank(f, m, i + 1, j + 1, room);
    if growing.adds_nothing(i) != (with == without) {
        return false;
    }
    u64::from(growing.pivots()) + u64::from(without) == u64::from(above) + u64::from(with)
}

// Whether both agree before and after each entry is settled, row by row.
fn grows_alike(f: &PolyField, m: &Matrix, room: &mut Matrix, growing: &mut GrowingRows) -> bool
    requires bits { f.now.bits ≡ growing.old.bits }
    requires modulus { f.now.modulus ≡ growing.old.modulus }
    requires symbols { IsOver f.now.bits m.now }
    requires three { growing.old.n ≡ 3 }
    requires rows { length m.now.rows ≡ 3 }
    requires cols { m.now.cols ≡ 3 }
    requires room_rows { length room.old.rows ≡ 3 }
    requires room_cols { room.old.cols ≡ 3 }
{
    for place in 0..9 {
        let i = place / 3;
        let j = place % 3;
        if !agrees_before(f, m, room, growing, i, j) {
            return false;
        }
        if !is_next(growing, i, j) {
            return false;
        }
        if growing.pivots() >= growing.most() {
            return false;
        }
        growing.settle_row(f, i, &[m.row(i)[j as usize]]);
        if !agrees_after(f, m, room, growing, i, j) {
            return false;
        }
    }
    true
}

// The same with room of its own.
fn grows(alloc: Global, f: &PolyField, m: &Matrix) -> Result<bool, AllocError>
    requires bits { f.now.bits ≡ 2 }
    requires modulus { f.now.modulus ≡ 7 }
    requires symbols { IsOver 2 m.now }
    requires rows { length m.now.rows ≡ 3 }
    requires cols { m.now.cols ≡ 3 }
{
    let mut room = Matrix::new(alloc, 3, 3)?;
    let mut growing = GrowingRows::new(alloc, 2, 7, 3, 4)?;
    Ok(grows_alike(f, m, &mut room, &mut growing))
}

// The same of one matrix over the field of four elements.
fn one_grows_alike(alloc: Global) -> Option<bool> {
    let f = PolyField::new(2, 7)?;
    let mut m = Matrix::new(alloc, 3, 3).ok()?;
    m.set_row(0, &[3, 3, 3]);
    m.set_row(1, &[3, 3, 3]);
    m.set_row(2, &[3, 3, 0]);
    if !holds_symbols(&m) {
        return None;
    }
    grows(alloc, &f, &m).ok()
}

#[test]
fn grows_as_the_ranks_of_parts_tell(rt: HostRuntime) {
    assert!(rt; one_grows_alike(rt.alloc()) == Some(true));
}
