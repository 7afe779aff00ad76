//! The matrix of the working list, and the ranks of its parts.

ghost use Rattle.std.specs.Prelude.{◌≡◌, ◌<◌, length, IfOk};
ghost use Rattle.counting_theory.specs.Ranks.{candidate};
ghost use Rattle.order_theory.specs.Basis.{IsWord};
ghost use Rattle.plain_voter.specs.Sheets.{AreEntries, IsSheet, IsSheetOf, table_rank};

use crate::working::products;
use eval_basis::EvalBasis;
use gf_field::Field;
use gf_linear::{Matrix, dot, part_rank};
use std::alloc::{AllocError, Global};

/// A matrix, and room for its parts.
#[derive(Drop)]
pub struct Sheet {
    pub table: Matrix,
    pub room: Matrix,
}

/// Row i of the matrix of the working list.
fn entries_of<F: Field>(
    alloc: Global,
    basis: &EvalBasis<F>,
    work: &[u8],
    i: u32,
) -> Result<Vec<u8>, AllocError>
    requires word { IsWord basis.now.bits basis.now.n work.now }
    requires row { i < basis.now.n }
    ensures { IfOk result (λ row. AreEntries basis.now work.now i row.items basis.now.n) }
{
    let f = basis.field();
    let weighed = products(alloc, f, work, basis.vector(i))?;
    let mut row = Vec::new(alloc);
    for j in 0..basis.n() {
        row.push(dot(f, &weighed, basis.vector(j)))?;
    }
    Ok(row)
}

/// The matrix of the working list: entry (i, j) is the sum over p of the products of symbol p of the list, of vector i and of
/// vector j. The room beside it is as large.
pub fn sheet_of<F: Field>(
    alloc: Global,
    basis: &EvalBasis<F>,
    work: &[u8],
) -> Result<Sheet, AllocError>
    requires word { IsWord basis.now.bits basis.now.n work.now }
    ensures { IfOk result (IsSheetOf basis.now work.now) }
{
    let n = basis.n();
    let room = Matrix::new(alloc, n, n)?;
    let mut table = Matrix::new(alloc, n, n)?;
    for i in 0..n {
        let row = entries_of(alloc, basis, work, i)?;
        table.set_row(i, &row);
    }
    Ok(Sheet { table, room })
}

/// Whether neither row i nor column j adds to the rank of the rows and columns before them: the three smaller parts at
/// (i, j) have one rank.
pub fn is_candidate<F: Field>(f: &F, i: u32, j: u32, sheet: &mut Sheet) -> bool
    requires row { i < length sheet.old.table.rows }
    requires column { j < sheet.old.table.cols }
    requires sheet { IsSheet (F.bits_of f.now) sheet.old }
    ensures value { result ≡ candidate (table_rank (F.bits_of f.now) (F.modulus_of f.now)
        sheet.old.table) i j }
    ensures same { sheet.new.table ≡ sheet.old.table }
    ensures sheet { IsSheet (F.bits_of f.now) sheet.new }
{
    let before = part_rank(f, &sheet.table, i, j, &mut sheet.room);
    let with_row = part_rank(f, &sheet.table, i + 1, j, &mut sheet.room);
    let with_column = part_rank(f, &sheet.table, i, j + 1, &mut sheet.room);
    with_row == before && with_column == before
}
