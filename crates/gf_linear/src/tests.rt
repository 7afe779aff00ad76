ghost use Rattle.std.specs.Prelude.{◌≡◌, ◌*◌, ◌<◌, ◌≤◌, length, All, IsTrue, IfOk};
ghost use Rattle.gf_linear.specs.Matrix.{IsOver};

use super::{
    Matrix, add_scaled, combine_rows, dot, dual_of, echelon, part_rank, part_residue, rank, solve,
};
use ag_pool::Workers;
use gf_field::PolyField;
use std::alloc::{AllocError, Global};
use std::process::Abort;
use std::test::Fail;

fn field_of_four(rt: &impl Abort) -> PolyField
    ensures { result.bits ≡ 2 }
{
    PolyField::new(2, 7).expect(rt, "7 is irreducible")
}

fn are_symbols(entries: &[u8]) -> bool
    ensures { IsTrue result → All (λ a. a < 4) entries.now }
{
    entries.iter().all(|entry| *entry < 4)
}

fn holds_symbols(m: &Matrix) -> bool
    ensures { IsTrue result → IsOver 2 m.now }
{
    are_symbols(&m.entries)
}

// A matrix over the field of four elements.
fn matrix<const N: usize>(
    rt: &impl Abort,
    alloc: Global,
    rows: &[[u8; N]],
) -> Result<Matrix, AllocError>
    requires few_rows { length rows.now ≤ 1024 }
    requires few_cols { N ≤ 2048 }
    ensures over { IfOk result (IsOver 2) }
    ensures rows { IfOk result (λ m. length m.rows ≡ length rows.now) }
    ensures cols { IfOk result (λ m. m.cols ≡ N) }
{
    let mut m = Matrix::new(alloc, rows.len() as u32, N as u32)?;
    for i in 0..rows.len() as u32 {
        m.set_row(i, &rows[i as usize]);
    }
    assert!(rt; holds_symbols(&m));
    Ok(m)
}

#[test]
fn products_of_lists(rt: HostRuntime) -> Result<(), Fail> {
    let f = field_of_four(&rt);
    assert_eq!(rt; dot(&f, &[2, 3, 1], &[2, 2, 1]), 3);
    let mut sum = [1, 2, 3];
    add_scaled(&f, &mut sum, 2, &[1, 2, 3]);
    assert_eq!(rt; sum, [3, 1, 2]);
    Ok(())
}

fn field_of_aes(rt: &impl Abort) -> PolyField
    ensures { result.bits ≡ 8 }
{
    PolyField::new(8, 283).expect(rt, "283 is irreducible")
}

fn are_bytes(entries: &[u8]) -> bool
    ensures { IsTrue result → All (λ a. a < 256) entries.now }
{
    entries.iter().all(|entry| u16::from(*entry) < 256)
}

fn add_doubles(rt: &impl Abort, f: &PolyField, sum: &mut [u8], source: &[u8])
    requires bits { f.now.bits ≡ 8 }
    requires same { length sum.old ≡ length source.now }
{
    assert!(rt; are_bytes(sum));
    assert!(rt; are_bytes(source));
    add_scaled(f, sum, 2, source);
}

// In the field of AES each of 57, ae, 47, 8e is followed by its double, and 07 comes last.
#[test]
fn multiples_of_long_lists(rt: HostRuntime) -> Result<(), Fail> {
    let f = field_of_aes(&rt);
    let mut source = [0x57; 35];
    let mut sum = [0x47; 35];
    source[1] = 0xae;
    source[15] = 0x8e;
    source[16] = 0x47;
    source[34] = 0x8e;
    add_doubles(&rt, &f, &mut sum, &source);
    let mut expected = [0x47 ^ 0xae; 35];
    expected[1] = 0;
    expected[15] = 0x47 ^ 0x07;
    expected[16] = 0x47 ^ 0x8e;
    expected[34] = 0x47 ^ 0x07;
    assert_eq!(rt; sum, expected);
    Ok(())
}

// A row plus 2 times another, of n symbols each: 47 and 57, but ae and 8e at the end.
fn combined(rt: &impl Abort, alloc: Global, f: &PolyField, n: usize) -> Result<Vec<u8>, AllocError>
    requires bits { f.now.bits ≡ 8 }
    requires some { 1 ≤ n }
    requires few { n ≤ 1000 }
{
    let mut rows = vec![in alloc; 0x47u8; 2 * n]?;
    rows[n..].fill(0x57);
    rows[n - 1] = 0xae;
    rows[2 * n - 1] = 0x8e;
    let mut sum = vec![in alloc; 9u8; n]?;
    assert!(rt; are_bytes(&rows));
    combine_rows(f, &[1, 2], &rows, &mut sum);
    Ok(sum)
}

#[test]
fn combinations_of_rows(rt: HostRuntime) -> Result<(), Fail> {
    let f = field_of_aes(&rt);
    for n in [1, 33, 150] {
        let mut expected = vec![in rt.alloc(); 0x47 ^ 0xae_u8; n]?;
        expected[n - 1] = 0xae ^ 0x07;
        assert_eq!(rt; combined(&rt, rt.alloc(), &f, n)?, expected);
    }
    Ok(())
}

#[test]
fn ranks_and_echelons(rt: HostRuntime) -> Result<(), Fail> {
    let f = field_of_four(&rt);
    let m = matrix(&rt, rt.alloc(), &[[1, 1], [2, 2]])?;
    assert_eq!(rt; rank(rt.alloc(), &f, &m)?, 1);
    let reduced = echelon(rt.alloc(), &f, &m)?;
    assert_eq!(rt; (reduced.rows(), reduced.cols()), (2, 2));
    assert_eq!(rt; reduced.entries.as_slice(), [1, 1, 0, 0].as_slice());
    Ok(())
}

#[test]
fn duals(rt: HostRuntime) -> Result<(), Fail> {
    let f = field_of_four(&rt);
    let m = matrix(&rt, rt.alloc(), &[[1, 1], [2, 3]])?;
    let found = dual_of(rt.alloc(), &f, &m)?.expect(&rt, "independent");
    assert_eq!(rt; found.entries.as_slice(), [3, 2, 1, 1].as_slice());
    let swap = matrix(&rt, rt.alloc(), &[[0, 1], [1, 0]])?;
    let found = dual_of(rt.alloc(), &f, &swap)?.expect(&rt, "independent");
    assert_eq!(rt; found.entries.as_slice(), [0, 1, 1, 0].as_slice());
    let m = matrix(&rt, rt.alloc(), &[[1, 1], [2, 2]])?;
    assert!(rt; dual_of(rt.alloc(), &f, &m)?.is_none());
    Ok(())
}

#[test]
fn solutions(rt: HostRuntime) -> Result<(), Fail> {
    let f = field_of_four(&rt);
    let m = matrix(&rt, rt.alloc(), &[[1, 1], [2, 3]])?;
    let found = solve(rt.alloc(), &f, &m, &[1, 0])?.expect(&rt, "independent");
    assert_eq!(rt; found.as_slice(), [3, 2].as_slice());
    let m = matrix(&rt, rt.alloc(), &[[1, 1], [2, 2]])?;
    assert!(rt; solve(rt.alloc(), &f, &m, &[1, 0])?.is_none());
    Ok(())
}

// The syndromes at the weights 0, 2 and 3 of an error of weight 2.
#[test]
fn ranks_of_parts(rt: HostRuntime) -> Result<(), Fail> {
    let f = field_of_four(&rt);
    let m = matrix(&rt, rt.alloc(), &[[3, 3, 3], [3, 3, 3], [3, 3, 0]])?;
    let mut room = Matrix::new(rt.alloc(), 3, 3)?;
    room.set(2, 0, 1);
    assert_eq!(rt; m.row(2), [3, 3, 0].as_slice());
    assert_eq!(rt; (m.rows(), m.cols()), (3, 3));
    assert_eq!(rt; part_rank(&f, &m, 3, 3, &mut room), 2);
    for i in 1..3 {
        let before = part_rank(&f, &m, i, i, &mut room);
        let row = part_rank(&f, &m, i + 1, i, &mut room);
        let column = part_rank(&f, &m, i, i + 1, &mut room);
        assert!(rt; row == before && column == before);
        assert_eq!(rt; before, 1);
        assert_eq!(rt; part_residue(&f, &m, i, i, &mut room), 3);
    }
    Ok(())
}

#[test]
fn columns_are_cleared(rt: HostRuntime) -> Result<(), Fail> {
    let f = field_of_four(&rt);
    for workers in [1, 2, 8] {
        let workers = Workers::new(workers).ok_or("they are 1 to 64")?;
        let mut m = matrix(&rt, rt.alloc(), &[[1, 2], [3, 1], [0, 1]])?;
        assert_eq!(rt; m.row(0)[0], 1);
        m.clear_column(&rt, &f, 0, 0, workers);
        assert_eq!(rt; m.entries.as_slice(), [1, 2, 0, 0, 0, 1].as_slice());
        let mut m = matrix(&rt, rt.alloc(), &[[2, 1], [1, 3], [3, 0]])?;
        assert_eq!(rt; m.row(1)[0], 1);
        m.clear_column(&rt, &f, 1, 0, workers);
        assert_eq!(rt; m.entries.as_slice(), [0, 0, 1, 3, 0, 2].as_slice());
    }
    Ok(())
}
