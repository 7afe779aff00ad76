//! What is done to the rows of a table in threads: the values of functions become their products with the lists, and the
//! lists are changed by the takes of a band.

ghost use Rattle.std.specs.Prelude.{ℕ, ◌≡◌, ◌*◌, ◌<◌, ◌≤◌, ◌^◌, false, length, slice_index, All};
ghost use Rattle.field_theory.specs.Sums.{unit};
ghost use Rattle.gf_theory.specs.Field.{gf_mul};
ghost use Rattle.linear_theory.specs.Linear.{combine};
ghost use Rattle.order_theory.specs.Codes.{marked};
ghost use Rattle.gf_linear.specs.Cells.{cell};
ghost use Rattle.eval_basis.specs.Lists.{AreSeen, AreTakes, lists_after};

use crate::elimination::multiply;
use crate::takes::{Takes, take_all};
use ag_pool::{RowWork, Workers, each_row};
use gf_field::Field;
use std::thread::Threads;

// The values of a function become its products with all lists.
#[derive(Drop)]
struct Multiplying<'a, F: Field + Sync> {
    field: &'a F,
    symbols: &'a [u8],
    used: &'a [bool],
}

impl<'a, F: Field + Sync> RowWork for Multiplying<'a, F> {
    ghost use Rattle.std.specs.Prelude.{◌≡◌, ◌<◌, ◌^◌, length, slice_index, All};
    ghost use Rattle.gf_theory.specs.Field.{gf_mul};
    ghost use Rattle.linear_theory.specs.Linear.{combine};
    ghost use Rattle.gf_linear.specs.Cells.{cell};
    ghost use Rattle.eval_basis.specs.Flat.{listed};
    ghost use Rattle.eval_basis.specs.Lists.{AreSeen};

    ghost ready = { λ w row. AreSeen (F.bits_of w.field.now) (length row) w.symbols.now
        w.used.now × All (λ x. x < 2 ^ F.bits_of w.field.now) row };

    ghost after = { λ w _ row. listed (length row) (combine (gf_mul (F.bits_of w.field.now)
        (F.modulus_of w.field.now)) (length row) (slice_index row)
        (cell w.symbols.now (length row))) };

    fn act(&self, _index: u32, row: &mut [u8]) {
        let mut room = [0u8; MOST_POINTS];
        multiply_in(self.field, self.symbols, self.used, row, &mut room);
    }
}

// The most points there are.
const MOST_POINTS: usize = 1024;

// Puts in place of values their products with all lists.
fn multiply_in<F: Field>(f: &F, symbols: &[u8], used: &[bool], row: &mut [u8], room: &mut [u8])
    requires seen { AreSeen (F.bits_of f.now) (length row.old) symbols.now used.now }
    requires values { All (λ x. x < 2 ^ F.bits_of f.now) row.old }
    requires room { length row.old ≤ length room.old }
    ensures { (q : ℕ) → q < length row.old → slice_index row.new q
        ≡ combine (gf_mul (F.bits_of f.now) (F.modulus_of f.now)) (length row.old)
        (slice_index row.old) (cell symbols.now (length row.old)) q }
{
    let n = row.len();
    multiply(f, row, symbols, used, &mut room[..n]);
    row.copy_from_slice(&room[..n]);
}

/// Puts in place of each row of values, of n symbols, its products with all lists.
pub fn multiply_band<X: Threads + Sync, F: Field + Sync>(
    rt: &X,
    f: &F,
    symbols: &[u8],
    used: &[bool],
    table: &mut [u8],
    rows: u32,
    n: u32,
    workers: Workers,
)
    requires some { 0 < n }
    requires fits { length table.old ≡ rows * n }
    requires seen { AreSeen (F.bits_of f.now) n symbols.now used.now }
    requires values { All (λ x. x < 2 ^ F.bits_of f.now) table.old }
    ensures products { (b q : ℕ) → b < rows → q < n → cell table.new n b q
        ≡ combine (gf_mul (F.bits_of f.now) (F.modulus_of f.now)) n (cell table.old n b)
        (cell symbols.now n) q }
    ensures symbols { All (λ x. x < 2 ^ F.bits_of f.now) table.new }
{
    f.bits();
    let work = Multiplying {
        field: f,
        symbols,
        used,
    };
    each_row(rt, &work, table, rows, n, workers);
}

// Changes the symbols of all lists at one position by the takes of a band.
#[derive(Drop)]
struct Changing<'a, F: Field + Sync> {
    field: &'a F,
    numbers: &'a [u32],
    factors: &'a [u8],
    products: &'a [u8],
}

impl<'a, F: Field + Sync> RowWork for Changing<'a, F> {
    ghost use Rattle.std.specs.Prelude.{◌≡◌, ◌<◌, ◌^◌, length, slice_index, All};
    ghost use Rattle.gf_theory.specs.Field.{gf_mul};
    ghost use Rattle.eval_basis.specs.Flat.{listed};
    ghost use Rattle.eval_basis.specs.Lists.{AreTakes, after_takes};

    ghost ready = { λ w row. AreTakes (F.bits_of w.field.now) (length row) w.numbers.now
        w.factors.now w.products.now × All (λ x. x < 2 ^ F.bits_of w.field.now) row };

    ghost after = { λ w _ row. listed (length row) (after_takes (gf_mul
        (F.bits_of w.field.now) (F.modulus_of w.field.now)) (length row) w.numbers.now
        w.factors.now w.products.now (length w.numbers.now) (slice_index row)) };

    fn act(&self, _index: u32, row: &mut [u8]) {
        take_all(self.field, self.numbers, self.factors, self.products, row);
    }
}

/// Changes the lists by these takes: all their symbols at one position at once.
pub fn change_lists<X: Threads + Sync, F: Field + Sync>(
    rt: &X,
    f: &F,
    numbers: &[u32],
    factors: &[u8],
    products: &[u8],
    symbols: &mut [u8],
    n: u32,
    workers: Workers,
)
    requires some { 0 < n }
    requires fits { length symbols.old ≡ n * n }
    requires takes { AreTakes (F.bits_of f.now) n numbers.now factors.now products.now }
    requires symbols { All (λ x. x < 2 ^ F.bits_of f.now) symbols.old }
    ensures { symbols.new ≡ lists_after (gf_mul (F.bits_of f.now) (F.modulus_of f.now)) n
        numbers.now factors.now products.now symbols.old }
{
    let work = Changing {
        field: f,
        numbers,
        factors,
        products,
    };
    each_row(rt, &work, symbols, n, n, workers);
}
