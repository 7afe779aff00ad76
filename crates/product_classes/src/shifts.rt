//! Members that are the product of two others, symbol by symbol. Where vector g times vector i is vector i', and vector g
//! times vector j is vector j', the entries (i', j) and (i, j') of the matrix of any list are the same.

ghost use Rattle.std.specs.Prelude.{ℕ, ◌≡◌, ◌+◌, ◌*◌, ◌<◌, ◌≤◌, ◌^◌, length, slice_index, All, IsTrue, ◌↔◌, IfSome, IfOk};
ghost use Rattle.gf_theory.specs.Field.{gf_mul};
ghost use Rattle.product_classes.specs.Shifts.{AreShiftRooms, IsShiftRoom};

use eval_basis::EvalBasis;
use gf_field::Field;
use std::alloc::{AllocError, Global};

/// The products of all members with one of them, by numbers of members; n stands for none.
#[derive(Drop)]
pub struct Shift {
    /// For each member the member that is its product.
    pub next: Vec<u32>,
    /// For each member one whose product it is.
    pub back: Vec<u32>,
}

/// The products with two members.
#[derive(Drop)]
pub struct Shifts {
    pub first: Shift,
    pub second: Shift,
}

/// Room for the products with one member.
fn new_shift(alloc: Global, n: usize) -> Result<Shift, AllocError>
    ensures { IfOk result (IsShiftRoom n) }
{
    Ok(Shift {
        next: vec![in alloc; 0; n]?,
        back: vec![in alloc; 0; n]?,
    })
}

/// Room for the products with two members.
pub fn new_shifts(alloc: Global, n: usize) -> Result<Shifts, AllocError>
    ensures { IfOk result (AreShiftRooms n) }
{
    Ok(Shifts {
        first: new_shift(alloc, n)?,
        second: new_shift(alloc, n)?,
    })
}

/// Whether z is the product of x and y, symbol by symbol.
fn is_product<F: Field>(f: &F, x: &[u8], y: &[u8], z: &[u8]) -> bool
    requires same_x { length x.now ≡ length z.now }
    requires same_y { length y.now ≡ length z.now }
    requires left { All (λ a. a < 2 ^ F.bits_of f.now) x.now }
    requires right { All (λ a. a < 2 ^ F.bits_of f.now) y.now }
    ensures { IsTrue result ↔ ((p : ℕ) → p < length z.now
        → gf_mul (F.bits_of f.now) (F.modulus_of f.now) (slice_index x.now p) (slice_index y.now p)
        ≡ slice_index z.now p) }
{
    for p in 0..z.len() {
        if f.mul(x[p], y[p]) != z[p] {
            return false;
        }
    }
    true
}

/// The first member from `from` on whose rank is at least `rank`.
fn first_from<F: Field>(basis: &EvalBasis<F>, rank: u32, from: u32) -> Option<u32>
    requires { from < basis.now.n }
    ensures { IfSome result (λ q. q < basis.now.n) }
{
    for q in from..basis.n() {
        if basis.rank_at(q) >= rank {
            return Some(q);
        }
    }
    None
}

/// The first member after `from` to which no other leads, or the last one.
fn first_unreached(back: &[u32], from: u32) -> u32
    requires some { 0 < length back.now }
    requires few { length back.now ≤ 1024 }
    requires from { from < length back.now }
    ensures { result < length back.now }
{
    let n = back.len() as u32;
    for q in from + 1..n {
        if back[q as usize] == n {
            return q;
        }
    }
    n - 1
}

impl Shift {
    ghost use Rattle.product_classes.specs.Shifts.{IsShiftRoom, HasShift, IsSource};

    /// Finds the products with member `by`.
    fn fill<F: Field>(&mut self, basis: &EvalBasis<F>, by: u32)
        requires member { by < basis.now.n }
        requires room { IsShiftRoom basis.now.n self.old }
        ensures { HasShift basis.now self.new }
    {
        let n = basis.n();
        self.next.fill(n);
        self.back.fill(n);
        let mut from = 0;
        for i in 0..n {
            let Some(q) = first_from(basis, basis.sum_at(by, i), from) else {
                return;
            };
            if is_product(
                basis.field(),
                basis.vector(by),
                basis.vector(i),
                basis.vector(q),
            ) {
                self.next[i as usize] = q;
                self.back[q as usize] = i;
            }
            from = q;
        }
    }

    /// A place at which the matrix of every list has the same entry as at (i, j).
    pub fn source<F: Field>(&self, basis: &EvalBasis<F>, i: u32, j: u32) -> Option<(u32, u32)>
        requires shift { HasShift basis.now self.now }
        requires row { i < basis.now.n }
        requires column { j < basis.now.n }
        ensures { IfSome result (λ place. IsSource basis.now i j place.0 place.1) }
    {
        let n = basis.n();
        let row = self.back[i as usize];
        let column = self.next[j as usize];
        if row < n {
            if column < n {
                return Some((row, column));
            }
        }
        None
    }
}

impl Shifts {
    ghost use Rattle.product_classes.specs.Shifts.{AreShiftRooms, HasShifts};

    /// Finds the products with member 1, and with the first member after it that these do not reach.
    pub fn fill<F: Field>(&mut self, basis: &EvalBasis<F>)
        requires room { AreShiftRooms basis.now.n self.old }
        ensures { HasShifts basis.now self.new }
    {
        let last = basis.n() - 1;
        let one = last.min(1);
        self.first.fill(basis, one);
        let other = first_unreached(&self.first.back, one);
        self.second.fill(basis, other);
    }
}
