//! The listing of classes: the pairs of members are gone through along their sums, and those of one sum by rows. A pair is
//! of the class of a pair that was listed before, where symmetry or a shift leads to one, and else begins a class.

ghost use Rattle.std.specs.Prelude.{ℕ, ◌≡◌, ◌+◌, ◌*◌, ◌<◌, ◌≤◌, [], slice_index, All, IsTrue, IfSome, IfOk};
ghost use Rattle.order_theory.specs.Basis.{sum_at as sum_of};
ghost use Rattle.product_classes.specs.Shifts.{HasShift, HasShifts};
ghost use Rattle.product_classes.specs.Table.{IsOfClass, class_at};
ghost use Rattle.product_classes.specs.Listings.{IsListingRoom};

use crate::shifts::{Shift, Shifts};
use eval_basis::EvalBasis;
use gf_field::Field;
use std::alloc::{AllocError, Global};

/// The classes that are listed.
#[derive(Drop)]
pub struct Listing {
    pub n: u32,
    /// The class of each pair, row by row.
    pub numbers: Vec<u32>,
    /// For each row how many of its first pairs are listed.
    pub reaches: Vec<u32>,
    /// The pair that began each class. There is room for n times n.
    pub lefts: Vec<u32>,
    pub rights: Vec<u32>,
}

/// Room for the classes of n members.
pub fn new_listing(alloc: Global, n: u32) -> Result<Listing, AllocError>
    requires some { 1 ≤ n }
    requires small { n ≤ 1024 }
    ensures room { IfOk result (IsListingRoom n) }
    ensures count { IfOk result (λ a. a.lefts.items ≡ []) }
    ensures numbers { IfOk result (λ a. All (λ x. x ≡ 0) a.numbers.items) }
    ensures reaches { IfOk result (λ a. All (λ x. x ≡ 0) a.reaches.items) }
{
    let size = n as usize * n as usize;
    Ok(Listing {
        n,
        numbers: vec![in alloc; 0; size]?,
        reaches: vec![in alloc; 0; n as usize]?,
        lefts: Vec::with_capacity(alloc, size)?,
        rights: Vec::with_capacity(alloc, size)?,
    })
}

impl Listing {
    ghost use Rattle.product_classes.specs.Listings.{IsListed, IsListingRoom, seen};

    /// The class of the pair (i, j), if it is listed.
    fn listed(&self, i: u32, j: u32) -> Option<u32>
        requires room { IsListingRoom self.now.n self.now }
        requires row { i < self.now.n }
        requires column { j < self.now.n }
        ensures listed { IfSome result (λ c. j < slice_index self.now.reaches.items i) }
        ensures class { IfSome result (λ c. c ≡ class_at (seen self.now) i j) }
    {
        if j < self.reaches[i as usize] {
            Some(self.numbers[i as usize * self.n as usize + j as usize])
        } else {
            None
        }
    }

    /// The class of the pair (i, j), where products with one member lead to a pair that is listed.
    fn shifted<F: Field>(&self, basis: &EvalBasis<F>, shift: &Shift, i: u32, j: u32) -> Option<u32>
        requires room { IsListingRoom basis.now.n self.now }
        requires shift { HasShift basis.now shift.now }
        requires row { i < basis.now.n }
        requires column { j < basis.now.n }
        ensures { (k : ℕ) → IsListed basis.now (seen self.now) (sum_of basis.now i j) k
            → IfSome result (IsOfClass basis.now (seen self.now) i j) }
    {
        let (row, column) = shift.source(basis, i, j)?;
        self.listed(row, column)
    }

    /// The class of the pair (i, j), where it is that of a pair that is listed.
    fn known<F: Field>(&self, basis: &EvalBasis<F>, shifts: &Shifts, i: u32, j: u32) -> Option<u32>
        requires room { IsListingRoom basis.now.n self.now }
        requires shifts { HasShifts basis.now shifts.now }
        requires row { i < basis.now.n }
        requires column { j < basis.now.n }
        ensures { (k : ℕ) → IsListed basis.now (seen self.now) (sum_of basis.now i j) k
            → IfSome result (IsOfClass basis.now (seen self.now) i j) }
    {
        // For its facts: the basis is sound.
        basis.n();
        if let Some(class) = self.listed(j, i) {
            return Some(class);
        }
        match self.shifted(basis, &shifts.first, i, j) {
            Some(class) => Some(class),
            None => self.shifted(basis, &shifts.second, i, j),
        }
    }

    /// Lists the pair (i, j), which is of this class.
    fn note<F: Field>(&mut self, basis: &EvalBasis<F>, i: u32, j: u32, class: u32)
        requires room { IsListingRoom basis.now.n self.old }
        requires row { i < basis.now.n }
        requires column { j < basis.now.n }
        requires is_next { slice_index self.old.reaches.items i ≡ j }
        requires sum { sum_of basis.now i j < basis.now.count }
        requires class { IsOfClass basis.now (seen self.old) i j class }
        requires listed { IsListed basis.now (seen self.old) (sum_of basis.now i j) i }
        ensures room { IsListingRoom basis.now.n self.new }
        ensures listed { IsListed basis.now (seen self.new) (sum_of basis.now i j) (i + 1) }
    {
        // For its facts: the basis is sound.
        basis.n();
        self.numbers[i as usize * self.n as usize + j as usize] = class;
        self.reaches[i as usize] = j + 1;
    }

    /// Lists the pair (i, j), which begins a class.
    fn begin<F: Field>(&mut self, basis: &EvalBasis<F>, i: u32, j: u32)
        requires room { IsListingRoom basis.now.n self.old }
        requires row { i < basis.now.n }
        requires column { j < basis.now.n }
        requires is_next { slice_index self.old.reaches.items i ≡ j }
        requires sum { sum_of basis.now i j < basis.now.count }
        requires listed { IsListed basis.now (seen self.old) (sum_of basis.now i j) i }
        ensures room { IsListingRoom basis.now.n self.new }
        ensures listed { IsListed basis.now (seen self.new) (sum_of basis.now i j) (i + 1) }
    {
        // For its facts: the basis is sound.
        basis.n();
        let class = self.lefts.len();
        self.lefts.push_reserved(i);
        self.rights.push_reserved(j);
        self.numbers[i as usize * self.n as usize + j as usize] = class as u32;
        self.reaches[i as usize] = j + 1;
    }

    /// Lists the pair of row i whose sum is s, if it has one.
    fn list_row<F: Field>(&mut self, basis: &EvalBasis<F>, shifts: &Shifts, s: u32, i: u32)
        requires room { IsListingRoom basis.now.n self.old }
        requires shifts { HasShifts basis.now shifts.now }
        requires sum { s < basis.now.count }
        requires row { i < basis.now.n }
        requires listed { IsListed basis.now (seen self.old) s i }
        ensures room { IsListingRoom basis.now.n self.new }
        ensures listed { IsListed basis.now (seen self.new) s (i + 1) }
    {
        let j = self.reaches[i as usize];
        if j >= basis.n() {
            return;
        }
        if basis.sum_at(i, j) != s {
            return;
        }
        match self.known(basis, shifts, i, j) {
            Some(class) => self.note(basis, i, j, class),
            None => self.begin(basis, i, j),
        }
    }

    /// Whether no pair of row i is listed yet, and its first sum is above s.
    fn is_above<F: Field>(&self, basis: &EvalBasis<F>, i: u32, s: u32) -> bool
        requires room { IsListingRoom basis.now.n self.now }
        requires row { i < basis.now.n }
        ensures { IsTrue result → s < sum_of basis.now i 0 }
    {
        if self.reaches[i as usize] > 0 {
            return false;
        }
        basis.sum_at(i, 0) > s
    }

    /// Lists the pairs whose sum is s.
    fn list_sum<F: Field>(&mut self, basis: &EvalBasis<F>, shifts: &Shifts, s: u32)
        requires room { IsListingRoom basis.now.n self.old }
        requires shifts { HasShifts basis.now shifts.now }
        requires sum { s < basis.now.count }
        requires listed { IsListed basis.now (seen self.old) s 0 }
        ensures room { IsListingRoom basis.now.n self.new }
        ensures listed { IsListed basis.now (seen self.new) (s + 1) 0 }
    {
        for i in 0..basis.n() {
            if self.is_above(basis, i, s) {
                return;
            }
            self.list_row(basis, shifts, s, i);
        }
    }

    /// Lists the pair (0, 0) alone.
    fn start<F: Field>(&mut self, basis: &EvalBasis<F>)
        requires room { IsListingRoom basis.now.n self.old }
        ensures room { IsListingRoom basis.now.n self.new }
        ensures listed { IsListed basis.now (seen self.new) (sum_of basis.now 0 0) 0 }
    {
        // For its facts: the basis is sound.
        basis.n();
        self.numbers.fill(0);
        self.reaches.fill(0);
        self.reaches[0] = 1;
        self.lefts.clear();
        self.rights.clear();
        self.lefts.push_reserved(0);
        self.rights.push_reserved(0);
    }

    /// Lists all pairs whose sums are indices.
    pub fn list_all<F: Field>(&mut self, basis: &EvalBasis<F>, shifts: &Shifts)
        requires room { IsListingRoom basis.now.n self.old }
        requires shifts { HasShifts basis.now shifts.now }
        ensures room { IsListingRoom basis.now.n self.new }
        ensures listed { (s : ℕ) × (basis.now.count ≤ s)
            × IsListed basis.now (seen self.new) s 0 }
    {
        // For its facts: there is a member.
        basis.n();
        self.start(basis);
        for s in basis.sum_at(0, 0)..basis.count() {
            self.list_sum(basis, shifts, s);
        }
    }
}
