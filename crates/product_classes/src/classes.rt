//! The classes of a basis, and values by them.

ghost use Rattle.std.specs.Prelude.{ℕ, ◌≡◌, ◌+◌, ◌*◌, ◌<◌, ◌≤◌, ◌^◌, length, slice_index, All, IfOk};
ghost use Rattle.order_theory.specs.Basis.{IsWord};
ghost use Rattle.product_classes.specs.Table.{AreClassesOf, HasColumns, IsRoomFor, class_at};
ghost use Rattle.product_classes.specs.Values.{AreValues, IsZeroBefore};
ghost use Rattle.product_classes.specs.Shifts.{AreShiftRooms};
ghost use Rattle.product_classes.specs.Listings.{IsListingRoom};
ghost use Rattle.product_classes.specs.Kept.{listed};

use crate::columns::{classes_below, columns_of, padded, write_range};
use crate::listing::{Listing, new_listing};
use crate::reaches::write_reaches;
use crate::shifts::{Shifts, new_shifts};
use eval_basis::EvalBasis;
use gf_field::Field;
use gf_linear::combine_rows;
use std::alloc::{AllocError, Global};
use std::marker::Model;

/// The pairs (i, j) of members of a basis, by classes: where two pairs are of one class, the matrix of every list has the
/// same entry at both. So a list of values, one for each class, has all entries. Classes are numbered by rising sums.
#[derive(Drop)]
pub struct Classes {
    // its reaches are those of the sums below the limit
    listing: Listing,
    shifts: Shifts,
    size: usize,
    limit: u32,
    first: u32,
    width: usize,
    // for each position from `first` on the products of the first classes
    columns: Vec<u8>,
}

impl Model for Classes {
    ghost use Rattle.product_classes.specs.Table.{ClassTable};
    ghost use Rattle.product_classes.specs.Kept.{table_of, IsKept};

    ghost Value = { ClassTable };

    ghost view = { λ a. table_of a };

    ghost invariant = { λ a. IsKept a };
}

/// Finds the products with two members, and lists the classes of the pairs of members.
fn list_classes<F: Field>(
    basis: &EvalBasis<F>,
    limit: u32,
    shifts: &mut Shifts,
    listing: &mut Listing,
)
    requires limit { limit ≤ basis.now.count }
    requires shifts { AreShiftRooms basis.now.n shifts.old }
    requires listing { IsListingRoom basis.now.n listing.old }
    ensures shifts { AreShiftRooms basis.now.n shifts.new }
    ensures listing { IsListingRoom basis.now.n listing.new }
    ensures classes { AreClassesOf basis.now (listed listing.new limit) }
    ensures numbers { All (λ x. x < length listing.new.lefts.items) listing.new.numbers.items }
{
    shifts.fill(basis);
    listing.list_all(basis, shifts);
    write_reaches(basis, limit, &mut listing.reaches);
}

impl Classes {
    /// The classes of the pairs of a basis whose sums are indices, with the products of those whose sums are below
    /// `limit` at the positions from `first` on.
    pub fn new<F: Field>(
        alloc: Global,
        basis: &EvalBasis<F>,
        limit: u32,
        first: u32,
    ) -> Result<Classes, AllocError>
        requires limit { limit ≤ basis.now.count }
        requires first { first ≤ basis.now.n }
        ensures classes { IfOk result (AreClassesOf basis.now) }
        ensures columns { IfOk result (HasColumns basis.now) }
        ensures limit { IfOk result (λ v. v.limit ≡ limit) }
        ensures first { IfOk result (λ v. v.first ≡ first) }
    {
        let n = basis.n();
        let mut shifts = new_shifts(alloc, n as usize)?;
        let mut listing = new_listing(alloc, n)?;
        list_classes(basis, limit, &mut shifts, &mut listing);
        Classes::with_columns(alloc, basis, limit, first, shifts, listing)
    }

    /// The classes that are listed, with the products of those with sums below the limit.
    fn with_columns<F: Field>(
        alloc: Global,
        basis: &EvalBasis<F>,
        limit: u32,
        first: u32,
        shifts: Shifts,
        listing: Listing,
    ) -> Result<Classes, AllocError>
        requires first { first ≤ basis.now.n }
        requires shifts { AreShiftRooms basis.now.n shifts }
        requires listing { IsListingRoom basis.now.n listing }
        requires classes { AreClassesOf basis.now (listed listing limit) }
        requires numbers { All (λ x. x < length listing.lefts.items) listing.numbers.items }
        ensures classes { IfOk result (AreClassesOf basis.now) }
        ensures columns { IfOk result (HasColumns basis.now) }
        ensures limit { IfOk result (λ v. v.limit ≡ limit) }
        ensures first { IfOk result (λ v. v.first ≡ first) }
    {
        // For its facts: there is a member, and there are at most 1024.
        basis.n();
        let below = classes_below(basis, &listing.lefts, &listing.rights, limit);
        let width = padded(below);
        let columns = columns_of(
            alloc,
            basis,
            &listing.lefts[..below],
            &listing.rights[..below],
            first as usize,
            width,
        )?;
        Ok(Classes {
            size: padded(listing.lefts.len()),
            listing,
            shifts,
            limit,
            first,
            width,
            columns,
        })
    }

    /// Room for the classes of any basis of n members.
    pub fn room(alloc: Global, n: u32) -> Result<Classes, AllocError>
        requires some { 1 ≤ n }
        requires small { n ≤ 1024 }
        ensures { IfOk result (IsRoomFor n) }
    {
        Ok(Classes {
            listing: new_listing(alloc, n)?,
            shifts: new_shifts(alloc, n as usize)?,
            size: n as usize * n as usize,
            limit: 0,
            first: 0,
            width: 0,
            columns: Vec::new(alloc),
        })
    }

    /// Finds the classes of the pairs of a basis whose sums are indices, in a room. It keeps no products of them: `first`
    /// is n.
    pub fn fill<F: Field>(&mut self, basis: &EvalBasis<F>, limit: u32)
        requires limit { limit ≤ basis.now.count }
        requires room { IsRoomFor basis.now.n self.old }
        ensures classes { AreClassesOf basis.now self.new }
        ensures columns { HasColumns basis.now self.new }
        ensures limit { self.new.limit ≡ limit }
        ensures first { self.new.first ≡ basis.now.n }
        ensures room { IsRoomFor basis.now.n self.new }
    {
        list_classes(basis, limit, &mut self.shifts, &mut self.listing);
        self.limit = limit;
        self.first = basis.n();
        self.width = self.size;
        self.columns.clear();
    }

    /// How many entries a list of values has at least.
    pub fn len(&self) -> usize
        ensures value { result ≡ self.now.size }
        ensures some { 1 ≤ result }
        ensures few { result ≤ self.now.n * self.now.n + 15 }
        ensures small { self.now.n ≤ 1024 }
    {
        self.size
    }

    /// The limit of sums.
    pub fn limit(&self) -> u32
        ensures { result ≡ self.now.limit }
    {
        self.limit
    }

    /// The first position that the products of the classes are kept at.
    pub fn first(&self) -> u32
        ensures { result ≡ self.now.first }
    {
        self.first
    }

    /// How many of the first columns of row i have sums below the limit.
    pub fn reach(&self, i: u32) -> u32
        requires { i < self.now.n }
        ensures value { result ≡ slice_index self.now.reaches i }
        ensures within { result ≤ self.now.n }
    {
        self.listing.reaches[i as usize]
    }

    /// The class of the pair (i, j).
    pub fn class_of(&self, i: u32, j: u32) -> u32
        requires row { i < self.now.n }
        requires column { j < self.now.n }
        ensures value { result ≡ class_at self.now i j }
        ensures below { result < self.now.size }
    {
        self.listing.numbers[i as usize * self.listing.n as usize + j as usize]
    }

    /// The value of the class of the pair (i, j).
    pub fn value_at(&self, i: u32, j: u32, values: &[u8]) -> u8
        requires row { i < self.now.n }
        requires column { j < self.now.n }
        requires values { self.now.size ≤ length values.now }
        ensures value { result ≡ slice_index values.now (class_at self.now i j) }
        ensures symbol { (size : ℕ) → All (λ x. x < size) values.now → result < size }
    {
        values[self.class_of(i, j) as usize]
    }

    /// Writes the values of the classes of row i, at as many columns from `from` on as `row` is long.
    pub fn gather(&self, i: u32, from: u32, values: &[u8], row: &mut [u8])
        requires row { i < self.now.n }
        requires columns { from + length row.old ≤ self.now.n }
        requires values { self.now.size ≤ length values.now }
        ensures long { length row.new ≡ length row.old }
        ensures entries { (q : ℕ) → q < length row.new
            → slice_index row.new q ≡ slice_index values.now (class_at self.now i (from + q)) }
        ensures symbols { (size : ℕ) → All (λ x. x < size) values.now
            → All (λ x. x < size) row.new }
    {
        let n = self.listing.n as usize;
        let start = i as usize * n + from as usize;
        look_up(&self.listing.numbers[start..start + row.len()], values, row);
    }

    /// Writes the values of all classes whose sums are below the limit, for a list that is 0 before `first`.
    pub fn write_values<F: Field>(&self, basis: &EvalBasis<F>, list: &[u8], values: &mut [u8])
        requires classes { AreClassesOf basis.now self.now }
        requires columns { HasColumns basis.now self.now }
        requires word { IsWord basis.now.bits basis.now.n list.now }
        requires zeros { IsZeroBefore self.now.first list.now }
        requires room { self.now.size ≤ length values.old }
        requires symbols { All (λ x. x < 2 ^ basis.now.bits) values.old }
        ensures long { length values.new ≡ length values.old }
        ensures symbols { All (λ x. x < 2 ^ basis.now.bits) values.new }
        ensures values { AreValues basis.now self.now list.now values.new self.now.limit }
    {
        // For its facts: the basis is sound.
        basis.n();
        combine_rows(
            basis.field(),
            &list[self.first as usize..],
            &self.columns,
            &mut values[..self.width],
        );
    }

    /// Writes the values of the classes with sums from `from` to `to`. The row is room for the products of a class.
    pub fn write_sums<F: Field>(
        &self,
        basis: &EvalBasis<F>,
        list: &[u8],
        from: u32,
        to: u32,
        row: &mut [u8],
        values: &mut [u8],
    )
        requires classes { AreClassesOf basis.now self.now }
        requires word { IsWord basis.now.bits basis.now.n list.now }
        requires to { to ≤ basis.now.count }
        requires room { self.now.size ≤ length values.old }
        requires row { length row.old ≡ basis.now.n }
        ensures long { length values.new ≡ length values.old }
        ensures row { length row.new ≡ length row.old }
        ensures symbols { All (λ x. x < 2 ^ basis.now.bits) values.old
            → All (λ x. x < 2 ^ basis.now.bits) values.new }
        ensures values { AreValues basis.now self.now list.now values.old from
            → AreValues basis.now self.now list.now values.new to }
    {
        let lefts = &self.listing.lefts;
        let rights = &self.listing.rights;
        let start = classes_below(basis, lefts, rights, from);
        let end = classes_below(basis, lefts, rights, to);
        write_range(basis, list, lefts, rights, start, end, row, values);
    }
}

/// Writes the values of these classes.
fn look_up(classes: &[u32], values: &[u8], row: &mut [u8])
    requires same { length row.old ≡ length classes.now }
    requires values { All (λ x. x < length values.now) classes.now }
    ensures long { length row.new ≡ length row.old }
    ensures entries { (q : ℕ) → q < length row.new
        → slice_index row.new q ≡ slice_index values.now (slice_index classes.now q) }
{
    for q in 0..row.len() {
        row[q] = values[classes[q] as usize];
    }
}
