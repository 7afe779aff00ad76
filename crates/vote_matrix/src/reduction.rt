//! The fields of an elimination row by row, and its steps.

ghost use Rattle.std.specs.Prelude.{◌≡◌, ◌≢◌, ℕ, ◌+◌, ◌*◌, ◌<◌, ◌≤◌, ◌^◌, ◌↔◌, All, IfSome, IfNone, IsTrue, length, slice_index, slice_set, bit_xor};
ghost use Rattle.field_theory.specs.Sums.{xor_sum};
ghost use Rattle.gf_theory.specs.Field.{gf_mul};
ghost use Rattle.vote_matrix.specs.Slots.{slots, IsSlot};
ghost use Rattle.vote_matrix.specs.Lines.{IsLeft};
ghost use Rattle.vote_matrix.specs.Elimination.{Grows, IsEliminationOf, kept_at, reduced_at};
ghost use Rattle.vote_matrix.specs.Stored.{AreAbove, IsAllBut, IsFree, IsOwn, IsStored, elimination_of, mixed_at};

use crate::lines::number_at;
use crate::tables::{add_factors, copy_factors, extend_row, kept_entry, settle_free};
use gf_field::Field;

/// An elimination row by row. A row is reduced by multiples of the pivot rows above it, which are reduced themselves; the
/// first column where something is left is the pivot of the row.
#[derive(Drop)]
pub struct Reduction {
    pub bits: u32,
    pub modulus: u32,
    pub n: u32,
    /// The greatest number of pivots.
    pub most: u32,
    /// The number of pivots found.
    pub count: u32,
    /// The length of a reduced row: n, and some places more, so that rows are whole lanes.
    pub stride: usize,
    /// For each row how many of its first columns are settled.
    pub known: Vec<u32>,
    /// For each row the column of its pivot.
    pub pivot: Vec<Option<u32>>,
    /// For each column the number of its pivot.
    pub number: Vec<Option<u32>>,
    /// For each pivot, in the order found, its row.
    pub rows: Vec<u32>,
    /// For each pivot the inverse of the reduced entry there.
    pub inverse: Vec<u8>,
    /// For each pivot its reduced row. One more row is reduced in the first free place.
    pub reduced: Vec<u8>,
    /// For each row how many of its factors, from the first on, may differ from 0.
    pub spans: Vec<u32>,
    /// For each row the factors of the reduced rows that reduce it.
    pub factors: Vec<u8>,
}

impl Reduction {
    /// The column of the pivot of row i.
    pub fn pivot_of(&self, i: u32) -> Option<u32>
        requires stored { IsStored self.now }
        requires row { i < self.now.n }
        ensures { IsSlot self.now.n (slice_index (slots self.now.n self.now.pivot.items) i) result }
    {
        number_at(&self.pivot, i as usize)
    }

    /// Whether the pivot of row i stands before column j.
    pub fn has_pivot_before(&self, i: u32, j: u32) -> bool
        requires stored { IsStored self.now }
        requires row { i < self.now.n }
        requires column { j < self.now.n }
        ensures { IsTrue result
            ↔ (slice_index (slots self.now.n self.now.pivot.items) i < j) }
    {
        match self.pivot_of(i) {
            Some(column) => column < j,
            None => false,
        }
    }

    /// The number of the pivot of column j.
    pub fn number_of(&self, j: u32) -> Option<u32>
        requires stored { IsStored self.now }
        requires column { j < self.now.n }
        ensures { IsSlot self.now.n
            (slice_index (slots self.now.n self.now.number.items) j) result }
    {
        number_at(&self.number, j as usize)
    }

    /// The number of the pivot of row i.
    fn own(&self, i: u32) -> Option<u32>
        requires stored { IsStored self.now }
        requires row { i < self.now.n }
        ensures some { IfSome result (λ own. IsOwn self.now i own) }
        ensures none { IfNone result (IsFree self.now i) }
    {
        let column = self.pivot_of(i)?;
        self.number_of(column)
    }

    /// Settles the next entries of row i, which has the pivot of number `own`.
    fn settle_past<F: Field>(&mut self, f: &F, i: u32, own: u32, values: &[u8])
        requires stored { IsStored self.old }
        requires own { IsOwn self.old i own }
        requires bits { F.bits_of f.now ≡ self.old.bits }
        requires modulus { F.modulus_of f.now ≡ self.old.modulus }
        requires row { i < self.old.n }
        requires columns { slice_index self.old.known.items i + length values.now ≤ self.old.n }
        requires above { (p : ℕ) → p < i
            → slice_index self.old.known.items i + length values.now
            ≤ slice_index self.old.known.items p }
        requires symbols { All (λ x. x < 2 ^ self.old.bits) values.now }
        ensures stored { IsStored self.new }
        ensures grown { Grows (elimination_of self.old) i (length values.now)
            (elimination_of self.new) }
        ensures eliminated { (S : ℕ → ℕ → ℕ) → IsEliminationOf S (elimination_of self.old)
            → ((c : ℕ) → c < length values.now
            → slice_index values.now c ≡ S i (slice_index self.old.known.items i + c))
            → IsEliminationOf S (elimination_of self.new) }
    {
        let from = self.known[i as usize];
        let to = from + values.len() as u32;
        let span = self.spans[i as usize];
        extend_row(
            f,
            self.stride,
            self.most as usize,
            i as usize,
            from as usize,
            values,
            span as usize,
            &self.factors,
            own as usize,
            &mut self.reduced,
        );
        self.known[i as usize] = to;
    }

    /// Settles the next entries of row i, which has no pivot, and reduces it in the first free place. Answers the first
    /// column where something is left.
    fn reduce_free<F: Field>(&mut self, f: &F, i: u32, values: &[u8]) -> Option<u32>
        requires stored { IsStored self.old }
        requires free { IsFree self.old i }
        requires bits { F.bits_of f.now ≡ self.old.bits }
        requires modulus { F.modulus_of f.now ≡ self.old.modulus }
        requires row { i < self.old.n }
        requires columns { slice_index self.old.known.items i + length values.now ≤ self.old.n }
        requires above { (p : ℕ) → p < i
            → slice_index self.old.known.items i + length values.now
            ≤ slice_index self.old.known.items p }
        requires symbols { All (λ x. x < 2 ^ self.old.bits) values.now }
        requires room { self.old.count < self.old.most }
        ensures stored { IsStored self.new }
        ensures grown { Grows (elimination_of self.old) i (length values.now)
            (elimination_of self.new) }
        ensures same { self.new ≡ record self.old {
          known = self.new.known;
          spans = self.new.spans;
          reduced = self.new.reduced;
          factors = self.new.factors;
        } }
        ensures left { IsLeft self.old.n (slice_index self.old.known.items i)
            (slice_index self.new.known.items i) (slots self.old.n self.old.number.items)
            (reduced_at (elimination_of self.new) self.new.count) result }
        ensures all_but { (S : ℕ → ℕ → ℕ) → IsEliminationOf S (elimination_of self.old)
            → ((c : ℕ) → c < length values.now
            → slice_index values.now c ≡ S i (slice_index self.old.known.items i + c))
            → IsAllBut S (elimination_of self.new) i }
    {
        let from = self.known[i as usize];
        let rest = settle_free(
            f,
            self.stride,
            self.most as usize,
            i as usize,
            from as usize,
            values,
            self.spans[i as usize] as usize,
            &self.number,
            &self.inverse,
            self.count as usize,
            &mut self.reduced,
            &mut self.factors,
        );
        self.spans[i as usize] = rest.span as u32;
        self.known[i as usize] = from + values.len() as u32;
        rest.column
    }

    /// The row that was reduced in the first free place becomes the pivot row of this column.
    fn note_pivot<F: Field>(&mut self, f: &F, i: u32, column: u32)
        requires stored { IsStored self.old }
        requires free { IsFree self.old i }
        requires bits { F.bits_of f.now ≡ self.old.bits }
        requires modulus { F.modulus_of f.now ≡ self.old.modulus }
        requires row { i < self.old.n }
        requires room { self.old.count < self.old.most }
        requires column { column < slice_index self.old.known.items i }
        requires none { self.old.n ≤ slice_index (slots self.old.n self.old.number.items) column }
        requires some { reduced_at (elimination_of self.old) self.old.count column ≢ 0 }
        requires zeros { (j : ℕ) → j < column
            → reduced_at (elimination_of self.old) self.old.count j ≡ 0 }
        ensures stored { IsStored self.new }
        ensures same { self.new ≡ record self.old {
          count = self.new.count;
          pivot = self.new.pivot;
          number = self.new.number;
          rows = self.new.rows;
          inverse = self.new.inverse;
        } }
        ensures one { self.new.count ≡ self.old.count + 1 }
        ensures eliminated { (S : ℕ → ℕ → ℕ) → IsAllBut S (elimination_of self.old) i
            → IsEliminationOf S (elimination_of self.new) }
    {
        let count = self.count as usize;
        let lead = self.reduced[count * self.stride + column as usize];
        self.pivot[i as usize] = Some(column);
        self.number[column as usize] = Some(self.count);
        self.rows[count] = i;
        self.inverse[count] = f.inv(lead);
        self.count += 1;
    }

    /// Settles the next entries of row i, which has no pivot.
    fn settle_new<F: Field>(&mut self, f: &F, i: u32, values: &[u8])
        requires stored { IsStored self.old }
        requires free { IsFree self.old i }
        requires bits { F.bits_of f.now ≡ self.old.bits }
        requires modulus { F.modulus_of f.now ≡ self.old.modulus }
        requires row { i < self.old.n }
        requires columns { slice_index self.old.known.items i + length values.now ≤ self.old.n }
        requires above { (p : ℕ) → p < i
            → slice_index self.old.known.items i + length values.now
            ≤ slice_index self.old.known.items p }
        requires symbols { All (λ x. x < 2 ^ self.old.bits) values.now }
        requires room { self.old.count < self.old.most }
        ensures stored { IsStored self.new }
        ensures grown { Grows (elimination_of self.old) i (length values.now)
            (elimination_of self.new) }
        ensures eliminated { (S : ℕ → ℕ → ℕ) → IsEliminationOf S (elimination_of self.old)
            → ((c : ℕ) → c < length values.now
            → slice_index values.now c ≡ S i (slice_index self.old.known.items i + c))
            → IsEliminationOf S (elimination_of self.new) }
    {
        if let Some(column) = self.reduce_free(f, i, values) {
            self.note_pivot(f, i, column);
        }
    }

    /// Settles the next entries of row i.
    pub fn settle<F: Field>(&mut self, f: &F, i: u32, values: &[u8])
        requires stored { IsStored self.old }
        requires bits { F.bits_of f.now ≡ self.old.bits }
        requires modulus { F.modulus_of f.now ≡ self.old.modulus }
        requires row { i < self.old.n }
        requires columns { slice_index self.old.known.items i + length values.now ≤ self.old.n }
        requires above { (p : ℕ) → p < i
            → slice_index self.old.known.items i + length values.now
            ≤ slice_index self.old.known.items p }
        requires symbols { All (λ x. x < 2 ^ self.old.bits) values.now }
        requires room { self.old.count < self.old.most }
        ensures stored { IsStored self.new }
        ensures grown { Grows (elimination_of self.old) i (length values.now)
            (elimination_of self.new) }
        ensures eliminated { (S : ℕ → ℕ → ℕ) → IsEliminationOf S (elimination_of self.old)
            → ((c : ℕ) → c < length values.now
            → slice_index values.now c ≡ S i (slice_index self.old.known.items i + c))
            → IsEliminationOf S (elimination_of self.new) }
    {
        match self.own(i) {
            Some(own) => self.settle_past(f, i, own, values),
            None => self.settle_new(f, i, values),
        }
    }

    /// What row i keeps in column j.
    pub fn kept<F: Field>(&self, f: &F, i: u32, j: u32) -> u8
        requires stored { IsStored self.now }
        requires bits { F.bits_of f.now ≡ self.now.bits }
        requires modulus { F.modulus_of f.now ≡ self.now.modulus }
        requires row { i < self.now.n }
        requires column { j < self.now.n }
        ensures sum { result ≡ kept_at (elimination_of self.now) i j }
        ensures symbol { result < 2 ^ self.now.bits }
    {
        kept_entry(
            f,
            self.stride,
            self.most as usize,
            i as usize,
            j as usize,
            self.spans[i as usize] as usize,
            &self.factors,
            &self.reduced,
        )
    }

    /// Takes pivot row number t as it came in place of the reduced one: its factors are added, each times that of the row.
    fn take_row<F: Field>(&self, f: &F, t: u32, out: &mut [u8])
        requires stored { IsStored self.now }
        requires bits { F.bits_of f.now ≡ self.now.bits }
        requires modulus { F.modulus_of f.now ≡ self.now.modulus }
        requires number { t < self.now.count }
        requires room { length out.old ≡ self.now.most }
        requires out { All (λ x. x < 2 ^ self.now.bits) out.old }
        ensures long { length out.new ≡ length out.old }
        ensures symbols { All (λ x. x < 2 ^ self.now.bits) out.new }
        ensures above { (i : ℕ) → i < self.now.n
            → AreAbove (elimination_of self.now) i (slice_index out.old)
            → AreAbove (elimination_of self.now) i (slice_index out.new) }
        ensures sum { (S : ℕ → ℕ → ℕ) → (i j : ℕ) → IsEliminationOf S (elimination_of self.now)
            → i < self.now.n → AreAbove (elimination_of self.now) i (slice_index out.old)
            → j < slice_index self.now.known.items i
            → mixed_at (elimination_of self.now) S (slice_index out.new) t j
            ≡ mixed_at (elimination_of self.now) S (slice_index out.old) (t + 1) j }
    {
        let row = self.rows[t as usize] as usize;
        let span = self.spans[row] as usize;
        add_factors(
            f,
            self.most as usize,
            row,
            span,
            &self.factors,
            t as usize,
            out,
        );
    }

    /// Writes the factors of the pivot rows, as they came, of which what row i keeps is the sum.
    pub fn unreduce<F: Field>(&self, f: &F, i: u32, out: &mut [u8])
        requires stored { IsStored self.now }
        requires bits { F.bits_of f.now ≡ self.now.bits }
        requires modulus { F.modulus_of f.now ≡ self.now.modulus }
        requires row { i < self.now.n }
        requires room { length out.old ≡ self.now.most }
        ensures long { length out.new ≡ length out.old }
        ensures symbols { All (λ x. x < 2 ^ self.now.bits) out.new }
        ensures sum { (S : ℕ → ℕ → ℕ) → (j : ℕ) → IsEliminationOf S (elimination_of self.now)
            → j < slice_index self.now.known.items i
            → kept_at (elimination_of self.now) i j ≡ xor_sum self.now.count (λ t.
            gf_mul self.now.bits self.now.modulus (slice_index out.new t)
            (S (slice_index self.now.rows.items t) j)) }
    {
        let span = self.spans[i as usize] as usize;
        copy_factors(self.most as usize, i as usize, span, &self.factors, out);
        for t in (0..self.count).rev() {
            self.take_row(f, t, out);
        }
    }
}
