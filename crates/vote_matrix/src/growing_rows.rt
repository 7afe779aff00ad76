ghost use Rattle.std.specs.Prelude.{◌≡◌, ◌≢◌, ℕ, ◌+◌, ◌*◌, ◌<◌, ◌≤◌, ◌^◌, ◌↔◌, All, IsTrue, IfOk, length, slice_index};
ghost use Rattle.field_theory.specs.Sums.{xor_sum};
ghost use Rattle.gf_theory.specs.Field.{gf_mul, IsModulus};
ghost use Rattle.linear_theory.specs.Linear.{IsCandidate, KeepsRank};
ghost use Rattle.vote_matrix.specs.Elimination.{AddsNothing, Grows, IsEliminationOf, IsEmpty, IsSound, MaySettle, count_pivots, rank_of};

use crate::reduction::Reduction;
use gf_field::Field;
use std::alloc::{AllocError, Global};
use std::marker::Model;

/// A square matrix that is settled row by row: the next entries of a row may be settled where the rows above it are
/// settled as far. Its entries are not stored, but the reduced rows of its pivots, and the factors that reduce each row.
///
/// The clauses speak of every matrix S of which this is an elimination (`IsEliminationOf`): so they hold of each
/// completion of what is settled.
#[derive(Drop)]
pub struct GrowingRows {
    reduction: Reduction,
}

impl Model for GrowingRows {
    ghost use Rattle.vote_matrix.specs.Elimination.{Elimination};

    ghost Value = { Elimination };

    ghost use Rattle.vote_matrix.specs.Stored.{IsStored, elimination_of};

    ghost view = { λ a. elimination_of a.reduction };

    ghost invariant = { λ a. IsStored a.reduction };
}

impl GrowingRows {
    /// Nothing is settled. There is room for at most `most` pivots.
    pub fn new(
        alloc: Global,
        bits: u32,
        modulus: u32,
        n: u32,
        most: u32,
    ) -> Result<GrowingRows, AllocError>
        requires field { IsModulus bits modulus }
        requires some { 1 ≤ n }
        requires small { n ≤ 1024 }
        requires most { most ≤ 1024 }
        ensures { IfOk result (λ v. IsEmpty bits modulus n most v) }
    {
        let size = n as usize;
        let room = most as usize;
        let stride = (size + 15) / 16 * 16;
        Ok(GrowingRows {
            reduction: Reduction {
                bits,
                modulus,
                n,
                most,
                count: 0,
                stride,
                known: vec![in alloc; 0; size]?,
                pivot: vec![in alloc; None; size]?,
                number: vec![in alloc; None; size]?,
                rows: vec![in alloc; 0; room]?,
                inverse: vec![in alloc; 0; room]?,
                reduced: vec![in alloc; 0; room * stride]?,
                spans: vec![in alloc; 0; size]?,
                factors: vec![in alloc; 0; size * room]?,
            },
        })
    }

    /// Nothing is settled afterwards.
    pub fn clear(&mut self)
        ensures { IsEmpty self.old.bits self.old.modulus self.old.n self.old.most self.new }
    {
        self.reduction.count = 0;
        self.reduction.known.fill(0);
        self.reduction.pivot.fill(None);
        self.reduction.number.fill(None);
        self.reduction.spans.fill(0);
    }

    /// There is room for so many pivots.
    pub fn most(&self) -> u32
        ensures most { result ≡ self.now.most }
    {
        self.reduction.most
    }

    /// How many of the first columns of row i are settled.
    pub fn reach(&self, i: u32) -> u32
        requires { i < self.now.n }
        ensures reach { result ≡ slice_index self.now.known i }
        ensures sound { IsSound self.now }
    {
        self.reduction.known[i as usize]
    }

    /// Settles the next entries of row i: these values. A row above it is settled as far.
    pub fn settle_row<F: Field>(&mut self, f: &F, i: u32, values: &[u8])
        requires bits { F.bits_of f.now ≡ self.old.bits }
        requires modulus { F.modulus_of f.now ≡ self.old.modulus }
        requires row { i < self.old.n }
        requires columns { slice_index self.old.known i + length values.now ≤ self.old.n }
        requires above { (p : ℕ) → p < i
            → slice_index self.old.known i + length values.now ≤ slice_index self.old.known p }
        requires symbols { All (λ x. x < 2 ^ self.old.bits) values.now }
        requires room { self.old.count < self.old.most }
        ensures grown { Grows self.old i (length values.now) self.new }
        ensures eliminated { (S : ℕ → ℕ → ℕ) → IsEliminationOf S self.old
            → ((c : ℕ) → c < length values.now
            → slice_index values.now c ≡ S i (slice_index self.old.known i + c))
            → IsEliminationOf S self.new }
    {
        self.reduction.settle(f, i, values);
    }

    /// Settles the next entry of row i with what is kept there. No pivot changes.
    pub fn settle_kept(&mut self, i: u32)
        requires row { i < self.old.n }
        requires column { slice_index self.old.known i < self.old.n }
        requires above { (p : ℕ) → p < i
            → slice_index self.old.known i < slice_index self.old.known p }
        ensures grown { Grows self.old i 1 self.new }
        ensures count { self.new.count ≡ self.old.count }
        ensures eliminated { (S : ℕ → ℕ → ℕ) → (j : ℕ) → IsEliminationOf S self.old
            → j ≡ slice_index self.old.known i
            → IsCandidate (2 ^ self.old.bits) (gf_mul self.old.bits self.old.modulus) S i j
            → KeepsRank (2 ^ self.old.bits) (gf_mul self.old.bits self.old.modulus) S i j (S i j)
            → IsEliminationOf S self.new }
    {
        self.reduction.known[i as usize] += 1;
    }

    /// Whether neither row i nor column j adds to the rank of what is before it.
    pub fn candidate(&self, i: u32, j: u32) -> bool
        requires row { i < self.now.n }
        requires column { j < self.now.n }
        requires next { MaySettle self.now i j }
        ensures { (S : ℕ → ℕ → ℕ) → IsEliminationOf S self.now
            → (IsTrue result
            ↔ IsCandidate (2 ^ self.now.bits) (gf_mul self.now.bits self.now.modulus) S i j) }
    {
        if self.reduction.has_pivot_before(i, j) {
            return false;
        }
        match self.reduction.number_of(j) {
            Some(number) => self.reduction.rows[number as usize] >= i,
            None => true,
        }
    }

    /// At a candidate the one value of the entry that keeps the rank.
    pub fn residue<F: Field>(&self, f: &F, i: u32, j: u32) -> u8
        requires bits { F.bits_of f.now ≡ self.now.bits }
        requires modulus { F.modulus_of f.now ≡ self.now.modulus }
        requires row { i < self.now.n }
        requires column { j < self.now.n }
        requires next { MaySettle self.now i j }
        ensures symbol { result < 2 ^ self.now.bits }
        ensures keeps { (S : ℕ → ℕ → ℕ) → IsEliminationOf S self.now
            → IsCandidate (2 ^ self.now.bits) (gf_mul self.now.bits self.now.modulus) S i j
            → KeepsRank (2 ^ self.now.bits) (gf_mul self.now.bits self.now.modulus) S i j result }
        ensures only { (S : ℕ → ℕ → ℕ) → IsEliminationOf S self.now
            → IsCandidate (2 ^ self.now.bits) (gf_mul self.now.bits self.now.modulus) S i j
            → (x : ℕ) → x < 2 ^ self.now.bits
            → KeepsRank (2 ^ self.now.bits) (gf_mul self.now.bits self.now.modulus) S i j x
            → x ≡ result }
    {
        self.reduction.kept(f, i, j)
    }

    /// The number of pivots in the settled part.
    pub fn pivots(&self) -> u32
        ensures count { result ≡ self.now.count }
        ensures pivots { (S : ℕ → ℕ → ℕ) → IsEliminationOf S self.now
            → result ≡ count_pivots self.now S }
        ensures rank { (S : ℕ → ℕ → ℕ) → IsEliminationOf S self.now
            → result ≤ rank_of self.now S self.now.n self.now.n }
        ensures sound { IsSound self.now }
    {
        self.reduction.count
    }

    /// The row of pivot number t, in the order in which they were found.
    pub fn pivot_row(&self, t: u32) -> u32
        requires { t < self.now.count }
        ensures row { result ≡ slice_index self.now.rows t }
        ensures inside { result < self.now.n }
    {
        self.reduction.rows[t as usize]
    }

    /// Whether the settled part of row i adds nothing to the rank of the rows above it.
    pub fn adds_nothing(&self, i: u32) -> bool
        requires { i < self.now.n }
        ensures { (S : ℕ → ℕ → ℕ) → IsEliminationOf S self.now
            → (IsTrue result ↔ AddsNothing self.now S i) }
    {
        self.reduction.pivot_of(i).is_none()
    }

    /// Writes the factors of the pivot rows, as they came, of which a row that adds nothing is the sum.
    pub fn combination<F: Field>(&self, f: &F, i: u32, factors: &mut [u8])
        requires bits { F.bits_of f.now ≡ self.now.bits }
        requires modulus { F.modulus_of f.now ≡ self.now.modulus }
        requires row { i < self.now.n }
        requires room { length factors.old ≡ self.now.most }
        ensures long { length factors.new ≡ length factors.old }
        ensures symbols { All (λ x. x < 2 ^ self.now.bits) factors.new }
        ensures sum { (S : ℕ → ℕ → ℕ) → (j : ℕ) → IsEliminationOf S self.now
            → AddsNothing self.now S i → j < slice_index self.now.known i
            → S i j ≡ xor_sum self.now.count (λ t.
            gf_mul self.now.bits self.now.modulus (slice_index factors.new t)
            (S (slice_index self.now.rows t) j)) }
    {
        self.reduction.unreduce(f, i, factors);
    }
}

#[cfg(test)]
mod tests {
    use super::*;
    use gf_field::PolyField;
    use std::test::Fail;

    // Over the field of four, where 2 times 2 is 3 and 2 times 3 is 1.
    #[test]
    fn settles_four_entries(rt: HostRuntime) -> Result<(), Fail> {
        let f = PolyField::new(2, 7).ok_or("irreducible")?;
        let mut g = GrowingRows::new(rt.alloc(), 2, 7, 2, 2)?;
        assert_eq!(rt; g.most(), 2);
        g.settle_row(&f, 0, &[2, 3]);
        assert_eq!(rt; g.pivots(), 1);
        assert_eq!(rt; g.pivot_row(0), 0);
        g.settle_row(&f, 1, &[3]);
        assert_eq!(rt; g.reach(1), 1);
        assert_eq!(rt; g.pivots(), 1);
        assert!(rt; g.adds_nothing(1));
        assert!(rt; g.candidate(1, 1));
        // row 1 is 2 times row 0
        assert_eq!(rt; g.residue(&f, 1, 1), 1);
        let mut factors = [0; 2];
        g.combination(&f, 1, &mut factors);
        assert_eq!(rt; factors[0], 2);
        g.settle_row(&f, 1, &[0]);
        assert!(rt; !g.adds_nothing(1));
        assert_eq!(rt; g.pivots(), 2);
        Ok(())
    }

    // The third row is the first one and 2 times the second one, which has its pivot before that of the first.
    #[test]
    fn names_the_rows_as_they_came(rt: HostRuntime) -> Result<(), Fail> {
        let f = PolyField::new(2, 7).ok_or("irreducible")?;
        let mut g = GrowingRows::new(rt.alloc(), 2, 7, 3, 3)?;
        g.settle_row(&f, 0, &[0, 1, 2]);
        g.settle_row(&f, 1, &[1, 1, 3]);
        g.settle_row(&f, 2, &[2, 3]);
        assert!(rt; g.adds_nothing(2));
        let mut factors = [0; 3];
        g.combination(&f, 2, &mut factors);
        assert_eq!(rt; factors[0], 1);
        assert_eq!(rt; factors[1], 2);
        assert_eq!(rt; g.residue(&f, 2, 2), 3);
        g.settle_kept(2);
        assert_eq!(rt; g.reach(2), 3);
        assert_eq!(rt; g.pivots(), 2);
        g.clear();
        assert_eq!(rt; g.reach(0), 0);
        g.settle_row(&f, 0, &[0, 1, 2]);
        g.settle_row(&f, 1, &[0, 2, 3]);
        assert!(rt; g.adds_nothing(1));
        g.combination(&f, 1, &mut factors);
        assert_eq!(rt; factors[0], 2);
        assert_eq!(rt; g.pivots(), 1);
        Ok(())
    }
}
