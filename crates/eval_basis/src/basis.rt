//! The basis and its readers.

ghost use Rattle.std.specs.Prelude.{◌≡◌, ◌<◌, [], slice_index_or};
ghost use Rattle.order_theory.specs.Basis.{IsSoundBasis, rank_at as rank_of, label as label_of, pairs_at, sum_at as sum_of, lead as lead_of};

use gf_field::Field;
use std::marker::Model;

/// The values of n functions at n points, which are independent, with the lists dual to them. Its members are numbered
/// from 0 to n - 1, by rising label. It keeps of the functions what a decoder needs: which sums of two members there
/// are, and the factor of a sum in the product of two. Every basis is sound.
///
/// It owns the field that its symbols are of, so a call that is handed a basis needs no field beside it. No call takes
/// memory. In all calls k, i and j are below `n()`.
#[derive(Drop)]
pub struct EvalBasis<F: Field> {
    pub(crate) field: F,
    pub(crate) n: u32,
    pub(crate) count: u32,
    pub(crate) ranks: Vec<u32>,
    pub(crate) labels: Vec<u32>,
    pub(crate) pair_counts: Vec<u32>,
    // n rows of n, row by row
    pub(crate) vectors: Vec<u8>,
    pub(crate) duals: Vec<u8>,
    pub(crate) sums: Vec<u32>,
    pub(crate) leads: Vec<u8>,
}

impl<F: Field> Model for EvalBasis<F> {
    ghost use Rattle.order_theory.specs.Basis.{Basis};
    ghost use Rattle.eval_basis.specs.Stored.{basis_with, IsStored};

    ghost Value = { Basis };

    ghost view = { λ s. basis_with (F.bits_of s.field) (F.modulus_of s.field) s.n s.count
        s.ranks.items s.labels.items s.vectors.items s.duals.items s.pair_counts.items
        s.sums.items s.leads.items };

    ghost invariant = { λ s. IsStored (F.bits_of s.field) (F.modulus_of s.field) s.n s.count
        s.ranks.items s.labels.items s.vectors.items s.duals.items s.pair_counts.items
        s.sums.items s.leads.items };
}

impl<F: Field> EvalBasis<F> {
    /// The field: its bits and its modulus are those of the basis.
    pub fn field(&self) -> &F
        ensures bits { F.bits_of result.now ≡ self.now.bits }
        ensures modulus { F.modulus_of result.now ≡ self.now.modulus }
        ensures sound { IsSoundBasis self.now }
    {
        &self.field
    }

    /// The bits of a symbol.
    pub fn bits(&self) -> u32
        ensures value { result ≡ self.now.bits }
        ensures sound { IsSoundBasis self.now }
    {
        self.field.bits()
    }

    /// The modulus of the field.
    pub fn modulus(&self) -> u32
        ensures value { result ≡ self.now.modulus }
        ensures sound { IsSoundBasis self.now }
    {
        self.field.modulus()
    }

    /// The number of functions of the domain: an index from here up is none.
    pub fn count(&self) -> u32
        ensures value { result ≡ self.now.count }
        ensures sound { IsSoundBasis self.now }
    {
        self.count
    }

    /// The number of members, and of the symbols of a vector.
    pub fn n(&self) -> u32
        ensures value { result ≡ self.now.n }
        ensures sound { IsSoundBasis self.now }
    {
        self.n
    }

    /// The domain's index of member k.
    pub fn rank_at(&self, k: u32) -> u32
        requires { k < self.now.n }
        ensures value { result ≡ rank_of self.now k }
        ensures sound { IsSoundBasis self.now }
    {
        self.ranks[k as usize]
    }

    /// The label of member k.
    pub fn label(&self, k: u32) -> u32
        requires { k < self.now.n }
        ensures value { result ≡ label_of self.now k }
        ensures sound { IsSoundBasis self.now }
    {
        self.labels[k as usize]
    }

    /// The values of member k at the points.
    pub fn vector(&self, k: u32) -> &[u8]
        requires { k < self.now.n }
        ensures value { result.now ≡ slice_index_or self.now.vectors k [] }
        ensures sound { IsSoundBasis self.now }
    {
        let n = self.n as usize;
        let start = k as usize * n;
        &self.vectors[start..start + n]
    }

    /// The list that has product 1 with vector k, and 0 with each other vector.
    pub fn dual(&self, k: u32) -> &[u8]
        requires { k < self.now.n }
        ensures value { result.now ≡ slice_index_or self.now.duals k [] }
        ensures sound { IsSoundBasis self.now }
    {
        let n = self.n as usize;
        let start = k as usize * n;
        &self.duals[start..start + n]
    }

    /// The number of pairs of functions of the domain whose sum is member k.
    pub fn pairs(&self, k: u32) -> u32
        requires { k < self.now.n }
        ensures value { result ≡ pairs_at self.now k }
        ensures sound { IsSoundBasis self.now }
    {
        self.pair_counts[k as usize]
    }

    /// The domain's index of the sum of members i and j, or `count()` where they have none.
    pub fn sum_at(&self, i: u32, j: u32) -> u32
        requires row { i < self.now.n }
        requires column { j < self.now.n }
        ensures value { result ≡ sum_of self.now i j }
        ensures sound { IsSoundBasis self.now }
    {
        self.sums[i as usize * self.n as usize + j as usize]
    }

    /// The factor of the sum of members i and j in the product of the two, where they have a sum.
    pub fn lead(&self, i: u32, j: u32) -> u8
        requires row { i < self.now.n }
        requires column { j < self.now.n }
        ensures value { result ≡ lead_of self.now i j }
        ensures sound { IsSoundBasis self.now }
    {
        self.leads[i as usize * self.n as usize + j as usize]
    }
}
