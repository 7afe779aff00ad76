//! The encoder of a code: the positions that carry the message, the codeword of each message, and the test of a word.
//! A code is the set of the lists that are orthogonal to the vectors of the checked members of a basis. Start at `Parity`;
//! specs/Checks says what a check position, a message place and a codeword are.
//!
//! A check position is one whose parity column is no combination of the columns at positions above it, so the message stands
//! at the front as far as the code allows, and a codeword is found from it by row operations alone.
#![tactic(auto)]

mod preparing;
mod tails;

ghost use Rattle.std.specs.Prelude.{◌≡◌, ℕ, ◌+◌, ◌<◌, ◌≤◌, ◌^◌, ◌↔◌, List, length, slice_index, count_by, IfOk, IsTrue, All, Contains};
ghost use Rattle.std.specs.List.Sorted.{IsStrictlyIncreasing};
ghost use Rattle.linear_theory.specs.Linear.{dot as dot_of};
ghost use Rattle.gf_theory.specs.Field.{gf_mul};
ghost use Rattle.order_theory.specs.Basis.{times};
ghost use Rattle.order_theory.specs.Codes.{IsCodeword};
ghost use Rattle.gf_linear.specs.Matrix.{entry, IsOver};
ghost use Rattle.block_theory.specs.Checks.{message_places, IsMessagePlace, IsInCode, IsWordOf};
ghost use Rattle.block_theory.specs.Marked.{checks_of};

use eval_basis::{Checked, EvalBasis};
use gf_field::Field;
use gf_linear::{Matrix, dot, echelon};
use preparing::{checked_vectors, first_check, free_places, mirrored, pivots_of, tails_of};
use std::alloc::{AllocError, Global};
use std::marker::Model;

/// The checks of a code, prepared for encoding. Contracts see the bits and the modulus of the field, the number n of
/// positions, and the vectors of the checked members; every later call that takes a field takes one of these bits and
/// modulus.
#[derive(Drop)]
pub struct Parity {
    bits: u32,
    modulus: u32,
    n: u32,
    vectors: Matrix,
    places: Vec<u32>,
    // the least check position, or n
    first: u32,
    // for each message place the codeword whose only message symbol is a 1 there, from `first` on
    tails: Matrix,
}

impl Model for Parity {
    ghost use Rattle.block_theory.specs.Checks.{ParityChecks};

    ghost Value = { ParityChecks };

    ghost use Rattle.parity_space.specs.Prepared.{checks_in, IsPrepared};

    ghost view = { checks_in };

    ghost invariant = { IsPrepared };
}

impl Parity {
    /// The checks of the marked members of a basis. There are as many message places as members without a mark.
    pub fn build<F: Field>(
        alloc: Global,
        basis: &EvalBasis<F>,
        checked: &Checked,
    ) -> Result<Parity, AllocError>
        requires marks { length checked.now ≡ basis.now.n }
        ensures checks { IfOk result (λ c. c ≡ checks_of basis.now checked.now) }
        ensures code { IfOk result (λ c. (x : List ℕ) → IsInCode c x
            ↔ IsCodeword (times basis.now) basis.now checked.now x) }
        ensures free { IfOk result (λ c. length (message_places c) + count_by (λ m. m) checked.now
            ≡ basis.now.n) }
    {
        let n = basis.n();
        let vectors = checked_vectors(alloc, basis, checked)?;
        let mirror = mirrored(alloc, &vectors)?;
        let reduced = echelon(alloc, basis.field(), &mirror)?;
        let pivots = pivots_of(alloc, &reduced)?;
        let places = free_places(alloc, &reduced, &pivots)?;
        let first = first_check(&reduced, &pivots);
        let tails = tails_of(alloc, &reduced, &pivots, &places, first)?;
        Ok(Parity {
            bits: basis.bits(),
            modulus: basis.modulus(),
            n,
            vectors,
            places,
            first,
            tails,
        })
    }

    /// The message places, rising.
    pub fn places(&self) -> &[u32]
        ensures places { result.now ≡ message_places self.now }
        ensures exactly { (p : ℕ) → Contains result.now p ↔ IsMessagePlace self.now p }
        ensures rising { IsStrictlyIncreasing result.now }
    {
        &self.places
    }

    /// Makes `word` the codeword that has `msg` at the message places. There is exactly one.
    pub fn complete<F: Field>(&self, f: &F, msg: &[u8], word: &mut [u8])
        requires bits { F.bits_of f.now ≡ self.now.bits }
        requires modulus { F.modulus_of f.now ≡ self.now.modulus }
        requires message { length msg.now ≡ length (message_places self.now) }
        requires symbols { All (λ a. a < 2 ^ self.now.bits) msg.now }
        requires positions { length word.old ≡ self.now.n }
        ensures word { IsWordOf self.now msg.now word.new }
        ensures only { (x : List ℕ) → IsWordOf self.now msg.now x → x ≡ word.new }
    {
        let first = self.first as usize;
        let (front, tail) = word.split_at_mut(first);
        front.copy_from_slice(&msg[..first]);
        self.tails.combine(f, msg, tail);
    }

    /// Whether these bytes are a codeword: all below 2^bits, and orthogonal to the vectors of the checked members.
    pub fn member<F: Field>(&self, f: &F, word: &[u8]) -> bool
        requires bits { F.bits_of f.now ≡ self.now.bits }
        requires modulus { F.modulus_of f.now ≡ self.now.modulus }
        requires positions { length word.now ≡ self.now.n }
        ensures { IsTrue result ↔ IsInCode self.now word.now }
    {
        are_symbols(self.bits, word) && are_orthogonal(f, &self.vectors, word)
    }
}

// Whether all bytes are below 2^bits.
fn are_symbols(bits: u32, word: &[u8]) -> bool
    requires { bits ≤ 8 }
    ensures { IsTrue result ↔ All (λ a. a < 2 ^ bits) word.now }
{
    let size = 1u16 << bits;
    word.iter().all(|symbol| u16::from(*symbol) < size)
}

// Whether a word is orthogonal to each row.
fn are_orthogonal<F: Field>(f: &F, rows: &Matrix, word: &[u8]) -> bool
    requires over { IsOver (F.bits_of f.now) rows.now }
    requires width { length word.now ≡ rows.now.cols }
    requires symbols { All (λ a. a < 2 ^ F.bits_of f.now) word.now }
    ensures { IsTrue result ↔ ((i : ℕ) → i < length rows.now.rows →
        dot_of (gf_mul (F.bits_of f.now) (F.modulus_of f.now)) (length word.now)
        (slice_index word.now) (entry rows.now i) ≡ 0) }
{
    for i in 0..rows.rows() {
        if dot(f, word, rows.row(i)) != 0 {
            return false;
        }
    }
    true
}
