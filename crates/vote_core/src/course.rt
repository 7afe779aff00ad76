//! The working list: its syndromes, and how it takes on another one.

ghost use Rattle.std.specs.Prelude.{ℕ, ◌≡◌, ◌<◌, ◌^◌, length, slice_index, All, IsTrue, ◌↔◌, true};
ghost use Rattle.gf_theory.specs.Field.{gf_mul};
ghost use Rattle.order_theory.specs.Basis.{times, IsWord, IsSoundBasis};
ghost use Rattle.order_theory.specs.Errors.{weight, syndrome as syndrome_of};
ghost use Rattle.order_theory.specs.Codes.{marked};
ghost use Rattle.order_theory.specs.Course.{IsMoved};

use eval_basis::EvalBasis;
use gf_field::Field;
use gf_linear::{add_scaled, dot};

/// The product of `list` and the vector of member k.
pub fn syndrome<F: Field>(basis: &EvalBasis<F>, list: &[u8], k: u32) -> u8
    requires word { IsWord basis.now.bits basis.now.n list.now }
    requires member { k < basis.now.n }
    ensures value { result ≡ syndrome_of (times basis.now) basis.now list.now k }
    ensures symbol { result < 2 ^ basis.now.bits }
{
    dot(basis.field(), list, basis.vector(k))
}

/// Gives the working list the syndrome v at member k.
pub fn take_on<F: Field>(basis: &EvalBasis<F>, k: u32, v: u8, work: &mut [u8])
    requires word { IsWord basis.now.bits basis.now.n work.old }
    requires member { k < basis.now.n }
    requires symbol { v < 2 ^ basis.now.bits }
    ensures moved { IsMoved (times basis.now) basis.now work.old k v work.new }
    ensures word { IsWord basis.now.bits basis.now.n work.new }
{
    let f = basis.field();
    let before = syndrome(basis, work, k);
    let factor = f.add(v, before);
    add_scaled(f, work, factor, basis.dual(k));
}

/// Whether all syndromes of the marked members are 0.
pub fn is_undamaged<F: Field>(basis: &EvalBasis<F>, marks: &[bool], list: &[u8]) -> bool
    requires word { IsWord basis.now.bits basis.now.n list.now }
    requires marks { length marks.now ≡ basis.now.n }
    ensures undamaged { IsTrue result ↔ ((k : ℕ) → k < basis.now.n → marked marks.now k ≡ true
        → syndrome_of (times basis.now) basis.now list.now k ≡ 0) }
    ensures sound { IsSoundBasis basis.now }
{
    for k in 0..basis.n() {
        if marks[k as usize] && syndrome(basis, list, k) != 0 {
            return false;
        }
    }
    true
}

/// The number of symbols that are not 0.
pub fn weight_of(list: &[u8]) -> usize
    ensures { result ≡ weight list.now }
{
    list.iter().filter(|x| **x != 0).count()
}
