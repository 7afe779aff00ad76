//! The working list: its syndromes, its products, and how it takes on another syndrome.

ghost use Rattle.std.specs.Prelude.{ℕ, ◌≡◌, ◌<◌, ◌≤◌, ◌^◌, length, slice_index, All, IfOk};
ghost use Rattle.gf_theory.specs.Field.{gf_mul};
ghost use Rattle.order_theory.specs.Basis.{times, IsWord};
ghost use Rattle.order_theory.specs.Codes.{low_bits};
ghost use Rattle.order_theory.specs.Course.{IsMoved};
ghost use Rattle.order_theory.specs.Errors.{weight, syndrome as syndrome_of};

use eval_basis::EvalBasis;
use gf_field::Field;
use gf_linear::{add_scaled, dot};
use std::alloc::{AllocError, Global};

/// The low bits of each byte.
pub fn low_symbols(alloc: Global, bits: u32, bytes: &[u8]) -> Result<Vec<u8>, AllocError>
    requires { bits ≤ 8 }
    ensures { IfOk result (λ v. v.items ≡ low_bits bits bytes.now) }
{
    let size = 1u32 << bits;
    bytes
        .iter()
        .map(|byte| (u32::from(*byte) % size) as u8)
        .collect(alloc)
}

/// The number of symbols that are not 0.
pub fn weight_of(list: &[u8]) -> usize
    ensures { result ≡ weight list.now }
{
    list.iter().filter(|x| **x != 0).count()
}

/// The products of two lists, place by place.
pub fn products<F: Field>(alloc: Global, f: &F, x: &[u8], y: &[u8]) -> Result<Vec<u8>, AllocError>
    requires same { length x.now ≡ length y.now }
    requires left { All (λ a. a < 2 ^ F.bits_of f.now) x.now }
    requires right { All (λ a. a < 2 ^ F.bits_of f.now) y.now }
    ensures long { IfOk result (λ v. length v.items ≡ length x.now) }
    ensures value { IfOk result (λ v. (p : ℕ) → p < length x.now →
        slice_index v.items p ≡ gf_mul (F.bits_of f.now) (F.modulus_of f.now)
        (slice_index x.now p) (slice_index y.now p)) }
    ensures symbols { IfOk result (λ v. All (λ a. a < 2 ^ F.bits_of f.now) v.items) }
{
    let mut list = vec![in alloc; 0; x.len()]?;
    for p in 0..x.len() {
        list[p] = f.mul(x[p], y[p]);
    }
    Ok(list)
}

/// The product of `list` and the vector of member k.
pub fn syndrome<F: Field>(basis: &EvalBasis<F>, list: &[u8], k: u32) -> u8
    requires word { IsWord basis.now.bits basis.now.n list.now }
    requires member { k < basis.now.n }
    ensures value { result ≡ syndrome_of (times basis.now) basis.now list.now k }
    ensures symbol { result < 2 ^ basis.now.bits }
{
    dot(basis.field(), list, basis.vector(k))
}

/// Gives the working list the syndrome v at member k.
pub fn take_on<F: Field>(basis: &EvalBasis<F>, k: u32, v: u8, work: &mut [u8])
    requires word { IsWord basis.now.bits basis.now.n work.old }
    requires member { k < basis.now.n }
    requires symbol { v < 2 ^ basis.now.bits }
    ensures moved { IsMoved (times basis.now) basis.now work.old k v work.new }
    ensures word { IsWord basis.now.bits basis.now.n work.new }
{
    let f = basis.field();
    let before = syndrome(basis, work, k);
    let factor = f.add(v, before);
    add_scaled(f, work, factor, basis.dual(k));
}
