//! The multiples of an element, by the low four bits of the other factor and by the bits above them: a product is the sum
//! of an entry of each table.

ghost use Rattle.std.specs.Prelude.{◌≡◌, ℕ, ◌*◌, ◌<◌, ◌^◌, length, slice_index};
ghost use Rattle.gf_theory.specs.Field.{gf_mul};

use crate::{Field, PolyField};

/// The products of an element and all others: `low` has those with the elements below 16, `high` at place i that with 16·i.
#[derive(Clone, Copy)]
pub struct Multiples {
    pub low: [u8; 16],
    pub high: [u8; 16],
}

// The products of c and the elements below 16.
pub fn low_multiples(f: &PolyField, c: u8) -> [u8; 16]
    requires { c < 2 ^ f.now.bits }
    ensures length { length result ≡ 16 }
    ensures products { (i : ℕ) → i < 16 → i < 2 ^ f.now.bits →
        slice_index result i ≡ gf_mul f.now.bits f.now.modulus c i }
{
    let mut table = [0; 16];
    let count = (1usize << f.bits()).min(16);
    for i in 0..count {
        table[i] = f.mul(c, i as u8);
    }
    table
}

// The products of c and the multiples of 16 that are elements.
pub fn high_multiples(f: &PolyField, c: u8) -> [u8; 16]
    requires { c < 2 ^ f.now.bits }
    ensures length { length result ≡ 16 }
    ensures products { (i : ℕ) → i * 16 < 2 ^ f.now.bits →
        slice_index result i ≡ gf_mul f.now.bits f.now.modulus c (i * 16) }
{
    let mut table = [0; 16];
    let size = 1usize << f.bits();
    for i in 0..(size + 15) / 16 {
        table[i] = f.mul(c, (i * 16) as u8);
    }
    table
}
