//! Finite fields as code: the trait `Field`, and `PolyField`, which meets it for each modulus. An element is a number below
//! 2^m, m from 2 to 8, whose bits are the coefficients of a polynomial over GF(2). Start at the trait.
#![tactic(auto)]

mod multiples;
mod polynomial;

ghost use Rattle.std.specs.Prelude.{◌≡◌, ℕ, ◌<◌, ◌≤◌, ◌^◌, ◌≢◌, bit_xor, MatchOption};
ghost use Rattle.field_theory.specs.Field.{IsField};
ghost use Rattle.gf_theory.specs.Field.{gf_mul, IsModulus};
ghost use Rattle.gf_theory.specs.Laws.{SumLaws, ProductLaws, FieldLaws};
ghost use Rattle.gf_field.specs.Multiples.{AreMultiples};

use gf_theory::{irreducible_gives_field, polynomials_are_a_ring, product_is_unique};
pub use multiples::Multiples;
use multiples::{high_multiples, low_multiples};
use polynomial::{is_irreducible, product};

/// A finite field of characteristic 2, given by its bits m and its modulus p: the numbers below 2^m, with the exclusive or
/// as sum and the product modulo p.
///
/// The modulus is irreducible of degree m (`is_modulus`), which a caller has by a call of `bits`; `field_axioms` states
/// what follows. No call takes memory.
pub trait Field: Drop {
    ghost bits_of: { Self → ℕ };

    ghost modulus_of: { Self → ℕ };

    /// The bits m of an element, 2 to 8.
    fn bits(&self) -> u32
        ensures bits { result ≡ bits_of self.now }
        ensures field { IsModulus (bits_of self.now) (modulus_of self.now) };

    /// The modulus as a number: bit i is the coefficient of X^i.
    fn modulus(&self) -> u32
        ensures { result ≡ modulus_of self.now };

    /// The sum, and the difference, of two elements.
    fn add(&self, x: u8, y: u8) -> u8
        requires left { x < 2 ^ bits_of self.now }
        requires right { y < 2 ^ bits_of self.now }
        ensures sum { result ≡ bit_xor x y }
        ensures element { result < 2 ^ bits_of self.now };

    /// The product of two elements.
    fn mul(&self, x: u8, y: u8) -> u8
        requires left { x < 2 ^ bits_of self.now }
        requires right { y < 2 ^ bits_of self.now }
        ensures product { result ≡ gf_mul (bits_of self.now) (modulus_of self.now) x y }
        ensures element { result < 2 ^ bits_of self.now };

    /// The element whose product with x is 1.
    fn inv(&self, x: u8) -> u8
        requires element { x < 2 ^ bits_of self.now }
        requires nonzero { 0 < x }
        ensures inverse { gf_mul (bits_of self.now) (modulus_of self.now) x result ≡ 1 }
        ensures result_element { result < 2 ^ bits_of self.now };

    /// The tables of the products of c, for row operations. A field with tables has them ready.
    fn multiples(&self, c: u8) -> Multiples
        requires { c < 2 ^ bits_of self.now }
        ensures { AreMultiples (bits_of self.now) (modulus_of self.now) c result.low result.high };

    ghost is_modulus: { (f : Self) → IsModulus (bits_of f) (modulus_of f) };
}

/// The axioms of a field hold of each `Field`: the contract is the theorem.
pub fn field_axioms<F: Field>(f: &F)
    ensures sums { SumLaws }
    ensures products { ProductLaws (F.bits_of f.now) (F.modulus_of f.now) }
    ensures axioms { FieldLaws (F.bits_of f.now) (F.modulus_of f.now) }
    ensures is_field { IsField (2 ^ F.bits_of f.now)
        (gf_mul (F.bits_of f.now) (F.modulus_of f.now)) }
{
    f.bits();
    polynomials_are_a_ring();
    product_is_unique();
    irreducible_gives_field();
}

/// The field of the polynomials modulo an irreducible one. It multiplies bit by bit.
#[derive(Clone, Copy)]
pub struct PolyField {
    bits: u32,
    modulus: u32,
    ghost is_modulus: { IsModulus bits modulus },
}

impl PolyField {
    /// None exactly where `bits` is not 2 to 8, or `modulus` is not irreducible of that degree.
    pub fn new(bits: u32, modulus: u32) -> Option<PolyField>
        ensures { MatchOption result (IsModulus bits modulus → ⊥)
            (λ f. (f.bits ≡ bits) × (f.modulus ≡ modulus)) }
    {
        if 2 <= bits && bits <= 8 && is_irreducible(bits, modulus) {
            Some(PolyField { bits, modulus })
        } else {
            None
        }
    }
}

impl Field for PolyField {
    ghost bits_of = { λ f. f.bits };

    ghost modulus_of = { λ f. f.modulus };

    ghost is_modulus = { λ f. f.is_modulus };

    fn bits(&self) -> u32 {
        self.bits
    }

    fn modulus(&self) -> u32 {
        self.modulus
    }

    fn add(&self, x: u8, y: u8) -> u8 {
        x ^ y
    }

    fn mul(&self, x: u8, y: u8) -> u8 {
        product(self.bits, self.modulus, u32::from(x), u32::from(y)) as u8
    }

    fn inv(&self, x: u8) -> u8 {
        let mut y = 1;
        while self.mul(x, y) != 1 {
            y += 1;
        }
        y
    }

    fn multiples(&self, c: u8) -> Multiples {
        Multiples {
            low: low_multiples(self, c),
            high: high_multiples(self, c),
        }
    }
}

#[cfg(test)]
mod tests {
    use super::*;

    #[test]
    fn answers_none_where_the_modulus_is_no_field(rt: HostRuntime) {
        assert!(rt; PolyField::new(8, 257).is_none());
        assert!(rt; PolyField::new(1, 3).is_none());
        assert!(rt; PolyField::new(9, 529).is_none());
        assert!(rt; PolyField::new(2, 11).is_none());
        assert!(rt; PolyField::new(2, 5).is_none());
    }

    #[test]
    fn multiplies_in_the_field_of_aes(rt: HostRuntime) {
        let f = PolyField::new(8, 283).expect(&rt, "irreducible");
        assert_eq!(rt; f.mul(0x57, 0x83), 0xc1);
        assert_eq!(rt; f.inv(0x53), 0xca);
        assert_eq!(rt; f.add(0x57, 0x83), 0xd4);
        assert_eq!(rt; f.bits(), 8);
        assert_eq!(rt; f.modulus(), 283);
        // 83 is 80 and 3
        let multiples = f.multiples(0x57);
        assert_eq!(rt; multiples.high[8] ^ multiples.low[3], 0xc1);
    }

    #[test]
    fn multiplies_in_the_field_of_sixteen(rt: HostRuntime) {
        let f = PolyField::new(4, 19).expect(&rt, "irreducible");
        assert_eq!(rt; f.mul(2, 9), 1);
        field_axioms(&f);
        let multiples = f.multiples(2);
        assert_eq!(rt; multiples.low[9], 1);
        assert_eq!(rt; multiples.high[0], 0);
    }

    #[test]
    fn multiplies_in_the_field_of_four(rt: HostRuntime) {
        let f = PolyField::new(2, 7).expect(&rt, "irreducible");
        assert_eq!(rt; f.mul(2, 2), 3);
        assert_eq!(rt; f.mul(2, 3), 1);
        assert_eq!(rt; f.mul(3, 3), 2);
        assert_eq!(rt; f.inv(2), 3);
    }
}
