//! Order domains: functions on points, in an order, with a partial sum of their places in it. All that a decoder by
//! majority knows of a curve is that its functions are such a domain. Start at the trait `OrderDomain`; its laws stand in
//! specs/Domain, as `IsOrderDomain`.
//!
//! Source: T. Høholdt, J. H. van Lint, R. Pellikaan, "Algebraic geometry codes", in the Handbook of Coding Theory, 1998.
#![tactic(auto)]

mod points;

ghost use Rattle.std.specs.Prelude.{ℕ, ◌≡◌, ◌<◌, ◌^◌, IsTrue, IsSome};
ghost use Rattle.order_domain.specs.Domain.{Domain, IsOrderDomain};
ghost use Rattle.order_domain.specs.Values.{ValuesLaw};

use gf_field::Field;
pub use points::{MOST_POINTS, Points};

/// A point of up to three coordinates. Those that a domain does not use are 0.
#[derive(Clone, Copy, PartialEq, Eq, Debug)]
pub struct Point {
    pub x: u8,
    pub y: u8,
    pub z: u8,
}

/// Functions on points, named by their index from 0 to `count()` less one, over every field of `bits()` bits.
///
/// The laws (`IsOrderDomain`): labels rise with the index; sums are symmetric and rise; a product of two functions is a
/// lead other than 0 times the function of their sum, plus a combination of functions before it; some combination of the
/// functions is 1 at one of any distinct points and 0 at the others; index 0 is neutral for sums. No call takes memory.
pub trait OrderDomain {
    ghost domain: { Self → Domain };

    /// The bits of a symbol. A caller has the laws by this call.
    fn bits(&self) -> u32
        ensures bits { result ≡ (domain self.now).bits }
        ensures lawful { IsOrderDomain (domain self.now) };

    /// The number of functions.
    fn count(&self) -> u32
        ensures { result ≡ (domain self.now).count };

    /// The label of function i, as the weight of a monomial.
    fn label(&self, i: u32) -> u32
        requires { i < (domain self.now).count }
        ensures { result ≡ (domain self.now).label i };

    /// The value of function i at p, a symbol.
    fn eval<F: Field>(&self, f: &F, i: u32, p: &Point) -> u8
        requires bits { F.bits_of f.now ≡ (domain self.now).bits }
        requires index { i < (domain self.now).count }
        requires on { IsTrue ((domain self.now).on (F.modulus_of f.now) p.now) }
        ensures value { result ≡ (domain self.now).eval (F.modulus_of f.now) i p.now }
        ensures symbol { result < 2 ^ F.bits_of f.now };

    /// The index of the function that leads the product of functions i and j; None where the domain does not list it.
    fn sum(&self, i: u32, j: u32) -> Option<u32>
        requires left { i < (domain self.now).count }
        requires right { j < (domain self.now).count }
        ensures { result ≡ (domain self.now).sum i j };

    /// The coefficient of function `sum(i, j)` in the product of functions i and j, a symbol other than 0.
    fn lead<F: Field>(&self, f: &F, i: u32, j: u32) -> u8
        requires bits { F.bits_of f.now ≡ (domain self.now).bits }
        requires left { i < (domain self.now).count }
        requires right { j < (domain self.now).count }
        requires sum { IsSome ((domain self.now).sum i j) }
        ensures value { result ≡ (domain self.now).lead (F.modulus_of f.now) i j }
        ensures symbol { result < 2 ^ F.bits_of f.now };

    /// Whether p is a point of the domain.
    fn on<F: Field>(&self, f: &F, p: &Point) -> bool
        requires { F.bits_of f.now ≡ (domain self.now).bits }
        ensures { result ≡ (domain self.now).on (F.modulus_of f.now) p.now };

    ghost lawful: { (d : Self) → IsOrderDomain (domain d) };
}

/// At distinct points of a domain the values of its functions are those of ordered functions, and as many of them as there
/// are points are no combination of those before them. The contract is the theorem.
pub fn points_give_a_basis()
    ensures { ValuesLaw }
{}

#[cfg(test)]
mod tests;
