//! The order domain of a space.

ghost use Rattle.std.specs.Prelude.{◌≡◌, ℕ, ◌+◌, ◌<◌, ◌≤◌, ◌^◌, ◌↔◌, IsTrue, IfOk, IfSome, MatchOption};
ghost use Rattle.theory_affine.specs.Monomials.{IsListed, top_degree, monomial_at, monomial_count};
ghost use Rattle.order_domain.specs.Domain.{ArePoints};
ghost use Rattle.affine_domain.specs.Space.{IsSpace, IsIndex, exponents};
ghost use Rattle.affine_domain.specs.Points.{space_points};
ghost use Rattle.affine_domain.specs.Domain.{affine_domain};

use crate::levels::{below_degree, split};
use crate::monomials::monomial;
use crate::{Point, points};
use gf_field::Field;
use order_domain::OrderDomain;
use std::alloc::{AllocError, Global};

// A product of two monomials is a monomial.
const LEAD: u8 = 1;

/// The greatest number of functions of a space: those of three variables over symbols of 5 bits.
pub const MOST_FUNCTIONS: u32 = 142_880;

/// The greatest degree of a function of a space: that of two variables over symbols of 8 bits.
pub const MOST_DEGREE: u32 = 510;

/// The monomials on an affine space of `vars` variables over the symbols of `bits` bits, as an order domain: all of total
/// degree at most `vars·(2^bits - 1)`, by rising degree, then falling exponent of x, then falling exponent of y. The
/// label of a monomial is its index.
#[derive(Drop)]
pub struct AffineDomain {
    /// The bits of a symbol.
    pub bits: u32,
    /// The number of variables.
    pub vars: u32,
    ghost is_space: { IsSpace bits vars },
}

impl AffineDomain {
    /// The domain of the space of `vars` variables over symbols of `bits` bits. None exactly where `bits` is not 2 to 8,
    /// `vars` is not 1 to 3, or `vars` is 3 and `bits` is above 5.
    pub fn new(bits: u32, vars: u32) -> Option<AffineDomain>
        ensures space { MatchOption result (IsSpace bits vars → ⊥) (λ _. IsSpace bits vars) }
        ensures domain { IfSome result (λ d.
            ⟦<AffineDomain as OrderDomain>⟧.domain d ≡ affine_domain bits vars) }
        ensures parts { IfSome result (λ d. (d.bits ≡ bits) × (d.vars ≡ vars)) }
        ensures few { IfSome result (λ _. monomial_count (2 ^ bits) vars ≤ MOST_FUNCTIONS) }
    {
        let most_bits = if vars == 3 { 5 } else { 8 };
        if vars < 1 || vars > 3 || bits < 2 || bits > most_bits {
            return None;
        }
        let domain = AffineDomain { bits, vars };
        // for `few`
        domain.top();
        Some(domain)
    }

    /// The number of variables of the space.
    pub fn vars(&self) -> u32
        ensures vars { result ≡ self.now.vars }
        ensures space { IsSpace self.now.bits self.now.vars }
    {
        self.vars
    }

    // The greatest degree in the list.
    fn top(&self) -> u32
        ensures top { result ≡ top_degree (2 ^ self.now.bits) self.now.vars }
        ensures small { result ≤ MOST_DEGREE }
        ensures few { monomial_count (2 ^ self.now.bits) self.now.vars ≤ MOST_FUNCTIONS }
        ensures space { IsSpace self.now.bits self.now.vars }
    {
        self.vars * ((1 << self.bits) - 1)
    }

    /// The exponents of x, y and z of monomial i.
    pub fn exps(&self, i: u32) -> (u32, u32, u32)
        requires { i < monomial_count (2 ^ self.now.bits) self.now.vars }
        ensures exponents { exponents result.0 result.1 result.2 ≡ monomial_at self.now.vars i }
        ensures listed { IsListed (2 ^ self.now.bits) self.now.vars
            (exponents result.0 result.1 result.2) }
        ensures small { result.0 + result.1 + result.2 ≤ MOST_DEGREE }
    {
        // for the bounds of a space
        self.top();
        let (degree, i) = split(self.vars, i);
        let (tail, i) = split(self.vars - 1, i);
        let (of_z, _) = split(self.vars.saturating_sub(2), i);
        let of_x = degree - tail;
        let of_y = tail - of_z;
        (of_x, of_y, of_z)
    }

    // The index of a monomial of the list: those of a smaller degree stand before it, and of its own degree those with a
    // smaller y + z, and those with the same y + z and a smaller z.
    fn place(&self, x: u32, y: u32, z: u32) -> u32
        requires { IsListed (2 ^ self.now.bits) self.now.vars (exponents x y z) }
        ensures { IsIndex self.now.bits self.now.vars result (exponents x y z) }
    {
        // for the bounds of a space
        self.top();
        let of_smaller_degree = below_degree(self.vars, x + y + z);
        let of_smaller_rest = below_degree(self.vars - 1, y + z);
        let of_smaller_z = below_degree(self.vars.saturating_sub(2), z);
        of_smaller_degree + (of_smaller_rest + of_smaller_z)
    }

    // Whether the list has the monomial with these exponents.
    #[tactic(auto, using(std::proofs::lemmas::Bool::Decides::nat_tests))]
    fn lists(&self, x: u32, y: u32, z: u32) -> bool
        ensures { IsTrue result
            ↔ IsListed (2 ^ self.now.bits) self.now.vars (exponents x y z) }
    {
        let top = self.top();
        let is_used = (self.vars > 1 || y == 0) && (self.vars > 2 || z == 0);
        is_used && x <= top && y <= top && z <= top && x + y + z <= top
    }

    /// The index of the monomial with these exponents. None exactly where the list has it not.
    pub fn index(&self, x: u32, y: u32, z: u32) -> Option<u32>
        ensures { MatchOption result
            (IsListed (2 ^ self.now.bits) self.now.vars (exponents x y z) → ⊥)
            (λ i. IsListed (2 ^ self.now.bits) self.now.vars (exponents x y z)
            × IsIndex self.now.bits self.now.vars i (exponents x y z)) }
    {
        if self.lists(x, y, z) {
            Some(self.place(x, y, z))
        } else {
            None
        }
    }

    /// All points of the space, by rising x, then rising y, then rising z. They may be more than a code can have. The only
    /// error is want of memory.
    pub fn all_points<F: Field>(&self, alloc: Global, f: &F) -> Result<Vec<Point>, AllocError>
        requires { F.bits_of f.now ≡ self.now.bits }
        ensures list { IfOk result (λ points.
            points.items ≡ space_points self.now.bits self.now.vars) }
        ensures points { IfOk result (λ points.
            ArePoints (affine_domain self.now.bits self.now.vars) (F.modulus_of f.now)
            points.items) }
    {
        points::all_points(alloc, f.bits(), self.vars)
    }
}

impl OrderDomain for AffineDomain {
    ghost use Rattle.affine_domain.specs.DomainLaws.{affine_domain-lawful};

    ghost domain = { λ d. affine_domain d.bits d.vars };

    ghost lawful = { λ d. affine_domain-lawful d.bits d.vars d.is_space };

    fn bits(&self) -> u32 {
        self.bits
    }

    fn count(&self) -> u32 {
        below_degree(self.vars, self.top() + 1)
    }

    fn label(&self, i: u32) -> u32 {
        i
    }

    fn eval<F: Field>(&self, f: &F, i: u32, p: &Point) -> u8 {
        let (x, y, z) = self.exps(i);
        monomial(f, x, y, z, p)
    }

    fn sum(&self, i: u32, j: u32) -> Option<u32> {
        let (x, y, z) = self.exps(i);
        let (u, v, w) = self.exps(j);
        self.index(x + u, y + v, z + w)
    }

    fn lead<F: Field>(&self, f: &F, _i: u32, _j: u32) -> u8 {
        // a symbol has two bits at least
        f.bits();
        LEAD
    }

    fn on<F: Field>(&self, _f: &F, p: &Point) -> bool {
        points::is_on(self.bits, self.vars, p)
    }
}
