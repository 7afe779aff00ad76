//! The numerical semigroup of two coprime numbers a and b: all sums of a's and b's. Its members are the weights of the
//! monomials of a curve, where x has weight a and y has weight b.
//!
//! Start at [`Semi::new`]. What a member is, and the counts, are defined in `curve_theory`.
#![tactic(auto)]

ghost use Rattle.std.specs.Prelude.{◌≡◌, ℕ, ◌+◌, ◌*◌, ◌<◌, ◌≤◌, ◌↔◌, false, IsTrue, IfSome, MatchOption, is_some};
ghost use Rattle.std.specs.Int.{IsGcd};
ghost use Rattle.curve_theory.specs.Semigroup.{IsMember, is_member, x_exponent, y_exponent, pairs, next_member};
ghost use Rattle.weight_semi.specs.Generators.{AreGenerators, are_generators};

/// The semigroup that `a` and `b` generate.
#[derive(Clone, Copy)]
pub struct Semi {
    pub a: u32,
    pub b: u32,
    ghost generators: { AreGenerators a b },
}

// The greatest common divisor, by Euclid's steps.
fn greatest_common_divisor(mut x: u32, mut y: u32) -> u32
    ensures { IsGcd x y result }
{
    while y != 0 {
        (x, y) = (y, x % y);
    }
    x
}

// Whether `n` is 2 to 32.
fn is_small(n: u32) -> bool
    ensures { IsTrue result ↔ ((2 ≤ n) × (n ≤ 32)) }
{
    2 <= n && n <= 32
}

// Whether `a` and `b` generate a semigroup of this crate.
fn are_generators(a: u32, b: u32) -> bool
    ensures { IsTrue result ↔ AreGenerators a b }
{
    is_small(a) && is_small(b) && greatest_common_divisor(a, b) == 1
}

impl Semi {
    /// None exactly where `a` or `b` is not 2 to 32, or they are not coprime.
    pub fn new(a: u32, b: u32) -> Option<Semi>
        ensures generators { MatchOption result (AreGenerators a b → ⊥)
            (λ s. (s.a ≡ a) × (s.b ≡ b)) }
        ensures test { is_some result ≡ are_generators a b }
    {
        if are_generators(a, b) {
            Some(Semi { a, b })
        } else {
            None
        }
    }

    /// Whether `w` is a member.
    pub fn holds(&self, w: u32) -> bool
        ensures test { result ≡ is_member self.now.a self.now.b w }
        ensures member { IsTrue result ↔ IsMember self.now.a self.now.b w }
    {
        self.exps(w).is_some()
    }

    /// The exponents (i, j) with `j < a` and `a·i + b·j = w`, which are the only ones; None exactly where `w` is no
    /// member.
    pub fn exps(&self, w: u32) -> Option<(u32, u32)>
        ensures member { is_some result ≡ is_member self.now.a self.now.b w }
        ensures exponents { let s = self.now in IfSome result
            (λ e. (e.0 ≡ x_exponent s.a s.b w) × (e.1 ≡ y_exponent s.a s.b w)) }
        ensures weight { let s = self.now in IfSome result
            (λ e. (e.1 < s.a) × (s.a * e.0 + s.b * e.1 ≡ w)) }
    {
        for j in 0..self.a {
            if self.b * j <= w && (w - self.b * j) % self.a == 0 {
                return Some(((w - self.b * j) / self.a, j));
            }
        }
        None
    }

    /// How many ordered pairs of members have the sum `w`.
    pub fn pairs(&self, w: u32) -> u32
        requires { w ≤ 65535 }
        ensures { result ≡ pairs self.now.a self.now.b w }
    {
        // Where w = a·i + b·j, the exponents of y of a pair have the sum j, as in j + 1 pairs, or j + a. Those of x then
        // have the sum i, or i - b.
        match self.exps(w) {
            Some((i, j)) => (j + 1) * (i + 1) + (self.a - 1 - j) * (i + 1).saturating_sub(self.b),
            None => 0,
        }
    }

    /// The least member above `w`.
    pub fn next(&self, w: u32) -> u32
        requires { w ≤ 65535 }
        ensures { result ≡ next_member self.now.a self.now.b w }
    {
        let mut next = w + 1;
        while !self.holds(next) {
            next += 1;
        }
        next
    }
}

#[cfg(test)]
mod tests {
    use super::*;

    #[test]
    fn refuses_what_generates_no_semigroup(rt: HostRuntime) {
        for (a, b) in [(4, 6), (1, 3), (33, 2), (2, 33), (3, 1), (0, 5), (16, 24)] {
            assert!(rt; Semi::new(a, b).is_none(), "{a} and {b}");
        }
    }

    #[test]
    fn has_the_members_of_four_and_five(rt: HostRuntime) {
        let semi = Semi::new(4, 5).expect(&rt, "coprime");
        let members = [0, 4, 5, 8, 9, 10, 12, 13, 14, 15, 16];
        for w in 0..17u32 {
            assert_eq!(rt; semi.holds(w), members.contains(&w), "{w}");
        }
        assert_eq!(rt; semi.exps(13), Some((2, 1)));
        assert_eq!(rt; semi.exps(11), None);
        assert_eq!(rt; semi.next(5), 8);
        assert_eq!(rt; semi.next(0), 4);
    }

    #[test]
    fn counts_pairs(rt: HostRuntime) {
        let semi = Semi::new(4, 5).expect(&rt, "coprime");
        let counts = [(9, 4), (10, 3), (13, 6), (16, 5), (11, 0)];
        for (w, pairs) in counts {
            assert_eq!(rt; semi.pairs(w), pairs, "{w}");
        }
        let other = Semi::new(4, 7).expect(&rt, "coprime");
        assert_eq!(rt; other.pairs(25), 8);
    }

    #[test]
    fn counts_pairs_of_great_weights(rt: HostRuntime) {
        let semi = Semi::new(31, 32).expect(&rt, "coprime");
        // From twice the greatest gap on, w is a sum of w + 1 pairs less two for each of the 30·31/2 gaps.
        for w in 60_000..65_536u32 {
            assert_eq!(rt; semi.pairs(w), w + 1 - 930);
        }
    }
}
