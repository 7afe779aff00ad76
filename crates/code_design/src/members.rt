//! What is read off the members of a basis. No call takes memory.

ghost use Rattle.std.specs.Prelude.{◌≡◌, ◌*◌, ◌^◌, ◌<◌, MatchOption, min};
ghost use Rattle.std.specs.Option.{option_map_or};
ghost use Rattle.order_theory.specs.Basis.{IsSoundBasis};
ghost use Rattle.order_theory.specs.Codes.{AreAllMarked, IsOrderBound};
ghost use Rattle.eval_basis.specs.Rules.{checked_by};
ghost use Rattle.code_design.specs.Serving.{size_of, IsStop, HasNoStop, IsMostPairs};

use eval_basis::{CheckRule, EvalBasis};
use gf_field::Field;

/// How many members a rule checks.
pub fn size_by<F: Field>(basis: &EvalBasis<F>, rule: CheckRule) -> u32
    ensures { result ≡ size_of (checked_by basis.now rule) }
{
    let mut size = 0;
    for k in 0..basis.n() {
        if rule.checks(basis.label(k), basis.pairs(k)) {
            size += 1;
        }
    }
    size
}

/// The least number of pairs of a member that a rule does not check; None exactly where it checks all.
pub fn bound_by<F: Field>(basis: &EvalBasis<F>, rule: CheckRule) -> Option<u32>
    ensures { MatchOption result (AreAllMarked basis.now (checked_by basis.now rule))
        (IsOrderBound basis.now (checked_by basis.now rule)) }
{
    let mut least = None;
    for k in 0..basis.n() {
        if !rule.checks(basis.label(k), basis.pairs(k)) {
            least = Some(lesser(basis.pairs(k), least));
        }
    }
    least
}

/// The lesser of a number and another, if there is one.
fn lesser(pairs: u32, least: Option<u32>) -> u32
    ensures { result ≡ option_map_or (λ d. min pairs d) least pairs }
{
    match least {
        None => pairs,
        Some(d) => pairs.min(d),
    }
}

/// The stop for a wanted number of errors, if there is one. As labels rise, it is the last member that has no more pairs
/// than twice as many.
pub fn stop<F: Field>(basis: &EvalBasis<F>, want: u32) -> Option<u32>
    requires { 2 * want < 2 ^ 32 }
    ensures stop { MatchOption result (HasNoStop basis.now want) (IsStop basis.now want) }
    ensures sound { IsSoundBasis basis.now }
{
    let mut last = None;
    for k in 0..basis.n() {
        if basis.pairs(k) <= 2 * want {
            last = Some(k);
        }
    }
    last
}

/// The greatest number of pairs of a member.
pub fn most_pairs<F: Field>(basis: &EvalBasis<F>) -> u32
    ensures { IsMostPairs basis.now result }
{
    let n = basis.n();
    let mut most = basis.pairs(0);
    for k in 1..n {
        most = most.max(basis.pairs(k));
    }
    most
}
