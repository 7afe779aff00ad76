//! The order bound.

ghost use Rattle.std.specs.Prelude.{◌≡◌, length, MatchOption, IfSome, min};
ghost use Rattle.std.specs.Option.{option_map_or};
ghost use Rattle.order_theory.specs.Codes.{AreAllMarked, IsOrderBound};
ghost use Rattle.order_bound.specs.Distance.{HasDistance};

use eval_basis::{Checked, EvalBasis};
use gf_field::Field;

/// The least number of pairs of a member that is not checked; None exactly where all are checked. The rule that checked
/// them may be any, also one that checks none. Each codeword other than zero has at least so many symbols that are not 0. No memory is taken.
pub fn bound<F: Field>(basis: &EvalBasis<F>, checked: &Checked) -> Option<u32>
    requires { length checked.now ≡ basis.now.n }
    ensures bound { MatchOption result (AreAllMarked basis.now checked.now)
        (IsOrderBound basis.now checked.now) }
    ensures distance { IfSome result (HasDistance basis.now checked.now) }
{
    let mut least = None;
    for k in 0..basis.n() {
        if !checked.holds(k) {
            least = Some(lesser(basis.pairs(k), least));
        }
    }
    least
}

/// The lesser of a number and another, if there is one.
fn lesser(pairs: u32, least: Option<u32>) -> u32
    ensures { result ≡ option_map_or (λ d. min pairs d) least pairs }
{
    match least {
        None => pairs,
        Some(d) => pairs.min(d),
    }
}
