//! The plans for a wanted number of errors.

ghost use Rattle.std.specs.Prelude.{◌≡◌, ◌+◌, ◌*◌, ◌^◌, ◌<◌, IfSome};
ghost use Rattle.std.specs.Option.{option_map_or};
ghost use Rattle.order_theory.specs.Basis.{label as label_of};
ghost use Rattle.order_theory.specs.Codes.{IsOrderBound};
ghost use Rattle.code_design.specs.Serving.{improved};
ghost use Rattle.code_design.specs.Steps.{IsOrderAt};
ghost use Rattle.code_design.specs.Designs.{Designs, IfFound, IsPlan, HasFewest, HasLeastWeight, HasLastStop, HasStopLabel};

use crate::members::{bound_by, most_pairs, size_by, stop};
use eval_basis::{CheckRule, EvalBasis};
use gf_field::Field;

/// Which members to check for a wanted number t of errors: two sets of members that serve, as their order bounds are
/// above 2t. The order plan checks the labels up to a weight, the improved plan the members with few pairs.
#[derive(Clone, Copy, PartialEq, Eq, Debug)]
pub struct Plan {
    /// The least weight for which the members with labels at most it serve, if there is one.
    pub order: Option<u32>,
    /// How many members these are, and their bound; 0 where there is no such weight.
    pub order_checks: u32,
    pub order_bound: u32,
    /// The number of the member with the greatest label among those with at most 2t pairs.
    pub stop: Option<u32>,
    /// 2t + 1: the improved plan checks the members with fewer pairs.
    pub pairs: u32,
    /// How many members these are, and their bound.
    pub checks: u32,
    pub bound: u32,
}

/// What comes of a design.
#[derive(Clone, Copy, PartialEq, Eq, Debug)]
pub enum Designed {
    Found { plan: Plan },
    /// No set of members serves; this is the greatest number of pairs of a member.
    Nothing { most: u32 },
}

/// The plans of a basis for a wanted number t of errors, or that no set of members serves. No plans are better: each set
/// that serves has all members that the improved plan checks, and each weight that serves is at least that of the order
/// plan. All that is asked of t is that 2t + 1 is a number of 32 bits. No memory is taken.
pub fn design<F: Field>(basis: &EvalBasis<F>, want: u32) -> Designed
    requires { 2 * want + 1 < 2 ^ 32 }
    ensures answer { Designs basis.now want result }
    ensures fewest { IfFound result (HasFewest basis.now want) }
    ensures least { IfFound result (HasLeastWeight basis.now want) }
    ensures last_stop { IfFound result (HasLastStop basis.now) }
    ensures stop_label { IfFound result (HasStopLabel basis.now) }
{
    let pairs = 2 * want + 1;
    match bound_by(basis, CheckRule::Small { pairs }) {
        Some(bound) => Designed::Found {
            plan: plan_of(basis, want, bound),
        },
        None => Designed::Nothing {
            most: most_pairs(basis),
        },
    }
}

/// The plans, where the improved plan has this bound.
fn plan_of<F: Field>(basis: &EvalBasis<F>, want: u32, bound: u32) -> Plan
    requires few { 2 * want + 1 < 2 ^ 32 }
    requires bound { IsOrderBound basis.now (improved basis.now want) bound }
    ensures plan { IsPlan basis.now want result }
    ensures last_stop { HasLastStop basis.now result }
    ensures stop_label { HasStopLabel basis.now result }
{
    let pairs = 2 * want + 1;
    let stop = stop(basis, want);
    let (order, order_checks, order_bound) = order_at(basis, weight_of(basis, stop));
    Plan {
        order,
        order_checks,
        order_bound,
        stop,
        pairs,
        checks: size_by(basis, CheckRule::Small { pairs }),
        bound,
    }
}

/// The least weight that checks the stop, if there is one.
fn weight_of<F: Field>(basis: &EvalBasis<F>, stop: Option<u32>) -> u32
    requires { IfSome stop (λ k. k < basis.now.n) }
    ensures { result ≡ option_map_or (label_of basis.now) stop 0 }
{
    match stop {
        None => 0,
        Some(k) => basis.label(k),
    }
}

/// What checking the labels up to a weight comes to: the weight, if some member is then not checked, and how many are,
/// and the bound.
fn order_at<F: Field>(basis: &EvalBasis<F>, weight: u32) -> (Option<u32>, u32, u32)
    ensures { IsOrderAt basis.now weight result.0 result.1 result.2 }
{
    let rule = CheckRule::AtMost { weight };
    match bound_by(basis, rule) {
        None => (None, 0, 0),
        Some(bound) => (Some(weight), size_by(basis, rule), bound),
    }
}
