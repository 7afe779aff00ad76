//! The plans of a basis, as lines.

ghost use Rattle.std.specs.Prelude.{◌≡◌, ◌+◌, ◌*◌, ◌^◌, ◌<◌, IfOk, IfSome};
ghost use Rattle.descriptor_design.specs.Steps.{order_of, stop_of, improved_of, numbers_at, few_numbers};
ghost use Rattle.code_texts.specs.Designs.{design_text_of};

use code_design::Plan;
use code_texts::{MemberNumbers, PlanNumbers, design_text};
use eval_basis::{CheckRule, EvalBasis};
use gf_field::Field;
use std::alloc::{AllocError, Global};

// The numbers of the order plan, if there is one.
fn order_numbers(plan: &Plan) -> Option<PlanNumbers>
    ensures { result ≡ order_of plan.now }
{
    match plan.order {
        None => None,
        Some(first) => Some(PlanNumbers {
            first,
            checks: plan.order_checks,
            bound: plan.order_bound,
        }),
    }
}

// The numbers of a member.
fn numbers_of<F: Field>(basis: &EvalBasis<F>, k: u32) -> MemberNumbers
    requires { k < basis.now.n }
    ensures { result ≡ numbers_at basis.now k }
{
    MemberNumbers {
        label: basis.label(k),
        pairs: basis.pairs(k),
    }
}

// The numbers of the stop, if there is one.
fn stop_numbers<F: Field>(basis: &EvalBasis<F>, stop: Option<u32>) -> Option<MemberNumbers>
    requires { IfSome stop (λ k. k < basis.now.n) }
    ensures { result ≡ stop_of basis.now stop }
{
    match stop {
        None => None,
        Some(k) => Some(numbers_of(basis, k)),
    }
}

// The numbers of the members that have at most 2t pairs.
fn small_members<F: Field>(
    alloc: Global,
    basis: &EvalBasis<F>,
    want: u32,
) -> Result<Vec<MemberNumbers>, AllocError>
    requires { 2 * want + 1 < 2 ^ 32 }
    ensures { IfOk result (λ v. v.items ≡ few_numbers basis.now want) }
{
    let rule = CheckRule::Small {
        pairs: 2 * want + 1,
    };
    let n = basis.n();
    let mut members = Vec::new(alloc);
    for k in 0..n {
        if rule.checks(basis.label(k), basis.pairs(k)) {
            members.push(numbers_of(basis, k))?;
        }
    }
    Ok(members)
}

/// The lines of the plans for a wanted number of errors.
pub fn plan_lines<F: Field>(
    alloc: Global,
    basis: &EvalBasis<F>,
    want: u32,
    plan: &Plan,
) -> Result<Vec<u8>, AllocError>
    requires few { 2 * want + 1 < 2 ^ 32 }
    requires stop { IfSome plan.now.stop (λ k. k < basis.now.n) }
    ensures { IfOk result (λ text. text.items ≡ design_text_of want (order_of plan.now)
        (stop_of basis.now plan.now.stop) (improved_of plan.now) (few_numbers basis.now want)) }
{
    let improved = PlanNumbers {
        first: plan.pairs,
        checks: plan.checks,
        bound: plan.bound,
    };
    let must = small_members(alloc, basis, want)?;
    design_text(
        alloc,
        want,
        order_numbers(plan),
        stop_numbers(basis, plan.stop),
        improved,
        &must,
    )
}
