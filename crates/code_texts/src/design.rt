//! The plans of a design.

ghost use Rattle.std.specs.Prelude.{◌≡◌, ℕ, ◌++◌, ◌∷◌, [], codes, IfOk};
ghost use Rattle.code_texts.specs.Designs.{order_line_of, stopped_line_of, must_line_of, design_text_of};
ghost use Rattle.ag_texts.specs.Lines.{plan_line_of};

use crate::pieces::{push_number_line, push_pair};
use ag_texts::{LineBuf, plain_line, plan_line, stop_line};
use std::alloc::{AllocError, Global};

/// The numbers of a plan: the one that it goes by, how many members it checks, and its bound.
#[derive(Clone, Copy, Debug, PartialEq, Eq)]
pub struct PlanNumbers {
    pub first: u32,
    pub checks: u32,
    pub bound: u32,
}

/// The numbers of a member: its label, and how many pairs of functions have it as their sum.
#[derive(Clone, Copy, Debug, PartialEq, Eq)]
pub struct MemberNumbers {
    pub label: u32,
    pub pairs: u32,
}

// The line of the order plan, or that there is none.
fn order_line(buf: &mut LineBuf, order: Option<PlanNumbers>)
    ensures { buf.new ≡ order_line_of order }
{
    match order {
        None => plain_line(buf, "order none"),
        Some(plan) => plan_line(buf, "order weight", plan.first, plan.checks, plan.bound),
    }
}

// The line of the stop, or that there is none.
fn stopped_line(buf: &mut LineBuf, stop: Option<MemberNumbers>)
    ensures { buf.new ≡ stopped_line_of stop }
{
    match stop {
        None => plain_line(buf, "stop none"),
        Some(member) => stop_line(buf, member.label, member.pairs),
    }
}

// Adds the line of the members that each code must check.
#[tactic(auto, using(crate::proofs::Lines::steps))]
fn push_must(
    text: &mut Vec<u8>,
    line: &mut LineBuf,
    must: &[MemberNumbers],
) -> Result<(), AllocError>
    ensures { IfOk result (λ _. text.new.items ≡ text.old.items ++ must_line_of must.now) }
{
    text.extend_from_slice(b"must")?;
    for member in must {
        push_pair(text, line, member.label, member.pairs)?;
    }
    text.push(b'\n')?;
    Ok(())
}

/// The lines of a design: the wanted number of errors, the order plan, the stop, the improved plan, and the members that each
/// code must check. The line of no members is its word alone.
pub fn design_text(
    alloc: Global,
    want: u32,
    order: Option<PlanNumbers>,
    stop: Option<MemberNumbers>,
    improved: PlanNumbers,
    must: &[MemberNumbers],
) -> Result<Vec<u8>, AllocError>
    ensures { IfOk result (λ text. text.items ≡ design_text_of want order stop improved must.now) }
{
    let mut text = Vec::new(alloc);
    let mut buffer = LineBuf::new();
    let line = &mut buffer;
    push_number_line(&mut text, line, "want", want)?;
    order_line(line, order);
    text.extend_from_slice(line.bytes())?;
    stopped_line(line, stop);
    text.extend_from_slice(line.bytes())?;
    plan_line(
        line,
        "improved",
        improved.first,
        improved.checks,
        improved.bound,
    );
    text.extend_from_slice(line.bytes())?;
    push_must(&mut text, line, must)?;
    Ok(text)
}
