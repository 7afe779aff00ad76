//! From the integers of a text to a descriptor.

ghost use Rattle.std.specs.Prelude.{◌≡◌, ℕ, ◌≤◌, true, false, IfSome, MatchOption, MatchResult, None};
ghost use Rattle.weight_semi.specs.Generators.{AreGenerators};
ghost use Rattle.cab_curve.specs.First.{first_of};
ghost use Rattle.code_descriptor.specs.FieldTest.{is_modulus};
ghost use Rattle.code_descriptor.specs.Built.{space_of};
ghost use Rattle.code_descriptor.specs.Tests.{nat, is_from_to, is_field, are_degrees, is_affine, are_variables, space_refusal, plain_space, parts, plain_rule, rule_refusal, refusals};
ghost use Rattle.code_descriptor.specs.Views.{space_named, named_of, IsRefusal};

use crate::curves::curve_of;
use crate::keys::{NamedParts, NamedRule, NamedSpace};
use crate::points::points_of;
use crate::{DescCause, DescError, Descriptor, MOST_NUMBER, Pieces, Space};
use affine_domain::AffineDomain;
use ag_frame::MOST_DEPTH;
use eval_basis::CheckRule;
use gf_field::{Field, PolyField};
use std::alloc::Global;
use weight_semi::Semi;

/// The integer, where it is from `low` to `high`.
pub fn within(z: i64, low: u32, high: u32) -> Option<u32>
    ensures test { MatchOption result
        (is_from_to low high z ≡ false)
        (λ n. (is_from_to low high z ≡ true) × (n ≡ nat z)) }
    ensures range { IfSome result (λ n. (low ≤ n) × (n ≤ high)) }
{
    if i64::from(low) <= z && z <= i64::from(high) {
        Some(z as u32)
    } else {
        None
    }
}

// The field of these bits and this modulus, by the test of them.
fn new_field(bits: u32, modulus: u32) -> Option<PolyField>
    ensures { MatchOption result
        (is_modulus bits modulus ≡ false)
        (λ f. (is_modulus bits modulus ≡ true) × (f.bits ≡ bits) × (f.modulus ≡ modulus)) }
{
    PolyField::new(bits, modulus)
}

// The field of two integers.
#[tactic(auto, unfolding(crate::specs::Tests::is_field))]
fn field_of(bits: i64, modulus: i64) -> Option<PolyField>
    ensures { MatchOption result
        (is_field bits modulus ≡ false)
        (λ f. (is_field bits modulus ≡ true) × (f.bits ≡ nat bits) × (f.modulus ≡ nat modulus)) }
{
    let bits = within(bits, 0, u32::MAX)?;
    let modulus = within(modulus, 0, u32::MAX)?;
    new_field(bits, modulus)
}

// The weights of x and y, where they are those of a curve.
#[tactic(auto, unfolding(crate::specs::Tests::are_degrees))]
fn degrees_of(a: i64, b: i64) -> Option<Semi>
    ensures { MatchOption result
        (are_degrees a b ≡ false)
        (λ s. (are_degrees a b ≡ true) × (s.a ≡ nat a) × (s.b ≡ nat b)) }
{
    let a = within(a, 0, u32::MAX)?;
    let b = within(b, 0, u32::MAX)?;
    Semi::new(a, b)
}

// The space of so many variables, by the test of them.
fn new_domain(bits: u32, vars: u32) -> Option<AffineDomain>
    ensures { MatchOption result
        (is_affine bits vars ≡ false)
        (λ d. (is_affine bits vars ≡ true) × (d.bits ≡ bits) × (d.vars ≡ vars)) }
{
    AffineDomain::new(bits, vars)
}

// The space of so many variables, where there is one.
#[tactic(auto, unfolding(crate::specs::Tests::are_variables))]
fn domain_of(field: &PolyField, vars: i64) -> Option<AffineDomain>
    ensures { MatchOption result
        (are_variables field.now.bits vars ≡ false)
        (λ d. (are_variables field.now.bits vars ≡ true)
        × (d.bits ≡ field.now.bits) × (d.vars ≡ nat vars)) }
{
    let vars = within(vars, 0, u32::MAX)?;
    new_domain(field.bits(), vars)
}

// The space that is named, or the first cause that refuses it.
#[tactic(auto, unfolding(crate::specs::Tests::space_refusal))]
fn space_from(alloc: Global, field: &PolyField, named: &NamedSpace) -> Result<Space, DescError>
    ensures { MatchResult result
        (λ s. (space_refusal field.now.bits (space_named named.now) ≡ None)
        × (space_of s ≡ plain_space field.now.bits (space_named named.now)))
        (λ e. IsRefusal e (space_refusal field.now.bits (space_named named.now))) }
{
    match named {
        NamedSpace::Curve { a, b, terms } => {
            let degrees = degrees_of(*a, *b).ok_or(DescCause::BadDegrees)?;
            let curve = curve_of(alloc, field, degrees, terms)?;
            Ok(Space::Cab { curve })
        }
        NamedSpace::Affine { vars } => match domain_of(field, *vars) {
            Some(domain) => Ok(Space::Affine { domain }),
            None => Err(DescCause::BadSpace.into()),
        },
    }
}

// The rule, or the cause that refuses it.
fn rule_of(rule: NamedRule) -> Result<CheckRule, DescCause>
    ensures { MatchResult result
        (λ r. (rule_refusal rule ≡ None) × (r ≡ plain_rule rule))
        (λ c. rule_refusal rule ≡ Some c) }
{
    match rule {
        NamedRule::Weight { number } => match within(number, 0, MOST_NUMBER) {
            Some(weight) => Ok(CheckRule::AtMost { weight }),
            None => Err(DescCause::BadWeight),
        },
        NamedRule::Improved { number } => match within(number, 0, MOST_NUMBER) {
            Some(pairs) => Ok(CheckRule::Small { pairs }),
            None => Err(DescCause::BadImproved),
        },
    }
}

/// What stands at the keys describes, or the first cause that refuses it.
#[tactic(auto, unfolding(crate::specs::Tests::refusals))]
pub fn descriptor(alloc: Global, named: &NamedParts) -> Result<Descriptor, DescError>
    ensures { MatchResult result
        (λ d. (first_of (refusals (named_of named.now)) ≡ None) × (d ≡ parts (named_of named.now)))
        (λ e. IsRefusal e (first_of (refusals (named_of named.now)))) }
{
    let field = field_of(named.bits, named.modulus).ok_or(DescCause::BadField)?;
    let space = space_from(alloc, &field, &named.space)?;
    let points = points_of(alloc, &field, &space, &named.code.points)?;
    let rule = rule_of(named.code.rule)?;
    let packed = named.code.packed.ok_or(DescCause::BadLayout)?;
    let depth = within(named.code.depth, 1, MOST_DEPTH).ok_or(DescCause::BadDepth)?;
    Ok(Descriptor::new(Pieces {
        field,
        space,
        points,
        rule,
        depth,
        packed,
    }))
}
