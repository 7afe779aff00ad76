//! The keys of a descriptor.

ghost use Rattle.std.specs.Prelude.{◌≡◌, ℕ, ◌<◌, ◌^◌, Option, Some, None, [], ◌∷◌, MatchResult, codes, length, option_map, true, false};
ghost use Rattle.std.specs.List.{find};
ghost use Rattle.toml.specs.View.{table_view};
ghost use Rattle.code_descriptor.specs.Tree.{integer_at, terms_at, points_at, bad_key, is_bad, is_there, has_space, has_unknown, is_known, packed_by, packed_at, space_keys, code_keys, IsNamed, IsNamedSpace, IsNamedRule};
ghost use Rattle.code_descriptor.specs.Views.{space_named, named_of, IsNamedCode, IsRefusal, IsKeyRefusal};

use crate::tree::{NamedPoint, NamedTerm, integer_at, is_there, points_at, terms_at, text_at};
use crate::{DescCause, DescError, KeyName};
use std::alloc::Global;
use toml::value::Table;

/// The integer at `weight` or at `improved`, as it is written.
#[derive(Clone, Copy, Debug, PartialEq, Eq)]
pub enum NamedRule {
    Weight { number: i64 },
    Improved { number: i64 },
}

/// The integers and the terms of a curve, or the integer at `space`, as they are written.
#[derive(Drop)]
pub enum NamedSpace {
    Curve {
        a: i64,
        b: i64,
        terms: Vec<NamedTerm>,
    },
    Affine {
        vars: i64,
    },
}

/// What stands at the keys that name a code on a space, as it is written.
#[derive(Drop)]
pub struct NamedCode {
    pub points: Vec<NamedPoint>,
    pub rule: NamedRule,
    /// Whether the layout is packed, and not in bytes; None where it names neither.
    pub packed: Option<bool>,
    pub depth: i64,
}

/// What stands at the keys, as it is written.
#[derive(Drop)]
pub struct NamedParts {
    pub bits: i64,
    pub modulus: i64,
    pub space: NamedSpace,
    pub code: NamedCode,
}

// The integer at a key that a descriptor has.
fn integer_key(table: &Table, key: &str, name: KeyName) -> Result<i64, DescError>
    ensures { MatchResult result
        (λ z. integer_at key.now (table_view table.now) ≡ Some z)
        (λ e. (e ≡ DescError.Refused (DescCause.BadKey name))
        × (integer_at key.now (table_view table.now) ≡ None)) }
{
    match integer_at(table, key) {
        Some(z) => Ok(z),
        None => Err(DescCause::BadKey { key: name }.into()),
    }
}

// The terms of a descriptor.
fn terms_key(alloc: Global, table: &Table) -> Result<Vec<NamedTerm>, DescError>
    ensures { MatchResult result
        (λ v. terms_at (codes "terms") (table_view table.now) ≡ Some v.items)
        (λ e. IsKeyRefusal e KeyName.Terms (terms_at (codes "terms") (table_view table.now))) }
{
    let key = KeyName::Terms;
    terms_at(alloc, table, "terms")?.ok_or(DescCause::BadKey { key }.into())
}

// The points of a descriptor.
fn points_key(alloc: Global, table: &Table) -> Result<Vec<NamedPoint>, DescError>
    ensures { MatchResult result
        (λ v. points_at (has_space (table_view table.now)) (codes "points") (table_view table.now)
        ≡ Some v.items)
        (λ e. IsKeyRefusal e KeyName.Points
        (points_at (has_space (table_view table.now)) (codes "points") (table_view table.now))) }
{
    let key = KeyName::Points;
    let in_space = is_there(table, "space");
    points_at(alloc, table, "points", in_space)?.ok_or(DescCause::BadKey { key }.into())
}

// The number of variables of a space, or which of the keys of a space is bad: those of a curve may not be there.
fn variables_key(table: &Table) -> Result<i64, KeyName>
    requires { has_space (table_view table.now) ≡ true }
    ensures { MatchResult result
        (λ z. (find (is_bad (table_view table.now)) space_keys ≡ None)
        × (integer_at (codes "space") (table_view table.now) ≡ Some z))
        (λ key. find (is_bad (table_view table.now)) space_keys ≡ Some key) }
{
    let Some(vars) = integer_at(table, "space") else {
        return Err(KeyName::Space);
    };
    if is_there(table, "a") {
        return Err(KeyName::A);
    }
    if is_there(table, "b") {
        return Err(KeyName::B);
    }
    if is_there(table, "terms") {
        return Err(KeyName::Terms);
    }
    Ok(vars)
}

// The integers and the terms of a curve, or the first of its keys that is bad.
fn curve_keys(alloc: Global, table: &Table) -> Result<NamedSpace, DescError>
    requires { has_space (table_view table.now) ≡ false }
    ensures { MatchResult result
        (λ s. (find (is_bad (table_view table.now)) space_keys ≡ None)
        × IsNamedSpace (table_view table.now) (space_named s))
        (λ e. IsRefusal e (option_map DescCause.BadKey
        (find (is_bad (table_view table.now)) space_keys))) }
{
    let a = integer_key(table, "a", KeyName::A)?;
    let b = integer_key(table, "b", KeyName::B)?;
    let terms = terms_key(alloc, table)?;
    Ok(NamedSpace::Curve { a, b, terms })
}

// The space of a descriptor, or the first of its keys that is bad.
fn space_key(alloc: Global, table: &Table) -> Result<NamedSpace, DescError>
    ensures { MatchResult result
        (λ s. (find (is_bad (table_view table.now)) space_keys ≡ None)
        × IsNamedSpace (table_view table.now) (space_named s))
        (λ e. IsRefusal e (option_map DescCause.BadKey
        (find (is_bad (table_view table.now)) space_keys))) }
{
    if !is_there(table, "space") {
        return curve_keys(alloc, table);
    }
    match variables_key(table) {
        Ok(vars) => Ok(NamedSpace::Affine { vars }),
        Err(key) => Err(key.into()),
    }
}

// The rule of a descriptor, or which of its two keys is bad.
fn rule_key(table: &Table) -> Result<NamedRule, KeyName>
    ensures { MatchResult result
        (λ r. (is_bad (table_view table.now) KeyName.Weight ≡ false)
        × (is_bad (table_view table.now) KeyName.Improved ≡ false)
        × IsNamedRule (table_view table.now) r)
        (λ key. find (is_bad (table_view table.now)) (KeyName.Weight ∷ KeyName.Improved ∷ [])
        ≡ Some key) }
{
    if !is_there(table, "improved") {
        return match integer_at(table, "weight") {
            Some(number) => Ok(NamedRule::Weight { number }),
            None => Err(KeyName::Weight),
        };
    }
    if !is_there(table, "weight") {
        return match integer_at(table, "improved") {
            Some(number) => Ok(NamedRule::Improved { number }),
            None => Err(KeyName::Improved),
        };
    }
    match integer_at(table, "weight") {
        Some(_) => Err(KeyName::Improved),
        None => Err(KeyName::Weight),
    }
}

// Whether a string names the packed layout; None where it names none.
fn packed_by(text: &str) -> Option<bool>
    ensures { result ≡ packed_by text.now }
{
    if text == "bytes" {
        Some(false)
    } else if text == "packed" {
        Some(true)
    } else {
        None
    }
}

// Whether the layout of a descriptor is packed; None where its string names none.
fn layout_key(table: &Table) -> Result<Option<bool>, KeyName>
    ensures { MatchResult result
        (λ packed. (is_bad (table_view table.now) KeyName.Layout ≡ false)
        × (packed_at (table_view table.now) ≡ packed))
        (λ key. (key ≡ KeyName.Layout) × (is_bad (table_view table.now) KeyName.Layout ≡ true)) }
{
    match text_at(table, "layout") {
        Some(text) => Ok(packed_by(text)),
        None if is_there(table, "layout") => Err(KeyName::Layout),
        None => Ok(Some(false)),
    }
}

// What stands at the keys of a code on a space, or the first of them that is bad.
fn code_key(alloc: Global, table: &Table) -> Result<NamedCode, DescError>
    ensures { MatchResult result
        (λ c. (find (is_bad (table_view table.now)) code_keys ≡ None)
        × IsNamedCode (table_view table.now) c)
        (λ e. IsRefusal e (option_map DescCause.BadKey
        (find (is_bad (table_view table.now)) code_keys))) }
{
    let points = points_key(alloc, table)?;
    let rule = rule_key(table)?;
    let packed = layout_key(table)?;
    let depth = integer_key(table, "depth", KeyName::Depth)?;
    if has_unknown(table) {
        let key = KeyName::Unknown;
        return Err(DescCause::BadKey { key }.into());
    }
    Ok(NamedCode {
        points,
        rule,
        packed,
        depth,
    })
}

/// What stands at the keys, or the first bad key.
#[tactic(auto, using(crate::proofs::KeyOrder::steps))]
pub fn named_parts(alloc: Global, table: &Table) -> Result<NamedParts, DescError>
    ensures { MatchResult result
        (λ n. (bad_key (table_view table.now) ≡ None) × IsNamed (table_view table.now) (named_of n))
        (λ e. IsRefusal e (option_map DescCause.BadKey (bad_key (table_view table.now)))) }
{
    let bits = integer_key(table, "bits", KeyName::Bits)?;
    let modulus = integer_key(table, "modulus", KeyName::Modulus)?;
    let space = space_key(alloc, table)?;
    let code = code_key(alloc, table)?;
    Ok(NamedParts {
        bits,
        modulus,
        space,
        code,
    })
}

#[tactic(auto, unfolding(crate::specs::Tree::is_known))]
fn is_known(key: &str) -> bool
    ensures { result ≡ is_known key.now }
{
    key == "bits"
        || key == "modulus"
        || key == "space"
        || key == "a"
        || key == "b"
        || key == "terms"
        || key == "points"
        || key == "weight"
        || key == "improved"
        || key == "layout"
        || key == "depth"
}

/// Whether there is a key that no descriptor has.
pub fn has_unknown(table: &Table) -> bool
    ensures { result ≡ has_unknown (table_view table.now) }
{
    'members: for (key, _value) in table.iter() {
        if !is_known(key.as_str()) {
            return true;
        }
    }
    false
}
