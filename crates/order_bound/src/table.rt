//! The check of a table.

ghost use Rattle.std.specs.Prelude.{◌≡◌, ◌*◌, ◌<◌, ◌≤◌, ◌^◌, length, All, IfOk, IsTrue, MatchResult};
ghost use Rattle.gf_theory.specs.Field.{IsModulus};
ghost use Rattle.order_theory.specs.Basis.{Basis, IsSoundBasis};
ghost use Rattle.order_domain.specs.Domain.{ArePoints};
ghost use Rattle.eval_basis.specs.Built.{IsBuilt};
ghost use Rattle.eval_basis.specs.Rules.{checked_by};
ghost use Rattle.order_bound.specs.Checking.{AreFunctions};
ghost use Rattle.order_bound.specs.Looking.{IsTableBy};
ghost use Rattle.order_bound.specs.Reading.{OnLine};
ghost use Rattle.order_bound.specs.TableChecks.{IsAccepted, IsRefused, Says, SaysOfTable};

use crate::checks::{end_of, first_bad_dual, first_bad_label, indices_of, is_good_head};
use crate::functions::{Functions, functions_of, values_of};
use crate::members::{are_said, have_members};
use crate::reader::{Said, Stop, read_table};
use eval_basis::{CheckRule, tables_of};
use gf_field::Field;
use order_domain::{OrderDomain, Point, Points};
use std::alloc::{AllocError, Global};

/// What the checks of a table say.
#[derive(Clone, Copy, PartialEq, Eq, Debug)]
pub enum TableSays {
    /// The text is the table, with this bound.
    Accepted { bound: u32 },
    /// A check fails, and names this line, counted from 1.
    Refused { line: u32 },
}

/// Checks the table of the code on these points of a domain, whose members are checked by the rule. No basis is built: the
/// checks are made from the values of the functions at the points. A text is accepted exactly where it is the table.
pub fn check_table<F: Field, D: OrderDomain>(
    alloc: Global,
    f: &F,
    dom: &D,
    points: &Points,
    rule: CheckRule,
    text: &[u8],
) -> Result<TableSays, AllocError>
    requires bits { F.bits_of f.now ≡ (D.domain dom.now).bits }
    requires some_points { 1 ≤ length points.now }
    requires on { All (λ p. IsTrue ((D.domain dom.now).on (F.modulus_of f.now) p)) points.now }
    ensures verdict { IfOk result (Says (D.domain dom.now) (F.modulus_of f.now) points.now rule
        text.now) }
    ensures table { IfOk result (λ says. (b : Basis) →
        IsBuilt (D.domain dom.now) (F.modulus_of f.now) points.now b → IsSoundBasis b →
        SaysOfTable b (checked_by b rule) text.now says) }
{
    let functions = functions_of(alloc, dom)?;
    let places = points.as_slice();
    match bound_of(alloc, f, dom, places, rule, &functions, text) {
        Ok(bound) => Ok(TableSays::Accepted { bound }),
        Err(Stop::Line(line)) => Ok(TableSays::Refused { line }),
        Err(Stop::NoMemory) => Err(AllocError),
    }
}

/// Whether what a text says is so, by the tables of the members. It is for each table; where it is not, the checks of the
/// lines one by one tell which fails.
fn is_table<F: Field, D: OrderDomain>(
    alloc: Global,
    f: &F,
    dom: &D,
    points: &[Point],
    rule: CheckRule,
    said: &Said,
    indices: &[u32],
) -> Result<bool, AllocError>
    requires bits { F.bits_of f.now ≡ (D.domain dom.now).bits }
    requires few_points { length points.now ≤ 1024 }
    requires points { ArePoints (D.domain dom.now) (F.modulus_of f.now) points.now }
    requires lines { length indices.now ≡ length points.now }
    requires pairs { length said.now.entries.pairs.items ≡ length indices.now }
    requires marks { length said.now.entries.marks.items ≡ length indices.now }
    requires fits { length said.now.entries.duals.items ≡ length points.now * length points.now }
    requires symbols { All (λ x. x < 2 ^ F.bits_of f.now) said.now.entries.duals.items }
    ensures { IfOk result (λ so. IsTrue so → IsTableBy (D.domain dom.now) (F.modulus_of f.now)
        points.now rule said.now indices.now) }
{
    if !is_good_head(said) {
        return Ok(false);
    }
    if !have_members(alloc, f, dom, points, indices, &said.entries.duals)? {
        return Ok(false);
    }
    let tables = tables_of(alloc, f, dom, indices)?;
    Ok(are_said(&said.entries, rule, &tables.labels, &tables.pair_counts))
}

/// The bound of a table that passes all checks.
fn bound_of<F: Field, D: OrderDomain>(
    alloc: Global,
    f: &F,
    dom: &D,
    points: &[Point],
    rule: CheckRule,
    functions: &Functions,
    text: &[u8],
) -> Result<u32, Stop>
    requires bits { F.bits_of f.now ≡ (D.domain dom.now).bits }
    requires functions { AreFunctions (D.domain dom.now) functions.now }
    requires some_points { 1 ≤ length points.now }
    requires few_points { length points.now ≤ 1024 }
    requires points { ArePoints (D.domain dom.now) (F.modulus_of f.now) points.now }
    ensures { MatchResult result
        (IsAccepted (D.domain dom.now) (F.modulus_of f.now) points.now rule text.now)
        (λ stop. OnLine stop (IsRefused (D.domain dom.now) (F.modulus_of f.now) points.now rule
        text.now)) }
{
    let said = match read_table(alloc, text, points.len() as u32, symbol_count(f)) {
        Ok(said) => said,
        Err(stop) => return Err(stop),
    };
    let indices = indices_of(alloc, &functions.labels, &said.entries.labels)?;
    if is_table(alloc, f, dom, points, rule, &said, &indices)? {
        return Ok(said.bound as u32);
    }
    if let Some(k) = first_bad_label(dom, functions, rule, &said.entries, &indices) {
        return Err(Stop::Line(k + 3));
    }
    let end = end_of(&indices, dom.count());
    let values = values_of(alloc, f, dom, points, end)?;
    let mut products = vec![in alloc; 0u8; end as usize]?;
    if let Some(k) = first_bad_dual(f, &values, &said.entries.duals, &indices, &mut products) {
        return Err(Stop::Line(k + 3));
    }
    if !is_good_head(&said) {
        return Err(Stop::Line(2));
    }
    Ok(said.bound as u32)
}

/// How many symbols there are.
fn symbol_count<F: Field>(f: &F) -> u64
    ensures count { result ≡ 2 ^ F.bits_of f.now }
    ensures few { result ≤ 256 }
    ensures modulus { IsModulus (F.bits_of f.now) (F.modulus_of f.now) }
{
    1 << f.bits()
}
