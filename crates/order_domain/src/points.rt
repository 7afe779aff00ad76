//! Distinct points.

ghost use Rattle.std.specs.Prelude.{◌≡◌, ◌<◌, ◌≤◌, ◌++◌, ◌∷◌, [], ◌↔◌, length, Contains, IsTrue, IfSome, IfNone, OnOk, OnErr};
ghost use Rattle.order_domain.specs.Domain.{AreOn};
ghost use Rattle.order_domain.specs.Points.{AreDistinct, IsPointList};

use crate::{OrderDomain, Point};
use gf_field::Field;
use std::alloc::{AllocError, Global};
use std::marker::Model;

/// The greatest number of points of a code.
pub const MOST_POINTS: usize = 1_024;

/// A list of at most [`MOST_POINTS`] points, of which no two are the same. Contracts see it as the list.
#[derive(Drop)]
pub struct Points {
    items: Vec<Point>,
}

impl Model for Points {
    ghost use Rattle.std.specs.Prelude.{List};
    ghost use Rattle.order_domain.specs.Points.{Point, IsPointList};

    ghost Value = { List Point };

    ghost view = { λ p. p.items.items };

    ghost invariant = { λ p. IsPointList p.items.items };
}

// Whether no two of these points are the same.
fn are_distinct(points: &[Point]) -> bool
    ensures { IsTrue result ↔ AreDistinct points.now }
{
    for k in 0..points.len() {
        if points[..k].contains(&points[k]) {
            return false;
        }
    }
    true
}

// Whether each of these points is on the domain.
fn all_on<F: Field, D: OrderDomain>(f: &F, dom: &D, points: &[Point]) -> bool
    requires { F.bits_of f.now ≡ (D.domain dom.now).bits }
    ensures { IsTrue result ↔ AreOn (D.domain dom.now) (F.modulus_of f.now) points.now }
{
    for p in points {
        if !dom.on(f, p) {
            return false;
        }
    }
    true
}

impl Points {
    /// No points.
    pub fn new(alloc: Global) -> Points
        ensures { result ≡ [] }
    {
        Points {
            items: Vec::new(alloc),
        }
    }

    /// These points in their order; None exactly where two of them are the same, or they are more than [`MOST_POINTS`].
    pub fn of(items: Vec<Point>) -> Option<Points>
        ensures taken { IfSome result (λ p. p ≡ items.items) }
        ensures points { IfSome result (λ _. IsPointList items.items) }
        ensures refused { IfNone result (IsPointList items.items → ⊥) }
    {
        if items.len() > MOST_POINTS {
            return None;
        }
        if !are_distinct(items.as_slice()) {
            return None;
        }
        Some(Points { items })
    }

    /// The number of points.
    pub fn len(&self) -> usize
        ensures length { result ≡ length self.now }
        ensures few { result ≤ MOST_POINTS }
    {
        self.items.len()
    }

    /// Whether there is no point.
    pub fn is_empty(&self) -> bool
        ensures { IsTrue result ↔ (length self.now ≡ 0) }
    {
        self.items.is_empty()
    }

    /// The points in their order.
    pub fn as_slice(&self) -> &[Point]
        ensures value { result.now ≡ self.now }
        ensures distinct { AreDistinct self.now }
        ensures few { length self.now ≤ MOST_POINTS }
    {
        self.items.as_slice()
    }

    /// Whether `p` is one of the points.
    pub fn contains(&self, p: &Point) -> bool
        ensures { IsTrue result ↔ Contains self.now p.now }
    {
        self.items.as_slice().contains(p)
    }

    /// Adds a point after the others. Where memory is wanting the list stays as it was.
    pub fn push(&mut self, p: Point) -> Result<(), AllocError>
        requires fresh { Contains self.old p → ⊥ }
        requires room { length self.old < MOST_POINTS }
        ensures ok { OnOk result (self.new ≡ self.old ++ p ∷ []) }
        ensures err { OnErr result (self.new ≡ self.old) }
    {
        self.items.push(p)?;
        Ok(())
    }

    /// Whether each point is on the domain.
    pub fn are_on<F: Field, D: OrderDomain>(&self, f: &F, dom: &D) -> bool
        requires { F.bits_of f.now ≡ (D.domain dom.now).bits }
        ensures on { IsTrue result ↔ AreOn (D.domain dom.now) (F.modulus_of f.now) self.now }
        ensures distinct { AreDistinct self.now }
    {
        all_on(f, dom, self.items.as_slice())
    }
}
