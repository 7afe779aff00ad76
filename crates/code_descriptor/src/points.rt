//! From the points of a text to points of a space.

ghost use Rattle.std.specs.Prelude.{◌≡◌, ℕ, ◌+◌, ◌<◌, true, false, None, [], ◌∷◌, ◌++◌, IfSome, MatchOption, MatchResult, map, take, length};
ghost use Rattle.code_descriptor.specs.Tests.{plain_point, has_point, is_space_point, is_bad_point, point_refusal};
ghost use Rattle.code_descriptor.specs.Built.{space_of, bits_of};
ghost use Rattle.code_descriptor.specs.Views.{IsRefusal};

use crate::parts::within;
use crate::tree::NamedPoint;
use crate::{DescCause, DescError, Space};
use cab_curve::Point;
use gf_field::{Field, PolyField};
use order_domain::{MOST_POINTS, Points};
use std::alloc::Global;

// Whether the point is among the points.
fn has_point(points: &[Point], point: Point) -> bool
    ensures { result ≡ has_point points.now point }
{
    for other in points {
        if other.x == point.x && other.y == point.y && other.z == point.z {
            return true;
        }
    }
    false
}

// The point, where it has as many numbers as the space has coordinates, they are symbols, and it is on the space.
#[tactic(auto, unfolding(crate::specs::Tests::is_space_point))]
fn space_point(field: &PolyField, space: &Space, point: NamedPoint) -> Option<Point>
    requires { field.now.bits ≡ bits_of (space_of space.now) }
    ensures { MatchOption result
        (is_space_point field.now.bits field.now.modulus (space_of space.now) point ≡ false)
        (λ p. (is_space_point field.now.bits field.now.modulus (space_of space.now) point ≡ true)
        × (p ≡ plain_point point)) }
{
    if point.count != space.coordinates() {
        return None;
    }
    let greatest = (1u32 << field.bits()) - 1;
    let x = within(point.x, 0, greatest)?;
    let y = within(point.y, 0, greatest)?;
    let z = within(point.z, 0, greatest)?;
    let plain = Point {
        x: x as u8,
        y: y as u8,
        z: z as u8,
    };
    if space.holds(field, &plain) {
        Some(plain)
    } else {
        None
    }
}

// Point `k`, which follows these points, where it is not refused.
#[tactic(auto, unfolding(crate::specs::Tests::is_bad_point))]
fn next_point(
    field: &PolyField,
    space: &Space,
    points: &[NamedPoint],
    k: usize,
    before: &[Point],
) -> Option<Point>
    requires bits { field.now.bits ≡ bits_of (space_of space.now) }
    requires k { k < length points.now }
    requires before { before.now ≡ map plain_point (take k points.now) }
    ensures point { MatchOption result
        (is_bad_point field.now.bits field.now.modulus (space_of space.now) points.now k ≡ true)
        (λ p. (is_bad_point field.now.bits field.now.modulus (space_of space.now) points.now k
        ≡ false)
        × (map plain_point (take (k + 1) points.now) ≡ before.now ++ p ∷ [])) }
    ensures fresh { IfSome result (λ p. has_point before.now p ≡ false) }
    ensures room { IfSome result (λ _. k < MOST_POINTS) }
{
    if k >= MOST_POINTS {
        return None;
    }
    let point = space_point(field, space, points[k])?;
    if has_point(before, point) {
        return None;
    }
    Some(point)
}

/// The points, or the first cause that refuses them.
pub fn points_of(
    alloc: Global,
    field: &PolyField,
    space: &Space,
    points: &[NamedPoint],
) -> Result<Points, DescError>
    requires { field.now.bits ≡ bits_of (space_of space.now) }
    ensures { MatchResult result
        (λ v. (point_refusal field.now.bits field.now.modulus (space_of space.now) points.now
        ≡ None)
        × (v ≡ map plain_point points.now))
        (λ e. IsRefusal e
        (point_refusal field.now.bits field.now.modulus (space_of space.now) points.now)) }
{
    let mut plain = Points::new(alloc);
    for k in 0..points.len() {
        match next_point(field, space, points, k, plain.as_slice()) {
            Some(point) => plain.push(point)?,
            None => return Err(DescCause::BadPoint { index: k as u32 }.into()),
        }
    }
    Ok(plain)
}
