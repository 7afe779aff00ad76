//! What the points of a descriptor are points of.

ghost use Rattle.std.specs.Prelude.{◌≡◌, IfOk};
ghost use Rattle.code_descriptor.specs.Parts.{coordinates, is_on_space, points_of};
ghost use Rattle.code_descriptor.specs.Built.{space_of, bits_of};

use affine_domain::AffineDomain;
use cab_curve::{Curve, Point};
use gf_field::Field;
use order_domain::OrderDomain;
use std::alloc::{AllocError, Global};

/// A space over the field of a descriptor. Its bits are the field's.
#[derive(Drop)]
pub enum Space {
    /// A plane curve in the form C_ab.
    Cab { curve: Curve },
    /// All points of one, two or three coordinates.
    Affine { domain: AffineDomain },
}

impl Space {
    /// How many coordinates a point of the space has.
    pub fn coordinates(&self) -> u32
        ensures { result ≡ coordinates (space_of self.now) }
    {
        match self {
            Space::Cab { .. } => 2,
            Space::Affine { domain } => domain.vars(),
        }
    }

    /// Whether p is on the space.
    pub fn holds<F: Field>(&self, f: &F, p: &Point) -> bool
        requires { F.bits_of f.now ≡ bits_of (space_of self.now) }
        ensures { result
            ≡ is_on_space (F.bits_of f.now) (F.modulus_of f.now) (space_of self.now) p.now }
    {
        match self {
            Space::Cab { curve } => curve.holds(f, p),
            Space::Affine { domain } => domain.on(f, p),
        }
    }

    /// All points of the space, by rising x, then y, then z. They may be more than a descriptor can have. The only error is
    /// want of memory.
    pub fn all_points<F: Field>(&self, alloc: Global, f: &F) -> Result<Vec<Point>, AllocError>
        requires { F.bits_of f.now ≡ bits_of (space_of self.now) }
        ensures { IfOk result (λ points. points.items
            ≡ points_of (F.bits_of f.now) (F.modulus_of f.now) (space_of self.now)) }
    {
        match self {
            Space::Cab { curve } => curve.all_points(alloc, f),
            Space::Affine { domain } => domain.all_points(alloc, f),
        }
    }
}
