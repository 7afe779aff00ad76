//! The functions of a space as an order domain, whichever kind of space it is.

ghost use Rattle.std.specs.Prelude.{◌≡◌, IfOk};
ghost use Rattle.code_descriptor.specs.Built.{space_of, bits_of};
ghost use Rattle.descriptor_code.specs.SpaceDomains.{space_in};

use affine_domain::AffineDomain;
use cab_curve::CabDomain;
use code_descriptor::Space;
use gf_field::Field;
use order_domain::{OrderDomain, Point};
use std::alloc::{AllocError, Global};

/// The functions of a space: those of a curve, or the monomials on an affine space.
#[derive(Drop)]
pub enum SpaceDomain {
    Cab { domain: CabDomain },
    Affine { domain: AffineDomain },
}

impl SpaceDomain {
    /// The functions of a space, whose symbols have `bits` bits. The only error is want of memory.
    pub fn new(alloc: Global, space: Space, bits: u32) -> Result<SpaceDomain, AllocError>
        requires { bits_of (space_of space) ≡ bits }
        ensures { IfOk result (λ d. space_in d ≡ space_of space) }
    {
        match space {
            Space::Cab { curve } => {
                let domain = CabDomain::new(alloc, curve, bits)?;
                Ok(SpaceDomain::Cab { domain })
            }
            Space::Affine { domain } => Ok(SpaceDomain::Affine { domain }),
        }
    }
}

impl OrderDomain for SpaceDomain {
    ghost use Rattle.descriptor_code.specs.SpaceDomains.{space_in, space-lawful};
    ghost use Rattle.descriptor_code.specs.Codes.{domain_on};

    ghost domain = { λ d. domain_on (space_in d) };

    ghost lawful = { space-lawful };

    fn bits(&self) -> u32 {
        match self {
            SpaceDomain::Cab { domain } => domain.bits(),
            SpaceDomain::Affine { domain } => domain.bits(),
        }
    }

    fn count(&self) -> u32 {
        match self {
            SpaceDomain::Cab { domain } => domain.count(),
            SpaceDomain::Affine { domain } => domain.count(),
        }
    }

    fn label(&self, i: u32) -> u32 {
        match self {
            SpaceDomain::Cab { domain } => domain.label(i),
            SpaceDomain::Affine { domain } => domain.label(i),
        }
    }

    fn eval<F: Field>(&self, f: &F, i: u32, p: &Point) -> u8 {
        match self {
            SpaceDomain::Cab { domain } => domain.eval(f, i, p),
            SpaceDomain::Affine { domain } => domain.eval(f, i, p),
        }
    }

    fn sum(&self, i: u32, j: u32) -> Option<u32> {
        match self {
            SpaceDomain::Cab { domain } => domain.sum(i, j),
            SpaceDomain::Affine { domain } => domain.sum(i, j),
        }
    }

    fn lead<F: Field>(&self, f: &F, i: u32, j: u32) -> u8 {
        match self {
            SpaceDomain::Cab { domain } => domain.lead(f, i, j),
            SpaceDomain::Affine { domain } => domain.lead(f, i, j),
        }
    }

    fn on<F: Field>(&self, f: &F, p: &Point) -> bool {
        match self {
            SpaceDomain::Cab { domain } => domain.on(f, p),
            SpaceDomain::Affine { domain } => domain.on(f, p),
        }
    }
}
