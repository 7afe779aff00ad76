//! The design of the points of a descriptor.

ghost use Rattle.std.specs.Prelude.{◌≡◌, ℕ, ◌+◌, ◌*◌, ◌^◌, ◌<◌, ◌≤◌, length, IfOk};
ghost use Rattle.code_descriptor.specs.Parts.{Parts};
ghost use Rattle.descriptor_design.specs.Steps.{IsBasisOf};
ghost use Rattle.descriptor_design.specs.Plans.{DesignsFor};

use crate::lines::plan_lines;
use ag_pool::Workers;
use code_descriptor::{Descriptor, Pieces};
use code_design::{Designed, design as design_of};
use descriptor_code::SpaceDomain;
use eval_basis::EvalBasis;
use gf_field::Field;
use gf_tables::TableField;
use std::alloc::{AllocError, Global};
use std::thread::Threads;

/// What comes of a design.
#[derive(Drop)]
pub enum DesignSays {
    /// The plans, in five lines.
    Text { text: Vec<u8> },
    /// No set of members serves; this is the greatest number of pairs of a member.
    Nothing { most: u32 },
}

// The basis at the points of a descriptor.
fn basis_of<X: Threads + Sync>(
    rt: &X,
    alloc: Global,
    descriptor: Descriptor,
    workers: Workers,
) -> Result<EvalBasis<TableField>, AllocError>
    requires { 1 ≤ length descriptor.points }
    ensures { IfOk result (IsBasisOf descriptor) }
{
    let Pieces {
        field,
        space,
        points,
        ..
    } = descriptor.into_pieces();
    let tables = TableField::new(alloc, &field)?;
    let domain = SpaceDomain::new(alloc, space, field.bits())?;
    let basis = EvalBasis::build(rt, alloc, tables, &domain, &points, workers)?;
    // the basis is sound
    basis.n();
    Ok(basis)
}

// The design at the points of a basis.
fn design_at(
    alloc: Global,
    basis: &EvalBasis<TableField>,
    want: u32,
) -> Result<DesignSays, AllocError>
    requires { 2 * want + 1 < 2 ^ 32 }
    ensures { IfOk result
        (λ d. (p : Parts) → IsBasisOf p basis.now → DesignsFor p want d) }
{
    match design_of(basis, want) {
        Designed::Found { plan } => {
            let text = plan_lines(alloc, basis, want, &plan)?;
            Ok(DesignSays::Text { text })
        }
        Designed::Nothing { most } => Ok(DesignSays::Nothing { most }),
    }
}

/// What to check at the points of a descriptor so that `want` errors are repaired: the least weight, the fewest members, and
/// which members each code that repairs as many must check; or that none does. The rule of the descriptor is not used, and
/// need leave no member free. All that is asked of `want` is that twice as many and one is a number of 32 bits.
pub fn design<X: Threads + Sync>(
    rt: &X,
    alloc: Global,
    descriptor: Descriptor,
    want: u32,
    workers: Workers,
) -> Result<DesignSays, AllocError>
    requires some_points { 1 ≤ length descriptor.points }
    requires few { 2 * want + 1 < 2 ^ 32 }
    ensures { IfOk result (DesignsFor descriptor want) }
{
    let basis = basis_of(rt, alloc, descriptor, workers)?;
    design_at(alloc, &basis, want)
}
