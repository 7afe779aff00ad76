//! What a domain says of its functions.

ghost use Rattle.std.specs.Prelude.{ℕ, ◌≡◌, ◌+◌, ◌^◌, ◌<◌, ◌≤◌, All, length, IfOk};
ghost use Rattle.order_domain.specs.Domain.{ArePoints, IsOrderDomain};
ghost use Rattle.order_domain.specs.Values.{value_at};
ghost use Rattle.eval_basis.specs.Flat.{IsList};
ghost use Rattle.order_bound.specs.Checking.{IsGrid, AreFunctions};

use gf_field::Field;
use order_domain::{OrderDomain, Point};
use std::alloc::{AllocError, Global};

/// The label of each function of a domain.
#[derive(Drop)]
pub struct Functions {
    pub labels: Vec<u32>,
}

/// The functions of a domain.
pub fn functions_of<D: OrderDomain>(alloc: Global, dom: &D) -> Result<Functions, AllocError>
    ensures { IfOk result (AreFunctions (D.domain dom.now)) }
{
    dom.bits();
    dom.count();
    let labels = labels_of(alloc, dom)?;
    Ok(Functions { labels })
}

#[tactic(auto, using(eval_basis::proofs::Pushing::pushing))]
fn labels_of<D: OrderDomain>(alloc: Global, dom: &D) -> Result<Vec<u32>, AllocError>
    ensures labels { IfOk result (λ v. IsList (D.domain dom.now).count (D.domain dom.now).label
        v.items) }
    ensures fit { IfOk result (λ v. (i : ℕ) → i < (D.domain dom.now).count →
        (D.domain dom.now).label i < 2 ^ 32) }
{
    let mut labels = Vec::with_capacity(alloc, dom.count() as usize)?;
    for i in 0..dom.count() {
        labels.push(dom.label(i))?;
    }
    Ok(labels)
}

/// The values of the functions before `end` at the points, position by position.
pub fn values_of<F: Field, D: OrderDomain>(
    alloc: Global,
    f: &F,
    dom: &D,
    points: &[Point],
    end: u32,
) -> Result<Vec<u8>, AllocError>
    requires bits { F.bits_of f.now ≡ (D.domain dom.now).bits }
    requires few { length points.now ≤ 1024 }
    requires points { ArePoints (D.domain dom.now) (F.modulus_of f.now) points.now }
    requires functions { end ≤ (D.domain dom.now).count }
    ensures values { IfOk result (λ v. IsGrid (length points.now) end
        (λ p i. value_at (D.domain dom.now) (F.modulus_of f.now) points.now i p) v.items) }
    ensures symbols { IfOk result (λ v. All (λ x. x < 2 ^ F.bits_of f.now) v.items) }
{
    let mut values = Vec::with_capacity(alloc, points.len() * end as usize)?;
    for p in 0..points.len() {
        for i in 0..end {
            values.push(dom.eval(f, i, &points[p]))?;
        }
    }
    Ok(values)
}
