//! The basis of a domain at some points.

ghost use Rattle.std.specs.Prelude.{◌≡◌, ◌≤◌, length, All, IfOk, IsTrue};
ghost use Rattle.eval_basis.specs.Built.{IsBuilt};

use crate::basis::EvalBasis;
use crate::members::{Members, find_members};
use crate::tables::tables_of;
use ag_pool::Workers;
use gf_field::Field;
use order_domain::{OrderDomain, Points};
use std::alloc::{AllocError, Global};
use std::thread::Threads;

impl<F: Field> EvalBasis<F> {
    /// The basis of the domain at these points, over the field: its members are exactly the functions whose values are no
    /// combination of the values of the functions before them. There are as many as points. The basis keeps the field.
    ///
    /// Source: T. Høholdt, J. H. van Lint, R. Pellikaan, "Algebraic geometry codes", in the Handbook of Coding Theory, 1998.
    pub fn build<X: Threads + Sync, D: OrderDomain>(
        rt: &X,
        alloc: Global,
        field: F,
        dom: &D,
        points: &Points,
        workers: Workers,
    ) -> Result<EvalBasis<F>, AllocError>
    where
        F: Sync,
        requires bits { F.bits_of field ≡ (D.domain dom.now).bits }
        requires some_points { 1 ≤ length points.now }
        requires on { All (λ p. IsTrue ((D.domain dom.now).on (F.modulus_of field) p)) points.now }
        ensures { IfOk result (IsBuilt (D.domain dom.now) (F.modulus_of field) points.now) }
    {
        // the numbers of its bits and modulus are a field, and the domain is lawful
        field.bits();
        dom.bits();
        let n = points.len() as u32;
        let count = dom.count();
        let Members {
            ranks,
            vectors,
            duals,
        } = find_members(rt, alloc, &field, dom, points, workers)?;
        let tables = tables_of(alloc, &field, dom, &ranks)?;
        Ok(EvalBasis {
            field,
            n,
            count,
            ranks,
            labels: tables.labels,
            pair_counts: tables.pair_counts,
            vectors,
            duals,
            sums: tables.sums,
            leads: tables.leads,
        })
    }
}
