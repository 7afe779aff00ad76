//! The code that a descriptor describes, with what a command needs beside it.

ghost use Rattle.std.specs.Prelude.{◌≡◌, ℕ, ◌≤◌, length, IfOk, Err};
ghost use Rattle.block_theory.specs.Marked.{chosen};
ghost use Rattle.order_domain.specs.Domain.{AreOn};
ghost use Rattle.order_domain.specs.Points.{IsPointList};
ghost use Rattle.code_descriptor.specs.Parts.{IsDescriptor};
ghost use Rattle.code_descriptor.specs.Built.{space_of, bits_of};
ghost use Rattle.descriptor_code.specs.Plain.{IsFull, IsRelationOn, IsRelation, labels, checked_labels};
ghost use Rattle.descriptor_code.specs.Codes.{domain_of, IsCodeOf};
ghost use Rattle.descriptor_code.specs.PlainLaws.{IsPlain};

use crate::space_domain::SpaceDomain;
use ag_pool::Workers;
use block_code::{Code, CompileFault};
use cab_curve::Normal;
use code_descriptor::{Descriptor, Pieces, Space};
use eval_basis::{CheckRule, Checked, EvalBasis};
use gf_field::{Field, PolyField};
use gf_tables::TableField;
use order_domain::{OrderDomain, Points};
use std::alloc::{AllocError, Global};
use std::marker::Model;
use std::thread::Threads;

/// The code of a descriptor, over a field with tables. Contracts see it as the parts that the descriptor names: it is made of
/// nothing else, and that the code is theirs is kept by the type.
#[derive(Drop)]
pub struct DescribedCode {
    code: Code<TableField>,
    domain: SpaceDomain,
    points: Points,
    // The normal form of `y^a` on a curve.
    relation: Option<Normal>,
    rule: CheckRule,
    depth: u32,
    packed: bool,
}

impl Model for DescribedCode {
    ghost use Rattle.code_descriptor.specs.Parts.{Parts};

    ghost Value = { Parts };

    ghost use Rattle.descriptor_code.specs.Described.{parts_in, IsDescribed};

    ghost view = { parts_in };

    ghost invariant = { λ s. IsDescribed (parts_in s) s.code s.relation };
}

// The normal form of `y^a` on a curve; None on an affine space. The only error is want of memory.
fn relation_on(
    alloc: Global,
    field: &PolyField,
    space: &Space,
) -> Result<Option<Normal>, AllocError>
    requires { field.now.bits ≡ bits_of (space_of space.now) }
    ensures { IfOk result (IsRelationOn field.now.modulus (space_of space.now)) }
{
    match space {
        Space::Cab { curve } => {
            let normal = curve.normal(alloc, field, 0, curve.a())?;
            Ok(Some(normal))
        }
        Space::Affine { .. } => Ok(None),
    }
}

impl DescribedCode {
    /// The code of a descriptor that has points. NothingFree: its rule checks every member. NoMemory may come in place of any
    /// answer.
    pub fn compile<X: Threads + Sync>(
        rt: &X,
        alloc: Global,
        descriptor: Descriptor,
        workers: Workers,
    ) -> Result<DescribedCode, CompileFault>
        requires { 1 ≤ length descriptor.points }
        ensures parts { IfOk result (λ s. s ≡ descriptor) }
        ensures some_free { IfOk result (λ _. IsFull descriptor → ⊥) }
        ensures nothing_free { result ≡ Err CompileFault.NothingFree → IsFull descriptor }
    {
        let Pieces {
            field,
            space,
            points,
            rule,
            depth,
            packed,
        } = descriptor.into_pieces();
        let tables = TableField::new(alloc, &field)?;
        let relation = relation_on(alloc, &field, &space)?;
        let domain = SpaceDomain::new(alloc, space, field.bits())?;
        let code = Code::compile(rt, alloc, tables, &domain, &points, rule, workers)?;
        Ok(DescribedCode {
            code,
            domain,
            points,
            relation,
            rule,
            depth,
            packed,
        })
    }

    /// The code. What a command tells of it is what Plain says of the parts.
    pub fn code(&self) -> &Code<TableField>
        ensures plain { IsPlain self.now result.now }
        ensures code { IsCodeOf self.now result.now }
        ensures descriptor { IsDescriptor self.now }
    {
        &self.code
    }

    /// The functions of the space.
    pub fn domain(&self) -> &SpaceDomain
        ensures domain { ⟦<SpaceDomain as OrderDomain>⟧.domain result.now ≡ domain_of self.now }
        ensures descriptor { IsDescriptor self.now }
    {
        &self.domain
    }

    /// The points, each of which is on the domain.
    pub fn points(&self) -> &Points
        ensures points { result.now ≡ self.now.points }
        ensures on { AreOn (domain_of self.now) self.now.modulus self.now.points }
        ensures distinct { IsPointList self.now.points }
    {
        &self.points
    }

    /// The normal form of `y^a` on a curve; None on an affine space.
    pub fn relation(&self) -> &Option<Normal>
        ensures { IsRelation self.now result.now }
    {
        &self.relation
    }

    /// By which members are checked.
    pub fn rule(&self) -> CheckRule
        ensures { result ≡ self.now.rule }
    {
        self.rule
    }

    /// The codewords of a group, 1 to 64.
    pub fn depth(&self) -> u32
        ensures depth { result ≡ self.now.depth }
        ensures descriptor { IsDescriptor self.now }
    {
        self.depth
    }

    /// Whether a symbol is stored in as many bits as it has, and not in a byte.
    pub fn is_packed(&self) -> bool
        ensures { result ≡ self.now.packed }
    {
        self.packed
    }

    /// The labels of the members.
    pub fn labels(&self, alloc: Global) -> Result<Vec<u32>, AllocError>
        ensures { IfOk result (λ v. v.items ≡ labels self.now) }
    {
        let code = self.code();
        member_labels(alloc, code.basis())
    }

    /// The labels of the members that are checked.
    pub fn checked_labels(&self, alloc: Global) -> Result<Vec<u32>, AllocError>
        ensures { IfOk result (λ v. v.items ≡ checked_labels self.now) }
    {
        let code = self.code();
        chosen_labels(alloc, code.basis(), code.checked())
    }
}

// The labels of all members.
fn member_labels<F: Field>(alloc: Global, basis: &EvalBasis<F>) -> Result<Vec<u32>, AllocError>
    ensures { IfOk result (λ v. v.items ≡ basis.now.labels) }
{
    let n = basis.n();
    let mut labels = Vec::with_capacity(alloc, n as usize)?;
    for k in 0..n {
        labels.push(basis.label(k))?;
    }
    Ok(labels)
}

// The labels of the checked members.
fn chosen_labels<F: Field>(
    alloc: Global,
    basis: &EvalBasis<F>,
    checked: &Checked,
) -> Result<Vec<u32>, AllocError>
    requires { length checked.now ≡ basis.now.n }
    ensures { IfOk result (λ v. v.items ≡ chosen checked.now basis.now.labels) }
{
    let n = basis.n();
    let mut labels = Vec::with_capacity(alloc, checked.size() as usize)?;
    for k in 0..n {
        if checked.holds(k) {
            labels.push(basis.label(k))?;
        }
    }
    Ok(labels)
}
