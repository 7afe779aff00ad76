//! The checked members of a basis.

ghost use Rattle.std.specs.Prelude.{◌≡◌, ◌<◌, ◌≤◌, length, count_by, IfOk, IsTrue, slice_index_or, false};
ghost use Rattle.order_theory.specs.Codes.{marked};
ghost use Rattle.eval_basis.specs.Rules.{rule_checks, checked_by};

use crate::basis::EvalBasis;
use gf_field::Field;
use std::alloc::{AllocError, Global};
use std::marker::Model;

/// Which members of a basis are checked.
#[derive(Clone, Copy)]
pub enum CheckRule {
    /// Those whose label is at most `weight`.
    AtMost { weight: u32 },
    /// Those that have fewer than `pairs` pairs.
    Small { pairs: u32 },
}

impl CheckRule {
    /// Whether a member that has this label and so many pairs is checked.
    pub fn checks(self, label: u32, pairs: u32) -> bool
        ensures { result ≡ rule_checks self label pairs }
    {
        match self {
            CheckRule::AtMost { weight } => label <= weight,
            CheckRule::Small { pairs: limit } => pairs < limit,
        }
    }
}

/// One mark for each member of a basis.
#[derive(Drop)]
pub struct Checked {
    marks: Vec<bool>,
    size: u32,
}

impl Model for Checked {
    ghost use Rattle.std.specs.Prelude.{◌≡◌, ◌≤◌, List, Bool, length, count_by};

    ghost Value = { List Bool };

    ghost view = { λ s. s.marks.items };

    ghost invariant = { λ s. (s.size ≡ count_by (λ m. m) s.marks.items) };
}

impl Checked {
    /// The marks that the rule gives.
    pub fn new<F: Field>(
        alloc: Global,
        basis: &EvalBasis<F>,
        rule: CheckRule,
    ) -> Result<Checked, AllocError>
        ensures marks { IfOk result (λ c. c ≡ checked_by basis.now rule) }
        ensures long { IfOk result (λ c. length c ≡ basis.now.n) }
    {
        let n = basis.n();
        let mut marks = Vec::with_capacity(alloc, n as usize)?;
        let mut size = 0;
        for k in 0..n {
            let mark = rule.checks(basis.label(k), basis.pairs(k));
            marks.push(mark)?;
            if mark {
                size += 1;
            }
        }
        Ok(Checked { marks, size })
    }

    /// Whether member k is checked.
    pub fn holds(&self, k: u32) -> bool
        requires { k < length self.now }
        ensures { result ≡ marked self.now k }
    {
        self.marks[k as usize]
    }

    /// How many members are checked.
    pub fn size(&self) -> u32
        ensures { result ≡ count_by (λ m. m) self.now }
    {
        self.size
    }
}
