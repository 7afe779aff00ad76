//! The basis of a code: vectors with their dual lists, what the order of the members says of their products, and which
//! members are checked. Start at `EvalBasis`, whose type keeps that it is sound, and at `Checked`. Who checks what another
//! says of the members has `evaluate`, `mark_sums` and `tables_of`.
#![tactic(auto)]

ghost use Rattle.eval_basis.specs.ByLabels.{AtMostLaw};
ghost use Rattle.eval_basis.specs.Determined.{DeterminedLaw};
ghost use Rattle.eval_basis.specs.Members.{RuleLaw};

mod bands;
mod basis;
mod build;
mod checked;
mod elimination;
mod members;
mod tables;
mod takes;

pub use basis::EvalBasis;
pub use checked::{CheckRule, Checked};
pub use members::{evaluate, mark_sums};
pub use tables::{Tables, tables_of};

/// The code of any rule on a built basis is the set of the lists that are orthogonal to the values of the members that the
/// rule checks. The contract is the theorem.
pub fn code_by_rule()
    ensures { RuleLaw }
{}

/// The code of the rule `AtMost` on a built basis is the set of the lists that are orthogonal to the values of all functions
/// of the domain whose labels are at most the weight, members or not. The contract is the theorem.
pub fn code_by_labels()
    ensures { AtMostLaw }
{}

/// Sound bases that are built of one domain at one list of points, over the field of one modulus, are equal: a basis is
/// determined by these. The contract is the theorem.
pub fn basis_is_determined()
    ensures { DeterminedLaw }
{}

#[cfg(test)]
mod tests;
