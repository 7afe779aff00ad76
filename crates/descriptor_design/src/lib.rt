//! The design of the points of a descriptor: which members to check so that a wanted number of errors is repaired, at the
//! least cost. Start at [`design`]; specs/Plans says plainly what a design is, and specs/Sets what it is for a set of members
//! to serve.
#![tactic(auto)]

mod at_points;
mod lines;

ghost use Rattle.descriptor_design.specs.Sets.{RuleLaw};

pub use at_points::{DesignSays, design};

/// The code of a descriptor with a rule checks the members that pass the rule's test, and has their bound; so where these
/// serve t errors, it repairs t errors. The contract is the theorem.
pub fn rules_are_sets()
    ensures { RuleLaw }
{}
