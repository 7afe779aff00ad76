//! The code that a descriptor describes. Start at specs/Plain, which says what this code is, and [`DescribedCode`], which has
//! it ready for use.
#![tactic(auto)]

mod described;
mod space_domain;

ghost use Rattle.descriptor_code.specs.Codes.{OneCodeLaw};
ghost use Rattle.descriptor_code.specs.PlainLaws.{PlainLaw};
ghost use Rattle.descriptor_code.specs.Monomials.{MonomialLaw};
ghost use Rattle.descriptor_code.specs.SpaceMonomials.{SpaceMonomialLaw};

pub use described::DescribedCode;
pub use space_domain::SpaceDomain;

/// The code that is built of a descriptor is the plain one: its checks, bound, radius, labels, ledgers and table are those
/// that the values of the functions at the points give. The contract is the theorem.
pub fn codes_are_plain()
    ensures { PlainLaw }
{}

/// Of a descriptor one code is built at the most. The contract is the theorem.
pub fn descriptors_describe_one_code()
    ensures { OneCodeLaw }
{}

/// Where the rule goes by weight, the code is the set of the lists of n symbols that are orthogonal to the values of all
/// monomials up to the weight, of which nothing but the curve need be known. The contract is the theorem.
pub fn codes_are_by_monomials()
    ensures { MonomialLaw }
{}

/// The same on an affine space: where the rule goes by weight, the code is the set of the lists of n symbols that are orthogonal
/// to the values of all monomials up to that number. The contract is the theorem.
pub fn space_codes_are_by_monomials()
    ensures { SpaceMonomialLaw }
{}

#[cfg(test)]
mod tests;
