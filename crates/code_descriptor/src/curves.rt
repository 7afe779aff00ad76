//! From the terms of a text to a curve.

ghost use Rattle.std.specs.Prelude.{◌≡◌, ℕ, ◌^◌, true, false, None, IfOk, MatchOption, MatchResult, map};
ghost use Rattle.code_descriptor.specs.Tests.{plain_term, term_refusal};
ghost use Rattle.code_descriptor.specs.Views.{fits_term, IsFittingPart, error_of, IsRefusal};

use crate::parts::within;
use crate::tree::NamedTerm;
use crate::{DescCause, DescError};
use cab_curve::{Curve, CurveFault, Term};
use gf_field::PolyField;
use std::alloc::{AllocError, Global};
use weight_semi::Semi;

// The term, where its numbers fit those of a term.
#[tactic(auto, unfolding(crate::specs::Views::fits_term))]
fn plain_term(term: NamedTerm) -> Option<Term>
    ensures { MatchOption result
        (fits_term term ≡ false)
        (λ t. (fits_term term ≡ true) × (t ≡ plain_term term)) }
{
    let i = within(term.i, 0, u32::MAX)?;
    let j = within(term.j, 0, u32::MAX)?;
    let c = within(term.c, 0, 255)?;
    Some(Term { i, j, c: c as u8 })
}

// The terms before the first that does not fit.
fn plain_terms(alloc: Global, terms: &[NamedTerm]) -> Result<Vec<Term>, AllocError>
    ensures { IfOk result (λ v. IsFittingPart terms.now v.items) }
{
    let mut plain = Vec::new(alloc);
    for term in terms {
        match plain_term(*term) {
            Some(term) => plain.push(term)?,
            None => return Ok(plain),
        }
    }
    Ok(plain)
}

// What a fault of the curve says of the terms, of which those from `fitting` on are cut off if there are more.
fn error_of(fault: CurveFault, fitting: u32, is_cut: bool) -> DescError
    ensures { result ≡ error_of fault fitting is_cut }
{
    match fault {
        CurveFault::NoMemory => DescError::NoMemory,
        CurveFault::BadDegrees => DescCause::BadDegrees.into(),
        CurveFault::BadTerm { index } => DescCause::BadTerm { index }.into(),
        CurveFault::MissingLead if is_cut => DescCause::BadTerm { index: fitting }.into(),
        CurveFault::MissingLead => DescCause::MissingLead.into(),
    }
}

/// The curve of these terms, or the first cause that refuses them.
pub fn curve_of(
    alloc: Global,
    field: &PolyField,
    degrees: Semi,
    terms: &[NamedTerm],
) -> Result<Curve, DescError>
    ensures { MatchResult result
        (λ c. (term_refusal (2 ^ field.now.bits) degrees.a degrees.b terms.now ≡ None)
        × (c ≡ record {
          bits = field.now.bits;
          a = degrees.a;
          b = degrees.b;
          terms = map plain_term terms.now;
        }))
        (λ e. IsRefusal e (term_refusal (2 ^ field.now.bits) degrees.a degrees.b terms.now)) }
{
    if terms.len() > 4_294_967_295 {
        return Err(DescError::NoMemory);
    }
    let plain = plain_terms(alloc, terms)?;
    let fitting = plain.len() as u32;
    let is_cut = plain.len() < terms.len();
    match Curve::new(alloc, field, degrees.a, degrees.b, plain.as_slice()) {
        Ok(_) if is_cut => Err(DescCause::BadTerm { index: fitting }.into()),
        Ok(curve) => Ok(curve),
        Err(fault) => Err(error_of(fault, fitting, is_cut)),
    }
}
