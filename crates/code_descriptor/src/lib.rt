//! The text of a descriptor, in TOML: a field, a space over it, points of the space, the rule by which functions are
//! checked, and the depth and the layout of stored text. Start at [`read`]; what a text means stands in specs/Meaning, over
//! the tree that `toml` gives.
#![tactic(auto, using(cab_curve::proofs::Least::steps))]

mod curves;
mod descriptor;
mod keys;
mod parts;
mod points;
mod space;
mod tree;

ghost use Rattle.std.specs.Prelude.{◌≡◌, ℕ, ◌<◌, ◌↔◌, length, true, IfOk, MatchResult};
ghost use Rattle.gf_theory.specs.Field.{IsModulus};
ghost use Rattle.toml.specs.View.{table_view};
ghost use Rattle.code_descriptor.specs.FieldTest.{is_modulus};
ghost use Rattle.code_descriptor.specs.Meaning.{IsRefusedFor, Describes, OneMeaningLaw};
ghost use Rattle.code_descriptor.specs.Views.{IsAccepted, IsTableRefusal};

pub use descriptor::{Descriptor, Pieces};
pub use keys::{NamedCode, NamedParts, NamedRule, NamedSpace};
pub use space::Space;
use std::alloc::{AllocError, AllocFailed, Global};
use toml::value::Table;
pub use tree::{NamedPoint, NamedTerm};

/// The greatest length of a text, in bytes.
pub const MOST_TEXT: usize = 1_048_576;

/// The greatest number at `weight` and at `improved`.
pub const MOST_NUMBER: u32 = 65_535;

/// The keys of a descriptor, and any other.
#[derive(Clone, Copy, Debug, PartialEq, Eq)]
pub enum KeyName {
    Bits,
    Modulus,
    Space,
    A,
    B,
    Terms,
    Points,
    Weight,
    Improved,
    Layout,
    Depth,
    Unknown,
}

/// Why a text describes no code. `read` answers the first cause that applies, in this order.
#[derive(Clone, Copy, Debug, PartialEq, Eq)]
pub enum DescCause {
    /// The text has more than [`MOST_TEXT`] bytes.
    TooLarge,
    /// The text is not UTF-8, or no document of TOML.
    NotToml,
    /// The first key that is missing or of another kind, in the order of [`KeyName`], else that there is an unknown key.
    /// `space` and `layout` may be missing. Where `space` is there, `a`, `b` and `terms` are bad where they are there.
    /// `weight` is bad also where `improved` is missing too, and `improved` where `weight` is there too.
    BadKey { key: KeyName },
    /// `bits` is not 2 to 8, or `modulus` is not irreducible of that degree.
    BadField,
    /// `space` is not 1 to 3, or it is 3 with `bits` above 5. It stands in place of the next three causes, which are those of
    /// a curve.
    BadSpace,
    /// `a` and `b` are not 2 to 32 and coprime.
    BadDegrees,
    /// The first term whose coefficient is no symbol other than 0, whose weight is above `a·b`, or whose exponents are
    /// negative or those of an earlier term.
    BadTerm { index: u32 },
    /// There is no term `y^a` or no term `x^b`.
    MissingLead,
    /// The first point that has more or fewer numbers than the space has coordinates, that is not on the space, that
    /// equals an earlier one, or before which 1,024 stand.
    BadPoint { index: u32 },
    /// `weight` is there and not 0 to [`MOST_NUMBER`].
    BadWeight,
    /// `improved` is there and not 0 to [`MOST_NUMBER`].
    BadImproved,
    /// `layout` is there and neither `bytes` nor `packed`.
    BadLayout,
    /// `depth` is not 1 to [`ag_frame::MOST_DEPTH`].
    BadDepth,
    /// There are no points. `read` accepts such a text.
    NoPoints,
    /// Every function is checked. `read` accepts such a text.
    NothingFree,
}

/// Why `read` gives no descriptor.
#[derive(Clone, Copy, Debug, PartialEq, Eq)]
pub enum DescError {
    NoMemory,
    Refused { cause: DescCause },
}

impl From<AllocError> for DescError {
    ghost use Rattle.code_descriptor.specs.declared.DescError.TheVariants.{NoMemory};

    ghost from_gives = { λ _ e. e ≡ NoMemory };

    fn from(_e: AllocError) -> DescError {
        DescError::NoMemory
    }
}

impl<T: Drop> From<AllocFailed<T>> for DescError {
    ghost use Rattle.code_descriptor.specs.declared.DescError.TheVariants.{NoMemory};

    ghost from_gives = { λ _ e. e ≡ NoMemory };

    fn from(_e: AllocFailed<T>) -> DescError {
        DescError::NoMemory
    }
}

impl From<KeyName> for DescError {
    ghost use Rattle.code_descriptor.specs.declared.DescCause.TheVariants.{BadKey};
    ghost use Rattle.code_descriptor.specs.declared.DescError.TheVariants.{Refused};

    ghost from_gives = { λ key e. e ≡ Refused (BadKey key) };

    fn from(key: KeyName) -> DescError {
        let cause = DescCause::BadKey { key };
        DescError::Refused { cause }
    }
}

impl From<DescCause> for DescError {
    ghost use Rattle.code_descriptor.specs.declared.DescError.TheVariants.{Refused};

    ghost from_gives = { λ cause e. e ≡ Refused cause };

    fn from(cause: DescCause) -> DescError {
        DescError::Refused { cause }
    }
}

/// The test of a field's bits and modulus decides what they are. The contract is the theorem.
pub fn field_test_decides()
    ensures { (m p : ℕ) → (is_modulus m p ≡ true) ↔ IsModulus m p }
{}

/// Every text has one meaning: it is refused for one cause, or it describes one code, and never both. The contract is the
/// theorem.
pub fn texts_have_one_meaning()
    ensures { OneMeaningLaw }
{}

// What a table describes, or why it is refused.
fn read_table(alloc: Global, table: &Table) -> Result<Descriptor, DescError>
    ensures { MatchResult result
        (IsAccepted (table_view table.now))
        (IsTableRefusal (table_view table.now)) }
{
    let named = keys::named_parts(alloc, table)?;
    parts::descriptor(alloc, &named)
}

/// What a text describes, or the first cause that refuses it. Want of memory may come in place of any answer but
/// `TooLarge`.
pub fn read(alloc: Global, text: &[u8]) -> Result<Descriptor, DescError>
    ensures accepted { IfOk result (Describes text.now) }
    ensures refused { (cause : DescCause) →
        result ≡ Err (DescError.Refused cause) → IsRefusedFor text.now cause }
    ensures too_large { MOST_TEXT < length text.now →
        result ≡ Err (DescError.Refused DescCause.TooLarge) }
{
    if text.len() > MOST_TEXT {
        return Err(DescCause::TooLarge.into());
    }
    match toml::table_from_slice(alloc, text) {
        Ok(table) => read_table(alloc, &table),
        Err(e) if e.is_memory() => Err(DescError::NoMemory),
        Err(_) => Err(DescCause::NotToml.into()),
    }
}

#[cfg(test)]
mod tests;
