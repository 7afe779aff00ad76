//! What a text describes.

ghost use Rattle.std.specs.Prelude.{◌≡◌, ℕ};
ghost use Rattle.code_descriptor.specs.Parts.{Parts, IsDescriptor};
ghost use Rattle.code_descriptor.specs.Built.{space_of, bits_of};
ghost use Rattle.code_descriptor.specs.Inside.{of_pieces};

use crate::space::Space;
use eval_basis::CheckRule;
use gf_field::PolyField;
use order_domain::Points;
use std::marker::Model;

/// What a text describes: a field, a space over it, distinct points of the space, a rule, a depth and a layout. Contracts
/// see it as these parts; that they belong together is kept by the type (`IsDescriptor`), and each call hands it on.
#[derive(Drop)]
pub struct Descriptor {
    field: PolyField,
    space: Space,
    points: Points,
    rule: CheckRule,
    depth: u32,
    packed: bool,
}

impl Model for Descriptor {
    ghost use Rattle.code_descriptor.specs.Parts.{Parts, IsDescriptor};

    ghost Value = { Parts };

    ghost use Rattle.code_descriptor.specs.Inside.{parts_of};

    ghost view = { parts_of };

    ghost invariant = { λ d. IsDescriptor (parts_of d) };
}

/// The parts of a descriptor, each for itself.
#[derive(Drop)]
pub struct Pieces {
    pub field: PolyField,
    pub space: Space,
    pub points: Points,
    pub rule: CheckRule,
    pub depth: u32,
    pub packed: bool,
}

impl Descriptor {
    /// The descriptor of parts that belong together.
    pub fn new(pieces: Pieces) -> Descriptor
        requires { IsDescriptor (of_pieces pieces) }
        ensures { result ≡ of_pieces pieces }
    {
        let Pieces {
            field,
            space,
            points,
            rule,
            depth,
            packed,
        } = pieces;
        Descriptor {
            field,
            space,
            points,
            rule,
            depth,
            packed,
        }
    }

    /// The parts, each for itself.
    #[tactic(auto, using(crate::proofs::Spaces::own_bits))]
    pub fn into_pieces(self) -> Pieces
        ensures pieces { of_pieces result ≡ self }
        ensures bits { bits_of (space_of result.space) ≡ result.field.bits }
        ensures sound { IsDescriptor self }
    {
        let Descriptor {
            field,
            space,
            points,
            rule,
            depth,
            packed,
        } = self;
        Pieces {
            field,
            space,
            points,
            rule,
            depth,
            packed,
        }
    }

    /// The field.
    pub fn field(&self) -> &PolyField
        ensures bits { result.now.bits ≡ self.now.bits }
        ensures modulus { result.now.modulus ≡ self.now.modulus }
        ensures sound { IsDescriptor self.now }
    {
        &self.field
    }

    /// The space that the points are on.
    #[tactic(auto, using(crate::proofs::Spaces::own_bits))]
    pub fn space(&self) -> &Space
        ensures space { space_of result.now ≡ self.now.space }
        ensures bits { bits_of (space_of result.now) ≡ self.now.bits }
        ensures sound { IsDescriptor self.now }
    {
        &self.space
    }

    /// At most `MOST_POINTS` distinct points of the space.
    pub fn points(&self) -> &Points
        ensures points { result.now ≡ self.now.points }
        ensures sound { IsDescriptor self.now }
    {
        &self.points
    }

    /// By which functions are checked; its number is 0 to `MOST_NUMBER`.
    pub fn rule(&self) -> CheckRule
        ensures rule { result ≡ self.now.rule }
        ensures sound { IsDescriptor self.now }
    {
        self.rule
    }

    /// The codewords of a group, 1 to `MOST_DEPTH`.
    pub fn depth(&self) -> u32
        ensures depth { result ≡ self.now.depth }
        ensures sound { IsDescriptor self.now }
    {
        self.depth
    }

    /// Whether a symbol is stored in as many bits as it has, and not in a byte.
    pub fn is_packed(&self) -> bool
        ensures packed { result ≡ self.now.packed }
        ensures sound { IsDescriptor self.now }
    {
        self.packed
    }
}
