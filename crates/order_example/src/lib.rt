//! One code by hand: the basis of the curve `y^2 + y = x^3` over GF(4) with its eight points. That it is sound, and how
//! the candidates of two errors vote on it, is proved by computation from the definitions alone: this crate is a test of
//! the definitions.
#![tactic(auto)]

ghost use Rattle.order_theory.specs.Basis.{IsSoundBasis};
ghost use Rattle.order_example.specs.SmallCurve.{small_basis, SmallVotes, OtherVotes};

/// The basis of the small curve is sound.
pub fn small_basis_is_sound()
    ensures { IsSoundBasis small_basis }
{}

/// The votes of two errors of weight 2 at the members with labels 6, 7 and 9, where labels up to 5 are checked.
pub fn small_errors_vote()
    ensures one_wrong { SmallVotes }
    ensures none_wrong { OtherVotes }
{}

#[cfg(test)]
mod designs;
#[cfg(test)]
mod grown;
#[cfg(test)]
mod rig;
#[cfg(test)]
mod searched;
#[cfg(test)]
mod structured;
#[cfg(test)]
mod tests;
#[cfg(test)]
mod voters;
