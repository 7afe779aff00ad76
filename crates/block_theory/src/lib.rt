//! Codes as sets of blocks: the message places, the codeword of a message, the codeword near a block, and the form in which
//! coded files see a code. Start at specs/Checks and specs/Blocks. Each function below does nothing: its contract is a
//! theorem, stated in specs/Laws.
#![tactic(auto)]

ghost use Rattle.block_theory.specs.Examples.{RepeatedCode, SumZeroCode, WeightedCode};
ghost use Rattle.block_theory.specs.Laws.{MessageLaw, PlacesLaw, MembersLaw, CodeLaw, NearLaw, BasisNearLaw, FormLaw};

/// For each message there is exactly one codeword that has it at the message places.
pub fn message_gives_one_codeword()
    ensures { MessageLaw }
{}

/// There are as many message places as the rank of the checks leaves of the positions. For a sound basis that is one for
/// each member without a mark.
pub fn message_places_are_counted()
    ensures rank { PlacesLaw }
    ensures members { MembersLaw }
{}

/// A codeword near a list of stored symbols is found exactly where there is one: for all checks, where at most one is near, and for
/// the checks of a sound basis within the radius of its bound. Their codewords are those of the marked members.
pub fn near_is_found()
    ensures code { CodeLaw }
    ensures near { NearLaw }
    ensures basis { BasisNearLaw }
{}

/// A sound basis, marks that leave some member free, and a radius within the bound make a code that coded files can use: it
/// is sound in groups of every depth and in either layout, and its numbers are in range.
pub fn form_is_sound()
    ensures { FormLaw }
{}

/// Examples over the field of four elements, worked by hand.
pub fn small_codes()
    ensures repeated { RepeatedCode }
    ensures sum_zero { SumZeroCode }
    ensures weighted { WeightedCode }
{}
