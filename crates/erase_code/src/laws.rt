//! Theorems: each function does nothing, and its contract is the theorem.

ghost use Rattle.erase_code.specs.Laws.{AgreeLaw, AnswersLaw};

/// With fewer lost positions than the order bound, at most one codeword fits.
pub fn codewords_agree()
    ensures { AgreeLaw }
{}

/// No two answers hold of the same bytes, and at most one place is the least.
pub fn answers_exclude_each_other()
    ensures { AnswersLaw }
{}
