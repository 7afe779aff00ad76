//! The words of the command line: a command, its options, and the path of a descriptor as the last word. Which lists of
//! words are accepted is the relation `IsCommandLine` of `specs/Lines`; `read_words` finds what they say.
//!
//! All commands and options stand in the types and in the grammar. `specs/Built` and `built.rt` say which of them are
//! accepted words already: the two tests there are all that changes when a command or a flag is built. An option with a value is built
//! with its command.
#![tactic(auto)]

mod built;
mod numeral;
mod options;
mod words;

ghost use Rattle.command_words.specs.Laws.{CommandLinesAreRead};

pub use words::{Command, MOST_TRIAL_BYTES, MOST_WANTED, Words, read_words};

/// The words that are read are exactly the accepted command lines: the contract is the law.
pub fn command_lines_are_read()
    ensures { CommandLinesAreRead }
{}

#[cfg(test)]
mod tests;
