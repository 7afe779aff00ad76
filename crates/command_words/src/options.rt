//! The words of commands and options, which command has which option, and the range of each value.

ghost use Rattle.std.specs.Prelude.{◌≡◌};
ghost use Rattle.command_words.specs.Options.{has_option as option_is_had, has_flag as flag_is_had, least_of as least_value, greatest_of as greatest_value};
ghost use Rattle.command_words.specs.Reading.{command_named as named_command, option_named as named_option, flag_named as named_flag};

use crate::words::{Command, FlagName, MOST_TRIAL_BYTES, MOST_WANTED, OptionName};
use ag_pool::MOST_WORKERS;

/// The command that a word names.
#[tactic(auto, unfolding(crate::specs::Reading::command_named))]
pub fn command_named(word: &str) -> Option<Command>
    ensures { result ≡ named_command word.now }
{
    if word == "member" {
        Some(Command::Member)
    } else if word == "points" {
        Some(Command::Points)
    } else if word == "params" {
        Some(Command::Params)
    } else if word == "bound" {
        Some(Command::Bound)
    } else if word == "check" {
        Some(Command::Check)
    } else if word == "encode" {
        Some(Command::Encode)
    } else if word == "decode" {
        Some(Command::Decode)
    } else if word == "votes" {
        Some(Command::Votes)
    } else if word == "trial" {
        Some(Command::Trial)
    } else if word == "erase" {
        Some(Command::Erase)
    } else if word == "design" {
        Some(Command::Design)
    } else {
        None
    }
}

/// The option with a value that a word names.
#[tactic(auto, unfolding(crate::specs::Reading::option_named))]
pub fn option_named(word: &str) -> Option<OptionName>
    ensures { result ≡ named_option word.now }
{
    if word == "--seed" {
        Some(OptionName::Seed)
    } else if word == "--bytes" {
        Some(OptionName::Bytes)
    } else if word == "--workers" {
        Some(OptionName::Workers)
    } else if word == "--want" {
        Some(OptionName::Want)
    } else {
        None
    }
}

/// The flag that a word names.
#[tactic(auto, unfolding(crate::specs::Reading::flag_named))]
pub fn flag_named(word: &str) -> Option<FlagName>
    ensures { result ≡ named_flag word.now }
{
    if word == "--salvage" {
        Some(FlagName::Salvage)
    } else {
        None
    }
}

/// Whether a command has an option with a value.
pub fn has_option(command: Command, name: OptionName) -> bool
    ensures { result ≡ option_is_had command name }
{
    match (command, name) {
        (Command::Trial, OptionName::Seed | OptionName::Bytes) => true,
        (Command::Decode, OptionName::Workers) => true,
        (Command::Design, OptionName::Want) => true,
        _ => false,
    }
}

/// Whether a command has a flag.
pub fn has_flag(command: Command, name: FlagName) -> bool
    ensures { result ≡ flag_is_had command name }
{
    match (command, name) {
        (Command::Decode, FlagName::Salvage) => true,
        _ => false,
    }
}

/// The least value of an option.
pub fn least_of(name: OptionName) -> u64
    ensures { result ≡ least_value name }
{
    match name {
        OptionName::Seed | OptionName::Bytes | OptionName::Want => 0,
        OptionName::Workers => 1,
    }
}

/// The greatest value of an option.
pub fn greatest_of(name: OptionName) -> u64
    ensures { result ≡ greatest_value name }
{
    match name {
        OptionName::Seed => u64::MAX,
        OptionName::Bytes => u64::from(MOST_TRIAL_BYTES),
        OptionName::Workers => u64::from(MOST_WORKERS),
        OptionName::Want => u64::from(MOST_WANTED),
    }
}
