//! What the words say.

ghost use Rattle.std.specs.Prelude.{◌≡◌, ◌≤◌, map, MatchOption, IfSome, is_some, true, false};
ghost use Rattle.std.specs.String.{string_bytes};
ghost use Rattle.command_words.specs.Built.{is_built};
ghost use Rattle.command_words.specs.Options.{least_of as least_value, greatest_of as greatest_value, setting_of as setting_in, with_setting as setting_with, flag_of as flag_in, with_flag as flag_with};
ghost use Rattle.command_words.specs.Reading.{added as added_settings, flagged as flagged_settings, settings_in as settings_of_words, has_equals, name_part, value_part, is_path as path_test};
ghost use Rattle.command_words.specs.Lines.{IsCommandLine};

use crate::built::{is_command_built, is_flag_built};
use crate::numeral::read_numeral;
use crate::options::{
    command_named, flag_named, greatest_of, has_flag, has_option, least_of, option_named,
};
use ag_pool::Workers;

/// The most bytes of a file that a trial makes.
pub const MOST_TRIAL_BYTES: u32 = 65_536;

/// The most symbols that a design is asked to repair.
pub const MOST_WANTED: u32 = 511;

/// What the program is asked to do.
#[derive(Clone, Copy, Debug, PartialEq, Eq)]
pub enum Command {
    Member,
    Points,
    Params,
    Bound,
    Check,
    Encode,
    Decode,
    Votes,
    Trial,
    Erase,
    Design,
}

/// An option with a value.
#[derive(Clone, Copy, Debug, PartialEq, Eq)]
pub enum OptionName {
    Seed,
    Bytes,
    Workers,
    Want,
}

/// An option without a value.
#[derive(Clone, Copy, Debug, PartialEq, Eq)]
pub enum FlagName {
    Salvage,
}

/// What a command line says: a command, and the values of the options, with the default of each that is not written. The
/// seed and the number of bytes are those of a trial, the workers and the salvage those of decoding, and what is wanted
/// that of a design.
#[derive(Clone, Copy, Debug, PartialEq, Eq)]
pub struct Words {
    pub command: Command,
    pub seed: u64,
    pub bytes: u32,
    pub workers: Workers,
    pub salvage: bool,
    pub want: u32,
}

/// For each option its value, where it is written.
#[derive(Clone, Copy, Debug, PartialEq, Eq)]
pub struct Settings {
    seed: Option<u64>,
    bytes: Option<u32>,
    workers: Option<Workers>,
    salvage: bool,
    want: Option<u32>,
}

impl Settings {
    const NONE: Settings = Settings {
        seed: None,
        bytes: None,
        workers: None,
        salvage: false,
        want: None,
    };

    fn has(&self, name: OptionName) -> bool
        ensures { result ≡ is_some (setting_in self.now name) }
    {
        match name {
            OptionName::Seed => self.seed.is_some(),
            OptionName::Bytes => self.bytes.is_some(),
            OptionName::Workers => self.workers.is_some(),
            OptionName::Want => self.want.is_some(),
        }
    }

    fn with(self, name: OptionName, value: u64) -> Settings
        requires least { least_value name ≤ value }
        requires most { value ≤ greatest_value name }
        ensures { result ≡ setting_with self name value }
    {
        match name {
            OptionName::Seed => Settings {
                seed: Some(value),
                ..self
            },
            OptionName::Bytes => Settings {
                bytes: Some(value as u32),
                ..self
            },
            OptionName::Workers => Settings {
                workers: Workers::new(value as u32),
                ..self
            },
            OptionName::Want => Settings {
                want: Some(value as u32),
                ..self
            },
        }
    }

    fn has_flag(&self, name: FlagName) -> bool
        ensures { result ≡ flag_in self.now name }
    {
        match name {
            FlagName::Salvage => self.salvage,
        }
    }

    fn with_flag(self, name: FlagName) -> Settings
        ensures { result ≡ flag_with self name }
    {
        match name {
            FlagName::Salvage => Settings {
                salvage: true,
                ..self
            },
        }
    }
}

// The settings with an option and the value that a text writes.
#[tactic(auto, unfolding(crate::specs::Reading::added))]
fn added(command: Command, settings: Settings, name: &str, text: &str) -> Option<Settings>
    ensures { result ≡ added_settings command settings name.now text.now }
{
    let name = option_named(name)?;
    if !has_option(command, name) || settings.has(name) {
        return None;
    }
    let value = read_numeral(least_of(name), greatest_of(name), text.as_bytes())?;
    Some(settings.with(name, value))
}

// The settings with a flag.
fn flagged(command: Command, settings: Settings, name: FlagName) -> Option<Settings>
    ensures { result ≡ flagged_settings command settings name }
{
    if !has_flag(command, name) || !is_flag_built(name) || settings.has_flag(name) {
        return None;
    }
    Some(settings.with_flag(name))
}

// What stands before and after the first `=` of a word.
fn parts_of(word: &str) -> Option<(&str, &str)>
    ensures { MatchOption result (has_equals word.now ≡ false)
        (λ p. (has_equals word.now ≡ true) ×
        (p.0.now ≡ name_part word.now) × (p.1.now ≡ value_part word.now)) }
{
    word.split_once('=')
}

// The settings with those that the words write.
fn settings_in(command: Command, settings: Settings, words: &[String]) -> Option<Settings>
    ensures { result ≡ settings_of_words command settings (map string_bytes words.now) }
{
    match words {
        [] => Some(settings),
        [word, rest @ ..] => match parts_of(word.as_str()) {
            Some((name, text)) => settings_in(command, added(command, settings, name, text)?, rest),
            None => match flag_named(word.as_str()) {
                Some(flag) => settings_in(command, flagged(command, settings, flag)?, rest),
                None => match rest {
                    [] => None,
                    [text, rest @ ..] => settings_in(
                        command,
                        added(command, settings, word.as_str(), text.as_str())?,
                        rest,
                    ),
                },
            },
        },
    }
}

// Whether a word does not begin with `-`.
fn is_path(word: &str) -> bool
    ensures { result ≡ path_test word.now }
{
    !matches!(word.as_bytes(), [b'-', ..])
}

/// What the words say, or None exactly where they are no command line: a command that is built, then its options as
/// `--name V` or `--name=V`, or `--name` alone where the option is a flag, each at most once, then a path that does not begin
/// with `-`. It takes no memory.
pub fn read_words(words: &[String]) -> Option<Words>
    ensures value { MatchOption result
        ((w : Words) → IsCommandLine (map string_bytes words.now) w → ⊥)
        (IsCommandLine (map string_bytes words.now)) }
    ensures few_bytes { IfSome result (λ w. w.bytes ≤ MOST_TRIAL_BYTES) }
    ensures few_wanted { IfSome result (λ w. w.want ≤ MOST_WANTED) }
    ensures built { IfSome result (λ w. is_built w.command ≡ true) }
{
    match words {
        [first, options @ .., path] => {
            let command = command_named(first.as_str())?;
            if !is_command_built(command) {
                return None;
            }
            if !is_path(path.as_str()) {
                return None;
            }
            let settings = settings_in(command, Settings::NONE, options)?;
            Some(Words {
                command,
                seed: settings.seed.unwrap_or(1),
                bytes: settings.bytes.unwrap_or(1000),
                workers: settings.workers.unwrap_or(Workers::ONE),
                salvage: settings.salvage,
                want: settings.want.unwrap_or(1),
            })
        }
        _ => None,
    }
}
