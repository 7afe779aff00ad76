//! What is built: all commands and flags.

ghost use Rattle.std.specs.Prelude.{◌≡◌};
ghost use Rattle.command_words.specs.Built.{is_built, is_flag_built as flag_is_built};

use crate::words::{Command, FlagName};

/// Whether a command is built.
pub fn is_command_built(command: Command) -> bool
    ensures { result ≡ is_built command }
{
    true
}

/// Whether a flag is built.
pub fn is_flag_built(name: FlagName) -> bool
    ensures { result ≡ flag_is_built name }
{
    match name {
        FlagName::Salvage => true,
    }
}
