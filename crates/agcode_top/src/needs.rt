//! What a command needs of a descriptor.

ghost use Rattle.std.specs.Prelude.{◌≡◌};
ghost use Rattle.agcode_top.specs.Commands.{needs};

use command_words::Command;

/// What a command needs of a descriptor.
#[derive(Clone, Copy, Debug, PartialEq, Eq)]
pub enum Needs {
    /// The space alone: there may be no points.
    Space,
    /// The basis at the points, and no code: the rule makes no difference.
    Basis,
    /// The code: there are points, and the rule does not check every member.
    Code,
}

/// What a command needs.
pub fn needs_of(command: Command) -> Needs
    ensures { result ≡ needs command }
{
    match command {
        Command::Points => Needs::Space,
        Command::Design => Needs::Basis,
        _ => Needs::Code,
    }
}
