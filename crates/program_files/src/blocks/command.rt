//! The command that the arguments are.
ghost use Rattle.std.specs.Prelude.{◌≡◌, ◌<◌, IsNone, length, map, option_map, string_bytes};
ghost use Rattle.program_files.specs.Command.{command_in, command_of, command_with};

use crate::blocks::kind::{Kind, kind_named};
use program_base::runs::{Form, form_of};

/// A command, less the file that it names.
#[derive(Clone, Copy)]
pub(crate) enum Command {
    /// Writes the block of a kind of the numbers in the standard input.
    Build(Kind),
    /// Answers the lines of the standard input by a block, in a form.
    Query(Form),
}

/// The command that the arguments are, with what follows its word and its option; `None` where they are no command.
pub(crate) fn command_in(args: &[String]) -> Option<(Command, &str)>
    ensures command { option_map (λ found. (found.0, found.1.now)) result ≡ command_in (map string_bytes args.now) }
    ensures few { length args.now < 2 → IsNone result }
    ensures many { 3 < length args.now → IsNone result }
{
    let (command, operand) = match args {
        [word, operand] => (command_of(word.as_str(), operand.as_str()), operand),
        [word, option, operand] => (command_with(word.as_str(), option.as_str()), operand),
        _ => return None,
    };
    Some((command?, operand.as_str()))
}

/// The command that a word and what follows it are, if they are one.
fn command_of(word: &str, operand: &str) -> Option<Command>
    ensures { result ≡ command_of word.now operand.now }
{
    if word == "build" {
        kind_named(operand).map(Command::Build)
    } else if word == "query" {
        Some(Command::Query(Form::Text))
    } else {
        None
    }
}

/// The command that a word and its option are, if they are one.
fn command_with(word: &str, option: &str) -> Option<Command>
    ensures { result ≡ command_with word.now option.now }
{
    if word == "query" {
        form_of(option).map(Command::Query)
    } else {
        None
    }
}
