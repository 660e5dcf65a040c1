//! The command that the arguments are.
ghost use Rattle.std.specs.Prelude.{◌≡◌, map, option_map, string_bytes};
ghost use Rattle.program_files.specs.KindsCommand.{command_in, command_with_form};

use program_base::runs::{Form, form_of};

/// A command, less the file that it names.
#[derive(Clone, Copy)]
pub(crate) enum Command {
    /// Writes whether a file is a block that is as it was written, in a form.
    Check(Form),
    /// Writes what a block's header says, in a form.
    Info(Form),
}

/// The command that the arguments are, with the path of its file; `None` where they are no command.
pub(crate) fn command_in(args: &[String]) -> Option<(Command, &str)>
    ensures { option_map (λ found. (found.0, found.1.now)) result ≡ command_in (map string_bytes args.now) }
{
    let (command, path) = match args {
        [word, path] => (command_of(word.as_str(), Form::Text), path),
        [word, option, path] => (command_of(word.as_str(), form_of(option.as_str())?), path),
        _ => return None,
    };
    Some((command?, path.as_str()))
}

/// The command of a word, with its form, if there is one.
fn command_of(word: &str, form: Form) -> Option<Command>
    ensures { result ≡ command_with_form word.now form }
{
    if word == "check" {
        Some(Command::Check(form))
    } else if word == "info" {
        Some(Command::Info(form))
    } else {
        None
    }
}
