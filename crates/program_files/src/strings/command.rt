//! The command that the arguments are.
ghost use Rattle.std.specs.Prelude.{◌≡◌, map, option_map, string_bytes};
ghost use Rattle.program_files.specs.StringsCommand.{command_in};

use program_base::runs::{Form, form_of};

/// A command, less the file that it names.
#[derive(Clone, Copy)]
pub(crate) enum Command {
    /// Writes the block of the lines of the standard input.
    Build,
    /// Writes the numbers of these lines in the block of a file, in a form.
    Find(Form),
}

/// The command that the arguments after `strings` are, with the path of its file, which is empty where it has none;
/// `None` where they are no command.
pub(crate) fn command_in(args: &[String]) -> Option<(Command, &str)>
    ensures { option_map (λ found. (found.0, found.1.now)) result ≡ command_in (map string_bytes args.now) }
{
    match args {
        [word] if word.as_str() == "build" => Some((Command::Build, "")),
        [word, path] if word.as_str() == "find" => Some((Command::Find(Form::Text), path.as_str())),
        [word, option, path] if word.as_str() == "find" => {
            Some((Command::Find(form_of(option.as_str())?), path.as_str()))
        }
        _ => None,
    }
}
