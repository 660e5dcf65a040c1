//! The command that the arguments are.
ghost use Rattle.std.specs.Prelude.{◌≡◌, map, option_map, string_bytes};
ghost use Rattle.program_files.specs.TextsCommand.{ask_with, asked_by, command_in, option_with};

/// A query of patterns in the text of a file.
#[derive(Clone, Copy)]
pub(crate) enum Asked {
    /// At how many positions each stands.
    Count,
    /// At which one of them stands.
    Locate,
    /// In which lines.
    Lines,
}

/// Where the patterns are.
#[derive(Clone, Copy)]
pub(crate) enum Given {
    /// There is one, the operand itself.
    Word,
    /// They are the lines of the file whose path is the operand, or of the standard input where that is `-`.
    Listed,
}

/// How a question is answered.
#[derive(Clone, Copy)]
pub(crate) struct Options {
    /// Where the patterns are.
    pub(crate) given: Given,
    /// Whether the checksums of the file are looked at.
    pub(crate) sums: bool,
}

/// A command, less its operand and the file that it names.
#[derive(Clone, Copy)]
pub(crate) enum Command {
    /// Writes the file of the text in the standard input.
    Build,
    /// Answers a query of patterns in a file's text.
    Ask(Asked, Options),
}

/// How a question is answered without an option: the one pattern is a word, and checksums are looked at.
const PLAINLY: Options = Options {
    given: Given::Word,
    sums: true,
};

/// The command that the arguments after `text` are, with its operand and the path of its file, which are empty where it
/// has none; `None` where they are no command.
pub(crate) fn command_in(args: &[String]) -> Option<(Command, &str, &str)>
    ensures { option_map (λ found. (found.0, found.1.now, found.2.now)) result
        ≡ command_in (map string_bytes args.now) }
{
    match args {
        [word] if word.as_str() == "build" => Some((Command::Build, "", "")),
        [_] | [] => None,
        [word, rest @ ..] => ask_with(asked_by(word.as_str())?, PLAINLY, rest),
    }
}

/// The question that options, an operand and a path make after other options.
fn ask_with(asked: Asked, chosen: Options, args: &[String]) -> Option<(Command, &str, &str)>
    ensures { option_map (λ found. (found.0, found.1.now, found.2.now)) result
        ≡ ask_with asked chosen (map string_bytes args.now) }
{
    match args {
        [] => None,
        [operand, path] => Some((Command::Ask(asked, chosen), operand.as_str(), path.as_str())),
        [option, rest @ ..] => ask_with(asked, option_with(chosen, option.as_str())?, rest),
    }
}

/// What a word wants said of patterns in the text of a file, if it is such a word.
fn asked_by(word: &str) -> Option<Asked>
    ensures { result ≡ asked_by word.now }
{
    if word == "count" {
        Some(Asked::Count)
    } else if word == "locate" {
        Some(Asked::Locate)
    } else if word == "lines" {
        Some(Asked::Lines)
    } else {
        None
    }
}

/// What one more option makes of the options before it, if it is one: the path of the list follows `-f`. The numbers
/// that are written are JSON, with `--json` and without it.
fn option_with(chosen: Options, option: &str) -> Option<Options>
    ensures { result ≡ option_with chosen option.now }
{
    let Options { given, sums } = chosen;
    match given {
        Given::Listed => None,
        Given::Word if option == "--no-check" => Some(Options { given, sums: false }),
        Given::Word if option == "--json" => Some(chosen),
        Given::Word if option == "-f" => Some(Options {
            given: Given::Listed,
            sums,
        }),
        Given::Word => None,
    }
}
