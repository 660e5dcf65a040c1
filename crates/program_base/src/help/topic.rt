//! The topic that the arguments name.
ghost use Rattle.std.specs.Prelude.{◌≡◌, ◌↔◌, IsTrue, map, string_bytes};
ghost use Rattle.program_base.specs.Topic.{is_help, topic_in, topic_named, topic_of, topic_of_three, topic_of_two};

/// What the program says something of.
#[derive(Clone, Copy, Debug, PartialEq, Eq)]
pub enum Topic {
    /// All commands.
    All,
    /// The command `build`.
    Build,
    /// The command `query`.
    Query,
    /// The command `check`.
    Check,
    /// The command `info`.
    Info,
    /// The commands after `text`.
    Text,
    /// The commands after `strings`.
    Strings,
    /// Its version.
    Version,
}

/// The topic of a command's first word, if it is one.
#[tactic(auto, unfolding(crate::specs::Topic::topic_named))]
fn topic_named(word: &str) -> Option<Topic>
    ensures { result ≡ topic_named word.now }
{
    if word == "build" {
        Some(Topic::Build)
    } else if word == "query" {
        Some(Topic::Query)
    } else if word == "check" {
        Some(Topic::Check)
    } else if word == "info" {
        Some(Topic::Info)
    } else if word == "text" {
        Some(Topic::Text)
    } else if word == "strings" {
        Some(Topic::Strings)
    } else {
        None
    }
}

/// Whether a word stands for help.
fn is_help(word: &str) -> bool
    ensures { result ≡ is_help word.now }
{
    word == "--help" || word == "-h"
}

/// The topic that one argument names, if it does.
#[tactic(auto, unfolding(crate::specs::Topic::topic_of))]
fn topic_of(word: &str) -> Option<Topic>
    ensures { result ≡ topic_of word.now }
{
    if is_help(word) || word == "help" {
        Some(Topic::All)
    } else if word == "--version" {
        Some(Topic::Version)
    } else {
        None
    }
}

/// The topic that two arguments name, if they do.
#[tactic(auto, unfolding(crate::specs::Topic::topic_of_two))]
fn topic_of_two(word: &str, last: &str) -> Option<Topic>
    ensures { result ≡ topic_of_two word.now last.now }
{
    if word == "help" {
        topic_named(last)
    } else if is_help(last) {
        topic_named(word)
    } else {
        None
    }
}

/// The topic that a command of two words and help after it name, if they do.
#[tactic(auto, unfolding(crate::specs::Topic::topic_of_three))]
fn topic_of_three(word: &str, last: &str) -> Option<Topic>
    ensures { result ≡ topic_of_three word.now last.now }
{
    if word == "text" || word == "strings" {
        topic_of_two(word, last)
    } else {
        None
    }
}

/// The topic that arguments name: all commands for `--help`, `-h` and `help`, a command for its word and `--help` or
/// `-h` after it or `help` before it, those after `text` and `strings` also with a word between, and the version for
/// `--version`. `None` where they name none of these.
///
/// ```
/// topic_in(&[text, count, help]);   // Some(Topic::Text), where `help` is --help
/// ```
pub fn topic_in(args: &[String]) -> Option<Topic>
    ensures { result ≡ topic_in (map string_bytes args.now) }
{
    match args {
        [word] => topic_of(word.as_str()),
        [word, last] => topic_of_two(word.as_str(), last.as_str()),
        [word, _, last] => topic_of_three(word.as_str(), last.as_str()),
        _ => None,
    }
}
