//! Why no trie was grown.

use std::error::Error;
use std::fmt;

/// Why no trie was grown of words; what was given is as it was.
#[derive(Clone, Copy, Debug, PartialEq, Eq)]
pub enum WordsError {
    /// The starts are none, or one is before the one before it, or the last one is past the end of the bytes.
    NotWords,
    /// The numbers or words that are written are more or fewer than the trie takes.
    WrongLength,
    /// A word does not stand after the one before it in the order of a dictionary.
    NotSorted,
}

impl fmt::Display for WordsError {
    ghost use Rattle.std.specs.Prelude.{Some};
    ghost use Rattle.tree_block.specs.WordsError.{words_error_text};

    ghost output = { λ e. Some (words_error_text e) };

    fn fmt<W: fmt::Write>(&self, f: &mut fmt::Formatter<W>) -> fmt::Result {
        match self {
            WordsError::NotWords => write!(f, "not the starts of words in these bytes"),
            WordsError::WrongLength => write!(f, "not as long as the trie takes"),
            WordsError::NotSorted => write!(f, "the words do not rise"),
        }
    }
}

impl Error for WordsError {}
