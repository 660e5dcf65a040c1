//! Why no block of a trie was written.

use std::error::Error;
use std::fmt;

/// Why no block of a trie was written; the words are as they were.
#[derive(Clone, Copy, Debug, PartialEq, Eq)]
pub enum BuildError {
    /// There are 2^57 degrees or more.
    TooLong,
    /// The width is not 1 to 63 bits.
    WrongWidth,
    /// There is not one label for each node but the root.
    WrongLabels,
    /// The ends are neither no words, nor the words for one bit for each node.
    WrongEnds,
    /// The words are more or fewer than the block takes.
    WrongLength,
    /// The degrees form no tree.
    NotATree,
    /// A label has more bits than the width, or the labels of the children of a node do not rise.
    NotLabels,
}

impl fmt::Display for BuildError {
    ghost use Rattle.std.specs.Prelude.{Some};
    ghost use Rattle.tree_block.specs.TrieError.{build_error_text};

    ghost output = { λ e. Some (build_error_text e) };

    fn fmt<W: fmt::Write>(&self, f: &mut fmt::Formatter<W>) -> fmt::Result {
        match self {
            BuildError::TooLong => write!(f, "there are 2^57 degrees or more"),
            BuildError::WrongWidth => write!(f, "the width is not 1 to 63"),
            BuildError::WrongLabels => write!(f, "not one label for each node but the root"),
            BuildError::WrongEnds => write!(f, "the ends are not a bit for each node"),
            BuildError::WrongLength => write!(f, "not as long as the block"),
            BuildError::NotATree => write!(f, "the degrees are those of no tree"),
            BuildError::NotLabels => write!(f, "the labels are none for this tree"),
        }
    }
}

impl Error for BuildError {}
