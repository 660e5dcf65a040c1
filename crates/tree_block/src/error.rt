//! Why no block of a tree was written.

use std::error::Error;
use std::fmt;

/// Why no block of a tree was written; the words are as they were.
#[derive(Clone, Copy, Debug, PartialEq, Eq)]
pub enum BuildError {
    /// There are 2^60 degrees or more.
    TooLong,
    /// The words are more or fewer than the block takes.
    WrongLength,
    /// The degrees form no tree.
    NotATree,
}

impl fmt::Display for BuildError {
    ghost use Rattle.std.specs.Prelude.{Some};
    ghost use Rattle.tree_block.specs.Error.{build_error_text};

    ghost output = { λ e. Some (build_error_text e) };

    fn fmt<W: fmt::Write>(&self, f: &mut fmt::Formatter<W>) -> fmt::Result {
        match self {
            BuildError::TooLong => write!(f, "there are 2^60 degrees or more"),
            BuildError::WrongLength => write!(f, "not as long as the block"),
            BuildError::NotATree => write!(f, "the degrees are those of no tree"),
        }
    }
}

impl Error for BuildError {}
