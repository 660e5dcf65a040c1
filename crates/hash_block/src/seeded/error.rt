//! Why no block of a hash with seeds was written.

use std::error::Error;
use std::fmt;

/// Why no block of a hash with seeds was written; the words are as they were.
#[derive(Clone, Copy, Debug, PartialEq, Eq)]
pub enum BuildError {
    /// There are 2^58 words or more.
    TooLong,
    /// The sizes are not the sizes of levels of these words.
    NotLevels,
    /// There are not as many seeds as words.
    NotSeeds,
    /// The words of the block are more or fewer than it takes.
    WrongLength,
}

impl fmt::Display for BuildError {
    ghost use Rattle.std.specs.Prelude.{Some};
    ghost use Rattle.hash_block.specs.SeededError.{build_error_text};

    ghost output = { λ e. Some (build_error_text e) };

    fn fmt<W: fmt::Write>(&self, f: &mut fmt::Formatter<W>) -> fmt::Result {
        match self {
            BuildError::TooLong => write!(f, "there are 2^58 words or more"),
            BuildError::NotLevels => write!(f, "not the sizes of levels of these words"),
            BuildError::NotSeeds => write!(f, "not a seed for each word"),
            BuildError::WrongLength => write!(f, "not as long as the block"),
        }
    }
}

impl Error for BuildError {}
