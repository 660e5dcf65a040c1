//! Why no block of a matrix was written.

use std::error::Error;
use std::fmt;

/// Why no block of a matrix was written; the words are as they were.
#[derive(Clone, Copy, Debug, PartialEq, Eq)]
pub enum BuildError {
    /// The width is not 1 to 64 bits.
    WrongWidth,
    /// The numbers have 2^63 bits or more in all.
    TooLong,
    /// The words are more or fewer than the block takes.
    WrongLength,
    /// The scratch is not two words for each number.
    WrongScratch,
    /// A number has more bits than the width.
    TooWide,
}

impl fmt::Display for BuildError {
    ghost use Rattle.std.specs.Prelude.{Some};
    ghost use Rattle.matrix_block.specs.Error.{build_error_text};

    ghost output = { λ e. Some (build_error_text e) };

    fn fmt<W: fmt::Write>(&self, f: &mut fmt::Formatter<W>) -> fmt::Result {
        match self {
            BuildError::WrongWidth => write!(f, "the width is not 1 to 64"),
            BuildError::TooLong => write!(f, "there are 2^63 bits or more"),
            BuildError::WrongLength => write!(f, "not as long as the block"),
            BuildError::WrongScratch => write!(f, "the scratch is not two words for each number"),
            BuildError::TooWide => write!(f, "a number has more bits than the width"),
        }
    }
}

impl Error for BuildError {}
