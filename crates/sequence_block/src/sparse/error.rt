//! Why no block of sparse bits was written.

use std::error::Error;
use std::fmt;

/// Why no block of sparse bits was written; the words are as they were.
#[derive(Clone, Copy, Debug, PartialEq, Eq)]
pub enum BuildError {
    /// There are 2^56 1 bits or more.
    TooLong,
    /// The words are more or fewer than the block takes.
    WrongLength,
    /// Some position is not greater than the one before it.
    NotRising,
    /// Some position is not less than the number of bits.
    PastEnd,
}

impl fmt::Display for BuildError {
    ghost use Rattle.std.specs.Prelude.{Some};
    ghost use Rattle.sequence_block.specs.SparseError.{build_error_text};

    ghost output = { λ e. Some (build_error_text e) };

    fn fmt<W: fmt::Write>(&self, f: &mut fmt::Formatter<W>) -> fmt::Result {
        match self {
            BuildError::TooLong => write!(f, "there are 2^56 1 bits or more"),
            BuildError::WrongLength => write!(f, "not as long as the block"),
            BuildError::NotRising => write!(f, "a position is not greater than the one before it"),
            BuildError::PastEnd => write!(f, "a position is not less than the number of bits"),
        }
    }
}

impl Error for BuildError {}
