//! Why no block of bits was written.

use std::error::Error;
use std::fmt;

/// Why no block of bits was written; the words are as they were.
#[derive(Clone, Copy, Debug, PartialEq, Eq)]
pub enum BuildError {
    /// There are more than 2^64 - 64 bits.
    TooLong,
    /// The words have fewer bits.
    TooFewBits,
    /// The words of the block are more or fewer than it takes.
    WrongLength,
}

impl fmt::Display for BuildError {
    ghost use Rattle.std.specs.Prelude.{Some};
    ghost use Rattle.bitm_view.specs.Error.{build_error_text};

    ghost output = { λ e. Some (build_error_text e) };

    fn fmt<W: fmt::Write>(&self, f: &mut fmt::Formatter<W>) -> fmt::Result {
        match self {
            BuildError::TooLong => write!(f, "the bits are too many for a block"),
            BuildError::TooFewBits => write!(f, "the words have fewer bits"),
            BuildError::WrongLength => write!(f, "not as long as the block"),
        }
    }
}

impl Error for BuildError {}
