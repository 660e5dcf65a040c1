//! Why no block of strings was written.

use std::error::Error;
use std::fmt;

/// Why no block of strings was written.
#[derive(Clone, Copy, Debug, PartialEq, Eq)]
pub enum BuildError {
    /// There are 2^57 words of levels or strings or more, or 2^60 bytes or more.
    TooLong,
    /// No strings that take all of the bytes have these ends.
    NotGiven,
    /// The words of the block are more or fewer than it takes.
    WrongLength,
    /// The hash gives not each string a number of its own: it is not of these strings by this seed, or two of them are
    /// equal or have one hash. With another seed they may have two.
    NotNumbered,
}

impl fmt::Display for BuildError {
    ghost use Rattle.std.specs.Prelude.{Some};
    ghost use Rattle.hash_block.specs.StringsError.{build_error_text};

    ghost output = { λ e. Some (build_error_text e) };

    fn fmt<W: fmt::Write>(&self, f: &mut fmt::Formatter<W>) -> fmt::Result {
        match self {
            BuildError::TooLong => write!(f, "too many words, levels, strings or bytes"),
            BuildError::NotGiven => write!(f, "not the ends of strings in these bytes"),
            BuildError::WrongLength => write!(f, "not as long as the block"),
            BuildError::NotNumbered => write!(f, "not a number for each: take another seed"),
        }
    }
}

impl Error for BuildError {}
