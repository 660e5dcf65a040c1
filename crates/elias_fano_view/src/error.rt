//! Why a sequence was not written.

use std::error::Error;
use std::fmt;

/// Why `build` refused numbers; nothing was written then.
#[derive(Clone, Copy, Debug, PartialEq, Eq)]
pub enum BuildError {
    /// There are 2^56 numbers or more, or some part does not have its length of `Sizes`.
    WrongLength,
    /// Some number is less than the number before it.
    NotSorted,
}

impl fmt::Display for BuildError {
    ghost use Rattle.std.specs.Prelude.{Some};
    ghost use Rattle.elias_fano_view.specs.Error.{error_text};

    ghost output = { λ e. Some (error_text e) };

    fn fmt<W: fmt::Write>(&self, f: &mut fmt::Formatter<W>) -> fmt::Result {
        match self {
            BuildError::WrongLength => write!(f, "a part has not the length that it has to have"),
            BuildError::NotSorted => write!(f, "a number is less than the one before it"),
        }
    }
}

impl Error for BuildError {}
