//! Why sparse bits were not built.

use std::alloc::AllocError;
use std::error::Error;
use std::fmt;

/// Why positions, or words, were not made sparse bits; nothing was made then.
#[derive(Clone, Copy, Debug, PartialEq, Eq)]
pub enum SparseError {
    /// There are 2^56 1 bits or more.
    TooLong,
    /// Some position is not greater than the one before it.
    NotRising,
    /// Some position is not less than the number of bits.
    PastEnd,
    /// Memory was refused.
    OutOfMemory,
}

impl fmt::Display for SparseError {
    ghost use Rattle.std.specs.Prelude.{Some};
    ghost use Rattle.sparse_bits.specs.Error.{error_text};

    ghost output = { λ e. Some (error_text e) };

    fn fmt<W: fmt::Write>(&self, f: &mut fmt::Formatter<W>) -> fmt::Result {
        match self {
            SparseError::TooLong => write!(f, "there are 2^56 1 bits or more"),
            SparseError::NotRising => write!(f, "a position is not greater than the one before it"),
            SparseError::PastEnd => write!(f, "a position is not less than the number of bits"),
            SparseError::OutOfMemory => write!(f, "no memory"),
        }
    }
}

impl Error for SparseError {}

impl From<AllocError> for SparseError {
    ghost use Rattle.std.specs.Prelude.{◌≡◌};
    ghost use Rattle.sparse_bits.specs.declared.error.SparseError.TheVariants.{OutOfMemory};

    ghost from_gives = { λ _ e. e ≡ OutOfMemory };

    fn from(_refused: AllocError) -> SparseError {
        SparseError::OutOfMemory
    }
}
