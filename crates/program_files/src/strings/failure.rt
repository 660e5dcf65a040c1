//! Why there is no answer.

use program_base::runs::{CANNOT_WRITE, CannotWrite, NO_MEMORY, Stop};
use std::alloc::AllocError;
use std::error::Error;
use std::fmt;

/// Why there is no answer.
#[derive(Clone, Copy, Debug, PartialEq, Eq)]
pub enum Failure {
    /// Two lines are equal, or have one hash by each seed.
    EqualLines,
    /// The lines are too many, or too long, for a block.
    TooLarge,
    /// The bytes are no block of strings, or are not as they were written.
    WrongBlock,
    /// Memory was refused.
    NoMemory,
    /// A write failed.
    CannotWrite,
}

impl From<CannotWrite> for Failure {
    ghost use Rattle.std.specs.Prelude.{◌≡◌};
    ghost use Rattle.program_files.specs.declared.strings.failure.Failure.TheVariants.{CannotWrite};

    ghost from_gives = { λ _ f. f ≡ CannotWrite };

    fn from(_error: CannotWrite) -> Failure {
        Failure::CannotWrite
    }
}

impl From<AllocError> for Failure {
    ghost use Rattle.std.specs.Prelude.{◌≡◌};
    ghost use Rattle.program_files.specs.declared.strings.failure.Failure.TheVariants.{NoMemory};

    ghost from_gives = { λ _ f. f ≡ NoMemory };

    fn from(_error: AllocError) -> Failure {
        Failure::NoMemory
    }
}

impl fmt::Display for Failure {
    ghost use Rattle.std.specs.Prelude.{Some};
    ghost use Rattle.program_files.specs.StringsFailure.{failure_text};

    ghost output = { λ e. Some (failure_text e) };

    fn fmt<W: fmt::Write>(&self, f: &mut fmt::Formatter<W>) -> fmt::Result {
        match self {
            Failure::EqualLines => write!(f, "two lines are equal, or have one hash"),
            Failure::TooLarge => write!(f, "the lines are too many for a block"),
            Failure::WrongBlock => write!(f, "not a block of strings, or not as it was written"),
            Failure::NoMemory => write!(f, "{NO_MEMORY}"),
            Failure::CannotWrite => write!(f, "{CANNOT_WRITE}"),
        }
    }
}

impl Error for Failure {}

impl From<Failure> for Stop<Failure> {
    fn from(failure: Failure) -> Stop<Failure> {
        Stop::Failed(failure)
    }
}
