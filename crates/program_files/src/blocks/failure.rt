//! Why there is no answer.

use program_base::runs::{CANNOT_WRITE, CannotWrite, NO_MEMORY, Stop};
use program_base::text::ListError;
use std::alloc::AllocError;
use std::error::Error;
use std::fmt;

/// Why there is no answer.
#[derive(Clone, Copy, Debug, PartialEq, Eq)]
pub enum Failure {
    /// This line, the first being 0, neither is empty nor has just a number.
    WrongLine(usize),
    /// The number of this line, the first being 0, may not follow those before it.
    OutOfOrder(usize),
    /// The numbers are the degrees of no tree.
    NotATree,
    /// The numbers are too many, or too large, for a block.
    TooLarge,
    /// The bytes do not begin with the mark of a file of this format, of any version.
    Unmarked,
    /// The bytes begin with the mark of this version, which the program does not read.
    OtherVersion(u64),
    /// The bytes are no block that the program reads, or are not as they were written.
    WrongBlock,
    /// Memory was refused.
    NoMemory,
    /// A write failed.
    CannotWrite,
}

impl From<CannotWrite> for Failure {
    ghost use Rattle.std.specs.Prelude.{◌≡◌};
    ghost use Rattle.program_files.specs.declared.blocks.failure.Failure.TheVariants.{CannotWrite};

    ghost from_gives = { λ _ f. f ≡ CannotWrite };

    fn from(_error: CannotWrite) -> Failure {
        Failure::CannotWrite
    }
}

impl From<ListError> for Failure {
    ghost use Rattle.std.specs.Prelude.{◌≡◌};
    ghost use Rattle.program_files.specs.Failure.{failure_of};

    ghost from_gives = { λ e f. f ≡ failure_of e };

    fn from(error: ListError) -> Failure {
        match error {
            ListError::WrongLine(line) => Failure::WrongLine(line),
            ListError::NoMemory => Failure::NoMemory,
        }
    }
}

impl From<AllocError> for Failure {
    ghost use Rattle.std.specs.Prelude.{◌≡◌};
    ghost use Rattle.program_files.specs.declared.blocks.failure.Failure.TheVariants.{NoMemory};

    ghost from_gives = { λ _ f. f ≡ NoMemory };

    fn from(_error: AllocError) -> Failure {
        Failure::NoMemory
    }
}

impl fmt::Display for Failure {
    ghost use Rattle.std.specs.Prelude.{Some};
    ghost use Rattle.program_files.specs.Failure.{failure_text};

    ghost output = { λ e. Some (failure_text e) };

    fn fmt<W: fmt::Write>(&self, f: &mut fmt::Formatter<W>) -> fmt::Result {
        match self {
            Failure::WrongLine(line) => write!(f, "{}", ListError::WrongLine(*line)),
            Failure::OutOfOrder(line) => write!(f, "line {}: out of order", *line as u128 + 1),
            Failure::NotATree => write!(f, "the degrees are those of no tree"),
            Failure::TooLarge => write!(f, "the numbers are too many for a block"),
            Failure::Unmarked => write!(f, "not a file of bitm"),
            Failure::OtherVersion(version) => {
                write!(
                    f,
                    "a file of version {version}, which this bitm does not read"
                )
            }
            Failure::WrongBlock => write!(
                f,
                "not a block of a kind that bitm queries, or not as it was written"
            ),
            Failure::NoMemory => write!(f, "{NO_MEMORY}"),
            Failure::CannotWrite => write!(f, "{CANNOT_WRITE}"),
        }
    }
}

impl Error for Failure {}

impl From<Failure> for Stop<Failure> {
    fn from(failure: Failure) -> Stop<Failure> {
        Stop::Failed(failure)
    }
}
