//! Why keys were not numbered.
use std::alloc::{AllocError, AllocFailed};
use std::error::Error;
use std::fmt;

/// Why keys were not numbered; nothing was made then.
#[derive(Clone, Copy, Debug, PartialEq, Eq)]
pub enum BuildError {
    /// This number of keys is left after 256 levels: each collided with another key at every level, so some keys are
    /// equal, or their hashes are.
    KeysCollide(usize),
    /// The first level would have 2^50 words or more, as for 2^56 keys at 100 per cent.
    TooLarge,
    /// Memory was refused.
    OutOfMemory,
}

impl fmt::Display for BuildError {
    ghost use Rattle.std.specs.Prelude.{Some};
    ghost use Rattle.perfect_hash.specs.Error.{error_text};

    ghost output = { λ e. Some (error_text e) };

    fn fmt<W: fmt::Write>(&self, f: &mut fmt::Formatter<W>) -> fmt::Result {
        match self {
            BuildError::KeysCollide(left) => {
                write!(f, "{left} keys collide: equal, or of equal hashes")
            }
            BuildError::TooLarge => write!(f, "the first level has 2^50 words or more"),
            BuildError::OutOfMemory => write!(f, "no memory"),
        }
    }
}

impl Error for BuildError {}

impl From<AllocError> for BuildError {
    ghost use Rattle.std.specs.Prelude.{◌≡◌};
    ghost use Rattle.perfect_hash.specs.declared.levels.error.BuildError.TheVariants.{OutOfMemory};

    ghost from_gives = { λ _ e. e ≡ OutOfMemory };

    fn from(_refused: AllocError) -> BuildError {
        BuildError::OutOfMemory
    }
}

impl<T: Drop> From<AllocFailed<T>> for BuildError {
    ghost use Rattle.std.specs.Prelude.{◌≡◌};
    ghost use Rattle.perfect_hash.specs.declared.levels.error.BuildError.TheVariants.{OutOfMemory};

    ghost from_gives = { λ _ e. e ≡ OutOfMemory };

    fn from(_refused: AllocFailed<T>) -> BuildError {
        BuildError::OutOfMemory
    }
}
