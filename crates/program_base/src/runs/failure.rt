//! What refuses an answer of any program.

use std::io;

/// What a failure says of itself where memory was refused.
pub const NO_MEMORY: &str = "memory was refused";

/// What a failure says of itself where a write failed.
pub const CANNOT_WRITE: &str = "cannot write";

/// A write failed.
#[derive(Clone, Copy)]
pub struct CannotWrite;

impl From<io::Error> for CannotWrite {
    fn from(_error: io::Error) -> CannotWrite {
        CannotWrite
    }
}
