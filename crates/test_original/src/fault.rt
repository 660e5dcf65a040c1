//! Why a line could not be replayed.
use std::alloc::{AllocError, AllocFailed};

/// Why a line could not be replayed to its end. Such a line counts as a difference.
#[derive(Clone, Copy)]
pub enum Fault {
    /// Its words are not the words of its kind.
    Malformed,
    /// It names words other than the last ones.
    OtherContent,
    /// No line says how many 1 bits the words have.
    NoTotal,
    /// The condition of a call does not hold.
    Condition,
    /// No such kind is known.
    UnknownKind,
    /// Memory was refused.
    NoMemory,
}

/// The faults, and what is printed of them.
const TEXTS: [&str; 6] = [
    "malformed",
    "not the last content",
    "no line `ones` before it",
    "a call's condition does not hold",
    "unknown kind",
    "no memory",
];

impl Fault {
    /// What is printed of it.
    pub fn text(self) -> &'static str {
        TEXTS[self as usize]
    }
}

impl From<AllocError> for Fault {
    fn from(_error: AllocError) -> Fault {
        Fault::NoMemory
    }
}

impl<T: Drop> From<AllocFailed<T>> for Fault {
    fn from(_error: AllocFailed<T>) -> Fault {
        Fault::NoMemory
    }
}
