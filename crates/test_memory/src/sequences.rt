//! The calls of a sequence that take memory, and the calls of its users.
use crate::outcome::{Ended, Outcome, answered, refused};
use elias_fano::{EfError, EliasFano};
use example_callers::inverted::common;
use std::alloc::Global;

const NUMBERS: [u64; 7] = [2, 3, 5, 7, 11, 13, 24];

/// Whether a sequence of `NUMBERS` answers as it has to.
fn is_right(made: &EliasFano) -> bool {
    let positions = [8, 25].map(|value| made.first_at_least(value));
    (made.try_get(4), made.try_get(7)) == (Some(11), None) && positions == [Some(4), None]
}

/// Each call of a sequence.
pub fn ended(alloc: Global) -> [Ended; 3] {
    [
        ("sequence-build", built(alloc)),
        ("sequence-try-clone", cloned(alloc)),
        ("sequences-common", shared(alloc)),
    ]
}

/// A sequence. Numbers that fall are refused before memory is allocated.
fn built(alloc: Global) -> Outcome {
    let falls = EliasFano::build(alloc, [3u64, 2].as_slice()).err() == Some(EfError::NotSorted);
    let numbers = NUMBERS;
    match EliasFano::build(alloc, numbers.as_slice()) {
        Ok(made) => answered(falls && is_right(&made)),
        Err(EfError::OutOfMemory) => refused(falls && numbers.as_slice() == NUMBERS.as_slice()),
        Err(_) => Outcome::Wrong,
    }
}

/// A clone of a sequence.
fn cloned(alloc: Global) -> Outcome {
    match EliasFano::build(alloc, NUMBERS.as_slice()) {
        Ok(made) => clone_of(alloc, &made),
        Err(_) => Outcome::Unready,
    }
}

/// A clone of this one.
fn clone_of(alloc: Global, made: &EliasFano) -> Outcome {
    match made.try_clone(alloc) {
        Ok(copy) => answered(is_right(&copy) && is_right(made)),
        Err(_) => refused(is_right(made)),
    }
}

/// The numbers that two sequences share.
fn shared(alloc: Global) -> Outcome {
    match EliasFano::build(alloc, NUMBERS.as_slice()) {
        Ok(one) => shared_with(alloc, &one),
        Err(_) => Outcome::Unready,
    }
}

/// Those that this one shares with another.
fn shared_with(alloc: Global, one: &EliasFano) -> Outcome {
    match EliasFano::build(alloc, [1u64, 3, 6, 11, 12, 24, 30].as_slice()) {
        Ok(other) => shared_by(alloc, one, &other),
        Err(_) => Outcome::Unready,
    }
}

/// Those that these two share.
fn shared_by(alloc: Global, one: &EliasFano, other: &EliasFano) -> Outcome {
    match common(alloc, one, other) {
        Ok(found) => answered(found.as_slice() == [3u64, 11, 24].as_slice()),
        Err(_) => refused(is_right(one) && other.try_get(6) == Some(30)),
    }
}
