//! The calls of sparse bits that take memory.
use crate::outcome::{Ended, Outcome, WORDS, answered, refused};
use bitm::{Rank, Select};
use sparse_bits::{SampledSparseBits as Sparse, SparseError};
use std::alloc::Global;

/// Positions of 1 bits among 30.
const POSITIONS: [u64; 7] = [2, 3, 5, 7, 11, 13, 24];

/// Whether bits with 1 bits at `POSITIONS` answer as they have to.
fn is_right(made: &Sparse) -> bool {
    let ranks = [8, 30, 31].map(|index| made.try_rank(index));
    let found = [4, 7].map(|rank| made.try_select(rank));
    ranks == [Some(4), Some(7), None] && found == [Some(11), None]
}

/// Each call of sparse bits.
pub fn ended(alloc: Global) -> [Ended; 3] {
    [
        ("sparse-build", built(alloc)),
        ("sparse-build-from-words", built_from_words(alloc)),
        ("sparse-try-clone", cloned(alloc)),
    ]
}

/// Bits, by the positions of the 1 bits. Positions that fall are refused before memory is allocated.
fn built(alloc: Global) -> Outcome {
    let falls = Sparse::build(alloc, [3u64, 2].as_slice(), 9).err() == Some(SparseError::NotRising);
    let positions = POSITIONS;
    match Sparse::build(alloc, positions.as_slice(), 30) {
        Ok(made) => answered(falls && is_right(&made)),
        Err(SparseError::OutOfMemory) => {
            refused(falls && positions.as_slice() == POSITIONS.as_slice())
        }
        Err(_) => Outcome::Wrong,
    }
}

/// The bits of words.
fn built_from_words(alloc: Global) -> Outcome {
    let words = WORDS;
    match Sparse::build_from_words(alloc, words.as_slice()) {
        Ok(made) => answered(made.try_rank(64) == Some(3) && made.try_select(389) == Some(8259)),
        Err(SparseError::OutOfMemory) => refused(words.as_slice() == WORDS.as_slice()),
        Err(_) => Outcome::Wrong,
    }
}

/// A clone of sparse bits.
fn cloned(alloc: Global) -> Outcome {
    match Sparse::build(alloc, POSITIONS.as_slice(), 30) {
        Ok(made) => clone_of(alloc, &made),
        Err(_) => Outcome::Unready,
    }
}

/// A clone of these.
fn clone_of(alloc: Global, made: &Sparse) -> Outcome {
    match made.try_clone(alloc) {
        Ok(copy) => answered(is_right(&copy) && is_right(made)),
        Err(_) => refused(is_right(made)),
    }
}
