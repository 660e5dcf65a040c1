//! The constructors of words, and copies of words.
use crate::outcome::{Ended, Outcome, answered, refused};
use bitm::{BitVec, BitWriter, CloneWords, words};
use std::alloc::{AllocError, Global};
use std::boxed::BoxedSlice;

type Words = BoxedSlice<u64, Global>;

/// A word of ones.
const FULL: u64 = u64::MAX;

/// How a constructor of these words ended.
fn made(words: Result<Words, AllocError>, right: [u64; 3]) -> Outcome {
    match words {
        Ok(words) => answered(words.as_slice() == right.as_slice()),
        Err(AllocError) => Outcome::Refused,
    }
}

/// Each constructor of words, and copies of words.
pub fn ended(alloc: Global) -> [Ended; 11] {
    let zeros = [0, 0, 0];
    let ones = [FULL, FULL, FULL];
    [
        (
            "with-64bit-segments",
            made(Words::with_64bit_segments(alloc, 7, 3), [7, 7, 7]),
        ),
        (
            "with-zeroed-64bit-segments",
            made(Words::with_zeroed_64bit_segments(alloc, 3), zeros),
        ),
        (
            "with-filled-64bit-segments",
            made(Words::with_filled_64bit_segments(alloc, 3), ones),
        ),
        (
            "with-zeroed-bits",
            made(Words::with_zeroed_bits(alloc, 129), zeros),
        ),
        (
            "with-filled-bits",
            made(Words::with_filled_bits(alloc, 129), ones),
        ),
        (
            "with-bitwords",
            made(Words::with_bitwords(alloc, 1, 1, 129), [FULL, FULL, 1]),
        ),
        ("with-bitwords-of-thousands", many_bitwords(alloc)),
        ("try-same", try_same(alloc, 2)),
        ("try-same-of-thousands", try_same(alloc, 5000)),
        ("vectors", vectors(alloc)),
        ("writer", writer(alloc)),
    ]
}

/// Fragments of three bits, 100,000 times 101, which take 4,688 words.
fn many_bitwords(alloc: Global) -> Outcome {
    match Words::with_bitwords(alloc, 5, 3, 100_000) {
        Ok(made) => {
            let made = made.as_slice();
            let all = (0..100_000).all(|index| words::try_get_fragment(made, index, 3) == Some(5));
            answered(all && made.len() == 4688)
        }
        Err(AllocError) => Outcome::Refused,
    }
}

/// Vectors of three words by each constructor: whether they hold what they are to hold.
fn are_right(alloc: Global) -> Result<bool, AllocError> {
    let segments = Vec::with_64bit_segments(alloc, 7, 3)?;
    let zeros = Vec::with_zeroed_bits(alloc, 129)?;
    let ones = Vec::with_filled_bits(alloc, 129)?;
    let fragments = Vec::with_bitwords(alloc, 1, 32, 6)?;
    let right: [[u64; 3]; 4] = [[7; 3], [0; 3], [FULL; 3], [0x1_0000_0001; 3]];
    Ok(
        segments.as_slice() == right[0].as_slice()
            && zeros.as_slice() == right[1].as_slice()
            && ones.as_slice() == right[2].as_slice()
            && fragments.as_slice() == right[3].as_slice(),
    )
}

/// The constructors of vectors.
fn vectors(alloc: Global) -> Outcome {
    match are_right(alloc) {
        Ok(right) => answered(right),
        Err(AllocError) => Outcome::Refused,
    }
}

/// Appends 64 ones, once more where memory is refused: whether it was refused.
fn push_full(writer: &mut BitWriter) -> bool {
    match writer.push_bits(FULL, 64) {
        Ok(()) => false,
        // What was written before is unharmed, so the same write is made again.
        Err(AllocError) => writer.push_bits(FULL, 64).is_ok(),
    }
}

/// A writer of 150 words, which grows several times.
fn writer(alloc: Global) -> Outcome {
    let mut writer = BitWriter::new(alloc);
    let mut is_refused = false;
    for _ in 0..150 {
        if push_full(&mut writer) {
            is_refused = true;
        }
    }
    let words = writer.into_boxed_slice();
    let is_right = words.len() == 150 && words.iter().all(|word| *word == FULL);
    if is_refused {
        refused(is_right)
    } else {
        answered(is_right)
    }
}

/// A copy of the given number of words.
fn try_same(alloc: Global, count: usize) -> Outcome {
    let Ok(words) = Words::with_64bit_segments(alloc, 13, count) else {
        return Outcome::Unready;
    };
    let is_right = |words: &Words| words.len() == count && words.iter().all(|word| *word == 13);
    match words.try_same(alloc) {
        Ok(copy) => answered(is_right(&copy) && is_right(&words)),
        Err(AllocError) => refused(is_right(&words)),
    }
}
