//! The calls of a matrix, of a perfect hash and of a dictionary that take memory.
use crate::outcome::{Ended, Outcome, answered, refused};
use bitm::ArrayWithRank101111;
use perfect_hash::{
    BuildError, Dictionary, Grouped, PerfectHash, Placing, Plain, Seeded, build, build_by,
};
use std::alloc::{AllocError, Global};
use wavelet_matrix::BinaryWaveletMatrix;

const NUMBERS: [u64; 6] = [3, 1, 4, 1, 5, 1];

const KEYS: [u64; 8] = [3, 1, 4, 15, 9, 26, 5, 35];

type Numbered<P> = PerfectHash<Seeded, ArrayWithRank101111, P>;

/// Whether a matrix of `NUMBERS` answers as it has to.
fn is_right(matrix: &BinaryWaveletMatrix) -> bool {
    let positions = [2, 3].map(|rank| matrix.try_select(1, rank));
    let at = (matrix.try_get(2), matrix.try_get(6), matrix.try_rank(1, 4));
    at == (Some(4), None, Some(2)) && positions == [Some(5), None]
}

/// Each call of a matrix, of a perfect hash and of a dictionary.
pub fn ended(alloc: Global) -> [Ended; 10] {
    [
        ("matrix-build", matrix_built(alloc)),
        ("matrix-build-compact", compact_built(alloc)),
        ("matrix-build-with-starts", starts_kept(alloc)),
        ("matrix-try-clone", matrix_cloned(alloc)),
        ("matrix-intersect", matrix_shared(alloc)),
        ("hash-build", hash_built(alloc, Plain)),
        ("hash-try-clone", hash_cloned(alloc, Plain)),
        ("seeds-build", hash_built(alloc, Grouped::new(alloc, 16))),
        (
            "seeds-try-clone",
            hash_cloned(alloc, Grouped::new(alloc, 16)),
        ),
        ("dictionary-build", dictionary_built(alloc)),
    ]
}

/// A matrix of `NUMBERS`.
fn matrix(alloc: Global) -> Result<BinaryWaveletMatrix, AllocError> {
    BinaryWaveletMatrix::build(alloc, NUMBERS.as_slice(), 3)
}

/// A matrix.
fn matrix_built(alloc: Global) -> Outcome {
    let numbers = NUMBERS;
    match BinaryWaveletMatrix::build(alloc, numbers.as_slice(), 3) {
        Ok(made) => answered(is_right(&made)),
        Err(AllocError) => refused(numbers.as_slice() == NUMBERS.as_slice()),
    }
}

/// A matrix without quarters.
fn compact_built(alloc: Global) -> Outcome {
    let numbers = NUMBERS;
    match BinaryWaveletMatrix::build_compact(alloc, numbers.as_slice(), 3) {
        Ok(made) => answered(made.is_compact() && is_right(&made)),
        Err(AllocError) => refused(numbers.as_slice() == NUMBERS.as_slice()),
    }
}

/// A matrix whose one digit is known from the table of starts: of 9000 ones.
fn starts_kept(alloc: Global) -> Outcome {
    let numbers = [1u64; 9000];
    match BinaryWaveletMatrix::build(alloc, numbers.as_slice(), 1) {
        Ok(made) => {
            let (levels, _probe) = made.parts();
            answered(levels.known() == 1 && made.try_rank(1, 1700) == Some(1700))
        }
        Err(AllocError) => refused(numbers.as_slice() == [1u64; 9000].as_slice()),
    }
}

/// A clone of one.
fn matrix_cloned(alloc: Global) -> Outcome {
    let Ok(made) = matrix(alloc) else {
        return Outcome::Unready;
    };
    match made.try_clone(alloc) {
        Ok(copy) => answered(is_right(&copy) && is_right(&made)),
        Err(_) => refused(is_right(&made)),
    }
}

/// The numbers that two ranges of one share.
fn matrix_shared(alloc: Global) -> Outcome {
    let Ok(made) = matrix(alloc) else {
        return Outcome::Unready;
    };
    if made.len() != 6 {
        return Outcome::Wrong;
    }
    match made.intersect(alloc, 0..3, 1..6) {
        Ok(found) => answered(found.as_slice() == [1u64, 4].as_slice()),
        Err(_) => refused(is_right(&made)),
    }
}

/// Whether a perfect hash of `KEYS` gives each of them a number of its own below their count.
fn numbers_each<P: Placing>(made: &Numbered<P>) -> bool {
    let keys = KEYS;
    let mut seen = [false; 8];
    for key in keys.as_slice() {
        let Some(number) = made.get(key) else {
            return false;
        };
        if number >= 8 || seen[number] {
            return false;
        }
        seen[number] = true;
    }
    true
}

/// A perfect hash. Its hasher comes back.
fn hash_built<P: Placing>(alloc: Global, placing: P) -> Outcome {
    let keys = KEYS;
    match build_by(alloc, placing, Seeded { seed: 1 }, keys.as_slice(), 100) {
        Ok(made) => answered(numbers_each(&made)),
        Err(it) => {
            if it.error == BuildError::OutOfMemory {
                refused(it.hasher.seed == 1 && keys.as_slice() == KEYS.as_slice())
            } else {
                Outcome::Wrong
            }
        }
    }
}

/// A clone of one.
fn hash_cloned<P: Placing>(alloc: Global, placing: P) -> Outcome {
    let Ok(made) = build_by(alloc, placing, Seeded { seed: 1 }, KEYS.as_slice(), 100) else {
        return Outcome::Unready;
    };
    match made.try_clone(alloc) {
        Ok(copy) => answered(numbers_each(&copy) && numbers_each(&made)),
        Err(_) => refused(numbers_each(&made)),
    }
}

/// A dictionary. Its perfect hash comes back.
fn dictionary_built(alloc: Global) -> Outcome {
    let keys = KEYS;
    let Ok(made) = build(alloc, Seeded { seed: 1 }, keys.as_slice(), 100) else {
        return Outcome::Unready;
    };
    match Dictionary::build(alloc, made, keys.as_slice(), 32) {
        Ok(found) => {
            let all = keys.as_slice().iter().all(|key| found.get(key).is_some());
            answered(all && numbers_each(found.numbers()))
        }
        Err(back) => refused(numbers_each(&back)),
    }
}
