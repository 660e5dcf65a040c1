//! The calls of a simple rank that take memory.
use crate::outcome::{Ended, Outcome, WORDS, answered, refused};
use crate::uncopied::Uncopied;
use bitm::{ArrayWithRankSimple, RankSimple};
use std::alloc::{AllocError, Global};
use std::boxed::BoxedSlice;
use std::convert::AsSlice;

/// Whether a simple rank over `WORDS` answers as it has to.
fn is_right<BV: AsSlice<u64>>(index: &RankSimple<BV>) -> bool {
    let ranks = [66, 8256, 8320, 8321].map(|position| index.try_rank(position));
    index.as_slice() == WORDS.as_slice() && ranks == [Some(4), Some(387), Some(390), None]
}

/// Each call of a simple rank.
pub fn ended(alloc: Global) -> [Ended; 4] {
    [
        ("simple-build-borrowed", over(alloc, WORDS.as_slice())),
        ("simple-build-owned", owned(alloc)),
        ("simple-try-clone", cloned(alloc)),
        ("simple-try-clone-uncopied", uncopied(alloc)),
    ]
}

/// A simple rank over a bit vector with the words of `WORDS`.
#[tactic(auto, using(bitm::proofs::Callers::few_ones))]
fn over<BV: AsSlice<u64> + Drop>(alloc: Global, content: BV) -> Outcome {
    if content.as_slice().len() != WORDS.len() {
        return Outcome::Wrong;
    }
    match RankSimple::build(alloc, content) {
        Ok((index, total)) => answered(total == 390 && is_right(&index)),
        Err(back) => refused(back.as_slice() == WORDS.as_slice()),
    }
}

/// Over words that it owns.
fn owned(alloc: Global) -> Outcome {
    match BoxedSlice::from_slice(alloc, WORDS.as_slice()) {
        Ok(content) => over(alloc, content),
        Err(_) => Outcome::Unready,
    }
}

/// A clone of one over words that it owns.
#[tactic(auto, using(bitm::proofs::Callers::few_ones))]
fn cloned(alloc: Global) -> Outcome {
    let Ok(content) = BoxedSlice::from_slice(alloc, WORDS.as_slice()) else {
        return Outcome::Unready;
    };
    match ArrayWithRankSimple::build(alloc, content) {
        Ok((index, _)) => match index.try_clone(alloc) {
            Ok(copy) => answered(is_right(&copy) && is_right(&index)),
            Err(AllocError) => refused(is_right(&index)),
        },
        Err(_) => Outcome::Unready,
    }
}

/// A clone of a simple rank over a bit vector that cannot be copied.
#[tactic(auto, using(bitm::proofs::Callers::few_ones))]
fn uncopied(alloc: Global) -> Outcome {
    let words = WORDS.as_slice();
    match RankSimple::build(alloc, Uncopied { words }) {
        Ok((index, _)) => match index.try_clone(alloc) {
            Ok(_) => Outcome::Wrong,
            Err(AllocError) => refused(is_right(&index)),
        },
        Err(_) => Outcome::Unready,
    }
}
