//! The calls of the packed index and of its strategies that take memory.
ghost use Rattle.bitm.specs.Bits.{IsShort};

use crate::outcome::{Ended, Outcome, WORDS, answered, refused};
use crate::uncopied::Uncopied;
use bitm::{
    AdaptiveCombinedSamplingDensity, BinaryRankSearch, CombinedSampling, Rank, RankSelect101111,
    Select, Select0, Select0ForRank101111, SelectForRank101111,
};
use std::alloc::{AllocError, Global};
use std::boxed::BoxedSlice;
use std::convert::AsSlice;

/// The strategy that keeps a list of all positions, as a user writes it.
use example_callers::strategies::listed::Listed;

/// Samples that each stand for 128 bits of the kind.
type Samples = CombinedSampling<AdaptiveCombinedSamplingDensity<7>>;

/// An index over borrowed words.
type BorrowedIndex<'a> = RankSelect101111<BinaryRankSearch, BinaryRankSearch, &'a [u64]>;

/// An index over words that it owns.
type OwnedIndex<S> = RankSelect101111<S, S, BoxedSlice<u64, Global>>;

/// Whether an index over `WORDS` answers as it has to.
fn is_right<S: SelectForRank101111, S0: Select0ForRank101111, BV: AsSlice<u64>>(
    index: &RankSelect101111<S, S0, BV>,
) -> bool {
    let ranks = [66, 8256, 8320, 8321].map(|position| index.try_rank(position));
    let ones = [4, 389, 390].map(|rank| index.try_select(rank));
    let zeros = [0, 7929, 7930].map(|rank| index.try_select0(rank));
    index.as_slice() == WORDS.as_slice()
        && ranks == [Some(4), Some(387), Some(390), None]
        && ones == [Some(66), Some(8259), None]
        && zeros == [Some(1), Some(8319), None]
}

/// Each call of a packed index and of its strategies.
pub fn ended(alloc: Global) -> [Ended; 12] {
    [
        (
            "packed-build-borrowed-binary",
            borrowed::<BinaryRankSearch>(alloc),
        ),
        (
            "packed-build-owned-binary",
            owned::<BinaryRankSearch>(alloc),
        ),
        ("packed-build-borrowed-sampled", borrowed::<Samples>(alloc)),
        ("packed-build-owned-sampled", owned::<Samples>(alloc)),
        ("packed-build-borrowed-listed", borrowed::<Listed>(alloc)),
        ("packed-build-owned-listed", owned::<Listed>(alloc)),
        ("sampled-new", sampled_new(alloc)),
        ("sampled-new0", sampled_new0(alloc)),
        ("packed-try-clone-binary", cloned::<BinaryRankSearch>(alloc)),
        ("packed-try-clone-sampled", cloned::<Samples>(alloc)),
        ("packed-try-clone-listed", cloned::<Listed>(alloc)),
        ("packed-try-clone-uncopied", uncopied(alloc)),
    ]
}

/// An index over a bit vector with the words of `WORDS`, with the strategy for both kinds of bit.
fn over<S: SelectForRank101111 + Select0ForRank101111, BV: AsSlice<u64> + Drop>(
    alloc: Global,
    content: BV,
) -> Outcome {
    if content.as_slice().len() != WORDS.len() {
        return Outcome::Wrong;
    }
    match RankSelect101111::<S, S, BV>::build(alloc, content) {
        Ok((index, total)) => answered(total == 390 && is_right(&index)),
        Err(back) => refused(back.as_slice() == WORDS.as_slice()),
    }
}

/// Over borrowed words.
fn borrowed<S: SelectForRank101111 + Select0ForRank101111>(alloc: Global) -> Outcome {
    over::<S, &[u64]>(alloc, WORDS.as_slice())
}

/// Over words that it owns.
fn owned<S: SelectForRank101111 + Select0ForRank101111>(alloc: Global) -> Outcome {
    match BoxedSlice::from_slice(alloc, WORDS.as_slice()) {
        Ok(content) => over::<S, BoxedSlice<u64, Global>>(alloc, content),
        Err(AllocError) => Outcome::Unready,
    }
}

/// A clone of one over words that it owns.
fn cloned<S: SelectForRank101111 + Select0ForRank101111>(alloc: Global) -> Outcome {
    let Ok(content) = BoxedSlice::from_slice(alloc, WORDS.as_slice()) else {
        return Outcome::Unready;
    };
    match OwnedIndex::<S>::build(alloc, content) {
        Ok((index, _)) => match index.try_clone(alloc) {
            Ok(copy) => answered(is_right(&copy) && is_right(&index)),
            Err(AllocError) => refused(is_right(&index)),
        },
        Err(_) => Outcome::Unready,
    }
}

/// A clone of an index over a bit vector that cannot be copied.
fn uncopied(alloc: Global) -> Outcome {
    type Index<'a> = RankSelect101111<BinaryRankSearch, BinaryRankSearch, Uncopied<'a>>;
    let words = WORDS.as_slice();
    match Index::build(alloc, Uncopied { words }) {
        Ok((index, _)) => match index.try_clone(alloc) {
            Ok(_) => Outcome::Wrong,
            Err(AllocError) => refused(is_right(&index)),
        },
        Err(_) => Outcome::Unready,
    }
}

/// Samples of the ones of an index's content.
fn sampled_new(alloc: Global) -> Outcome {
    let Ok((index, total)) = BorrowedIndex::build(alloc, WORDS.as_slice()) else {
        return Outcome::Unready;
    };
    let content = index.as_slice();
    match <Samples as SelectForRank101111>::new(
        alloc,
        content,
        index.l1ranks(),
        index.l2ranks(),
        total,
    ) {
        Ok(made) => {
            let found = made.select(content, index.l1ranks(), index.l2ranks(), 389);
            answered(found == Some(8259) && made.sample_count() == 4)
        }
        Err(AllocError) => refused(is_right(&index)),
    }
}

/// Samples of the zeros of an index's content.
fn sampled_new0(alloc: Global) -> Outcome {
    let Ok((index, total)) = BorrowedIndex::build(alloc, WORDS.as_slice()) else {
        return Outcome::Unready;
    };
    let content = index.as_slice();
    match <Samples as Select0ForRank101111>::new0(
        alloc,
        content,
        index.l1ranks(),
        index.l2ranks(),
        total,
    ) {
        Ok(made) => {
            let found = made.select0(content, index.l1ranks(), index.l2ranks(), 7929);
            answered(found == Some(8319) && made.sample_count() == 62)
        }
        Err(AllocError) => refused(is_right(&index)),
    }
}
