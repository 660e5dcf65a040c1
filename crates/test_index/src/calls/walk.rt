//! What the tests share: indexes over words, one walk over their bits, which counts them one by one, and whether what
//! an index answers agrees with it. The walk stands on a read of one bit and on nothing of the index. Each call says
//! whether all agrees, and a test asserts it.
//!
//! A function that makes an index hands it on by a reference, so that those who compare own nothing: this is proved
//! far faster.
use bitm::{
    AdaptiveCombinedSamplingDensity, BitAccess, CombinedSampling, Rank, RankSelect101111, Select,
    Select0, Select0ForRank101111, SelectForRank101111,
};
use std::alloc::{AllocError, Global};
use std::boxed::BoxedSlice;
use std::convert::AsSlice;

/// Selection by samples, as the tests use it.
pub type Sampled = CombinedSampling<AdaptiveCombinedSamplingDensity<13>>;

/// An index over borrowed words.
pub type TablesView<'a, S, S0> = RankSelect101111<S, S0, &'a [u64]>;

/// An index over words of its own.
pub type Owned<S, S0> = RankSelect101111<S, S0, BoxedSlice<u64, Global>>;

/// More words than any test has.
const TOO_MANY_WORDS: usize = 1_000_000;

/// An index over borrowed words, and the number of 1 bits; the words where there is no memory or there are too many of
/// them.
pub fn borrowed<'a, S: SelectForRank101111, S0: Select0ForRank101111>(
    alloc: Global,
    words: &'a [u64],
) -> Result<(TablesView<'a, S, S0>, usize), &'a [u64]> {
    if words.len() >= TOO_MANY_WORDS {
        return Err(words);
    }
    RankSelect101111::build(alloc, words)
}

/// An index over words of its own, which are the same, and the number of 1 bits.
pub fn owned<S: SelectForRank101111, S0: Select0ForRank101111>(
    alloc: Global,
    words: &[u64],
) -> Result<(Owned<S, S0>, usize), AllocError> {
    let content = BoxedSlice::from_slice(alloc, words)?;
    if content.as_slice().len() >= TOO_MANY_WORDS {
        return Err(AllocError);
    }
    RankSelect101111::build(alloc, content).map_err(|_| AllocError)
}

/// Whether the calls of rank at one position give the ones before it.
pub fn rank_agrees<I: Rank>(index: &I, position: usize, ones: Option<usize>) -> bool {
    let zeros = match ones {
        Some(count) => Some(position.wrapping_sub(count)),
        None => None,
    };
    let tried = (index.try_rank(position), index.try_rank0(position)) == (ones, zeros);
    if !tried || index.try_rank(position).is_none() {
        return tried;
    }
    let plain = (index.rank(position), index.rank0(position));
    let unchecked = (
        index.rank_unchecked(position),
        index.rank0_unchecked(position),
    );
    (Some(plain.0), Some(plain.1)) == (ones, zeros) && unchecked == plain
}

/// Whether the calls of select at one rank answer the position of that 1 bit.
#[tactic(auto, using(bitm::proofs::Callers::one_below))]
pub fn one_agrees<I: Select>(index: &I, rank: usize, position: Option<usize>) -> bool {
    let found = index.try_select(rank);
    if found.is_none() {
        return position.is_none();
    }
    let plain = (Some(index.select(rank)), Some(index.select_unchecked(rank)));
    found == position && plain == (position, position)
}

/// Whether the calls of select0 at one rank answer the position of that 0 bit.
#[tactic(auto, using(bitm::proofs::Callers::zero_below))]
pub fn zero_agrees<I: Select0>(index: &I, rank: usize, position: Option<usize>) -> bool {
    let found = index.try_select0(rank);
    if found.is_none() {
        return position.is_none();
    }
    let plain = (
        Some(index.select0(rank)),
        Some(index.select0_unchecked(rank)),
    );
    found == position && plain == (position, position)
}

/// Whether no call answers from these numbers of bits on, to two past the length and at the greatest number.
fn ends_agree<I: Rank + Select + Select0>(index: &I, ones: usize, zeros: usize) -> bool {
    let len = ones.saturating_add(zeros);
    let mut agrees = true;
    for k in 0..len.saturating_add(4) {
        let asked = if k < len.saturating_add(3) {
            k
        } else {
            usize::MAX
        };
        agrees &= asked <= len || rank_agrees(index, asked, None);
        agrees &= asked < ones || one_agrees(index, asked, None);
        agrees &= asked < zeros || zero_agrees(index, asked, None);
    }
    agrees
}

/// Whether all calls agree with a walk over the bits at every position and rank, to two past the end and at the
/// greatest number; with the number of 1 bits that it finds.
fn walk_agrees<I: Rank + Select + Select0>(index: &I, words: &[u64]) -> (bool, usize) {
    let (mut ones, mut zeros) = (0usize, 0usize);
    let mut agrees = true;
    for position in 0..usize::MAX {
        agrees &= rank_agrees(index, position, Some(ones));
        match words.try_get_bit(position) {
            Some(true) => {
                agrees &= one_agrees(index, ones, Some(position));
                ones = ones.wrapping_add(1);
            }
            Some(false) => {
                agrees &= zero_agrees(index, zeros, Some(position));
                zeros = zeros.wrapping_add(1);
            }
            None => break,
        }
    }
    (agrees && ends_agree(index, ones, zeros), ones)
}

/// Whether all answers over borrowed words, and the number of 1 bits, match a walk.
pub fn all_agree<S: SelectForRank101111, S0: Select0ForRank101111>(
    alloc: Global,
    words: &[u64],
) -> bool {
    match borrowed::<S, S0>(alloc, words) {
        Ok((index, total)) => walk_agrees(&index, words) == (true, total),
        Err(_) => false,
    }
}

/// Whether all answers over the given number of words, at most 60, agree: all 0 bits, all 1 bits, and with the last bit
/// alone set.
fn forms_agree<S: SelectForRank101111, S0: Select0ForRank101111>(
    alloc: Global,
    len: usize,
) -> bool {
    let mut last = [0; 60];
    if len > 60 {
        return false;
    }
    if len > 0 {
        last[len - 1] = 1 << 63;
    }
    let mut agrees = true;
    for words in [&[0; 60][..len], &[u64::MAX; 60][..len], &last[..len]] {
        agrees &= all_agree::<S, S0>(alloc, words);
    }
    agrees
}

/// Whether all answers over each of these forms agree, of no words up to 60.
pub fn borders_agree<S: SelectForRank101111, S0: Select0ForRank101111>(alloc: Global) -> bool {
    let mut agrees = true;
    for len in [0, 1, 9, 32, 33, 60] {
        agrees &= forms_agree::<S, S0>(alloc, len);
    }
    agrees
}
