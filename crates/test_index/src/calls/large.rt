//! A bit vector of 2^20 words with 1 bits at the even positions, queried at each step of 256 bits. By hand: half of the
//! bits before an even position are 1 bits, and each two positions have one bit of each kind. So the compiled code runs
//! over tables of many entries.
use crate::calls::walk::{Sampled, one_agrees, rank_agrees, zero_agrees};
use bitm::{
    BinaryRankSearch, BitVec, Rank, RankSelect101111, RankSimple, Select, Select0,
    Select0ForRank101111, SelectForRank101111,
};
use std::alloc::{AllocError, Global};
use std::boxed::BoxedSlice;
use std::convert::AsSlice;

type Words = BoxedSlice<u64, Global>;

/// Words whose ones are at the even positions.
fn even_ones(alloc: Global) -> Result<Words, AllocError> {
    Words::with_64bit_segments(alloc, 0x5555_5555_5555_5555, 0x10_0000)
}

/// Half of the bits before each position are 1 bits, by the calls that answer `None` and by those that do not.
fn ranks_agree<I: Rank>(index: &I) -> bool {
    let mut agrees = true;
    for k in 0..0x4_0000usize {
        agrees &= rank_agrees(index, 256 * k, Some(128 * k));
    }
    agrees
}

/// Each two positions have one bit of each kind, by the calls that answer `None` and by those that do not.
fn positions_agree<I: Select + Select0>(index: &I) -> bool {
    let mut agrees = true;
    for k in 0..0x4_0000usize {
        agrees &= one_agrees(index, 128 * k, Some(256 * k));
        agrees &= zero_agrees(index, 128 * k, Some(256 * k + 1));
    }
    agrees
}

/// Whether an index answers so, and the number of 1 bits is half of the bits.
fn all_agree<I: Rank + Select + Select0>(index: &I, total: usize) -> bool {
    total == 0x200_0000 && ranks_agree(index) && positions_agree(index)
}

/// Whether an index with these strategies over the words answers so.
fn index_agrees<S: SelectForRank101111, S0: Select0ForRank101111>(alloc: Global) -> bool {
    let Ok(content) = even_ones(alloc) else {
        return false;
    };
    if content.as_slice().len() >= 2_000_000 {
        return false;
    }
    match RankSelect101111::<S, S0, Words>::build(alloc, content) {
        Ok((index, total)) => all_agree(&index, total),
        Err(_) => false,
    }
}

/// Whether the simple rank over the words does.
#[tactic(auto, using(bitm::proofs::Callers::few_ones))]
fn simple_agrees(alloc: Global) -> bool {
    let Ok(content) = even_ones(alloc) else {
        return false;
    };
    if content.as_slice().len() >= 2_000_000 {
        return false;
    }
    match RankSimple::build(alloc, content) {
        Ok((index, total)) => total == 0x200_0000 && ranks_agree(&index),
        Err(_) => false,
    }
}

#[test]
fn simple_rank_is_half_of_each_even_position(rt: HostRuntime) {
    assert!(rt; simple_agrees(rt.alloc()));
}

#[test]
fn rank_is_half_of_each_even_position_and_binary_search_selects_it(rt: HostRuntime) {
    assert!(rt; index_agrees::<BinaryRankSearch, BinaryRankSearch>(rt.alloc()));
}

#[test]
fn rank_is_half_of_each_even_position_and_samples_select_it(rt: HostRuntime) {
    assert!(rt; index_agrees::<Sampled, Sampled>(rt.alloc()));
}
