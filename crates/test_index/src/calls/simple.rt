//! The simple rank: rows worked out by hand, by the calls of its trait and by its own, which answer 32 bits.
use crate::calls::walk::rank_agrees;
use bitm::{ArrayWithRankSimple, GetSize, Rank, RankSimple};
use std::alloc::Global;
use std::boxed::BoxedSlice;
use std::convert::AsSlice;

/// An index with the number of 1 bits before it, where there are that many bits.
type Row = (usize, Option<usize>);

/// Whether the calls of the trait answer what the rows say.
fn ranks_agree<R: Rank>(index: &R, rows: &[Row]) -> bool {
    let mut agrees = true;
    for (position, ones) in rows {
        agrees &= rank_agrees(index, *position, *ones);
        index.prefetch(*position);
    }
    agrees
}

/// Whether the type's own calls, whose answers have 32 bits, answer the number of 1 bits before an index.
fn narrow_agrees(index: &ArrayWithRankSimple, position: usize, ones: u32) -> bool {
    match index.try_rank(position) {
        Some(count) => count == ones && index.rank(position) == ones,
        None => false,
    }
}

/// The simple rank over words that it owns, and the number of ones; `None` where there is no memory or too many words.
#[tactic(auto, using(bitm::proofs::Callers::few_ones))]
fn owned(alloc: Global, words: &[u64]) -> Option<(ArrayWithRankSimple, u32)> {
    let Ok(content) = BoxedSlice::from_slice(alloc, words) else {
        return None;
    };
    if content.as_slice().len() >= 1000 {
        return None;
    }
    match RankSimple::build(alloc, content) {
        Ok(built) => Some(built),
        Err(_) => None,
    }
}

/// Whether ranks of nine full words are those by hand.
fn is_full(index: &ArrayWithRankSimple) -> bool {
    let rows = [
        (0, Some(0)),
        (512, Some(512)),
        (575, Some(575)),
        (576, Some(576)),
        (577, None),
        (usize::MAX, None),
    ];
    let mut agrees = ranks_agree(index, rows.as_slice());
    for (position, ones) in [(0, 0), (512, 512), (575, 575), (576, 576)] {
        agrees &= narrow_agrees(index, position, ones);
    }
    agrees && index.try_rank(577) == None && index.size_bytes_dyn() == 80
}

/// Whether the simple rank over nine full words answers so.
fn full_agrees(alloc: Global) -> bool {
    match owned(alloc, [u64::MAX; 9].as_slice()) {
        Some((index, total)) => total == 576 && is_full(&index),
        None => false,
    }
}

#[test]
fn ranks_of_full_words_are_their_positions_up_to_the_length(rt: HostRuntime) {
    assert!(rt; full_agrees(rt.alloc()));
}

/// Whether the simple rank over these words counts the given number of 1 bits, keeps the words, and answers what the
/// rows say.
fn words_agree(alloc: Global, words: &[u64], ones: u32, rows: &[Row]) -> bool {
    match owned(alloc, words) {
        Some((index, total)) => {
            total == ones && index.as_slice() == words && ranks_agree(&index, rows)
        }
        None => false,
    }
}

#[test]
fn ranks_of_two_words_are_counted_by_hand(rt: HostRuntime) {
    let rows = [
        (0, Some(0)),
        (1, Some(1)),
        (2, Some(1)),
        (3, Some(2)),
        (4, Some(3)),
        (65, Some(3)),
        (66, Some(4)),
        (67, Some(5)),
        (127, Some(5)),
        (128, Some(5)),
        (129, None),
    ];
    assert!(rt; words_agree(rt.alloc(), [0b1101, 0b110].as_slice(), 5, rows.as_slice()));
}

#[test]
fn no_words_have_rank_0_at_position_0_alone(rt: HostRuntime) {
    assert!(rt; words_agree(rt.alloc(), &[], 0, [(0, Some(0)), (1, None)].as_slice()));
}
