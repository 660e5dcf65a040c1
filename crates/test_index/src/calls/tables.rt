//! The tables that an index keeps, its size, and ranks of a few contents, worked out by hand. An entry is the ones
//! before its records 1, 2 and 3, from the bits 54, 43 and 32 on, and below them the ones before the entry in its
//! part: for 64 ones in the first record of the second entry, after 2048 ones, 64 * (2^54 + 2^43 + 2^32) + 2048.
use crate::calls::walk::{borrowed, owned};
use bitm::{
    BinaryRankSearch, BitAccess, BitAccessMut, BitVec, GetSize, Rank, RankSelect101111, Select,
    Select0, Select0ForRank101111, SelectForRank101111, complement_entry,
};
use std::alloc::Global;
use std::boxed::BoxedSlice;
use std::convert::AsSlice;
use std::process::Abort;

/// Words, and what an index over them keeps: the ones, the upper table and the lower one.
type Kept<'a> = (&'a [u64], usize, &'a [usize], &'a [u64]);

const KEPT: [Kept<'static>; 8] = [
    (&[], 0, &[], &[]),
    (&[0], 0, &[0], &[0]),
    (&[0b1101], 3, &[0], &[0x00C0_1803_0000_0000]),
    (&[0b1101, 0b110], 5, &[0], &[0x0140_2805_0000_0000]),
    (
        &[0b1101; 60],
        180,
        &[0],
        &[0x0601_8048_0000_0000, 0x0601_8048_0000_0060],
    ),
    (&[u64::MAX; 32], 2048, &[0], &[0x8020_0600_0000_0000]),
    (
        &[u64::MAX; 33],
        2112,
        &[0],
        &[0x8020_0600_0000_0000, 0x1002_0040_0000_0800],
    ),
    (&[0; 33], 0, &[0], &[0, 0]),
];

/// Whether an index, and the number of 1 bits, are as they should be.
fn keeps<S: SelectForRank101111, S0: Select0ForRank101111, BV: AsSlice<u64>>(
    index: &RankSelect101111<S, S0, BV>,
    ones: usize,
    (_, total, upper, lower): Kept<'_>,
) -> bool {
    ones == total && index.l1ranks() == upper && index.l2ranks() == lower
}

/// Whether indexes over borrowed words have the tables that they should.
fn borrowed_keep<S: SelectForRank101111, S0: Select0ForRank101111>(alloc: Global) -> bool {
    let mut agrees = true;
    for kept in KEPT.as_slice() {
        agrees &= match borrowed::<S, S0>(alloc, kept.0) {
            Ok((index, ones)) => keeps(&index, ones, *kept),
            Err(_) => false,
        };
    }
    agrees
}

/// Whether those over words of their own do.
fn owned_keep<S: SelectForRank101111, S0: Select0ForRank101111>(alloc: Global) -> bool {
    let mut agrees = true;
    for kept in KEPT.as_slice() {
        agrees &= match owned::<S, S0>(alloc, kept.0) {
            Ok((index, ones)) => keeps(&index, ones, *kept),
            Err(_) => false,
        };
    }
    agrees
}

#[test]
fn an_index_keeps_the_tables_of_its_words(rt: HostRuntime) {
    assert!(rt; borrowed_keep::<BinaryRankSearch, BinaryRankSearch>(rt.alloc()));
    assert!(rt; owned_keep::<BinaryRankSearch, BinaryRankSearch>(rt.alloc()));
}

/// How many bytes indexes over borrowed words, and over words of their own, take.
fn bytes_of<S: SelectForRank101111 + GetSize, S0: Select0ForRank101111 + GetSize>(
    alloc: Global,
    words: &[u64],
) -> Option<(usize, usize)> {
    let borrowing = match borrowed::<S, S0>(alloc, words) {
        Ok((index, _)) => index.size_bytes_dyn(),
        Err(_) => return None,
    };
    match owned::<S, S0>(alloc, words) {
        Ok((index, _)) => Some((borrowing, index.size_bytes_dyn())),
        Err(_) => None,
    }
}

#[test]
fn one_word_takes_sixteen_bytes_beside_its_own(rt: HostRuntime) {
    let bytes = bytes_of::<BinaryRankSearch, BinaryRankSearch>(rt.alloc(), [0b1101].as_slice());
    assert!(rt; bytes == Some((16, 24)));
}

/// Positions in full and empty words.
const PLACES: [usize; 6] = [0, 511, 512, 2047, 2048, 2111];

/// Whether full words are counted as by hand, up to their end.
fn counts_full<I: Rank + Select + Select0>(full: &I) -> bool {
    let mut agrees = full.try_select(2112) == None;
    for position in PLACES {
        agrees &= (full.try_rank(position), full.try_select(position))
            == (Some(position), Some(position));
        agrees &= full.try_select0(position) == None;
    }
    agrees && (full.try_rank(2112), full.try_rank(2113)) == (Some(2112), None)
}

/// Whether empty words are counted as by hand, up to their end.
fn counts_empty<I: Rank + Select + Select0>(empty: &I) -> bool {
    let mut agrees = empty.try_select0(2112) == None;
    for position in PLACES {
        agrees &= (empty.try_rank0(position), empty.try_select0(position))
            == (Some(position), Some(position));
        agrees &= empty.try_select(position) == None;
    }
    agrees
}

/// Whether indexes over full and over empty words count them.
fn both_agree<S: SelectForRank101111, S0: Select0ForRank101111>(alloc: Global) -> bool {
    let agrees = match borrowed::<S, S0>(alloc, [u64::MAX; 33].as_slice()) {
        Ok((full, _)) => counts_full(&full),
        Err(_) => false,
    };
    agrees
        && match borrowed::<S, S0>(alloc, [0; 33].as_slice()) {
            Ok((empty, _)) => counts_empty(&empty),
            Err(_) => false,
        }
}

#[test]
fn full_and_empty_words_are_counted_to_the_end(rt: HostRuntime) {
    assert!(rt; both_agree::<BinaryRankSearch, BinaryRankSearch>(rt.alloc()));
}

/// Sets one of 2048 bits, and returns whether it is set then.
fn is_set(words: &mut [u64]) -> bool {
    if words.len() != 32 {
        return false;
    }
    let mut bits = words;
    bits.set_bit(100);
    bits.get_bits(99, 5) == 0b00010
}

/// Whether an index over one bit that is set, and the number of 1 bits, are as by hand.
fn counts_one<I: Rank>(index: &I, ones: usize) -> bool {
    let mut agrees = ones == 1;
    for (position, count) in [(100, 0), (101, 1), (999, 1)] {
        agrees &= index.try_rank(position) == Some(count);
    }
    agrees
}

/// Whether such an index is, over these words.
fn one_is_counted<S: SelectForRank101111, S0: Select0ForRank101111>(
    alloc: Global,
    words: &[u64],
) -> bool {
    match owned::<S, S0>(alloc, words) {
        Ok((index, ones)) => counts_one(&index, ones),
        Err(_) => false,
    }
}

/// Whether one bit of 2048 can be set, and an index counts it.
fn set_is_counted<S: SelectForRank101111, S0: Select0ForRank101111>(alloc: Global) -> bool {
    match BoxedSlice::<u64, Global>::with_zeroed_bits(alloc, 2048) {
        Ok(mut content) => {
            is_set(content.as_mut_slice()) && one_is_counted::<S, S0>(alloc, content.as_slice())
        }
        Err(_) => false,
    }
}

#[test]
fn one_bit_that_is_set_counts_from_the_next_position_on(rt: HostRuntime) {
    assert!(rt; set_is_counted::<BinaryRankSearch, BinaryRankSearch>(rt.alloc()));
}

#[test]
fn an_entry_is_turned_into_that_of_the_negated_bits(rt: HostRuntime) {
    for (entry, nth, negated) in [
        (0x00C0_1803_0000_0000, 0, 0x7F5F_EDFD_0000_0000),
        (0x0601_8048_0000_0060, 1, 0x7A1E_85B8_0000_07A0),
        (0x1002_0040_0000_0800, 1, 0x701E_05C0_0000_0000),
    ] {
        assert!(rt; complement_entry(entry, nth) == negated);
    }
}
