//! Answers round the end of the first part of 2^32 bits, and in the second, over words that are all 1. By hand: the
//! ones before position p are p / 64, rounded up; the one of rank r is at 64 r, and the zero of rank r at r + r / 63 +
//! 1. A part has 2^26 = 67108864 ones; the words here fill a part and a half.
ghost use Rattle.std.specs.Prelude.{◌≡◌, length};

use crate::calls::computed::Computed;
use bitm::{TableSource, binary_select_on, bit_on, rank_many_on, rank_on, select_many_on};
use example_callers::many::all_below;
use std::process::Abort;

/// The words of a part and of half a part, which have 2^32 + 2^31 = 6442450944 bits.
const WORDS: usize = 100_663_296;

/// Writes the positions of the 1 bits with these ranks, and returns whether each rank has such a bit.
fn select_each(ranks: &[usize], positions: &mut [usize]) -> bool
    requires { length ranks.now ≡ length positions.old }
{
    let mut source = Computed::new(WORDS);
    let each = all_below(ranks, source.ones());
    if each {
        select_many_on::<1, Computed>(&mut source, ranks, positions);
    }
    each
}

/// Writes the positions of the 0 bits with these ranks, and returns whether each rank has such a bit.
fn select0_each(ranks: &[usize], positions: &mut [usize]) -> bool
    requires { length ranks.now ≡ length positions.old }
{
    let mut source = Computed::new(WORDS);
    let each = all_below(ranks, source.zeros());
    if each {
        select_many_on::<0, Computed>(&mut source, ranks, positions);
    }
    each
}

/// Writes the ranks of these indices, and returns whether there are that many bits for each index.
#[tactic(auto, using(bitm::proofs::BitLaws::bits_are_counted))]
fn rank_each(indices: &[usize], ranks: &mut [usize]) -> bool
    requires { length indices.now ≡ length ranks.old }
{
    let mut source = Computed::new(WORDS);
    let bits = 64 * source.words_len();
    let each = all_below(indices, bits + 1);
    if each {
        rank_many_on(&mut source, indices, ranks);
    }
    each
}

/// The 1 bits before a position.
fn rank(position: usize) -> Option<usize> {
    rank_on(&mut Computed::new(WORDS), position)
}

#[test]
fn ranks_round_the_end_of_a_part_count_both(rt: HostRuntime) {
    for (position, ones) in [
        (0, Some(0)),
        (1, Some(1)),
        (4_294_967_232, Some(67_108_863)),
        (4_294_967_233, Some(67_108_864)),
        (4_294_967_295, Some(67_108_864)),
        (4_294_967_296, Some(67_108_864)),
        (4_294_967_297, Some(67_108_865)),
        (4_294_967_360, Some(67_108_865)),
        (6_442_450_881, Some(100_663_296)),
        (6_442_450_944, Some(100_663_296)),
        (6_442_450_945, None),
        (usize::MAX, None),
    ] {
        assert!(rt; rank(position) == ones);
    }
}

/// The position of the 1 bit of a rank.
fn select(rank: usize) -> Option<usize> {
    binary_select_on::<1, Computed>(&mut Computed::new(WORDS), rank)
}

#[test]
fn the_ones_of_both_parts_are_selected(rt: HostRuntime) {
    for (rank, position) in [
        (0, Some(0)),
        (67_108_863, Some(4_294_967_232)),
        (67_108_864, Some(4_294_967_296)),
        (67_108_865, Some(4_294_967_360)),
        (100_663_295, Some(6_442_450_880)),
        (100_663_296, None),
        (usize::MAX, None),
    ] {
        assert!(rt; select(rank) == position);
    }
}

/// The position of the 0 bit of a rank.
fn select0(rank: usize) -> Option<usize> {
    binary_select_on::<0, Computed>(&mut Computed::new(WORDS), rank)
}

#[test]
fn the_zeros_of_both_parts_are_selected(rt: HostRuntime) {
    for (rank, position) in [
        (0, Some(1)),
        (62, Some(63)),
        (63, Some(65)),
        (4_227_858_431, Some(4_294_967_295)),
        (4_227_858_432, Some(4_294_967_297)),
        (6_341_787_647, Some(6_442_450_943)),
        (6_341_787_648, None),
        (usize::MAX, None),
    ] {
        assert!(rt; select0(rank) == position);
    }
}

/// The bit at a position.
fn bit(position: usize) -> Option<bool> {
    bit_on(&mut Computed::new(WORDS), position)
}

#[test]
fn bits_round_the_end_of_a_part_are_read(rt: HostRuntime) {
    for (position, expected) in [
        (0, Some(true)),
        (1, Some(false)),
        (4_294_967_295, Some(false)),
        (4_294_967_296, Some(true)),
        (4_294_967_297, Some(false)),
        (6_442_450_880, Some(true)),
        (6_442_450_943, Some(false)),
        (6_442_450_944, None),
    ] {
        assert!(rt; bit(position) == expected);
    }
}

#[test]
fn many_ranks_in_both_parts_are_counted_at_once(rt: HostRuntime) {
    let indices = [6_442_450_944, 0, 4_294_967_296, 4_294_967_297, 64, 65];
    let mut ranks = [0; 6];
    assert!(rt; rank_each(indices.as_slice(), ranks.as_mut_slice()));
    assert!(rt; ranks == [100_663_296, 0, 67_108_864, 67_108_865, 1, 2]);
    assert!(rt; !rank_each([6_442_450_945].as_slice(), [7].as_mut_slice()));
}

/// Whether the ranks of these positions, at most 40, are the 1 bits of the words before them.
fn are_counted(indices: &[usize]) -> bool {
    let mut ranks = [7; 40];
    let Some(room) = ranks.as_mut_slice().get_mut(..indices.len()) else {
        return false;
    };
    if !rank_each(indices, &mut *room) {
        return false;
    }
    for k in 0..indices.len() {
        if room[k] != indices[k].div_ceil(64) {
            return false;
        }
    }
    true
}

#[test]
fn more_ranks_than_go_side_by_side_are_counted_in_both_parts(rt: HostRuntime) {
    let mut indices = [0; 40];
    for k in 1..40 {
        indices[k] = 6_442_450_944 - 151_000_001 * (k - 1);
    }
    assert!(rt; are_counted(indices.as_slice()));
}

#[test]
fn many_ones_of_both_parts_are_selected_at_once(rt: HostRuntime) {
    let ranks = [
        67_108_864,
        0,
        100_663_295,
        67_108_863,
        1,
        67_108_865,
        99_999_999,
        31,
        32,
        33,
        67_108_896,
        5,
        90_000_000,
        7,
        8,
        80_000_000,
        10,
    ];
    let mut positions = [0; 17];
    assert!(rt; select_each(ranks.as_slice(), positions.as_mut_slice()));
    let expected = [
        4_294_967_296,
        0,
        6_442_450_880,
        4_294_967_232,
        64,
        4_294_967_360,
        6_399_999_936,
        1984,
        2048,
        2112,
        4_294_969_344,
        320,
        5_760_000_000,
        448,
        512,
        5_120_000_000,
        640,
    ];
    assert!(rt; positions == expected);
    assert!(rt; !select_each([0, 100_663_296].as_slice(), [7, 7].as_mut_slice()));
}

#[test]
fn many_zeros_of_both_parts_are_selected_at_once(rt: HostRuntime) {
    let ranks = [4_227_858_432, 0, 6_341_787_647, 4_227_858_431, 63];
    let mut positions = [0; 5];
    assert!(rt; select0_each(ranks.as_slice(), positions.as_mut_slice()));
    assert!(rt; positions == [4_294_967_297, 1, 6_442_450_943, 4_294_967_295, 65]);
    assert!(rt; !select0_each([6_341_787_648].as_slice(), [7].as_mut_slice()));
}
