//! Selection in one word, against rows worked out by hand and a walk over the bits.
ghost use Rattle.std.specs.Prelude.{◌≤◌};

use bitm::{byte_sums, bytes_at_most};
use example_callers::asking::selected_in_word;

/// Ones at 2, 7, 15, 25, 33, 47, 60 and 61.
const EIGHT_ONES: u64 = 0x3000_8002_0200_8084;

/// The position of the 1 bit with `rank` 1 bits before it, found bit by bit.
fn found(n: u64, rank: u8) -> Option<u8> {
    let mut left = rank;
    for position in 0..64u8 {
        if (n >> position) & 1 == 1 {
            if left == 0 {
                return Some(position);
            }
            left -= 1;
        }
    }
    None
}

#[test]
fn ones_are_selected_by_their_ranks(rt: HostRuntime) {
    let rows = [
        (EIGHT_ONES, 0, Some(2)),
        (EIGHT_ONES, 1, Some(7)),
        (EIGHT_ONES, 2, Some(15)),
        (EIGHT_ONES, 3, Some(25)),
        (EIGHT_ONES, 4, Some(33)),
        (EIGHT_ONES, 5, Some(47)),
        (EIGHT_ONES, 6, Some(60)),
        (EIGHT_ONES, 7, Some(61)),
        (EIGHT_ONES, 8, None),
        (0x8000_0000_0000_0001, 1, Some(63)),
        (0xFF00_0000_0000_0000, 0, Some(56)),
        (0xFF00_0000_0000_0000, 7, Some(63)),
        (0, 0, None),
        (u64::MAX, 64, None),
    ];
    for (n, rank, position) in rows {
        assert!(rt; selected_in_word(n, rank) == position);
    }
}

#[test]
fn each_rank_is_selected_as_bit_by_bit(rt: HostRuntime) {
    for rank in 0..64u8 {
        for n in [
            u64::MAX,
            1 << rank,
            0x0101_0101_0101_0101,
            EIGHT_ONES,
            0xFFFF_0000_0000_0000,
        ] {
            assert!(rt; selected_in_word(n, rank) == found(n, rank));
        }
    }
}

#[test]
fn a_one_alone_is_selected_at_each_position(rt: HostRuntime) {
    for position in 0..64u8 {
        assert!(rt; selected_in_word(1 << position, 0) == Some(position));
    }
}

/// How many sums of bytes are at most `r`.
fn sums_at_most(n: u64, r: u8) -> u8
    requires { r ≤ 63 }
{
    bytes_at_most(byte_sums(n), r)
}

#[test]
fn sums_of_bytes_count_the_ones_up_to_each(rt: HostRuntime) {
    assert!(rt; byte_sums(EIGHT_ONES) == 0x0806_0605_0403_0302);
    assert!(rt; sums_at_most(EIGHT_ONES, 4) == 4);
    assert!(rt; byte_sums(u64::MAX) == 0x4038_3028_2018_1008);
    assert!(rt; sums_at_most(u64::MAX, 63) == 7);
}
