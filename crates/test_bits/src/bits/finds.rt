//! Finds: values worked out by hand, each call through its bound.
ghost use Rattle.std.specs.Prelude.{◌*◌, ◌<◌, ◌≤◌, length};
ghost use Rattle.bitm_bits.specs.Bits.{IsShort};

use bitm_bits::{BitAccess, words};

/// The first one from `start` on; `None` where the bit at `known` is no one.
fn first_from<B: BitAccess>(bits: &B, start: usize, known: usize) -> Option<usize>
    requires from { start ≤ known }
    requires inside { known < 64 * length (B.words bits.now) }
    requires short { IsShort (B.words bits.now) }
{
    if !bits.get_bit(known) {
        return None;
    }
    Some(bits.find_bit_one_unchecked(start))
}

/// The last one up to `start`; `None` where the bit at `known` is no one.
fn last_to<B: BitAccess>(bits: &B, start: usize, known: usize) -> Option<usize>
    requires to { known ≤ start }
    requires inside { start < 64 * length (B.words bits.now) }
    requires short { IsShort (B.words bits.now) }
{
    if !bits.get_bit(known) {
        return None;
    }
    Some(bits.rfind_bit_one_unchecked(start))
}

#[test]
fn finds_reach_a_fragment_from_both_sides(rt: HostRuntime) {
    let mut array = [0b101u64 << 3, 0];
    let content = array.as_mut_slice();
    assert!(rt;
        [
            first_from(&content, 0, 3),
            first_from(&content, 3, 3),
            first_from(&content, 4, 5)
        ] == [Some(3), Some(3), Some(5)]
    );
    assert!(rt; last_to(&content, 127, 3) == Some(5));
    assert!(rt; words::trailing_zero_bits(content) == 3);
}

#[test]
fn finds_pass_over_words(rt: HostRuntime) {
    let array = [1u64, 4];
    let content = array.as_slice();
    for (start, position) in [
        (0, Some(0)),
        (1, Some(66)),
        (66, Some(66)),
        (67, None),
        (128, None),
        (usize::MAX, None),
    ] {
        assert!(rt; content.find_bit_one(start) == position);
    }
    let array = [1u64, 0];
    assert!(rt; last_to(&array.as_slice(), 127, 0) == Some(0));
}

#[test]
fn leading_words_of_zeros_are_counted(rt: HostRuntime) {
    for (array, zeros) in [([0u64, 4], 66), ([0, 0], 128), ([8, 0], 3)] {
        assert!(rt; words::trailing_zero_bits(array.as_slice()) == zeros);
    }
}

#[test]
fn finds_the_last_in_a_word_and_the_first_in_the_next(rt: HostRuntime) {
    let array = [0b1011_0011u64, 1];
    let content = array.as_slice();
    assert!(rt; (last_to(&content, 63, 0), first_from(&content, 8, 64)) == (Some(7), Some(64)));
}
