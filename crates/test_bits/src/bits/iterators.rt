//! Iterators: values worked out by hand, or taken from tests of the original crate.

use bitm_bits::{BitAccess, BitBIterator, BitIterator, BitOnesIterator, BitZerosIterator};

#[test]
fn positions_of_ones_come_with_how_many_are_left(rt: HostRuntime) {
    let array = [0b101u64, 0b10];
    let content = array.as_slice();
    let mut ones = content.bit_ones();
    for step in [
        (3, Some(0)),
        (2, Some(2)),
        (1, Some(65)),
        (0, None),
        (0, None),
    ] {
        assert!(rt; (ones.len(), ones.next()) == step);
    }
}

#[test]
fn bits_come_with_how_many_are_left(rt: HostRuntime) {
    let array = [0b101u64, 0b10];
    let content = array.as_slice();
    let mut bits = content.bit_iter();
    for (left, passed, bit) in [
        (128, 0, Some(true)),
        (127, 0, Some(false)),
        (126, 0, Some(true)),
        (125, 60, Some(false)),
        (64, 0, Some(false)),
        (63, 0, Some(true)),
        (62, 61, Some(false)),
        (0, 0, None),
    ] {
        assert!(rt; (bits.len(), bits.nth(passed)) == (left, bit));
    }
}

#[test]
fn no_words_give_no_positions_and_no_bits(rt: HostRuntime) {
    let array: [u64; 0] = [];
    let content = array.as_slice();
    let mut ones = content.bit_ones();
    assert!(rt; (ones.len(), ones.next()) == (0, None));
    let mut zeros = BitZerosIterator::new(content);
    assert!(rt; (zeros.len(), zeros.next()) == (0, None));
    let mut bits = content.bit_iter();
    assert!(rt; (bits.len(), bits.next(), bits.next_back()) == (0, None, None));
}

#[test]
fn positions_of_zeros_come_with_how_many_are_left(rt: HostRuntime) {
    let array = [0, u64::MAX];
    let content = array.as_slice();
    let mut zeros = content.bit_zeros();
    for (left, passed, position) in [(64, 0, Some(0)), (63, 62, Some(63)), (0, 0, None)] {
        assert!(rt; (zeros.len(), zeros.nth(passed)) == (left, position));
    }
}

#[test]
fn a_word_of_ones_has_no_zeros(rt: HostRuntime) {
    let array = [u64::MAX];
    let full = array.as_slice();
    let mut none = full.bit_zeros();
    assert!(rt; (none.len(), none.next()) == (0, None));
    let array = [u64::MAX, 0];
    let content = array.as_slice();
    let ones = content.bit_ones();
    assert!(rt; (ones.len(), ones.size_hint()) == (64, (64, Some(64))));
}

/// Whether, of the bits that come, exactly those at the given positions are 1 bits.
fn has_ones_at(bits: BitIterator<'_>, ones: &[usize]) -> bool {
    let range = bits.bit_range();
    let positions = range.start..range.end;
    positions
        .zip(bits)
        .all(|(position, bit)| bit == ones.contains(&position))
}

/// How many bits come.
fn how_many(bits: BitIterator<'_>) -> usize {
    bits.fold(0usize, |count, _bit| count.saturating_add(1))
}

#[test]
fn each_bit_of_a_range_comes_once(rt: HostRuntime) {
    let array = [0b1011_0011u64, 1];
    let content = array.as_slice();
    let ones = [0, 1, 4, 5, 7, 64];
    assert!(rt; has_ones_at(content.bit_iter(), &ones));
    assert!(rt; has_ones_at(content.bit_in_range_iter(3..66), &ones));
    assert!(rt; has_ones_at(content.bit_in_unchecked_range_iter(8..66), &ones));
}

#[test]
fn as_many_bits_of_a_range_come_as_it_has_positions(rt: HostRuntime) {
    let array = [0b1011_0011u64, 1];
    let content = array.as_slice();
    assert!(rt; how_many(content.bit_iter()) == 128);
    assert!(rt; how_many(content.bit_in_range_iter(3..66)) == 63);
    assert!(rt; how_many(content.bit_in_unchecked_range_iter(8..66)) == 58);
    assert!(rt; how_many(content.bit_in_range_iter(7..7)) == 0);
}

#[test]
fn bits_go_on_in_the_next_word(rt: HostRuntime) {
    let array = [u64::MAX, 0, u64::MAX];
    let content = array.as_slice();
    let mut bits = content.bit_iter();
    for (passed, bit) in [(63, true), (0, false), (63, true), (0, true)] {
        assert!(rt; bits.nth(passed) == Some(bit));
    }
}

#[test]
fn bits_come_from_both_ends(rt: HostRuntime) {
    let array = [0b101u64];
    let content = array.as_slice();
    let mut bits = content.bit_in_range_iter(0..3);
    for (is_last, bit) in [
        (false, Some(true)),
        (true, Some(true)),
        (false, Some(false)),
        (false, None),
        (true, None),
    ] {
        let given = if is_last {
            bits.next_back()
        } else {
            bits.next()
        };
        assert!(rt; given == bit);
    }
}

#[test]
fn a_reversed_range_has_no_bits_and_stays(rt: HostRuntime) {
    let array = [0b101u64];
    let content = array.as_slice();
    let mut reversed = BitIterator::with_range_unchecked(content, 5..2);
    assert!(rt; (reversed.len(), reversed.next(), reversed.next_back()) == (0, None, None));
    let left = reversed.bit_range();
    assert!(rt; (left.start, left.end) == (5, 2));
    assert!(rt; reversed.bit_vec() == content);
}

#[test]
fn positions_rise_and_end(rt: HostRuntime) {
    let array = [0b1011_0011u64, 1];
    let content = array.as_slice();
    let expected = [0, 1, 4, 5, 7, 64];
    assert!(rt; content.bit_ones().eq(expected));
    assert!(rt; BitOnesIterator::new(content).eq(expected));
    assert!(rt; BitBIterator::<2>::new(content).eq(expected));
}

/// The start and the end of the range that is left.
fn left(bits: &BitIterator<'_>) -> (usize, usize) {
    (bits.bit_range().start, bits.bit_range().end)
}

#[test]
fn nth_and_nth_back_pass_over_bits(rt: HostRuntime) {
    let array = [0b1011u64];
    let content = array.as_slice();
    let mut bits = content.bit_in_range_iter(0..8);
    assert!(rt; (bits.nth(2), left(&bits)) == (Some(false), (3, 8)));
    assert!(rt; (bits.nth_back(4), left(&bits)) == (Some(true), (3, 3)));
    assert!(rt; (bits.nth(0), left(&bits)) == (None, (3, 3)));
}

#[test]
fn nth_leaves_a_reversed_range(rt: HostRuntime) {
    let array = [0b1011u64];
    let content = array.as_slice();
    let mut bits = content.bit_in_range_iter(5..2);
    assert!(rt; (bits.nth(0), left(&bits)) == (None, (5, 2)));
    assert!(rt; (bits.nth_back(3), left(&bits)) == (None, (5, 2)));
}
