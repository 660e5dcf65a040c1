//! Ranges and fragments: values worked out by hand, or taken from tests of the original crate.
ghost use Rattle.std.specs.Prelude.{◌≡◌, ◌+◌, ◌≤◌, length};
ghost use Rattle.bitm_bits.specs.Number.{IsFragmentInRange};

use bitm_bits::{BitAccess, BitAccessMut, words};

const P: u64 = 0b10110_10110_10110_10110_10110_10110;

const Q: u64 = 0b11010_11010_11111_00000_11111_10110;

const T: u64 = 0b1100_11111_00000_10110_00111_11100;

/// The fragments of the width at three indexes in a row.
fn three<B: BitAccess>(bits: &B, first: usize, s: u8) -> [u64; 3]
    requires first { IsFragmentInRange (B.words bits.now) first s }
    requires second { IsFragmentInRange (B.words bits.now) (first + 1) s }
    requires third { IsFragmentInRange (B.words bits.now) (first + 2) s }
    requires room { first + 2 ≤ usize.MAX }
    requires width { s ≤ 63 }
{
    [
        bits.get_fragment(first, s),
        bits.get_fragment(first + 1, s),
        bits.get_fragment(first + 2, s),
    ]
}

/// The fragments of the width at three indexes, each where it is in range.
fn tried<B: BitAccess>(bits: &B, indexes: [usize; 3], s: u8) -> [Option<u64>; 3]
    requires { s ≤ 63 }
{
    indexes.map(|index| bits.try_get_fragment(index, s))
}

#[test]
fn fragments_are_begun_replaced_and_swapped(rt: HostRuntime) {
    let mut array = [0u64, 0];
    let mut content = array.as_mut_slice();
    content.init_fragment(1, 5, 3);
    assert!(rt; three(&content, 0, 3) == [0, 5, 0]);
    content.init_fragment(2, P, 30);
    assert!(rt; three(&content, 1, 30) == [0, P, 0]);
    content.set_fragment(2, Q, 30);
    assert!(rt; three(&content, 1, 30) == [0, Q, 0]);
    content.swap_fragments(2, 3, 30);
    assert!(rt; three(&content, 1, 30) == [0, 0, Q]);
    assert!(rt; tried(&content, [1, 2, 3], 30) == [Some(0), Some(0), Some(Q)]);
}

#[test]
fn a_closure_decides_whether_a_fragment_changes(rt: HostRuntime) {
    let mut array = [0u64, 0];
    let mut content = array.as_mut_slice();
    let old = content.conditionally_change_fragment(
        |old| if old == P { Some(P) } else { None },
        2,
        30,
    );
    assert!(rt; old == 0);
    assert!(rt; three(&content, 1, 30) == [0, 0, 0]);
    let old = content.conditionally_change_fragment(
        |old| if old != P { Some(P) } else { None },
        2,
        30,
    );
    assert!(rt; old == 0);
    assert!(rt; three(&content, 1, 30) == [0, P, 0]);
}

#[test]
fn a_fragment_changes_where_it_is_another_number(rt: HostRuntime) {
    let mut array = [0u64, 0];
    let mut content = array.as_mut_slice();
    content.set_fragment(2, P, 30);
    let old = content.conditionally_change_fragment(
        |old| if old != T { Some(T) } else { None },
        2,
        30,
    );
    assert!(rt; old == P);
    assert!(rt; three(&content, 1, 30) == [0, T, 0]);
}

#[test]
fn a_predicate_decides_whether_a_fragment_is_copied(rt: HostRuntime) {
    let source = [u64::MAX; 2];
    for index in [11usize, 21] {
        let mut array = [0u64, 0];
        let mut content = array.as_mut_slice();
        let mut seen = (9, 9);
        content.conditionally_copy_fragment(
            source.as_slice(),
            |old, new| {
                seen = (old, new);
                old > new
            },
            index,
            3,
        );
        assert!(rt; seen == (0, 7));
        assert!(rt; content.get_fragment(index, 3) == 0);
        content.conditionally_copy_fragment(source.as_slice(), |old, new| old < new, index, 3);
        assert!(rt; content.get_fragment(index, 3) == 7);
        assert!(rt; content.get_fragment(index + 1, 3) == 0);
    }
}

#[test]
fn a_predicate_gets_the_old_number_first(rt: HostRuntime) {
    let mut array = [0u64, 0];
    let mut content = array.as_mut_slice();
    let source = [u64::MAX; 2];
    let mut seen = (9, 9);
    content.conditionally_copy_bits(
        source.as_slice(),
        |old, new| {
            seen = (old, new);
            false
        },
        63,
        3,
    );
    assert!(rt; seen == (0, 7));
    assert!(rt; &*content == [0u64, 0].as_slice());
}

#[test]
fn a_whole_word_is_begun_at_the_front(rt: HostRuntime) {
    let mut array = [0u64, 0];
    let mut content = array.as_mut_slice();
    content.init_bits(0, 0x0123_4567_89AB_CDEF, 64);
    assert!(rt; &*content == [0x0123_4567_89AB_CDEFu64, 0].as_slice());
}

#[test]
fn a_whole_word_is_begun_over_a_border(rt: HostRuntime) {
    let mut array = [0u64, 0];
    let mut content = array.as_mut_slice();
    content.init_bits(32, 0xFEDC_BA98_7654_3210, 64);
    assert!(rt; &*content == [0x7654_3210_0000_0000u64, 0x0000_0000_FEDC_BA98].as_slice());
    assert!(rt; content.get_bits_unmasked(32, 64) == 0xFEDC_BA98_7654_3210);
    assert!(rt; content.try_get_bits_unmasked(32, 64) == Some(0xFEDC_BA98_7654_3210));
}

#[test]
fn xor_reaches_the_end_of_the_word(rt: HostRuntime) {
    let mut array = [0u64, 5];
    let mut content = array.as_mut_slice();
    content.xor_bits(48, 0xFF, 64);
    assert!(rt; &*content == [0x00FF_0000_0000_0000u64, 5].as_slice());
    content.xor_bits(48, 0xFF, 64);
    assert!(rt; &*content == [0u64, 5].as_slice());
    let mut one = [0u64];
    words::xor_bits(&mut one, 0, 0xFF, 1);
    assert!(rt; one == [0xFF]);
}

#[test]
fn set_bits_writes_over_a_word_border(rt: HostRuntime) {
    let mut array = [0u64, 0];
    let mut content = array.as_mut_slice();
    content.set_bits(62, 0b101, 3);
    assert!(rt; &*content == [0x4000_0000_0000_0000u64, 1].as_slice());
    assert!(rt; content.get_bits(62, 3) == 5);
    assert!(rt; (content.get_bit(63), content.get_bit(64)) == (false, true));
}

#[test]
fn tries_are_none_exactly_out_of_range(rt: HostRuntime) {
    let array = [u64::MAX];
    let content = array.as_slice();
    assert!(rt; content.try_get_bits(64, 0) == None);
    assert!(rt; content.try_get_bits(63, 1) == Some(1));
    assert!(rt; content.try_get_bits(63, 2) == None);
    assert!(rt; content.try_get_fragment(1 << 63, 2) == None);
    assert!(rt; content.try_get_fragment(usize::MAX, 0) == Some(0));
}

/// Writes 5 where that is greater, and answers what stood there.
fn raise_to_five(words: &mut [u64]) -> u64
    requires { 1 ≤ length words.old }
    ensures { length words.new ≡ length words.old }
{
    words::conditionally_change_fragment(words, |old| if 5 > old { Some(5) } else { None }, 1, 3)
}

#[test]
fn a_fragment_changes_where_five_is_greater(rt: HostRuntime) {
    let mut array = [0u64, 0];
    assert!(rt; raise_to_five(&mut array) == 0);
    assert!(rt; array == [0x28, 0]);
    assert!(rt; raise_to_five(&mut array) == 5);
    assert!(rt; array == [0x28, 0]);
}

#[test]
fn unmasked_reads_reach_past_the_width(rt: HostRuntime) {
    let array = [0xABCDu64, 1];
    let content = array.as_slice();
    assert!(rt; content.get_bits_unmasked(4, 8) == 0xABC);
    assert!(rt; content.get_bits(4, 8) == 0xBC);
    assert!(rt; content.get_bits_unmasked(60, 8) == 16);
}

#[test]
fn a_swap_crosses_a_word_border(rt: HostRuntime) {
    let mut array = [0u64, 0];
    let mut content = array.as_mut_slice();
    content.set_fragment(0, 5, 3);
    content.swap_fragments(0, 21, 3);
    assert!(rt; &*content == [0x8000_0000_0000_0000u64, 2].as_slice());
    content.swap_fragments(21, 21, 3);
    assert!(rt; &*content == [0x8000_0000_0000_0000u64, 2].as_slice());
}

#[test]
fn prefetch_leaves_the_words_as_they_are(rt: HostRuntime) {
    let array = [0b101, u64::MAX];
    let content = array.as_slice();
    for position in [0, 1, 63, 64, 127, 128, usize::MAX] {
        content.prefetch_bit(position);
    }
    for (index, s) in [(0, 3), (1, 3), (42, 3), (usize::MAX, 64)] {
        content.prefetch_fragment(index, s);
    }
    assert!(rt; content == [0b101, u64::MAX].as_slice());
}

#[test]
fn ranges_and_fragments_of_64_bits_are_whole_words_or_parts_of_two(rt: HostRuntime) {
    let mut array = [0u64, u64::MAX];
    let content = array.as_mut_slice();
    for (begin, v, is_written) in [(60, P, true), (65, 0, false)] {
        assert!(rt; words::try_set_bits_0_64(content, begin, v, 64) == is_written);
    }
    for (len, v) in [(64, Some(P)), (65, None)] {
        assert!(rt; words::try_get_bits_0_64(content, 60, len) == v);
    }
    assert!(rt; words::try_set_fragment_0_64(content, 1, u64::MAX, 64));
    for (index, v) in [(0, Some(P << 60)), (1, Some(u64::MAX)), (2, None)] {
        assert!(rt; words::try_get_fragment_0_64(content, index, 64) == v);
    }
}
