//! Single bits, their counts, and the numbers of `masks`.
ghost use Rattle.std.specs.Prelude.{◌≡◌, ◌*◌, ◌<◌, length};
ghost use Rattle.bitm_bits.specs.Bits.{IsShort};

use bitm_bits::{BitAccess, BitAccessMut, ceiling_div, n_lowest_bits};

#[test]
fn ceiling_div_rounds_up(rt: HostRuntime) {
    for (n, quotient) in [(7, 4), (8, 4), (9, 5)] {
        assert!(rt; ceiling_div(n, 2) == quotient);
    }
    assert!(rt; ceiling_div(10, 3) == 4);
}

#[test]
fn ceiling_div_is_exact_to_the_end_of_the_type(rt: HostRuntime) {
    assert!(rt; ceiling_div(usize::MAX, 2) == 9223372036854775808);
    assert!(rt; ceiling_div(usize::MAX, usize::MAX) == 1);
    assert!(rt; ceiling_div(0, 5) == 0);
}

#[test]
fn n_lowest_bits_are_so_many_ones_at_the_bottom(rt: HostRuntime) {
    assert!(rt; n_lowest_bits(63) == u64::MAX >> 1);
    assert!(rt; n_lowest_bits(3) == 7);
    assert!(rt; n_lowest_bits(1) == 1);
    assert!(rt; n_lowest_bits(0) == 0);
}

/// The answers of `try_get_bit` at the positions, for any value whose words can be borrowed.
fn tried<B: BitAccess>(bits: &B, positions: [usize; 4]) -> [Option<bool>; 4] {
    positions.map(|position| bits.try_get_bit(position))
}

/// Clears the bit and sets it again, and answers the counts of ones and zeros in between.
fn counts_while_clear<B: BitAccessMut>(bits: &mut B, position: usize) -> (usize, usize)
    requires inside { position < 64 * length (B.words bits.old) }
    requires short { IsShort (B.words bits.old) }
    ensures { length (B.words bits.new) ≡ length (B.words bits.old) }
{
    bits.clear_bit(position);
    let counts = (bits.count_bit_ones(), bits.count_bit_zeros());
    bits.set_bit(position);
    counts
}

#[test]
fn bits_are_set_cleared_negated_and_counted(rt: HostRuntime) {
    let mut array = [u64::MAX; 2];
    let mut content = array.as_mut_slice();
    let near = [72, 73, 74, 127];
    let cleared = [Some(true), Some(false), Some(true), Some(true)];
    assert!(rt; (content.count_bit_ones(), content.count_bit_zeros()) == (128, 0));
    assert!(rt; tried(&content, [3, 73, 127, 128]) == [Some(true), Some(true), Some(true), None]);
    assert!(rt; counts_while_clear(&mut content, 73) == (127, 1));
    content.clear_bit(73);
    assert!(rt; tried(&content, near) == cleared);
    content.set_bit(73);
    assert!(rt; content.get_bit(73));
    content.clear_bit_unchecked(73);
    assert!(rt; tried(&content, near) == cleared);
    content.set_bit_to(73, true);
    assert!(rt; content.get_bit_unchecked(73));
    assert!(rt; &*content == [u64::MAX; 2].as_slice());
    content.xor_bits(72, 3, 3);
    assert!(rt; tried(&content, near) == [Some(false), Some(false), Some(true), Some(true)]);
}
