//! Numbers written among the first bits of words: all other bits are unchanged.
ghost use Rattle.std.specs.Prelude.{◌≡◌, ◌+◌, ◌*◌, ◌%◌, ◌^◌, ◌≤◌, ◌↔◌, IsTrue, bit_xor, false, length};
ghost use Rattle.bit_lists.specs.Bits.{bits_of};
ghost use Rattle.bit_lists.specs.Number.{number_at, with_number, with_swapped};

use crate::slices::numbers::{fragment_in, is_inside, number_in};
use crate::words;

/// Replaces the `width` bits from `begin` on by the lowest ones of `value`, lowest first. Answers false exactly where
/// they are not all among the first `len`, or `width` is above 64, and nothing is written then.
///
/// # Conditions
/// There are `len` bits.
#[inline(always)]
pub fn set_number_in(words: &mut [u64], len: usize, begin: usize, width: u32, value: u64) -> bool
    requires { len ≤ 64 * length words.old }
    ensures done { IsTrue result ↔ (width ≤ 64) × (begin + width ≤ len) }
    ensures value { IsTrue result → bits_of words.new
        ≡ with_number (bits_of words.old) begin width (value % 2 ^ width) }
    ensures unchanged { result ≡ false → words.new ≡ words.old }
{
    if !is_inside(len, begin, width) {
        return false;
    }
    if width == 0 {
        return true;
    }
    words::try_set_bits_0_64(words, begin, value, width as u8)
}

/// Negates each of the `width` bits from `begin` on at whose position `value` has a 1 bit, lowest first. Answers false
/// exactly where they are not all among the first `len`, or `width` is above 64, and nothing is written then.
///
/// # Conditions
/// There are `len` bits.
#[inline(always)]
pub fn xor_number_in(words: &mut [u64], len: usize, begin: usize, width: u32, value: u64) -> bool
    requires { len ≤ 64 * length words.old }
    ensures done { IsTrue result ↔ (width ≤ 64) × (begin + width ≤ len) }
    ensures value { IsTrue result → bits_of words.new ≡ with_number (bits_of words.old) begin width
        (bit_xor (number_at (bits_of words.old) begin width) value % 2 ^ width) }
    ensures unchanged { result ≡ false → words.new ≡ words.old }
{
    match number_in(&*words, len, begin, width) {
        Some(number) => set_number_in(words, len, begin, width, number ^ value),
        None => false,
    }
}

/// Replaces number `index` of an array of numbers of `width` bits by the lowest bits of `value`. Answers false exactly
/// where it is not among the first `len` bits, or `width` is above 64, and nothing is written then.
///
/// # Conditions
/// There are `len` bits.
#[inline(always)]
pub fn set_fragment_in(words: &mut [u64], len: usize, index: usize, width: u32, value: u64) -> bool
    requires { len ≤ 64 * length words.old }
    ensures done { IsTrue result ↔ (width ≤ 64) × (index * width + width ≤ len) }
    ensures value { IsTrue result → bits_of words.new
        ≡ with_number (bits_of words.old) (index * width) width (value % 2 ^ width) }
    ensures unchanged { result ≡ false → words.new ≡ words.old }
{
    match index.checked_mul(width as usize) {
        Some(begin) => set_number_in(words, len, begin, width, value),
        None => false,
    }
}

/// Exchanges numbers `first` and `second` of an array of numbers of `width` bits. Answers false exactly where one of
/// them is not among the first `len` bits, or `width` is above 64, and nothing is written then.
///
/// # Conditions
/// There are `len` bits.
#[inline]
pub fn swap_fragments_in(
    words: &mut [u64],
    len: usize,
    first: usize,
    second: usize,
    width: u32,
) -> bool
    requires { len ≤ 64 * length words.old }
    ensures done { IsTrue result ↔ (width ≤ 64) × (first * width + width ≤ len)
        × (second * width + width ≤ len) }
    ensures value { IsTrue result
        → bits_of words.new ≡ with_swapped (bits_of words.old) first second width }
    ensures unchanged { result ≡ false → words.new ≡ words.old }
{
    let Some(before) = fragment_in(&*words, len, first, width) else {
        return false;
    };
    let Some(after) = fragment_in(&*words, len, second, width) else {
        return false;
    };
    set_fragment_in(&mut *words, len, first, width, after)
        && set_fragment_in(words, len, second, width, before)
}
