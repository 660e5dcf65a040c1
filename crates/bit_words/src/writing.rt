//! Writes of bits of words: all bits that a call does not name stay.
ghost use Rattle.std.specs.Prelude.{◌≡◌, ◌-◌, ◌*◌, ◌%◌, ◌^◌, ◌<◌, ◌≤◌, ◌↔◌, IsTrue, false, length};
ghost use Rattle.std.specs.Prelude.{bit_and, bit_or, if◌then◌else◌};
ghost use Rattle.std.specs.Int.{bit_not, w64};
ghost use Rattle.bit_lists.specs.Bits.{bits_of};
ghost use Rattle.bit_lists.specs.Number.{with_number, IsClearOrAlready, IsFalseOrAlready, IsInRange};
ghost use Rattle.bit_lists.specs.Window.{with_flips};

use crate::masks::{n_lowest_bits, n_lowest_bits_0_64};
use crate::reading::is_in_range;

/// Replaces the bits of `mask` by the bits of `value`.
#[inline(always)]
fn set_bits_to(word: &mut u64, value: u64, mask: u64)
    ensures { word.new ≡ bit_or (bit_and word.old (bit_not w64 mask)) value }
{
    *word &= !mask;
    *word |= value;
}

/// Makes the bit at `position` equal to `value`.
///
/// # Conditions
/// The position is inside.
#[inline(always)]
pub fn set_bit_to(words: &mut [u64], position: usize, value: bool)
    requires { position < 64 * length words.old }
    ensures { bits_of words.new ≡ with_number (bits_of words.old) position 1 (if value then 1 else 0) }
{
    let offset = position % 64;
    set_bits_to(
        &mut words[position / 64],
        (value as u64) << offset,
        1u64 << offset,
    );
}

/// Makes the bit at `position` 1.
///
/// # Conditions
/// The position is inside.
#[inline(always)]
#[tactic(auto, using(crate::proofs::lemmas::WriteLemmas::bit_set))]
pub fn set_bit(words: &mut [u64], position: usize)
    requires { position < 64 * length words.old }
    ensures { bits_of words.new ≡ with_number (bits_of words.old) position 1 1 }
{
    words[position / 64] |= 1u64 << (position % 64);
}

/// Makes the bit at `position` 0.
///
/// # Conditions
/// The position is inside.
#[inline(always)]
#[tactic(auto, using(crate::proofs::lemmas::WriteLemmas::bit_cleared))]
pub fn clear_bit(words: &mut [u64], position: usize)
    requires { position < 64 * length words.old }
    ensures { bits_of words.new ≡ with_number (bits_of words.old) position 1 0 }
{
    words[position / 64] &= !(1u64 << (position % 64));
}

/// Makes the bit at `position` equal to `value`, as `set_bit_to` does. Answers false exactly where the position is past
/// the end, and nothing is written then.
#[inline(always)]
pub fn try_set_bit_to(words: &mut [u64], position: usize, value: bool) -> bool
    ensures done { IsTrue result ↔ (position < 64 * length words.old) }
    ensures value { IsTrue result → bits_of words.new
        ≡ with_number (bits_of words.old) position 1 (if value then 1 else 0) }
    ensures kept { result ≡ false → words.new ≡ words.old }
{
    if position / 64 >= words.len() {
        return false;
    }
    set_bit_to(words, position, value);
    true
}

/// Makes the bit at `position` 1. Answers false exactly where the position is past the end, and nothing is written
/// then.
#[inline(always)]
pub fn try_set_bit(words: &mut [u64], position: usize) -> bool
    ensures done { IsTrue result ↔ (position < 64 * length words.old) }
    ensures value { IsTrue result
        → bits_of words.new ≡ with_number (bits_of words.old) position 1 1 }
    ensures kept { result ≡ false → words.new ≡ words.old }
{
    try_set_bit_to(words, position, true)
}

/// Makes the bit at `position` 0. Answers false exactly where the position is past the end, and nothing is written
/// then.
#[inline(always)]
pub fn try_clear_bit(words: &mut [u64], position: usize) -> bool
    ensures done { IsTrue result ↔ (position < 64 * length words.old) }
    ensures value { IsTrue result
        → bits_of words.new ≡ with_number (bits_of words.old) position 1 0 }
    ensures kept { result ≡ false → words.new ≡ words.old }
{
    try_set_bit_to(words, position, false)
}

/// Makes the bit at `position`, which is 0 or already `value`, equal to `value`.
///
/// # Conditions
/// The position is inside; its bit is 0 or already `value`.
#[inline(always)]
#[tactic(auto, using(crate::proofs::lemmas::InitLemmas::bit_joined))]
pub fn init_bit(words: &mut [u64], position: usize, value: bool)
    requires inside { position < 64 * length words.old }
    requires clear { IsFalseOrAlready (bits_of words.old) position value }
    ensures { bits_of words.new ≡ with_number (bits_of words.old) position 1 (if value then 1 else 0) }
{
    words[position / 64] |= (value as u64) << (position % 64);
}

/// Replaces the `len` bits from `begin` on by the number `v`, lowest first; the mask has the `len` lowest bits set.
#[inline(always)]
fn put_bits(words: &mut [u64], begin: usize, v: u64, len: u8, mask: u64)
    requires in_range { IsInRange words.old begin len }
    requires width { len ≤ 64 }
    requires fits { v < 2 ^ len }
    requires mask { mask ≡ 2 ^ len - 1 }
    ensures { bits_of words.new ≡ with_number (bits_of words.old) begin len v }
{
    let (segment, offset) = (begin / 64, (begin % 64) as u8);
    // The first word is read before the test, so that its address is made once and the test skips the second alone.
    let mut first = words[segment];
    set_bits_to(&mut first, v << offset, mask << offset);
    if offset + len > 64 {
        let shift = 64 - offset;
        set_bits_to(&mut words[segment + 1], v >> shift, mask >> shift);
    }
    words[segment] = first;
}

/// Replaces the `len` bits from `begin` on by the number `v`, lowest first.
///
/// # Conditions
/// They are in range; `len` is 0 to 63; `v` is below 2^`len`.
#[inline(always)]
pub fn set_bits(words: &mut [u64], begin: usize, v: u64, len: u8)
    requires in_range { IsInRange words.old begin len }
    requires width { len ≤ 63 }
    requires fits { v < 2 ^ len }
    ensures { bits_of words.new ≡ with_number (bits_of words.old) begin len v }
{
    put_bits(words, begin, v, len, n_lowest_bits(len));
}

/// Replaces the `len` bits from `begin` on by the `len` lowest bits of `v`, lowest first, up to 64 of them. Answers
/// false exactly where they are not in range, or `len` is above 64, and nothing is written then.
#[inline(always)]
pub fn try_set_bits_0_64(words: &mut [u64], begin: usize, v: u64, len: u8) -> bool
    ensures done { IsTrue result ↔ (len ≤ 64) × IsInRange words.old begin len }
    ensures value { IsTrue result
        → bits_of words.new ≡ with_number (bits_of words.old) begin len (v % 2 ^ len) }
    ensures kept { result ≡ false → words.new ≡ words.old }
{
    if len > 64 || !is_in_range(&*words, begin, len) {
        return false;
    }
    let mask = n_lowest_bits_0_64(len);
    put_bits(words, begin, v & mask, len, mask);
    true
}

/// Makes the `len` bits from `begin` on, which are 0 or already the number `v`, the number `v`, lowest first.
///
/// # Conditions
/// They are in range, and as a number 0 or `v`; `len` is 0 to 64; `v` is below 2^`len`.
#[inline(always)]
pub fn init_bits(words: &mut [u64], begin: usize, v: u64, len: u8)
    requires in_range { IsInRange words.old begin len }
    requires width { len ≤ 64 }
    requires fits { v < 2 ^ len }
    requires clear { IsClearOrAlready (bits_of words.old) begin len v }
    ensures { bits_of words.new ≡ with_number (bits_of words.old) begin len v }
{
    let (segment, offset) = (begin / 64, (begin % 64) as u8);
    if offset + len > 64 {
        words[segment + 1] |= v >> (64 - offset);
    }
    words[segment] |= v << offset;
}

/// Negates each bit from `begin` on at whose position `v` has a 1 bit, also past `len`: up to the end of the word, or
/// 64 bits where `len` bits cross that end.
///
/// # Conditions
/// The `len` bits from `begin` on are in range; `len` is 0 to 64.
#[inline(always)]
pub fn xor_bits(words: &mut [u64], begin: usize, v: u64, len: u8)
    requires in_range { IsInRange words.old begin len }
    requires width { len ≤ 64 }
    ensures { bits_of words.new ≡ with_flips (bits_of words.old) begin len v }
{
    let (segment, offset) = (begin / 64, (begin % 64) as u8);
    if offset + len > 64 {
        words[segment + 1] ^= v >> (64 - offset);
    }
    words[segment] ^= v << offset;
}
