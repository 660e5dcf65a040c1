//! Calls that take a position, a begin or an index by reference, and leave there the next one.
ghost use Rattle.std.specs.Prelude.{◌≡◌, ◌+◌, ◌*◌, ◌^◌, ◌<◌, ◌≤◌, length, if◌then◌else◌};
ghost use Rattle.bit_lists.specs.Bits.{bits_of, item, IsShort};
ghost use Rattle.bit_lists.specs.Number.{number_at, with_number, IsClearOrAlready, IsFalseOrAlready, IsInRange};
ghost use Rattle.bit_lists.specs.Number.{IsFragmentInRange};
ghost use Rattle.bit_lists.specs.Window.{with_flips};

use crate::fragments::{get_fragment, init_fragment, set_fragment, xor_fragment};
use crate::reading::{get_bit, get_bits};
use crate::writing::{init_bit, init_bits, set_bit_to, set_bits, xor_bits};

/// The bit at `position`, which moves on by one.
///
/// # Conditions
/// The position is inside; there are fewer than 2^58 words.
#[inline(always)]
pub fn get_successive_bit(words: &[u64], position: &mut usize) -> bool
    requires inside { position.old < 64 * length words.now }
    requires short { IsShort words.now }
    ensures bit { result ≡ item (bits_of words.now) position.old }
    ensures advances { position.new ≡ position.old + 1 }
{
    let bit = get_bit(words, *position);
    *position += 1;
    bit
}

/// The `len` bits from `begin` on as a number, lowest first; `begin` moves on by `len`.
///
/// # Conditions
/// They are in range; there are fewer than 2^58 words; `len` is 0 to 63.
#[inline(always)]
pub fn get_successive_bits(words: &[u64], begin: &mut usize, len: u8) -> u64
    requires in_range { IsInRange words.now begin.old len }
    requires short { IsShort words.now }
    requires width { len ≤ 63 }
    ensures value { result ≡ number_at (bits_of words.now) begin.old len }
    ensures bound { result < 2 ^ len }
    ensures advances { begin.new ≡ begin.old + len }
{
    let bits = get_bits(words, *begin, len);
    *begin += len as usize;
    bits
}

/// Fragment `index` of width `s` as a number, lowest bit first; `index` moves on by one.
///
/// # Conditions
/// The fragment is in range; there are fewer than 2^58 words; `index` is below `usize::MAX`; `s` is 0 to 63.
#[inline(always)]
pub fn get_successive_fragment(words: &[u64], index: &mut usize, s: u8) -> u64
    requires in_range { IsFragmentInRange words.now index.old s }
    requires short { IsShort words.now }
    requires room { index.old < usize.MAX }
    requires width { s ≤ 63 }
    ensures value { result ≡ number_at (bits_of words.now) (index.old * s) s }
    ensures bound { result < 2 ^ s }
    ensures advances { index.new ≡ index.old + 1 }
{
    let fragment = get_fragment(words, *index, s);
    *index += 1;
    fragment
}

/// Makes the bit at `position` equal to `value`; `position` moves on by one.
///
/// # Conditions
/// The position is inside; there are fewer than 2^58 words.
#[inline(always)]
pub fn set_successive_bit_to(words: &mut [u64], position: &mut usize, value: bool)
    requires inside { position.old < 64 * length words.old }
    requires short { IsShort words.old }
    ensures after { bits_of words.new
        ≡ with_number (bits_of words.old) position.old 1 (if value then 1 else 0) }
    ensures advances { position.new ≡ position.old + 1 }
{
    set_bit_to(words, *position, value);
    *position += 1;
}

/// Makes the bit at `position`, which is 0 or already `value`, equal to `value`; `position` moves on by one.
///
/// # Conditions
/// The position is inside; its bit is 0 or already `value`; there are fewer than 2^58 words.
#[inline(always)]
pub fn init_successive_bit(words: &mut [u64], position: &mut usize, value: bool)
    requires inside { position.old < 64 * length words.old }
    requires clear { IsFalseOrAlready (bits_of words.old) position.old value }
    requires short { IsShort words.old }
    ensures after { bits_of words.new
        ≡ with_number (bits_of words.old) position.old 1 (if value then 1 else 0) }
    ensures advances { position.new ≡ position.old + 1 }
{
    init_bit(words, *position, value);
    *position += 1;
}

/// Replaces the `len` bits from `begin` on by the number `v`, lowest first; `begin` moves on by `len`.
///
/// # Conditions
/// They are in range; there are fewer than 2^58 words; `len` is 0 to 63; `v` is below 2^`len`.
#[inline(always)]
pub fn set_successive_bits(words: &mut [u64], begin: &mut usize, v: u64, len: u8)
    requires in_range { IsInRange words.old begin.old len }
    requires short { IsShort words.old }
    requires width { len ≤ 63 }
    requires fits { v < 2 ^ len }
    ensures after { bits_of words.new ≡ with_number (bits_of words.old) begin.old len v }
    ensures advances { begin.new ≡ begin.old + len }
{
    set_bits(words, *begin, v, len);
    *begin += len as usize;
}

/// Makes the `len` bits from `begin` on, which are 0 or already the number `v`, the number `v`, lowest first; `begin`
/// moves on by `len`.
///
/// # Conditions
/// They are in range, and as a number 0 or `v`; there are fewer than 2^58 words; `len` is 0 to 64; `v` is below
/// 2^`len`.
#[inline(always)]
pub fn init_successive_bits(words: &mut [u64], begin: &mut usize, v: u64, len: u8)
    requires in_range { IsInRange words.old begin.old len }
    requires short { IsShort words.old }
    requires width { len ≤ 64 }
    requires fits { v < 2 ^ len }
    requires clear { IsClearOrAlready (bits_of words.old) begin.old len v }
    ensures after { bits_of words.new ≡ with_number (bits_of words.old) begin.old len v }
    ensures advances { begin.new ≡ begin.old + len }
{
    init_bits(words, *begin, v, len);
    *begin += len as usize;
}

/// Negates bits from `begin` on as `xor_bits` does; `begin` moves on by `len`.
///
/// # Conditions
/// The `len` bits from `begin` on are in range; there are fewer than 2^58 words; `len` is 0 to 64.
#[inline(always)]
pub fn xor_successive_bits(words: &mut [u64], begin: &mut usize, v: u64, len: u8)
    requires in_range { IsInRange words.old begin.old len }
    requires short { IsShort words.old }
    requires width { len ≤ 64 }
    ensures after { bits_of words.new ≡ with_flips (bits_of words.old) begin.old len v }
    ensures advances { begin.new ≡ begin.old + len }
{
    xor_bits(words, *begin, v, len);
    *begin += len as usize;
}

/// Replaces fragment `index` of width `s` by the number `v`, lowest bit first; `index` moves on by one.
///
/// # Conditions
/// The fragment is in range; there are fewer than 2^58 words; `index` is below `usize::MAX`; `s` is 0 to 63; `v` is
/// below 2^`s`.
#[inline(always)]
pub fn set_successive_fragment(words: &mut [u64], index: &mut usize, v: u64, s: u8)
    requires in_range { IsFragmentInRange words.old index.old s }
    requires short { IsShort words.old }
    requires room { index.old < usize.MAX }
    requires width { s ≤ 63 }
    requires fits { v < 2 ^ s }
    ensures after { bits_of words.new ≡ with_number (bits_of words.old) (index.old * s) s v }
    ensures advances { index.new ≡ index.old + 1 }
{
    set_fragment(words, *index, v, s);
    *index += 1;
}

/// Makes fragment `index` of width `s`, whose bits are 0 or already the number `v`, the number `v`, lowest bit first;
/// `index` moves on by one.
///
/// # Conditions
/// The fragment is in range, and as a number 0 or `v`; there are fewer than 2^58 words; `index` is below `usize::MAX`;
/// `s` is 0 to 64; `v` is below 2^`s`.
#[inline(always)]
pub fn init_successive_fragment(words: &mut [u64], index: &mut usize, v: u64, s: u8)
    requires in_range { IsFragmentInRange words.old index.old s }
    requires short { IsShort words.old }
    requires room { index.old < usize.MAX }
    requires width { s ≤ 64 }
    requires fits { v < 2 ^ s }
    requires clear { IsClearOrAlready (bits_of words.old) (index.old * s) s v }
    ensures after { bits_of words.new ≡ with_number (bits_of words.old) (index.old * s) s v }
    ensures advances { index.new ≡ index.old + 1 }
{
    init_fragment(words, *index, v, s);
    *index += 1;
}

/// Negates bits from the begin of fragment `index` on as `xor_fragment` does; `index` moves on by one.
///
/// # Conditions
/// The fragment is in range; there are fewer than 2^58 words; `index` is below `usize::MAX`; `s` is 0 to 64.
#[inline(always)]
pub fn xor_successive_fragment(words: &mut [u64], index: &mut usize, v: u64, s: u8)
    requires in_range { IsFragmentInRange words.old index.old s }
    requires short { IsShort words.old }
    requires room { index.old < usize.MAX }
    requires width { s ≤ 64 }
    ensures after { bits_of words.new ≡ with_flips (bits_of words.old) (index.old * s) s v }
    ensures advances { index.new ≡ index.old + 1 }
{
    xor_fragment(words, *index, v, s);
    *index += 1;
}
