//! Fragments of words: fragment `index` of width `s` is the `s` bits from bit `index * s` on, a product of whole
//! numbers.
ghost use Rattle.std.specs.Prelude.{◌≡◌, ◌*◌, ◌%◌, ◌^◌, ◌<◌, ◌≤◌, ◌↔◌, IsTrue, SomeIff, false};
ghost use Rattle.bit_lists.specs.Bits.{bits_of};
ghost use Rattle.bit_lists.specs.Number.{number_at, with_number, with_swapped, IsClearOrAlready, IsFragmentInRange};
ghost use Rattle.bit_lists.specs.Window.{reach_of, with_flips};

use crate::reading::{
    get_bits, get_bits_unmasked, try_get_bits, try_get_bits_0_64, try_get_bits_unmasked,
};
use crate::writing::{init_bits, set_bits, try_set_bits_0_64, xor_bits};

/// The bits from the begin of fragment `index` to the end of its word, or 64 of them where the fragment crosses that
/// end, as a number, lowest first.
///
/// # Conditions
/// The fragment is in range; `s` is 0 to 64.
#[inline(always)]
pub fn get_fragment_unmasked(words: &[u64], index: usize, s: u8) -> u64
    requires in_range { IsFragmentInRange words.now index s }
    requires width { s ≤ 64 }
    ensures { result ≡ number_at (bits_of words.now) (index * s) (reach_of (index * s) s) }
{
    get_bits_unmasked(words, index * s as usize, s)
}

/// Fragment `index` of width `s` as a number, lowest bit first.
///
/// # Conditions
/// The fragment is in range; `s` is 0 to 63.
#[inline(always)]
pub fn get_fragment(words: &[u64], index: usize, s: u8) -> u64
    requires in_range { IsFragmentInRange words.now index s }
    requires width { s ≤ 63 }
    ensures value { result ≡ number_at (bits_of words.now) (index * s) s }
    ensures bound { result < 2 ^ s }
{
    get_bits(words, index * s as usize, s)
}

/// What `get_fragment_unmasked` reads; `None` exactly where the fragment is not in range, or begins past `usize::MAX`.
///
/// # Conditions
/// `s` is 0 to 64.
#[inline(always)]
pub fn try_get_fragment_unmasked(words: &[u64], index: usize, s: u8) -> Option<u64>
    requires { s ≤ 64 }
    ensures { SomeIff result (IsFragmentInRange words.now index s)
        (number_at (bits_of words.now) (index * s) (reach_of (index * s) s)) }
{
    try_get_bits_unmasked(words, index.checked_mul(s as usize)?, s)
}

/// Fragment `index` of width `s` as a number, lowest bit first; `None` exactly where it is not in range, or begins past
/// `usize::MAX`.
///
/// # Conditions
/// `s` is 0 to 63.
#[inline(always)]
pub fn try_get_fragment(words: &[u64], index: usize, s: u8) -> Option<u64>
    requires { s ≤ 63 }
    ensures { SomeIff result (IsFragmentInRange words.now index s)
        (number_at (bits_of words.now) (index * s) s) }
{
    try_get_bits(words, index.checked_mul(s as usize)?, s)
}

/// Fragment `index` of width `s` as a number, lowest bit first, up to 64 bits; `None` exactly where it is not in range,
/// or begins past `usize::MAX`, or `s` is above 64.
#[inline(always)]
pub fn try_get_fragment_0_64(words: &[u64], index: usize, s: u8) -> Option<u64>
    ensures { SomeIff result ((s ≤ 64) × IsFragmentInRange words.now index s)
        (number_at (bits_of words.now) (index * s) s) }
{
    try_get_bits_0_64(words, index.checked_mul(s as usize)?, s)
}

/// Replaces fragment `index` of width `s` by the `s` lowest bits of `v`, lowest first, up to 64 of them. Answers false
/// exactly where it is not in range, or begins past `usize::MAX`, or `s` is above 64, and nothing is written then.
#[inline(always)]
pub fn try_set_fragment_0_64(words: &mut [u64], index: usize, v: u64, s: u8) -> bool
    ensures done { IsTrue result ↔ (s ≤ 64) × IsFragmentInRange words.old index s }
    ensures value { IsTrue result
        → bits_of words.new ≡ with_number (bits_of words.old) (index * s) s (v % 2 ^ s) }
    ensures kept { result ≡ false → words.new ≡ words.old }
{
    match index.checked_mul(s as usize) {
        Some(begin) => try_set_bits_0_64(words, begin, v, s),
        None => false,
    }
}

/// Replaces fragment `index` of width `s` by the number `v`, lowest bit first.
///
/// # Conditions
/// The fragment is in range; `s` is 0 to 63; `v` is below 2^`s`.
#[inline(always)]
pub fn set_fragment(words: &mut [u64], index: usize, v: u64, s: u8)
    requires in_range { IsFragmentInRange words.old index s }
    requires width { s ≤ 63 }
    requires fits { v < 2 ^ s }
    ensures { bits_of words.new ≡ with_number (bits_of words.old) (index * s) s v }
{
    set_bits(words, index * s as usize, v, s);
}

/// Makes fragment `index` of width `s`, whose bits are 0 or already the number `v`, the number `v`, lowest bit first.
///
/// # Conditions
/// The fragment is in range, and as a number 0 or `v`; `s` is 0 to 64; `v` is below 2^`s`.
#[inline(always)]
pub fn init_fragment(words: &mut [u64], index: usize, v: u64, s: u8)
    requires in_range { IsFragmentInRange words.old index s }
    requires width { s ≤ 64 }
    requires fits { v < 2 ^ s }
    requires clear { IsClearOrAlready (bits_of words.old) (index * s) s v }
    ensures { bits_of words.new ≡ with_number (bits_of words.old) (index * s) s v }
{
    init_bits(words, index * s as usize, v, s);
}

/// Negates each bit from the begin of fragment `index` on at whose position `v` has a 1 bit, also past the fragment: up
/// to the end of the word, or 64 bits where the fragment crosses that end.
///
/// # Conditions
/// The fragment is in range; `s` is 0 to 64.
#[inline(always)]
pub fn xor_fragment(words: &mut [u64], index: usize, v: u64, s: u8)
    requires in_range { IsFragmentInRange words.old index s }
    requires width { s ≤ 64 }
    ensures { bits_of words.new ≡ with_flips (bits_of words.old) (index * s) s v }
{
    xor_bits(words, index * s as usize, v, s);
}

/// Exchanges fragments `i` and `j` of width `s`; nothing changes if `i` is `j`.
///
/// # Conditions
/// Both fragments are in range; `s` is 0 to 63.
#[inline(always)]
pub fn swap_fragments(words: &mut [u64], i: usize, j: usize, s: u8)
    requires first { IsFragmentInRange words.old i s }
    requires second { IsFragmentInRange words.old j s }
    requires width { s ≤ 63 }
    ensures swapped { bits_of words.new ≡ with_swapped (bits_of words.old) i j s }
    ensures kept { i ≡ j → words.new ≡ words.old }
{
    let first = get_fragment(words, i, s);
    let second = get_fragment(words, j, s);
    set_fragment(words, i, second, s);
    set_fragment(words, j, first, s);
}
