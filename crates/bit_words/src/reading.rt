//! Reads of bits of words.
ghost use Rattle.std.specs.Prelude.{◌≡◌, ◌+◌, ◌-◌, ◌*◌, ◌/◌, ◌%◌, ◌^◌, ◌<◌, ◌≤◌, ◌↔◌, ℕ, IsTrue, MatchOption, bit_and};
ghost use Rattle.std.specs.Prelude.{length, SomeIff};
ghost use Rattle.bit_lists.specs.Bits.{bits_of, item};
ghost use Rattle.bit_lists.specs.Number.{number_at, IsInRange};
ghost use Rattle.bit_lists.specs.Window.{reach_of};

use crate::masks::{n_lowest_bits, n_lowest_bits_0_64};
use tuning::WORDS_READ_IN_PAIRS;

/// The bit at `position`.
///
/// # Conditions
/// The position is inside.
#[inline(always)]
#[tactic(auto, using(bit_lists::proofs::lemmas::BitsLemmas::item_tested))]
pub fn get_bit(words: &[u64], position: usize) -> bool
    requires { position < 64 * length words.now }
    ensures { result ≡ item (bits_of words.now) position }
{
    words[position / 64] & (1u64 << (position % 64)) != 0
}

/// The bit at `position`; `None` exactly where that position is outside.
#[inline(always)]
pub fn try_get_bit(words: &[u64], position: usize) -> Option<bool>
    ensures { SomeIff result (position < 64 * length words.now) (item (bits_of words.now) position) }
{
    if position / 64 < words.len() {
        Some(get_bit(words, position))
    } else {
        None
    }
}

/// The bits from `begin` to the end of the word, or 64 of them where `len` bits cross that end, as a number, lowest
/// first.
///
/// # Conditions
/// The `len` bits from `begin` on are in range; `len` is 0 to 64.
#[inline(always)]
pub fn get_bits_unmasked(words: &[u64], begin: usize, len: u8) -> u64
    requires in_range { IsInRange words.now begin len }
    requires width { len ≤ 64 }
    ensures { result ≡ number_at (bits_of words.now) begin (reach_of begin len) }
{
    let (segment, offset) = (begin / 64, (begin % 64) as u8);
    let low = words[segment] >> offset;
    if offset + len > 64 {
        low | (words[segment + 1] << (64 - offset))
    } else {
        low
    }
}

/// The word that has the last of the `len` bits from `begin` on, or the word of bit `begin` where there are none. There
/// is such a word exactly where the bits are in range.
#[inline(always)]
fn last_word(begin: usize, len: u8) -> usize
    requires { len ≤ 64 }
    ensures within { begin % 64 + len ≤ 64 → result ≡ begin / 64 }
    ensures across { 64 < begin % 64 + len → result ≡ begin / 64 + 1 }
{
    begin / 64 + ((begin % 64) as u8 + len > 64) as usize
}

/// A number whose lowest bits are the bits from `begin` on, also from word `last`. No test is made whether they cross
/// into that word: a processor cannot guess it. Where they do not, `last` may be the word of bit `begin`.
#[inline(always)]
fn joined_bits(words: &[u64], begin: usize, last: usize) -> u64
    requires first { begin / 64 < length words.now }
    requires last { last < length words.now }
    ensures { (n : ℕ) → n ≤ 64 → IsInRange words.now begin n → (64 < begin % 64 + n → last ≡ begin / 64 + 1)
        → bit_and result (2 ^ n - 1) ≡ number_at (bits_of words.now) begin n }
{
    let both = (words[begin / 64] as u128) | ((words[last] as u128) << 64);
    (both >> (begin % 64) & u64::MAX as u128) as u64
}

/// A number whose lowest bits are the `len` bits from `begin` on.
#[inline(always)]
fn wide_bits(words: &[u64], begin: usize, len: u8) -> u64
    requires in_range { IsInRange words.now begin len }
    requires width { len ≤ 64 }
    ensures { bit_and result (2 ^ len - 1) ≡ number_at (bits_of words.now) begin len }
{
    if words.len() > WORDS_READ_IN_PAIRS {
        get_bits_unmasked(words, begin, len)
    } else {
        joined_bits(words, begin, last_word(begin, len))
    }
}

/// A number whose lowest bits are the `len` bits from `begin` on; `None` exactly where these are not in range.
#[inline(always)]
fn try_wide_bits(words: &[u64], begin: usize, len: u8) -> Option<u64>
    requires { len ≤ 64 }
    ensures { MatchOption result (IsInRange words.now begin len → ⊥) (λ wide. IsInRange words.now begin len
        × (bit_and wide (2 ^ len - 1) ≡ number_at (bits_of words.now) begin len)) }
{
    if words.len() > WORDS_READ_IN_PAIRS {
        return try_get_bits_unmasked(words, begin, len);
    }
    let last = last_word(begin, len);
    if last < words.len() {
        Some(joined_bits(words, begin, last))
    } else {
        None
    }
}

/// The `len` bits from `begin` on as a number, lowest first.
///
/// # Conditions
/// They are in range; `len` is 0 to 63.
#[inline(always)]
pub fn get_bits(words: &[u64], begin: usize, len: u8) -> u64
    requires in_range { IsInRange words.now begin len }
    requires width { len ≤ 63 }
    ensures value { result ≡ number_at (bits_of words.now) begin len }
    ensures bound { result < 2 ^ len }
{
    wide_bits(words, begin, len) & n_lowest_bits(len)
}

/// What `get_bits_unmasked` reads; `None` exactly where the `len` bits from `begin` on are not in range.
///
/// # Conditions
/// `len` is 0 to 64.
#[inline(always)]
pub fn try_get_bits_unmasked(words: &[u64], begin: usize, len: u8) -> Option<u64>
    requires { len ≤ 64 }
    ensures { SomeIff result (IsInRange words.now begin len)
        (number_at (bits_of words.now) begin (reach_of begin len)) }
{
    let (segment, offset) = (begin / 64, (begin % 64) as u8);
    if segment >= words.len() {
        return None;
    }
    let low = words[segment] >> offset;
    if offset + len <= 64 {
        return Some(low);
    }
    // Only a range that crosses the end of the word reads the next word.
    if segment + 1 < words.len() {
        Some(low | (words[segment + 1] << (64 - offset)))
    } else {
        None
    }
}

/// The `len` bits from `begin` on as a number, lowest first; `None` exactly where they are not in range.
///
/// # Conditions
/// `len` is 0 to 63.
#[inline(always)]
pub fn try_get_bits(words: &[u64], begin: usize, len: u8) -> Option<u64>
    requires { len ≤ 63 }
    ensures { SomeIff result (IsInRange words.now begin len)
        (number_at (bits_of words.now) begin len) }
{
    let wide = try_wide_bits(words, begin, len)?;
    Some(wide & n_lowest_bits(len))
}

/// Whether there is a bit at `begin`, and there are `len` bits from there on.
///
/// # Conditions
/// `len` is 0 to 64.
#[inline(always)]
pub(crate) fn is_in_range(words: &[u64], begin: usize, len: u8) -> bool
    requires { len ≤ 64 }
    ensures { IsTrue result ↔ IsInRange words.now begin len }
{
    let (segment, offset) = (begin / 64, (begin % 64) as u8);
    if offset + len <= 64 {
        return segment < words.len();
    }
    segment + 1 < words.len()
}

/// The `len` bits from `begin` on as a number, lowest first, up to 64 of them; `None` exactly where they are not in
/// range, or `len` is above 64.
#[inline(always)]
pub fn try_get_bits_0_64(words: &[u64], begin: usize, len: u8) -> Option<u64>
    ensures { SomeIff result ((len ≤ 64) × IsInRange words.now begin len)
        (number_at (bits_of words.now) begin len) }
{
    if len > 64 {
        return None;
    }
    let wide = try_wide_bits(words, begin, len)?;
    Some(wide & n_lowest_bits_0_64(len))
}
