//! The nearest one of words, found word by word.
ghost use Rattle.std.specs.Prelude.{◌≡◌, ℕ, ◌*◌, ◌<◌, ◌≤◌, length, true, false};
ghost use Rattle.bit_lists.specs.Bits.{bits_of, item, IsShort};
ghost use Rattle.bit_lists.specs.Count.{HasOneFrom, HasOneTo, IsFirstOneFrom, IsFirstOneOrEnd, IsLastOneTo};
ghost use Rattle.bit_lists.specs.Count.{MatchesFirstOne};

use crate::masks::{n_lowest_bits, n_lowest_bits_1_64};

/// How many 0 bits there are before the first 1 bit: its position, or the number of bits if there is no 1 bit.
///
/// # Conditions
/// There are fewer than 2^58 words.
#[inline]
pub fn trailing_zero_bits(words: &[u64]) -> usize
    requires { IsShort words.now }
    ensures { IsFirstOneOrEnd (bits_of words.now) result }
{
    for (word_index, word) in words.iter().enumerate() {
        if *word != 0 {
            return word_index * 64 + word.trailing_zeros() as usize;
        }
    }
    words.len() * 64
}

/// The position of the first 1 bit at or after `start`; `None` exactly where there is none, also where `start` is
/// outside.
///
/// # Conditions
/// There are fewer than 2^58 words.
#[inline]
pub fn find_bit_one(words: &[u64], start: usize) -> Option<usize>
    requires { IsShort words.now }
    ensures { MatchesFirstOne (bits_of words.now) start result }
{
    let mut word_index = start / 64;
    let mut rest = *words.get(word_index)? & !n_lowest_bits((start % 64) as u8);
    while rest == 0 {
        word_index += 1;
        rest = *words.get(word_index)?;
    }
    Some(word_index * 64 + rest.trailing_zeros() as usize)
}

/// The position of the first 1 bit at or after `start`.
///
/// # Conditions
/// There is a 1 bit at `start` or after it, and there are fewer than 2^58 words.
#[inline]
pub fn find_bit_one_unchecked(words: &[u64], start: usize) -> usize
    requires exists { HasOneFrom (bits_of words.now) start }
    requires short { IsShort words.now }
    ensures { IsFirstOneFrom (bits_of words.now) start result }
{
    let mut word_index = start / 64;
    let mut rest = words[word_index] & !n_lowest_bits((start % 64) as u8);
    while rest == 0 {
        word_index += 1;
        rest = words[word_index];
    }
    word_index * 64 + rest.trailing_zeros() as usize
}

/// The position of the last 1 bit up to `start`.
///
/// # Conditions
/// The position `start` is inside, there is a 1 bit at `start` or before it, and there are fewer than 2^58 words.
#[inline]
pub fn rfind_bit_one_unchecked(words: &[u64], start: usize) -> usize
    requires inside { start < 64 * length words.now }
    requires exists { HasOneTo (bits_of words.now) start }
    requires short { IsShort words.now }
    ensures { IsLastOneTo (bits_of words.now) start result }
{
    let mut word_index = start / 64;
    let mut rest = words[word_index] & n_lowest_bits_1_64((start % 64) as u8 + 1);
    while rest == 0 {
        word_index -= 1;
        rest = words[word_index];
    }
    word_index * 64 + (63 - rest.leading_zeros() as usize)
}
