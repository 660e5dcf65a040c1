//! The first 0 bit from a position on, and the last 1 bit and the last 0 bit up to a position, found word by word.
ghost use Rattle.std.specs.Prelude.{ℕ, ◌*◌, ◌<◌, length, true, false};
ghost use Rattle.bit_lists.specs.Bits.{bits_of, IsShort};
ghost use Rattle.bit_lists.specs.Count.{MatchesFirstZero, MatchesLast};

use crate::masks::{n_lowest_bits, n_lowest_bits_1_64};

/// The position of the first 0 bit at or after `start`; `None` exactly where there is none, also where `start` is
/// outside.
///
/// # Conditions
/// There are fewer than 2^58 words.
#[inline]
pub fn find_bit_zero(words: &[u64], start: usize) -> Option<usize>
    requires { IsShort words.now }
    ensures { MatchesFirstZero (bits_of words.now) start result }
{
    let mut word_index = start / 64;
    let mut rest = !*words.get(word_index)? & !n_lowest_bits((start % 64) as u8);
    while rest == 0 {
        word_index += 1;
        rest = !*words.get(word_index)?;
    }
    Some(word_index * 64 + rest.trailing_zeros() as usize)
}

/// The position of the last 1 bit up to `start`; `None` exactly where there is none.
///
/// # Conditions
/// The position `start` is inside, and there are fewer than 2^58 words.
#[inline]
pub fn rfind_bit_one(words: &[u64], start: usize) -> Option<usize>
    requires inside { start < 64 * length words.now }
    requires short { IsShort words.now }
    ensures { MatchesLast (bits_of words.now) true start result }
{
    let mut word_index = start / 64;
    let mut rest = words[word_index] & n_lowest_bits_1_64((start % 64) as u8 + 1);
    while rest == 0 {
        if word_index == 0 {
            return None;
        }
        word_index -= 1;
        rest = words[word_index];
    }
    Some(word_index * 64 + (63 - rest.leading_zeros() as usize))
}

/// The position of the last 0 bit up to `start`; `None` exactly where there is none.
///
/// # Conditions
/// The position `start` is inside, and there are fewer than 2^58 words.
#[inline]
pub fn rfind_bit_zero(words: &[u64], start: usize) -> Option<usize>
    requires inside { start < 64 * length words.now }
    requires short { IsShort words.now }
    ensures { MatchesLast (bits_of words.now) false start result }
{
    let mut word_index = start / 64;
    let mut rest = !words[word_index] & n_lowest_bits_1_64((start % 64) as u8 + 1);
    while rest == 0 {
        if word_index == 0 {
            return None;
        }
        word_index -= 1;
        rest = !words[word_index];
    }
    Some(word_index * 64 + (63 - rest.leading_zeros() as usize))
}
