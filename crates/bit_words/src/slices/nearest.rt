//! The nearest 1 bit, or 0 bit, among the first bits of words.
ghost use Rattle.std.specs.Prelude.{◌*◌, ◌≤◌, length};
ghost use Rattle.bit_lists.specs.Bits.{IsShort};
ghost use Rattle.bit_words.specs.First.{first_bits, MatchesNext, MatchesPrevious};

use crate::words;

/// The least position from `from` on, and before `len`, of a 1 bit, or of a 0 bit; `None` exactly where there is none.
///
/// # Conditions
/// There are `len` bits, in fewer than 2^58 words.
#[inline]
pub fn next_in(words: &[u64], len: usize, one: bool, from: usize) -> Option<usize>
    requires len { len ≤ 64 * length words.now }
    requires short { IsShort words.now }
    ensures { MatchesNext (first_bits words.now len) one from result }
{
    let found = if one {
        words::find_bit_one(words, from)
    } else {
        words::find_bit_zero(words, from)
    };
    match found {
        Some(position) if position < len => Some(position),
        _ => None,
    }
}

/// The greatest position up to `from`, and before `len`, of a 1 bit, or of a 0 bit; `None` exactly where there is none.
///
/// # Conditions
/// There are `len` bits, in fewer than 2^58 words.
#[inline]
pub fn previous_in(words: &[u64], len: usize, one: bool, from: usize) -> Option<usize>
    requires len { len ≤ 64 * length words.now }
    requires short { IsShort words.now }
    ensures { MatchesPrevious (first_bits words.now len) one from result }
{
    if len == 0 {
        return None;
    }
    let last = from.min(len - 1);
    if one {
        words::rfind_bit_one(words, last)
    } else {
        words::rfind_bit_zero(words, last)
    }
}
