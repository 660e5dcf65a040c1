//! How many of the first bits of words are 1 bits, or 0 bits.
ghost use Rattle.std.specs.Prelude.{◌≡◌, ◌-◌, ◌*◌, ◌≤◌, length};
ghost use Rattle.bit_lists.specs.Bits.{IsShort};
ghost use Rattle.bit_lists.specs.Count.{count_before, count_of};
ghost use Rattle.bit_words.specs.First.{first_bits};

use crate::words;

/// How many of the bits from `from` on and before `to` are 1 bits, or 0 bits.
///
/// # Conditions
/// The range is not reversed and inside the first `len` bits; there are `len` bits, in fewer than 2^58 words.
#[inline]
pub fn count_range_in(words: &[u64], len: usize, one: bool, from: usize, to: usize) -> usize
    requires order { from ≤ to }
    requires inside { to ≤ len }
    requires len { len ≤ 64 * length words.now }
    requires short { IsShort words.now }
    ensures { let b = first_bits words.now len in
        result ≡ count_before b one to - count_before b one from }
{
    let ones = words::count_range(words, from, to);
    if one { ones } else { to - from - ones }
}

/// How many of the first `len` bits are 1 bits, or 0 bits.
///
/// # Conditions
/// There are `len` bits, in fewer than 2^58 words.
#[inline]
pub fn count_in(words: &[u64], len: usize, one: bool) -> usize
    requires len { len ≤ 64 * length words.now }
    requires short { IsShort words.now }
    ensures { result ≡ count_of (first_bits words.now len) one }
{
    count_range_in(words, len, one, 0, len)
}
