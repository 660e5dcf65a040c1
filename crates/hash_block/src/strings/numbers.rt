//! Up to eight bytes of a string as a number, the lowest first.
ghost use Rattle.std.specs.Prelude.{◌≡◌, ◌+◌, ◌*◌, ◌%◌, ◌^◌, ◌<◌, ◌≤◌, length};
ghost use Rattle.hash_block.specs.Bytes.{bytes_from, stored_from};
ghost use Rattle.hash_block.specs.SipHash.{number_from};

use crate::strings::bytes::byte_at;

/// The eight bytes from byte `at` on of what stands in a list from `begin` on.
#[inline(always)]
pub(crate) fn word_from(bytes: &[u8], begin: usize, at: usize) -> u64
    requires { begin + (at + 8) ≤ length bytes.now }
    ensures { result ≡ number_from (bytes_from bytes.now begin) at 8 }
{
    u64::from_le_bytes([
        bytes[begin + at],
        bytes[begin + (at + 1)],
        bytes[begin + (at + 2)],
        bytes[begin + (at + 3)],
        bytes[begin + (at + 4)],
        bytes[begin + (at + 5)],
        bytes[begin + (at + 6)],
        bytes[begin + (at + 7)],
    ])
}

/// A number of `j` bytes with one more.
#[inline(always)]
fn with_byte(number: u64, byte: u64, j: usize) -> u64
    requires position { j < 8 }
    requires number { number < 256 ^ j }
    requires byte { byte < 256 }
    ensures value { result ≡ number + byte * 256 ^ j }
    ensures bound { result < 256 ^ (j + 1) }
{
    number + (byte << (8 * j))
}

/// The `n` bytes from byte `at` on of what stands in a list from `begin` on.
#[inline(always)]
pub(crate) fn rest_from(bytes: &[u8], begin: usize, at: usize, n: usize) -> u64
    requires few { n < 8 }
    requires inside { begin + (at + n) ≤ length bytes.now }
    ensures value { result ≡ number_from (bytes_from bytes.now begin) at n }
    ensures bound { result < 256 ^ n }
{
    let mut number = 0;
    for j in 0..n {
        number = with_byte(number, bytes[begin + (at + j)] as u64, j);
    }
    number
}

/// The `n` bytes from byte `at` on of what stands in words from `begin` on.
pub(crate) fn stored_number(words: &[u64], begin: usize, at: usize, n: usize) -> u64
    requires few { n ≤ 8 }
    requires short { length words.now < 2 ^ 58 }
    requires inside { begin + (at + n) ≤ 8 * length words.now }
    ensures value { result ≡ number_from (stored_from words.now begin) at n }
    ensures bound { result < 256 ^ n }
{
    let mut number = 0;
    for j in 0..n {
        number = with_byte(number, byte_at(words, begin + (at + j)), j);
    }
    number
}

/// The last word of a string: the bytes that are left, and above them how many bytes the string has, modulo 256.
#[inline(always)]
pub(crate) fn last_word(rest: u64, len: usize) -> u64
    requires { rest < 2 ^ 56 }
    ensures { result ≡ rest + len % 256 * 2 ^ 56 }
{
    rest + ((len as u64 % 256) << 56)
}
