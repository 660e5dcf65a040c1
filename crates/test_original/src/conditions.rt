//! The conditions of our calls, tested when the program runs.
ghost use Rattle.std.specs.Prelude.{◌≡◌, ◌^◌, ◌<◌, ◌≤◌, ◌↔◌, IsTrue};
ghost use Rattle.bitm.specs.Bits.{bits_of, IsShort};
ghost use Rattle.bitm.specs.Number.{number_at, IsInRange, IsFragmentInRange};

use bitm::words;

/// Whether there is a bit at `begin` and none of the `len` bits from there on is past the end.
pub fn is_in_range(words: &[u64], begin: usize, len: u8) -> bool
    requires { IsShort words.now }
    ensures { IsTrue result ↔ IsInRange words.now begin len }
{
    let end = 64 * words.len();
    begin < end && len as usize <= end - begin
}

/// Whether fragment `index` of width `len` is in range.
pub fn is_fragment_in_range(words: &[u64], index: usize, len: u8) -> bool
    requires { IsShort words.now }
    ensures { IsTrue result ↔ IsFragmentInRange words.now index len }
{
    match index.checked_mul(len as usize) {
        Some(begin) => is_in_range(words, begin, len),
        None => false,
    }
}

/// Whether a number has at most `len` binary digits.
pub fn fits(number: u64, len: u8) -> bool
    requires { len ≤ 64 }
    ensures { IsTrue result ↔ (number < 2 ^ len) }
{
    len == 64 || number >> len == 0
}

/// Whether all of the `len` bits from `begin` on are zeros.
pub fn is_clear(words: &[u64], begin: usize, len: u8) -> bool
    requires in_range { IsInRange words.now begin len }
    requires width { len ≤ 64 }
    ensures { IsTrue result ↔ (number_at (bits_of words.now) begin len ≡ 0) }
{
    if len == 64 {
        words::get_bits_unmasked(words, begin, len) == 0
    } else {
        words::get_bits(words, begin, len) == 0
    }
}
