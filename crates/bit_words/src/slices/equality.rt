//! Ranges of bits that are compared.
ghost use Rattle.std.specs.Prelude.{◌+◌, ◌*◌, ◌<◌, ◌≤◌, ◌^◌, ◌↔◌, IsTrue, length};
ghost use Rattle.bit_lists.specs.Bits.{bits_of};
ghost use Rattle.bit_words.specs.Copied.{AreSame};

use crate::words;

/// Whether two ranges of fewer than 64 bits have the same bits.
#[inline(always)]
fn are_equal_bits(a: &[u64], a_begin: usize, b: &[u64], b_begin: usize, width: u8) -> bool
    requires a_inside { a_begin + width ≤ 64 * length a.now }
    requires b_inside { b_begin + width ≤ 64 * length b.now }
    requires width { width ≤ 63 }
    ensures { IsTrue result
        ↔ AreSame (bits_of a.now) a_begin (bits_of b.now) b_begin width }
{
    width == 0 || words::get_bits(a, a_begin, width) == words::get_bits(b, b_begin, width)
}

/// Whether two ranges of 64 bits have the same bits.
#[inline(always)]
fn are_equal_words(a: &[u64], a_begin: usize, b: &[u64], b_begin: usize) -> bool
    requires a_inside { a_begin + 64 ≤ 64 * length a.now }
    requires b_inside { b_begin + 64 ≤ 64 * length b.now }
    ensures { IsTrue result ↔ AreSame (bits_of a.now) a_begin (bits_of b.now) b_begin 64 }
{
    words::get_bits_unmasked(a, a_begin, 64) == words::get_bits_unmasked(b, b_begin, 64)
}

/// Whether the `count` bits of `a` from `a_begin` on equal the bits of `b` from `b_begin` on.
///
/// # Conditions
/// Both ranges are inside their words, and end at positions that a `usize` holds.
/// # Cost
/// For each 64 bits two reads in each of both, up to the first that differ.
pub fn is_equal_range(a: &[u64], a_begin: usize, b: &[u64], b_begin: usize, count: usize) -> bool
    requires a_inside { a_begin + count ≤ 64 * length a.now }
    requires b_inside { b_begin + count ≤ 64 * length b.now }
    requires a_fits { a_begin + count < 2 ^ 64 }
    requires b_fits { b_begin + count < 2 ^ 64 }
    ensures { IsTrue result
        ↔ AreSame (bits_of a.now) a_begin (bits_of b.now) b_begin count }
{
    let whole = count / 64;
    for k in 0..whole {
        if !are_equal_words(a, a_begin + 64 * k, b, b_begin + 64 * k) {
            return false;
        }
    }
    let done = 64 * whole;
    are_equal_bits(a, a_begin + done, b, b_begin + done, (count - done) as u8)
}
