//! Numbers among the first bits of words.
ghost use Rattle.std.specs.Prelude.{◌≡◌, ◌+◌, ◌*◌, ◌≤◌, ◌↔◌, IsTrue, SomeIff, length};
ghost use Rattle.bit_lists.specs.Number.{number_at};
ghost use Rattle.bit_words.specs.First.{first_bits};

use crate::words;

/// Whether the `width` bits from `begin` on are among the first `len`, and at most 64.
#[inline(always)]
pub(crate) fn is_inside(len: usize, begin: usize, width: u32) -> bool
    ensures { IsTrue result ↔ (width ≤ 64) × (begin + width ≤ len) }
{
    width <= 64 && begin <= len && len - begin >= width as usize
}

/// The `width` bits from `begin` on as a number, lowest first; `None` exactly where they are not all among the first
/// `len`, or `width` is above 64.
///
/// # Conditions
/// There are `len` bits.
#[inline(always)]
pub fn number_in(words: &[u64], len: usize, begin: usize, width: u32) -> Option<u64>
    requires { len ≤ 64 * length words.now }
    ensures { SomeIff result ((width ≤ 64) × (begin + width ≤ len))
        (number_at (first_bits words.now len) begin width) }
{
    if !is_inside(len, begin, width) {
        return None;
    }
    if width == 0 {
        return Some(0);
    }
    words::try_get_bits_0_64(words, begin, width as u8)
}

/// Number `index` of an array of numbers of `width` bits, lowest bit first; `None` exactly where it is not among the
/// first `len` bits, or `width` is above 64.
///
/// # Conditions
/// There are `len` bits.
#[inline(always)]
pub fn fragment_in(words: &[u64], len: usize, index: usize, width: u32) -> Option<u64>
    requires { len ≤ 64 * length words.now }
    ensures { SomeIff result ((width ≤ 64) × (index * width + width ≤ len))
        (number_at (first_bits words.now len) (index * width) width) }
{
    number_in(words, len, index.checked_mul(width as usize)?, width)
}
