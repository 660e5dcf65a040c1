//! The bits of a number.
ghost use Rattle.std.specs.Prelude.{◌≡◌, ◌<◌, ◌≤◌, ◌*◌, ◌/◌, ◌^◌, ◌↔◌, All, IsTrue};
ghost use Rattle.bit_lists.specs.Bits.{digit};
ghost use Rattle.matrix_levels.specs.Levels.{known_of};

use bit_words::bits_to_store;

/// Whether bit `position` of the number is 1.
///
/// # Conditions
/// The bit's index is below 64.
///
/// ```
/// digit_of(5, 2);   // true
/// ```
#[inline(always)]
pub fn digit_of(number: u64, position: u8) -> bool
    requires { position < 64 }
    ensures { result ≡ digit number position }
{
    (number >> position) & 1 == 1
}

/// Whether the number has no more than `width` bits.
///
/// # Conditions
/// The width is at most 64.
///
/// ```
/// fits(5, 3);   // true
/// ```
#[inline(always)]
pub fn fits(number: u64, width: u8) -> bool
    requires { width ≤ 64 }
    ensures { IsTrue result ↔ (number < 2 ^ width) }
{
    width == 64 || number >> width == 0
}

/// The number without its lowest `count` bits.
#[inline(always)]
pub fn without_lowest(number: u64, count: u8) -> u64
    requires { count ≤ 64 }
    ensures { result ≡ number / 2 ^ count }
{
    if count < 64 { number >> count } else { 0 }
}

/// How many of the `width` bits of `len` numbers are to be known from the table of starts, so that its words have no
/// more than a 64th of all bits.
///
/// # Conditions
/// The width is at most 64, and all bits together are fewer than 2^63.
pub fn known_for(len: usize, width: u8) -> u8
    requires most { width ≤ 64 }
    requires short { width * len < 2 ^ 63 }
    ensures known { result ≡ known_of len width }
    ensures most { result ≤ width }
    ensures few { result < 64 }
{
    let words = len * width as usize / 4096;
    bits_to_store(words as u64).saturating_sub(1).min(width)
}

/// Whether no number has more than `width` bits: what `WaveletMatrix::build` requires of its numbers.
///
/// # Conditions
/// The width is at most 64.
pub fn all_fit(numbers: &[u64], width: u8) -> bool
    requires { width ≤ 64 }
    ensures { IsTrue result ↔ All (λ x. x < 2 ^ width) numbers.now }
{
    for number in numbers {
        if !fits(*number, width) {
            return false;
        }
    }
    true
}
