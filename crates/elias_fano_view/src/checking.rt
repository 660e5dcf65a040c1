//! Whether parts form a sequence.
ghost use Rattle.std.specs.Prelude.{◌≡◌, ◌-◌, ◌*◌, ◌^◌, ◌<◌, ◌≤◌, ◌↔◌, ℕ, IsTrue, List, length, MatchOption, SomeIff};
ghost use Rattle.std.specs.Int.{div_ceil};
ghost use Rattle.bit_lists.specs.Bits.{bits_of, IsShort};
ghost use Rattle.bit_lists.specs.Count.{ones_of};
ghost use Rattle.elias_fano.specs.Low.{joined_item, unread, HasFragments, ReadsFragments};
ghost use Rattle.elias_fano.specs.Parts.{ArePartsOf, HasFragment};
ghost use Rattle.elias_fano_view.specs.Checks.{AreFirstNumbers};

use crate::rising::rise_among;
use crate::sizes::Sizes;
use bit_words::words;
use elias_fano::LowDigits;
use elias_fano::building::join_digits;

/// Number `at`, whose 1 bit is at position `position`, if it is below 2^64.
#[inline(always)]
fn number_of(position: usize, low: &mut LowDigits<'_>, at: usize) -> Option<u64>
    requires fragment { HasFragment low.old.words at low.old.width }
    requires order { at ≤ position }
    ensures number { let number = joined_item (position - at) low.old at in
        SomeIff result (number < 2 ^ 64) number }
    ensures fragments { ReadsFragments low.old low.new 1 }
{
    let above = position - at;
    if above as u64 > u64::MAX >> low.width() {
        return None;
    }
    Some(join_digits(above, low, at))
}

/// The last of `n` numbers, 0 where there is none, if the 1 bits of the words and the low bits form `n` numbers that
/// never decrease.
fn last_of(words: &[u64], low: &[u64], width: u8, n: usize) -> Option<u64>
    requires short { IsShort words.now }
    requires some { HasFragments (unread low.now width) n }
    ensures { MatchOption result
        ((xs : List ℕ) → ¬ (ArePartsOf xs n width low.now words.now))
        (λ last. AreFirstNumbers width low.now words.now n last × (ones_of (bits_of words.now) ≡ n)) }
{
    if !rise_among(words, low, width, n, 0) {
        return None;
    }
    if n == 0 {
        return Some(0);
    }
    let position = words::rfind_bit_one_unchecked(words, words.len() * 64 - 1);
    number_of(position, &mut LowDigits::new(low, width), n - 1)
}

/// Whether these are the parts of some sequence. One pass over the words of the high bits; low bits are read only of
/// numbers next to one another with the same high bits.
pub(crate) fn are_parts(words: &[u64], low: &[u64], width: u8, n: usize) -> bool
    requires short { IsShort words.now }
    requires some { HasFragments (unread low.now width) n }
    requires low { length low.now ≡ div_ceil (n * width) 64 }
    ensures { IsTrue result ↔ ((xs : List ℕ) × ArePartsOf xs n width low.now words.now) }
{
    let Some(last) = last_of(words, low, width, n) else {
        return false;
    };
    let Some(sizes) = Sizes::of(n, last) else {
        return false;
    };
    if sizes.width != width || sizes.words != words.len() {
        return false;
    }
    match words::find_bit_one(low, n * width as usize) {
        Some(_) => false,
        None => true,
    }
}
