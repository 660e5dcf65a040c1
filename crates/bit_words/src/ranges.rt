//! The bits of a range of positions: how many are 1, and writes to all of them that leave the others.
ghost use Rattle.std.specs.Prelude.{◌≡◌, ◌≢◌, ℕ, ◌+◌, ◌-◌, ◌*◌, ◌/◌, ◌<◌, ◌≤◌, ◌⊎◌, not, true, length};
ghost use Rattle.bit_lists.specs.Bits.{bits_of, digit, item, IsShort};
ghost use Rattle.bit_lists.specs.Count.{ones_before};
ghost use Rattle.bit_words.specs.Combined.{combined, in_range};

use crate::combining::{AND_NOT, OR, XOR, combined};
use crate::masks::{n_lowest_bits, n_lowest_bits_0_64};
use broadword::count_bit_ones;

/// How many 1 bits the word of `position` has before it; none is read where `position` is the first of a word.
#[inline(always)]
fn ones_in_word(words: &[u64], position: usize) -> usize
    requires { position ≤ 64 * length words.now }
    ensures { ones_before (bits_of words.now) position
        ≡ ones_before (bits_of words.now) (64 * (position / 64)) + result }
{
    let offset = (position % 64) as u8;
    if offset == 0 {
        return 0;
    }
    (words[position / 64] & n_lowest_bits(offset)).count_ones() as usize
}

/// How many of the bits from `from` on and before `to` are 1.
///
/// # Conditions
/// The range is not reversed and ends inside or at the end of the words, which are fewer than 2^58.
#[inline]
pub fn count_range(words: &[u64], from: usize, to: usize) -> usize
    requires order { from ≤ to }
    requires inside { to ≤ 64 * length words.now }
    requires short { IsShort words.now }
    ensures { result ≡ ones_before (bits_of words.now) to - ones_before (bits_of words.now) from }
{
    let whole = count_bit_ones(&words[from / 64..to / 64]);
    let last = ones_in_word(words, to);
    whole + last - ones_in_word(words, from)
}

/// 1 bits where bits of word `k` stand in the range.
#[inline(always)]
fn mask_of(k: usize, from: usize, to: usize) -> u64
    requires { 64 * k < to }
    ensures { (j : ℕ) → j < 64 → digit result j ≡ in_range from to (64 * k + j) }
{
    let first = k * 64;
    let low = from.saturating_sub(first).min(64) as u8;
    let high = (to - first).min(64) as u8;
    n_lowest_bits_0_64(high) & !n_lowest_bits_0_64(low)
}

/// Combines each bit of the range with a 1 bit; `OP` is not that which leaves such a bit as it is.
#[inline(always)]
fn combine_range<const OP: u8>(words: &mut [u64], from: usize, to: usize)
    requires op { OP ≢ 0 }
    requires inside { to ≤ 64 * length words.old }
    ensures inside { (i : ℕ) → from ≤ i → i < to
        → item (bits_of words.new) i ≡ combined OP (item (bits_of words.old) i) true }
    ensures beside { (i : ℕ) → (i < from) ⊎ (to ≤ i)
        → item (bits_of words.new) i ≡ item (bits_of words.old) i }
    ensures len { length words.new ≡ length words.old }
{
    for k in from / 64..to.div_ceil(64) {
        words[k] = combined::<OP>(words[k], mask_of(k, from, to));
    }
}

/// Makes the bits from `from` on and before `to` equal to `value`, and leaves the others.
///
/// # Conditions
/// The range ends inside or at the end of the words. One that is reversed has no bits.
/// # Cost
/// Each word of the range is read and written once.
pub fn fill_range(words: &mut [u64], from: usize, to: usize, value: bool)
    requires { to ≤ 64 * length words.old }
    ensures inside { (i : ℕ) → from ≤ i → i < to → item (bits_of words.new) i ≡ value }
    ensures beside { (i : ℕ) → (i < from) ⊎ (to ≤ i)
        → item (bits_of words.new) i ≡ item (bits_of words.old) i }
    ensures len { length words.new ≡ length words.old }
{
    if value {
        combine_range::<OR>(words, from, to);
    } else {
        combine_range::<AND_NOT>(words, from, to);
    }
}

/// Negates the bits from `from` on and before `to`, and leaves the others.
///
/// # Conditions
/// The range ends inside or at the end of the words. One that is reversed has no bits.
/// # Cost
/// Each word of the range is read and written once.
pub fn flip_range(words: &mut [u64], from: usize, to: usize)
    requires { to ≤ 64 * length words.old }
    ensures inside { (i : ℕ) → from ≤ i → i < to
        → item (bits_of words.new) i ≡ not (item (bits_of words.old) i) }
    ensures beside { (i : ℕ) → (i < from) ⊎ (to ≤ i)
        → item (bits_of words.new) i ≡ item (bits_of words.old) i }
    ensures len { length words.new ≡ length words.old }
{
    combine_range::<XOR>(words, from, to);
}
