//! Whether the low bits of neighbours rise: of two numbers with the same high bits, whose 1 bits stand side by side.
ghost use Rattle.std.specs.Prelude.{◌≡◌, ◌+◌, ◌-◌, ◌*◌, ◌^◌, ◌<◌, ◌≤◌, ◌↔◌, ℕ, IsTrue, length, true};
ghost use Rattle.bit_lists.specs.Bits.{bits_of, digit, IsShort};
ghost use Rattle.bit_lists.specs.Count.{ones_before, ones_of};
ghost use Rattle.elias_fano.specs.Low.{unread, HasFragments};
ghost use Rattle.elias_fano.specs.Parts.{HasFragment};
ghost use Rattle.elias_fano_view.specs.Checks.{low_item, FollowsOne, NeighboursRise};

use bit_words::{BitOnesIterator, n_lowest_bits};
use std::iter::Iterator;

/// The low bits of number `at`, from two words, without a test whether they cross into the second: a processor cannot
/// guess it.
#[inline(always)]
fn low_bits(low: &[u64], width: u8, at: usize) -> u64
    requires { HasFragment low.now at width }
    ensures value { result ≡ low_item width low.now at }
    ensures bound { result < 2 ^ width }
{
    if width == 0 {
        return 0;
    }
    let begin = at * width as usize;
    let last = (begin + width as usize - 1) / 64;
    let both = (low[begin / 64] as u128) | ((low[last] as u128) << 64);
    (both >> (begin % 64) & u64::MAX as u128) as u64 & n_lowest_bits(width)
}

/// Whether the low bits of number `at` are at least the low bits of the number before it plus `gap`.
#[inline(always)]
fn rises_at(low: &[u64], width: u8, at: usize, gap: u64) -> bool
    requires fragment { HasFragment low.now at width }
    requires before { 1 ≤ at }
    requires gap { gap ≤ 1 }
    ensures { IsTrue result ↔ low_item width low.now (at - 1) + gap ≤ low_item width low.now at }
{
    low_bits(low, width, at - 1) + gap <= low_bits(low, width, at)
}

/// The 1 bits of word `k` right after a 1 bit, of this word or of the one before it.
#[inline(always)]
fn followers(words: &[u64], k: usize) -> u64
    requires { k < length words.now }
    ensures { (j : ℕ) → j < 64 → (digit result j ≡ true) ↔ FollowsOne (bits_of words.now) (64 * k + j) }
{
    let before = if k == 0 { 0 } else { words[k - 1] >> 63 };
    words[k] & (words[k] << 1 | before)
}

/// Whether neighbours rise by `gap` or more where the second has its 1 bit in word `k`, which has `ones` 1 bits before
/// it.
#[inline(always)]
fn rise_in_word(words: &[u64], k: usize, ones: usize, low: &[u64], width: u8, gap: u64) -> bool
    requires inside { k < length words.now }
    requires ones { ones ≡ ones_before (bits_of words.now) (64 * k) }
    requires some { HasFragments (unread low.now width) (ones_before (bits_of words.now) (64 * (k + 1))) }
    requires gap { gap ≤ 1 }
    ensures { IsTrue result ↔ NeighboursRise gap width low.now words.now (64 * k) (64 * (k + 1)) }
{
    let word = words[k];
    let after = followers(words, k);
    let mut rise = true;
    for position in BitOnesIterator::new(&[after]) {
        let at = ones + (word & n_lowest_bits(position as u8)).count_ones() as usize;
        rise &= rises_at(low, width, at, gap);
    }
    rise
}

/// Whether the words have `n` 1 bits, and neighbours rise by `gap` or more. One pass over the words; low bits are read
/// of neighbours alone.
pub(crate) fn rise_among(words: &[u64], low: &[u64], width: u8, n: usize, gap: u64) -> bool
    requires short { IsShort words.now }
    requires some { HasFragments (unread low.now width) n }
    requires gap { gap ≤ 1 }
    ensures { IsTrue result ↔ (ones_of (bits_of words.now) ≡ n)
        × NeighboursRise gap width low.now words.now 0 (64 * length words.now) }
{
    let mut ones = 0;
    for k in 0..words.len() {
        let next = ones + words[k].count_ones() as usize;
        if next > n {
            return false;
        }
        if !rise_in_word(words, k, ones, low, width, gap) {
            return false;
        }
        ones = next;
    }
    ones == n
}
