//! Levels that are made without an allocator, in memory of the caller's.
ghost use Rattle.std.specs.Prelude.{◌≡◌, ℕ, ◌+◌, ◌-◌, ◌*◌, ◌<◌, ◌≤◌, ◌^◌, ◌⊎◌, false};
ghost use Rattle.std.specs.Prelude.{drop, length, min, slice_index, take};
ghost use Rattle.bit_lists.specs.Bits.{bits_of, item, IsShort};
ghost use Rattle.bit_lists.specs.Count.{ones_of};
ghost use Rattle.perfect_hash.specs.InPlace.{made_sizes, made_words, IsMade};
ghost use Rattle.perfect_hash.specs.Levels.{left_of, AreSized, IsLevel, Leave};
ghost use Rattle.perfect_hash.specs.Numbers.{AreLevels};
ghost use Rattle.perfect_hash.specs.Positions.{position_in, words_for};

use crate::levels::level::split_level;
use bit_words::words;

/// At most this many levels are made.
const LEVELS: usize = 256;

/// What `build_in_place` made.
#[derive(Clone, Copy, PartialEq, Eq, Debug)]
pub struct Made {
    /// How many levels there are.
    pub levels: usize,
    /// How many words they take together.
    pub words: usize,
    /// How many hashes are left.
    pub left: usize,
}

/// How many words a level for `keys` keys has: `percent` bits for each 100 keys, no fewer than 50, and at least one
/// word; at most `usize::MAX`.
pub fn level_len(percent: u32, keys: usize) -> usize
    ensures { result ≡ min (words_for percent keys) (2 ^ 64 - 1) }
{
    // By parts, since a product of all may have more than 64 bits, and dividing it would call a function of C.
    let percent = percent.max(50) as usize;
    let whole = (keys / 6400).saturating_mul(percent);
    whole.saturating_add(keys % 6400 * percent / 6400 + 1)
}

/// Clears all bits.
#[inline(always)]
fn clear(words: &mut [u64])
    requires { IsShort words.old }
    ensures len { length words.new ≡ length words.old }
    ensures zeros { (i : ℕ) → item (bits_of words.new) i ≡ false }
{
    let bits = 64 * words.len();
    words::fill_range(words, 0, bits, false);
}

/// Makes a level of the hashes in `ones`, and moves the hashes that are left to the start of the list; all words are 0
/// at first.
#[inline(always)]
fn split_cleared(hashes: &mut [u64], level: u32, ones: &mut [u64], again: &mut [u64]) -> usize
    requires same { length again.old ≡ length ones.old }
    requires some { 0 < length ones.old }
    requires short { IsShort ones.old }
    ensures level { IsLevel position_in hashes.old (bits_of ones.new) level 0 (length ones.old) }
    ensures left { take result hashes.new
        ≡ left_of position_in hashes.old (bits_of ones.new) level 0 (length ones.old) }
    ensures few { result ≤ length hashes.old }
{
    clear(&mut *ones);
    clear(&mut *again);
    split_level(hashes, level, ones, again)
}

/// Makes a level of the first `left` hashes in the `size` words from word `used` on, and answers how many are left
/// then; these go to the start of the list.
#[inline(always)]
fn add_level(
    hashes: &mut [u64],
    left: usize,
    level: u32,
    words: &mut [u64],
    used: usize,
    size: usize,
    again: &mut [u64],
) -> usize
    requires left { left ≤ length hashes.old }
    requires some { 0 < size }
    requires inside { used + size ≤ length words.old }
    requires short { IsShort words.old }
    requires again { size ≤ length again.old }
    ensures level { IsLevel position_in (take left hashes.old)
        (bits_of (take size (drop used words.new))) level 0 size }
    ensures left { take result hashes.new ≡ left_of position_in (take left hashes.old)
        (bits_of (take size (drop used words.new))) level 0 size }
    ensures few { result ≤ left }
    ensures before { take used words.new ≡ take used words.old }
{
    let ones = &mut words[used..used + size];
    split_cleared(&mut hashes[..left], level, ones, &mut again[..size])
}

/// Makes level after level for the hashes that are left, each with as many words as `level_len` says, the words of all
/// levels one after another, until no hash is left, there are 256 levels, `sizes` is full, or the next level is longer
/// than the rest of `words` or than `again`. Each size goes to `sizes`, and the hashes that are left to the start of
/// `hashes`. What `again` holds afterwards means nothing.
///
/// # Conditions
/// There are fewer than 2^58 words.
/// # Cost
/// Each level takes two passes over the hashes that are left; each hash goes to two random words.
pub fn build_in_place(
    hashes: &mut [u64],
    percent: u32,
    words: &mut [u64],
    again: &mut [u64],
    sizes: &mut [usize],
) -> Made
    requires { IsShort words.old }
    ensures leave { Leave position_in hashes.old (made_sizes result sizes.new)
        (made_words result words.new) (take result.left hashes.new) }
    ensures sized { AreSized (words_for percent) position_in hashes.old
        (bits_of (made_words result words.new)) 0 0 (made_sizes result sizes.new) }
    ensures made { IsMade percent (length words.old) (length again.old) (length sizes.old)
        (length hashes.old) result }
    ensures numbers { result.left ≡ 0 → AreLevels position_in (λ (hash : ℕ). hash) hashes.old
        (made_sizes result sizes.new) (made_words result words.new) }
    ensures ones { result.left ≡ 0
        → ones_of (bits_of (made_words result words.new)) ≡ length hashes.old }
{
    let most = sizes.len().min(LEVELS);
    let mut left = hashes.len();
    let mut used = 0;
    for level in 0..most {
        let size = level_len(percent, left);
        let room = again.len().min(words.len() - used);
        if left == 0 || size > room {
            return Made {
                levels: level,
                words: used,
                left,
            };
        }
        left = add_level(
            &mut *hashes,
            left,
            level as u32,
            &mut *words,
            used,
            size,
            &mut *again,
        );
        sizes[level] = size;
        used += size;
    }
    Made {
        levels: most,
        words: used,
        left,
    }
}
