//! Minimal perfect hashes in the caller's memory: their levels, built one by one or in one call, and the number of a
//! hash by the index over the words of all levels. The caller hashes the keys.
ghost use Rattle.std.specs.Prelude.{◌≡◌, ◌≢◌, ℕ, ◌-◌, ◌<◌, ◌≤◌, ◌^◌, ◌↔◌, length, min, slice_index, take, IsTrue};
ghost use Rattle.bit_lists.specs.Bits.{bits_of, IsShort};
ghost use Rattle.bit_lists.specs.Count.{ones_of};
ghost use Rattle.bitm_view.specs.Queries.{ranked_by};
ghost use Rattle.perfect_hash.specs.InPlace.{IsMade};
ghost use Rattle.perfect_hash.specs.Levels.{left_of, AreSized, IsLevel, Leave};
ghost use Rattle.perfect_hash.specs.Numbers.{AreLevels};
ghost use Rattle.perfect_hash.specs.Positions.{position_in, words_for};
ghost use Rattle.bitm_keys_c.specs.Hash.{made_of, CanBeLevel, HashAnswered};
ghost use Rattle.bitm_abi.specs.Hash.{parts_of, CanBeHash, IsHashNumber};
ghost use Rattle.bitm_abi.specs.Lists.{AreAnswersCounted};

use bitm_abi::{BAD_SIZE, Hash, ListCounts, OK, report, report_list};
use perfect_hash::levels::{build_in_place, level_len, split_level};
use tables_view::clear;

/// The number of words of the next level for `left` hashes: `percent` bits for each 100 hashes, where less than 50
/// counts as 50; at least one word and at most 2^64 - 1.
#[unsafe(no_mangle)]
pub extern "C" fn bitm_hash_level_len(left: usize, percent: u32) -> usize
    ensures { result ≡ min (words_for percent left) (2 ^ 64 - 1) }
{
    level_len(percent, left)
}

/// Whether there are words for a level, and as many beside them.
#[inline(always)]
pub(crate) fn can_be_level(ones: &[u64], again: &[u64]) -> bool
    ensures { IsTrue result ↔ CanBeLevel ones.now again.now }
{
    !ones.is_empty() && ones.len() < 1 << 58 && again.len() == ones.len()
}

/// Builds a level of the hashes, and moves the hashes that it leaves to the start of their list.
#[tactic(auto, using(bit_lists::proofs::BitLaws::zeros_have_no_ones))]
#[unsafe(no_mangle)]
pub extern "C" fn bitm_hash_level(
    hashes: &mut [u64],
    level: u32,
    ones: &mut [u64],
    again: &mut [u64],
    left: &mut usize,
) -> u32
    ensures ok { (result ≡ 0) ↔ CanBeLevel ones.old again.old }
    ensures level { result ≡ 0
        → IsLevel position_in hashes.old (bits_of ones.new) level 0 (length ones.old) }
    ensures left { result ≡ 0 → take left.new hashes.new
        ≡ left_of position_in hashes.old (bits_of ones.new) level 0 (length ones.old) }
    ensures few { result ≡ 0 → left.new ≤ length hashes.old }
    ensures unchanged { result ≢ 0 → (result ≡ 2) × (hashes.new ≡ hashes.old)
        × (ones.new ≡ ones.old) × (again.new ≡ again.old) × (left.new ≡ left.old) }
{
    if !can_be_level(&*ones, &*again) {
        return BAD_SIZE;
    }
    clear(&mut *ones);
    clear(&mut *again);
    *left = split_level(hashes, level, ones, again);
    OK
}

/// Builds the levels of the hashes one after another in `words`, until no hash is left or the next level has no room.
/// Writes the size of each level, their number, the number of words that they take, and the number of hashes that are
/// left, which it moves to the start of their list.
#[unsafe(no_mangle)]
pub extern "C" fn bitm_hash_build(
    hashes: &mut [u64],
    percent: u32,
    words: &mut [u64],
    again: &mut [u64],
    sizes: &mut [usize],
    levels: &mut usize,
    used_words: &mut usize,
    left: &mut usize,
) -> u32
    ensures ok { (result ≡ 0) ↔ IsShort words.old }
    ensures leave { result ≡ 0 → Leave position_in hashes.old (take levels.new sizes.new)
        (take used_words.new words.new) (take left.new hashes.new) }
    ensures sized { result ≡ 0 → AreSized (words_for percent) position_in hashes.old
        (bits_of (take used_words.new words.new)) 0 0 (take levels.new sizes.new) }
    ensures made { result ≡ 0 → IsMade percent (length words.old) (length again.old)
        (length sizes.old) (length hashes.old) (made_of levels.new used_words.new left.new) }
    ensures numbers { result ≡ 0 → left.new ≡ 0 → AreLevels position_in (λ (hash : ℕ). hash)
        hashes.old (take levels.new sizes.new) (take used_words.new words.new) }
    ensures ones { result ≡ 0 → left.new ≡ 0
        → ones_of (bits_of (take used_words.new words.new)) ≡ length hashes.old }
    ensures unchanged { result ≢ 0 → (result ≡ 2) × (hashes.new ≡ hashes.old)
        × (words.new ≡ words.old) × (again.new ≡ again.old) × (sizes.new ≡ sizes.old)
        × (levels.new ≡ levels.old) × (used_words.new ≡ used_words.old) × (left.new ≡ left.old) }
{
    if words.len() >= 1 << 58 {
        return BAD_SIZE;
    }
    let made = build_in_place(hashes, percent, words, again, sizes);
    *levels = made.levels;
    *used_words = made.words;
    *left = made.left;
    OK
}

/// The number of a hash, below the number of keys.
#[unsafe(no_mangle)]
pub extern "C" fn bitm_hash_get(hash: &Hash<'_>, key_hash: u64, out: &mut usize) -> u32
    ensures { HashAnswered (parts_of hash.now) key_hash result out.old out.new }
{
    match hash.view() {
        Some(borrowed) => report(borrowed.number(key_hash), out),
        None => BAD_SIZE,
    }
}

/// The numbers of a list of hashes, and how many of these are codes.
#[unsafe(no_mangle)]
pub extern "C" fn bitm_hash_get_list(
    hash: &Hash<'_>,
    key_hashes: &[u64],
    out: &mut [usize],
    counts: &mut ListCounts,
) -> u32
    ensures ok { (result ≡ 0) ↔ CanBeHash (parts_of hash.now)
        × (length out.old ≡ length key_hashes.now) }
    ensures unchanged { result ≢ 0 → (result ≡ 2) × (out.new ≡ out.old)
        × (counts.new ≡ counts.old) }
    ensures numbers { result ≡ 0 → (j : ℕ) → j < length key_hashes.now
        → IsHashNumber (parts_of hash.now) (slice_index key_hashes.now j)
        (ranked_by (slice_index out.new j)) }
    ensures counts { result ≡ 0 → AreAnswersCounted out.new counts.new }
{
    let Some(borrowed) = hash.view() else {
        return BAD_SIZE;
    };
    let done = borrowed.number_list(key_hashes, &mut *out);
    report_list(done, &*out, counts)
}
