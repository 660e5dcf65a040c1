//! Minimal perfect hashes with a seed for each word, in the caller's memory: built, and queried as hashes without
//! seeds.
ghost use Rattle.std.specs.Prelude.{◌≡◌, ◌≢◌, ℕ, ◌-◌, ◌<◌, ◌≤◌, ◌^◌, ◌↔◌, ◌⊎◌, List, [], length, min};
ghost use Rattle.std.specs.Prelude.{slice_index, take};
ghost use Rattle.bit_lists.specs.Bits.{bits_of};
ghost use Rattle.bit_lists.specs.Count.{ones_of};
ghost use Rattle.bitm_view.specs.Queries.{ranked_by};
ghost use Rattle.perfect_hash.specs.InPlace.{IsMade};
ghost use Rattle.perfect_hash.specs.Levels.{fall_in, left_of, AreChosen, AreSized, IsLevel, Leave};
ghost use Rattle.perfect_hash.specs.Numbers.{AreLevels};
ghost use Rattle.perfect_hash.specs.Positions.{position_by, words_for};
ghost use Rattle.perfect_hash.specs.Seeds.{AreBestSeeds, HasBest};
ghost use Rattle.perfect_hash.specs.Seeded.{seeds_with, StandFrom};
ghost use Rattle.bitm_keys_c.specs.Hash.{made_of, CanBeSeeded, CanBeSeededLevel, HashAnswered};
ghost use Rattle.bitm_keys_c.specs.Prints.{AreSet, CanBeFound, IsKey, KeyAnswered};
ghost use Rattle.bitm_abi.specs.Hash.{seeded_parts, CanBeHash, IsHashNumber};
ghost use Rattle.bitm_abi.specs.Lists.{AreAnswersCounted};

use crate::hashes::hash::can_be_level;
use crate::hashes::keys::{checked_answer, find_each};
use crate::hashes::prints::{can_be_prints, write_each};
use bitm_abi::{BAD_SIZE, ListCounts, OK, SeededHash, WRONG, report, report_list};
use perfect_hash::{build_seeded_in_place, split_level_seeded};

/// Builds the levels of the hashes as `bitm_hash_build` does, with a seed for each word: of the first `tries`, at most
/// 256, the one by which most of the hashes of the word stand alone.
#[unsafe(no_mangle)]
pub extern "C" fn bitm_hash_build_seeded(
    hashes: &mut [u64],
    percent: u32,
    tries: u16,
    words: &mut [u64],
    seeds: &mut [u8],
    again: &mut [u64],
    sorted: &mut [u64],
    sizes: &mut [usize],
    levels: &mut usize,
    used_words: &mut usize,
    left: &mut usize,
) -> u32
    ensures ok { (result ≡ 0) ↔ CanBeSeeded hashes.old words.old seeds.old sorted.old }
    ensures leave { result ≡ 0 → Leave
        (fall_in (position_by (take used_words.new seeds.new)) (take levels.new sizes.new))
        hashes.old (take levels.new sizes.new) (take used_words.new words.new) (take left.new hashes.new) }
    ensures sized { result ≡ 0 → AreSized (words_for percent)
        (fall_in (position_by (take used_words.new seeds.new)) (take levels.new sizes.new))
        hashes.old (bits_of (take used_words.new words.new)) 0 0 (take levels.new sizes.new) }
    ensures chosen { result ≡ 0 → AreChosen HasBest
        (fall_in (position_by (take used_words.new seeds.new)) (take levels.new sizes.new))
        hashes.old (bits_of (take used_words.new words.new)) 0 0 0 (take levels.new sizes.new)
        (seeds_with [] tries) (seeds_with (take used_words.new seeds.new) tries) }
    ensures made { result ≡ 0 → IsMade percent (length words.old) (length again.old)
        (length sizes.old) (length hashes.old) (made_of levels.new used_words.new left.new) }
    ensures numbers { result ≡ 0 → left.new ≡ 0 → AreLevels
        (fall_in (position_by (take used_words.new seeds.new)) (take levels.new sizes.new))
        (λ (hash : ℕ). hash) hashes.old (take levels.new sizes.new) (take used_words.new words.new) }
    ensures ones { result ≡ 0 → left.new ≡ 0
        → ones_of (bits_of (take used_words.new words.new)) ≡ length hashes.old }
    ensures unchanged { result ≢ 0 → (result ≡ 2) × (hashes.new ≡ hashes.old)
        × (words.new ≡ words.old) × (seeds.new ≡ seeds.old) × (again.new ≡ again.old)
        × (sorted.new ≡ sorted.old) × (sizes.new ≡ sizes.old)
        × (levels.new ≡ levels.old) × (used_words.new ≡ used_words.old) × (left.new ≡ left.old) }
{
    let has_room = seeds.len() >= words.len() && sorted.len() >= hashes.len();
    if words.len() >= 1 << 58 || !has_room {
        return BAD_SIZE;
    }
    let made = build_seeded_in_place(hashes, percent, tries, words, seeds, again, sorted, sizes);
    *levels = made.levels;
    *used_words = made.words;
    *left = made.left;
    OK
}

/// Builds a level of the hashes as `bitm_hash_level` does, with a seed for each word: of the first `tries`, at most
/// 256, the first by which most of the hashes of the word stand alone.
#[unsafe(no_mangle)]
pub extern "C" fn bitm_hash_level_seeded(
    hashes: &mut [u64],
    level: u32,
    tries: u16,
    ones: &mut [u64],
    seeds: &mut [u8],
    again: &mut [u64],
    sorted: &mut [u64],
    left: &mut usize,
) -> u32
    ensures ok { (result ≡ 0) ↔ CanBeSeededLevel hashes.old ones.old seeds.old again.old sorted.old }
    ensures level { result ≡ 0 → (all : List ℕ) → (first : ℕ) → StandFrom all first seeds.new
        → IsLevel (position_by all first) hashes.old (bits_of ones.new) level 0 (length ones.old) }
    ensures left { result ≡ 0 → (all : List ℕ) → (first : ℕ) → StandFrom all first seeds.new
        → take left.new hashes.new
        ≡ left_of (position_by all first) hashes.old (bits_of ones.new) level 0 (length ones.old) }
    ensures few { result ≡ 0 → left.new ≤ length hashes.old }
    ensures best { result ≡ 0 → AreBestSeeds level hashes.old (min tries 256) seeds.new }
    ensures unchanged { result ≢ 0 → (result ≡ 2) × (hashes.new ≡ hashes.old)
        × (ones.new ≡ ones.old) × (seeds.new ≡ seeds.old) × (again.new ≡ again.old)
        × (sorted.new ≡ sorted.old) × (left.new ≡ left.old) }
{
    let has_room = seeds.len() == ones.len() && sorted.len() >= hashes.len();
    if !can_be_level(&*ones, &*again) || !has_room {
        return BAD_SIZE;
    }
    *left = split_level_seeded(hashes, level, tries, ones, seeds, again, sorted);
    OK
}

/// The number of a hash, below the number of keys.
#[unsafe(no_mangle)]
pub extern "C" fn bitm_hash_get_seeded(hash: &SeededHash<'_>, key_hash: u64, out: &mut usize) -> u32
    ensures { HashAnswered (seeded_parts hash.now) key_hash result out.old out.new }
{
    match hash.view() {
        Some(borrowed) => report(borrowed.number(key_hash), out),
        None => BAD_SIZE,
    }
}

/// The numbers of a list of hashes, and how many of these are codes.
#[unsafe(no_mangle)]
pub extern "C" fn bitm_hash_get_list_seeded(
    hash: &SeededHash<'_>,
    key_hashes: &[u64],
    out: &mut [usize],
    counts: &mut ListCounts,
) -> u32
    ensures ok { (result ≡ 0) ↔ CanBeHash (seeded_parts hash.now)
        × (length out.old ≡ length key_hashes.now) }
    ensures unchanged { result ≢ 0 → (result ≡ 2) × (out.new ≡ out.old)
        × (counts.new ≡ counts.old) }
    ensures numbers { result ≡ 0 → (j : ℕ) → j < length key_hashes.now
        → IsHashNumber (seeded_parts hash.now) (slice_index key_hashes.now j)
        (ranked_by (slice_index out.new j)) }
    ensures counts { result ≡ 0 → AreAnswersCounted out.new counts.new }
{
    let Some(borrowed) = hash.view() else {
        return BAD_SIZE;
    };
    let done = borrowed.number_list(key_hashes, &mut *out);
    report_list(done, &*out, counts)
}

/// Writes the fingerprint of each key at its number.
#[unsafe(no_mangle)]
pub extern "C" fn bitm_hash_set_prints_seeded(
    hash: &SeededHash<'_>,
    key_hashes: &[u64],
    key_prints: &[u64],
    prints: &mut [u64],
    width: u32,
) -> u32
    ensures sized { (result ≡ 2) ↔ ¬ (CanBeFound (seeded_parts hash.now) prints.old width
        × (length key_prints.now ≡ length key_hashes.now)) }
    ensures bad { result ≡ 2 → prints.new ≡ prints.old }
    ensures good { (result ≡ 0) ⊎ (result ≡ 2) ⊎ (result ≡ 3) }
    ensures set { result ≢ 2 → AreSet (seeded_parts hash.now) key_hashes.now key_prints.now
        prints.old prints.new width (length key_hashes.now) (result ≡ 0) }
{
    if !can_be_prints(&*prints, width) || key_prints.len() != key_hashes.len() {
        return BAD_SIZE;
    }
    let Some(borrowed) = hash.view() else {
        return BAD_SIZE;
    };
    let all = write_each(&borrowed, key_hashes, key_prints, prints, width);
    if all { OK } else { WRONG }
}

/// The number of a key by its hash and its fingerprint, below the number of keys.
#[unsafe(no_mangle)]
pub extern "C" fn bitm_hash_find_seeded(
    hash: &SeededHash<'_>,
    prints: &[u64],
    width: u32,
    key_hash: u64,
    key_print: u64,
    out: &mut usize,
) -> u32
    ensures { KeyAnswered (seeded_parts hash.now) prints.now width key_hash key_print
        result out.old out.new }
{
    if !can_be_prints(prints, width) {
        return BAD_SIZE;
    }
    match hash.view() {
        Some(borrowed) => {
            let number = borrowed.number(key_hash);
            report(checked_answer(prints, width, key_print, number), out)
        }
        None => BAD_SIZE,
    }
}

/// The numbers of a list of keys, and how many of these are codes.
#[unsafe(no_mangle)]
pub extern "C" fn bitm_hash_find_list_seeded(
    hash: &SeededHash<'_>,
    prints: &[u64],
    width: u32,
    key_hashes: &[u64],
    key_prints: &[u64],
    out: &mut [usize],
    counts: &mut ListCounts,
) -> u32
    ensures ok { (result ≡ 0) ↔ CanBeFound (seeded_parts hash.now) prints.now width
        × (length out.old ≡ length key_hashes.now) × (length key_prints.now ≡ length key_hashes.now) }
    ensures unchanged { result ≢ 0 → (result ≡ 2) × (out.new ≡ out.old)
        × (counts.new ≡ counts.old) }
    ensures numbers { result ≡ 0 → (j : ℕ) → j < length key_hashes.now
        → IsKey (seeded_parts hash.now) prints.now width (slice_index key_hashes.now j)
        (slice_index key_prints.now j) (ranked_by (slice_index out.new j)) }
    ensures counts { result ≡ 0 → AreAnswersCounted out.new counts.new }
{
    if !can_be_prints(prints, width) || key_prints.len() != key_hashes.len() {
        return BAD_SIZE;
    }
    let Some(borrowed) = hash.view() else {
        return BAD_SIZE;
    };
    let done = find_each(&borrowed, prints, width, key_hashes, key_prints, &mut *out);
    report_list(done, &*out, counts)
}
