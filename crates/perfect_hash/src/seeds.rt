//! A seed for each word of a level, in the caller's memory: how hashes fall by the seeds, and levels that are built
//! with them, one by one or in one call.
ghost use Rattle.std.specs.Prelude.{◌≡◌, ℕ, ◌+◌, ◌-◌, ◌*◌, ◌^◌, ◌<◌, ◌≤◌, ◌⊎◌, List, [], drop, length, min, take};
ghost use Rattle.bit_lists.specs.Bits.{bits_of, IsShort};
ghost use Rattle.bit_lists.specs.Count.{ones_of};
ghost use Rattle.perfect_hash.specs.InPlace.{made_sizes, made_words, IsMade};
ghost use Rattle.perfect_hash.specs.Inside.{positions_inside};
ghost use Rattle.perfect_hash.specs.Levels.{fall_in, left_of, AreChosen, AreSized, IsLevel, Leave};
ghost use Rattle.perfect_hash.specs.Numbers.{AreLevels};
ghost use Rattle.perfect_hash.specs.Positions.{position_by, words_for};
ghost use Rattle.perfect_hash.specs.Seeds.{AreBestSeeds, HasBest};
ghost use Rattle.perfect_hash.specs.Seeded.{seeds_with, StandFrom};

use crate::levels::{Made, Placing, choose_in, level_len, place_seeded, split_level_by};
use bitm_tables::source::counts::ReadCounts;
use std::alloc::{AllocError, Global};
use tables_view::clear;

/// At most this many levels are made.
const LEVELS: usize = 256;

/// Places hashes by seeds in borrowed memory, one for each word of all levels.
#[derive(Clone, Copy, Debug)]
pub struct SeedsView<'a> {
    /// The seeds.
    pub seeds: &'a [u8],
}

impl<'a> Placing for SeedsView<'a> {
    ghost fall = { λ s. position_by s.seeds.now };

    ghost seeds_each = { 1 };

    ghost chooses = { λ old new _ _ _ _. new ≡ old };

    #[inline(always)]
    fn position(
        &self,
        begin: usize,
        hash: u64,
        level: u32,
        words: usize,
        reads: &mut ReadCounts,
    ) -> usize {
        place_seeded(self.seeds, begin, hash, level, words, reads)
    }

    fn add_level(
        &mut self,
        _alloc: Global,
        _begin: usize,
        _hashes: &[u64],
        _level: u32,
        _words: usize,
    ) -> Result<(), AllocError> {
        Ok(())
    }

    fn try_clone(&self, _alloc: Global) -> Result<SeedsView<'a>, AllocError> {
        Ok(*self)
    }

    ghost inside = { λ s. positions_inside s.seeds.now };
}

/// Makes `ones` a level of the hashes, with a seed for each of its words: of the first `tries`, at most 256, the first
/// by which most of the hashes that fall in the word stand alone. The hashes that fall on no 1 bit go to the start of
/// `hashes`, in their order, and the answer is how many they are.
///
/// For those who build level by level: hashes fall so wherever the seeds of the level stand among those of all words.
/// What `again` and `sorted` hold afterwards means nothing.
///
/// # Conditions
/// There is a word, and fewer than 2^58; there is a seed and an item of `again` for each, and no fewer items of
/// `sorted` than hashes.
/// # Cost
/// Four passes over the hashes, and one for each seed that is tried.
///
/// ```
/// let mut hashes = [7u64, 5, 99];
/// let (mut ones, mut seeds, mut again, mut sorted) = ([0u64; 1], [0u8; 1], [0u64; 1], [0u64; 3]);
/// let left = split_level_seeded(&mut hashes, 0, 64, &mut ones, &mut seeds, &mut again, &mut sorted);
/// // `ones` has a 1 bit for each of the three hashes but those that are left
/// ```
#[tactic(auto, using(bit_lists::proofs::BitLaws::zeros_have_no_ones))]
pub fn split_level_seeded(
    hashes: &mut [u64],
    level: u32,
    tries: u16,
    ones: &mut [u64],
    seeds: &mut [u8],
    again: &mut [u64],
    sorted: &mut [u64],
) -> usize
    requires some { 0 < length ones.old }
    requires short { IsShort ones.old }
    requires seeds { length seeds.old ≡ length ones.old }
    requires again { length again.old ≡ length ones.old }
    requires sorted { length hashes.old ≤ length sorted.old }
    ensures level { (all : List ℕ) → (first : ℕ) → StandFrom all first seeds.new
        → IsLevel (position_by all first) hashes.old (bits_of ones.new) level 0 (length ones.old) }
    ensures left { (all : List ℕ) → (first : ℕ) → StandFrom all first seeds.new
        → take result hashes.new
        ≡ left_of (position_by all first) hashes.old (bits_of ones.new) level 0 (length ones.old) }
    ensures few { result ≤ length hashes.old }
    ensures best { AreBestSeeds level hashes.old (min tries 256) seeds.new }
{
    let part = &mut sorted[..hashes.len()];
    clear(&mut *again);
    choose_in(&*hashes, level, tries, &mut *again, part, &mut *seeds);
    clear(&mut *ones);
    clear(&mut *again);
    let placing = SeedsView { seeds: &*seeds };
    split_level_by(&placing, 0, hashes, level, ones, again)
}

/// Chooses the seeds of a level in the `size` words from word `used` on for the first `left` hashes, makes the level in
/// these words, and answers how many hashes are left then; these go to the start of the list.
#[inline(always)]
fn add_level(
    hashes: &mut [u64],
    left: usize,
    level: u32,
    tries: u16,
    words: &mut [u64],
    seeds: &mut [u8],
    used: usize,
    size: usize,
    again: &mut [u64],
    sorted: &mut [u64],
) -> usize
    requires left { left ≤ length hashes.old }
    requires some { 0 < size }
    requires inside { used + size ≤ length words.old }
    requires short { IsShort words.old }
    requires seeds { length words.old ≤ length seeds.old }
    requires again { size ≤ length again.old }
    requires sorted { length hashes.old ≤ length sorted.old }
    ensures level { IsLevel (position_by (take (used + size) seeds.new) used) (take left hashes.old)
        (bits_of (take size (drop used words.new))) level 0 size }
    ensures left { take result hashes.new
        ≡ left_of (position_by (take (used + size) seeds.new) used) (take left hashes.old)
        (bits_of (take size (drop used words.new))) level 0 size }
    ensures few { result ≤ left }
    ensures before { take used words.new ≡ take used words.old }
    ensures seeds_before { take used seeds.new ≡ take used seeds.old }
    ensures best { AreBestSeeds level (take left hashes.old) (min tries 256)
        (drop used (take (used + size) seeds.new)) }
{
    let ones = &mut words[used..used + size];
    let of_level = &mut seeds[used..used + size];
    let room = &mut again[..size];
    split_level_seeded(
        &mut hashes[..left],
        level,
        tries,
        ones,
        of_level,
        room,
        sorted,
    )
}

/// Makes levels as `build_in_place` does, each with the seed for each of its words by which most of the hashes that
/// fall in it stand alone, of the first `tries`, at most 256. The seeds of all levels go to the start of `seeds`, in
/// the order of the words.
///
/// # Conditions
/// There are fewer than 2^58 words, no fewer seeds than words, and no fewer items of `sorted` than hashes.
/// # Cost
/// Each level is four passes over the hashes that are left, and one for each seed that is tried.
pub fn build_seeded_in_place(
    hashes: &mut [u64],
    percent: u32,
    tries: u16,
    words: &mut [u64],
    seeds: &mut [u8],
    again: &mut [u64],
    sorted: &mut [u64],
    sizes: &mut [usize],
) -> Made
    requires short { IsShort words.old }
    requires seeds { length words.old ≤ length seeds.old }
    requires sorted { length hashes.old ≤ length sorted.old }
    ensures leave { let s = made_words result seeds.new in
        Leave (fall_in (position_by s) (made_sizes result sizes.new)) hashes.old
        (made_sizes result sizes.new) (made_words result words.new) (take result.left hashes.new) }
    ensures sized { let s = made_words result seeds.new in AreSized (words_for percent)
        (fall_in (position_by s) (made_sizes result sizes.new)) hashes.old
        (bits_of (made_words result words.new)) 0 0 (made_sizes result sizes.new) }
    ensures chosen { let s = made_words result seeds.new in AreChosen HasBest
        (fall_in (position_by s) (made_sizes result sizes.new)) hashes.old
        (bits_of (made_words result words.new)) 0 0 0 (made_sizes result sizes.new)
        (seeds_with [] tries) (seeds_with s tries) }
    ensures made { IsMade percent (length words.old) (length again.old) (length sizes.old)
        (length hashes.old) result }
    ensures numbers { let s = made_words result seeds.new in result.left ≡ 0
        → AreLevels (fall_in (position_by s) (made_sizes result sizes.new)) (λ (hash : ℕ). hash)
        hashes.old (made_sizes result sizes.new) (made_words result words.new) }
    ensures ones { result.left ≡ 0
        → ones_of (bits_of (made_words result words.new)) ≡ length hashes.old }
{
    let most = sizes.len().min(LEVELS);
    let mut left = hashes.len();
    let mut used = 0;
    for level in 0..most {
        let size = level_len(percent, left);
        let room = again.len().min(words.len() - used);
        if left == 0 || size > room {
            return Made {
                levels: level,
                words: used,
                left,
            };
        }
        left = add_level(
            &mut *hashes,
            left,
            level as u32,
            tries,
            &mut *words,
            &mut *seeds,
            used,
            size,
            &mut *again,
            &mut *sorted,
        );
        sizes[level] = size;
        used += size;
    }
    Made {
        levels: most,
        words: used,
        left,
    }
}
