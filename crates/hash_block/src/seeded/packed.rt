//! Seeds in words: eight in a word, the lowest byte first.
ghost use Rattle.std.specs.Prelude.{◌≡◌, ◌≢◌, ℕ, ◌+◌, ◌*◌, ◌/◌, ◌^◌, ◌<◌, ◌≤◌, IfOk, length, slice_index, SomeIff};
ghost use Rattle.std.specs.Int.{div_ceil};
ghost use Rattle.bitm_tables.specs.Reads.{word_read};
ghost use Rattle.perfect_hash.specs.Inside.{positions_inside};
ghost use Rattle.perfect_hash.specs.Positions.{position_by};
ghost use Rattle.hash_block.specs.SeededBlock.{AreZeroFrom};
ghost use Rattle.hash_block.specs.Seeds.{seed_of, seeds_of};

use bit_words::words;
use bitm_tables::source::counts::ReadCounts;
use perfect_hash::levels::{Placing, place_seeded, spread_at};
use std::alloc::{AllocError, Global};
use std::marker::Model;
use tables_view::clear;

/// Seeds in words of 64 bits, eight in a word, the lowest byte first. Contracts see the list of the seeds.
///
/// ```
/// let Some(seeds) = PackedSeeds::over(&[0x0302_01], 3) else { .. };
/// seeds.get(2);   // 3
/// ```
#[derive(Drop)]
pub struct PackedSeeds<'a> {
    words: &'a [u64],
    len: usize,
}

impl<'a> Model for PackedSeeds<'a> {
    ghost use Rattle.std.specs.Prelude.{ℕ, ◌*◌, ◌≤◌, List, length};
    ghost use Rattle.hash_block.specs.Seeds.{seeds_of};

    ghost Value = { List ℕ };

    ghost view = { λ s. seeds_of s.words.now s.len };

    ghost invariant = { λ s. s.len ≤ 8 * length s.words.now };
}

/// The word of a level of the given number of words that a spread number falls in.
#[inline(always)]
fn word_of(x: u64, words: usize) -> usize
    requires { 0 < words }
    ensures at { result ≡ x * words / 2 ^ 64 }
    ensures inside { result < words }
{
    ((x as u128 * words as u128) >> 64) as usize
}

impl<'a> PackedSeeds<'a> {
    /// The first `len` seeds of words; `None` exactly where the words are more or fewer than these take.
    ///
    /// ```
    /// PackedSeeds::over(&[0, 0], 9);   // Some(..)
    /// PackedSeeds::over(&[0, 0], 8);   // None: one word is enough
    /// ```
    #[inline(always)]
    pub fn over(words: &'a [u64], len: usize) -> Option<PackedSeeds<'a>>
        ensures { SomeIff result (length words.now ≡ div_ceil len 8) (seeds_of words.now len) }
    {
        if words.len() != len.div_ceil(8) {
            return None;
        }
        Some(PackedSeeds { words, len })
    }

    /// How many seeds there are.
    ///
    /// ```
    /// seeds.len();   // 3
    /// ```
    #[inline(always)]
    pub fn len(&self) -> usize
        ensures { result ≡ length self.now }
    {
        self.len
    }

    /// Seed `k`; 0 where there is none.
    ///
    /// # Conditions
    /// `k` is less than 2^58.
    ///
    /// ```
    /// seeds.get(2);   // 3
    /// ```
    #[inline(always)]
    pub fn get(&self, k: usize) -> u8
        requires { k < 2 ^ 58 }
        ensures { result ≡ slice_index self.now k }
    {
        if k < self.len {
            words::get_fragment(self.words, k, 8) as u8
        } else {
            0
        }
    }

    /// Seed `k`, which is counted; 0 where there is none.
    #[inline(always)]
    fn read(&self, k: usize, reads: &mut ReadCounts) -> u8
        requires { k < 2 ^ 58 }
        ensures seed { result ≡ slice_index self.now k }
        ensures counted { reads.new ≡ word_read reads.old }
    {
        reads.read_word();
        self.get(k)
    }
}

impl<'a> Placing for PackedSeeds<'a> {
    ghost fall = { position_by };

    ghost seeds_each = { 1 };

    ghost chooses = { λ old new _ _ _ _. new ≡ old };

    #[inline(always)]
    fn position(
        &self,
        begin: usize,
        hash: u64,
        level: u32,
        words: usize,
        reads: &mut ReadCounts,
    ) -> usize {
        let word = word_of(spread_at(hash, level), words);
        let seed = [self.read(begin + word, reads)];
        // Its bit of the word is that of a level of one word, whose seed is counted already.
        64 * word + place_seeded(seed.as_slice(), 0, hash, level, 1, &mut ReadCounts::new())
    }

    fn add_level(
        &mut self,
        _alloc: Global,
        _begin: usize,
        _hashes: &[u64],
        _level: u32,
        _words: usize,
    ) -> Result<(), AllocError> {
        Ok(())
    }

    fn try_clone(&self, _alloc: Global) -> Result<PackedSeeds<'a>, AllocError> {
        let (words, len) = (self.words, self.len);
        Ok(PackedSeeds { words, len })
    }

    ghost inside = { positions_inside };
}

/// Writes seed `k` of words.
#[inline(always)]
fn set_seed(words: &mut [u64], k: usize, seed: u8)
    requires short { length words.old < 2 ^ 58 }
    requires inside { k < 8 * length words.old }
    ensures written { seed_of words.new k ≡ seed }
    ensures beside { (i : ℕ) → i ≢ k → seed_of words.new i ≡ seed_of words.old i }
    ensures len { length words.new ≡ length words.old }
{
    words::set_fragment(words, k, seed as u64, 8);
}

/// Writes seeds into words, and zeros after them.
pub(crate) fn pack(seeds: &[u8], to: &mut [u64])
    requires short { length to.old < 2 ^ 58 }
    requires room { length seeds.now ≤ 8 * length to.old }
    ensures seeds { seeds_of to.new (length seeds.now) ≡ seeds.now }
    ensures padding { AreZeroFrom to.new (length seeds.now) }
    ensures len { length to.new ≡ length to.old }
{
    clear(&mut *to);
    for k in 0..seeds.len() {
        set_seed(&mut *to, k, seeds[k]);
    }
}
