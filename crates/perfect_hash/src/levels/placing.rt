//! What places hashes in levels: their bits alone, or with a seed for each word.
ghost use Rattle.std.specs.Prelude.{◌≡◌, ◌+◌, ◌*◌, ◌^◌, ◌<◌, ◌≤◌, ℕ, List, IfOk, OnOk};
ghost use Rattle.bitm_tables.specs.Reads.{ReadsAtMost};
ghost use Rattle.perfect_hash.specs.Positions.{position_in};
ghost use Rattle.perfect_hash.specs.Inside.{falls_inside};

use crate::levels::positions::position_of;
use bitm_bits::GetSize;
use bitm_tables::source::counts::ReadCounts;
use std::alloc::{AllocError, Global};

/// Places hashes: says on which bit of a level each falls.
///
/// That numbers are one-to-one is proved of any placing; a bad one costs bits, or ends in `KeysCollide`.
pub trait Placing: Drop {
    /// The bit that a hash falls on, of a level, by the number of words before it, its number and how many words it
    /// has: `fall placing begin hash level words`.
    ghost fall: { Self → ℕ → ℕ → ℕ → ℕ → ℕ };

    /// How many seeds are read to place a hash in a level.
    ghost seeds_each: { ℕ };

    /// How a level is chosen that is added after the given number of words, for the hashes that are left: `chooses old
    /// new begin hashes level words`, of this value as it was and as it is then.
    ghost chooses: { Self → Self → ℕ → List ℕ → ℕ → ℕ → Type 0 };

    /// The bit that a hash falls on, of a level that has `begin` words before it, by its number and how many words it
    /// has.
    ///
    /// # Conditions
    /// The level has a word, and ends before word 2^58.
    /// # Cost
    /// At most one seed is read.
    fn position(
        &self,
        begin: usize,
        hash: u64,
        level: u32,
        words: usize,
        reads: &mut ReadCounts,
    ) -> usize
        requires some { 0 < words }
        requires short { begin + words < 2 ^ 58 }
        ensures at { result ≡ fall self.now begin hash level words }
        ensures inside { result < 64 * words }
        ensures reads { ReadsAtMost reads.old reads.new 0 0 1 }
        ensures counted { reads.new ≡ record reads.old { words = reads.old.words + seeds_each } };

    /// Chooses how the hashes that are left fall in a level that is added after `begin` words; in the levels before it
    /// all fall as they did.
    ///
    /// # Conditions
    /// The level has a word, and ends before word 2^58.
    /// # Errors
    /// `AllocError` if memory was refused.
    fn add_level(
        &mut self,
        alloc: Global,
        begin: usize,
        hashes: &[u64],
        level: u32,
        words: usize,
    ) -> Result<(), AllocError>
        requires some { 0 < words }
        requires short { begin + words < 2 ^ 58 }
        ensures kept { (first hash number size : ℕ) → 0 < size → first + size ≤ begin
            → fall self.new first hash number size ≡ fall self.old first hash number size }
        ensures chosen { OnOk result (chooses self.old self.new begin hashes.now level words) };

    /// A copy.
    ///
    /// # Errors
    /// `AllocError` if memory was refused; this value is as it was.
    fn try_clone(&self, alloc: Global) -> Result<Self, AllocError>
        ensures { IfOk result (λ copy. copy ≡ self.now) };

    /// A hash falls inside each level that has a word.
    ghost inside: { (placing : Self) (begin hash level words : ℕ) → 0 < words
        → fall placing begin hash level words < 64 * words };
}

/// Places a hash by its bits alone, for which nothing is kept.
#[derive(Clone, Copy, Debug)]
pub struct Plain;

impl Placing for Plain {
    ghost fall = { λ _ _. position_in };

    ghost seeds_each = { 0 };

    ghost chooses = { λ old new _ _ _ _. new ≡ old };

    #[inline(always)]
    fn position(
        &self,
        _begin: usize,
        hash: u64,
        level: u32,
        words: usize,
        _reads: &mut ReadCounts,
    ) -> usize {
        position_of(hash, level, words)
    }

    fn add_level(
        &mut self,
        _alloc: Global,
        _begin: usize,
        _hashes: &[u64],
        _level: u32,
        _words: usize,
    ) -> Result<(), AllocError> {
        Ok(())
    }

    fn try_clone(&self, _alloc: Global) -> Result<Plain, AllocError> {
        Ok(Plain)
    }

    ghost inside = { λ _ _. falls_inside };
}

impl GetSize for Plain {
    #[inline(always)]
    fn size_bytes_dyn(&self) -> usize {
        0
    }
}
