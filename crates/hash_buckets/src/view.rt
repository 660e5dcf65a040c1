//! A hash in memory that may hold anything.
ghost use Rattle.std.specs.Prelude.{◌≡◌, ◌+◌, ◌<◌, ◌↔◌, length, IsTrue, None, Some};
ghost use Rattle.bitm_tables.specs.Reads.{none_read, ReadsAtMost};
ghost use Rattle.bitm_tables.specs.Answers.{IfAbsent};
ghost use Rattle.hash_buckets.specs.Numbers.{slot_from, WhereFound, IsNumberAnswer};
ghost use Rattle.hash_buckets.specs.Parts.{buckets_number, IsBucketsHash};

use crate::asking::number_on;
use crate::checking::{rise_below, slots_in};
use crate::positions::Level;
use bitm_tables::answer::Answer;
use bitm_tables::source::counts::ReadCounts;
use std::marker::Model;

/// A minimal perfect hash in memory that may hold anything: levels, the seeds of their buckets, the free slots, and the
/// number of keys.
///
/// Contracts see these. A call says its answer where they form a hash, and where they do not.
///
/// ```
/// let hash = BucketsView::over(&levels, &seeds, &free, 3);
/// hash.check();   // true of parts that `build` wrote
/// hash.get(9);    // Found(number), Absent or Wrong
/// ```
#[derive(Drop)]
pub struct BucketsView<'a> {
    levels: &'a [Level],
    seeds: &'a [u8],
    free: &'a [u64],
    keys: usize,
}

impl<'a> Model for BucketsView<'a> {
    ghost use Rattle.hash_buckets.specs.Parts.{BucketsParts};

    ghost Value = { BucketsParts };

    ghost view = { λ h. record {
      levels = h.levels.now;
      seeds = h.seeds.now;
      free = h.free.now;
      keys = h.keys;
    } };
}

impl<'a> BucketsView<'a> {
    /// A hash of these parts.
    ///
    /// ```
    /// BucketsView::over(&levels[..made.levels], &seeds[..made.seeds], &free[..made.slots - 3], 3);   // of 3 keys
    /// ```
    #[inline(always)]
    pub fn over(
        levels: &'a [Level],
        seeds: &'a [u8],
        free: &'a [u64],
        keys: usize,
    ) -> BucketsView<'a>
        ensures { result ≡ record {
          levels = levels.now;
          seeds = seeds.now;
          free = free.now;
          keys = keys;
        } }
    {
        BucketsView {
            levels,
            seeds,
            free,
            keys,
        }
    }

    /// How many keys the hash has, as it says.
    ///
    /// ```
    /// hash.keys();   // 3
    /// ```
    #[inline(always)]
    pub fn keys(&self) -> usize
        ensures { result ≡ self.now.keys }
    {
        self.keys
    }

    /// The number of a hash, below the number of keys.
    ///
    /// Whatever the memory holds, a number is the number by its parts, and `Absent` is answered only where the seed of
    /// the hash is 0 in each level. Where the parts form a hash, the answer is never `Wrong`. A value that is no key
    /// may have any number.
    ///
    /// # Cost
    /// The cost of `get_counted`.
    ///
    /// ```
    /// hash.get(9);   // Found(number), Absent or Wrong
    /// ```
    #[inline]
    pub fn get(&self, hash: u64) -> Answer<usize>
        ensures below { WhereFound result (λ number. number < self.now.keys) }
        ensures found { WhereFound result (λ number. buckets_number self.now hash ≡ Some number) }
        ensures none { IfAbsent result
            (slot_from self.now.levels self.now.seeds 0 hash ≡ None) }
        ensures answer { IsBucketsHash self.now → IsNumberAnswer (buckets_number self.now hash) result }
    {
        self.get_counted(hash).0
    }

    /// The number of a hash, by the definition: of each hash of which `build` wrote the parts a number of its own below
    /// the number of keys.
    ///
    /// # Conditions
    /// The parts form a hash: `check` is true of them, or `build` wrote them.
    ///
    /// ```
    /// hash.number_of(9);   // Some(number)
    /// ```
    #[inline]
    pub fn number_of(&self, hash: u64) -> Option<usize>
        requires { IsBucketsHash self.now }
        ensures { result ≡ buckets_number self.now hash }
    {
        match self.get(hash) {
            Answer::Found(number) => Some(number),
            _ => None,
        }
    }

    /// The answer of `get`, and its reads, whatever the memory holds: at most one seed of each level, and one free
    /// slot.
    ///
    /// ```
    /// hash.get_counted(9).1;   // at most two reads of one level
    /// ```
    #[inline]
    pub fn get_counted(&self, hash: u64) -> (Answer<usize>, ReadCounts)
        ensures below { WhereFound result.0 (λ number. number < self.now.keys) }
        ensures found { WhereFound result.0 (λ number. buckets_number self.now hash ≡ Some number) }
        ensures none { IfAbsent result.0
            (slot_from self.now.levels self.now.seeds 0 hash ≡ None) }
        ensures answer { IsBucketsHash self.now → IsNumberAnswer (buckets_number self.now hash) result.0 }
        ensures reads { ReadsAtMost none_read result.1 0 0 (length self.now.levels + 1) }
    {
        let (mut reads, keys) = (ReadCounts::new(), self.keys);
        let number = number_on(self.levels, self.seeds, &self.free, keys, hash, &mut reads);
        (number, reads)
    }

    /// Whether these are levels with a seed for each bucket, and each slot from the number of keys on has a free slot
    /// below it; the free slots rise. Then no answer is `Wrong`.
    ///
    /// # Cost
    /// One pass over the levels, and one over the free slots (evident from the code).
    ///
    /// ```
    /// hash.check();   // true of parts that `build` wrote
    /// ```
    pub fn check(&self) -> bool
        ensures { IsTrue result ↔ IsBucketsHash self.now }
    {
        match slots_in(self.levels, self.seeds.len()) {
            Some(slots) => {
                (slots <= self.keys || slots - self.keys <= self.free.len())
                    && rise_below(self.free, self.keys)
            }
            None => false,
        }
    }
}
