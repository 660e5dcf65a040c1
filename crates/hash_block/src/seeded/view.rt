//! A hash with seeds in memory that may hold anything.
ghost use Rattle.std.specs.Prelude.{◌≡◌, ◌+◌, ◌↔◌, IsTrue, length, None, SomeIff};
ghost use Rattle.bitm_tables.specs.Reads.{none_read, ReadsAtMost};
ghost use Rattle.bitm_tables.specs.Answers.{IfAbsent};
ghost use Rattle.perfect_hash.specs.Asking.{IsBelow, IsNumbered};
ghost use Rattle.perfect_hash.specs.Placed.{FitIn};
ghost use Rattle.hash_block.specs.Parts.{IsHash};
ghost use Rattle.hash_block.specs.SeededParts.{seeded_number};

use crate::HashView;
use crate::seeded::packed::PackedSeeds;
use bitm_tables::answer::Answer;
use bitm_tables::source::counts::ReadCounts;
use perfect_hash::total_number_by_on;
use std::marker::Model;

/// A minimal perfect hash with a seed for each word in memory that may hold anything: the parts of a hash, and the
/// seeds.
///
/// Contracts see both. A call says its answer where they form a hash, and where they do not.
///
/// ```
/// let Some(hash) = open(block.as_slice()) else { .. };
/// hash.check();   // true of a block that `build` wrote
/// hash.get(9);    // Found(number), Absent or Wrong
/// ```
#[derive(Drop)]
pub struct SeededView<'a> {
    hash: HashView<'a>,
    seeds: PackedSeeds<'a>,
}

impl<'a> Model for SeededView<'a> {
    ghost use Rattle.hash_block.specs.SeededParts.{HasSeeds, SeededParts};

    ghost Value = { SeededParts };

    ghost view = { λ h. record { hash = h.hash; seeds = h.seeds } };

    ghost invariant = { λ h. HasSeeds (record { hash = h.hash; seeds = h.seeds }) };
}

impl<'a> SeededView<'a> {
    /// A hash over the parts of one and seeds; `None` exactly where there are not as many seeds as words.
    ///
    /// ```
    /// SeededView::over(hash, seeds);   // Some(..) where there is a seed for each word
    /// ```
    #[inline(always)]
    pub fn over(hash: HashView<'a>, seeds: PackedSeeds<'a>) -> Option<SeededView<'a>>
        ensures { SomeIff result (length seeds.entry ≡ length hash.entry.lists.words)
            (record { hash = hash.entry; seeds = seeds.entry }) }
    {
        if seeds.len() == hash.tables().words().len() {
            Some(SeededView { hash, seeds })
        } else {
            None
        }
    }

    /// The words of all levels and their tables, the sizes, the number of keys and the seed of the caller's. Without
    /// the seeds of the words its own queries answer other numbers.
    ///
    /// ```
    /// hash.parts().keys();   // 3
    /// ```
    #[inline(always)]
    pub fn parts(&self) -> &HashView<'a>
        ensures { result.now ≡ self.now.hash }
    {
        &self.hash
    }

    /// The seeds, one for each word.
    ///
    /// ```
    /// hash.seeds().get(0);   // 17
    /// ```
    #[inline(always)]
    pub fn seeds(&self) -> &PackedSeeds<'a>
        ensures seeds { result.now ≡ self.now.seeds }
        ensures len { length result.now ≡ length self.now.hash.lists.words }
    {
        &self.seeds
    }

    /// The number of a hash, below the number of keys.
    ///
    /// Whatever the memory holds, `Absent` is answered only where the sizes are sizes of levels in the words and the
    /// hash falls on no 1 bit. Where it holds a hash, the number is the hash's, and the answer is never `Wrong`. A
    /// value that is no key may have any number.
    ///
    /// # Cost
    /// The cost of `get_counted`.
    ///
    /// ```
    /// hash.get(9);   // Found(number), Absent or Wrong
    /// ```
    #[inline]
    pub fn get(&self, hash: u64) -> Answer<usize>
        ensures below { IsBelow self.now.hash.keys result }
        ensures number { IsHash self.now.hash → IsNumbered (seeded_number self.now hash) result }
        ensures fit { IfAbsent result
            (FitIn (length self.now.hash.lists.words) self.now.hash.sizes) }
        ensures none { IfAbsent result (seeded_number self.now hash ≡ None) }
    {
        self.get_counted(hash).0
    }

    /// The answer of `get`, and its reads, whatever the memory holds: of the words and tables at most one word of each
    /// level, and one upper entry, one lower entry and eight words for the rank; of the seeds, counted as words, at
    /// most one for each level.
    ///
    /// ```
    /// hash.get_counted(9);   // of one level at most 9 words, and one seed
    /// ```
    #[inline]
    pub fn get_counted(&self, hash: u64) -> (Answer<usize>, ReadCounts, ReadCounts)
        ensures below { IsBelow self.now.hash.keys result.0 }
        ensures number { IsHash self.now.hash → IsNumbered (seeded_number self.now hash) result.0 }
        ensures fit { IfAbsent result.0
            (FitIn (length self.now.hash.lists.words) self.now.hash.sizes) }
        ensures none { IfAbsent result.0 (seeded_number self.now hash ≡ None) }
        ensures reads { ReadsAtMost none_read result.1 1 1 (length self.now.hash.sizes + 8) }
        ensures seeds { ReadsAtMost none_read result.2 0 0 (length self.now.hash.sizes) }
    {
        let (parts, mut seeds) = (&self.hash, ReadCounts::new());
        let (sizes, keys) = (parts.sizes(), parts.keys());
        let mut probe = parts.tables().probe();
        let number = total_number_by_on(&mut probe, &self.seeds, sizes, keys, hash, &mut seeds);
        (number, probe.into_reads(), seeds)
    }

    /// Whether the tables match the words, the words are levels of these sizes, and there is a 1 bit for each key: then
    /// each number is the hash's. Any seeds are right.
    ///
    /// # Cost
    /// One pass over the words, and one over the sizes (evident from the code).
    ///
    /// ```
    /// hash.check();   // true of a block that `build` wrote
    /// ```
    pub fn check(&self) -> bool
        ensures { IsTrue result ↔ IsHash self.now.hash }
    {
        self.hash.check()
    }
}
