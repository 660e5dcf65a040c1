//! A hash in memory that may hold anything.
ghost use Rattle.std.specs.Prelude.{◌≡◌, ◌+◌, ◌<◌, ◌≤◌, ◌↔◌, IfSome, IsTrue, length, None, SomeIff};
ghost use Rattle.bitm_tables.specs.Reads.{none_read, ReadsAtMost};
ghost use Rattle.bit_lists.specs.Count.{ones_of};
ghost use Rattle.bitm_tables.specs.Tables.{bits_in, HasTables, IsIndexed};
ghost use Rattle.bitm_tables.specs.Answers.{IfAbsent};
ghost use Rattle.perfect_hash.specs.Asking.{IsBelow, IsNumbered};
ghost use Rattle.perfect_hash.specs.Numbers.{number_by};
ghost use Rattle.perfect_hash.specs.Placed.{FitIn};
ghost use Rattle.hash_block.specs.Dictionary.{number_of_key};
ghost use Rattle.hash_block.specs.Parts.{IsHash};

use crate::hashing::Added;
use crate::levels::are_levels;
use crate::sections::LEVELS;
use bitm_tables::answer::Answer;
use bitm_tables::ranking::rank_on;
use bitm_tables::source::TableSource;
use bitm_tables::source::counts::ReadCounts;
use perfect_hash::levels::KeyHash;
use perfect_hash::total_number_on;
use std::marker::Model;
use tables_view::TablesView;

/// A minimal perfect hash in memory that may hold anything: the words of all levels with their tables, how many words
/// each level has, the number of keys, and the seed that the caller hashed them by.
///
/// Contracts see these. A call says its answer where they form a hash, and where they do not.
///
/// ```
/// let Some(hash) = open(block.as_slice()) else { .. };
/// hash.check();   // true of a block that `build` wrote
/// hash.get(9);    // Found(number), Absent or Wrong
/// ```
#[derive(Drop)]
pub struct HashView<'a> {
    tables: TablesView<'a>,
    sizes: &'a [usize],
    keys: usize,
    seed: u64,
}

impl<'a> Model for HashView<'a> {
    ghost use Rattle.hash_block.specs.Parts.{HasLengths, HashParts};

    ghost Value = { HashParts };

    ghost view = { λ h. record {
      lists = h.tables;
      sizes = h.sizes.now;
      keys = h.keys;
      seed = h.seed;
    } };

    ghost invariant = { λ h. HasLengths (record {
      lists = h.tables;
      sizes = h.sizes.now;
      keys = h.keys;
      seed = h.seed;
    }) };
}

impl<'a> HashView<'a> {
    /// A hash over words with their tables; `None` exactly where there are more than 256 levels.
    ///
    /// ```
    /// HashView::over(tables, &sizes, 3, 7);   // Some(..) of up to 256 sizes
    /// ```
    #[inline(always)]
    pub fn over(
        tables: TablesView<'a>,
        sizes: &'a [usize],
        keys: usize,
        seed: u64,
    ) -> Option<HashView<'a>>
        ensures { SomeIff result (length sizes.now ≤ 256) (record {
          lists = tables.entry;
          sizes = sizes.now;
          keys = keys;
          seed = seed;
        }) }
    {
        if sizes.len() > LEVELS {
            return None;
        }
        Some(HashView {
            tables,
            sizes,
            keys,
            seed,
        })
    }

    /// The words of all levels and their tables.
    ///
    /// ```
    /// hash.tables().words().len();   // 1
    /// ```
    #[inline(always)]
    pub fn tables(&self) -> &TablesView<'a>
        ensures { result.now ≡ self.now.lists }
    {
        &self.tables
    }

    /// How many words each level has.
    ///
    /// ```
    /// hash.sizes();   // [1]
    /// ```
    #[inline(always)]
    pub fn sizes(&self) -> &'a [usize]
        ensures sizes { result.now ≡ self.now.sizes }
        ensures few { length result.now ≤ 256 }
    {
        self.sizes
    }

    /// How many keys the header announces.
    ///
    /// ```
    /// hash.keys();   // 3
    /// ```
    #[inline(always)]
    pub fn keys(&self) -> usize
        ensures { result ≡ self.now.keys }
    {
        self.keys
    }

    /// The seed by which the caller hashed the keys.
    ///
    /// ```
    /// hash.seed();   // 7
    /// ```
    #[inline(always)]
    pub fn seed(&self) -> u64
        ensures { result ≡ self.now.seed }
    {
        self.seed
    }

    /// The number of a hash, below the number of keys.
    ///
    /// Whatever the memory holds, `Absent` is answered only where the sizes are sizes of levels in the words and the
    /// hash falls on no 1 bit. Where it holds a hash, the number is the hash's, and the answer is never `Wrong`. A
    /// value that is no key may have any number.
    ///
    /// # Cost
    /// The cost of `get_counted`.
    ///
    /// ```
    /// hash.get(9);   // Found(number), Absent or Wrong
    /// ```
    #[inline]
    pub fn get(&self, hash: u64) -> Answer<usize>
        ensures below { IsBelow self.now.keys result }
        ensures number { IsHash self.now
            → IsNumbered (number_by self.now.sizes (bits_in self.now.lists) hash) result }
        ensures fit { IfAbsent result (FitIn (length self.now.lists.words) self.now.sizes) }
        ensures none { IfAbsent result
            (number_by self.now.sizes (bits_in self.now.lists) hash ≡ None) }
    {
        self.get_counted(hash).0
    }

    /// The number of a key, which is hashed by its sum with the seed.
    ///
    /// # Conditions
    /// The parts form a hash.
    #[inline(always)]
    pub(crate) fn number_of(&self, key: u64) -> Option<usize>
        requires { IsHash self.now }
        ensures number { result ≡ number_of_key self.now key }
        ensures below { IfSome result (λ number. number < self.now.keys) }
    {
        let hash = Added { seed: self.seed }.hash(&key);
        match self.get(hash) {
            Answer::Found(number) => Some(number),
            _ => None,
        }
    }

    /// The answer of `get`, and its reads, whatever the memory holds: at most one word of each level, and one upper
    /// entry, one lower entry and eight words for the rank.
    ///
    /// ```
    /// hash.get_counted(9).1.words();   // at most 9 of one level
    /// ```
    #[inline]
    pub fn get_counted(&self, hash: u64) -> (Answer<usize>, ReadCounts)
        ensures below { IsBelow self.now.keys result.0 }
        ensures number { IsHash self.now
            → IsNumbered (number_by self.now.sizes (bits_in self.now.lists) hash) result.0 }
        ensures fit { IfAbsent result.0 (FitIn (length self.now.lists.words) self.now.sizes) }
        ensures none { IfAbsent result.0
            (number_by self.now.sizes (bits_in self.now.lists) hash ≡ None) }
        ensures reads { ReadsAtMost none_read result.1 1 1 (length self.now.sizes + 8) }
    {
        let mut probe = self.tables.probe();
        let number = total_number_on(&mut probe, self.sizes, self.keys, hash);
        (number, probe.into_reads())
    }

    /// Whether the tables match the words, the words are levels of these sizes, and there is a 1 bit for each key: then
    /// each number is the hash's.
    ///
    /// # Cost
    /// One pass over the words, and one over the sizes (evident from the code).
    ///
    /// ```
    /// hash.check();   // true of a block that `build` wrote
    /// ```
    pub fn check(&self) -> bool
        ensures { IsTrue result ↔ IsHash self.now }
    {
        self.tables.check() && are_levels(self.tables.words(), self.sizes) && self.has_ones()
    }

    /// Whether there is a 1 bit for each key, by the tables.
    #[inline(always)]
    #[tactic(auto, using(bitm::proofs::BitLaws::bits_are_counted))]
    fn has_ones(&self) -> bool
        requires { HasTables self.now.lists }
        ensures { IsTrue result ↔ ones_of (bits_in self.now.lists) ≡ self.now.keys }
    {
        let bits = 64 * self.tables.words().len();
        ones_on(&mut self.tables.probe(), bits) == self.keys
    }
}

/// How many 1 bits there are among all bits.
#[inline(always)]
fn ones_on<T: TableSource>(source: &mut T, bits: usize) -> usize
    requires indexed { IsIndexed (T.lists source.old) }
    requires all { bits ≡ length (bits_in (T.lists source.old)) }
    ensures { result ≡ ones_of (bits_in (T.lists source.old)) }
{
    match rank_on(source, bits) {
        Some(ones) => ones,
        None => unreachable!(),
    }
}
