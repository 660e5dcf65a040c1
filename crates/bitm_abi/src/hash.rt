//! A perfect hash as C passes it, and the numbers of hashes, one or a list.
ghost use Rattle.std.specs.Prelude.{◌≡◌, ℕ, ◌<◌, ◌≤◌, ◌↔◌, IsTrue, false, length, slice_index, SomeIff};
ghost use Rattle.bitm_tables.specs.Tables.{HasSizes};
ghost use Rattle.bitm_view.specs.Queries.{ranked_by};
ghost use Rattle.bitm_abi.specs.Hash.{hash_lists, parts_of, seeded_parts, CanBeHash, IsHashNumber};

use crate::index::Index;
use bitm_select::search::selected::WRONG_TABLES;
use bitm_tables::answer::Answer;
use bitm_tables::source::counts::ReadCounts;
use perfect_hash::levels::Plain;
use perfect_hash::{SeedsView, total_number_by_on, total_numbers_on};
use std::marker::Model;
use tables_view::TablesView;

/// At most this many levels are queried.
const LEVELS: usize = 256;

/// A perfect hash in the caller's memory: the index over the words of all levels, whose `bits_len` and samples are not
/// read, the number of words of each level, and the number of keys.
#[repr(C)]
#[derive(Clone, Copy)]
pub struct Hash<'a> {
    /// The index over the words of all levels.
    pub index: Index<'a>,
    /// The number of words of each level.
    pub sizes: &'a [usize],
    /// The number of keys.
    pub keys: usize,
}

/// A perfect hash with a seed for each word of all levels.
#[repr(C)]
#[derive(Clone, Copy)]
pub struct SeededHash<'a> {
    /// The levels, and the number of keys.
    pub hash: Hash<'a>,
    /// The seeds; where there are none, the bits of hashes alone place them.
    pub seeds: &'a [u8],
}

/// A perfect hash whose lengths are right, as the library queries it. The words, tables and sizes may hold anything.
#[derive(Drop)]
pub struct PerfectHashView<'a> {
    tables: TablesView<'a>,
    sizes: &'a [usize],
    keys: usize,
    seeds: &'a [u8],
}

impl<'a> Model for PerfectHashView<'a> {
    ghost use Rattle.bitm_abi.specs.Hash.{CanBeHash, HashLists};

    ghost Value = { HashLists };

    ghost view = { λ h. record {
      lists = h.tables;
      sizes = h.sizes.now;
      keys = h.keys;
      seeds = h.seeds.now;
    } };

    ghost invariant = { λ h. CanBeHash (record {
      lists = h.tables;
      sizes = h.sizes.now;
      keys = h.keys;
      seeds = h.seeds.now;
    }) };
}

impl<'a> Hash<'a> {
    /// The words and tables as the library queries them; `None` exactly where a length is not right.
    #[inline(always)]
    pub fn borrowed(&self) -> Option<TablesView<'a>>
        ensures { SomeIff result (HasSizes (hash_lists self.now) × (length self.now.sizes.now ≤ 256))
            (hash_lists self.now) }
    {
        if self.sizes.len() > LEVELS {
            return None;
        }
        TablesView::over(self.index.words, self.index.upper, self.index.lower)
    }

    /// The hash as the library queries it; `None` exactly where a length is not right.
    #[inline(always)]
    pub fn view(&self) -> Option<PerfectHashView<'a>>
        ensures { SomeIff result (CanBeHash (parts_of self.now)) (parts_of self.now) }
    {
        let tables = self.borrowed()?;
        Some(PerfectHashView {
            tables,
            sizes: self.sizes,
            keys: self.keys,
            seeds: [].as_slice(),
        })
    }
}

impl<'a> SeededHash<'a> {
    /// The hash as the library queries it; `None` exactly where a length is not right.
    #[inline(always)]
    pub fn view(&self) -> Option<PerfectHashView<'a>>
        ensures { SomeIff result (CanBeHash (seeded_parts self.now)) (seeded_parts self.now) }
    {
        let hash = &self.hash;
        if self.seeds.len() != 0 && self.seeds.len() != hash.index.words.len() {
            return None;
        }
        let tables = hash.borrowed()?;
        Some(PerfectHashView {
            tables,
            sizes: hash.sizes,
            keys: hash.keys,
            seeds: self.seeds,
        })
    }
}

impl<'a> PerfectHashView<'a> {
    /// The number of a hash.
    #[inline(always)]
    pub fn number(&self, hash: u64) -> Answer<usize>
        ensures { IsHashNumber self.now hash result }
    {
        let (source, reads) = (&mut self.tables.probe(), &mut ReadCounts::new());
        if self.seeds.len() == 0 {
            total_number_by_on(source, &Plain, self.sizes, self.keys, hash, reads)
        } else {
            let placing = SeedsView { seeds: self.seeds };
            total_number_by_on(source, &placing, self.sizes, self.keys, hash, reads)
        }
    }

    /// Writes the number of each hash. Returns false, and writes nothing, exactly where `out` is not as long as
    /// `hashes`.
    pub fn number_list(&self, hashes: &[u64], out: &mut [usize]) -> bool
        ensures room { IsTrue result ↔ length out.old ≡ length hashes.now }
        ensures numbers { IsTrue result → (j : ℕ) → j < length hashes.now → IsHashNumber self.now
            (slice_index hashes.now j) (ranked_by (slice_index out.new j)) }
        ensures kept { result ≡ false → out.new ≡ out.old }
    {
        if out.len() != hashes.len() {
            return false;
        }
        self.number_each(hashes, out);
        true
    }

    /// The number of each hash.
    fn number_each(&self, hashes: &[u64], out: &mut [usize])
        requires { length out.old ≡ length hashes.now }
        ensures { (j : ℕ) → j < length hashes.now → IsHashNumber self.now (slice_index hashes.now j)
            (ranked_by (slice_index out.new j)) }
    {
        let source = &mut self.tables.probe();
        // A number is no code, whatever the number of keys.
        let count = self.keys.min(WRONG_TABLES);
        if self.seeds.len() == 0 {
            total_numbers_on(source, &Plain, self.sizes, count, hashes, out);
        } else {
            let placing = SeedsView { seeds: self.seeds };
            total_numbers_on(source, &placing, self.sizes, count, hashes, out);
        }
    }
}
