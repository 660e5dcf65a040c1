//! Selection by binary search in the two tables, with nothing kept beside them.
ghost use Rattle.std.specs.Prelude.{◌≡◌, ◌+◌, length, true, false, IsOk, IfOk};
ghost use Rattle.bit_lists.specs.Bits.{bits_of, digit_count, IsShort};
ghost use Rattle.bit_lists.specs.Count.{ones_of, IsSelect};
ghost use Rattle.bitm_tables.specs.Reads.{OnlyReads};
ghost use Rattle.bitm_tables.specs.Tables.{AreTablesOf, IsIndexed, bits_in};

use crate::traits::{Select0ForRank101111, SelectForRank101111};
use bitm_bits::GetSize;
use bitm_select::search::selecting::binary_select_on;
use bitm_tables::source::{Probe, TableSource};
use std::alloc::{AllocError, Global};

/// Selects by binary search: the upper block by the upper table, the lower block by the lower one, then its basic
/// block, where at most eight words are read. It keeps nothing and supports every bit vector of fewer than 2^58 words.
#[derive(Clone, Copy, Debug, PartialEq, Eq)]
pub struct BinaryRankSearch;

impl BinaryRankSearch {
    /// The position of the 1 bit of the source's words with exactly `rank` 1 bits before it; `None` exactly where there
    /// is none.
    ///
    /// # Conditions
    /// The source's tables match its words, which are fewer than 2^58.
    /// # Cost
    /// At most `digits + 1` upper entries, 23 lower entries and eight words are read, where `digits` is the number of
    /// binary digits of the number of upper entries.
    #[inline]
    pub fn select_counted<T: TableSource>(&self, source: &mut T, rank: usize) -> Option<usize>
        requires { IsIndexed (T.lists source.old) }
        ensures answer { IsSelect (bits_in (T.lists source.old)) true rank result }
        ensures reads { OnlyReads T.lists T.reads source.old source.new
            (digit_count (length (T.lists source.old).upper) + 1) 23 8 }
    {
        binary_select_on::<1, T>(source, rank)
    }

    /// The position of the 0 bit of the source's words with exactly `rank` 0 bits before it; `None` exactly where there
    /// is none.
    ///
    /// # Conditions
    /// The source's tables match its words, which are fewer than 2^58.
    /// # Cost
    /// At most `digits + 1` upper entries, 23 lower entries and eight words are read, where `digits` is the number of
    /// binary digits of the number of upper entries.
    #[inline]
    pub fn select0_counted<T: TableSource>(&self, source: &mut T, rank: usize) -> Option<usize>
        requires { IsIndexed (T.lists source.old) }
        ensures answer { IsSelect (bits_in (T.lists source.old)) false rank result }
        ensures reads { OnlyReads T.lists T.reads source.old source.new
            (digit_count (length (T.lists source.old).upper) + 1) 23 8 }
    {
        binary_select_on::<0, T>(source, rank)
    }
}

impl SelectForRank101111 for BinaryRankSearch {
    ghost supports = { λ _ words. IsShort words };

    /// A value that keeps nothing: this takes no memory and always succeeds.
    #[inline(always)]
    fn new(
        _alloc: Global,
        _content: &[u64],
        _l1ranks: &[usize],
        _l2ranks: &[u64],
        _total_rank: usize,
    ) -> Result<Self, AllocError>
        requires short { IsShort _content.now }
        requires tables { AreTablesOf (bits_of _content.now) _l1ranks.now _l2ranks.now }
        requires total { _total_rank ≡ ones_of (bits_of _content.now) }
        // These clauses replace that of the trait, which the second repeats.
        ensures succeeds { IsOk result }
        ensures supports { IfOk result (λ _. IsShort _content.now) }
    {
        Ok(BinaryRankSearch)
    }

    #[inline]
    fn select(
        &self,
        content: &[u64],
        l1ranks: &[usize],
        l2ranks: &[u64],
        rank: usize,
    ) -> Option<usize> {
        self.select_counted(&mut Probe::new(content, l1ranks, l2ranks), rank)
    }
}

impl Select0ForRank101111 for BinaryRankSearch {
    ghost supports0 = { λ _ words. IsShort words };

    /// A value that keeps nothing: this takes no memory and always succeeds.
    #[inline(always)]
    fn new0(
        _alloc: Global,
        _content: &[u64],
        _l1ranks: &[usize],
        _l2ranks: &[u64],
        _total_rank: usize,
    ) -> Result<Self, AllocError>
        requires short { IsShort _content.now }
        requires tables { AreTablesOf (bits_of _content.now) _l1ranks.now _l2ranks.now }
        requires total { _total_rank ≡ ones_of (bits_of _content.now) }
        // These clauses replace that of the trait, which the second repeats.
        ensures succeeds { IsOk result }
        ensures supports { IfOk result (λ _. IsShort _content.now) }
    {
        Ok(BinaryRankSearch)
    }

    #[inline]
    fn select0(
        &self,
        content: &[u64],
        l1ranks: &[usize],
        l2ranks: &[u64],
        rank: usize,
    ) -> Option<usize> {
        self.select0_counted(&mut Probe::new(content, l1ranks, l2ranks), rank)
    }
}

impl GetSize for BinaryRankSearch {
    #[inline(always)]
    fn size_bytes_dyn(&self) -> usize {
        0
    }
}
