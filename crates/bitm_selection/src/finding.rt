//! Ways to find the bit of a rank in a source whose words and tables may hold anything.
ghost use Rattle.std.specs.Prelude.{◌≡◌, ◌+◌, ◌-◌, ◌*◌, ◌^◌, ◌<◌, ◌≤◌, ⊤, true, false};
ghost use Rattle.bitm_select.specs.Answers.{IsFoundFrom, IsSelected};
ghost use Rattle.bitm_tables.specs.declared.source.counts.ReadCounts.{ReadCounts};
ghost use Rattle.bitm_tables.specs.Reads.{none_read};
ghost use Rattle.bitm_tables.specs.Tables.{bits_in, HasSizes, HasTables, Lists};
ghost use Rattle.bitm_selection.specs.Hints.{by_hint, AreHints};
ghost use Rattle.bitm_selection.specs.Selection.{by_halves, OnlySelectsBy};

use crate::hints::{Hints, hinted_select_on};
use bitm::{RankSelect101111, Select, Select0};
use bitm_select::search::selecting::{ByTables, total_select_on};
use bitm_strategies::{Select0ForRank101111, SelectForRank101111};
use bitm_tables::answer::Answer;
use bitm_tables::source::TableSource;
use std::convert::AsSlice;

/// A way to find the bit of a rank in a source that may hold anything.
pub trait Finds {
    /// Whether the value finds the bits of these words, where the tables match the words.
    ghost finds: { Self → Lists → Type 0 };

    /// What one search reads of a source at most.
    ghost most: { Lists → ReadCounts };

    /// The position of the 1 bit of the source's words with exactly `rank` 1 bits before it.
    ///
    /// Whatever the source holds, a position is less than 2^64 - 1. Where its tables match its words, in which the
    /// value finds bits, the position is the right one, the answer is `Absent` exactly where there is no such bit, and
    /// it is never `Wrong`.
    ///
    /// # Conditions
    /// There are fewer than 2^58 words, and the tables have the right lengths. They may hold anything.
    /// # Cost
    /// Of the source, what `most` says, whatever it holds.
    fn one<T: TableSource>(&self, source: &mut T, rank: usize) -> Answer<usize>
        requires { HasSizes (T.lists source.old) }
        ensures answer { HasTables (T.lists source.old) → finds self.now (T.lists source.old)
            → IsSelected (bits_in (T.lists source.old)) true rank result }
        ensures small { IsFoundFrom 0 (2 ^ 64 - 1) result }
        ensures reads { OnlySelectsBy T.lists T.reads source.old source.new
            (most (T.lists source.old)) 1 0 };

    /// The position of the 0 bit of the source's words with exactly `rank` 0 bits before it; else as `one`.
    ///
    /// # Conditions
    /// The conditions of `one`.
    /// # Cost
    /// The cost of `one`.
    fn zero<T: TableSource>(&self, source: &mut T, rank: usize) -> Answer<usize>
        requires { HasSizes (T.lists source.old) }
        ensures answer { HasTables (T.lists source.old) → finds self.now (T.lists source.old)
            → IsSelected (bits_in (T.lists source.old)) false rank result }
        ensures small { IsFoundFrom 0 (2 ^ 64 - 1) result }
        ensures reads { OnlySelectsBy T.lists T.reads source.old source.new
            (most (T.lists source.old)) 1 0 };
}

/// By binary search in the tables, in any words: a search reads at most one upper entry more than their number has
/// binary digits, 23 lower entries and eight words, whatever the tables hold.
impl Finds for ByTables {
    ghost finds = { λ _ _. ⊤ };

    ghost most = { by_halves };

    #[tactic(auto, using(bit_lists::proofs::BitLaws::bits_are_counted))]
    #[inline(always)]
    fn one<T: TableSource>(&self, source: &mut T, rank: usize) -> Answer<usize> {
        total_select_on::<1, T>(source, rank)
    }

    #[tactic(auto, using(bit_lists::proofs::BitLaws::bits_are_counted))]
    #[inline(always)]
    fn zero<T: TableSource>(&self, source: &mut T, rank: usize) -> Answer<usize> {
        total_select_on::<0, T>(source, rank)
    }
}

/// By the hints of the words, and by binary search in the tables where these do not lead to the bit: a search reads a
/// hint and nine words, and at most what one by binary search reads besides, whatever tables and hints hold.
impl<'a> Finds for Hints<'a> {
    ghost finds = { λ hints lists. AreHints true lists.words hints.ones.now
        × AreHints false lists.words hints.zeros.now };

    ghost most = { by_hint };

    #[tactic(auto, using(bit_lists::proofs::BitLaws::bits_are_counted))]
    #[inline(always)]
    fn one<T: TableSource>(&self, source: &mut T, rank: usize) -> Answer<usize> {
        hinted_select_on::<1, T>(source, self.ones, rank)
    }

    #[tactic(auto, using(bit_lists::proofs::BitLaws::bits_are_counted))]
    #[inline(always)]
    fn zero<T: TableSource>(&self, source: &mut T, rank: usize) -> Answer<usize> {
        hinted_select_on::<0, T>(source, self.zeros, rank)
    }
}

/// By the index's own strategies, in its own words: nothing is read of the source, and what a strategy reads of the
/// index no clause says.
impl<S: SelectForRank101111, S0: Select0ForRank101111, BV: AsSlice<u64>> Finds
    for RankSelect101111<S, S0, BV> {
    ghost finds = { λ index lists. lists.words ≡ BV.items index.content };

    ghost most = { λ _. none_read };

    #[tactic(auto, using(bit_lists::proofs::BitLaws::bits_are_counted))]
    #[inline(always)]
    fn one<T: TableSource>(&self, _source: &mut T, rank: usize) -> Answer<usize> {
        let _own = self.probe();
        match self.try_select(rank) {
            Some(position) => Answer::Found(position),
            None => Answer::Absent,
        }
    }

    #[tactic(auto, using(bit_lists::proofs::BitLaws::bits_are_counted))]
    #[inline(always)]
    fn zero<T: TableSource>(&self, _source: &mut T, rank: usize) -> Answer<usize> {
        let _own = self.probe();
        match self.try_select0(rank) {
            Some(position) => Answer::Found(position),
            None => Answer::Absent,
        }
    }
}
