//! The nearest bit of a kind on either side of a position: a rank and a selection.
ghost use Rattle.std.specs.Prelude.{◌≡◌, ◌+◌, length};
ghost use Rattle.bit_lists.specs.Bits.{digit_count};
ghost use Rattle.bit_lists.specs.Count.{as_bit};
ghost use Rattle.bitm_select.specs.Answers.{HasBit, IsFoundFrom};
ghost use Rattle.bitm_tables.specs.Reads.{OnlyReads};
ghost use Rattle.bitm_tables.specs.Tables.{HasTables};
ghost use Rattle.bitm_view.specs.Cut.{bits_of_cut};
ghost use Rattle.bitm_view.specs.Queries.{NextIn, PreviousIn, SelectsIn};
ghost use Rattle.tables_view.specs.Nearest.{IsNext, IsPrevious};

use crate::view::IndexView;
use bitm_select::search::selecting::{ByTables, FindsEntry};
use bitm_tables::answer::Answer;
use bitm_tables::source::{Probe, TableSource};
use tables_view::{ByGuess, is_one, only_before, only_from};

impl<'a> IndexView<'a> {
    /// `select_on` in code of its own, which both neighbours share.
    #[inline(never)]
    fn select_apart<const BIT: u8, T: TableSource, F: FindsEntry<BIT, T>>(
        &self,
        source: &mut T,
        finder: &F,
        rank: usize,
    ) -> Answer<usize>
        requires { T.lists source.old ≡ self.now.lists }
        ensures selects { SelectsIn (as_bit BIT) self.now rank result }
        ensures reads { OnlyReads T.lists T.reads source.old source.new
            (digit_count (length self.now.lists.upper) + 1) F.lowers 8 }
    {
        self.select_on::<BIT, T, F>(source, finder, rank)
    }

    /// `next` over a source of the view's words and tables, where `finder` finds the entry.
    ///
    /// # Cost
    /// One rank and one selection: with u upper entries, at most two more of them than u has binary digits, one lower
    /// entry more than the finder reads, and sixteen words, whatever the tables hold.
    #[inline(always)]
    pub fn next_on<const BIT: u8, T: TableSource, F: FindsEntry<BIT, T>>(
        &self,
        source: &mut T,
        finder: &F,
        from: usize,
    ) -> Answer<usize>
        requires { T.lists source.old ≡ self.now.lists }
        ensures next { NextIn (as_bit BIT) self.now from result }
        ensures reads { OnlyReads T.lists T.reads source.old source.new
            (digit_count (length self.now.lists.upper) + 2) (F.lowers + 1) 16 }
    {
        if from >= self.len {
            return Answer::Absent;
        }
        match self.rank_on::<T>(source, is_one::<BIT>(), from) {
            Answer::Found(rank) => {
                only_from(self.select_apart::<BIT, T, F>(source, finder, rank), from)
            }
            Answer::Absent => Answer::Absent,
            Answer::Wrong => Answer::Wrong,
        }
    }

    /// The least position from `from` on that has a 1 bit; a 0 bit where `BIT` is 0.
    ///
    /// Whatever the tables hold, a position that is found is in the bit vector, not before `from`, and has such a bit.
    /// Where they match the words it is the least one, `Absent` is answered exactly where there is none, and `Wrong`
    /// never.
    ///
    /// # Cost
    /// The cost of `next_on` with `ByGuess`, or with `ByTables` where there are no samples of the kind.
    pub fn next<const BIT: u8>(&self, from: usize) -> Answer<usize>
        ensures bit { HasBit (bits_of_cut self.now) (as_bit BIT) result }
        ensures from { IsFoundFrom from self.now.len result }
        ensures counts { HasTables self.now.lists → IsNext (bits_of_cut self.now) (as_bit BIT) from result }
    {
        let source = &mut self.tables.probe();
        let samples = *self.samples::<BIT>();
        if samples.samples.is_empty() {
            return self.next_on::<BIT, Probe<'_>, ByTables>(source, &ByTables, from);
        }
        self.next_on::<BIT, Probe<'_>, ByGuess<'_>>(source, &ByGuess { samples }, from)
    }

    /// `previous` over a source of the view's words and tables, where `finder` finds the entry.
    ///
    /// # Cost
    /// The cost of `next_on`.
    #[inline(always)]
    pub fn previous_on<const BIT: u8, T: TableSource, F: FindsEntry<BIT, T>>(
        &self,
        source: &mut T,
        finder: &F,
        from: usize,
    ) -> Answer<usize>
        requires { T.lists source.old ≡ self.now.lists }
        ensures previous { PreviousIn (as_bit BIT) self.now from result }
        ensures reads { OnlyReads T.lists T.reads source.old source.new
            (digit_count (length self.now.lists.upper) + 2) (F.lowers + 1) 16 }
    {
        let end = if from < self.len { from + 1 } else { self.len };
        match self.rank_on::<T>(source, is_one::<BIT>(), end) {
            Answer::Found(ranks) => {
                if ranks == 0 {
                    Answer::Absent
                } else {
                    only_before(
                        self.select_apart::<BIT, T, F>(source, finder, ranks - 1),
                        end,
                    )
                }
            }
            Answer::Absent => Answer::Wrong,
            Answer::Wrong => Answer::Wrong,
        }
    }

    /// The greatest position up to `from` that has a 1 bit; a 0 bit where `BIT` is 0. `from` may be past the end.
    ///
    /// Whatever the tables hold, a position that is found is in the bit vector, not after `from`, and has such a bit.
    /// Where they match the words it is the greatest one, `Absent` is answered exactly where there is none, and `Wrong`
    /// never.
    ///
    /// # Cost
    /// The cost of `previous_on` with `ByGuess`, or with `ByTables` where there are no samples of the kind.
    pub fn previous<const BIT: u8>(&self, from: usize) -> Answer<usize>
        ensures bit { HasBit (bits_of_cut self.now) (as_bit BIT) result }
        ensures to { IsFoundFrom 0 (from + 1) result }
        ensures counts { HasTables self.now.lists → IsPrevious (bits_of_cut self.now) (as_bit BIT) from result }
    {
        let source = &mut self.tables.probe();
        let samples = *self.samples::<BIT>();
        if samples.samples.is_empty() {
            return self.previous_on::<BIT, Probe<'_>, ByTables>(source, &ByTables, from);
        }
        self.previous_on::<BIT, Probe<'_>, ByGuess<'_>>(source, &ByGuess { samples }, from)
    }
}
