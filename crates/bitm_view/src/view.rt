//! The view of an index in borrowed memory, and its queries.
ghost use Rattle.std.specs.Prelude.{◌≡◌, ◌≢◌, ◌+◌, ◌-◌, ◌<◌, ◌≤◌, ℕ, Bool, MatchOption, length, min, slice_index, true};
ghost use Rattle.bit_lists.specs.Bits.{digit_count};
ghost use Rattle.bit_lists.specs.Count.{count_before, count_of, as_bit, Picks};
ghost use Rattle.bitm_tables.specs.Tables.{HasTables, bits_in};
ghost use Rattle.bitm_tables.specs.Answers.{IfAbsent};
ghost use Rattle.bitm_view.specs.Cut.{bits_of_cut, cut_at, Cut, IsWithin, ClaimsNoneOf};
ghost use Rattle.bitm_view.specs.Queries.{RanksIn, SelectsIn};
ghost use Rattle.tables_view.specs.Counting.{Selects};
ghost use Rattle.tables_view.specs.Ranks.{IsCountWithin, IsRanked};
ghost use Rattle.tables_view.specs.Samples.{sampled};
ghost use Rattle.bitm_select.specs.Answers.{HasBit, IsSelected};
ghost use Rattle.bitm_tables.specs.Reads.{OnlyReads, ReadsAtMost};

mod many;
mod near;

use bit_words::slices::positions_in;
use bit_words::words;
use bitm_select::search::selecting::{ByTables, FindsEntry, search_on};
use bitm_tables::answer::Answer;
use bitm_tables::source::{Probe, TableSource};
use std::marker::Model;
use tables_view::{ByGuess, SamplesView, TablesView, is_one, ranked_on};

/// The answer of a selection, with `Absent` in place of a position at or after `len`.
#[inline(always)]
fn cut(selected: Answer<usize>, len: usize) -> Answer<usize>
    ensures { (v : Bool) (c : Cut) (r : ℕ) → c.len ≡ len → IsWithin c
        → Selects v c.lists r selected → SelectsIn v c r result }
{
    match selected {
        Answer::Found(position) => {
            if position < len {
                Answer::Found(position)
            } else {
                Answer::Absent
            }
        }
        Answer::Absent => Answer::Absent,
        Answer::Wrong => Answer::Wrong,
    }
}

/// A borrowed index: words with their two tables, whose first `len` bits are the bit vector, and samples of either
/// kind.
///
/// Contracts see the three lists, the length, and the samples of either kind. The bits after the bit vector may be
/// anything: answers depend on the first `len` bits alone. Samples never change an answer, whatever they hold.
#[derive(Drop)]
pub struct IndexView<'a> {
    tables: TablesView<'a>,
    len: usize,
    ones: SamplesView<'a>,
    zeros: SamplesView<'a>,
}

impl<'a> Model for IndexView<'a> {
    ghost use Rattle.bitm_view.specs.Cut.{cut_at, Cut, IsSizedCut};
    ghost use Rattle.tables_view.specs.Samples.{sampled};

    ghost Value = { Cut };

    ghost view = { λ i. record {
      lists = i.tables;
      len = i.len;
      ones = sampled i.ones;
      zeros = sampled i.zeros;
    } };

    ghost invariant = { λ i. IsSizedCut (cut_at i.tables i.len) };
}

impl<'a> IndexView<'a> {
    /// A view of the first `len` bits, without samples; `None` exactly where there are fewer bits.
    #[inline(always)]
    #[tactic(auto, using(bitm::proofs::BitLaws::bits_are_counted))]
    pub fn over(tables: TablesView<'a>, len: usize) -> Option<IndexView<'a>>
        ensures { MatchOption result (length (bits_in tables.entry) < len)
            (λ view. (view ≡ cut_at tables.entry len) × IsWithin view) }
    {
        if len > tables.words().len() * 64 {
            return None;
        }
        Some(IndexView {
            tables,
            len,
            ones: SamplesView::none(),
            zeros: SamplesView::none(),
        })
    }

    /// The same view with these samples of 1 bits, in place of the samples that it had; of 0 bits where `BIT` is 0. The
    /// samples of the other kind are kept.
    #[inline(always)]
    pub fn with_samples<const BIT: u8>(self, samples: SamplesView<'a>) -> IndexView<'a>
        ensures zeros { BIT ≡ 0 → result ≡ record self.entry { zeros = sampled samples.entry } }
        ensures ones { BIT ≢ 0 → result ≡ record self.entry { ones = sampled samples.entry } }
    {
        let IndexView {
            tables,
            len,
            ones,
            zeros,
        } = self;
        if BIT == 0 {
            return IndexView {
                tables,
                len,
                ones,
                zeros: samples,
            };
        }
        IndexView {
            tables,
            len,
            ones: samples,
            zeros,
        }
    }

    /// The samples of one kind.
    #[inline(always)]
    fn samples<const BIT: u8>(&self) -> &SamplesView<'a> {
        if BIT == 0 { &self.zeros } else { &self.ones }
    }

    /// How many of the first `index` bits are 1 bits, or 0 bits, over a source of the view's words and tables.
    ///
    /// # Cost
    /// At most one upper entry, one lower entry and eight words are read.
    #[inline(always)]
    pub fn rank_on<T: TableSource>(&self, source: &mut T, one: bool, index: usize) -> Answer<usize>
        requires { T.lists source.old ≡ self.now.lists }
        ensures ranks { RanksIn one self.now index result }
        ensures reads { OnlyReads T.lists T.reads source.old source.new 1 1 8 }
    {
        if index > self.len {
            return Answer::Absent;
        }
        ranked_on(source, one, index)
    }

    /// How many of the first `index` bits are 1 bits, or 0 bits: `Absent` exactly where the bit vector has fewer,
    /// whatever the tables hold; else as `TablesView::rank`.
    ///
    /// # Cost
    /// The cost of `rank_on`.
    #[inline(always)]
    pub fn rank_of(&self, one: bool, index: usize) -> Answer<usize>
        ensures within { IsCountWithin self.now.len index result }
        ensures counts { HasTables self.now.lists → IsRanked (bits_of_cut self.now) one index result }
    {
        self.rank_on(&mut self.tables.probe(), one, index)
    }

    /// How many of the first `index` bits are 1 bits; 0 bits where `BIT` is 0. As `rank_of`.
    #[inline(always)]
    pub fn rank<const BIT: u8>(&self, index: usize) -> Answer<usize>
        ensures within { IsCountWithin self.now.len index result }
        ensures counts { HasTables self.now.lists → IsRanked (bits_of_cut self.now) (as_bit BIT) index result }
    {
        self.rank_of(is_one::<BIT>(), index)
    }

    /// The position of the 1 bit with rank `rank` over a source of the view's words and tables, where `finder` finds
    /// the entry: `ByTables`, or `ByGuess` by samples. Of the 0 bit where `BIT` is 0.
    ///
    /// # Cost
    /// With u upper entries, a query reads at most one more of them than u has binary digits, the lower entries that
    /// the finder reads, and eight words, whatever the tables hold. `ByTables` reads at most 23 lower entries;
    /// `ByGuess` at most 51, and at most 28 where tables and samples match the words.
    #[inline(always)]
    pub fn select_on<const BIT: u8, T: TableSource, F: FindsEntry<BIT, T>>(
        &self,
        source: &mut T,
        finder: &F,
        rank: usize,
    ) -> Answer<usize>
        requires { T.lists source.old ≡ self.now.lists }
        ensures selects { SelectsIn (as_bit BIT) self.now rank result }
        ensures reads { OnlyReads T.lists T.reads source.old source.new
            (digit_count (length self.now.lists.upper) + 1) F.lowers 8 }
        ensures reads_led { F.leads finder.now self.now.lists
            → ReadsAtMost (T.reads source.old) (T.reads source.new)
            (digit_count (length self.now.lists.upper) + 1) F.lowers_led 8 }
    {
        let len = self.len;
        cut(search_on::<BIT, 1, T, F>(source, finder, rank), len)
    }

    /// The position of the 1 bit with rank `rank`, as `TablesView::select`: bits after the bit vector are not found. Of
    /// the 0 bit where `BIT` is 0.
    ///
    /// Whatever the tables hold, the answer is `Absent` only where tables and words claim at most `rank` such bits, or
    /// the words have such a bit after the bit vector.
    ///
    /// # Cost
    /// The cost of `select_on` with `ByGuess`, or with `ByTables` where there are no samples of the kind.
    #[inline(always)]
    pub fn select<const BIT: u8>(&self, rank: usize) -> Answer<usize>
        ensures bit { HasBit (bits_of_cut self.now) (as_bit BIT) result }
        ensures counts { HasTables self.now.lists → IsSelected (bits_of_cut self.now) (as_bit BIT) rank result }
        ensures absent { IfAbsent result (ClaimsNoneOf (as_bit BIT) self.now rank) }
    {
        let source = &mut self.tables.probe();
        let samples = *self.samples::<BIT>();
        if samples.samples.is_empty() {
            return self.select_on::<BIT, Probe<'_>, ByTables>(source, &ByTables, rank);
        }
        self.select_on::<BIT, Probe<'_>, ByGuess<'_>>(source, &ByGuess { samples }, rank)
    }

    /// The words with their tables.
    #[inline(always)]
    pub fn tables(&self) -> &TablesView<'a>
        ensures { result.now ≡ self.now.lists }
    {
        &self.tables
    }

    /// The number of 1 bits in the bit vector; of 0 bits where `BIT` is 0. Counted in the words alone, so it is right
    /// whatever the tables hold.
    ///
    /// # Cost
    /// Each word of the bit vector is read once.
    pub fn count<const BIT: u8>(&self) -> usize
        ensures { result ≡ count_of (bits_of_cut self.now) (as_bit BIT) }
    {
        let ones = self.ones();
        if BIT == 0 { self.len - ones } else { ones }
    }

    /// The number of 1 bits in the bit vector, counted in the words.
    fn ones(&self) -> usize
        ensures { result ≡ count_of (bits_of_cut self.now) true }
    {
        words::count_range(self.tables.words(), 0, self.len)
    }

    /// Writes the positions of the 1 bits from position `from` on in rising order until `out` is full, and returns
    /// their number; of the 0 bits where `BIT` is 0. The rest of `out` keeps its values. The tables are not read, so
    /// the positions are right whatever they hold.
    ///
    /// # Cost
    /// The cost of `bit_words::slices::positions_in`.
    pub fn positions_from<const BIT: u8>(&self, from: usize, out: &mut [usize]) -> usize
        ensures number { let b = bits_of_cut self.now in result ≡ min (length out.old)
            (count_of b (as_bit BIT) - count_before b (as_bit BIT) from) }
        ensures len { length out.new ≡ length out.old }
        ensures positions { let b = bits_of_cut self.now in (j : ℕ) → j < result
            → Picks b (as_bit BIT) (count_before b (as_bit BIT) from + j) (slice_index out.new j) }
        ensures kept { (j : ℕ) → result ≤ j → slice_index out.new j ≡ slice_index out.old j }
    {
        let words = self.tables.words();
        positions_in(words, self.len, is_one::<BIT>(), from, out)
    }
}
