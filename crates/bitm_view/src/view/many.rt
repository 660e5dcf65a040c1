//! Lists of ranks and selections of an index in borrowed memory, by the codes of lists.
ghost use Rattle.std.specs.Prelude.{◌≡◌, ◌+◌, ◌*◌, ◌<◌, ◌↔◌, ℕ, Bool, IsTrue, length, slice_index, false};
ghost use Rattle.bit_lists.specs.Bits.{digit_count};
ghost use Rattle.bit_lists.specs.Count.{as_bit};
ghost use Rattle.bitm_view.specs.Queries.{ranked_by, selected_by, RanksIn, SelectsIn};
ghost use Rattle.bitm_select.specs.Answers.{AreRankCodes, IsRankCode, IsSelectCode, AreSelectCodes};
ghost use Rattle.bitm_tables.specs.Reads.{OnlyReads};

use crate::view::IndexView;
use bitm_select::many::lists::{FindsEntries, total_rank_many_on};
use bitm_select::search::selected::{NO_ANSWER, WRONG_TABLES};
use bitm_select::search::selecting::ByTables;
use bitm_tables::source::{Probe, TableSource};
use tables_view::{SamplesView, select_list_on};

impl<'a> IndexView<'a> {
    /// `rank_each` over a source of the view's words and tables.
    ///
    /// # Cost
    /// For each position at most one upper entry, one lower entry and eight words are read.
    #[inline(always)]
    pub fn rank_each_on<const BIT: u8, T: TableSource>(
        &self,
        source: &mut T,
        positions: &[usize],
        out: &mut [usize],
    ) -> bool
        requires { T.lists source.old ≡ self.now.lists }
        ensures room { IsTrue result ↔ length out.old ≡ length positions.now }
        ensures ranks { IsTrue result → (j : ℕ) → j < length positions.now → RanksIn (as_bit BIT)
            self.now (slice_index positions.now j) (ranked_by (slice_index out.new j)) }
        ensures kept { result ≡ false → out.new ≡ out.old }
        ensures reads { OnlyReads T.lists T.reads source.old source.new
            (length positions.now) (length positions.now) (8 * length positions.now) }
    {
        if out.len() != positions.len() {
            return false;
        }
        let _len = self.len; // makes the lengths of the tables known to the proof
        total_rank_many_on::<BIT, T>(source, positions, &mut *out);
        self.cut_ranks::<BIT>(positions, out);
        true
    }

    /// Writes the rank of each position as `rank` answers it, by the codes of lists; queries run side by side where the
    /// words do not fit a processor's caches. Returns false, and writes nothing, exactly where `out` is not as long as
    /// `positions`.
    ///
    /// # Cost
    /// The cost of `rank_each_on`.
    pub fn rank_each<const BIT: u8>(&self, positions: &[usize], out: &mut [usize]) -> bool
        ensures room { IsTrue result ↔ length out.old ≡ length positions.now }
        ensures ranks { IsTrue result → (j : ℕ) → j < length positions.now → RanksIn (as_bit BIT)
            self.now (slice_index positions.now j) (ranked_by (slice_index out.new j)) }
        ensures kept { result ≡ false → out.new ≡ out.old }
    {
        self.rank_each_on::<BIT, Probe<'_>>(&mut self.tables.probe(), positions, out)
    }

    /// Puts `NO_ANSWER` in place of each rank whose position is past the end of the bit vector.
    fn cut_ranks<const BIT: u8>(&self, positions: &[usize], out: &mut [usize])
        requires same_length { length out.old ≡ length positions.now }
        requires claimed { AreRankCodes (as_bit BIT) self.now.lists positions.now out.old }
        ensures ranks { (j : ℕ) → j < length positions.now → RanksIn (as_bit BIT) self.now
            (slice_index positions.now j) (ranked_by (slice_index out.new j)) }
        ensures len { length out.new ≡ length positions.now }
    {
        for at in 0..positions.len() {
            out[at] = self.cut_rank(positions[at], out[at]);
        }
    }

    /// The code of a rank, or `NO_ANSWER` where its position is past the end of the bit vector.
    #[inline(always)]
    fn cut_rank(&self, position: usize, code: usize) -> usize
        ensures { (v : Bool) (i : ℕ) → i ≡ position → IsRankCode v self.now.lists i code
            → RanksIn v self.now i (ranked_by result) }
    {
        if position > self.len { NO_ANSWER } else { code }
    }

    /// `select_each` over a source of the view's words and tables, where `finder` finds the entries: `ByTables`, or
    /// samples.
    ///
    /// # Cost
    /// With u upper entries, a rank reads at most one more of them than u has binary digits, one lower entry more than
    /// the finder reads, and eight words, whatever the tables hold, where there is a word.
    #[inline(always)]
    pub fn select_each_on<const BIT: u8, T: TableSource, F: FindsEntries<BIT, T>>(
        &self,
        source: &mut T,
        finder: &F,
        ranks: &[usize],
        out: &mut [usize],
    ) -> bool
        requires { T.lists source.old ≡ self.now.lists }
        ensures room { IsTrue result ↔ length out.old ≡ length ranks.now }
        ensures selects { IsTrue result → (j : ℕ) → j < length ranks.now → SelectsIn (as_bit BIT)
            self.now (slice_index ranks.now j) (selected_by (slice_index out.new j)) }
        ensures kept { result ≡ false → out.new ≡ out.old }
        ensures reads { 0 < length self.now.lists.upper → OnlyReads T.lists T.reads source.old source.new
            (length ranks.now * (digit_count (length self.now.lists.upper) + 1))
            ((F.lowers + 1) * length ranks.now) (8 * length ranks.now) }
    {
        let _len = self.len; // makes the lengths of the tables known to the proof
        let done = select_list_on::<BIT, T, F>(source, finder, ranks, &mut *out);
        if done {
            self.cut_each::<BIT>(ranks, out);
        }
        done
    }

    /// Writes the position with each rank by the codes of lists: what `select` answers where the tables match the
    /// words, and possibly another position with such a bit in other tables. Returns false, and writes nothing, exactly
    /// where `out` is not as long as `ranks`.
    ///
    /// # Cost
    /// The cost of `select_each_on` with the samples, or with `ByTables` where there are no samples of the kind.
    pub fn select_each<const BIT: u8>(&self, ranks: &[usize], out: &mut [usize]) -> bool
        ensures room { IsTrue result ↔ length out.old ≡ length ranks.now }
        ensures selects { IsTrue result → (j : ℕ) → j < length ranks.now → SelectsIn (as_bit BIT)
            self.now (slice_index ranks.now j) (selected_by (slice_index out.new j)) }
        ensures kept { result ≡ false → out.new ≡ out.old }
    {
        let source = &mut self.tables.probe();
        let samples = *self.samples::<BIT>();
        if samples.samples.is_empty() {
            return self.select_each_on::<BIT, Probe<'_>, ByTables>(source, &ByTables, ranks, out);
        }
        self.select_each_on::<BIT, Probe<'_>, SamplesView<'_>>(source, &samples, ranks, out)
    }

    /// Puts `NO_ANSWER` in place of each position after the bit vector.
    fn cut_each<const BIT: u8>(&self, ranks: &[usize], out: &mut [usize])
        requires same_length { length out.old ≡ length ranks.now }
        requires claimed { AreSelectCodes (as_bit BIT) self.now.lists ranks.now out.old }
        ensures selects { (j : ℕ) → j < length ranks.now → SelectsIn (as_bit BIT) self.now
            (slice_index ranks.now j) (selected_by (slice_index out.new j)) }
        ensures len { length out.new ≡ length ranks.now }
    {
        for at in 0..ranks.len() {
            out[at] = self.cut_code(out[at]);
        }
    }

    /// The code of a selection, or `NO_ANSWER` where its position is after the bit vector.
    #[inline(always)]
    fn cut_code(&self, code: usize) -> usize
        ensures { (v : Bool) (r : ℕ) → IsSelectCode v self.now.lists r code
            → SelectsIn v self.now r (selected_by result) }
    {
        if code < self.len {
            return code;
        }
        if code < WRONG_TABLES {
            return NO_ANSWER;
        }
        code
    }
}
