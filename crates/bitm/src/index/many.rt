//! Many queries of an index at once.
ghost use Rattle.std.specs.Prelude.{◌≡◌, ◌<◌, ◌≤◌, true, false, All, length};
ghost use Rattle.bit_lists.specs.Bits.{bits_of};
ghost use Rattle.bit_lists.specs.Count.{ones_of, zeros_of};
ghost use Rattle.bitm_select.specs.Many.{RanksEach, PicksEach};

use crate::index::RankSelect101111;
use bitm_select::many::lists::{rank_many_on, select_many_on};
use bitm_strategies::{Select0ForRank101111, SelectForRank101111};
use std::convert::AsSlice;

impl<S: SelectForRank101111, S0: Select0ForRank101111, BV: AsSlice<u64>> RankSelect101111<
    S,
    S0,
    BV,
> {
    /// Writes for each index the number of 1 bits among that many first bits, in the order of the indices.
    ///
    /// # Conditions
    /// `ranks` is as long as `indices`, and no index is greater than the number of bits.
    /// # Cost
    /// Each index reads what `rank` reads: at most one entry of each table and eight words.
    #[inline]
    pub fn rank_many(&self, indices: &[usize], ranks: &mut [usize])
        requires same_length { length indices.now ≡ length ranks.old }
        requires inside { All (λ i. i ≤ length (bits_of (BV.items self.now.content))) indices.now }
        ensures { RanksEach (bits_of (BV.items self.now.content)) indices.now ranks.new }
    {
        rank_many_on(&mut self.probe(), indices, ranks)
    }

    /// Writes for each rank the position of the 1 bit with exactly that many 1 bits before it, in the order of the
    /// ranks.
    ///
    /// Sixteen searches of the two tables run side by side, so that their waits for memory overlap: for large bit
    /// vectors this takes a fraction of the time of single selections. It does without the strategies.
    ///
    /// # Conditions
    /// `positions` is as long as `ranks`, and there are more 1 bits than each rank.
    /// # Cost
    /// With u upper entries, each rank reads at most one more of them than u has binary digits, 22 lower entries and
    /// eight words.
    #[inline]
    pub fn select_many(&self, ranks: &[usize], positions: &mut [usize])
        requires same_length { length ranks.now ≡ length positions.old }
        requires some { All (λ r. r < ones_of (bits_of (BV.items self.now.content))) ranks.now }
        ensures { PicksEach (bits_of (BV.items self.now.content)) true ranks.now positions.new }
    {
        select_many_on::<1, _>(&mut self.probe(), ranks, positions)
    }

    /// Writes for each rank the position of the 0 bit with exactly that many 0 bits before it, as `select_many` does
    /// for 1 bits.
    ///
    /// # Conditions
    /// `positions` is as long as `ranks`, and there are more 0 bits than each rank.
    /// # Cost
    /// What `select_many` reads.
    #[inline]
    pub fn select0_many(&self, ranks: &[usize], positions: &mut [usize])
        requires same_length { length ranks.now ≡ length positions.old }
        requires some { All (λ r. r < zeros_of (bits_of (BV.items self.now.content))) ranks.now }
        ensures { PicksEach (bits_of (BV.items self.now.content)) false ranks.now positions.new }
    {
        select_many_on::<0, _>(&mut self.probe(), ranks, positions)
    }
}
