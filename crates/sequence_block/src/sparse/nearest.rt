//! The nearest bit of a kind on either side of a position, whatever the block holds: a rank and a selection.
ghost use Rattle.std.specs.Prelude.{◌+◌, List, ℕ, min};
ghost use Rattle.bitm_select.specs.Answers.{IsFoundFrom, IsSelected};
ghost use Rattle.tables_view.specs.Nearest.{IsNext, IsPrevious};
ghost use Rattle.tables_view.specs.Ranks.{IsCountWithin, IsRanked};
ghost use Rattle.elias_fano.specs.Answers.{IsIndexIn};
ghost use Rattle.sequence_block.specs.SparseBlock.{bits_of, HoldsOnes};

use crate::sparse::view::SparseView;
use bitm_tables::answer::Answer;
use tables_view::{only_before, only_from};

impl<'a> SparseView<'a> {
    /// `rank` for the 1 bits, `rank0` for the 0 bits.
    ///
    /// # Cost
    /// The cost of `rank`.
    ///
    /// ```
    /// bits.rank_of(false, 101);   // Found(99)
    /// ```
    #[inline]
    pub fn rank_of(&self, one: bool, index: usize) -> Answer<usize>
        ensures within { IsCountWithin self.now.len index result }
        ensures counts { (xs : List ℕ) → HoldsOnes xs self.now
            → IsRanked (bits_of xs self.now) one index result }
    {
        if one {
            self.rank(index)
        } else {
            self.rank0(index)
        }
    }

    /// `select` for the 1 bits, `select0` for the 0 bits: a position that is found is one of the bits.
    ///
    /// # Cost
    /// The cost of `select` or `select0`.
    ///
    /// ```
    /// bits.select_of(false, 3);   // Found(4)
    /// ```
    #[inline]
    pub fn select_of(&self, one: bool, rank: usize) -> Answer<usize>
        ensures inside { IsIndexIn self.now.len result }
        ensures counts { (xs : List ℕ) → HoldsOnes xs self.now
            → IsSelected (bits_of xs self.now) one rank result }
    {
        if one {
            self.select(rank)
        } else {
            self.select0(rank)
        }
    }

    /// The least position from `from` on with a 1 bit, or with a 0 bit. Whatever the block holds, a position that is
    /// found is one of the bits, and not before `from`. Where the block holds bits, the answer is `Absent` exactly
    /// where there is none, and never `Wrong`.
    ///
    /// # Cost
    /// A rank and a selection (evident from the code).
    ///
    /// ```
    /// bits.next(true, 102);   // Found(4000)
    /// ```
    pub fn next(&self, one: bool, from: usize) -> Answer<usize>
        ensures from { IsFoundFrom from self.now.len result }
        ensures counts { (xs : List ℕ) → HoldsOnes xs self.now
            → IsNext (bits_of xs self.now) one from result }
    {
        match self.rank_of(one, from) {
            Answer::Found(rank) => only_from(self.select_of(one, rank), from),
            Answer::Absent => Answer::Absent,
            Answer::Wrong => Answer::Wrong,
        }
    }

    /// The greatest position up to `from` with a 1 bit, or with a 0 bit; `from` may be past the end. Whatever the block
    /// holds, a position that is found is one of the bits, and not after `from`. Where the block holds bits, the answer
    /// is `Absent` exactly where there is none, and never `Wrong`.
    ///
    /// # Cost
    /// The cost of `next`.
    ///
    /// ```
    /// bits.previous(false, 101);   // Found(99)
    /// ```
    pub fn previous(&self, one: bool, from: usize) -> Answer<usize>
        ensures to { IsFoundFrom 0 (min (from + 1) self.now.len) result }
        ensures counts { (xs : List ℕ) → HoldsOnes xs self.now
            → IsPrevious (bits_of xs self.now) one from result }
    {
        let end = if from < self.len() {
            from + 1
        } else {
            self.len()
        };
        match self.rank_of(one, end) {
            Answer::Found(0) => Answer::Absent,
            Answer::Found(ranks) => only_before(self.select_of(one, ranks - 1), end),
            _ => Answer::Wrong,
        }
    }
}
