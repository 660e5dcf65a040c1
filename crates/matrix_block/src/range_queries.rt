//! Queries of the numbers of a range in a block that may hold anything.
ghost use Rattle.std.specs.Prelude.{slice_range};
ghost use Rattle.matrix_levels.specs.Numbers.{count_between, count_less};
ghost use Rattle.matrix_block.specs.Block.{items_in, HoldsMatrix};
ghost use Rattle.levels_view.specs.Ranges.{IsNextOf, IsNextWithin, IsPreviousOf, IsPreviousWithin};
ghost use Rattle.levels_view.specs.Ranges.{IsRangeCountOf, IsRangeCountWithin, IsSmallestOf, IsSmallestWithin};
ghost use Rattle.levels_view.specs.Ranges.{IsTallyOf, IsTallyWithin};

use crate::matrix::MatrixView;
use bitm_tables::answer::Answer;

impl<'a> MatrixView<'a> {
    /// How many numbers from index `start` on and before index `end` are less than `bound`. Whatever the block holds,
    /// they are at most `end - start`, and the answer is `Absent` exactly where the range ends before it starts, or
    /// past the numbers. Where the block holds a matrix, the answer is never `Wrong`.
    ///
    /// # Cost
    /// The cost of `LevelsView::total_count_less_on`.
    ///
    /// ```
    /// matrix.count_less(1, 5, 4);   // Found(2) of 1 4 1 5
    /// ```
    #[inline]
    pub fn count_less(&self, start: usize, end: usize, bound: u64) -> Answer<usize>
        ensures inside { IsRangeCountWithin self.now.levels.len start end result }
        ensures answer { HoldsMatrix self.now → IsRangeCountOf (items_in self.now) start end
            (count_less (slice_range (items_in self.now) start end) bound) result }
    {
        let (levels, mut source) = self.parts();
        levels.total_count_less_on(&mut source, start, end, bound)
    }

    /// The number from index `start` on and before index `end` that would stand at index `k` if they were sorted.
    /// Whatever the block holds, it has no more bits than the width, and the answer is `Absent` exactly where the
    /// range has no more than `k` numbers, or ends past the numbers. Where the block holds a matrix, the answer is
    /// never `Wrong`.
    ///
    /// # Cost
    /// The cost of `LevelsView::total_quantile_on`.
    ///
    /// ```
    /// matrix.quantile(1, 5, 2);   // Found(4) of 1 4 1 5
    /// ```
    #[inline]
    pub fn quantile(&self, start: usize, end: usize, k: usize) -> Answer<u64>
        ensures inside { IsSmallestWithin self.now.levels.len self.now.levels.width start end k
            result }
        ensures answer { HoldsMatrix self.now → IsSmallestOf (items_in self.now) start end k
            result }
    {
        let (levels, mut source) = self.parts();
        levels.total_quantile_on(&mut source, start, end, k)
    }

    /// The number that `quantile` answers, and how often it is in the range. Whatever the block holds, it is there at
    /// least once and at most `end - start` times, and the answer is `Absent` exactly where the answer of `quantile`
    /// is. Where the block holds a matrix, the answer is never `Wrong`.
    ///
    /// # Cost
    /// The cost of `LevelsView::total_quantile_and_count_on`.
    ///
    /// ```
    /// matrix.quantile_and_count(1, 5, 1);   // Found((1, 2)) of 1 4 1 5
    /// ```
    #[inline]
    pub fn quantile_and_count(&self, start: usize, end: usize, k: usize) -> Answer<(u64, usize)>
        ensures inside { IsTallyWithin self.now.levels.len self.now.levels.width start end k
            result }
        ensures answer { HoldsMatrix self.now → IsTallyOf (items_in self.now) start end k result }
    {
        let (levels, mut source) = self.parts();
        levels.total_quantile_and_count_on(&mut source, start, end, k)
    }

    /// The least number from index `start` on and before index `end` that is at least `bound`. Whatever the block
    /// holds, it is at least `bound`, has no more bits than the width, and the range lies within the numbers. Where
    /// the block holds a matrix, the answer is `Absent` exactly where there is no such number, and never `Wrong`.
    ///
    /// # Cost
    /// The cost of `LevelsView::total_next_value_on`.
    ///
    /// ```
    /// matrix.next_value(1, 5, 2);   // Found(4) of 1 4 1 5
    /// ```
    #[inline]
    pub fn next_value(&self, start: usize, end: usize, bound: u64) -> Answer<u64>
        ensures inside { IsNextWithin self.now.levels.len self.now.levels.width start end bound
            result }
        ensures answer { HoldsMatrix self.now → IsNextOf (items_in self.now) start end bound
            result }
    {
        let (levels, mut source) = self.parts();
        levels.total_next_value_on(&mut source, start, end, bound)
    }

    /// The greatest number from index `start` on and before index `end` that is less than `bound`. Whatever the block
    /// holds, it is less than `bound`, has no more bits than the width, and the range lies within the numbers. Where
    /// the block holds a matrix, the answer is `Absent` exactly where there is no such number, and never `Wrong`.
    ///
    /// # Cost
    /// The cost of `LevelsView::total_previous_value_on`.
    ///
    /// ```
    /// matrix.previous_value(1, 5, 5);   // Found(4) of 1 4 1 5
    /// ```
    #[inline]
    pub fn previous_value(&self, start: usize, end: usize, bound: u64) -> Answer<u64>
        ensures inside { IsPreviousWithin self.now.levels.len self.now.levels.width start end bound
            result }
        ensures answer { HoldsMatrix self.now → IsPreviousOf (items_in self.now) start end bound
            result }
    {
        let (levels, mut source) = self.parts();
        levels.total_previous_value_on(&mut source, start, end, bound)
    }

    /// How many numbers from index `start` on and before index `end` are at least `low` and less than `high`; none
    /// where `high` is no more than `low`. Whatever the block holds, they are at most `end - start`, and the answer is
    /// `Absent` exactly where the range ends before it starts, or past the numbers. Where the block holds a matrix,
    /// the answer is never `Wrong`.
    ///
    /// # Cost
    /// The cost of `LevelsView::total_range_count_on`.
    ///
    /// ```
    /// matrix.range_count(1, 5, 1, 5);   // Found(3) of 1 4 1 5
    /// ```
    #[inline]
    pub fn range_count(&self, start: usize, end: usize, low: u64, high: u64) -> Answer<usize>
        ensures inside { IsRangeCountWithin self.now.levels.len start end result }
        ensures answer { HoldsMatrix self.now → IsRangeCountOf (items_in self.now) start end
            (count_between (slice_range (items_in self.now) start end) low high) result }
    {
        let (levels, mut source) = self.parts();
        levels.total_range_count_on(&mut source, start, end, low, high)
    }
}
