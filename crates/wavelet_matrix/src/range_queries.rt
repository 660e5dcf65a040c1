//! Queries of the numbers of a range.
ghost use Rattle.std.specs.Prelude.{◌≡◌, ◌+◌, ◌-◌, ◌<◌, ◌≤◌, length, slice_range, IfOk};
ghost use Rattle.matrix_levels.specs.Numbers.{count_less, count_between, IsSmallest, IsNextItem, IsPreviousItem};
ghost use Rattle.matrix_levels.specs.Shared.{AreShared};

use crate::matrix::WaveletMatrix;
use bitm_strategies::{Select0ForRank101111, SelectForRank101111};
use bitm_tables::answer::Answer;
use std::alloc::{AllocError, Global};
use std::ops::Range;

impl<S: SelectForRank101111, S0: Select0ForRank101111> WaveletMatrix<S, S0> {
    /// How many numbers of a range are less than `bound`.
    ///
    /// # Conditions
    /// The range does not end before it starts, nor past the numbers.
    /// # Cost
    /// The cost of `LevelsView::total_count_less_on`.
    #[inline]
    pub fn count_less(&self, range: Range<usize>, bound: u64) -> usize
        requires order { range.start ≤ range.end }
        requires inside { range.end ≤ length self.now.items }
        ensures { result ≡ count_less (slice_range self.now.items range.start range.end) bound }
    {
        let (levels, mut probe) = self.parts();
        match levels.total_count_less_on(&mut probe, range.start, range.end, bound) {
            Answer::Found(count) => count,
            _ => unreachable!(),
        }
    }

    /// How many numbers of a range are at least `low` and less than `high`; none where `high` is no more than `low`.
    ///
    /// # Conditions
    /// The range does not end before it starts, nor past the numbers.
    /// # Cost
    /// The cost of `LevelsView::total_range_count_on`.
    #[inline]
    pub fn range_count(&self, range: Range<usize>, low: u64, high: u64) -> usize
        requires order { range.start ≤ range.end }
        requires inside { range.end ≤ length self.now.items }
        ensures { result
            ≡ count_between (slice_range self.now.items range.start range.end) low high }
    {
        let (levels, mut probe) = self.parts();
        match levels.total_range_count_on(&mut probe, range.start, range.end, low, high) {
            Answer::Found(count) => count,
            _ => unreachable!(),
        }
    }

    /// The number of a range that would stand at index `k` if the range were sorted.
    ///
    /// # Conditions
    /// The range does not end before it starts, nor past the numbers, and has more than `k` of them.
    /// # Cost
    /// The cost of `LevelsView::total_quantile_on`.
    #[inline]
    pub fn quantile(&self, range: Range<usize>, k: usize) -> u64
        requires order { range.start ≤ range.end }
        requires inside { range.end ≤ length self.now.items }
        requires some { k < range.end - range.start }
        ensures { IsSmallest (slice_range self.now.items range.start range.end) k result }
    {
        let (levels, mut probe) = self.parts();
        match levels.total_quantile_on(&mut probe, range.start, range.end, k) {
            Answer::Found(number) => number,
            _ => unreachable!(),
        }
    }

    /// The least number of a range that is at least `bound`; `None` exactly where all are less.
    ///
    /// # Conditions
    /// The range does not end before it starts, nor past the numbers.
    /// # Cost
    /// The cost of `LevelsView::total_next_value_on`.
    #[inline]
    pub fn next_value(&self, range: Range<usize>, bound: u64) -> Option<u64>
        requires order { range.start ≤ range.end }
        requires inside { range.end ≤ length self.now.items }
        ensures { IsNextItem (slice_range self.now.items range.start range.end) bound result }
    {
        let (levels, mut probe) = self.parts();
        levels
            .total_next_value_on(&mut probe, range.start, range.end, bound)
            .right()
    }

    /// The greatest number of a range that is less than `bound`; `None` exactly where none is.
    ///
    /// # Conditions
    /// The range does not end before it starts, nor past the numbers.
    /// # Cost
    /// The cost of `LevelsView::total_previous_value_on`.
    #[inline]
    pub fn previous_value(&self, range: Range<usize>, bound: u64) -> Option<u64>
        requires order { range.start ≤ range.end }
        requires inside { range.end ≤ length self.now.items }
        ensures { IsPreviousItem (slice_range self.now.items range.start range.end) bound result }
    {
        let (levels, mut probe) = self.parts();
        levels
            .total_previous_value_on(&mut probe, range.start, range.end, bound)
            .right()
    }

    /// The numbers that are in both ranges, each once, rising.
    ///
    /// # Conditions
    /// No range ends before it starts, nor past the numbers.
    /// # Errors
    /// `AllocError` if memory was refused.
    /// # Cost
    /// The cost of `LevelsView::intersect_on`: one walk down both ranges, which stops where either is empty.
    pub fn intersect(
        &self,
        alloc: Global,
        first: Range<usize>,
        second: Range<usize>,
    ) -> Result<Vec<u64>, AllocError>
        requires first_order { first.start ≤ first.end }
        requires first_inside { first.end ≤ length self.now.items }
        requires second_order { second.start ≤ second.end }
        requires second_inside { second.end ≤ length self.now.items }
        ensures { IfOk result (λ found. AreShared
            (slice_range self.now.items first.start first.end)
            (slice_range self.now.items second.start second.end) found.items) }
    {
        let (levels, mut probe) = self.parts();
        levels.intersect_on(alloc, &mut probe, first, second)
    }
}
