//! The distinct numbers of a range, as an iterator.
ghost use Rattle.std.specs.Prelude.{◌≡◌, ◌-◌, ◌<◌, ◌≤◌, length, slice_range};
ghost use Rattle.std.specs.Iterator.{YieldsFirst, item_count};
ghost use Rattle.matrix_levels.specs.Distinct.{AreDistinct};
ghost use Rattle.matrix_levels.specs.Numbers.{count_equal, IsSmallest};

use crate::matrix::WaveletMatrix;
use bitm_strategies::{Select0ForRank101111, SelectForRank101111};
use bitm_tables::answer::Answer;
use std::iter::{FusedIterator, Iterator};
use std::marker::Model;
use std::ops::Range;

/// The distinct numbers of a range, rising, each with how often it is in the range, seen as the list of pairs still to
/// come.
#[derive(Drop)]
pub struct DistinctValues<'a, S: SelectForRank101111, S0: Select0ForRank101111> {
    matrix: &'a WaveletMatrix<S, S0>,
    start: usize,
    end: usize,
    // How many numbers of the range are less than the next one.
    less: usize,
}

impl<'a, S: SelectForRank101111, S0: Select0ForRank101111> Model for DistinctValues<'a, S, S0> {
    ghost use Rattle.std.specs.Prelude.{◌≤◌, ◌^◌, ℕ, List, length, slice_range};
    ghost use Rattle.matrix_levels.specs.Distinct.{StandsBetween, coming_tallies};

    ghost Value = { List (ℕ × ℕ) };

    ghost view = { λ it. coming_tallies (slice_range it.matrix.now.items it.start it.end)
        (2 ^ it.matrix.now.width) it.less };

    ghost invariant = { λ it. (it.start ≤ it.end) × (it.end ≤ length it.matrix.now.items)
        × StandsBetween (slice_range it.matrix.now.items it.start it.end)
        (2 ^ it.matrix.now.width) it.less };
}

impl<S: SelectForRank101111, S0: Select0ForRank101111> WaveletMatrix<S, S0> {
    /// The number of a range that would stand at index `k` if the range were sorted, and how often it is in the range.
    ///
    /// # Conditions
    /// The range does not end before it starts, nor past the numbers, and has more than `k` of them.
    /// # Cost
    /// The cost of `quantile`.
    #[inline]
    pub fn quantile_and_count(&self, range: Range<usize>, k: usize) -> (u64, usize)
        requires order { range.start ≤ range.end }
        requires inside { range.end ≤ length self.now.items }
        requires some { k < range.end - range.start }
        ensures number { IsSmallest (slice_range self.now.items range.start range.end) k result.0 }
        ensures count { result.1
            ≡ count_equal (slice_range self.now.items range.start range.end) result.0 }
    {
        let (levels, mut probe) = self.parts();
        match levels.total_quantile_and_count_on(&mut probe, range.start, range.end, k) {
            Answer::Found(tally) => tally,
            _ => unreachable!(),
        }
    }

    /// The distinct numbers of a range, rising, each with how often it is in the range.
    ///
    /// # Conditions
    /// The range does not end before it starts, nor past the numbers.
    /// # Cost
    /// For each number that comes, the cost of `quantile`; no memory.
    #[inline]
    pub fn distinct(&self, range: Range<usize>) -> DistinctValues<'_, S, S0>
        requires order { range.start ≤ range.end }
        requires inside { range.end ≤ length self.now.items }
        ensures { AreDistinct (slice_range self.now.items range.start range.end) result }
    {
        let _width = self.width();
        DistinctValues {
            matrix: self,
            start: range.start,
            end: range.end,
            less: 0,
        }
    }
}

impl<'a, S: SelectForRank101111, S0: Select0ForRank101111> Iterator for DistinctValues<'a, S, S0> {
    type Item = (u64, usize);

    ghost next_gives = { YieldsFirst (λ coming. coming) };

    ghost remaining = { item_count (λ coming. coming) };

    #[inline]
    fn next(&mut self) -> Option<(u64, usize)> {
        if self.less >= self.end - self.start {
            return None;
        }
        let (number, count) = self
            .matrix
            .quantile_and_count(self.start..self.end, self.less);
        self.less += count;
        Some((number, count))
    }
}

impl<'a, S: SelectForRank101111, S0: Select0ForRank101111> FusedIterator
    for DistinctValues<'a, S, S0> {}
