//! The numbers of a range in order, over any source: words and tables may hold anything.
ghost use Rattle.std.specs.Prelude.{◌≡◌, ◌*◌, ◌-◌, ◌^◌, ◌<◌, ◌≤◌, IfSome, IsSomeAnd, length, slice_range};
ghost use Rattle.bitm_tables.specs.Tables.{HasSizes, bits_in};
ghost use Rattle.matrix_levels.specs.Numbers.{count_equal, IsSmallest};
ghost use Rattle.matrix_levels.specs.Matrix.{IsMatrix, OnlyRanks, numbers_in};
ghost use Rattle.levels_view.specs.Ranges.{IsSmallestOf, IsSmallestWithin, IsTallyOf, IsTallyWithin};

use crate::levels::LevelsView;
use crate::ranges::with_digit;
use bitm_tables::answer::Answer;
use bitm_tables::source::TableSource;

impl<'a> LevelsView<'a> {
    /// The number that would stand at index `k` if the range were sorted, and how often it is in the range; `None` only
    /// where words and tables form no matrix.
    #[inline(always)]
    fn total_smallest_on<T: TableSource>(
        &self,
        source: &mut T,
        start: usize,
        end: usize,
        k: usize,
    ) -> Option<(u64, usize)>
        requires sized { HasSizes (T.lists source.old) }
        requires room { self.now.width * self.now.len ≤ length (bits_in (T.lists source.old)) }
        requires inside { end ≤ self.now.len }
        requires rank { k < end - start }
        ensures inside { IfSome result (λ tally. (tally.0 < 2 ^ self.now.width)
            × (1 ≤ tally.1) × (tally.1 ≤ end - start)) }
        ensures answer { let range
            = slice_range (numbers_in self.now (T.lists source.old)) start end in
            IsMatrix self.now (T.lists source.old) → IsSomeAnd result (λ tally.
            IsSmallest range k tally.0 × (tally.1 ≡ count_equal range tally.0)) }
        ensures reads { OnlyRanks self.now T.lists T.reads source.old source.new
            (2 * self.now.width) }
    {
        let (mut first, mut last) = (start, end);
        let mut left = k;
        let mut number = 0;
        for depth in 0..self.width() {
            let (before, ones, zeros) = self.total_part_on(source, depth, first, last)?;
            let digit = zeros <= left;
            let size = with_digit(digit, ones, zeros);
            let passed = with_digit(digit, zeros, 0);
            let (next, after) = self.range_after(depth, digit, first, before, size)?;
            left -= passed;
            first = next;
            last = after;
            number = 2 * number + digit as u64;
        }
        Some((number, last - first))
    }

    /// The number from index `start` on and before index `end` that would stand at index `k` if they were sorted, and
    /// how often it is among them.
    ///
    /// Whatever words and tables hold, the number has no more bits than the width, it is there at least once and at
    /// most `end - start` times, and the answer is `Absent` exactly where the range has no more than `k` numbers, or
    /// ends past the numbers. Where they form a matrix, the answer is the number and its count, and never `Wrong`.
    ///
    /// # Conditions
    /// The conditions of `total_get_on`.
    /// # Cost
    /// The cost of `total_count_less_on`.
    /// # Source
    /// Gagie, Puglisi and Turpin, 'Range quantile queries: another virtue of wavelet trees' (SPIRE 2009).
    ///
    /// ```
    /// levels.total_quantile_and_count_on(&mut source, 1, 5, 1);   // Found((1, 2)), Absent or Wrong
    /// ```
    #[inline(always)]
    pub fn total_quantile_and_count_on<T: TableSource>(
        &self,
        source: &mut T,
        start: usize,
        end: usize,
        k: usize,
    ) -> Answer<(u64, usize)>
        requires sized { HasSizes (T.lists source.old) }
        requires room { self.now.width * self.now.len ≤ length (bits_in (T.lists source.old)) }
        ensures inside { IsTallyWithin self.now.len self.now.width start end k result }
        ensures answer { IsMatrix self.now (T.lists source.old)
            → IsTallyOf (numbers_in self.now (T.lists source.old)) start end k result }
        ensures reads { OnlyRanks self.now T.lists T.reads source.old source.new
            (2 * self.now.width) }
    {
        if end > self.len() || end.saturating_sub(start) <= k {
            return Answer::Absent;
        }
        match self.total_smallest_on(source, start, end, k) {
            Some(tally) => Answer::Found(tally),
            None => Answer::Wrong,
        }
    }

    /// The number from index `start` on and before index `end` that would stand at index `k` if they were sorted.
    ///
    /// Whatever words and tables hold, it has no more bits than the width, and the answer is `Absent` exactly where the
    /// range has no more than `k` numbers, or ends past the numbers. Where they form a matrix, the answer is the
    /// number, and never `Wrong`.
    ///
    /// # Conditions
    /// The conditions of `total_get_on`.
    /// # Cost
    /// The cost of `total_count_less_on`.
    ///
    /// ```
    /// levels.total_quantile_on(&mut source, 1, 5, 2);   // Found(4), Absent or Wrong
    /// ```
    #[inline(always)]
    pub fn total_quantile_on<T: TableSource>(
        &self,
        source: &mut T,
        start: usize,
        end: usize,
        k: usize,
    ) -> Answer<u64>
        requires sized { HasSizes (T.lists source.old) }
        requires room { self.now.width * self.now.len ≤ length (bits_in (T.lists source.old)) }
        ensures inside { IsSmallestWithin self.now.len self.now.width start end k result }
        ensures answer { IsMatrix self.now (T.lists source.old)
            → IsSmallestOf (numbers_in self.now (T.lists source.old)) start end k result }
        ensures reads { OnlyRanks self.now T.lists T.reads source.old source.new
            (2 * self.now.width) }
    {
        match self.total_quantile_and_count_on(source, start, end, k) {
            Answer::Found((number, _)) => Answer::Found(number),
            Answer::Absent => Answer::Absent,
            Answer::Wrong => Answer::Wrong,
        }
    }
}
