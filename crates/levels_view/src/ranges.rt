//! Queries of the numbers of a range, over any source: words and tables may hold anything.
ghost use Rattle.std.specs.Prelude.{◌≡◌, ◌+◌, ◌*◌, ◌-◌, ◌^◌, ◌<◌, ◌≤◌, ℕ, List, Bool, true, false, Some};
ghost use Rattle.std.specs.Prelude.{IfSome, IsSomeAnd, count_by, if◌then◌else◌, length, slice_range, take};
ghost use Rattle.bitm_tables.specs.Tables.{HasSizes, bits_in};
ghost use Rattle.matrix_levels.specs.Levels.{ArePositionsAfter, has_digit, level, partition_position};
ghost use Rattle.matrix_levels.specs.Matrix.{IsMatrix, IsMatrixOf, OnlyRanks, digit_position, level_in, numbers_in};
ghost use Rattle.matrix_levels.specs.Numbers.{count_less};
ghost use Rattle.levels_view.specs.Ranges.{IsRangeCountOf, IsRangeCountWithin};

use crate::levels::LevelsView;
use crate::stepping::{difference, sum_within};
use bitm_tables::answer::Answer;
use bitm_tables::source::TableSource;
use matrix_levels::{digit_of, fits};

/// How many of two kinds of items have this bit.
#[inline(always)]
pub(crate) fn with_digit(digit: bool, ones: usize, zeros: usize) -> usize
    ensures { result ≡ (if digit then ones else zeros) }
{
    if digit { ones } else { zeros }
}

impl<'a> LevelsView<'a> {
    /// Of a range of a level: how many items before its start have a 1 bit, and how many of its own have a 1 bit and a
    /// 0 bit; `None` only where words and tables form no matrix.
    #[inline(always)]
    pub(crate) fn total_part_on<T: TableSource>(
        &self,
        source: &mut T,
        depth: u8,
        first: usize,
        last: usize,
    ) -> Option<(usize, usize, usize)>
        requires sized { HasSizes (T.lists source.old) }
        requires room { self.now.width * self.now.len ≤ length (bits_in (T.lists source.old)) }
        requires depth { depth < self.now.width }
        requires order { first ≤ last }
        requires inside { last ≤ self.now.len }
        ensures inside { IfSome result (λ part. part.1 + part.2 ≡ last - first) }
        ensures answer { let position = digit_position self.now depth in
            let items = level_in self.now (T.lists source.old) depth in
            IsMatrix self.now (T.lists source.old) → IsSomeAnd result (λ part.
            (part.0 ≡ count_by (has_digit position true) (take first items))
            × (part.1
            ≡ partition_position position true items last - partition_position position true items first)
            × (part.2
            ≡ partition_position position false items last - partition_position position false items first)) }
        ensures reads { OnlyRanks self.now T.lists T.reads source.old source.new 2 }
    {
        let before = self.level_ones_on(source, depth, first);
        let through = self.level_ones_on(source, depth, last);
        let ones = difference(before, through, last - first)?;
        Some((before, ones, (last - first) - ones))
    }

    /// Where the given number of items of a range with this bit stand at the next level; `None` only where the tables
    /// belong to no matrix.
    #[inline(always)]
    pub(crate) fn range_after(
        &self,
        depth: u8,
        digit: bool,
        first: usize,
        before: usize,
        size: usize,
    ) -> Option<(usize, usize)>
        requires depth { depth < self.now.width }
        requires inside { first ≤ self.now.len }
        ensures inside { IfSome result (λ range. (range.0 + size ≡ range.1)
            × (range.1 ≤ self.now.len)) }
        ensures answer { (xs : List ℕ) → (b : List Bool) → (last : ℕ) → IsMatrixOf xs self.now b
            → first ≤ last → last ≤ self.now.len
            → before ≡ count_by (has_digit (digit_position self.now depth) true)
            (take first (level xs self.now.width depth))
            → size ≡ partition_position (digit_position self.now depth) digit
            (level xs self.now.width depth) last
            - partition_position (digit_position self.now depth) digit
            (level xs self.now.width depth) first
            → IsSomeAnd result (λ range. ArePositionsAfter (digit_position self.now depth) digit
            (level xs self.now.width depth) first last range.0 range.1) }
    {
        let next = self.position_after(depth, digit, first, before)?;
        let after = sum_within(next, size, self.len())?;
        Some((next, after))
    }

    /// How many numbers of a range are less than `bound`, at most all of them; `None` only where words and tables form
    /// no matrix.
    #[inline(always)]
    fn total_less_on<T: TableSource>(
        &self,
        source: &mut T,
        start: usize,
        end: usize,
        bound: u64,
    ) -> Option<usize>
        requires sized { HasSizes (T.lists source.old) }
        requires room { self.now.width * self.now.len ≤ length (bits_in (T.lists source.old)) }
        requires order { start ≤ end }
        requires inside { end ≤ self.now.len }
        requires fit { bound < 2 ^ self.now.width }
        ensures inside { IfSome result (λ count. count ≤ end - start) }
        ensures answer { IsMatrix self.now (T.lists source.old) → result ≡ Some (count_less
            (slice_range (numbers_in self.now (T.lists source.old)) start end) bound) }
        ensures reads { OnlyRanks self.now T.lists T.reads source.old source.new
            (2 * self.now.width) }
    {
        let width = self.width();
        let (mut first, mut last) = (start, end);
        let mut count = 0;
        for depth in 0..width {
            let digit = digit_of(bound, width - 1 - depth);
            let (before, ones, zeros) = self.total_part_on(source, depth, first, last)?;
            let size = with_digit(digit, ones, zeros);
            let less = with_digit(digit, zeros, 0);
            let (next, after) = self.range_after(depth, digit, first, before, size)?;
            count += less;
            first = next;
            last = after;
        }
        Some(count)
    }

    /// How many numbers from index `start` on and before index `end` are less than `bound`.
    ///
    /// Whatever words and tables hold, they are at most `end - start`, and the answer is `Absent` exactly where the
    /// range ends before it starts, or past the numbers. Where they form a matrix, the answer is the count, and never
    /// `Wrong`.
    ///
    /// # Conditions
    /// The conditions of `total_get_on`.
    /// # Cost
    /// For each level what two ranks read, whatever words and tables hold.
    ///
    /// ```
    /// levels.total_count_less_on(&mut source, 1, 5, 4);   // Found(2), Absent or Wrong
    /// ```
    #[inline(always)]
    pub fn total_count_less_on<T: TableSource>(
        &self,
        source: &mut T,
        start: usize,
        end: usize,
        bound: u64,
    ) -> Answer<usize>
        requires sized { HasSizes (T.lists source.old) }
        requires room { self.now.width * self.now.len ≤ length (bits_in (T.lists source.old)) }
        ensures inside { IsRangeCountWithin self.now.len start end result }
        ensures answer { let numbers = numbers_in self.now (T.lists source.old) in
            IsMatrix self.now (T.lists source.old) → IsRangeCountOf numbers start end
            (count_less (slice_range numbers start end) bound) result }
        ensures reads { OnlyRanks self.now T.lists T.reads source.old source.new
            (2 * self.now.width) }
    {
        if end < start || end > self.len() {
            return Answer::Absent;
        }
        if !fits(bound, self.width()) {
            return Answer::Found(end - start);
        }
        match self.total_less_on(source, start, end, bound) {
            Some(count) => Answer::Found(count),
            None => Answer::Wrong,
        }
    }
}
