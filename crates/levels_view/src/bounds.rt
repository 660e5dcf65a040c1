//! The numbers of a range beside a bound or between two, over any source: words and tables may hold anything.
ghost use Rattle.std.specs.Prelude.{◌≡◌, ◌+◌, ◌*◌, ◌≤◌, ℕ, List, length, slice_range};
ghost use Rattle.bitm_tables.specs.Tables.{HasSizes, bits_in};
ghost use Rattle.matrix_levels.specs.Matrix.{IsMatrix, OnlyRanks, numbers_in};
ghost use Rattle.matrix_levels.specs.Numbers.{count_between, count_less};
ghost use Rattle.levels_view.specs.Ranges.{IsRangeCountOf, IsRangeCountWithin};
ghost use Rattle.levels_view.specs.Ranges.{IsNextOf, IsNextWithin, IsPreviousOf, IsPreviousWithin};
ghost use Rattle.levels_view.specs.Ranges.{IsSmallestOf, IsSmallestWithin};

use crate::levels::LevelsView;
use crate::stepping::difference;
use bitm_tables::answer::Answer;
use bitm_tables::source::TableSource;

/// The answer, with `Wrong` in place of a number that is less than `bound`.
#[inline(always)]
fn from_bound(answer: Answer<u64>, bound: u64) -> Answer<u64>
    ensures inside { (n : ℕ) (w : ℕ) (s : ℕ) (e : ℕ) (k : ℕ) → IsSmallestWithin n w s e k answer
        → IsNextWithin n w s e bound result }
    ensures answer { (xs : List ℕ) (s : ℕ) (e : ℕ) → IsSmallestOf xs s e
        (count_less (slice_range xs s e) bound) answer → IsNextOf xs s e bound result }
{
    match answer {
        Answer::Found(number) => {
            if number < bound {
                Answer::Wrong
            } else {
                Answer::Found(number)
            }
        }
        Answer::Absent => Answer::Absent,
        Answer::Wrong => Answer::Wrong,
    }
}

/// The answer, with `Wrong` in place of a number that is not less than `bound`.
#[inline(always)]
fn before_bound(answer: Answer<u64>, bound: u64) -> Answer<u64>
    ensures inside { (n : ℕ) (w : ℕ) (s : ℕ) (e : ℕ) (k : ℕ) → IsSmallestWithin n w s e k answer
        → IsPreviousWithin n w s e bound result }
    ensures answer { (xs : List ℕ) (s : ℕ) (e : ℕ) (k : ℕ)
        → k + 1 ≡ count_less (slice_range xs s e) bound → IsSmallestOf xs s e k answer
        → IsPreviousOf xs s e bound result }
{
    match answer {
        Answer::Found(number) => {
            if number < bound {
                Answer::Found(number)
            } else {
                Answer::Wrong
            }
        }
        Answer::Absent => Answer::Absent,
        Answer::Wrong => Answer::Wrong,
    }
}

impl<'a> LevelsView<'a> {
    /// The least number from index `start` on and before index `end` that is at least `bound`.
    ///
    /// Whatever words and tables hold, it is at least `bound` and has no more bits than the width, and the answer is
    /// `Absent` where the range ends before it starts, or past the numbers. Where they form a matrix, the answer is the
    /// number, `Absent` else exactly where all are less, and never `Wrong`.
    ///
    /// # Conditions
    /// The conditions of `total_get_on`.
    /// # Cost
    /// Twice the cost of `total_count_less_on`.
    ///
    /// ```
    /// levels.total_next_value_on(&mut source, 1, 5, 2);   // Found(4), Absent or Wrong
    /// ```
    #[inline(always)]
    pub fn total_next_value_on<T: TableSource>(
        &self,
        source: &mut T,
        start: usize,
        end: usize,
        bound: u64,
    ) -> Answer<u64>
        requires sized { HasSizes (T.lists source.old) }
        requires room { self.now.width * self.now.len ≤ length (bits_in (T.lists source.old)) }
        ensures inside { IsNextWithin self.now.len self.now.width start end bound result }
        ensures answer { IsMatrix self.now (T.lists source.old)
            → IsNextOf (numbers_in self.now (T.lists source.old)) start end bound result }
        ensures reads { OnlyRanks self.now T.lists T.reads source.old source.new
            (4 * self.now.width) }
    {
        let less = match self.total_count_less_on(source, start, end, bound) {
            Answer::Found(less) => less,
            Answer::Absent => return Answer::Absent,
            Answer::Wrong => return Answer::Wrong,
        };
        let found = self.total_quantile_on(source, start, end, less);
        from_bound(found, bound)
    }

    /// The greatest number from index `start` on and before index `end` that is less than `bound`.
    ///
    /// Whatever words and tables hold, it is less than `bound` and has no more bits than the width, and the answer is
    /// `Absent` where the range ends before it starts, or past the numbers. Where they form a matrix, the answer is the
    /// number, `Absent` else exactly where none is less, and never `Wrong`.
    ///
    /// # Conditions
    /// The conditions of `total_get_on`.
    /// # Cost
    /// Twice the cost of `total_count_less_on`.
    ///
    /// ```
    /// levels.total_previous_value_on(&mut source, 1, 5, 5);   // Found(4), Absent or Wrong
    /// ```
    #[inline(always)]
    pub fn total_previous_value_on<T: TableSource>(
        &self,
        source: &mut T,
        start: usize,
        end: usize,
        bound: u64,
    ) -> Answer<u64>
        requires sized { HasSizes (T.lists source.old) }
        requires room { self.now.width * self.now.len ≤ length (bits_in (T.lists source.old)) }
        ensures inside { IsPreviousWithin self.now.len self.now.width start end bound result }
        ensures answer { IsMatrix self.now (T.lists source.old)
            → IsPreviousOf (numbers_in self.now (T.lists source.old)) start end bound result }
        ensures reads { OnlyRanks self.now T.lists T.reads source.old source.new
            (4 * self.now.width) }
    {
        let less = match self.total_count_less_on(source, start, end, bound) {
            Answer::Found(less) => less,
            Answer::Absent => return Answer::Absent,
            Answer::Wrong => return Answer::Wrong,
        };
        if less == 0 {
            return Answer::Absent;
        }
        let found = self.total_quantile_on(source, start, end, less - 1);
        before_bound(found, bound)
    }

    /// How many numbers from index `start` on and before index `end` are at least `low` and less than `high`; none
    /// where `high` is no more than `low`.
    ///
    /// Whatever words and tables hold, they are at most `end - start`, and the answer is `Absent` exactly where the
    /// range ends before it starts, or past the numbers. Where they form a matrix, the answer is the count, and never
    /// `Wrong`.
    ///
    /// # Conditions
    /// The conditions of `total_get_on`.
    /// # Cost
    /// Twice the cost of `total_count_less_on`; nothing is read where `high` is no more than `low`.
    ///
    /// ```
    /// levels.total_range_count_on(&mut source, 1, 5, 1, 5);   // Found(3), Absent or Wrong
    /// ```
    #[inline(always)]
    pub fn total_range_count_on<T: TableSource>(
        &self,
        source: &mut T,
        start: usize,
        end: usize,
        low: u64,
        high: u64,
    ) -> Answer<usize>
        requires sized { HasSizes (T.lists source.old) }
        requires room { self.now.width * self.now.len ≤ length (bits_in (T.lists source.old)) }
        ensures inside { IsRangeCountWithin self.now.len start end result }
        ensures answer { let numbers = numbers_in self.now (T.lists source.old) in
            IsMatrix self.now (T.lists source.old) → IsRangeCountOf numbers start end
            (count_between (slice_range numbers start end) low high) result }
        ensures reads { OnlyRanks self.now T.lists T.reads source.old source.new
            (4 * self.now.width) }
        ensures nothing { high ≤ low → T.reads source.new ≡ T.reads source.old }
    {
        if end < start || end > self.len() {
            return Answer::Absent;
        }
        if high <= low {
            return Answer::Found(0);
        }
        let less = match self.total_count_less_on(source, start, end, high) {
            Answer::Found(less) => less,
            Answer::Absent => return Answer::Absent,
            Answer::Wrong => return Answer::Wrong,
        };
        let below = match self.total_count_less_on(source, start, end, low) {
            Answer::Found(below) => below,
            Answer::Absent => return Answer::Absent,
            Answer::Wrong => return Answer::Wrong,
        };
        match difference(below, less, end - start) {
            Some(count) => Answer::Found(count),
            None => Answer::Wrong,
        }
    }
}
