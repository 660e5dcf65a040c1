//! Many ranks of numbers at once, over any source: words and tables may hold anything.
//!
//! All go from level to level together, so that each waits for memory while the others do.
ghost use Rattle.std.specs.Prelude.{◌≡◌, ◌+◌, ◌-◌, ◌*◌, ◌^◌, ◌<◌, ◌≤◌, ℕ, length, slice_index};
ghost use Rattle.bitm_tables.specs.Tables.{HasSizes, Lists, bits_in};
ghost use Rattle.matrix_levels.specs.Matrix.{OnlyRanks};
ghost use Rattle.levels_view.specs.Walk.{AreBothOnTheWay, IsPositionOnTheWay, IsRankAt};

use crate::levels::LevelsView;
use crate::stepping::difference;
use bitm_tables::answer::Answer;
use bitm_tables::source::TableSource;
use matrix_levels::{digit_of, fits};

/// An index past the end of every level.
const ASTRAY: usize = usize::MAX;

impl<'a> LevelsView<'a> {
    /// Where a number stands after the known levels, before all indices, as the table of starts says: an index past the
    /// end where it has more bits than the width, or the table belongs to no matrix.
    #[inline(always)]
    fn known_position(&self, number: u64) -> usize
        ensures { (lists : Lists) → number < 2 ^ self.now.width
            → IsPositionOnTheWay self.now lists self.now.known number 0 result }
    {
        if !fits(number, self.width()) {
            return ASTRAY;
        }
        match self.start_of(number) {
            Some(start) => start,
            None => ASTRAY,
        }
    }

    /// Where a number at an index of a level, or that would stand there, stands at the next one. An index past the end
    /// stays there, and goes there only where words and tables form no matrix.
    #[inline(always)]
    fn total_position_moved_on<T: TableSource>(
        &self,
        source: &mut T,
        depth: u8,
        number: u64,
        position: usize,
    ) -> usize
        requires sized { HasSizes (T.lists source.old) }
        requires room { self.now.width * self.now.len ≤ length (bits_in (T.lists source.old)) }
        requires depth { depth < self.now.width }
        ensures moved { (i : ℕ)
            → IsPositionOnTheWay self.now (T.lists source.old) depth number i position
            → IsPositionOnTheWay self.now (T.lists source.old) (depth + 1) number i result }
        ensures reads { OnlyRanks self.now T.lists T.reads source.old source.new 1 }
    {
        if position > self.len() {
            return ASTRAY;
        }
        let digit = digit_of(number, self.width() - 1 - depth);
        match self.total_next_on(source, depth, digit, position) {
            Some(next) => next,
            None => ASTRAY,
        }
    }

    /// Where a number at two indices of a level, or that would stand there, stands at the next one.
    #[inline(always)]
    fn total_both_moved_on<T: TableSource>(
        &self,
        source: &mut T,
        depth: u8,
        number: u64,
        first: usize,
        last: usize,
    ) -> (usize, usize)
        requires sized { HasSizes (T.lists source.old) }
        requires room { self.now.width * self.now.len ≤ length (bits_in (T.lists source.old)) }
        requires depth { depth < self.now.width }
        ensures moved { (s e : ℕ)
            → AreBothOnTheWay self.now (T.lists source.old) depth number s e first last
            → AreBothOnTheWay self.now (T.lists source.old) (depth + 1) number s e result.0 result.1 }
        ensures reads { OnlyRanks self.now T.lists T.reads source.old source.new 2 }
    {
        let next = self.total_position_moved_on(source, depth, number, first);
        let after = self.total_position_moved_on(source, depth, number, last);
        (next, after)
    }

    /// An end, or an index past the end of every level where there are fewer numbers. A plain copy of all ends would be
    /// a call of C's `memcpy`: the archive for C calls nothing.
    #[inline(always)]
    fn end_position(&self, end: usize) -> usize
        ensures { end ≤ self.now.len → result ≡ end }
    {
        if end > self.len() { ASTRAY } else { end }
    }

    /// Puts the numbers where they stand before all indices, after the known levels, and before the ends, at the first
    /// level.
    fn begin_places(
        &self,
        numbers: &[u64],
        ends: &[usize],
        firsts: &mut [usize],
        lasts: &mut [usize],
    )
        requires ends { length ends.now ≡ length numbers.now }
        requires firsts { length firsts.old ≡ length numbers.now }
        requires lasts { length lasts.old ≡ length numbers.now }
        ensures firsts { length firsts.new ≡ length numbers.now }
        ensures lasts { length lasts.new ≡ length numbers.now }
        ensures starts { (k : ℕ) → k < length numbers.now → (lists : Lists)
            → slice_index numbers.now k < 2 ^ self.now.width → IsPositionOnTheWay self.now lists
            self.now.known (slice_index numbers.now k) 0 (slice_index firsts.new k) }
        ensures ends { (k : ℕ) → k < length numbers.now → slice_index ends.now k ≤ self.now.len
            → slice_index lasts.new k ≡ slice_index ends.now k }
    {
        for k in 0..numbers.len() {
            firsts[k] = self.known_position(numbers[k]);
            lasts[k] = self.end_position(ends[k]);
        }
    }

    /// Moves the numbers before the ends from a level to the next.
    fn total_lasts_level_on<T: TableSource>(
        &self,
        source: &mut T,
        depth: u8,
        numbers: &[u64],
        ends: &[usize],
        lasts: &mut [usize],
    )
        requires sized { HasSizes (T.lists source.old) }
        requires room { self.now.width * self.now.len ≤ length (bits_in (T.lists source.old)) }
        requires depth { depth < self.now.width }
        requires lasts { length lasts.old ≡ length numbers.now }
        requires each { (k : ℕ) → k < length numbers.now → slice_index ends.now k ≤ self.now.len
            → IsPositionOnTheWay self.now (T.lists source.old) depth (slice_index numbers.now k)
            (slice_index ends.now k) (slice_index lasts.old k) }
        ensures lasts { length lasts.new ≡ length numbers.now }
        ensures each { (k : ℕ) → k < length numbers.now → slice_index ends.now k ≤ self.now.len
            → IsPositionOnTheWay self.now (T.lists source.old) (depth + 1) (slice_index numbers.now k)
            (slice_index ends.now k) (slice_index lasts.new k) }
        ensures reads { OnlyRanks self.now T.lists T.reads source.old source.new
            (length numbers.now) }
    {
        let _ends = ends;
        for k in 0..numbers.len() {
            lasts[k] = self.total_position_moved_on(source, depth, numbers[k], lasts[k]);
        }
    }

    /// Where the numbers stand after the known levels, before all indices and before the ends.
    fn total_known_positions_on<T: TableSource>(
        &self,
        source: &mut T,
        numbers: &[u64],
        ends: &[usize],
        firsts: &mut [usize],
        lasts: &mut [usize],
    )
        requires sized { HasSizes (T.lists source.old) }
        requires room { self.now.width * self.now.len ≤ length (bits_in (T.lists source.old)) }
        requires ends { length ends.now ≡ length numbers.now }
        requires firsts { length firsts.old ≡ length numbers.now }
        requires lasts { length lasts.old ≡ length numbers.now }
        ensures firsts { length firsts.new ≡ length numbers.now }
        ensures lasts { length lasts.new ≡ length numbers.now }
        ensures each { (k : ℕ) → k < length numbers.now → slice_index ends.now k ≤ self.now.len
            → slice_index numbers.now k < 2 ^ self.now.width
            → AreBothOnTheWay self.now (T.lists source.old) self.now.known (slice_index numbers.now k)
            0 (slice_index ends.now k) (slice_index firsts.new k) (slice_index lasts.new k) }
        ensures reads { OnlyRanks self.now T.lists T.reads source.old source.new
            (self.now.known * length numbers.now) }
    {
        self.begin_places(numbers, ends, &mut *firsts, &mut *lasts);
        for depth in 0..self.known() {
            self.total_lasts_level_on(source, depth, numbers, ends, &mut *lasts);
        }
    }

    /// Moves the numbers, before all indices and before the ends, from a level to the next.
    fn total_positions_level_on<T: TableSource>(
        &self,
        source: &mut T,
        depth: u8,
        numbers: &[u64],
        ends: &[usize],
        firsts: &mut [usize],
        lasts: &mut [usize],
    )
        requires sized { HasSizes (T.lists source.old) }
        requires room { self.now.width * self.now.len ≤ length (bits_in (T.lists source.old)) }
        requires depth { depth < self.now.width }
        requires firsts { length firsts.old ≡ length numbers.now }
        requires lasts { length lasts.old ≡ length numbers.now }
        requires each { (k : ℕ) → k < length numbers.now → slice_index ends.now k ≤ self.now.len
            → slice_index numbers.now k < 2 ^ self.now.width
            → AreBothOnTheWay self.now (T.lists source.old) depth (slice_index numbers.now k)
            0 (slice_index ends.now k) (slice_index firsts.old k) (slice_index lasts.old k) }
        ensures firsts { length firsts.new ≡ length numbers.now }
        ensures lasts { length lasts.new ≡ length numbers.now }
        ensures each { (k : ℕ) → k < length numbers.now → slice_index ends.now k ≤ self.now.len
            → slice_index numbers.now k < 2 ^ self.now.width
            → AreBothOnTheWay self.now (T.lists source.old) (depth + 1) (slice_index numbers.now k)
            0 (slice_index ends.now k) (slice_index firsts.new k) (slice_index lasts.new k) }
        ensures reads { OnlyRanks self.now T.lists T.reads source.old source.new
            (2 * length numbers.now) }
    {
        let _ends = ends;
        for k in 0..numbers.len() {
            let (first, last) = self.total_both_moved_on(
                source, depth, numbers[k], firsts[k], lasts[k],
            );
            firsts[k] = first;
            lasts[k] = last;
        }
    }

    /// Where the numbers stand after the last level, before all indices and before the ends: `rank_between` makes the
    /// rank of each of them.
    ///
    /// # Conditions
    /// The conditions of `total_rank_on`, and there are as many ends, firsts and lasts as numbers. What the firsts and
    /// lasts have is overwritten.
    /// # Cost
    /// For each number what `total_rank_on` reads.
    ///
    /// ```
    /// levels.total_places_of_many_on(&mut source, &[1], &[4], &mut firsts, &mut lasts);
    /// levels.rank_between(1, 4, firsts[0], lasts[0]);   // Found(2): two of the first four numbers are 1
    /// ```
    pub fn total_positions_of_many_on<T: TableSource>(
        &self,
        source: &mut T,
        numbers: &[u64],
        ends: &[usize],
        firsts: &mut [usize],
        lasts: &mut [usize],
    )
        requires sized { HasSizes (T.lists source.old) }
        requires room { self.now.width * self.now.len ≤ length (bits_in (T.lists source.old)) }
        requires ends { length ends.now ≡ length numbers.now }
        requires firsts { length firsts.old ≡ length numbers.now }
        requires lasts { length lasts.old ≡ length numbers.now }
        ensures firsts { length firsts.new ≡ length numbers.now }
        ensures lasts { length lasts.new ≡ length numbers.now }
        ensures each { (k : ℕ) → k < length numbers.now → slice_index ends.now k ≤ self.now.len
            → slice_index numbers.now k < 2 ^ self.now.width
            → AreBothOnTheWay self.now (T.lists source.old) self.now.width (slice_index numbers.now k)
            0 (slice_index ends.now k) (slice_index firsts.new k) (slice_index lasts.new k) }
        ensures reads { OnlyRanks self.now T.lists T.reads source.old source.new
            ((2 * self.now.width - self.now.known) * length numbers.now) }
    {
        self.total_known_positions_on(source, numbers, ends, &mut *firsts, &mut *lasts);
        for depth in self.known()..self.width() {
            self.total_positions_level_on(source, depth, numbers, ends, &mut *firsts, &mut *lasts);
        }
    }

    /// How many of the first `end` numbers are this one, where it stands at these two positions after the last level:
    /// before all numbers, and before the one at `end`.
    ///
    /// Whatever these two are, the answer is at most `end`, and `Absent` exactly where there are fewer numbers. Where
    /// they are as `total_positions_of_many_on` wrote them over the levels of a matrix, it is the count, and never
    /// `Wrong`.
    ///
    /// ```
    /// levels.rank_between(1, 4, 0, 2);   // Found(2)
    /// ```
    #[inline(always)]
    pub fn rank_between(&self, number: u64, end: usize, first: usize, last: usize) -> Answer<usize>
        ensures { (lists : Lists) → (end ≤ self.now.len → number < 2 ^ self.now.width
            → AreBothOnTheWay self.now lists self.now.width number 0 end first last)
            → IsRankAt self.now lists number end result }
    {
        if end > self.len() {
            return Answer::Absent;
        }
        if !fits(number, self.width()) {
            return Answer::Found(0);
        }
        if first > self.len() {
            return Answer::Wrong;
        }
        match difference(first, last, end) {
            Some(count) => Answer::Found(count),
            None => Answer::Wrong,
        }
    }
}
