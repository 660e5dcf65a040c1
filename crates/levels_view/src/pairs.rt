//! Two answers of one walk, over any source: a number and its rank, and the ranks of a number at two indices. Words and
//! tables may hold anything.
//!
//! All positions go from level to level together, so that each waits for memory while the others do.
ghost use Rattle.std.specs.Prelude.{◌≡◌, ◌*◌, ◌-◌, ◌/◌, ◌^◌, ◌<◌, ◌≤◌, ℕ, Some, IfSome, IsSomeAnd, length, slice_index};
ghost use Rattle.bitm_tables.specs.Tables.{HasSizes, bits_in};
ghost use Rattle.matrix_levels.specs.Levels.{level_position};
ghost use Rattle.matrix_levels.specs.Matrix.{IsMatrix, OnlyRanks, numbers_in};
ghost use Rattle.levels_view.specs.Answers.{AreRanksOf, AreRanksWithin, IsItemOf, IsItemWithin, found_or_wrong};

use crate::levels::LevelsView;
use crate::stepping::difference;
use bitm_tables::answer::Answer;
use bitm_tables::source::TableSource;
use matrix_levels::{digit_of, fits};

impl<'a> LevelsView<'a> {
    /// The item at index `position` of the first level that is not known, with these bits before it; where the numbers
    /// that are equal to it start after the last level, and where it stands there; `None` only where words and tables
    /// form no matrix.
    #[inline(always)]
    fn total_ways_on<T: TableSource>(
        &self,
        source: &mut T,
        number: u64,
        position: usize,
    ) -> Option<(u64, usize, usize)>
        requires sized { HasSizes (T.lists source.old) }
        requires room { self.now.width * self.now.len ≤ length (bits_in (T.lists source.old)) }
        requires small { number < 2 ^ self.now.known }
        requires inside { position < self.now.len }
        ensures inside { IfSome result (λ ways. ways.0 < 2 ^ self.now.width) }
        ensures answer { let numbers = numbers_in self.now (T.lists source.old) in let width = self.now.width in
            (i : ℕ) → IsMatrix self.now (T.lists source.old) → i < self.now.len
            → position ≡ level_position numbers width (slice_index numbers i) self.now.known i
            → number ≡ slice_index numbers i / 2 ^ (width - self.now.known)
            → IsSomeAnd result (λ ways. (ways.0 ≡ slice_index numbers i)
            × (ways.1 ≡ level_position numbers width (slice_index numbers i) width 0)
            × (ways.2 ≡ level_position numbers width (slice_index numbers i) width i)) }
        ensures reads { OnlyRanks self.now T.lists T.reads source.old source.new
            (2 * (self.now.width - self.now.known)) }
    {
        let mut base = self.start_at(number)?;
        let (mut found, mut at) = (number, position);
        for depth in self.known()..self.width() {
            let (digit, next) = self.total_step_on(source, depth, at)?;
            let first = self.total_next_on(source, depth, digit, base)?;
            found = 2 * found + digit as u64;
            at = next;
            base = first;
        }
        Some((found, base, at))
    }

    /// Number `i`, and how many of the numbers before it are the same; `None` only where words and tables form no
    /// matrix.
    #[inline(always)]
    fn total_item_on<T: TableSource>(&self, source: &mut T, i: usize) -> Option<(u64, usize)>
        requires sized { HasSizes (T.lists source.old) }
        requires room { self.now.width * self.now.len ≤ length (bits_in (T.lists source.old)) }
        requires inside { i < self.now.len }
        ensures inside { IsItemWithin self.now.len self.now.width i (found_or_wrong result) }
        ensures answer { IsMatrix self.now (T.lists source.old)
            → IsItemOf (numbers_in self.now (T.lists source.old)) i (found_or_wrong result) }
        ensures reads { OnlyRanks self.now T.lists T.reads source.old source.new
            (2 * self.now.width - self.now.known) }
    {
        let (number, position) = self.total_way_on(source, 0, self.known(), 0, i)?;
        let (found, first, at) = self.total_ways_on(source, number, position)?;
        let rank = difference(first, at, i)?;
        Some((found, rank))
    }

    /// Number `i`, and how many of the numbers before it are the same.
    ///
    /// Whatever words and tables hold, the number has no more bits than the width, there are at most `i` before it, and
    /// the answer is `Absent` exactly where there is no such number. Where they form a matrix, the answer is its number
    /// and the count, and never `Wrong`.
    ///
    /// # Conditions
    /// The conditions of `total_get_on`.
    /// # Cost
    /// What `total_rank_on` reads, and not what `total_get_on` reads besides, whatever words and tables hold.
    ///
    /// ```
    /// levels.total_get_and_rank_on(&mut source, 4);   // Found((5, 0)), Absent or Wrong
    /// ```
    #[inline(always)]
    pub fn total_get_and_rank_on<T: TableSource>(
        &self,
        source: &mut T,
        i: usize,
    ) -> Answer<(u64, usize)>
        requires sized { HasSizes (T.lists source.old) }
        requires room { self.now.width * self.now.len ≤ length (bits_in (T.lists source.old)) }
        ensures inside { IsItemWithin self.now.len self.now.width i result }
        ensures answer { IsMatrix self.now (T.lists source.old)
            → IsItemOf (numbers_in self.now (T.lists source.old)) i result }
        ensures reads { OnlyRanks self.now T.lists T.reads source.old source.new
            (2 * self.now.width - self.now.known) }
    {
        if i >= self.len() {
            return Answer::Absent;
        }
        match self.total_item_on(source, i) {
            Some(item) => Answer::Found(item),
            None => Answer::Wrong,
        }
    }

    /// Where the numbers that are equal to this one start after the last level, and where the equal ones among the
    /// first `start` and among the first `end` end there; `None` only where words and tables form no matrix.
    #[inline(always)]
    fn total_three_positions_on<T: TableSource>(
        &self,
        source: &mut T,
        number: u64,
        start: usize,
        end: usize,
    ) -> Option<(usize, usize, usize)>
        requires sized { HasSizes (T.lists source.old) }
        requires room { self.now.width * self.now.len ≤ length (bits_in (T.lists source.old)) }
        requires fit { number < 2 ^ self.now.width }
        requires start { start ≤ self.now.len }
        requires end { end ≤ self.now.len }
        ensures positions { let numbers = numbers_in self.now (T.lists source.old) in
            let width = self.now.width in IsMatrix self.now (T.lists source.old)
            → IsSomeAnd result (λ positions. (positions.0 ≡ level_position numbers width number width 0)
            × (positions.1 ≡ level_position numbers width number width start)
            × (positions.2 ≡ level_position numbers width number width end)) }
        ensures reads { OnlyRanks self.now T.lists T.reads source.old source.new
            (3 * self.now.width - self.now.known) }
    {
        let (known, width) = (self.known(), self.width());
        let mut base = self.start_of(number)?;
        let (mut first, mut last) = self.total_positions_on(source, number, 0, known, start, end)?;
        for depth in known..width {
            let digit = digit_of(number, width - 1 - depth);
            let front = self.total_next_on(source, depth, digit, base)?;
            let next = self.total_next_on(source, depth, digit, first)?;
            let after = self.total_next_on(source, depth, digit, last)?;
            base = front;
            first = next;
            last = after;
        }
        Some((base, first, last))
    }

    /// How many of the first `start` numbers are this one, and of the first `end`.
    ///
    /// Whatever words and tables hold, they are at most as many, and the answer is `Absent` exactly where there are
    /// fewer numbers. Where they form a matrix, the answer is the two counts, and never `Wrong`.
    ///
    /// # Conditions
    /// The conditions of `total_get_on`.
    /// # Cost
    /// For each level what three ranks read, and for each level that is known what two read, whatever words and tables
    /// hold.
    ///
    /// ```
    /// levels.total_ranks_on(&mut source, 1, 2, 4);   // Found((1, 2)), Absent or Wrong
    /// ```
    #[inline(always)]
    pub fn total_ranks_on<T: TableSource>(
        &self,
        source: &mut T,
        number: u64,
        start: usize,
        end: usize,
    ) -> Answer<(usize, usize)>
        requires sized { HasSizes (T.lists source.old) }
        requires room { self.now.width * self.now.len ≤ length (bits_in (T.lists source.old)) }
        ensures inside { AreRanksWithin self.now.len start end result }
        ensures answer { IsMatrix self.now (T.lists source.old)
            → AreRanksOf (numbers_in self.now (T.lists source.old)) number start end result }
        ensures reads { OnlyRanks self.now T.lists T.reads source.old source.new
            (3 * self.now.width - self.now.known) }
    {
        if start > self.len() || end > self.len() {
            return Answer::Absent;
        }
        if !fits(number, self.width()) {
            return Answer::Found((0, 0));
        }
        let Some((base, first, last)) = self.total_three_positions_on(source, number, start, end)
        else {
            return Answer::Wrong;
        };
        match (difference(base, first, start), difference(base, last, end)) {
            (Some(before), Some(through)) => Answer::Found((before, through)),
            _ => Answer::Wrong,
        }
    }
}
