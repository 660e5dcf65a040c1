//! A number by its index, and a number's ranks, over any source: words and tables may hold anything.
ghost use Rattle.std.specs.Prelude.{◌≡◌, ◌*◌, ◌-◌, ◌/◌, ◌^◌, ◌<◌, ◌≤◌, ℕ, Some, IfSome, IsSomeAnd, length, slice_index};
ghost use Rattle.bitm_tables.specs.Tables.{HasSizes, bits_in};
ghost use Rattle.matrix_levels.specs.Levels.{level_position};
ghost use Rattle.matrix_levels.specs.Matrix.{IsMatrix, OnlyRanks, numbers_in};
ghost use Rattle.matrix_levels.specs.Numbers.{occurrences_before};
ghost use Rattle.levels_view.specs.Answers.{IsNumberOf, IsNumberWithin, IsRankOf, IsRankWithin};

use crate::levels::LevelsView;
use crate::stepping::difference;
use bitm_tables::answer::Answer;
use bitm_tables::source::TableSource;
use matrix_levels::{digit_of, fits};

impl<'a> LevelsView<'a> {
    /// Where the item at an index of level `from` stands at level `to`, and its bits on this way after the bits of
    /// `number`; `None` only where words and tables form no matrix.
    #[inline(always)]
    pub(crate) fn total_way_on<T: TableSource>(
        &self,
        source: &mut T,
        from: u8,
        to: u8,
        number: u64,
        position: usize,
    ) -> Option<(u64, usize)>
        requires sized { HasSizes (T.lists source.old) }
        requires room { self.now.width * self.now.len ≤ length (bits_in (T.lists source.old)) }
        requires order { from ≤ to }
        requires most { to ≤ self.now.width }
        requires small { number < 2 ^ from }
        requires inside { position < self.now.len }
        ensures inside { IfSome result (λ way. (way.0 < 2 ^ to) × (way.1 < self.now.len)) }
        ensures answer { let numbers = numbers_in self.now (T.lists source.old) in let width = self.now.width in
            (i : ℕ) → IsMatrix self.now (T.lists source.old) → i < self.now.len
            → position ≡ level_position numbers width (slice_index numbers i) from i
            → number ≡ slice_index numbers i / 2 ^ (width - from)
            → IsSomeAnd result (λ way. (way.0 ≡ slice_index numbers i / 2 ^ (width - to))
            × (way.1 ≡ level_position numbers width (slice_index numbers i) to i)) }
        ensures reads { OnlyRanks self.now T.lists T.reads source.old source.new (to - from) }
    {
        let _width = self.width(); // whose bound is what the number fits by
        let (mut found, mut at) = (number, position);
        for depth in from..to {
            let (digit, next) = self.total_step_on(source, depth, at)?;
            found = 2 * found + digit as u64;
            at = next;
        }
        Some((found, at))
    }

    /// Number `i`.
    ///
    /// Whatever words and tables hold, a number has no more bits than the width, and the answer is `Absent` exactly
    /// where there is no such number. Where they form a matrix, the answer is its number, and never `Wrong`.
    ///
    /// # Conditions
    /// There are fewer than 2^58 words, enough for all numbers, and the two tables have the right lengths. They may
    /// hold anything.
    /// # Cost
    /// For each level what a rank reads, whatever words and tables hold: at most one upper entry, no lower one, two
    /// words and (evident from the code) one number of the quarters; of compact levels at most one upper entry, one
    /// lower one and eight words.
    ///
    /// ```
    /// levels.total_get_on(&mut source, 4);   // Found(5), Absent or Wrong
    /// ```
    #[inline(always)]
    pub fn total_get_on<T: TableSource>(&self, source: &mut T, i: usize) -> Answer<u64>
        requires sized { HasSizes (T.lists source.old) }
        requires room { self.now.width * self.now.len ≤ length (bits_in (T.lists source.old)) }
        ensures inside { IsNumberWithin self.now.len self.now.width i result }
        ensures answer { IsMatrix self.now (T.lists source.old)
            → IsNumberOf (numbers_in self.now (T.lists source.old)) i result }
        ensures reads { OnlyRanks self.now T.lists T.reads source.old source.new self.now.width }
    {
        if i >= self.len() {
            return Answer::Absent;
        }
        match self.total_way_on(source, 0, self.width(), 0, i) {
            Some((number, _)) => Answer::Found(number),
            None => Answer::Wrong,
        }
    }

    /// Where a number that stands at an index of level `from`, or would there, stands at level `to`; `None` only where
    /// words and tables form no matrix.
    #[inline(always)]
    pub(crate) fn total_position_on<T: TableSource>(
        &self,
        source: &mut T,
        number: u64,
        from: u8,
        to: u8,
        position: usize,
    ) -> Option<usize>
        requires sized { HasSizes (T.lists source.old) }
        requires room { self.now.width * self.now.len ≤ length (bits_in (T.lists source.old)) }
        requires order { from ≤ to }
        requires most { to ≤ self.now.width }
        requires inside { position ≤ self.now.len }
        ensures inside { IfSome result (λ at. at ≤ self.now.len) }
        ensures position { let numbers = numbers_in self.now (T.lists source.old) in let width = self.now.width in
            (p : ℕ) → IsMatrix self.now (T.lists source.old) → position ≡ level_position numbers width number from p
            → result ≡ Some (level_position numbers width number to p) }
        ensures reads { OnlyRanks self.now T.lists T.reads source.old source.new (to - from) }
    {
        let last = self.width() - 1;
        let mut at = position;
        for depth in from..to {
            at = self.total_next_on(source, depth, digit_of(number, last - depth), at)?;
        }
        Some(at)
    }

    /// As `total_position_on`, for two indices; their walks wait for memory side by side.
    #[inline(always)]
    pub(crate) fn total_positions_on<T: TableSource>(
        &self,
        source: &mut T,
        number: u64,
        from: u8,
        to: u8,
        start: usize,
        end: usize,
    ) -> Option<(usize, usize)>
        requires sized { HasSizes (T.lists source.old) }
        requires room { self.now.width * self.now.len ≤ length (bits_in (T.lists source.old)) }
        requires order { from ≤ to }
        requires most { to ≤ self.now.width }
        requires start { start ≤ self.now.len }
        requires end { end ≤ self.now.len }
        ensures inside { IfSome result (λ positions. (positions.0 ≤ self.now.len) × (positions.1 ≤ self.now.len)) }
        ensures positions { let numbers = numbers_in self.now (T.lists source.old) in let width = self.now.width in
            (s e : ℕ) → IsMatrix self.now (T.lists source.old)
            → start ≡ level_position numbers width number from s → end ≡ level_position numbers width number from e
            → result ≡ Some (level_position numbers width number to s, level_position numbers width number to e) }
        ensures reads { OnlyRanks self.now T.lists T.reads source.old source.new (2 * (to - from)) }
    {
        let last = self.width() - 1;
        let (mut first, mut second) = (start, end);
        for depth in from..to {
            let digit = digit_of(number, last - depth);
            let next = self.total_next_on(source, depth, digit, first)?;
            let after = self.total_next_on(source, depth, digit, second)?;
            first = next;
            second = after;
        }
        Some((first, second))
    }

    /// Where the numbers that are equal to this one start after the last level; `None` only where words and tables form
    /// no matrix.
    #[inline(always)]
    pub(crate) fn total_start_on<T: TableSource>(
        &self,
        source: &mut T,
        number: u64,
    ) -> Option<usize>
        requires sized { HasSizes (T.lists source.old) }
        requires room { self.now.width * self.now.len ≤ length (bits_in (T.lists source.old)) }
        requires fit { number < 2 ^ self.now.width }
        ensures inside { IfSome result (λ start. start ≤ self.now.len) }
        ensures start { let numbers = numbers_in self.now (T.lists source.old) in let width = self.now.width in
            IsMatrix self.now (T.lists source.old) → result ≡ Some (level_position numbers width number width 0) }
        ensures reads { OnlyRanks self.now T.lists T.reads source.old source.new
            (self.now.width - self.now.known) }
    {
        let start = self.start_of(number)?;
        self.total_position_on(source, number, self.known(), self.width(), start)
    }

    /// Where the numbers that are equal to this one start after the last level, and where the equal ones among the
    /// first `end` end there; `None` only where words and tables form no matrix.
    #[inline(always)]
    pub(crate) fn total_stretch_on<T: TableSource>(
        &self,
        source: &mut T,
        number: u64,
        end: usize,
    ) -> Option<(usize, usize)>
        requires sized { HasSizes (T.lists source.old) }
        requires room { self.now.width * self.now.len ≤ length (bits_in (T.lists source.old)) }
        requires fit { number < 2 ^ self.now.width }
        requires end { end ≤ self.now.len }
        ensures inside { IfSome result (λ stretch. (stretch.0 ≤ self.now.len) × (stretch.1 ≤ self.now.len)) }
        ensures stretch { let numbers = numbers_in self.now (T.lists source.old) in let width = self.now.width in
            IsMatrix self.now (T.lists source.old) → result
            ≡ Some (level_position numbers width number width 0, level_position numbers width number width end) }
        ensures reads { OnlyRanks self.now T.lists T.reads source.old source.new
            (2 * self.now.width - self.now.known) }
    {
        let known = self.known();
        let start = self.start_of(number)?;
        let last = self.total_position_on(source, number, 0, known, end)?;
        self.total_positions_on(source, number, known, self.width(), start, last)
    }

    /// How many of the first numbers are this one, at most all of these; `None` only where words and tables form no
    /// matrix.
    #[inline(always)]
    fn total_count_on<T: TableSource>(
        &self,
        source: &mut T,
        number: u64,
        end: usize,
    ) -> Option<usize>
        requires sized { HasSizes (T.lists source.old) }
        requires room { self.now.width * self.now.len ≤ length (bits_in (T.lists source.old)) }
        requires fit { number < 2 ^ self.now.width }
        requires end { end ≤ self.now.len }
        ensures inside { IfSome result (λ count. count ≤ end) }
        ensures answer { IsMatrix self.now (T.lists source.old)
            → result ≡ Some (occurrences_before (numbers_in self.now (T.lists source.old)) number end) }
        ensures reads { OnlyRanks self.now T.lists T.reads source.old source.new
            (2 * self.now.width - self.now.known) }
    {
        let (first, last) = self.total_stretch_on(source, number, end)?;
        difference(first, last, end)
    }

    /// How many of the first `i` numbers are this one.
    ///
    /// Whatever words and tables hold, they are at most `i`, and the answer is `Absent` exactly where there are fewer
    /// numbers. Where they form a matrix, the answer is the count, and never `Wrong`.
    ///
    /// # Conditions
    /// The conditions of `total_get_on`.
    /// # Cost
    /// For each level what two ranks read, and for each level that is known what one reads, whatever words and tables
    /// hold.
    ///
    /// ```
    /// levels.total_rank_on(&mut source, 1, 4);   // Found(2), Absent or Wrong
    /// ```
    #[inline(always)]
    pub fn total_rank_on<T: TableSource>(
        &self,
        source: &mut T,
        number: u64,
        i: usize,
    ) -> Answer<usize>
        requires sized { HasSizes (T.lists source.old) }
        requires room { self.now.width * self.now.len ≤ length (bits_in (T.lists source.old)) }
        ensures inside { IsRankWithin self.now.len i result }
        ensures answer { IsMatrix self.now (T.lists source.old)
            → IsRankOf (numbers_in self.now (T.lists source.old)) number i result }
        ensures reads { OnlyRanks self.now T.lists T.reads source.old source.new
            (2 * self.now.width - self.now.known) }
    {
        if i > self.len() {
            return Answer::Absent;
        }
        if !fits(number, self.width()) {
            return Answer::Found(0);
        }
        match self.total_count_on(source, number, i) {
            Some(count) => Answer::Found(count),
            None => Answer::Wrong,
        }
    }
}
