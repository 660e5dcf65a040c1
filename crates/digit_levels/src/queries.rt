//! A number by its index, and a number's ranks: lines, tables and counts may hold anything.
ghost use Rattle.std.specs.Prelude.{◌≡◌, ◌+◌, ◌*◌, ◌^◌, ◌<◌, ◌≤◌, ℕ, List, Some, IfSome, MatchOption, slice_index};
ghost use Rattle.digits.specs.Reads.{DigitReadsAtMost};
ghost use Rattle.digit_levels.specs.Levels.{quad_level_position};
ghost use Rattle.digit_levels.specs.Matrix.{AreDigitLevelsOf, height};
ghost use Rattle.digit_levels.specs.Reads.{DigitReadsExactly, TookReads};
ghost use Rattle.levels_view.specs.Answers.{IsNumberOf, IsNumberWithin, IsRankOf, IsRankWithin};

use crate::levels::DigitLevels;
use crate::source::LevelProbe;
use bitm_tables::answer::Answer;
use matrix_levels::fits;

impl<'a> DigitLevels<'a> {
    /// The digits of the item at an index of level 0, from level to level; `None` only where these are no levels of
    /// numbers.
    #[inline(always)]
    fn digits_from_on(&self, probe: &mut LevelProbe<'a>, i: usize) -> Option<u64>
        requires { i < self.now.len }
        ensures answer { (xs : List ℕ) → AreDigitLevelsOf xs self.now
            → result ≡ Some (slice_index xs i) }
        ensures reads { MatchOption result
            (DigitReadsAtMost probe.old.reads probe.new.reads (height self.now) (height self.now))
            (λ _. DigitReadsExactly probe.old.reads probe.new.reads (height self.now)) }
    {
        let (mut found, mut at) = (0, i);
        for depth in 0..self.height() {
            let (digit, next) = self.step_on(probe, depth, at)?;
            found = 4 * found + digit as u64;
            at = next;
        }
        Some(found)
    }

    /// Number `i`.
    ///
    /// Whatever the memory holds, a number has no more bits than the width, and the answer is `Absent` exactly where
    /// there is no such number. Where it holds the levels of numbers, the answer is the number, and never `Wrong`.
    ///
    /// # Cost
    /// For each level exactly one line and one number of a table are read; no more where the answer is `Wrong`, and
    /// none where it is `Absent`.
    ///
    /// ```
    /// levels.get_on(&mut probe, 4);   // Found(5), Absent or Wrong
    /// ```
    pub fn get_on(&self, probe: &mut LevelProbe<'a>, i: usize) -> Answer<u64>
        ensures inside { IsNumberWithin self.now.len self.now.width i result }
        ensures answer { (xs : List ℕ) → AreDigitLevelsOf xs self.now → IsNumberOf xs i result }
        ensures reads { TookReads probe.old.reads probe.new.reads (height self.now) result }
    {
        if i >= self.len() {
            return Answer::Absent;
        }
        let Some(number) = self.digits_from_on(probe, i) else {
            return Answer::Wrong;
        };
        if fits(number, self.width()) {
            Answer::Found(number)
        } else {
            Answer::Wrong
        }
    }

    /// Where the numbers that are equal to this one start after the last level, and where the equal ones among the
    /// first `end` end there; `None` only where these are no levels of numbers.
    #[inline(always)]
    pub(crate) fn stretch_on(
        &self,
        probe: &mut LevelProbe<'a>,
        number: u64,
        end: usize,
    ) -> Option<(usize, usize)>
        requires { end ≤ self.now.len }
        ensures inside { IfSome result (λ s. (s.0 ≤ self.now.len) × (s.1 ≤ self.now.len)) }
        ensures answer { let h = height self.now in
            (xs : List ℕ) → AreDigitLevelsOf xs self.now
            → result ≡ Some (quad_level_position xs h number h 0, quad_level_position xs h number h end) }
        ensures reads { MatchOption result
            (DigitReadsAtMost probe.old.reads probe.new.reads (2 * height self.now) (2 * height self.now))
            (λ _. DigitReadsExactly probe.old.reads probe.new.reads (2 * height self.now)) }
    {
        let (mut first, mut last) = (0, end);
        for depth in 0..self.height() {
            let digit = self.digit_of(number, depth);
            let next = self.next_on(probe, depth, digit, first)?;
            let after = self.next_on(probe, depth, digit, last)?;
            first = next;
            last = after;
        }
        Some((first, last))
    }

    /// How many of the first `i` numbers are this one.
    ///
    /// Whatever the memory holds, they are at most `i`, and the answer is `Absent` exactly where there are fewer
    /// numbers. Where it holds the levels of numbers, the answer is the count, and never `Wrong`.
    ///
    /// # Cost
    /// For each level exactly one line and one number of a table are read for each of two ranks, where the equal
    /// numbers start and where they end; no more where the answer is `Wrong`, and none where it is `Absent` or the
    /// number has more bits than the width.
    ///
    /// ```
    /// levels.rank_on(&mut probe, 1, 4);   // Found(2), Absent or Wrong
    /// ```
    pub fn rank_on(&self, probe: &mut LevelProbe<'a>, number: u64, i: usize) -> Answer<usize>
        ensures inside { IsRankWithin self.now.len i result }
        ensures answer { (xs : List ℕ) → AreDigitLevelsOf xs self.now → IsRankOf xs number i result }
        ensures reads { number < 2 ^ self.now.width
            → TookReads probe.old.reads probe.new.reads (2 * height self.now) result }
        ensures no_reads { 2 ^ self.now.width ≤ number
            → TookReads probe.old.reads probe.new.reads 0 result }
    {
        if i > self.len() {
            return Answer::Absent;
        }
        if !fits(number, self.width()) {
            return Answer::Found(0);
        }
        let Some((first, last)) = self.stretch_on(probe, number, i) else {
            return Answer::Wrong;
        };
        // Where it is less than 0, this wraps to a number past every length, so one test covers both cases.
        let count = last.wrapping_sub(first);
        if count <= i {
            Answer::Found(count)
        } else {
            Answer::Wrong
        }
    }
}
