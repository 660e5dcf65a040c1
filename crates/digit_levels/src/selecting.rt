//! The indices of a number: lines, tables and counts may hold anything.
ghost use Rattle.std.specs.Prelude.{◌≡◌, ◌+◌, ◌*◌, ◌/◌, ◌^◌, ◌<◌, ℕ, List, IfSome, IsSomeAnd};
ghost use Rattle.bit_lists.specs.Bits.{digit_count};
ghost use Rattle.digits.specs.Reads.{DigitReadsAtMost};
ghost use Rattle.digit_levels.specs.Levels.{quad_level};
ghost use Rattle.digit_levels.specs.Matrix.{AreDigitLevelsOf, height};
ghost use Rattle.levels_view.specs.Answers.{IsIndexAmong, IsIndexOf, IsIndexWithin};
ghost use Rattle.matrix_levels.specs.Numbers.{PicksItem};

use crate::levels::DigitLevels;
use crate::source::LevelProbe;
use bitm_tables::answer::Answer;
use digits::selecting::digit_select_on;
use matrix_levels::fits;

impl<'a> DigitLevels<'a> {
    /// From where a number came to an index of the next level; `None` only where these are no levels of numbers, or the
    /// number does not stand there.
    #[inline(always)]
    fn back_on(
        &self,
        probe: &mut LevelProbe<'a>,
        depth: u8,
        number: u64,
        position: usize,
    ) -> Option<usize>
        requires { depth < height self.now }
        ensures inside { IfSome result (λ back. back < self.now.len) }
        ensures answer { let h = height self.now in
            (xs : List ℕ) (k : ℕ) → AreDigitLevelsOf xs self.now
            → PicksItem (quad_level xs h (depth + 1)) number k position
            → IsSomeAnd result (PicksItem (quad_level xs h depth) number k) }
        ensures reads { DigitReadsAtMost probe.old.reads probe.new.reads 10
            (digit_count (self.now.len / 224 / 256) + 2) }
    {
        self.open_level(probe, depth);
        let digit = self.digit_of(number, depth);
        let rank = position.wrapping_sub(self.lesser_of(depth, digit));
        match digit_select_on(probe, digit, rank) {
            Answer::Found(back) => Some(back),
            Answer::Absent => None,
            Answer::Wrong => None,
        }
    }

    /// From where a number came to an index after the last level; `None` only where these are no levels of numbers, or
    /// the number does not stand there.
    #[inline(always)]
    fn first_position_on(
        &self,
        probe: &mut LevelProbe<'a>,
        number: u64,
        position: usize,
    ) -> Option<usize>
        requires { position < self.now.len }
        ensures inside { IfSome result (λ first. first < self.now.len) }
        ensures answer { let h = height self.now in
            (xs : List ℕ) (k : ℕ) → AreDigitLevelsOf xs self.now
            → PicksItem (quad_level xs h h) number k position
            → IsSomeAnd result (PicksItem xs number k) }
        ensures reads { DigitReadsAtMost probe.old.reads probe.new.reads (10 * height self.now)
            ((digit_count (self.now.len / 224 / 256) + 2) * height self.now) }
    {
        let height = self.height();
        let mut at = position;
        for up in 0..height {
            let Some(back) = self.back_on(probe, height - 1 - up, number, at) else {
                return None;
            };
            at = back;
        }
        Some(at)
    }

    /// The index after the last level of this number with exactly `k` such numbers before it.
    #[inline(always)]
    fn last_position_on(&self, probe: &mut LevelProbe<'a>, number: u64, k: usize) -> Answer<usize>
        requires { number < 2 ^ self.now.width }
        ensures inside { IsIndexWithin self.now.len result }
        ensures answer { let h = height self.now in
            (xs : List ℕ) → AreDigitLevelsOf xs self.now
            → IsIndexAmong xs (quad_level xs h h) number k result }
        ensures reads { DigitReadsAtMost probe.old.reads probe.new.reads (2 * height self.now)
            (2 * height self.now) }
    {
        let len = self.len();
        let Some((first, last)) = self.stretch_on(probe, number, len) else {
            return Answer::Wrong;
        };
        let count = last.saturating_sub(first);
        if count <= k {
            return Answer::Absent;
        }
        Answer::Found(first + k)
    }

    /// The index of this number with exactly `k` such numbers before it.
    ///
    /// Whatever the memory holds, it is the index of a number. Where it holds the levels of numbers, it is the right
    /// one, and the answer is `Absent` exactly where there are no more than `k` such numbers, and never `Wrong`.
    ///
    /// # Cost
    /// For each level two ranks and a selection: at most 12 lines, and four more numbers of a table than the number of
    /// its last entry has binary digits, whatever the memory holds.
    ///
    /// ```
    /// levels.select_on(&mut probe, 1, 2);   // Found(5), Absent or Wrong
    /// ```
    pub fn select_on(&self, probe: &mut LevelProbe<'a>, number: u64, k: usize) -> Answer<usize>
        ensures inside { IsIndexWithin self.now.len result }
        ensures answer { (xs : List ℕ) → AreDigitLevelsOf xs self.now → IsIndexOf xs number k result }
        ensures reads { DigitReadsAtMost probe.old.reads probe.new.reads (12 * height self.now)
            ((digit_count (self.now.len / 224 / 256) + 4) * height self.now) }
    {
        if !fits(number, self.width()) {
            return Answer::Absent;
        }
        let position = match self.last_position_on(probe, number, k) {
            Answer::Found(position) => position,
            other => return other,
        };
        match self.first_position_on(probe, number, position) {
            Some(first) => Answer::Found(first),
            None => Answer::Wrong,
        }
    }
}
