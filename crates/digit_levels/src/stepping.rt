//! The step from one level to the next: lines, tables and counts may hold anything.
ghost use Rattle.std.specs.Prelude.{◌≡◌, ◌<◌, ◌≤◌, ℕ, List, Some, IfSome, IsSomeAnd, slice_index};
ghost use Rattle.digits.specs.Digits.{digit_from};
ghost use Rattle.digit_levels.specs.Levels.{dealt_position, quad_level, quad_position};
ghost use Rattle.digit_levels.specs.Matrix.{AreDigitLevelsOf, height};
ghost use Rattle.digit_levels.specs.Reads.{DigitReadsExactly};

use crate::levels::DigitLevels;
use crate::source::LevelProbe;
use digits::ranking::{digit_and_rank_on, digit_rank_on};

impl<'a> DigitLevels<'a> {
    /// The digit by which the item at an index of a level is sorted, and where it stands at the next level; `None` only
    /// where these are no levels of numbers.
    #[inline(always)]
    pub(crate) fn step_on(
        &self,
        probe: &mut LevelProbe<'a>,
        depth: u8,
        position: usize,
    ) -> Option<(u8, usize)>
        requires depth { depth < height self.now }
        requires inside { position < self.now.len }
        ensures digit { IfSome result (λ s. s.0 < 4) }
        ensures inside { IfSome result (λ s. s.1 < self.now.len) }
        ensures answer { let h = height self.now in let k = quad_position h depth in
            (xs : List ℕ) → AreDigitLevelsOf xs self.now
            → IsSomeAnd result (λ s. (s.0 ≡ digit_from k (slice_index (quad_level xs h depth) position))
            × (s.1 ≡ dealt_position k s.0 (quad_level xs h depth) position)) }
        ensures reads { DigitReadsExactly probe.old.reads probe.new.reads 1 }
    {
        self.open_level(probe, depth);
        let Some((digit, rank)) = digit_and_rank_on(probe, position) else {
            unreachable!()
        };
        let next = self.lesser_of(depth, digit).wrapping_add(rank);
        if next < self.len() {
            Some((digit, next))
        } else {
            None
        }
    }

    /// Where an item with this digit at an index of a level stands at the next one, or would; `None` only where these
    /// are no levels of numbers.
    #[inline(always)]
    pub(crate) fn next_on(
        &self,
        probe: &mut LevelProbe<'a>,
        depth: u8,
        digit: u8,
        position: usize,
    ) -> Option<usize>
        requires depth { depth < height self.now }
        requires digit { digit < 4 }
        requires inside { position ≤ self.now.len }
        ensures inside { IfSome result (λ next. next ≤ self.now.len) }
        ensures answer { let h = height self.now in
            (xs : List ℕ) → AreDigitLevelsOf xs self.now
            → result ≡ Some (dealt_position (quad_position h depth) digit (quad_level xs h depth) position) }
        ensures reads { DigitReadsExactly probe.old.reads probe.new.reads 1 }
    {
        self.open_level(probe, depth);
        let Some(rank) = digit_rank_on(probe, digit, position) else {
            unreachable!()
        };
        let next = self.lesser_of(depth, digit).wrapping_add(rank);
        if next <= self.len() { Some(next) } else { None }
    }
}
