//! The numbers that two ranges share.
ghost use Rattle.std.specs.Prelude.{◌≡◌, ◌-◌, ◌*◌, ◌^◌, ◌<◌, ◌≤◌, true, false, length, slice_range, IfOk, IsSomeAnd};
ghost use Rattle.bitm_tables.specs.Tables.{HasSizes, bits_in};
ghost use Rattle.matrix_levels.specs.Levels.{ArePositionsAfter, BeginAlike};
ghost use Rattle.matrix_levels.specs.Matrix.{IsMatrix, OnlyRanks, digit_position, level_in, numbers_in};
ghost use Rattle.matrix_levels.specs.Shared.{AddsShared, AreShared, shared_prefixes};

use crate::laws;
use crate::levels::LevelsView;
use bitm_tables::source::TableSource;
use std::alloc::{AllocError, Global};
use std::ops::Range;

impl<'a> LevelsView<'a> {
    /// Where the items of a range of a level stand at the next level, the items with a 0 and the items with a 1; `None`
    /// only where words and tables form no matrix.
    #[inline(always)]
    fn total_halves_on<T: TableSource>(
        &self,
        source: &mut T,
        depth: u8,
        range: Range<usize>,
    ) -> Option<(Range<usize>, Range<usize>)>
        requires sized { HasSizes (T.lists source.old) }
        requires room { self.now.width * self.now.len ≤ length (bits_in (T.lists source.old)) }
        requires depth { depth < self.now.width }
        requires order { range.start ≤ range.end }
        requires inside { range.end ≤ self.now.len }
        ensures halves { let position = digit_position self.now depth in
            let items = level_in self.now (T.lists source.old) depth in
            IsMatrix self.now (T.lists source.old) → IsSomeAnd result (λ halves.
            ArePositionsAfter position false items range.start range.end halves.0.start halves.0.end
            × ArePositionsAfter position true items range.start range.end halves.1.start halves.1.end) }
        ensures reads { OnlyRanks self.now T.lists T.reads source.old source.new 2 }
    {
        let (start, end) = (range.start, range.end);
        let (before, ones, zeros) = self.total_part_on(source, depth, start, end)?;
        let (zero_start, zero_end) = self.range_after(depth, false, start, before, zeros)?;
        let (one_start, one_end) = self.range_after(depth, true, start, before, ones)?;
        Some((zero_start..zero_end, one_start..one_end))
    }

    /// Adds the numbers that stand in both ranges of a level, whose items all begin with the bits of `prefix`.
    fn add_shared_on<T: TableSource>(
        &self,
        source: &mut T,
        depth: u8,
        prefix: u64,
        first: Range<usize>,
        second: Range<usize>,
        found: &mut Vec<u64>,
    ) -> Result<(), AllocError>
        requires matrix { IsMatrix self.now (T.lists source.old) }
        requires depth { depth ≤ self.now.width }
        requires prefix { prefix < 2 ^ depth }
        requires first { BeginAlike (numbers_in self.now (T.lists source.old)) self.now.width
            depth prefix first.start first.end }
        requires second { BeginAlike (numbers_in self.now (T.lists source.old)) self.now.width
            depth prefix second.start second.end }
        ensures found { let items = level_in self.now (T.lists source.old) depth in
            IfOk result (λ _. AddsShared (slice_range items first.start first.end)
            (slice_range items second.start second.end) found.old.items found.new.items) }
        ensures reads { let items = level_in self.now (T.lists source.old) depth in
            OnlyRanks self.now T.lists T.reads source.old source.new
            (4 * shared_prefixes (slice_range items first.start first.end)
            (slice_range items second.start second.end) (self.now.width - depth)) }
    {
        if first.start >= first.end || second.start >= second.end {
            return Ok(());
        }
        if depth == self.width() {
            found.push(prefix)?;
            return Ok(());
        }
        laws::matrices_fit();
        let Some((first_zeros, first_ones)) = self.total_halves_on(source, depth, first) else {
            unreachable!()
        };
        let Some((second_zeros, second_ones)) = self.total_halves_on(source, depth, second) else {
            unreachable!()
        };
        let zero = 2 * prefix;
        self.add_shared_on(source, depth + 1, zero, first_zeros, second_zeros, found)?;
        self.add_shared_on(source, depth + 1, zero + 1, first_ones, second_ones, found)
    }

    /// The numbers that are in both ranges, each once, rising.
    ///
    /// # Conditions
    /// The levels belong to the source, and no range ends before it starts, nor past the numbers.
    /// # Errors
    /// `AllocError` if memory was refused.
    /// # Cost
    /// Four ranks for each beginning, of none to all but one of the bits, that numbers of both ranges have.
    /// # Source
    /// Gagie, Navarro and Puglisi, 'New algorithms on wavelet trees and applications to information retrieval'
    /// (Theoretical Computer Science 426-427, 2012).
    pub fn intersect_on<T: TableSource>(
        &self,
        alloc: Global,
        source: &mut T,
        first: Range<usize>,
        second: Range<usize>,
    ) -> Result<Vec<u64>, AllocError>
        requires matrix { IsMatrix self.now (T.lists source.old) }
        requires first_order { first.start ≤ first.end }
        requires first_inside { first.end ≤ self.now.len }
        requires second_order { second.start ≤ second.end }
        requires second_inside { second.end ≤ self.now.len }
        ensures shared { let numbers = numbers_in self.now (T.lists source.old) in
            IfOk result (λ found. AreShared (slice_range numbers first.start first.end)
            (slice_range numbers second.start second.end) found.items) }
        ensures reads { let numbers = numbers_in self.now (T.lists source.old) in
            OnlyRanks self.now T.lists T.reads source.old source.new
            (4 * shared_prefixes (slice_range numbers first.start first.end)
            (slice_range numbers second.start second.end) self.now.width) }
    {
        let mut found = Vec::new(alloc);
        self.add_shared_on(source, 0, 0, first, second, &mut found)?;
        Ok(found)
    }
}
