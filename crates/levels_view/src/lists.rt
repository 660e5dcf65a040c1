//! Lists of numbers and of ranks, over any source: words and tables may hold anything.
//!
//! A group of them goes from level to level together, so that each waits for memory while the others do.
ghost use Rattle.std.specs.Prelude.{◌≡◌, ◌-◌, ◌*◌, ◌<◌, ◌≤◌, ◌⊎◌, ℕ, length, slice_index};
ghost use Rattle.bitm_tables.specs.Tables.{HasSizes, bits_in};
ghost use Rattle.bitm_tables.specs.declared.answer.Answer.TheVariants.{Absent, Found, Wrong};
ghost use Rattle.matrix_levels.specs.Matrix.{OnlyRanks};
ghost use Rattle.levels_view.specs.Walk.{IsNumberAt, IsRankAt};

use crate::levels::LevelsView;
use bitm_tables::answer::Answer;
use bitm_tables::source::TableSource;
use tuning::RANKS_SIDE_BY_SIDE;

impl<'a> LevelsView<'a> {
    /// `total_get_list_on` of indices that go side by side, with as many positions and numbers to work with.
    fn total_get_with_on<T: TableSource>(
        &self,
        source: &mut T,
        indices: &[usize],
        positions: &mut [usize],
        numbers: &mut [u64],
        out: &mut [u64],
    ) -> usize
        requires sized { HasSizes (T.lists source.old) }
        requires room { self.now.width * self.now.len ≤ length (bits_in (T.lists source.old)) }
        requires out { length out.old ≡ length indices.now }
        requires positions { length positions.old ≡ length indices.now }
        requires numbers { length numbers.old ≡ length indices.now }
        ensures most { result ≤ length indices.now }
        ensures numbers { (j : ℕ) → j < result → IsNumberAt self.now (T.lists source.old)
            (slice_index indices.now j) (Found (slice_index out.new j)) }
        ensures last { result < length indices.now
            → IsNumberAt self.now (T.lists source.old) (slice_index indices.now result) Absent
            ⊎ IsNumberAt self.now (T.lists source.old) (slice_index indices.now result) Wrong }
        ensures len { length out.new ≡ length out.old }
        ensures behind { (j : ℕ) → result ≤ j → slice_index out.new j ≡ slice_index out.old j }
        ensures reads { OnlyRanks self.now T.lists T.reads source.old source.new
            (self.now.width * length indices.now) }
    {
        self.total_get_many_on(source, indices, &mut *positions, &mut *numbers);
        for k in 0..indices.len() {
            if positions[k] >= self.len() {
                return k;
            }
            out[k] = numbers[k];
        }
        indices.len()
    }

    /// `total_get_list_on` of no more indices than go side by side.
    fn total_get_group_on<T: TableSource>(
        &self,
        source: &mut T,
        indices: &[usize],
        out: &mut [u64],
    ) -> usize
        requires sized { HasSizes (T.lists source.old) }
        requires room { self.now.width * self.now.len ≤ length (bits_in (T.lists source.old)) }
        requires out { length out.old ≡ length indices.now }
        requires few { length indices.now ≤ 32 }
        ensures most { result ≤ length indices.now }
        ensures numbers { (j : ℕ) → j < result → IsNumberAt self.now (T.lists source.old)
            (slice_index indices.now j) (Found (slice_index out.new j)) }
        ensures last { result < length indices.now
            → IsNumberAt self.now (T.lists source.old) (slice_index indices.now result) Absent
            ⊎ IsNumberAt self.now (T.lists source.old) (slice_index indices.now result) Wrong }
        ensures len { length out.new ≡ length out.old }
        ensures behind { (j : ℕ) → result ≤ j → slice_index out.new j ≡ slice_index out.old j }
        ensures reads { OnlyRanks self.now T.lists T.reads source.old source.new
            (self.now.width * length indices.now) }
    {
        // No zeros, which would be written by a call of C's `memset`: the archive for C calls nothing.
        let mut positions = [1usize; RANKS_SIDE_BY_SIDE];
        let mut numbers = [1u64; RANKS_SIDE_BY_SIDE];
        let count = indices.len();
        self.total_get_with_on(
            source,
            indices,
            &mut positions[..count],
            &mut numbers[..count],
            out,
        )
    }

    /// Writes the number at each index, up to the first that is not found (`total_get_on` would answer `Absent` or
    /// `Wrong`), and answers how many were written. The items after them are as they were.
    ///
    /// Whatever words and tables hold, a number has no more bits than the width. Where they form a matrix, each index
    /// of a number is found.
    ///
    /// # Conditions
    /// The conditions of `total_get_on`, and there are as many items of `out` as indices.
    /// # Cost
    /// For each index what `total_get_on` reads; 32 of them go from level to level together, so that they wait for
    /// memory side by side (evident from the code).
    ///
    /// ```
    /// let mut out = [0u64; 3];
    /// levels.total_get_list_on(&mut source, &[4, 0, 2], &mut out);   // 3: 5, 3 and 4
    /// ```
    pub fn total_get_list_on<T: TableSource>(
        &self,
        source: &mut T,
        indices: &[usize],
        out: &mut [u64],
    ) -> usize
        requires sized { HasSizes (T.lists source.old) }
        requires room { self.now.width * self.now.len ≤ length (bits_in (T.lists source.old)) }
        requires out { length out.old ≡ length indices.now }
        ensures most { result ≤ length indices.now }
        ensures numbers { (j : ℕ) → j < result → IsNumberAt self.now (T.lists source.old)
            (slice_index indices.now j) (Found (slice_index out.new j)) }
        ensures last { result < length indices.now
            → IsNumberAt self.now (T.lists source.old) (slice_index indices.now result) Absent
            ⊎ IsNumberAt self.now (T.lists source.old) (slice_index indices.now result) Wrong }
        ensures len { length out.new ≡ length out.old }
        ensures behind { (j : ℕ) → result ≤ j → slice_index out.new j ≡ slice_index out.old j }
        ensures reads { OnlyRanks self.now T.lists T.reads source.old source.new
            (self.now.width * length indices.now) }
    {
        let mut from = 0;
        while from < indices.len() {
            let to = from + (indices.len() - from).min(RANKS_SIDE_BY_SIDE);
            let found = self.total_get_group_on(source, &indices[from..to], &mut out[from..to]);
            if found < to - from {
                return from + found;
            }
            from = to;
        }
        from
    }

    /// `total_rank_list_on` of numbers that go side by side, with as many positions to work with.
    fn total_rank_with_on<T: TableSource>(
        &self,
        source: &mut T,
        numbers: &[u64],
        ends: &[usize],
        firsts: &mut [usize],
        lasts: &mut [usize],
        out: &mut [usize],
    ) -> usize
        requires sized { HasSizes (T.lists source.old) }
        requires room { self.now.width * self.now.len ≤ length (bits_in (T.lists source.old)) }
        requires ends { length ends.now ≡ length numbers.now }
        requires out { length out.old ≡ length numbers.now }
        requires firsts { length firsts.old ≡ length numbers.now }
        requires lasts { length lasts.old ≡ length numbers.now }
        ensures most { result ≤ length numbers.now }
        ensures ranks { (j : ℕ) → j < result → IsRankAt self.now (T.lists source.old)
            (slice_index numbers.now j) (slice_index ends.now j) (Found (slice_index out.new j)) }
        ensures last { result < length numbers.now
            → IsRankAt self.now (T.lists source.old) (slice_index numbers.now result)
            (slice_index ends.now result) Absent
            ⊎ IsRankAt self.now (T.lists source.old) (slice_index numbers.now result)
            (slice_index ends.now result) Wrong }
        ensures len { length out.new ≡ length out.old }
        ensures behind { (j : ℕ) → result ≤ j → slice_index out.new j ≡ slice_index out.old j }
        ensures reads { OnlyRanks self.now T.lists T.reads source.old source.new
            ((2 * self.now.width - self.now.known) * length numbers.now) }
    {
        self.total_positions_of_many_on(source, numbers, ends, &mut *firsts, &mut *lasts);
        for k in 0..numbers.len() {
            match self.rank_between(numbers[k], ends[k], firsts[k], lasts[k]) {
                Answer::Found(count) => out[k] = count,
                Answer::Absent => return k,
                Answer::Wrong => return k,
            }
        }
        numbers.len()
    }

    /// `total_rank_list_on` of no more numbers than go side by side.
    fn total_rank_group_on<T: TableSource>(
        &self,
        source: &mut T,
        numbers: &[u64],
        ends: &[usize],
        out: &mut [usize],
    ) -> usize
        requires sized { HasSizes (T.lists source.old) }
        requires room { self.now.width * self.now.len ≤ length (bits_in (T.lists source.old)) }
        requires ends { length ends.now ≡ length numbers.now }
        requires out { length out.old ≡ length numbers.now }
        requires few { length numbers.now ≤ 32 }
        ensures most { result ≤ length numbers.now }
        ensures ranks { (j : ℕ) → j < result → IsRankAt self.now (T.lists source.old)
            (slice_index numbers.now j) (slice_index ends.now j) (Found (slice_index out.new j)) }
        ensures last { result < length numbers.now
            → IsRankAt self.now (T.lists source.old) (slice_index numbers.now result)
            (slice_index ends.now result) Absent
            ⊎ IsRankAt self.now (T.lists source.old) (slice_index numbers.now result)
            (slice_index ends.now result) Wrong }
        ensures len { length out.new ≡ length out.old }
        ensures behind { (j : ℕ) → result ≤ j → slice_index out.new j ≡ slice_index out.old j }
        ensures reads { OnlyRanks self.now T.lists T.reads source.old source.new
            ((2 * self.now.width - self.now.known) * length numbers.now) }
    {
        // No zeros, as above.
        let mut firsts = [1usize; RANKS_SIDE_BY_SIDE];
        let mut lasts = [1usize; RANKS_SIDE_BY_SIDE];
        let count = numbers.len();
        self.total_rank_with_on(
            source,
            numbers,
            ends,
            &mut firsts[..count],
            &mut lasts[..count],
            out,
        )
    }

    /// Writes how often each number stands before its end, up to the first that is not answered (`total_rank_on` would
    /// answer `Absent` or `Wrong`), and answers how many were written. The items after them are as they were.
    ///
    /// Whatever words and tables hold, a rank is at most its end. Where they form a matrix, there is one for each end
    /// that is not past the numbers.
    ///
    /// # Conditions
    /// The conditions of `total_rank_on`, and there are as many ends and items of `out` as numbers.
    /// # Cost
    /// For each number what `total_rank_on` reads; 32 of them go from level to level together, so that they wait for
    /// memory side by side (evident from the code).
    ///
    /// ```
    /// let mut out = [0usize; 2];
    /// levels.total_rank_list_on(&mut source, &[1, 5], &[4, 6], &mut out);   // 2: 2 and 1
    /// ```
    pub fn total_rank_list_on<T: TableSource>(
        &self,
        source: &mut T,
        numbers: &[u64],
        ends: &[usize],
        out: &mut [usize],
    ) -> usize
        requires sized { HasSizes (T.lists source.old) }
        requires room { self.now.width * self.now.len ≤ length (bits_in (T.lists source.old)) }
        requires ends { length ends.now ≡ length numbers.now }
        requires out { length out.old ≡ length numbers.now }
        ensures most { result ≤ length numbers.now }
        ensures ranks { (j : ℕ) → j < result → IsRankAt self.now (T.lists source.old)
            (slice_index numbers.now j) (slice_index ends.now j) (Found (slice_index out.new j)) }
        ensures last { result < length numbers.now
            → IsRankAt self.now (T.lists source.old) (slice_index numbers.now result)
            (slice_index ends.now result) Absent
            ⊎ IsRankAt self.now (T.lists source.old) (slice_index numbers.now result)
            (slice_index ends.now result) Wrong }
        ensures len { length out.new ≡ length out.old }
        ensures behind { (j : ℕ) → result ≤ j → slice_index out.new j ≡ slice_index out.old j }
        ensures reads { OnlyRanks self.now T.lists T.reads source.old source.new
            ((2 * self.now.width - self.now.known) * length numbers.now) }
    {
        let mut from = 0;
        while from < numbers.len() {
            let to = from + (numbers.len() - from).min(RANKS_SIDE_BY_SIDE);
            let found = self.total_rank_group_on(
                source,
                &numbers[from..to],
                &ends[from..to],
                &mut out[from..to],
            );
            if found < to - from {
                return from + found;
            }
            from = to;
        }
        from
    }
}
