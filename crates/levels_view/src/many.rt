//! Many numbers by their indices at once, over any source: words and tables may hold anything.
//!
//! All go from level to level together, so that each waits for memory while the others do.
ghost use Rattle.std.specs.Prelude.{◌≡◌, ◌+◌, ◌*◌, ◌^◌, ◌<◌, ◌≤◌, ℕ, length, slice_index};
ghost use Rattle.bitm_tables.specs.Tables.{HasSizes, bits_in};
ghost use Rattle.matrix_levels.specs.Matrix.{OnlyRanks};
ghost use Rattle.levels_view.specs.Walk.{IsOnTheWay, IsNumberAndRank};

use crate::levels::LevelsView;
use bitm_tables::source::TableSource;

impl<'a> LevelsView<'a> {
    /// Where the item at an index of a level stands at the next one, and its digits with one more. An index past the
    /// end stays there, and one goes there only where words and tables form no matrix.
    #[inline(always)]
    fn total_moved_on<T: TableSource>(
        &self,
        source: &mut T,
        depth: u8,
        position: usize,
        number: u64,
    ) -> (usize, u64)
        requires sized { HasSizes (T.lists source.old) }
        requires room { self.now.width * self.now.len ≤ length (bits_in (T.lists source.old)) }
        requires depth { depth < self.now.width }
        requires small { position < self.now.len → number < 2 ^ depth }
        ensures moved { (i : ℕ) → IsOnTheWay self.now (T.lists source.old) depth i position number
            → IsOnTheWay self.now (T.lists source.old) (depth + 1) i result.0 result.1 }
        ensures reads { OnlyRanks self.now T.lists T.reads source.old source.new 1 }
    {
        if position >= self.len() {
            return (position, number);
        }
        match self.total_step_on(source, depth, position) {
            Some((digit, next)) => (next, 2 * number + digit as u64),
            None => (self.len(), number),
        }
    }

    /// Moves the items at the indices from the first level to the second.
    fn total_first_level_on<T: TableSource>(
        &self,
        source: &mut T,
        indices: &[usize],
        positions: &mut [usize],
        numbers: &mut [u64],
    )
        requires sized { HasSizes (T.lists source.old) }
        requires room { self.now.width * self.now.len ≤ length (bits_in (T.lists source.old)) }
        requires some { 0 < self.now.width }
        requires positions { length positions.old ≡ length indices.now }
        requires numbers { length numbers.old ≡ length indices.now }
        ensures positions { length positions.new ≡ length indices.now }
        ensures numbers { length numbers.new ≡ length indices.now }
        ensures each { (k : ℕ) → k < length indices.now → IsOnTheWay self.now (T.lists source.old) 1
            (slice_index indices.now k) (slice_index positions.new k) (slice_index numbers.new k) }
        ensures reads { OnlyRanks self.now T.lists T.reads source.old source.new
            (length indices.now) }
    {
        for k in 0..indices.len() {
            let (position, number) = self.total_moved_on(source, 0, indices[k], 0);
            positions[k] = position;
            numbers[k] = number;
        }
    }

    /// Moves items from a level to the next.
    fn total_level_on<T: TableSource>(
        &self,
        source: &mut T,
        depth: u8,
        indices: &[usize],
        positions: &mut [usize],
        numbers: &mut [u64],
    )
        requires sized { HasSizes (T.lists source.old) }
        requires room { self.now.width * self.now.len ≤ length (bits_in (T.lists source.old)) }
        requires depth { depth < self.now.width }
        requires positions { length positions.old ≡ length indices.now }
        requires numbers { length numbers.old ≡ length indices.now }
        requires each { (k : ℕ) → k < length indices.now → IsOnTheWay self.now (T.lists source.old) depth
            (slice_index indices.now k) (slice_index positions.old k) (slice_index numbers.old k) }
        ensures positions { length positions.new ≡ length indices.now }
        ensures numbers { length numbers.new ≡ length indices.now }
        ensures each { (k : ℕ) → k < length indices.now
            → IsOnTheWay self.now (T.lists source.old) (depth + 1) (slice_index indices.now k)
            (slice_index positions.new k) (slice_index numbers.new k) }
        ensures reads { OnlyRanks self.now T.lists T.reads source.old source.new
            (length indices.now) }
    {
        let _indices = indices;
        for k in 0..positions.len() {
            let (position, number) = self.total_moved_on(source, depth, positions[k], numbers[k]);
            positions[k] = position;
            numbers[k] = number;
        }
    }

    /// The numbers at the indices: `numbers` gets each, and `positions` an index below the length for each that was
    /// found, and for no other. What the two have is overwritten.
    pub(crate) fn total_get_many_on<T: TableSource>(
        &self,
        source: &mut T,
        indices: &[usize],
        positions: &mut [usize],
        numbers: &mut [u64],
    )
        requires sized { HasSizes (T.lists source.old) }
        requires room { self.now.width * self.now.len ≤ length (bits_in (T.lists source.old)) }
        requires positions { length positions.old ≡ length indices.now }
        requires numbers { length numbers.old ≡ length indices.now }
        ensures positions { length positions.new ≡ length indices.now }
        ensures numbers { length numbers.new ≡ length indices.now }
        ensures each { (k : ℕ) → k < length indices.now → IsNumberAndRank self.now (T.lists source.old)
            (slice_index indices.now k) (slice_index positions.new k) (slice_index numbers.new k) }
        ensures reads { OnlyRanks self.now T.lists T.reads source.old source.new
            (self.now.width * length indices.now) }
    {
        let width = self.width();
        self.total_first_level_on(source, indices, &mut *positions, &mut *numbers);
        for depth in 1..width {
            self.total_level_on(source, depth, indices, &mut *positions, &mut *numbers);
        }
    }
}
