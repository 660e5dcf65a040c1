//! The numbers that two ranges share, in a block that may hold anything, written into the caller's memory.
ghost use Rattle.std.specs.Prelude.{◌≤◌};
ghost use Rattle.matrix_block.specs.Block.{items_in, HoldsMatrix};
ghost use Rattle.matrix_block.specs.RangeLists.{AreSharedOf, AreSharedWithin};

use crate::matrix::MatrixView;
use bitm_tables::answer::Answer;
use std::ops::Range;

impl<'a> MatrixView<'a> {
    /// Writes the numbers that are in both ranges and at least `from`, each once, rising, until none is left or
    /// `numbers` is full; and answers how many these are. So a caller goes on at the last number and 1.
    ///
    /// Whatever the block holds, the numbers rise from `from` on and have no more bits than the width, the items after
    /// them are as they were, and the answer is `Absent` exactly where a range ends before it starts, or past the
    /// numbers. Where the block holds a matrix, the answer is never `Wrong`. With `Wrong`, numbers may have been
    /// written.
    ///
    /// # Cost
    /// For each turn `next_value` of one range and of the other, and no more turns than the first range has numbers,
    /// whatever the block holds (evident from the code): so give the shorter range first. In the block of a matrix each
    /// turn passes a distinct number of the first range.
    ///
    /// ```
    /// let mut numbers = [0u64; 2];
    /// matrix.intersect(0..3, 3..6, 0, &mut numbers);   // Found(1) of 3 1 4 and 1 5 1: 1
    /// ```
    pub fn intersect(
        &self,
        first: Range<usize>,
        second: Range<usize>,
        from: u64,
        numbers: &mut [u64],
    ) -> Answer<usize>
        ensures inside { AreSharedWithin self.now.levels.len self.now.levels.width first.start
            first.end second.start second.end from numbers.old numbers.new result }
        ensures answer { HoldsMatrix self.now → AreSharedOf (items_in self.now)
            self.now.levels.width first.start first.end second.start second.end from numbers.new
            result }
    {
        if first.end < first.start || first.end > self.len() {
            return Answer::Absent;
        }
        if second.end < second.start || second.end > self.len() {
            return Answer::Absent;
        }
        let mut bound = from;
        let mut written = 0;
        for _ in first.start..first.end {
            if written >= numbers.len() {
                return Answer::Found(written);
            }
            let one = match self.next_value(first.start, first.end, bound) {
                Answer::Found(number) => number,
                Answer::Absent => return Answer::Found(written),
                Answer::Wrong => return Answer::Wrong,
            };
            let other = match self.next_value(second.start, second.end, one) {
                Answer::Found(number) => number,
                Answer::Absent => return Answer::Found(written),
                Answer::Wrong => return Answer::Wrong,
            };
            bound = other;
            if one == other {
                numbers[written] = one;
                written += 1;
                if one == u64::MAX {
                    return Answer::Found(written);
                }
                bound = one + 1;
            }
        }
        Answer::Found(written)
    }
}
