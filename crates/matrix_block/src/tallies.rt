//! The distinct and the most frequent numbers of a range in a block that may hold anything, written into the caller's
//! memory.
ghost use Rattle.std.specs.Prelude.{◌≡◌, ◌↔◌, ◌<◌, ◌≤◌, IsTrue, length, take, All};
ghost use Rattle.std.specs.List.Sorted.{IsStrictlyIncreasing};
ghost use Rattle.matrix_block.specs.Block.{items_in, HoldsMatrix};
ghost use Rattle.matrix_block.specs.RangeLists.{AreDistinctOf, AreDistinctWithin, AreFrequentOf, AreFrequentWithin};

use crate::kept::{keep_tally, sort_kept};
use crate::matrix::MatrixView;
use bitm_tables::answer::Answer;

/// Whether a number goes on the rising ones that were written: it is greater than the last, and at least `from`.
#[inline(always)]
fn goes_on(written: &[u64], from: u64, number: u64) -> bool
    requires { IsStrictlyIncreasing written.now }
    ensures { IsTrue result ↔ ((from ≤ number) × All (λ x. x < number) written.now) }
{
    if number < from {
        return false;
    }
    let len = written.len();
    len == 0 || written[len - 1] < number
}

impl<'a> MatrixView<'a> {
    /// Writes the distinct numbers from index `start` on and before index `end` that are at least `from`, rising, each
    /// with how often it is there, until none is left or `numbers` is full; and answers how many these are. So a caller
    /// goes on at the last number and 1.
    ///
    /// Whatever the block holds, the numbers rise from `from` on and have no more bits than the width, a count is at
    /// least 1 and at most `end - start`, the items after them are as they were, and the answer is `Absent` exactly
    /// where the range ends before it starts, or past the numbers. Where the block holds a matrix, the answer is never
    /// `Wrong`. With `Wrong`, items may have been written.
    ///
    /// # Conditions
    /// There is room for as many counts as numbers.
    /// # Cost
    /// `count_less`, and for each number that is written `quantile_and_count` (evident from the code).
    ///
    /// ```
    /// let (mut numbers, mut counts) = ([0u64; 2], [0usize; 2]);
    /// matrix.distinct(1, 5, 0, &mut numbers, &mut counts);   // Found(2) of 1 4 1 5: 1 twice, and 4 once
    /// matrix.distinct(1, 5, 5, &mut numbers, &mut counts);   // Found(1): 5 once
    /// ```
    pub fn distinct(
        &self,
        start: usize,
        end: usize,
        from: u64,
        numbers: &mut [u64],
        counts: &mut [usize],
    ) -> Answer<usize>
        requires room { length counts.old ≡ length numbers.old }
        ensures inside { AreDistinctWithin self.now.levels.len self.now.levels.width start end from
            numbers.old numbers.new counts.old counts.new result }
        ensures answer { HoldsMatrix self.now → AreDistinctOf (items_in self.now)
            self.now.levels.width start end from numbers.new counts.new result }
    {
        let _ = self.parts(); // its clause makes the limit of the length known to the proof
        let mut less = match self.count_less(start, end, from) {
            Answer::Found(less) => less,
            Answer::Absent => return Answer::Absent,
            Answer::Wrong => return Answer::Wrong,
        };
        let mut written = 0;
        while less < end - start && written < numbers.len() {
            let (number, count) = match self.quantile_and_count(start, end, less) {
                Answer::Found(tally) => tally,
                Answer::Absent => return Answer::Wrong,
                Answer::Wrong => return Answer::Wrong,
            };
            if !goes_on(&numbers[..written], from, number) {
                return Answer::Wrong;
            }
            numbers[written] = number;
            counts[written] = count;
            written += 1;
            less += count;
        }
        Answer::Found(written)
    }

    /// Writes the most frequent numbers from index `start` on and before index `end`, each with how often it is there:
    /// the most frequent first, and of equally frequent numbers the least, until none is left or `numbers` is full; and
    /// answers how many these are.
    ///
    /// Whatever the block holds, the numbers have no more bits than the width, a count is at least 1 and at most
    /// `end - start`, the items after them are as they were, and the answer is `Absent` exactly where the range ends
    /// before it starts, or past the numbers. Where the block holds a matrix, the answer is never `Wrong`. With
    /// `Wrong`, items may have been written.
    ///
    /// # Conditions
    /// There is room for as many counts as numbers.
    /// # Cost
    /// For each distinct number of the range `quantile_and_count`; whatever the block holds, no more than once for each
    /// of its numbers. With room for k numbers each takes at most log2(k) steps down a heap of the pairs that are kept,
    /// and twice as many to sort these (evident from the code).
    ///
    /// ```
    /// let (mut numbers, mut counts) = ([0u64; 2], [0usize; 2]);
    /// matrix.top_k(1, 5, &mut numbers, &mut counts);   // Found(2) of 1 4 1 5: 1 twice, and 4 once
    /// ```
    pub fn top_k(
        &self,
        start: usize,
        end: usize,
        numbers: &mut [u64],
        counts: &mut [usize],
    ) -> Answer<usize>
        requires room { length counts.old ≡ length numbers.old }
        ensures inside { AreFrequentWithin self.now.levels.len self.now.levels.width start end
            numbers.old numbers.new counts.old counts.new result }
        ensures answer { HoldsMatrix self.now → AreFrequentOf (items_in self.now) start end
            numbers.new counts.new result }
    {
        let _ = self.parts(); // its clause makes the limit of the length known to the proof
        if end < start || end > self.len() {
            return Answer::Absent;
        }
        let mut less = 0;
        let mut kept = 0;
        while less < end - start {
            let (number, count) = match self.quantile_and_count(start, end, less) {
                Answer::Found(tally) => tally,
                Answer::Absent => return Answer::Wrong,
                Answer::Wrong => return Answer::Wrong,
            };
            kept = keep_tally(&mut *numbers, &mut *counts, kept, number, count);
            less += count;
        }
        sort_kept(&mut *numbers, &mut *counts, kept);
        Answer::Found(kept)
    }
}
