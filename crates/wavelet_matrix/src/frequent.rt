//! The most frequent numbers of a range.
ghost use Rattle.std.specs.Prelude.{◌≡◌, ◌<◌, ◌≤◌, ℕ, List, [], ◌∷◌, ◌++◌, length, slice_range, All, IfOk};
ghost use Rattle.std.specs.List.{zip};
ghost use Rattle.matrix_levels.specs.Frequent.{pair_at, AreBest, AreMostFrequent, IsHeapFrom};

use crate::matrix::WaveletMatrix;
use bitm_strategies::{Select0ForRank101111, SelectForRank101111};
use matrix_levels::lists::{make_heap, replace_last, sort_tallies};
use std::alloc::{AllocError, Global};
use std::ops::Range;

/// Keeps a number with its count among at most `k`, if there are fewer, or it goes before the one of them that goes
/// last, which then goes; it is greater than all that came. They are a heap where there are `k`.
///
/// # Errors
/// `AllocError` if memory was refused; the kept numbers and counts may be anything then.
fn keep(
    numbers: &mut Vec<u64>,
    counts: &mut Vec<usize>,
    k: usize,
    number: u64,
    count: usize,
) -> Result<(), AllocError>
    requires same { length counts.old.items ≡ length numbers.old.items }
    requires few { length numbers.old.items ≤ k }
    requires heap { length numbers.old.items ≡ k → IsHeapFrom (pair_at numbers.old.items counts.old.items) k 0 }
    ensures same { IfOk result (λ _. length counts.new.items ≡ length numbers.new.items) }
    ensures few { IfOk result (λ _. length numbers.new.items ≤ k) }
    ensures heap { IfOk result (λ _. length numbers.new.items ≡ k
        → IsHeapFrom (pair_at numbers.new.items counts.new.items) k 0) }
    ensures best { IfOk result (λ _. (ys : List (ℕ × ℕ)) → AreBest ys k (zip numbers.old.items counts.old.items)
        → All (λ p. p.0 < number) ys
        → AreBest (ys ++ (number, count) ∷ []) k (zip numbers.new.items counts.new.items)) }
{
    if numbers.len() == k {
        replace_last(numbers.as_mut_slice(), counts.as_mut_slice(), number, count);
        return Ok(());
    }
    numbers.push(number)?;
    counts.push(count)?;
    if numbers.len() < k {
        return Ok(());
    }
    make_heap(numbers.as_mut_slice(), counts.as_mut_slice());
    Ok(())
}

/// Numbers with their counts as pairs.
///
/// # Errors
/// `AllocError` if memory was refused.
fn pairs_of(
    alloc: Global,
    numbers: &[u64],
    counts: &[usize],
) -> Result<Vec<(u64, usize)>, AllocError>
    requires { length counts.now ≡ length numbers.now }
    ensures { IfOk result (λ made. made.items ≡ zip numbers.now counts.now) }
{
    let mut made = Vec::with_capacity(alloc, numbers.len())?;
    for i in 0..numbers.len() {
        made.push((numbers[i], counts[i]))?;
    }
    Ok(made)
}

impl<S: SelectForRank101111, S0: Select0ForRank101111> WaveletMatrix<S, S0> {
    /// The `k` most frequent numbers of a range, each with how often it is in the range: the most frequent first, and
    /// of equally frequent numbers the least; all its numbers where it has no more than `k` distinct numbers.
    ///
    /// # Conditions
    /// The range does not end before it starts, nor past the numbers.
    /// # Errors
    /// `AllocError` if memory was refused.
    /// # Cost
    /// For each distinct number of the range the cost of `quantile`, and at most log2(k) steps down a heap of the pairs
    /// that are kept, and twice as many to sort these (evident from the code). While it works it takes 16 bytes for
    /// each pair beside the answer.
    pub fn top_k(
        &self,
        alloc: Global,
        range: Range<usize>,
        k: usize,
    ) -> Result<Vec<(u64, usize)>, AllocError>
        requires order { range.start ≤ range.end }
        requires inside { range.end ≤ length self.now.items }
        ensures { IfOk result (λ found. AreMostFrequent
            (slice_range self.now.items range.start range.end) k found.items) }
    {
        let mut numbers = Vec::new(alloc);
        let mut counts = Vec::new(alloc);
        for (number, count) in self.distinct(range) {
            keep(&mut numbers, &mut counts, k, number, count)?;
        }
        sort_tallies(numbers.as_mut_slice(), counts.as_mut_slice());
        let found = pairs_of(alloc, numbers.as_slice(), counts.as_slice())?;
        Ok(found)
    }
}
