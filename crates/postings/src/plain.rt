//! A cursor over a slice: the next number by galloping.
ghost use Rattle.std.specs.Prelude.{◌≡◌, ◌<◌, ◌≤◌, ℕ, length, slice_index, SomeIff};
ghost use Rattle.std.specs.List.Sorted.{IsNonDecreasing};

use crate::cursor::Cursor;
use bitm_tables::source::counts::ReadCounts;
use elias_fano::building::is_rising;
use std::marker::Model;

/// A cursor over a slice of numbers that never decrease, which gallops: it looks 1, 2, 4, 8, .. numbers ahead, and then
/// halves the last of these steps.
///
/// # Source
/// Bentley and Yao, 'An almost optimal algorithm for unbounded searching' (1976).
#[derive(Drop)]
pub struct SliceCursor<'a> {
    numbers: &'a [u64],
    at: usize,
    calls: ReadCounts,
}

impl<'a> Model for SliceCursor<'a> {
    ghost use Rattle.std.specs.Prelude.{◌≤◌, length, drop};
    ghost use Rattle.std.specs.List.Sorted.{IsNonDecreasing};
    ghost use Rattle.postings.specs.Next.{CursorValue};

    ghost Value = { CursorValue };

    ghost view = { λ c. record { left = drop c.at c.numbers.now; calls = c.calls.words } };

    ghost invariant = { λ c. (c.at ≤ length c.numbers.now) × IsNonDecreasing c.numbers.now };
}

/// The first index from `at` on whose number is at least `v`; past the end where each is less.
#[inline]
fn gallop(numbers: &[u64], at: usize, v: u64) -> usize
    requires rising { IsNonDecreasing numbers.now }
    requires inside { at ≤ length numbers.now }
    ensures from { at ≤ result }
    ensures to { result ≤ length numbers.now }
    ensures less { (j : ℕ) → at ≤ j → j < result → slice_index numbers.now j < v }
    ensures at_least { (j : ℕ) → result ≤ j → j < length numbers.now → v ≤ slice_index numbers.now j }
{
    let mut low = at;
    let mut size = 1;
    while size <= numbers.len() - low && numbers[low + (size - 1)] < v {
        low += size;
        size = size.saturating_mul(2);
    }
    let mut left = if size <= numbers.len() - low {
        size - 1
    } else {
        numbers.len() - low
    };
    while left > 0 {
        let half = left / 2;
        if numbers[low + half] < v {
            low += half + 1;
            left -= half + 1;
        } else {
            left = half;
        }
    }
    low
}

impl<'a> SliceCursor<'a> {
    /// A cursor at the first number of a slice; `None` exactly where some number is less than the one before it.
    ///
    /// # Cost
    /// One pass over the numbers (evident from the code).
    pub fn over(numbers: &'a [u64]) -> Option<SliceCursor<'a>>
        ensures { SomeIff result (IsNonDecreasing numbers.now)
            (record { left = numbers.now; calls = 0 }) }
    {
        if is_rising(numbers) {
            Some(SliceCursor {
                numbers,
                at: 0,
                calls: ReadCounts::new(),
            })
        } else {
            None
        }
    }
}

impl<'a> Cursor for SliceCursor<'a> {
    ghost left = { λ c. c.left };

    ghost calls = { λ c. c.calls };

    #[inline]
    fn next_geq(&mut self, v: u64) -> Option<u64> {
        self.calls.read_word();
        let at = gallop(self.numbers, self.at, v);
        self.at = at;
        if at < self.numbers.len() {
            Some(self.numbers[at])
        } else {
            None
        }
    }
}
