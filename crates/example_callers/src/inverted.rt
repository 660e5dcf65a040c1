//! Sequences as inverted lists: the numbers that two of them share.
//!
//! Each list finds the successor of a number of the other list, so that the numbers between are skipped and never read.
ghost use Rattle.std.specs.Prelude.{ℕ, ◌<◌, ◌≤◌, length, slice_index, IfOk};
ghost use Rattle.example_callers.specs.Inverted.{AreCommon};

use elias_fano::{EliasFano, laws};
use std::alloc::{AllocError, Global};

/// The index from which on numbers are at least `number`, or the length of the list where all are less.
fn position_from(list: &EliasFano, number: u64) -> usize
    ensures bound { result ≤ length list.now.items }
    ensures less { (k : ℕ) → k < result → slice_index list.now.items k < number }
    ensures reached { (k : ℕ) → result ≤ k → k < length list.now.items
        → number ≤ slice_index list.now.items k }
{
    laws::numbers_rise(list);
    match list.first_at_least(number) {
        Some(position) => position,
        None => list.len(),
    }
}

/// The numbers that are in both lists, in order; a number that is twice in the first list comes twice.
///
/// # Errors
/// `AllocError` if no memory was found.
pub fn common(alloc: Global, one: &EliasFano, other: &EliasFano) -> Result<Vec<u64>, AllocError>
    ensures { IfOk result (λ found. AreCommon one.now.items other.now.items found.items) }
{
    laws::numbers_rise(one);
    laws::numbers_rise(other);
    let mut found = Vec::new(alloc);
    let mut at = 0;
    while at < one.len() {
        let number = one.get(at);
        let there = position_from(other, number);
        if there >= other.len() {
            return Ok(found);
        }
        let next = other.get(there);
        if next == number {
            found.push(number)?;
            at += 1;
        } else {
            at = position_from(one, next);
        }
    }
    Ok(found)
}
