//! Lists of numbers: what the distinct numbers of a list, the most frequent numbers and the numbers that two lists
//! share are, and what that means for one another. A wavelet matrix answers them of its ranges (`wavelet_matrix`,
//! `matrix_block`).
//!
//! The most frequent numbers are kept in a heap while they come: in the caller's memory, a number and how often it is
//! there at each index of two slices.
//!
//! ```
//! make_heap(&mut numbers, &mut counts);                 // of as many numbers as there is room for
//! replace_last(&mut numbers, &mut counts, 7, 3);        // 7 is there three times, and greater than all that came
//! sort_tallies(&mut numbers, &mut counts);              // the most frequent first
//! ```
// What is in each file:
// - `heap`: the most frequent numbers so far
mod heap;

pub use heap::{make_heap, replace_last, sort_tallies};
