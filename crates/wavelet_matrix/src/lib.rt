//! A sequence of numbers that is queried by value: how often a number is in a prefix or a range, where it is, and which
//! number of a range is the k-th smallest.
//!
//! Contracts see a matrix as the list of its numbers and their width in bits.
//!
//! ```
//! let m = BinaryWaveletMatrix::build(alloc, [3u64, 1, 4, 1, 5, 1].as_slice(), 3)?;
//! m.try_get(2)             // Some(4)
//! m.try_rank(1, 4)         // Some(2): 1s among the first four
//! m.try_select(1, 2)       // Some(5): the index of the third 1
//! m.quantile(1..5, 2)      // 4: of 1 4 1 5 the third smallest
//! m.next_value(0..6, 2)    // Some(3): the least that is at least 2
//! m.distinct(1..5)         // (1, 2), (4, 1), (5, 1): each number of 1 4 1 5, and how often
//! m.top_k(alloc, 0..6, 2)? // (1, 3), (3, 1): the most frequent two, the least of equally frequent numbers first
//! ```
#![tactic(auto)]

// What is in each file, over the queries of `levels_view`:
// - `distinct`: the distinct numbers of a range, as an iterator
// - `frequent`: the most frequent numbers of a range
// - `iterating`: the numbers as an iterator
// - `matrix`: the type of a matrix
// - `queries`: the calls of a matrix by index and by value
// - `range_queries`: the calls of a matrix on ranges
mod distinct;
mod frequent;
mod iterating;
mod matrix;
mod queries;
mod range_queries;

pub use distinct::DistinctValues;
pub use iterating::Numbers;
pub use levels_view::LevelsView;
pub use matrix::{BinaryWaveletMatrix, WaveletMatrix};
pub use matrix_levels::{all_fit, digit_of, fits, write_levels};
