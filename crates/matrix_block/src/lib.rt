//! A wavelet matrix in a block of memory, such as a mapped file: nothing is allocated or copied, and no call has a
//! condition on what the memory holds.
//!
//! With the block of a matrix the answers are right for its numbers. If it is stale or hostile, every call still
//! terminates within its read bound, a number has no more bits than the width, a count is at most the index that was
//! given, and an index is the index of a number.
//!
//! ```
//! let numbers = [3u64, 1, 4, 1, 5, 1];
//! let mut block = [0u64; 80];                                   // size(6, 3, false, false) words
//! let mut scratch = [0u64; 12];                                 // two words for each number
//! build(&numbers, 3, false, false, &mut scratch, &mut block);   // Ok(())
//! let Some(matrix) = MatrixView::open(block.as_slice()) else { .. };
//! matrix.check();       // true
//! matrix.get(4);        // Found(5), Absent or Wrong
//! matrix.rank(1, 4);    // Found(2), Absent or Wrong
//! matrix.select(1, 2);  // Found(5), Absent or Wrong
//! matrix.count_less(1, 5, 4);   // Found(2), Absent or Wrong: of 1 4 1 5 those less than 4
//! matrix.quantile(1, 5, 2);     // Found(4), Absent or Wrong: of 1 4 1 5 the third smallest
//! matrix.next_value(1, 5, 2);   // Found(4), Absent or Wrong: of 1 4 1 5 the least that is at least 2
//! ```
//!
//! # Source
//! Claude, Navarro and Ordóñez, 'The wavelet matrix: An efficient wavelet tree for large alphabets'
//! (Information Systems 47, 2015).
#![tactic(auto)]

// What is in each file, over the levels of `levels_view`:
// - `building`: the block of a matrix, written into the caller's memory
// - `by_levels`: one level of the block after another
// - `error`: why no block was written
// - `hints`: the hints in a block, and of how many 1 bits they are
// - `kept`: the most frequent numbers so far
// - `lists`: lists of numbers of a view
// - `matrix`: the view of a block, and its queries
// - `range_queries`: the queries of ranges of a view
// - `sections`: the sections of the block of a matrix
// - `shared`: the numbers that two ranges of a view share
// - `tallies`: the distinct and the most frequent numbers of a range of a view
mod building;
mod by_levels;
mod error;
mod hints;
mod kept;
mod lists;
mod matrix;
mod range_queries;
mod sections;
mod shared;
mod tallies;

pub use bitm_tables::answer::Answer;
pub use building::{build, seal_levels, write_tables_after};
pub use by_levels::{levels_round_trip, write_level};
pub use error::BuildError;
pub use levels_view::LevelsView;
pub use matrix::MatrixView;
pub use sections::{Lens, MATRIX, matrix_room, matrix_sections, size};
