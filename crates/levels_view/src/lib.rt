//! The levels of a wavelet matrix over any source of words and tables, where the tables of levels may hold anything:
//! nothing is allocated or copied, and no call has a condition on what the memory holds.
//!
//! With the levels of a matrix the answers are right for its numbers. If they are stale or hostile, every call still
//! terminates within its read bound, a number has no more bits than the width, a count is at most the index that was
//! given, and an index is the index of a number. `matrix_block` finds the parts of a matrix in a block.
//!
//! # Source
//! Claude, Navarro and Ordóñez, 'The wavelet matrix: An efficient wavelet tree for large alphabets'
//! (Information Systems 47, 2015).
#![tactic(auto)]

// What is in each file:
// - `bounds`: the numbers of a range beside a bound or between two
// - `checking`: whether the tables of levels are those of the words
// - `laws`: what holds of every matrix
// - `levels`: the tables of levels, which may hold anything
// - `lists`: lists of numbers and of ranks
// - `many`: many numbers by their indices at once
// - `many_ranks`: many ranks of numbers at once
// - `owned`: the tables of levels, owned
// - `pairs`: two answers of one walk
// - `quantiles`: the numbers of a range in order
// - `quarters`: whether quarters are those of the words
// - `queries`: a number by its index, and ranks
// - `ranges`: queries of ranges
// - `selecting`: the indices of a number
// - `shared`: the numbers that two ranges share
// - `stepping`: the step from one level to the next
mod bounds;
mod checking;
pub mod laws;
mod levels;
mod lists;
mod many;
mod many_ranks;
mod owned;
mod pairs;
mod quantiles;
mod quarters;
mod queries;
mod ranges;
mod selecting;
mod shared;
mod stepping;

pub use checking::{are_levels, counts_of};
pub use levels::{LevelsView, are_numbers};
pub use owned::Levels;
pub use quarters::are_quarters;
pub use stepping::sum_within;
