//! The items of a block one after another, as iterators: numbers of a sequence, positions of sparse bits, and numbers
//! of a matrix, where they lie in memory that may hold anything.
//!
//! Over a block that holds such a structure an iterator gives its items in their order. Over a stale or hostile one it
//! gives no more items than the block announces, and ends at the first that is not found.
//!
//! ```
//! let Some(sequence) = open(block.as_slice()) else { .. };
//! for number in sequence.iter() { .. }
//! for number in sequence.iter_from(1000) { .. }
//! ```
#![tactic(auto)]

// What is in each file:
// - `items`: what has items, and the iterator over them
// - `views`: the views of blocks that have items
mod items;
mod views;

pub use items::{HasItems, Items};
