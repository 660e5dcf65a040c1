//! Sparse bits in a block of memory, such as a mapped file: nothing is allocated or copied, and no call has a condition
//! on what the memory holds.
//!
//! A bit vector with few 1 bits is kept as the positions of its 1 bits, an Elias-Fano sequence. With the block of bits
//! the answers are what counting gives; if it is stale or hostile, every call still ends, and its answer is inside the
//! bits or `Wrong`.
//!
//! ```
//! let mut block = [0u64; 80];                                       // size(4, 4000): Some(80) words
//! build(&[3, 100, 101, 4000], 5000, block.as_mut_slice());          // Ok(())
//! let Some(bits) = SparseView::open(block.as_slice()) else { .. };
//! bits.rank(101);      // Found(2), Absent or Wrong
//! bits.select(3);      // Found(4000), Absent or Wrong
//! bits.select0(3);     // Found(4): position 3 is the first 1 bit
//! bits.get_bit(100);   // Found(true), Absent or Wrong
//! ```
//!
//! # Source
//! Okanohara and Sadakane, 'Practical entropy-compressed rank/select dictionary' (ALENEX 2007).
// What is in each file:
// - `building`: the block of sparse bits, written into the caller's memory
// - `checking`: whether a block holds what it says
// - `error`: why no block was written
// - `nearest`: the nearest bits of a position
// - `queries`: ranks, selections and bits
// - `view`: the view of a block
mod building;
mod checking;
mod error;
mod nearest;
mod queries;
mod view;

pub use crate::size;
pub use bitm_tables::answer::Answer;
pub use building::build;
pub use checking::check;
pub use error::BuildError;
pub use view::{SPARSE_BITS, SparseView};
