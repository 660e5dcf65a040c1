//! Bits with their index in a block of memory, such as a mapped file: nothing is allocated or copied, and no call has a
//! condition on what the memory holds.
//!
//! A block is opened as an `IndexView`, which has the queries: with the block of the bits the answers are
//! plain counting; if it is stale or hostile, every call still terminates within its read bound, a rank is at most its
//! index, and a position that is returned is in the bits and has the requested bit.
//!
//! ```
//! let mut block = [0u64; 56];                       // size(100): Some(56) words
//! build(&words, 100, block.as_mut_slice());         // Ok(()): the first 100 bits of the words
//! check(block.as_slice());                          // true
//! let Some(bits) = open(block.as_slice()) else { .. };
//! bits.rank::<1>(64);                               // Found(count), Absent or Wrong
//! bits.select::<1>(17);                             // Found(position), Absent or Wrong
//! ```
// What is in each file:
// - `building`: the block of bits, written into the caller's memory
// - `error`: why no block was written
// - `opening`: the view of a block, and whether it holds what it says
// - `sections`: the sections of the block of bits
mod building;
mod error;
mod opening;
mod sections;

pub use crate::IndexView;
pub use bitm_tables::answer::Answer;
pub use building::build;
pub use error::BuildError;
pub use opening::{check, open};
pub use sections::{BITS, size};
