//! A monotone sequence (Elias-Fano) in a block of memory, such as a mapped file: nothing is allocated or copied, and no
//! call has a condition on what the memory holds.
//!
//! A block is opened as an `elias_fano_view::SequenceView`, which has the queries: with the block of a sequence the
//! answers are right for its numbers; if it is stale or hostile, every call still terminates within its read bound.
//!
//! ```
//! let mut block = [0u64; 80];                               // size(7, 24): Some(80) words
//! build(&[2, 3, 5, 7, 11, 13, 24], block.as_mut_slice());   // Ok(())
//! check(block.as_slice());                                  // true
//! let Some(primes) = open(block.as_slice()) else { .. };
//! primes.get(4);                                            // Found(11), Absent or Wrong
//! primes.first_at_least(8);                                 // Found(4), Absent or Wrong
//! ```
//!
//! # Source
//! Elias, 'Efficient storage and retrieval by content and address of static files' (Journal of the ACM 21, 1974); Fano,
//! 'On the number of bits required to implement an associative memory' (1971).
#![tactic(auto)]

// What is in each file:
// - `building`: the block of a sequence, written into the caller's memory
// - `error`: why no block was written
// - `opening`: the view of a block, and whether it holds what it says
// - `sections`: the sections of the block of a sequence
// - `sparse`: sparse bits in a block of memory, such as a mapped file
mod building;
mod error;
mod opening;
mod sections;
pub mod sparse;

pub use bitm_tables::answer::Answer;
pub use building::{build, build_as};
pub use elias_fano_view::{ListAnswer, SequenceView};
pub use error::BuildError;
pub use opening::{check, check_as, open, open_as};
pub use sections::{SEQUENCE, size};
