//! A minimal perfect hash with a seed for each word in a block of memory, such as a mapped file: nothing is copied, and
//! no call has a condition on what the memory holds. With the seeds a hash takes fewer bits a key.
//!
//! A block is opened as a `SeededView`: with the block of a hash its answers are the hash's; if it is stale or hostile,
//! every call still terminates within its read bound, and a number is below the number of keys. `hash_block` does not
//! open it, since without the seeds the numbers would be others.
//!
//! ```
//! let mut block = [0u64; 80];                                    // size(1, 1): Some(80) words
//! build(&words, &seeds, &sizes, 7, block.as_mut_slice());        // Ok(()): the levels of `build_seeded_in_place`
//! check(block.as_slice());                                       // true
//! let Some(hash) = open(block.as_slice()) else { .. };
//! hash.get(0x13198a2e03707344);                                  // Found(number), Absent or Wrong
//! ```
//!
//! # Source
//! Beling, 'Fingerprinting-based minimal perfect hashing revisited' (ACM Journal of Experimental Algorithmics, 2023).
// What is in each file:
// - `building`: the block of a hash with seeds, written into the caller's memory
// - `error`: why no block was written
// - `opening`: the view of a block, and whether the block holds what it says
// - `packed`: seeds in words
// - `sections`: the sections of the block of a hash with seeds
// - `view`: a hash with seeds in memory that may hold anything
mod building;
mod error;
mod opening;
mod packed;
mod sections;
mod view;

pub use building::{build, round_trip};
pub use error::BuildError;
pub use opening::{check, open};
pub use packed::PackedSeeds;
pub use sections::size;
pub use view::SeededView;
