//! A minimal perfect hash in a block of memory, such as a mapped file, and dictionaries of numbers: nothing is copied,
//! and no call has a condition on what the memory holds.
//!
//! A block is opened as a `HashView`: with the block of a hash its answers are the hash's; if it is stale or hostile,
//! every call still terminates within its read bound, and a number is below the number of keys.
//!
//! ```
//! let mut block = [0u64; 64];                            // size(1, 1): Some(64) words
//! build(&words, &sizes, 7, block.as_mut_slice());        // Ok(()): the levels of `build_in_place`
//! check(block.as_slice());                               // true
//! let Some(hash) = open(block.as_slice()) else { .. };
//! hash.get(0x13198a2e03707344);                          // Found(number), Absent or Wrong
//! ```
//!
//! # Source
//! Müller, Sanders, Schulze and Zhou, 'Retrieval and perfect hashing using fingerprinting' (SEA 2014).
#![tactic(auto)]

// What is in each file:
// - `building`: the block of a hash, written into the caller's memory
// - `dictionary`: a dictionary of numbers in memory that may hold anything
// - `error`: why no block was written
// - `hashing`: how the numbers of a dictionary are hashed
// - `keyed`: the block of a dictionary, written into the caller's memory
// - `keyed_parts`: the sections of a dictionary, written where its block has them
// - `levels`: whether sizes are those of levels
// - `opening`: the view of a block, and whether the block holds what it says
// - `sections`: the sections of the block of a hash
// - `view`: a hash in memory that may hold anything
// - `seeded`: a minimal perfect hash with a seed for each word in a block of memory, such as a mapped file
// - `strings`: strings of bytes in a block of memory, such as a mapped file, each with a number
mod building;
mod dictionary;
mod error;
mod hashing;
mod keyed;
mod keyed_parts;
mod levels;
mod opening;
mod sections;
pub mod seeded;
pub mod strings;
mod view;

pub use bitm_tables::answer::Answer;
pub use building::{build, build_of, write_levels};
pub use dictionary::{DictionaryView, check_dictionary, open_dictionary};
pub use error::BuildError;
pub use hashing::Added;
pub use keyed::{build_dictionary, build_keyed};
pub use levels::are_levels;
pub use opening::{check, open};
pub use sections::{HASH, LEVELS, SIZES, dictionary_size, hash_head, size};
pub use view::HashView;
