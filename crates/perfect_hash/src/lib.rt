//! Minimal perfect hashing: each of n keys gets a number of its own below n, in under three bits a key.
//!
//! Levels of bits: at a level each key that is left falls on a bit, by its hash. A bit that exactly one key falls on is
//! a 1 bit, and that key is done; the others go on to the next level. The number of a key is how many 1 bits stand
//! before its own in all levels, one after another.
//!
//! ```
//! let Ok(numbers) = build(alloc, Seeded { seed: 7 }, [13u64, 5, 99].as_slice(), 100) else { .. };
//! numbers.get(&5);    // Some(number), below 3, and no other key's
//! ```
#![tactic(auto)]

// What is in each file, over `levels`:
// - `asking`: the number of a hash over any source of words and tables
// - `building`: levels, and an index over their words
// - `dictionary`: numbers with fingerprints, so that almost all values that are no keys have none
// - `listed`: the numbers of a list of hashes over what may hold anything
// - `many`: many look-ups, side by side
// - `querying`: how bits are queried: of a source, or of an index
// - `seeds`: levels with a seed for each word, in the caller's memory
// - `table`: the levels, and their queries
// - `levels`: levels of hashes, by which a minimal perfect hash numbers keys
mod asking;
mod building;
mod dictionary;
pub mod levels;
mod listed;
mod many;
mod querying;
mod seeds;
mod table;

pub use crate::levels::{
    BuildError, Grouped, KeyHash, Levels, Made, Placing, Plain, Seeded, SeededBytes,
    build_in_place, level_len, split_level,
};
pub use asking::{total_number_by_on, total_number_on};
pub use building::{Refused, build, build_by};
pub use dictionary::Dictionary;
pub use listed::total_numbers_on;
pub use seeds::{SeedsView, build_seeded_in_place, split_level_seeded};
pub use table::PerfectHash;
