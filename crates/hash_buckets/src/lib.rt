//! A minimal perfect hash by a seed of a byte for each bucket of keys: each of n keys, which are hashes of 64 bits,
//! gets a number of its own below n. A bucket has 4.75 keys on average; the few keys whose bucket has no seed that fits
//! need an item of a list of free slots.
//!
//! A hash's higher bits say its bucket, and roughly its slot; the bucket's seed shifts the hash within a slice of
//! slots, so that no two keys of a level have one slot. The keys of a bucket for which no seed was found go on to the
//! next level. Slots of all levels are one line: a key whose slot is less than n has that number, and the others have
//! the free slots below n, which are kept in a list. A look-up reads one seed of each level that it looks at, and at
//! most one item of that list.
//!
//! ```
//! let Ok(made) = build(
//!     &hashes, &mut work, &mut sorted, &mut ends, &mut used, &mut levels, &mut seeds, &mut free,
//! ) else { .. };
//! let free = &free[..made.slots - hashes.len()];
//! let hash = BucketsView::over(&levels[..made.levels], &seeds[..made.seeds], free, hashes.len());
//! hash.get(hashes[0]);   // Found(number): below hashes.len(), and no other hash's
//! ```
//!
//! # Source
//! Beling and Sanders, 'PHast - perfect hashing with fast evaluation' (2025).
#![tactic(auto)]

// What is in each file:
// - `asking`: the number of a hash, over parts that may hold anything
// - `building`: a hash, built in the caller's memory
// - `checking`: whether parts form a hash
// - `choosing`: the seed of a bucket
// - `filling`: the list of free slots, as it is written
// - `free`: the list of free slots, as it is read
// - `grouping`: hashes, bucket after bucket
// - `level`: one level
// - `levels`: level after level
// - `positions`: the bucket and the slot of a hash in a level, and its hash in the next
// - `view`: a hash in memory that may hold anything
// - `window`: buckets that wait for their seeds
mod asking;
mod building;
mod checking;
mod choosing;
mod filling;
mod free;
mod grouping;
mod level;
mod levels;
mod positions;
mod view;
mod window;

pub use asking::{number_on, slot_on};
pub use bitm_tables::answer::Answer;
pub use building::{BuildError, build};
pub use free::FreeSlots;
pub use level::place_level;
pub use levels::Made;
pub use positions::{Level, bucket_in, next_hash, slot_in};
pub use view::BucketsView;
