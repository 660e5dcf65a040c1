//! Levels of hashes, by which a minimal perfect hash numbers keys: at a level each hash that is left falls on a bit; a
//! bit that exactly one hash falls on is a 1 bit, and that hash is done; the others go on to the next level. The number
//! of a hash is how many 1 bits stand before its own in all levels, one after another.
//!
//! Nothing here ranks: `perfect_hash` queries the levels by an index over their bits.
// What is in each file:
// - `building`: level after level, with an allocator
// - `error`: why keys were refused
// - `grouped`: a seed for each word of a level
// - `hashing`: the traits of hashes that a user gives, and hashes that do
// - `in_place`: levels built without an allocator
// - `level`: one level: which bits exactly one hash falls on
// - `positions`: where a hash falls in a level, and the size of a level
// - `placing`: how hashes fall on bits: by themselves, or with a seed for each word
mod building;
mod error;
mod grouped;
mod hashing;
mod in_place;
mod level;
mod placing;
mod positions;

pub use building::Levels;
pub use error::BuildError;
pub use grouped::{Grouped, choose_in, place_seeded};
pub use hashing::{KeyHash, Seeded, SeededBytes};
pub use in_place::{Made, build_in_place, level_len};
pub use level::{split_level, split_level_by};
pub use placing::{Placing, Plain};
pub use positions::{fold, spread_at};
