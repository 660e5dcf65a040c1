//! Bits in shards, asked as one: rank, selection and the nearest bits of the joined bits of several indexes, one after
//! the other.
//!
//! Beside the shards stand prefix counts: how many bits, and how many 1 bits, there are before each. Which shard holds
//! a position, or the bit with a rank, is answered by these alone, so that the shards may lie in other files or on
//! other machines. No call trusts them, nor a shard's tables.
//!
//! ```
//! let counts = PrefixCounts::over(&[0, 7, 7, 12], &[0, 4, 4, 6])?;    // of 7, 0 and 5 bits
//! counts.find(Kind::Positions, 9);        // Found(Location { shard: 2, within: 2 })
//! counts.find(Kind::Ones, 4);             // Found(Location { shard: 2, within: 0 })
//! let index = ShardedIndex { counts, shards: &views };
//! index.rank(true, 9);                    // Found(4 and those of the first 2 bits of shard 2)
//! index.select(true, 4);                  // Found(7 and the position in shard 2)
//! index.next(false, 5);                   // Found(the first 0 bit from position 5 on, in whatever shard it is)
//! index.rank_list(true, &positions, &mut ranks, &mut room);    // grouped by shard, where there is room
//! ```
#![tactic(auto)]

// What is in each file:
// - `building`: prefix counts, made of the numbers of each shard
// - `counts`: how many bits and 1 bits there are before each shard, and which shard holds a position or a rank
// - `groups`: numbers in the order of the shards that hold them
// - `laws`: laws of joined bits
// - `near`: the nearest bit of a kind on either side of a position
// - `ranks`: ranks of a list of positions of the joined bits
// - `selections`: selections of a list of ranks of the joined bits
// - `shard`: one of the indexes, with its length in bits
// - `sharded`: several indexes queried as one
mod building;
mod counts;
mod groups;
mod laws;
mod near;
mod ranks;
mod selections;
mod shard;
mod sharded;

pub use bitm_tables::answer::Answer;
pub use building::{are_prefix_sums, prefix_sums};
pub use counts::{Kind, Location, PrefixCounts};
pub use groups::write_wrong;
pub use laws::{
    item_of_joined, picked_in_joined, prefixes_are_sums, rank_in_joined, shards_have_index,
};
pub use shard::Shard;
pub use sharded::ShardedIndex;
