//! Tests of bits in shards beside plain counting over the joined bits, and of what no clause says: that where there is
//! room, each shard answers its queries of a list with one list, and none by itself.
//!
//! They stand in a crate of their own, since a crate with tests is proved twice.
// What is in each file:
// - `counted`: how many times each shard is queried
// - `joined`: each query of a few shards, empty ones too, beside a walk over the joined bits
// - `made`: shards of some bits, with their tables and prefix counts
#[cfg(test)]
mod counted;
#[cfg(test)]
mod joined;
#[cfg(test)]
mod made;
