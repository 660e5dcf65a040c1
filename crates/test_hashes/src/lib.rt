//! Tests of perfect hashes by buckets, and of perfect hashes, dictionaries and strings in a block.
//!
//! They stand in a crate of their own, since a crate with tests is proved twice.
#![tactic(auto)]

// What is in each file:
// - `buckets`: hashes that are built of pseudo-random keys, and look-ups over parts that may hold anything
// - `hashes`: tests of a perfect hash in a block, with seeds too, and of a dictionary
// - `strings`: tests of strings in a block
#[cfg(test)]
mod buckets;
#[cfg(test)]
mod hashes;
#[cfg(test)]
mod strings;
