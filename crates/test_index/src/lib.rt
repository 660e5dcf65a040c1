//! Tests of the index, over its owner, over borrowed memory and over shards.
//!
//! They stand in a crate of their own, since a crate with tests is proved twice.
#![tactic(auto)]

// What is in each file:
// - `calls`: the index, its strategies and its sources, a file a topic; a test's name is the sentence that it shows
// - `shards`: tests of bits in shards beside plain counting over the joined bits, and of what no clause says
#[cfg(test)]
mod calls;
#[cfg(test)]
mod shards;
