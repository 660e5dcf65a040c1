//! Tests of strings in a block: its words beside those that another program made, its answers, each bit flipped, and
//! hostile words.
//!
//! They stand in a crate of their own, since a crate with tests is proved twice.
// What is in each file:
// - `blocks`: the blocks of five strings, of either kind
// - `hashing`: hashes beside those of Rust's standard library
// - `strings`: the block of five strings
#[cfg(test)]
mod blocks;
#[cfg(test)]
mod hashing;
#[cfg(test)]
mod strings;
