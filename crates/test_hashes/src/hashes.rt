//! Tests of a perfect hash in a block, with seeds too, and of a dictionary: their words beside those that another
//! program made, their answers beside its answers, each bit flipped, each length cut off, and hostile words.
//!
//! They stand in a crate of their own, since a crate with tests is proved twice.
// What is in each file:
// - `dictionaries`: the block of a dictionary of twelve numbers
// - `hashes`: the block of a hash of twelve keys
// - `seeded`: the block of such a hash with seeds
#[cfg(test)]
mod dictionaries;
#[cfg(test)]
mod hashes;
#[cfg(test)]
mod seeded;
