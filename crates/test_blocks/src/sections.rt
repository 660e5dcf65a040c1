//! Tests of sections that are added to a block: its words beside those that another program made, each bit flipped,
//! each error; and which of them are taken for the keys of a dictionary.
//!
//! They stand in a crate of their own, since a crate with tests is proved twice.
// What is in each file:
// - `keys`: the block of a hash of three keys with one section more
// - `notes`: the block of seven numbers with a note
#[cfg(test)]
mod keys;
#[cfg(test)]
mod notes;
