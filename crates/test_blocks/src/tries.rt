//! Tests of the block of a trie: its words beside those that another program made, each bit of a block flipped, each
//! length cut off; and of the trie of a few words, beside one that was drawn by hand.
//!
//! They stand in a crate of their own, since a crate with tests is proved twice.
// What is in each file:
// - `hints`: the block of a small trie with hints, without them, and with wrong ones
// - `tries`: the block of a small trie
// - `words`: the trie of a few words
#[cfg(test)]
mod hints;
#[cfg(test)]
mod tries;
#[cfg(test)]
mod words;
