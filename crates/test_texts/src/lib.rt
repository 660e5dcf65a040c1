//! Tests of the index of a text: its owner, its block, and collections of texts.
//!
//! They stand in a crate of their own, since a crate with tests is proved twice.
#![tactic(auto)]

// What is in each file:
// - `blocks`: tests of the index of a text in a block
// - `collection`: tests of a collection of texts beside a walk over each document
// - `index`: tests of a text index beside a walk over the text
#[cfg(test)]
mod blocks;
#[cfg(test)]
mod collection;
#[cfg(test)]
mod index;
