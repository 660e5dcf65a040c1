//! Tests of the blocks of bits, numbers, matrices, trees and tries: their words beside those that another program made,
//! their answers beside its answers, each bit flipped, each length cut off, and hostile words.
//!
//! They stand in a crate of their own, since a crate with tests is proved twice.
#![tactic(auto)]

// What is in each file:
// - `bits`: tests of bits in a block
// - `items`: tests of iterators over blocks
// - `matrices`: tests of a wavelet matrix in a block
// - `sections`: tests of sections that are added to a block
// - `sequences`: tests of a sequence in a block
// - `sparse`: tests of sparse bits in a block
// - `trees`: tests of blocks
// - `tries`: tests of the block of a trie
#[cfg(test)]
mod bits;
#[cfg(test)]
mod items;
#[cfg(test)]
mod matrices;
#[cfg(test)]
mod sections;
#[cfg(test)]
mod sequences;
#[cfg(test)]
mod sparse;
#[cfg(test)]
mod trees;
#[cfg(test)]
mod tries;
