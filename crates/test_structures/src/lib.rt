//! Tests of the structures that own their memory: sequences, posting lists, sparse bits, matrices, hashes and trees.
//!
//! They stand in a crate of their own, since a crate with tests is proved twice.
#![tactic(auto)]

// What is in each file:
// - `posting_lists`: tests of posting lists
// - `sequences`: tests of sequences, and of runs of the program `bitm_vectors`
// - `sparse`: tests of sparse bits, beside a walk over the bits and numbers worked out by hand
// - `structures`: tests of the structures that stand on an index
#[cfg(test)]
mod posting_lists;
#[cfg(test)]
mod sequences;
#[cfg(test)]
mod sparse;
#[cfg(test)]
mod structures;
