//! A block that is extended by a section holds the same as before: laws of the kinds of blocks.
//!
//! `extend` says of a block of any kind that its numbers and its sections stay. What its kind says of
//! it stays too, and a caller that wants this calls a law here.
// What is in each file:
// - `laws`: sequences, sparse bits, bits with their index, trees, tries, matrices, hashes, strings and texts
mod laws;

pub use laws::{
    keeps_dictionaries, keeps_hashes, keeps_indexes, keeps_matrices, keeps_seeded_hashes,
    keeps_sequences, keeps_sparse_bits, keeps_strings, keeps_texts, keeps_trees, keeps_tries,
};
