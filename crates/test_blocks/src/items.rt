//! Tests of iterators over blocks: the items that were written, from the first and from an index, and what comes of
//! words that hold no such structure.
//!
//! They stand in a crate of their own, since a crate with tests is proved twice.
// What is in each file:
// - `items`: blocks of a sequence, of sparse bits and of a matrix
#[cfg(test)]
mod items;
