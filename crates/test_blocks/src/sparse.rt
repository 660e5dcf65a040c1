//! Tests of sparse bits in a block: its words beside those that another program made, its answers beside those worked
//! out by hand, each bit flipped, each length cut off.
//!
//! They stand in a crate of their own, since a crate with tests is proved twice.
// What is in each file:
// - `sparse`: the block of four 1 bits among 5000
#[cfg(test)]
mod sparse;
