//! Tests of blocks: their bytes beside words that another program made, each bit of a block flipped, each length cut
//! off.
//!
//! They stand in a crate of their own, since a crate with tests is proved twice.
// What is in each file:
// - `blocks`: a small block, as bytes
// - `trees`: the block of a small tree
#[cfg(test)]
mod blocks;
#[cfg(test)]
mod trees;
