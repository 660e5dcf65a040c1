//! Tests of bits in a block: its words beside those that another program made, its answers beside counting by hand,
//! each bit flipped, each length cut off.
//!
//! They stand in a crate of their own, since a crate with tests is proved twice.
// What is in each file:
// - `bits`: the block of a hundred bits
#[cfg(test)]
mod bits;
