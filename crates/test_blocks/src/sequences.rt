//! Tests of a sequence in a block: its words beside those that another program made, its answers beside the numbers,
//! each bit flipped, each length cut off.
//!
//! They stand in a crate of their own, since a crate with tests is proved twice.
// What is in each file:
// - `hints`: blocks with hints, without them, and with wrong ones
// - `sequences`: the block of seven numbers
#[cfg(test)]
mod hints;
#[cfg(test)]
mod sequences;
