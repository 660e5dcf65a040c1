//! Tests of a wavelet matrix in a block: its bytes and answers beside the bytes and answers of another program, each
//! bit of the block flipped, each length cut off.
//!
//! They stand in a crate of their own, since a crate with tests is proved twice.
// What is in each file:
// - `hints`: a matrix with hints
// - `levels`: a block written level by level
// - `lists`: what ranges have, worked out by hand
// - `matrices`: the block of a small matrix
// - `quarters`: a matrix with quarters
// - `ranges`: the ranges of a matrix in a block, beside plain loops
#[cfg(test)]
mod hints;
#[cfg(test)]
mod levels;
#[cfg(test)]
mod lists;
#[cfg(test)]
mod matrices;
#[cfg(test)]
mod quarters;
#[cfg(test)]
mod ranges;
