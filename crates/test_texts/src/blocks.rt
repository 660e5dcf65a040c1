//! Tests of the index of a text in a block: blocks that are written, beside the blocks of a program in Python; answers
//! beside a plain scan, of texts of bytes too, each bit of the block flipped, each length cut off, each byte of a
//! checked block changed, and other words with right checksums.
//!
//! They stand in a crate of their own, since a crate with tests is proved twice.
// What is in each file:
// - `banana`: the block of the index of banana, as bytes
// - `bytes`: texts of bytes
// - `checking`: blocks that are checked
// - `empty`: the block of the index of the empty text over one letter, with a sample for each position
// - `making`: blocks that are written from the text itself
// - `mississippi`: the block of the index of the text mississippi, with a sample each three letters
// - `steps`: blocks that are written in two steps
// - `texts`: the block of the index of a small text
// - `writing`: blocks that are written from an index
#[cfg(test)]
mod banana;
#[cfg(test)]
mod bytes;
#[cfg(test)]
mod checking;
#[cfg(test)]
mod empty;
#[cfg(test)]
mod making;
#[cfg(test)]
mod mississippi;
#[cfg(test)]
mod steps;
#[cfg(test)]
mod texts;
#[cfg(test)]
mod writing;
