//! Tests of sparse bits, beside a walk over the bits and numbers worked out by hand.
//!
//! They stand in a crate of their own, since a crate with tests is proved twice.
// What is in each file:
// - `by_hand`: answers, sizes and errors that are worked out by hand
// - `walks`: all queries beside a walk over the bits of words
#[cfg(test)]
mod by_hand;
#[cfg(test)]
mod walks;
