//! Tests of posting lists: cursors beside a walk over all numbers, and answers worked out by hand.
//!
//! They stand in a crate of their own, since a crate with tests is proved twice.
// What is in each file:
// - `by_hand`: answers of cursors that are worked out by hand
// - `walks`: cursors beside a walk over all numbers
// - `wrong`: merges of cursors that turn out wrong
#[cfg(test)]
mod by_hand;
#[cfg(test)]
mod walks;
#[cfg(test)]
mod wrong;
