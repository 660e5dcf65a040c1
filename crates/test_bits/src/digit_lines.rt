//! Tests of digits in lines: words worked out by hand, each query beside plain counting over the digits, and memory
//! that holds other counts.
//!
//! They stand in a crate of their own, since a crate with tests is proved twice.
// What is in each file:
// - `by_hand`: the words of short lists
// - `changed`: counts that were changed
// - `made`: lists of numbers, their digits, and each query of these
// - `queries`: each query of each position and rank beside a walk over the digits
#[cfg(test)]
mod by_hand;
#[cfg(test)]
mod changed;
#[cfg(test)]
mod made;
#[cfg(test)]
mod queries;
