//! Tests of a collection of texts beside a walk over each document: counts, locations and documents worked out by hand
//! and by plain comparison.
//!
//! They stand in a crate of their own, since a crate with tests is proved twice.
// What is in each file:
// - `collections`: documents of each kind, all their short patterns, and what is refused
// - `found`: in which documents patterns stand, each document once
#[cfg(test)]
mod collections;
#[cfg(test)]
mod found;
