//! Tests of the structures that stand on an index: wavelet matrices, perfect hashes and trees, beside plain loops and
//! answers worked by hand.
//!
//! They stand in a crate of their own, since a crate with tests is proved twice.
// What is in each file:
// - `hashes`: perfect hashes
// - `matrices`: wavelet matrices, worked by hand and compared with plain loops
// - `trees`: trees compared with a search for parents by the definition
// - `tries`: trees with labels, by answers worked by hand
// - `ways`: ways up and down trees, compared with lists of parents, and answers worked by hand
#[cfg(test)]
mod hashes;
#[cfg(test)]
mod matrices;
#[cfg(test)]
mod trees;
#[cfg(test)]
mod tries;
#[cfg(test)]
mod ways;
