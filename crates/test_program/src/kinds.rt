//! Tests of what `bitm check` and `bitm info` do less their process: blocks of each kind that are checked and
//! described, worked out by hand.
//!
//! They stand in a crate of their own, since a crate with tests is proved twice.
// What is in each file:
// - `hashes`: perfect hashes, with seeds, with keys and with notes
// - `kinds`: blocks of each other kind
// - `runs`: runs with arguments, and what they write
// - `saying`: what is said of the words of a block
#[cfg(test)]
mod hashes;
#[cfg(test)]
mod kinds;
#[cfg(test)]
mod runs;
#[cfg(test)]
mod saying;
