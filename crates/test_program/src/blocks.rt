//! Tests of `bitm build` and `bitm query` less their process: what they build and answer, worked out by hand.
//!
//! They stand in a crate of their own, since a crate with tests is proved twice.
// What is in each file:
// - `kinds`: blocks of each kind, and texts that no block is built of
// - `runs`: runs with arguments, and what they write
#[cfg(test)]
mod kinds;
#[cfg(test)]
mod runs;
