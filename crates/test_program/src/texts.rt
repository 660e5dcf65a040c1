//! Tests of what `bitm text` does less its process: files of texts, where patterns stand and in which lines, worked
//! out by hand.
//!
//! They stand in a crate of their own, since a crate with tests is proved twice.
// What is in each file:
// - `lines`: in which lines patterns stand, worked out by hand as `grep -n` numbers them
// - `patterns`: how often patterns stand in texts, and where
// - `runs`: runs with arguments, and what they write
// - `sources`: a source in memory
#[cfg(test)]
mod lines;
#[cfg(test)]
mod patterns;
#[cfg(test)]
mod runs;
#[cfg(test)]
mod sources;
