//! Tests of what `bitm strings` does less its process: blocks of lines, and their numbers.
//!
//! They stand in a crate of their own, since a crate with tests is proved twice.
// What is in each file:
// - `lines`: the numbers that lines have
// - `runs`: runs with arguments, and what they write
// - `sources`: a source in memory
#[cfg(test)]
mod lines;
#[cfg(test)]
mod runs;
#[cfg(test)]
mod sources;
