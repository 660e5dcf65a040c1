//! Tests of sequences, and of runs of the program `bitm_vectors`: neither stands on a test of the index. The head of
//! `test_index` says why what clauses fix is tested all the same.
//!
//! They stand in a crate of their own, since a crate with tests is proved twice.
// What is in each file:
// - `failures`: what a run ends with and says
// - `runs`: whole runs
// - `sequences`: sequences, by rows that are worked out by hand
#[cfg(test)]
mod failures;
#[cfg(test)]
mod runs;
#[cfg(test)]
mod sequences;
