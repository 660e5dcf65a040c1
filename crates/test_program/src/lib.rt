//! Tests of the program `bitm`, over readers and writers that refuse.
//!
//! They stand in a crate of their own, since a crate with tests is proved twice.
#![tactic(auto)]

// What is in each file:
// - `blocks`: tests of `bitm build` and `bitm query` less their process
// - `kinds`: tests of what `bitm check` and `bitm info` do less their process
// - `strings`: tests of what `bitm strings` does less its process
// - `texts`: tests of what `bitm text` does less its process
#[cfg(test)]
mod blocks;
#[cfg(test)]
mod kinds;
#[cfg(test)]
mod strings;
#[cfg(test)]
mod texts;
