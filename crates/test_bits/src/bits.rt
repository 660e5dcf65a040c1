//! Tests of `bitm_bits`, a file a topic; the name of a test is the sentence that it shows.
//!
//! They show what no proof says: that the definitions of the clauses mean what their words say, and that the compiler
//! makes of the proved code a program that does the same. So what is expected is worked out by hand or taken from
//! tests of the original crate, and never from an answer of our own. Each trait is called once through its bound.
//!
//! They stand in a crate of their own, since a crate with tests is proved twice.
// What is in each file:
// - `appending`: bits and numbers that are appended
// - `bytes`: reads and writes of bytes
// - `finds`: the nearest bits
// - `fragments`: ranges and fragments
// - `iterators`: iterators
// - `lending`: what a caller knows of the owner of a slice after writes
// - `making`: vectors that are made, their sizes and copies
// - `single_bits`: single bits, their counts, and the numbers of `masks`
// - `successive`: calls that leave the next position, begin or index
#[cfg(test)]
mod appending;
#[cfg(test)]
mod bytes;
#[cfg(test)]
mod finds;
#[cfg(test)]
mod fragments;
#[cfg(test)]
mod iterators;
#[cfg(test)]
mod lending;
#[cfg(test)]
mod making;
#[cfg(test)]
mod single_bits;
#[cfg(test)]
mod successive;
