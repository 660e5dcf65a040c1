//! Tests of bits, of digits, and of levels of digits.
//!
//! They stand in a crate of their own, since a crate with tests is proved twice.
#![tactic(auto)]

// What is in each file:
// - `bits`: tests of `bitm_bits`, a file a topic; the name of a test is the sentence that it shows
// - `digit_lines`: tests of digits in lines
// - `digit_matrix`: tests of levels of digits
#[cfg(test)]
mod bits;
#[cfg(test)]
mod digit_lines;
#[cfg(test)]
mod digit_matrix;
