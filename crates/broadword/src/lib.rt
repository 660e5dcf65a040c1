//! 1 bits and 0 bits of words counted, and rank and selection in one word, by arithmetic on all its bytes at once.
#![tactic(auto)]

// What is in each file:
// - `counting`: the number of 1 bits and 0 bits in words
// - `word`: rank and selection in a word
mod counting;
pub mod word;

pub use counting::{count_bit_ones, count_bit_zeros};
pub use word::{byte_sums, bytes_at_most, ones_through, select64};
