//! Bits and fragments of slices of `u64`, by value: masks, byte access, reads, writes, counts, finds and iterators, as
//! functions.
#![tactic(auto)]

// What is in each file:
// - `bytes`: reads and writes of a few bits anywhere in a slice of bytes
// - `closures`: writes for which a closure decides
// - `combining`: bitwise operations of two bit vectors of one length
// - `each_bit`: an iterator over the bits of a range
// - `finding`: the nearest 1 bit or 0 bit, found word by word
// - `fragments`: reads and writes of fragments
// - `masks`: numbers whose lowest bits are set, the number of binary digits, and division that rounds up
// - `nearest`: the first 0 bit from a position on, and the last 1 bit or 0 bit up to a position
// - `positions`: iterators over the positions of 1 bits and of 0 bits
// - `ranges`: counts and writes of ranges
// - `reading`: reads of bits and numbers
// - `successive`: calls that advance the position or index that they take
// - `words`: the calls of `BitAccess` and `BitAccessMut`, as functions over slices
// - `writing`: writes of bits and numbers
// - `slices`: bit vectors that end inside a word, by value
mod bytes;
mod closures;
mod combining;
mod each_bit;
mod finding;
mod fragments;
mod masks;
mod nearest;
mod positions;
mod ranges;
mod reading;
pub mod slices;
mod successive;
pub mod words;
mod writing;

pub use bytes::{get_bits25, get_bits57, init_bits25, init_bits57, set_bits25, set_bits57};
pub use each_bit::BitIterator;
pub use masks::{
    bits_to_store, ceiling_div, n_lowest_bits, n_lowest_bits_0_64, n_lowest_bits_1_64,
};
pub use positions::{BitBIterator, BitOnesIterator, BitZerosIterator};
