//! Bits and fragments of slices of `u64`.
//!
//! Bit `i` of a slice is bit `i % 64`, lowest first, of word `i / 64`, so a slice of `n` words has `64 * n` bits.
//! `BitAccess` reads the bits of a borrowed slice, `BitAccessMut` writes them, and the functions of `words` do the same
//! by value. Contracts see a slice as the list of its bits.
//!
//! ```
//! let mut array = [0u64; 32];
//! words::set_bit(array.as_mut_slice(), 100);
//! words::get_bit(array.as_slice(), 100)    // true
//! ```
//!
//! The crate `example_callers` proves this and more of a caller's code; `CALLING.md` says what is known after each form
//! of call.
#![tactic(auto)]

// What is in each file:
// - `access`: the trait `BitAccess`: reads of a value that gives out words
// - `access_mut`: the trait `BitAccessMut`: writes to such a value
// - `appending`: bits and numbers, appended one after another
// - `clone_words`: bit vectors that can be copied
// - `borrowed`: the calls of borrowed slices
// - `making`: the trait `BitVec`: vectors of words, built from a length
// - `size`: how many bytes values have on the heap
mod access;
mod access_mut;
mod appending;
mod borrowed;
mod clone_words;
mod making;
mod size;

pub use access::BitAccess;
pub use access_mut::BitAccessMut;
pub use appending::BitWriter;
pub use bit_lists::laws;
pub use bit_words::{
    BitBIterator, BitIterator, BitOnesIterator, BitZerosIterator, bits_to_store, ceiling_div,
    get_bits25, get_bits57, init_bits25, init_bits57, n_lowest_bits, n_lowest_bits_0_64,
    n_lowest_bits_1_64, set_bits25, set_bits57, words,
};
pub use clone_words::CloneWords;
pub use making::BitVec;
pub use size::GetSize;
