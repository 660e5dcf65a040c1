//! Bits that are written and then read: in an array, a boxed slice, a vector and a slice; and words that are appended.
//!
//! The functions of `words` take a slice, so a caller knows what its owner holds afterwards.
ghost use Rattle.std.specs.Prelude.{◌≡◌, ◌+◌, ◌*◌, ◌^◌, ◌<◌, ◌≤◌, length, true, false, vec_len};
ghost use Rattle.std.specs.Prelude.{◌++◌, IfOk, IfErr};
ghost use Rattle.std.specs.Box.{boxed_slice_items};
ghost use Rattle.bitm.specs.Bits.{bits_of, item};
ghost use Rattle.bitm.specs.Number.{with_number};

use bitm::words;
use std::alloc::{AllocError, Global};
use std::boxed::BoxedSlice;

/// In an array: the bit that was set is one.
#[tactic(auto, using(bitm::proofs::Callers::after_writes))]
pub fn in_an_array() -> bool
    ensures { result ≡ true }
{
    let mut array = [0u64; 32];
    words::set_bit(array.as_mut_slice(), 100);
    words::get_bit(array.as_slice(), 100)
}

/// In a boxed slice: the number that was written is read, and the owner holds it.
///
/// # Conditions
/// There are two words, and the number is below 2^10.
#[tactic(auto, using(bitm::proofs::Callers::after_writes))]
pub fn in_a_boxed_slice(boxed: &mut BoxedSlice<u64, Global>, number: u64) -> u64
    requires words { 2 ≤ length (boxed_slice_items boxed.old) }
    requires fits { number < 2 ^ 10 }
    ensures value { result ≡ number }
    ensures owner { bits_of (boxed_slice_items boxed.new)
        ≡ with_number (bits_of (boxed_slice_items boxed.old)) 60 10 number }
{
    words::set_bits(boxed.as_mut_slice(), 60, number, 10);
    words::get_bits(boxed.as_slice(), 60, 10)
}

/// In a vector: a bit before the one that was cleared is as it was.
///
/// # Conditions
/// The bit that is cleared is inside, and the other stands before it.
#[tactic(auto, using(bitm::proofs::Callers::after_writes))]
pub fn in_a_vector(vector: &mut Vec<u64>, cleared: usize, other: usize) -> bool
    requires cleared { cleared < 64 * vec_len vector.old }
    requires other { other < cleared }
    ensures value { result ≡ item (bits_of vector.old.items) other }
    ensures owner { bits_of vector.new.items
        ≡ with_number (bits_of vector.old.items) cleared 1 0 }
{
    words::clear_bit(vector.as_mut_slice(), cleared);
    words::get_bit(vector.as_slice(), other)
}

/// In a slice: two bits are set, one after the other.
///
/// # Conditions
/// There are two words.
pub fn in_a_slice(slice: &mut [u64])
    requires { 2 ≤ length slice.old }
    ensures { bits_of slice.new
        ≡ with_number (with_number (bits_of slice.old) 0 1 1) 127 1 1 }
{
    words::set_bit(slice, 0);
    words::set_bit(slice, 127);
}

/// A vector that is borrowed once for both writes, and has what they wrote.
///
/// # Conditions
/// There are two words.
pub fn borrowed_once(vector: &mut Vec<u64>)
    requires { 2 ≤ vec_len vector.old }
    ensures { bits_of vector.new.items
        ≡ with_number (with_number (bits_of vector.old.items) 0 1 1) 127 1 1 }
{
    in_a_slice(vector.as_mut_slice());
}

/// Appends words to a vector: its bits are the bits that were there, and then the bits of the words.
///
/// # Errors
/// `AllocError` if memory was refused; the vector is as it was.
#[tactic(auto, using(bitm::proofs::BitLaws::bits_are_joined))]
pub fn append(words: &mut Vec<u64>, more: &[u64]) -> Result<(), AllocError>
    ensures ok { IfOk result (λ _. bits_of words.new.items
        ≡ bits_of words.old.items ++ bits_of more.now) }
    ensures err { IfErr result (λ _. words.new.items ≡ words.old.items) }
{
    words.extend_from_slice(more)
}
