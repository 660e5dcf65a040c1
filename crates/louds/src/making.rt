//! The bits of a tree, in one pass over the degrees.
ghost use Rattle.std.specs.Prelude.{◌≡◌, ◌+◌, ◌*◌, ◌<◌, ◌≤◌, ◌^◌, ℕ, true, false, length, sum, IfOk};
ghost use Rattle.std.specs.Box.{boxed_slice_items};
ghost use Rattle.bit_lists.specs.Bits.{bits_of, item};
ghost use Rattle.louds.specs.Held.{IsWritten, tree_words};

use bit_words::words;
use bitm_bits::BitVec;
use std::alloc::{AllocError, Global};
use std::boxed::BoxedSlice;

/// Writes 10, and then for each node its degree in 1 bits and a 0 bit, where all bits are 0: the bits of a tree, in
/// memory of the caller's.
///
/// # Conditions
/// There are as many bits as these take, and fewer than 2^64.
/// # Cost
/// One pass over the degrees (evident from the code).
///
/// ```
/// write_degrees(words.as_mut_slice(), &[2, 0, 1, 0]);   // 10 110 0 10 0, from the first bit on
/// ```
pub fn write_degrees(words: &mut [u64], degrees: &[usize])
    requires some { 0 < length words.old }
    requires fits { 2 + length degrees.now + sum degrees.now < 2 ^ 64 }
    requires room { 2 + length degrees.now + sum degrees.now ≤ 64 * length words.old }
    requires clear { (p : ℕ) → item (bits_of words.old) p ≡ false }
    ensures { IsWritten degrees.now (length degrees.now) (bits_of words.new) }
{
    words::fill_range(words, 0, 1, true);
    let mut position = 2;
    for i in 0..degrees.len() {
        let end = position + degrees[i];
        words::fill_range(words, position, end, true);
        position = end + 1;
    }
}

/// The bits of a tree of these degrees.
///
/// # Conditions
/// There is one child for each node but the root, and fewer than 2^60 nodes.
/// # Errors
/// `AllocError` where memory was refused.
#[tactic(auto, using(bitm::proofs::BitLaws::zeros_have_no_ones))]
pub(crate) fn make_bits(
    alloc: Global,
    degrees: &[usize],
) -> Result<BoxedSlice<u64, Global>, AllocError>
    requires short { length degrees.now < 2 ^ 60 }
    requires count { sum degrees.now + 1 ≡ length degrees.now }
    ensures len { IfOk result (λ made. length (boxed_slice_items made) ≡ tree_words (length degrees.now)) }
    ensures written { IfOk result (λ made.
        IsWritten degrees.now (length degrees.now) (bits_of (boxed_slice_items made))) }
{
    let mut made = BoxedSlice::with_zeroed_bits(alloc, 2 * degrees.len() + 1)?;
    write_degrees(made.as_mut_slice(), degrees);
    Ok(made)
}
