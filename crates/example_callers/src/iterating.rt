//! Iterators over positions and over bits, in a `for`.
//!
//! `BitOnesIterator::new(words)` borrows the slice, and so outlives a reference to it; `slice.bit_ones()` borrows the
//! reference `slice`.
ghost use Rattle.std.specs.Prelude.{◌≡◌, true, IfOk};
ghost use Rattle.bitm.specs.Bits.{bits_of, IsShort};
ghost use Rattle.bitm.specs.Count.{ones_of, bit_positions};

use bitm::{BitIterator, BitOnesIterator};
use std::alloc::{AllocError, Global};
use std::iter::Iterator;

/// How many ones the words have, counted one by one.
///
/// # Conditions
/// There are fewer than 2^58 words.
#[tactic(auto, using(bitm::proofs::Callers::counts))]
pub fn ones_by_their_positions(words: &[u64]) -> usize
    requires { IsShort words.now }
    ensures { result ≡ ones_of (bits_of words.now) }
{
    let mut count = 0;
    for _position in BitOnesIterator::new(words) {
        count += 1;
    }
    count
}

/// The positions of the 1 bits, in a vector.
///
/// # Conditions
/// There are fewer than 2^58 words.
/// # Errors
/// `AllocError` if no memory was found.
pub fn positions_of_ones(alloc: Global, words: &[u64]) -> Result<Vec<usize>, AllocError>
    requires { IsShort words.now }
    ensures { IfOk result (λ list. list.items ≡ bit_positions true 0 (bits_of words.now)) }
{
    BitOnesIterator::new(words).collect(alloc)
}

/// How many ones the words have, counted bit by bit.
///
/// # Conditions
/// There are fewer than 2^58 words.
#[tactic(auto, using(bitm::proofs::Callers::bit_by_bit))]
pub fn ones_by_their_bits(words: &[u64]) -> usize
    requires { IsShort words.now }
    ensures { result ≡ ones_of (bits_of words.now) }
{
    let mut count = 0;
    for bit in BitIterator::new(words) {
        if bit {
            count += 1;
        }
    }
    count
}
