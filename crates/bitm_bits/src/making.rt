//! Vectors of words, made from a length: the trait `BitVec`.
ghost use Rattle.std.specs.Prelude.{◌≡◌, ◌*◌, ◌^◌, ◌<◌, ◌≤◌, ◌-◌, ℕ, false, length, replicate, IfOk};
ghost use Rattle.std.specs.Int.{div_ceil};
ghost use Rattle.bit_lists.specs.Bits.{bits_of, item};
ghost use Rattle.bit_lists.specs.Number.{number_at};

use bit_words::words;
use std::alloc::{AllocError, Allocator};
use std::boxed::BoxedSlice;
use std::convert::AsSlice;

/// Makes vectors of words: what is made is what its `AsSlice` gives out.
///
/// Every call takes the allocator first. A length too great for any allocation is refused like any other request for
/// memory, and nothing was made then.
pub trait BitVec: AsSlice<u64> {
    /// Where the memory comes from.
    type Alloc;

    /// A vector of `n` words equal to `value`.
    ///
    /// # Errors
    /// `AllocError` if memory was refused.
    fn with_64bit_segments(alloc: Self::Alloc, value: u64, n: usize) -> Result<Self, AllocError>
        ensures { IfOk result (λ v. Self.items v ≡ replicate n value) };

    /// A vector of `n` words that are 0.
    ///
    /// # Errors
    /// `AllocError` if memory was refused.
    #[inline]
    fn with_zeroed_64bit_segments(alloc: Self::Alloc, n: usize) -> Result<Self, AllocError>
        ensures { IfOk result (λ v. Self.items v ≡ replicate n 0) }
    {
        Self::with_64bit_segments(alloc, 0, n)
    }

    /// A vector of `n` words whose bits are all 1.
    ///
    /// # Errors
    /// `AllocError` if memory was refused.
    #[inline]
    fn with_filled_64bit_segments(alloc: Self::Alloc, n: usize) -> Result<Self, AllocError>
        ensures { IfOk result (λ v. Self.items v ≡ replicate n (2 ^ 64 - 1)) }
    {
        Self::with_64bit_segments(alloc, u64::MAX, n)
    }

    /// A vector of the fewest words that have `n` bits, all 0.
    ///
    /// # Errors
    /// `AllocError` if memory was refused.
    #[inline]
    fn with_zeroed_bits(alloc: Self::Alloc, n: usize) -> Result<Self, AllocError>
        ensures { IfOk result (λ v. Self.items v ≡ replicate (div_ceil n 64) 0) }
    {
        Self::with_zeroed_64bit_segments(alloc, n.div_ceil(64))
    }

    /// A vector of the fewest words that have `n` bits; all bits of these words are 1, also those past `n`.
    ///
    /// # Errors
    /// `AllocError` if memory was refused.
    #[inline]
    fn with_filled_bits(alloc: Self::Alloc, n: usize) -> Result<Self, AllocError>
        ensures { IfOk result (λ v. Self.items v ≡ replicate (div_ceil n 64) (2 ^ 64 - 1)) }
    {
        Self::with_filled_64bit_segments(alloc, n.div_ceil(64))
    }

    /// A vector of the fewest words that have `n` fragments of `s` bits: each of them is `word`, and the bits after
    /// them are 0. At width 0 there are no words.
    ///
    /// # Conditions
    /// `s` is 0 to 64, `word` has at most `s` binary digits, and `n * s` fits a `usize`.
    ///
    /// # Errors
    /// `AllocError` if memory was refused.
    fn with_bitwords(alloc: Self::Alloc, word: u64, s: u8, n: usize) -> Result<Self, AllocError>
        requires width { s ≤ 64 }
        requires fits { word < 2 ^ s }
        requires room { n * s < 2 ^ 64 }
        ensures len { IfOk result (λ v. length (Self.items v) ≡ div_ceil (n * s) 64) }
        ensures fragments { IfOk result (λ v. (i : ℕ) → i < n
            → number_at (bits_of (Self.items v)) (i * s) s ≡ word) }
        ensures after { IfOk result (λ v. (p : ℕ) → n * s ≤ p
            → item (bits_of (Self.items v)) p ≡ false) };
}

impl<A: Allocator> BitVec for BoxedSlice<u64, A> {
    type Alloc = A;

    #[inline]
    fn with_64bit_segments(alloc: A, value: u64, n: usize) -> Result<Self, AllocError> {
        Ok(vec![in alloc; value; n]?.into_boxed_slice())
    }

    #[inline]
    fn with_bitwords(alloc: A, word: u64, s: u8, n: usize) -> Result<Self, AllocError> {
        Ok(Vec::with_bitwords(alloc, word, s, n)?.into_boxed_slice())
    }
}

impl<A: Allocator> BitVec for Vec<u64, A> {
    type Alloc = A;

    #[inline]
    fn with_64bit_segments(alloc: A, value: u64, n: usize) -> Result<Self, AllocError> {
        vec![in alloc; value; n]
    }

    #[inline]
    fn with_bitwords(alloc: A, word: u64, s: u8, n: usize) -> Result<Self, AllocError> {
        let mut bits = Self::with_zeroed_bits(alloc, n * s as usize)?;
        init_fragments(bits.as_mut_slice(), word, s, n);
        Ok(bits)
    }
}

/// Makes the first `n` fragments of width `s` equal to `word`, where all bits are 0.
#[inline]
fn init_fragments(words: &mut [u64], word: u64, s: u8, n: usize)
    requires width { s ≤ 64 }
    requires fits { word < 2 ^ s }
    requires room { n * s < 2 ^ 64 }
    requires clear { words.old ≡ replicate (div_ceil (n * s) 64) 0 }
    ensures fragments { (i : ℕ) → i < n → number_at (bits_of words.new) (i * s) s ≡ word }
    ensures after { (p : ℕ) → n * s ≤ p → item (bits_of words.new) p ≡ false }
{
    if s == 0 {
        return;
    }
    for i in 0..n {
        words::init_fragment(words, i, word, s);
    }
}
