//! Building words: in code that is generic over the vector, where `AsSlice` borrows what `BitVec` made, and piece by
//! piece.
ghost use Rattle.std.specs.Prelude.{◌≡◌, ◌<◌, ◌*◌, ◌^◌, ◌∷◌, ℕ, true, false, IfOk};
ghost use Rattle.bitm.specs.Bits.{bits_of, low_digits};
ghost use Rattle.bitm.specs.Number.{number_at};

use bitm::{BitVec, BitWriter, words};
use std::alloc::{AllocError, Global};

/// Whether bit `position` of a new vector of `len` zeros is one: it never is.
///
/// # Conditions
/// The position is below the length.
/// # Errors
/// `AllocError` if no memory was found.
#[tactic(auto, using(bitm::proofs::BitLaws::zeros_have_no_ones))]
pub fn bit_of_zeros<V: BitVec + Drop>(
    alloc: V::Alloc,
    len: usize,
    position: usize,
) -> Result<bool, AllocError>
    requires { position < len }
    ensures { IfOk result (λ bit. bit ≡ false) }
{
    let vector = V::with_zeroed_bits(alloc, len)?;
    Ok(words::get_bit(vector.as_slice(), position))
}

/// A vector of `count` copies of a number of three bits, side by side.
///
/// # Conditions
/// The number is below 8, and there are fewer than 2^32 copies.
/// # Errors
/// `AllocError` if no memory was found.
pub fn copies<V: BitVec>(alloc: V::Alloc, number: u64, count: usize) -> Result<V, AllocError>
    requires number { number < 8 }
    requires count { count < 2 ^ 32 }
    ensures { IfOk result (λ v. (i : ℕ) → i < count
        → number_at (bits_of (V.items v)) (i * 3) 3 ≡ number) }
{
    V::with_bitwords(alloc, number, 3, count)
}

/// A bit vector that is written piece by piece: a 1 bit, and then the ten lowest bits of a number.
///
/// # Errors
/// `AllocError` if memory was refused.
pub fn by_pieces(alloc: Global, number: u64) -> Result<BitWriter, AllocError>
    ensures { IfOk result (λ made. made ≡ true ∷ low_digits 10 number) }
{
    let mut writer = BitWriter::new(alloc);
    writer.push_bit(true)?;
    writer.push_bits(number, 10)?;
    Ok(writer)
}
