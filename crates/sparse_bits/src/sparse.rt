//! The type of sparse bits.
ghost use Rattle.std.specs.Prelude.{◌≡◌, ◌≤◌, ◌<◌, ◌↔◌, ◌⊎◌, ◌+◌, ◌*◌, ◌^◌, length, drop, IfOk, IfErr, IsErrOf, true};
ghost use Rattle.bit_lists.specs.Bits.{bits_of, IsShort};
ghost use Rattle.bit_lists.specs.Count.{ones_of, zeros_of, bit_positions};
ghost use Rattle.elias_fano.specs.Parts.{width_of, low_words_of, upper_words_of};
ghost use Rattle.sparse_bits.specs.Looks.{no_looks};
ghost use Rattle.sparse_bits.specs.Positions.{bits_at, AreBitPositions, HasNoRise, HasPast, Rises};
ghost use Rattle.sparse_bits.specs.Value.{bytes_taken};

use crate::checking::{TOO_MANY, check_positions};
use crate::counted::Ones;
use crate::error::SparseError;
use bit_words::{BitOnesIterator, words};
use bitm::{Access, HasBits, Rank, Select, Select0};
use bitm_bits::GetSize;
use bitm_select::search::selected::found;
use bitm_strategies::{
    AdaptiveCombinedSamplingDensity, BinaryRankSearch, CombinedSampling, Select0ForRank101111,
    SelectForRank101111,
};
use bitm_tables::answer::Answer;
use elias_fano::{Numbers, Sequence};
use std::alloc::{AllocError, Global};
use std::marker::Model;

/// A bit vector that is kept as the positions of its 1 bits, a monotone sequence (`elias_fano::Sequence`).
///
/// A rank is one search for a successor among the positions, a selection reads one of them. So it suits bits with few 1
/// bits; the bound of `build` says how many bits it takes.
///
/// # Source
/// The structure is known as `sd_vector`: Okanohara and Sadakane, 'Practical entropy-compressed rank/select dictionary'
/// (ALENEX 2007).
#[derive(Drop)]
pub struct SparseBits<S: SelectForRank101111, S0: Select0ForRank101111> {
    ones: Sequence<S, S0>,
    len: usize,
}

impl<S: SelectForRank101111, S0: Select0ForRank101111> Model for SparseBits<S, S0> {
    ghost use Rattle.sparse_bits.specs.Positions.{bits_at, AreBitPositions};
    ghost use Rattle.sparse_bits.specs.Value.{SparseValue};

    ghost Value = { SparseValue S S0 };

    ghost view = { λ b. record {
      bits = bits_at b.len 0 b.ones.items;
      select = b.ones.select;
      select0 = b.ones.select0;
    } };

    ghost invariant = { λ b. AreBitPositions b.len 0 b.ones.items };
}

/// The positions of the 1 bits of words.
fn positions_of(alloc: Global, words: &[u64]) -> Result<Vec<u64>, AllocError>
    requires { IsShort words.now }
    ensures { IfOk result (λ list. list.items ≡ bit_positions true 0 (bits_of words.now)) }
{
    let mut positions = Vec::with_capacity(alloc, words::count_bit_ones(words))?;
    for position in BitOnesIterator::new(words) {
        positions.push(position as u64)?;
    }
    Ok(positions)
}

impl<S: SelectForRank101111, S0: Select0ForRank101111> SparseBits<S, S0> {
    /// `len` bits, with 1 bits at the given positions alone.
    ///
    /// # Errors
    /// `TooLong` exactly where there are 2^56 positions or more; else `NotRising` exactly where some position is not
    /// greater than the one before it; else `PastEnd` exactly where some position is not less than `len`; else
    /// `OutOfMemory` if memory was refused. Nothing stays allocated then.
    /// # Cost
    /// One pass over the positions for the test, and the passes of `Sequence::build`.
    pub fn build(alloc: Global, positions: &[u64], len: usize) -> Result<Self, SparseError>
        ensures ones { IfOk result (λ made. bit_positions true 0 made.bits ≡ positions.now) }
        ensures len { IfOk result (λ made. length made.bits ≡ len) }
        ensures too_long { IsErrOf result SparseError.TooLong ↔ (2 ^ 56 ≤ length positions.now) }
        ensures not_rising { IsErrOf result SparseError.NotRising
            ↔ ((length positions.now < 2 ^ 56) × HasNoRise positions.now) }
        ensures past_end { IsErrOf result SparseError.PastEnd
            ↔ ((length positions.now < 2 ^ 56) × Rises positions.now × HasPast positions.now len) }
        ensures size { IfOk result (λ made. let xs = bit_positions true 0 made.bits in let l = width_of xs in
            64 * (low_words_of xs l + upper_words_of xs l) ≤ length xs * (l + 3) + 126) }
    {
        check_positions(positions, len)?;
        match Sequence::build(alloc, positions) {
            Ok(ones) => Ok(SparseBits { ones, len }),
            Err(_) => Err(SparseError::OutOfMemory),
        }
    }

    /// The bits of words, which are not changed.
    ///
    /// # Conditions
    /// There are fewer than 2^58 words.
    /// # Errors
    /// `TooLong` exactly where there are 2^56 1 bits or more; else `OutOfMemory` if memory was refused. Nothing stays
    /// allocated then.
    /// # Cost
    /// Two passes over the words, and what `build` takes; while it builds, 8 bytes for each 1 bit.
    pub fn build_from_words(alloc: Global, words: &[u64]) -> Result<Self, SparseError>
        requires { IsShort words.now }
        ensures bits { IfOk result (λ made. made.bits ≡ bits_of words.now) }
        ensures too_long { IsErrOf result SparseError.TooLong
            ↔ (2 ^ 56 ≤ ones_of (bits_of words.now)) }
        ensures refused { IfErr result
            (λ e. (e ≡ SparseError.TooLong) ⊎ (e ≡ SparseError.OutOfMemory)) }
    {
        if words::count_bit_ones(words) >= TOO_MANY {
            return Err(SparseError::TooLong);
        }
        let positions = positions_of(alloc, words)?;
        SparseBits::build(alloc, positions.as_slice(), 64 * words.len())
    }

    /// The bits, as the bodies of their queries take them.
    #[inline(always)]
    fn asked(&self) -> Ones<'_, Sequence<S, S0>>
        ensures asked { result ≡ no_looks result.positions (length self.now.bits) }
        ensures bits { bits_at (length self.now.bits) 0 result.positions.items ≡ self.now.bits }
        ensures positions { AreBitPositions (length self.now.bits) 0 result.positions.items }
    {
        Ones::new(&self.ones, self.len)
    }

    /// The positions of the 1 bits, as the sequence that holds them.
    #[inline(always)]
    pub fn positions(&self) -> &Sequence<S, S0>
        ensures { result.now.items ≡ bit_positions true 0 self.now.bits }
    {
        &self.ones
    }

    /// The number of 1 bits: fewer than 2^56.
    #[inline(always)]
    pub fn count_bit_ones(&self) -> usize
        ensures count { result ≡ ones_of self.now.bits }
        ensures short { result < 2 ^ 56 }
    {
        self.ones.len()
    }

    /// The number of 0 bits.
    #[inline(always)]
    pub fn count_bit_zeros(&self) -> usize
        ensures { result ≡ zeros_of self.now.bits }
    {
        self.len - self.ones.len()
    }

    /// The positions of the 1 bits, from the first on and from the last back.
    #[inline]
    pub fn bit_ones(&self) -> Numbers<'_>
        ensures { result ≡ bit_positions true 0 self.now.bits }
    {
        self.ones.iter()
    }

    /// The positions of the 1 bits from the 1 bit with rank `rank` on.
    ///
    /// # Conditions
    /// There are at least `rank` 1 bits.
    #[inline]
    pub fn bit_ones_from(&self, rank: usize) -> Numbers<'_>
        requires { rank ≤ ones_of self.now.bits }
        ensures { result ≡ drop rank (bit_positions true 0 self.now.bits) }
    {
        self.ones.iter_from(rank)
    }

    /// A copy of the bits.
    ///
    /// # Errors
    /// `AllocError` if memory was refused; this value is as it was.
    pub fn try_clone(&self, alloc: Global) -> Result<Self, AllocError>
        ensures { IfOk result (λ copy. copy.bits ≡ self.now.bits) }
    {
        let ones = self.ones.try_clone(alloc)?;
        Ok(SparseBits {
            ones,
            len: self.len,
        })
    }
}

impl<S: SelectForRank101111, S0: Select0ForRank101111> HasBits for SparseBits<S, S0> {
    ghost bits = { λ b. b.bits };

    #[inline(always)]
    fn len(&self) -> usize {
        self.len
    }
}

impl<S: SelectForRank101111, S0: Select0ForRank101111> Rank for SparseBits<S, S0> {
    /// The number of 1 bits among the first `index` bits; `None` exactly where there are fewer bits.
    ///
    /// # Cost
    /// One search for a successor among the positions of the 1 bits (`Sequence::first_at_least`).
    #[inline]
    fn try_rank(&self, index: usize) -> Option<usize> {
        found(self.asked().rank_in(index))
    }
}

impl<S: SelectForRank101111, S0: Select0ForRank101111> Access for SparseBits<S, S0> {
    /// The bit at position `position`; `None` exactly where there is no such bit.
    ///
    /// # Cost
    /// One search for a successor, and one position is read.
    #[inline]
    fn try_get_bit(&self, position: usize) -> Option<bool> {
        self.asked().bit_in(position).right()
    }

    /// The bit at position `position`, and the number of 1 bits before it.
    ///
    /// # Conditions
    /// There is such a bit.
    /// # Cost
    /// The cost of `try_get_bit`.
    #[inline]
    fn bit_and_rank(&self, position: usize) -> (bool, usize) {
        match self.asked().bit_and_rank_in(position) {
            Answer::Found(known) => known,
            _ => unreachable!(),
        }
    }
}

impl<S: SelectForRank101111, S0: Select0ForRank101111> Select for SparseBits<S, S0> {
    /// The position of the 1 bit with exactly `rank` 1 bits before it; `None` exactly where there is none.
    ///
    /// # Cost
    /// One position is read (`Sequence::get`).
    #[inline]
    fn try_select(&self, rank: usize) -> Option<usize> {
        found(self.asked().select_in(rank))
    }
}

impl<S: SelectForRank101111, S0: Select0ForRank101111> Select0 for SparseBits<S, S0> {
    /// The position of the 0 bit with exactly `rank` 0 bits before it; `None` exactly where there is none.
    ///
    /// # Cost
    /// One position is read for each binary digit of the number of 1 bits.
    #[inline]
    fn try_select0(&self, rank: usize) -> Option<usize> {
        found(self.asked().select0_in(rank))
    }
}

impl<S: SelectForRank101111 + GetSize, S0: Select0ForRank101111 + GetSize> GetSize
    for SparseBits<S, S0> {
    // that of the sequence of the positions
    ghost dyn_bytes = { λ b. bytes_taken (bit_positions true 0 b.bits)
        (S.dyn_bytes b.select) (S0.dyn_bytes b.select0) };

    const USES_DYN_MEM: bool = true;

    fn size_bytes_dyn(&self) -> usize {
        self.ones.size_bytes_dyn()
    }
}

/// Samples of the upper vector of the positions: one for each 2^13 1 bits or 0 bits, or fewer where there are fewer of
/// these.
type Sampled = CombinedSampling<AdaptiveCombinedSamplingDensity<13>>;

/// Sparse bits whose positions are found by samples, the fastest.
pub type SampledSparseBits = SparseBits<Sampled, Sampled>;

/// Sparse bits whose positions are found by binary search, with nothing kept beside the sequence and its index.
pub type BinarySparseBits = SparseBits<BinaryRankSearch, BinaryRankSearch>;
