//! Rank by one number for each run of eight words.
ghost use Rattle.std.specs.Prelude.{◌≡◌, ◌<◌, ◌≤◌, ◌+◌, ◌*◌, ◌/◌, ◌^◌, List, ℕ, length, slice_index, IfOk, IfErr, ◌-◌};
ghost use Rattle.std.specs.Box.{boxed_slice_items};
ghost use Rattle.std.specs.Int.{div_ceil};
ghost use Rattle.bitm_bits.specs.Size.{saturated_size};
ghost use Rattle.bit_lists.specs.Bits.{bits_of, IsShort};
ghost use Rattle.bit_lists.specs.Count.{ones_before, ones_of, IsRank};
ghost use Rattle.bitm.specs.Simple.{HasFewOnes, simple_table_of};

use crate::queries::{Access, HasBits, Rank};
use bit_words::words;
use bitm_bits::{CloneWords, GetSize};
use bitm_tables::ranking::ones_of_words;
use bitm_tables::tables::ones_of_record;
use broadword::ones_through;
use std::alloc::{AllocError, Global};
use std::boxed::BoxedSlice;
use std::convert::AsSlice;
use std::marker::Model;

/// Words of one run, before which the table has the number of 1 bits.
const WORDS_PER_RUN: usize = 8;

/// Bits of one run.
const BITS_PER_RUN: usize = 512;

/// A bit vector with the number of 1 bits before each run of eight words, where the last run may be partial: 32 bits
/// for each 512.
///
/// A contract sees it as the bit vector that it was built over.
#[derive(Drop)]
pub struct RankSimple<BV: AsSlice<u64>> {
    content: BV,
    ranks: BoxedSlice<u32, Global>,
}

/// A simple rank over words that it owns.
pub type ArrayWithRankSimple = RankSimple<BoxedSlice<u64, Global>>;

impl<BV: AsSlice<u64>> Model for RankSimple<BV> {
    ghost use Rattle.std.specs.Prelude.{◌≡◌};
    ghost use Rattle.std.specs.Box.{boxed_slice_items};
    ghost use Rattle.bit_lists.specs.Bits.{bits_of, IsShort};
    ghost use Rattle.bitm.specs.Simple.{HasFewOnes, simple_table_of};

    ghost Value = { BV };

    ghost view = { λ s. s.content };

    ghost invariant = { λ s. IsShort (BV.items s.content)
        × HasFewOnes (BV.items s.content)
        × (boxed_slice_items s.ranks ≡ simple_table_of (bits_of (BV.items s.content))) };
}

/// The table of the words, and the number of 1 bits.
fn make(alloc: Global, words: &[u64]) -> Result<(BoxedSlice<u32, Global>, u32), AllocError>
    requires short { IsShort words.now }
    requires few { HasFewOnes words.now }
    ensures table { IfOk result
        (λ pair. boxed_slice_items pair.0 ≡ simple_table_of (bits_of words.now)) }
    ensures total { IfOk result
        (λ pair. pair.1 ≡ ones_of (bits_of words.now)) }
{
    let runs = words.len().div_ceil(WORDS_PER_RUN);
    let mut ranks = Vec::with_capacity(alloc, runs)?;
    let mut total = 0u32;
    for run in 0..runs {
        ranks.push(total)?;
        total += ones_of_run(words, run);
    }
    Ok((ranks.into_boxed_slice(), total))
}

/// The number of 1 bits in a run.
#[inline(always)]
fn ones_of_run(words: &[u64], run: usize) -> u32
    requires short { IsShort words.now }
    requires begun { 8 * run < length words.now }
    ensures { ones_before (bits_of words.now) (512 * run) + result
        ≡ ones_before (bits_of words.now) (512 * (run + 1)) }
{
    ones_of_record(words, run * WORDS_PER_RUN) as u32
}

/// The number of 1 bits up to and including position `last`, where `before` of them come before its run.
#[inline(always)]
fn rank_from(words: &[u64], before: u32, last: usize) -> u32
    requires inside { last < 64 * length words.now }
    requires short { IsShort words.now }
    requires few { HasFewOnes words.now }
    requires before { before ≡ ones_before (bits_of words.now) (512 * (last / 512)) }
    ensures { result ≡ ones_before (bits_of words.now) (last + 1) }
{
    let first = last / BITS_PER_RUN * WORDS_PER_RUN;
    let word = last / 64;
    let whole = ones_of_words(words, first, word) as u32;
    before + whole + ones_through(words[word], last % 64)
}

impl<BV: AsSlice<u64>> RankSimple<BV> {
    /// Builds a simple rank over a bit vector, and returns it with the number of 1 bits.
    ///
    /// # Conditions
    /// The bit vector has fewer than 2^58 words and fewer than 2^32 1 bits, which `count_bit_ones` counts.
    /// # Errors
    /// The bit vector itself, if memory for the table was refused.
    pub fn build(alloc: Global, content: BV) -> Result<(Self, u32), BV>
        requires short { IsShort (BV.items content) }
        requires few { HasFewOnes (BV.items content) }
        ensures kept { IfOk result (λ pair. pair.0 ≡ content) }
        ensures total { IfOk result (λ pair. pair.1 ≡ ones_of (bits_of (BV.items content))) }
        ensures content_back { IfErr result (λ back. back ≡ content) }
    {
        match make(alloc, content.as_slice()) {
            Ok((ranks, total)) => Ok((RankSimple { content, ranks }, total)),
            Err(AllocError) => Err(content),
        }
    }

    /// The number of 1 bits up to and including position `last`.
    #[inline(always)]
    fn ones_through(&self, last: usize) -> u32
        requires { last < length (bits_of (BV.items self.now)) }
        ensures { result ≡ ones_before (bits_of (BV.items self.now)) (last + 1) }
    {
        let before = self.ranks.as_slice()[last / BITS_PER_RUN];
        rank_from(self.content.as_slice(), before, last)
    }

    /// The number of 1 bits among the first `index` bits; `None` exactly where there are fewer bits.
    #[inline(always)]
    pub fn try_rank(&self, index: usize) -> Option<u32>
        ensures { IsRank (bits_of (BV.items self.now)) index result }
    {
        // The last bit that counts. Where none does, this wraps to a number past every position, so one test covers
        // both cases.
        let last = index.wrapping_sub(1);
        if last / 64 < self.content.as_slice().len() {
            Some(self.ones_through(last))
        } else if index == 0 {
            Some(0)
        } else {
            None
        }
    }

    /// The number of 1 bits among the first `index` bits.
    ///
    /// # Conditions
    /// There are at least `index` bits.
    #[inline(always)]
    pub fn rank(&self, index: usize) -> u32
        requires { index ≤ length (bits_of (BV.items self.now)) }
        ensures { result ≡ ones_before (bits_of (BV.items self.now)) index }
    {
        match self.try_rank(index) {
            Some(count) => count,
            None => unreachable!(),
        }
    }
}

impl<BV: AsSlice<u64>> HasBits for RankSimple<BV> {
    ghost bits = { λ s. bits_of (BV.items s) };

    #[tactic(auto, using(bit_lists::proofs::BitLaws::bits_are_counted))]
    #[inline(always)]
    fn len(&self) -> usize {
        64 * self.content.as_slice().len()
    }
}

impl<BV: AsSlice<u64>> Rank for RankSimple<BV> {
    #[inline(always)]
    fn try_rank(&self, index: usize) -> Option<usize> {
        match RankSimple::<BV>::try_rank(self, index) {
            Some(count) => Some(count as usize),
            None => None,
        }
    }
}

impl<BV: AsSlice<u64>> Access for RankSimple<BV> {
    #[tactic(auto, using(bit_lists::proofs::BitLaws::bits_are_counted))]
    #[inline(always)]
    fn try_get_bit(&self, position: usize) -> Option<bool> {
        words::try_get_bit(self.content.as_slice(), position)
    }
}

impl<BV: AsSlice<u64>> AsSlice<u64> for RankSimple<BV> {
    ghost items = { λ s. BV.items s };

    #[inline(always)]
    fn as_slice(&self) -> &[u64] {
        self.content.as_slice()
    }
}

impl<BV: AsSlice<u64> + GetSize> GetSize for RankSimple<BV> {
    // the bit vector, and four bytes for each run of eight words
    ghost dyn_bytes = { λ s. saturated_size
        (BV.dyn_bytes s + 4 * div_ceil (length (BV.items s)) 8) };

    const USES_DYN_MEM: bool = true;

    fn size_bytes_dyn(&self) -> usize {
        self.content
            .size_bytes_dyn()
            .saturating_add(self.ranks.size_bytes_dyn())
    }
}

impl<BV: CloneWords> RankSimple<BV> {
    /// Builds a simple rank over a copy of the words, with its own table.
    ///
    /// # Errors
    /// `AllocError` if memory was refused; this value is unchanged.
    pub fn try_clone(&self, alloc: Global) -> Result<Self, AllocError>
        ensures { IfOk result (λ copy. BV.items copy ≡ BV.items self.now) }
    {
        let content = self.content.try_same(alloc)?;
        match RankSimple::build(alloc, content) {
            Ok((copy, _)) => Ok(copy),
            Err(_) => Err(AllocError),
        }
    }
}
