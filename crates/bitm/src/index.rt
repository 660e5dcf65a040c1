//! The index over a bit vector, generic in the type of the bit vector and in the two strategies that select.
ghost use Rattle.std.specs.Prelude.{◌≡◌, ◌+◌, ◌*◌, ◌^◌, length, IfOk, IfErr};
ghost use Rattle.std.specs.Box.{boxed_slice_items};
ghost use Rattle.std.specs.Int.{div_ceil};
ghost use Rattle.bit_lists.specs.Bits.{bits_of, IsShort};
ghost use Rattle.bit_lists.specs.Count.{ones_of};
ghost use Rattle.bitm_bits.specs.Size.{saturated_size};
ghost use Rattle.bitm_tables.specs.Reads.{none_read};
ghost use Rattle.bitm_tables.specs.Tables.{AreTablesOf, IsIndexed, upper_of, lower_of};

mod many;

use crate::queries::{Access, HasBits, Rank, Select, Select0};
use bitm_bits::{CloneWords, GetSize};
use bitm_strategies::{BinaryRankSearch, Select0ForRank101111, SelectForRank101111};
use bitm_tables::ranking::{bit_and_rank_on, bit_on, rank_on};
use bitm_tables::source::Probe;
use bitm_tables::tables::{self, Tables};
use std::alloc::{AllocError, Global};
use std::boxed::BoxedSlice;
use std::convert::AsSlice;
use std::marker::Model;

/// A bit vector with two tables of counts and a strategy for each kind of bit. A rank reads one entry of each table and
/// at most eight words; the strategies select from the tables.
///
/// The upper table has one number for each upper block of 2^32 bits: the number of 1 bits before it. The lower table
/// has one packed entry for each lower block of 2048 bits (32 words), which is four basic blocks of 512 bits (8 words,
/// one cache line). The last block of each level may be partial. `docs/layout.svg` shows all levels; an entry is
///
/// ```text
///  63        54 53         43 42         32 31                    0
/// +------------+-------------+-------------+-----------------------+
/// |  r1 : 10   |   r2 : 11   |   r3 : 11   |        r0 : 32        |
/// +------------+-------------+-------------+-----------------------+
///  r0  1 bits from the start of the upper block to the entry, at most 2^32 - 2048
///  r1  1 bits in the first basic block of the entry, at most 512
///  r2  1 bits in the first two basic blocks, at most 1024
///  r3  1 bits in the first three basic blocks, at most 1536
/// ```
///
/// The number of 1 bits before basic block `k` (0 to 3) in its lower block is the entry shifted right by `11 * (3 -
/// k)`, then by 32, and the low 11 bits of that: r3, r2, r1, and 0 for block 0, without a branch. A basic block that a
/// partial lower block lacks adds nothing, so the last sum repeats: the words `[0b1101]` have 3, 3, 3, and their entry
/// is `0x00C0_1803_0000_0000`. One subtraction gives the entry of the negated bits (`complement_entry`).
/// `proofs/Examples.antt` computes these numbers.
///
/// So the lower table takes 64 bits for each 2048, the upper table 64 bits for each 2^32. A contract sees an index as
/// its bit vector and its two strategies; the tables match the bit vector.
///
/// # Source
/// Zhou, Andersen and Kaminsky, 'Space-efficient, high-performance rank and select structures on uncompressed bit
/// sequences' (SEA 2013), with the fields of an entry in the opposite order, so that rank needs no branch.
#[derive(Drop)]
pub struct RankSelect101111<S: SelectForRank101111, S0: Select0ForRank101111, BV: AsSlice<u64>> {
    content: BV,
    tables: Tables,
    select: S,
    select0: S0,
}

impl<S: SelectForRank101111, S0: Select0ForRank101111, BV: AsSlice<u64>> Model
    for RankSelect101111<S, S0, BV> {
    ghost use Rattle.std.specs.Box.{boxed_slice_items};
    ghost use Rattle.bit_lists.specs.Bits.{bits_of, IsShort};
    ghost use Rattle.bitm.specs.IndexValue.{IndexValue};
    ghost use Rattle.bitm_tables.specs.Tables.{AreTablesOf};

    ghost Value = { IndexValue BV S S0 };

    ghost view = { λ i. record { content = i.content; select = i.select; select0 = i.select0 } };

    ghost invariant = { λ i. IsShort (BV.items i.content)
        × AreTablesOf (bits_of (BV.items i.content))
        (boxed_slice_items i.tables.l1ranks) (boxed_slice_items i.tables.l2ranks)
        × S.supports i.select (BV.items i.content)
        × S0.supports0 i.select0 (BV.items i.content) };
}

/// What an index owns beside its bit vector, and the number of 1 bits.
struct Made<S, S0> {
    tables: Tables,
    select: S,
    select0: S0,
    ones: usize,
}

/// Builds the tables of the words and two strategies that support them.
fn make<S: SelectForRank101111, S0: Select0ForRank101111>(
    alloc: Global,
    words: &[u64],
) -> Result<Made<S, S0>, AllocError>
    requires { IsShort words.now }
    ensures tables { IfOk result (λ parts. AreTablesOf (bits_of words.now)
        (boxed_slice_items parts.tables.l1ranks) (boxed_slice_items parts.tables.l2ranks)) }
    ensures supports { IfOk result (λ parts. S.supports parts.select words.now) }
    ensures supports0 { IfOk result (λ parts. S0.supports0 parts.select0 words.now) }
    ensures ones { IfOk result (λ parts. parts.ones ≡ ones_of (bits_of words.now)) }
{
    let (tables, ones) = tables::make(alloc, words)?;
    let upper = tables.l1ranks.as_slice();
    let lower = tables.l2ranks.as_slice();
    let select = S::new(alloc, words, upper, lower, ones)?;
    let select0 = S0::new0(alloc, words, upper, lower, ones)?;
    Ok(Made {
        tables,
        select,
        select0,
        ones,
    })
}

impl<S: SelectForRank101111, S0: Select0ForRank101111, BV: AsSlice<u64>> RankSelect101111<
    S,
    S0,
    BV,
> {
    /// Builds an index over a bit vector, and returns it with the number of 1 bits.
    ///
    /// # Conditions
    /// The bit vector has fewer than 2^58 words.
    /// # Errors
    /// The bit vector itself, if memory for a table or a strategy was refused; all other memory was freed.
    /// # Cost
    /// One pass over the words for the tables, and what each strategy takes to build.
    pub fn build(alloc: Global, content: BV) -> Result<(Self, usize), BV>
        requires { IsShort (BV.items content) }
        ensures kept { IfOk result (λ pair. pair.0.content ≡ content) }
        ensures total { IfOk result (λ pair. pair.1 ≡ ones_of (bits_of (BV.items content))) }
        ensures content_back { IfErr result (λ back. back ≡ content) }
    {
        match make::<S, S0>(alloc, content.as_slice()) {
            Ok(
                Made {
                    tables,
                    select,
                    select0,
                    ones,
                },
            ) => {
                let index = RankSelect101111 {
                    content,
                    tables,
                    select,
                    select0,
                };
                Ok((index, ones))
            }
            Err(AllocError) => Err(content),
        }
    }

    /// The bit vector, which has fewer than 2^58 words.
    #[inline(always)]
    pub fn content(&self) -> &BV
        ensures value { result.now ≡ self.now.content }
        ensures short { IsShort (BV.items result.now) }
    {
        &self.content
    }

    /// The upper table: the number of 1 bits before each upper block of 2^32 bits; the last block may be partial.
    #[inline(always)]
    pub fn l1ranks(&self) -> &[usize]
        ensures { result.now ≡ upper_of (bits_of (BV.items self.now.content)) }
    {
        self.tables.l1ranks.as_slice()
    }

    /// The lower table: one packed entry for each lower block of 2048 bits; the last block may be partial.
    #[inline(always)]
    pub fn l2ranks(&self) -> &[u64]
        ensures { result.now ≡ lower_of (bits_of (BV.items self.now.content)) }
    {
        self.tables.l2ranks.as_slice()
    }

    /// The strategy that selects 1 bits; it supports the bit vector.
    #[inline(always)]
    pub fn select_support(&self) -> &S
        ensures value { result.now ≡ self.now.select }
        ensures supports { S.supports result.now (BV.items self.now.content) }
    {
        &self.select
    }

    /// The strategy that selects 0 bits; it supports the bit vector.
    #[inline(always)]
    pub fn select0_support(&self) -> &S0
        ensures value { result.now ≡ self.now.select0 }
        ensures supports { S0.supports0 result.now (BV.items self.now.content) }
    {
        &self.select0
    }

    /// A source over the words and the tables, whose reads are counted from 0.
    #[inline(always)]
    pub fn probe(&self) -> Probe<'_>
        ensures words { result.lists.words ≡ BV.items self.now.content }
        ensures indexed { IsIndexed result.lists }
        ensures reads { result.reads ≡ none_read }
    {
        Probe::new(self.content().as_slice(), self.l1ranks(), self.l2ranks())
    }
}

impl<S: SelectForRank101111, S0: Select0ForRank101111, BV: AsSlice<u64>> HasBits
    for RankSelect101111<S, S0, BV> {
    ghost bits = { λ i. bits_of (BV.items i.content) };

    #[tactic(auto, using(bit_lists::proofs::BitLaws::bits_are_counted))]
    #[inline(always)]
    fn len(&self) -> usize {
        64 * self.content.as_slice().len()
    }
}

impl<S: SelectForRank101111, S0: Select0ForRank101111, BV: AsSlice<u64>> Rank
    for RankSelect101111<S, S0, BV> {
    #[inline(always)]
    fn try_rank(&self, index: usize) -> Option<usize> {
        rank_on(&mut self.probe(), index)
    }

    // Here and below the body of the trait's default is repeated: its `inline` does not carry over to an impl that uses
    // it.
    #[inline(always)]
    fn rank(&self, index: usize) -> usize {
        match self.try_rank(index) {
            Some(count) => count,
            None => unreachable!(),
        }
    }
}

impl<S: SelectForRank101111, S0: Select0ForRank101111, BV: AsSlice<u64>> Access
    for RankSelect101111<S, S0, BV> {
    #[inline(always)]
    fn try_get_bit(&self, position: usize) -> Option<bool> {
        bit_on(&mut self.probe(), position)
    }

    #[inline(always)]
    fn bit_and_rank(&self, position: usize) -> (bool, usize) {
        match bit_and_rank_on(&mut self.probe(), position) {
            Some(both) => both,
            None => unreachable!(),
        }
    }
}

impl<S: SelectForRank101111, S0: Select0ForRank101111, BV: AsSlice<u64>> Select
    for RankSelect101111<S, S0, BV> {
    #[inline(always)]
    fn try_select(&self, rank: usize) -> Option<usize> {
        let words = self.as_slice();
        self.select
            .select(words, self.l1ranks(), self.l2ranks(), rank)
    }

    #[inline(always)]
    fn select(&self, rank: usize) -> usize {
        match self.try_select(rank) {
            Some(position) => position,
            None => unreachable!(),
        }
    }
}

impl<S: SelectForRank101111, S0: Select0ForRank101111, BV: AsSlice<u64>> Select0
    for RankSelect101111<S, S0, BV> {
    #[inline(always)]
    fn try_select0(&self, rank: usize) -> Option<usize> {
        let words = self.as_slice();
        self.select0
            .select0(words, self.l1ranks(), self.l2ranks(), rank)
    }

    #[inline(always)]
    fn select0(&self, rank: usize) -> usize {
        match self.try_select0(rank) {
            Some(position) => position,
            None => unreachable!(),
        }
    }
}

impl<S: SelectForRank101111, S0: Select0ForRank101111, BV: AsSlice<u64>> AsSlice<u64>
    for RankSelect101111<S, S0, BV> {
    ghost items = { λ i. BV.items i.content };

    #[inline(always)]
    fn as_slice(&self) -> &[u64] {
        self.content.as_slice()
    }
}

impl<
    S: SelectForRank101111 + GetSize,
    S0: Select0ForRank101111 + GetSize,
    BV: AsSlice<u64> + GetSize,
> GetSize for RankSelect101111<S, S0, BV> {
    // the bit vector, eight bytes for each upper block and each lower block, and the two strategies
    ghost dyn_bytes = { λ i. let words = length (BV.items i.content) in saturated_size
        (BV.dyn_bytes i.content + 8 * div_ceil words (2 ^ 26) + 8 * div_ceil words 32
        + S.dyn_bytes i.select + S0.dyn_bytes i.select0) };

    const USES_DYN_MEM: bool = true;

    fn size_bytes_dyn(&self) -> usize {
        self.content
            .size_bytes_dyn()
            .saturating_add(self.tables.l1ranks.size_bytes_dyn())
            .saturating_add(self.tables.l2ranks.size_bytes_dyn())
            .saturating_add(self.select.size_bytes_dyn())
            .saturating_add(self.select0.size_bytes_dyn())
    }
}

impl<S: SelectForRank101111, S0: Select0ForRank101111, BV: CloneWords> RankSelect101111<S, S0, BV> {
    /// Builds an index over a copy of the words, with its own tables and strategies.
    ///
    /// # Errors
    /// `AllocError` if memory was refused; this index is unchanged.
    pub fn try_clone(&self, alloc: Global) -> Result<Self, AllocError>
        ensures { IfOk result (λ copy. BV.items copy.content ≡ BV.items self.now.content) }
    {
        let content = self.content.try_same(alloc)?;
        match RankSelect101111::build(alloc, content) {
            Ok((copy, _)) => Ok(copy),
            Err(_) => Err(AllocError),
        }
    }
}

/// An index over words that it owns, which selects 1 bits and 0 bits by binary search.
pub type ArrayWithRank101111 = RankSelect101111<
    BinaryRankSearch,
    BinaryRankSearch,
    BoxedSlice<u64, Global>,
>;
