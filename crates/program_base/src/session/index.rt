//! An index over a copy of the vector.
ghost use Rattle.std.specs.Prelude.{◌≡◌, ◌≤◌, length, IfOk, Some, true, false};
ghost use Rattle.std.specs.Box.{boxed_slice_items, boxed_slice_len};
ghost use Rattle.bitm.specs.Bits.{bits_of};
ghost use Rattle.bitm.specs.Count.{ones_before, IsRank, IsRank0};

use crate::session::answer::Answer;
use crate::session::command::Kind;
use bitm::{
    AdaptiveCombinedSamplingDensity, ArrayWithRank101111, ArrayWithRankSimple, CloneWords,
    CombinedSampling, Rank, RankSelect101111, RankSimple, Select, Select0,
};
use std::alloc::{AllocError, Global};
use std::boxed::BoxedSlice;

/// Samples for 1 bits and for 0 bits, at a density that adapts to how many there are.
type Samples = CombinedSampling<AdaptiveCombinedSamplingDensity<13>>;

type SampledIndex = RankSelect101111<Samples, Samples, BoxedSlice<u64, Global>>;

/// An index of one of the kinds.
#[derive(Drop)]
pub(crate) enum Index {
    Simple(ArrayWithRankSimple),
    Binary(ArrayWithRank101111),
    Sampled(SampledIndex),
}

ghost use Rattle.program_base.specs.Index.{indexed_words, kind_of_index};
ghost use Rattle.program_base.specs.Session.{IsPositionAnswer};

impl Index {
    /// An index over a copy of the words, and the number of 1 bits.
    pub(crate) fn build(
        alloc: Global,
        kind: Kind,
        words: &BoxedSlice<u64, Global>,
    ) -> Result<(Index, usize), AllocError>
        requires { boxed_slice_len words.now ≤ 65536 }
        ensures content { IfOk result (λ built.
            indexed_words built.0 ≡ boxed_slice_items words.now) }
        ensures kind { IfOk result (λ built. kind_of_index built.0 ≡ kind) }
        ensures total { IfOk result (λ built. built.1
            ≡ ones_before (bits_of (boxed_slice_items words.now))
            (length (bits_of (boxed_slice_items words.now)))) }
    {
        let copy = words.try_same(alloc)?;
        match kind {
            Kind::Simple => match RankSimple::build(alloc, copy) {
                Ok((rank, total)) => Ok((Index::Simple(rank), total as usize)),
                Err(_) => Err(AllocError),
            },
            Kind::Binary => match ArrayWithRank101111::build(alloc, copy) {
                Ok((index, total)) => Ok((Index::Binary(index), total)),
                Err(_) => Err(AllocError),
            },
            Kind::Sampled => match SampledIndex::build(alloc, copy) {
                Ok((index, ones)) => Ok((Index::Sampled(index), ones)),
                Err(_) => Err(AllocError),
            },
        }
    }

    /// How many of the first `index` bits are 1; `None` exactly where there are fewer bits.
    pub(crate) fn try_rank(&self, index: usize) -> Option<usize>
        ensures { IsRank (bits_of (indexed_words self.now)) index result }
    {
        match self {
            Index::Simple(rank) => Rank::try_rank(rank, index),
            Index::Binary(binary) => binary.try_rank(index),
            Index::Sampled(sampled) => sampled.try_rank(index),
        }
    }

    /// How many of the first `index` bits are 0; `None` exactly where there are fewer bits.
    pub(crate) fn try_rank0(&self, index: usize) -> Option<usize>
        ensures { IsRank0 (bits_of (indexed_words self.now)) index result }
    {
        match self {
            Index::Simple(rank) => rank.try_rank0(index),
            Index::Binary(binary) => binary.try_rank0(index),
            Index::Sampled(sampled) => sampled.try_rank0(index),
        }
    }

    /// The position of the 1 bit with `rank` 1 bits before it, if this kind of index selects.
    pub(crate) fn select(&self, rank: usize) -> Answer
        ensures { IsPositionAnswer (Some (kind_of_index self.now))
            (bits_of (indexed_words self.now)) true rank result }
    {
        match self {
            Index::Simple(_) => Answer::NotBuilt,
            Index::Binary(binary) => Answer::of_position(binary.try_select(rank)),
            Index::Sampled(sampled) => Answer::of_position(sampled.try_select(rank)),
        }
    }

    /// The position of the 0 bit with `rank` 0 bits before it, if this kind of index selects.
    pub(crate) fn select0(&self, rank: usize) -> Answer
        ensures { IsPositionAnswer (Some (kind_of_index self.now))
            (bits_of (indexed_words self.now)) false rank result }
    {
        match self {
            Index::Simple(_) => Answer::NotBuilt,
            Index::Binary(binary) => Answer::of_position(binary.try_select0(rank)),
            Index::Sampled(sampled) => Answer::of_position(sampled.try_select0(rank)),
        }
    }
}
