//! Calls with conditions: the caller tests them first, or they hold as the call stands. A call that breaks one is
//! refused (`mutants/`).
ghost use Rattle.std.specs.Prelude.{◌≡◌, ◌<◌, true, count_ones, IfSome, IsSome};
ghost use Rattle.bitm.specs.Bits.{low_digits};
ghost use Rattle.bitm.specs.Count.{ones_of, IsRank, Picks};

use bitm::{Rank, select64};

/// The number of 1 bits among the first `position` bits, as `rank` answers it; `None` exactly where there are fewer
/// bits.
pub fn rank_if_inside<I: Rank>(index: &I, position: usize) -> Option<usize>
    ensures { IsRank (I.bits index.now) position result }
{
    if index.try_rank(position).is_some() {
        Some(index.rank(position))
    } else {
        None
    }
}

/// How many bits are 1: the rank at the exact length, which is the greatest index that `rank` takes.
pub fn rank_of_all<I: Rank>(index: &I) -> usize
    ensures { result ≡ ones_of (I.bits index.now) }
{
    index.rank(index.len())
}

/// The position of the 1 bit of a word with that rank; `None` where the word has no more 1 bits than that.
#[tactic(auto, using(bitm::proofs::Callers::ones_of_word))]
pub fn selected_in_word(word: u64, rank: u8) -> Option<u8>
    ensures picked { IfSome result (Picks (low_digits 64 word) true rank) }
    ensures some { rank < count_ones word → IsSome result }
{
    if (rank as u32) < word.count_ones() {
        Some(select64(word, rank))
    } else {
        None
    }
}
