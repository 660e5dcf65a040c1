//! Many queries at once, with their condition tested first.
ghost use Rattle.std.specs.Prelude.{◌≡◌, ◌<◌, ◌≤◌, ◌↔◌, true, false, All, IsTrue, length};
ghost use Rattle.bitm.specs.Bits.{bits_of};
ghost use Rattle.bitm.specs.Count.{ones_of, zeros_of};
ghost use Rattle.bitm.specs.Many.{PicksEach, RanksEach};

use bitm::{Rank, RankSelect101111, Select0ForRank101111, SelectForRank101111};

/// Whether each rank is below a number of ones.
pub fn all_below(ranks: &[usize], ones: usize) -> bool
    ensures { IsTrue result ↔ All (λ r. r < ones) ranks.now }
{
    for rank in ranks {
        if *rank >= ones {
            return false;
        }
    }
    true
}

/// Writes the positions of the 1 bits with these ranks, and returns whether each rank has such a bit; where some rank
/// has none, `positions` keeps its values.
#[tactic(auto, using(bitm::proofs::BitLaws::bits_are_counted))]
pub fn try_select_many<S: SelectForRank101111, S0: Select0ForRank101111>(
    index: &RankSelect101111<S, S0, &[u64]>,
    ranks: &[usize],
    positions: &mut [usize],
) -> bool
    requires { length ranks.now ≡ length positions.old }
    ensures all { IsTrue result ↔ All (λ r. r < ones_of (bits_of index.now.content.now)) ranks.now }
    ensures picked { IsTrue result → PicksEach (bits_of index.now.content.now) true ranks.now positions.new }
{
    let ones = index.rank(64 * index.content().len());
    let all = all_below(ranks, ones);
    if all {
        index.select_many(ranks, positions);
    }
    all
}

/// Writes the positions of the 0 bits with these ranks, and returns whether each rank has such a bit; where some rank
/// has none, `positions` keeps its values.
#[tactic(auto, using(bitm::proofs::BitLaws::bits_are_counted))]
pub fn try_select0_many<S: SelectForRank101111, S0: Select0ForRank101111>(
    index: &RankSelect101111<S, S0, &[u64]>,
    ranks: &[usize],
    positions: &mut [usize],
) -> bool
    requires { length ranks.now ≡ length positions.old }
    ensures all { IsTrue result ↔ All (λ r. r < zeros_of (bits_of index.now.content.now)) ranks.now }
    ensures picked { IsTrue result → PicksEach (bits_of index.now.content.now) false ranks.now positions.new }
{
    let zeros = index.rank0(64 * index.content().len());
    let each = all_below(ranks, zeros);
    if each {
        index.select0_many(ranks, positions);
    }
    each
}

/// Writes for each index the number of 1 bits among that many first bits, and returns whether there are that many bits
/// for each index; where there are fewer for some index, `ranks` keeps its values.
#[tactic(auto, using(bitm::proofs::BitLaws::bits_are_counted))]
pub fn try_rank_many<S: SelectForRank101111, S0: Select0ForRank101111>(
    index: &RankSelect101111<S, S0, &[u64]>,
    indices: &[usize],
    ranks: &mut [usize],
) -> bool
    requires { length indices.now ≡ length ranks.old }
    ensures all { IsTrue result ↔ All (λ i. i ≤ length (bits_of index.now.content.now)) indices.now }
    ensures ranked { IsTrue result → RanksEach (bits_of index.now.content.now) indices.now ranks.new }
{
    let bits = 64 * index.content().len();
    let inside = all_below(indices, bits + 1);
    if inside {
        index.rank_many(indices, ranks);
    }
    inside
}
