//! Rank and selection undo each other, in code that is generic over the index.
ghost use Rattle.std.specs.Prelude.{◌≡◌, ◌-◌, ◌<◌, ◌≤◌, length, true, false};
ghost use Rattle.bitm.specs.Bits.{item};
ghost use Rattle.bitm.specs.Count.{ones_of, zeros_of};

use bitm::{Rank, Select, Select0};

/// The number of 1 bits before the 1 bit of this rank: the rank.
///
/// # Conditions
/// There are more than `rank` ones.
pub fn rank_of_selected<I: Rank + Select>(index: &I, rank: usize) -> usize
    requires { rank < ones_of (I.bits index.now) }
    ensures { result ≡ rank }
{
    index.rank(index.select(rank))
}

/// The number of 0 bits before the 0 bit of this rank: the rank.
///
/// # Conditions
/// There are more than `rank` zeros.
pub fn rank0_of_selected<I: Rank + Select0>(index: &I, rank: usize) -> usize
    requires { rank < zeros_of (I.bits index.now) }
    ensures { result ≡ rank }
{
    index.rank0(index.select0(rank))
}

/// The one selected by the rank of a one: that one.
///
/// # Conditions
/// There is a one at `position`.
pub fn select_of_rank<I: Rank + Select>(index: &I, position: usize) -> usize
    requires inside { position < length (I.bits index.now) }
    requires one { item (I.bits index.now) position ≡ true }
    ensures { result ≡ position }
{
    index.select(index.rank(position))
}

/// The zero selected by the rank of a zero: that zero.
///
/// # Conditions
/// There is a zero at `position`.
pub fn select0_of_rank<I: Rank + Select0>(index: &I, position: usize) -> usize
    requires inside { position < length (I.bits index.now) }
    requires zero { item (I.bits index.now) position ≡ false }
    ensures { result ≡ position }
{
    index.select0(index.rank0(position))
}

/// The number of 1 bits and 0 bits among the first `index` bits: together `index`, at the exact length too.
///
/// # Conditions
/// There are at least `index` bits.
#[tactic(auto, using(bitm::proofs::BitLaws::ones_and_zeros))]
pub fn ranks_add_up<I: Rank>(bits: &I, index: usize) -> usize
    requires { index ≤ length (I.bits bits.now) }
    ensures { result ≡ index }
{
    bits.rank(index) + bits.rank0(index)
}

/// The number of 1 bits from the 1 bit of this rank on, itself included.
///
/// # Conditions
/// There are more than `rank` ones.
pub fn ones_from<I: Rank + Select>(index: &I, rank: usize, total: usize) -> usize
    requires some { rank < total }
    requires total { total ≡ ones_of (I.bits index.now) }
    ensures { result ≡ total - rank }
{
    total - rank_of_selected(index, rank)
}
