//! Several vectors of bits in one content, under one index: each is a stretch of it.
ghost use Rattle.std.specs.Prelude.{◌≡◌, ◌+◌, ◌<◌, ◌≤◌, length, true};
ghost use Rattle.bitm.specs.Bits.{item};
ghost use Rattle.bitm.specs.Count.{ones_before, Picks};
ghost use Rattle.bitm.specs.StretchLaws.{stretch};

use bitm::{Access, Rank, Select};

/// Bit `i` of the vector of `len` bits that begins at bit `begin`.
///
/// # Conditions
/// The vector is inside, and has more than `i` bits.
#[tactic(auto, using(bitm::proofs::BitLaws::item_of_stretch))]
pub fn bit_in<I: Access>(index: &I, begin: usize, len: usize, i: usize) -> bool
    requires inside { begin + len ≤ length (I.bits index.now) }
    requires position { i < len }
    ensures { result ≡ item (stretch (I.bits index.now) begin len) i }
{
    // The number of all bits fits, so the positions of the vector do.
    let _len = index.len();
    index.get_bit(begin + i)
}

/// How many of the first `i` bits of the vector of `len` bits that begins at bit `begin` are ones.
///
/// # Conditions
/// The vector is inside, and has no fewer than `i` bits.
pub fn rank_in<I: Access>(index: &I, begin: usize, len: usize, i: usize) -> usize
    requires inside { begin + len ≤ length (I.bits index.now) }
    requires position { i ≤ len }
    ensures { result ≡ ones_before (stretch (I.bits index.now) begin len) i }
{
    let _len = index.len();
    let (before, up_to) = index.rank_pair(begin, begin + i);
    up_to - before
}

/// The position, in the bit vector of `len` bits from bit `begin` on, of its 1 bit with rank `rank`.
///
/// # Conditions
/// The vector is inside, and has more than `rank` ones.
pub fn select_in<I: Rank + Select>(index: &I, begin: usize, len: usize, rank: usize) -> usize
    requires inside { begin + len ≤ length (I.bits index.now) }
    requires some { rank < ones_before (stretch (I.bits index.now) begin len) len }
    ensures { Picks (stretch (I.bits index.now) begin len) true rank result }
{
    let _len = index.len();
    index.select(index.rank(begin) + rank) - begin
}
