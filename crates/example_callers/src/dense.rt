//! A set of numbers as bits: each member has a number of its own below their count, and is found by it.
//!
//! So rank is a minimal perfect hash of the members, which keeps their order, and selection is its inverse.
ghost use Rattle.std.specs.Prelude.{◌≡◌, ◌<◌, length, true};
ghost use Rattle.bitm.specs.Bits.{item};
ghost use Rattle.bitm.specs.Count.{ones_of, Picks};

use bitm::{Rank, Select};

/// The number of a member: how many members are less. No two members have one number, since one position is picked for
/// it.
///
/// # Conditions
/// The member is in the set.
#[tactic(auto, using(bitm::proofs::Callers::picked_by_its_rank))]
pub fn number_of<I: Rank>(set: &I, member: usize) -> usize
    requires inside { member < length (I.bits set.now) }
    requires member { item (I.bits set.now) member ≡ true }
    ensures { Picks (I.bits set.now) true result member }
{
    set.rank(member)
}

/// The member of a number.
///
/// # Conditions
/// There are more than `number` members.
pub fn member_of<I: Select>(set: &I, number: usize) -> usize
    requires { number < ones_of (I.bits set.now) }
    ensures { Picks (I.bits set.now) true number result }
{
    set.select(number)
}

/// The member of the number of a member: that member.
///
/// # Conditions
/// The member is in the set.
#[tactic(auto, using(bitm::proofs::Callers::one_below, bitm::proofs::BitLaws::at_most_one_picked))]
pub fn again<I: Rank + Select>(set: &I, member: usize) -> usize
    requires inside { member < length (I.bits set.now) }
    requires member { item (I.bits set.now) member ≡ true }
    ensures { result ≡ member }
{
    let number = number_of(set, member);
    member_of(set, number)
}
