//! Laws of joined bits. A function here does nothing: its contract is the law, and a caller that wants it calls it.
ghost use Rattle.std.specs.Prelude.{All};
ghost use Rattle.sharded_index.specs.Laws.{ItemOfJoined, PickedInJoined, PrefixesAreSums, RankInJoined};
ghost use Rattle.sharded_index.specs.Sharded.{HaveIndex};

use crate::shard::Shard;

/// An item of a shard is one of the joined bits, after the bits of the shards before.
#[tactic(auto, using(crate::proofs::JoinedLaws::item_of_joined))]
pub fn item_of_joined()
    ensures { ItemOfJoined }
{}

/// The rank of a position of a shard, and the bits of the kind in the shards before, are its rank in the joined bits.
#[tactic(auto, using(crate::proofs::JoinedLaws::rank_in_joined))]
pub fn rank_in_joined()
    ensures { RankInJoined }
{}

/// A rank selects a position of a shard exactly where, with the count in the shards before added, it selects that
/// position of the joined bits.
pub fn picked_in_joined()
    ensures { PickedInJoined }
{}

/// The prefix sums of the shards' bits and 1 bits are their prefix counts, and no other numbers are.
#[tactic(auto, using(crate::proofs::JoinedLaws::prefixes_are_sums))]
pub fn prefixes_are_sums()
    ensures { PrefixesAreSums }
{}

/// Shards of any bits, each with the right tables, have prefix counts with which an index over them is right. None of
/// these counts exceeds the number of bits in all.
#[inline(always)]
pub fn shards_have_index<S: Shard>(shards: &[S])
    ensures { All S.right shards.now → HaveIndex S.bits S.right shards.now }
{
    let _ = shards;
}
