//! Several indexes asked as one.
ghost use Rattle.std.specs.Prelude.{◌≡◌, ◌+◌, ◌<◌, ◌≤◌, Bool, List, MatchOption, length, map};
ghost use Rattle.bit_lists.specs.Count.{count_before, Picks};
ghost use Rattle.bitm_select.specs.Answers.{HasBit, IsSelected};
ghost use Rattle.tables_view.specs.Ranks.{IsCountWithin, IsRanked};
ghost use Rattle.sharded_index.specs.Joined.{joined, kind_of, shard_at};
ghost use Rattle.sharded_index.specs.Prefixes.{claimed_in_all, IsClaimed};
ghost use Rattle.sharded_index.specs.Shards.{IfFoundHasBit, IsOfRank};
ghost use Rattle.bitm_tables.specs.declared.answer.Answer.{Answer};
ghost use Rattle.bitm_tables.specs.declared.answer.Answer.TheVariants.{Found};
ghost use Rattle.sharded_index.specs.declared.counts.Kind.TheVariants.{Positions};

use crate::counts::{Kind, Location, PrefixCounts};
use crate::shard::Shard;
use bitm_tables::answer::Answer;

/// Shards, one after the other, and their prefix counts: the joined bits are ranked and selected as the bits of one
/// index.
#[derive(Drop)]
pub struct ShardedIndex<'a, S> {
    /// How many bits, and 1 bits, there are before each shard.
    pub counts: PrefixCounts<'a>,
    /// The shards.
    pub shards: &'a [S],
    ghost as_many: { length counts.bits ≡ length shards.now + 1 },
}

/// The kind of number by which 1 bits, or 0 bits, are ranked.
#[inline(always)]
pub(crate) fn rank_kind(one: bool) -> Kind
    ensures { result ≡ kind_of one }
{
    if one { Kind::Ones } else { Kind::Zeros }
}

/// A sum that fits and is at most a number; else the prefix counts are wrong.
#[inline(always)]
fn at_most(sum: Option<usize>, most: usize) -> Answer<usize>
    ensures { MatchOption sum (result ≡ Answer.Wrong)
        (λ n. (n ≤ most → result ≡ Answer.Found n) × (most < n → result ≡ Answer.Wrong)) }
{
    match sum {
        Some(number) => {
            if number <= most {
                Answer::Found(number)
            } else {
                Answer::Wrong
            }
        }
        None => Answer::Wrong,
    }
}

/// A sum that fits and is less than a number; else the prefix counts are wrong.
#[inline(always)]
fn below(sum: Option<usize>, end: usize) -> Answer<usize>
    ensures { MatchOption sum (result ≡ Answer.Wrong)
        (λ n. (n < end → result ≡ Answer.Found n) × (end ≤ n → result ≡ Answer.Wrong)) }
{
    match sum {
        Some(number) => {
            if number < end {
                Answer::Found(number)
            } else {
                Answer::Wrong
            }
        }
        None => Answer::Wrong,
    }
}

impl<'a, S: Shard> ShardedIndex<'a, S> {
    ghost use Rattle.sharded_index.specs.Sharded.{AreShards};

    /// How many of the first `index` bits are 1 bits, or 0 bits.
    ///
    /// Whatever the prefix counts and tables hold, `Absent` is answered exactly where the prefix counts claim fewer
    /// bits, and a count is at most `index`. Where they are right it is the right one, and `Wrong` is never answered.
    ///
    /// # Cost
    /// The cost of `PrefixCounts::find` and of a rank in one shard; of a rank of all bits, two prefix counts. Evident
    /// from the code.
    pub fn rank(&self, one: bool, index: usize) -> Answer<usize>
        ensures within { IsCountWithin (claimed_in_all Positions self.now.counts) index result }
        ensures counts { AreShards S.bits S.right self.now
            → IsRanked (joined (map S.bits self.now.shards.now)) one index result }
    {
        if index == self.counts.total(Kind::Positions) {
            return at_most(Some(self.counts.total(rank_kind(one))), index);
        }
        match self.counts.find(Kind::Positions, index) {
            Answer::Found(location) => self.rank_at(one, location, index),
            Answer::Absent => Answer::Absent,
            Answer::Wrong => Answer::Wrong,
        }
    }

    /// The rank of a position that lies in a shard.
    fn rank_at(&self, one: bool, location: Location, index: usize) -> Answer<usize>
        requires claimed { IsClaimed Positions self.now.counts index location }
        requires inside { index < claimed_in_all Positions self.now.counts }
        ensures within { IsCountWithin (claimed_in_all Positions self.now.counts) index result }
        ensures counts { AreShards S.bits S.right self.now
            → IsRanked (joined (map S.bits self.now.shards.now)) one index result }
    {
        match self.shards[location.shard].rank(one, location.within) {
            Answer::Found(rank) => self.rank_from(one, location, index, rank),
            Answer::Absent => Answer::Wrong,
            Answer::Wrong => Answer::Wrong,
        }
    }

    /// The rank of a position that lies in a shard, where its rank there is known.
    #[inline(always)]
    pub(crate) fn rank_from(
        &self,
        one: bool,
        location: Location,
        index: usize,
        rank: usize,
    ) -> Answer<usize>
        requires claimed { IsClaimed Positions self.now.counts index location }
        requires inside { index < claimed_in_all Positions self.now.counts }
        requires ranked { AreShards S.bits S.right self.now → rank
            ≡ count_before (shard_at (map S.bits self.now.shards.now) location.shard) one location.within }
        ensures within { IsCountWithin (claimed_in_all Positions self.now.counts) index result }
        ensures counts { AreShards S.bits S.right self.now
            → IsRanked (joined (map S.bits self.now.shards.now)) one index result }
    {
        let before = self.counts.before(rank_kind(one), location.shard);
        at_most(before.checked_add(rank), index)
    }

    /// The position of the 1 bit, or 0 bit, with rank `rank`.
    ///
    /// Whatever the prefix counts and tables hold, `Absent` is answered exactly where the prefix counts claim no more
    /// such bits, and a position that is found is one of the claimed bits and, in some shard, has such a bit. Where
    /// they are right it is the right one, and `Wrong` is never answered.
    ///
    /// # Cost
    /// The cost of `PrefixCounts::find` and of a selection in one shard: evident from the code.
    pub fn select(&self, one: bool, rank: usize) -> Answer<usize>
        ensures bit { IfFoundHasBit one (map S.bits self.now.shards.now) self.now.counts result }
        ensures absent { IsOfRank (claimed_in_all (kind_of one) self.now.counts) rank result }
        ensures counts { AreShards S.bits S.right self.now
            → IsSelected (joined (map S.bits self.now.shards.now)) one rank result }
    {
        match self.counts.find(rank_kind(one), rank) {
            Answer::Found(location) => self.select_at(one, location, rank),
            Answer::Absent => Answer::Absent,
            Answer::Wrong => Answer::Wrong,
        }
    }

    /// The position of the bit with a rank that lies in a shard.
    fn select_at(&self, one: bool, location: Location, rank: usize) -> Answer<usize>
        requires claimed { IsClaimed (kind_of one) self.now.counts rank location }
        requires inside { rank < claimed_in_all (kind_of one) self.now.counts }
        ensures bit { IfFoundHasBit one (map S.bits self.now.shards.now) self.now.counts result }
        ensures absent { IsOfRank (claimed_in_all (kind_of one) self.now.counts) rank result }
        ensures counts { AreShards S.bits S.right self.now
            → IsSelected (joined (map S.bits self.now.shards.now)) one rank result }
    {
        match self.shards[location.shard].select(one, location.within) {
            Answer::Found(position) => self.select_from(one, location, rank, position),
            Answer::Absent => Answer::Wrong,
            Answer::Wrong => Answer::Wrong,
        }
    }

    /// The position of the bit with a rank that lies in a shard, where its position there is known.
    #[inline(always)]
    pub(crate) fn select_from(
        &self,
        one: bool,
        location: Location,
        rank: usize,
        position: usize,
    ) -> Answer<usize>
        requires claimed { IsClaimed (kind_of one) self.now.counts rank location }
        requires inside { rank < claimed_in_all (kind_of one) self.now.counts }
        requires bit { HasBit (shard_at (map S.bits self.now.shards.now) location.shard) one
            (Found position) }
        requires picked { AreShards S.bits S.right self.now → Picks
            (shard_at (map S.bits self.now.shards.now) location.shard) one location.within position }
        ensures bit { IfFoundHasBit one (map S.bits self.now.shards.now) self.now.counts result }
        ensures absent { IsOfRank (claimed_in_all (kind_of one) self.now.counts) rank result }
        ensures counts { AreShards S.bits S.right self.now
            → IsSelected (joined (map S.bits self.now.shards.now)) one rank result }
    {
        let before = self.counts.before(Kind::Positions, location.shard);
        below(
            before.checked_add(position),
            self.counts.total(Kind::Positions),
        )
    }
}
