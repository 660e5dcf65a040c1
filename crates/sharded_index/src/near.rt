//! The nearest bit of a kind on either side of a position of the joined bits: a rank and a selection.
ghost use Rattle.std.specs.Prelude.{◌≡◌, ◌+◌, map};
ghost use Rattle.bitm_select.specs.Answers.{IsFoundFrom};
ghost use Rattle.tables_view.specs.Nearest.{IsNext, IsPrevious};
ghost use Rattle.sharded_index.specs.Joined.{joined};
ghost use Rattle.sharded_index.specs.Prefixes.{claimed_in_all};
ghost use Rattle.sharded_index.specs.Shards.{IfFoundHasBit};
ghost use Rattle.sharded_index.specs.declared.counts.Kind.TheVariants.{Positions};

use crate::counts::Kind;
use crate::shard::Shard;
use crate::sharded::ShardedIndex;
use bitm_tables::answer::Answer;
use tables_view::{only_before, only_from};

impl<'a, S: Shard> ShardedIndex<'a, S> {
    ghost use Rattle.sharded_index.specs.Sharded.{AreShards};

    /// The least position from `from` on that has a 1 bit, or a 0 bit.
    ///
    /// Whatever the prefix counts and tables hold, a position that is found is one of the claimed bits, not before
    /// `from`, and in some shard has such a bit. Where they are right it is the least one, `Absent` is answered exactly
    /// where there is none, and `Wrong` never.
    ///
    /// # Cost
    /// The cost of `rank` and `select`, so of two shards at most: evident from the code.
    pub fn next(&self, one: bool, from: usize) -> Answer<usize>
        ensures bit { IfFoundHasBit one (map S.bits self.now.shards.now) self.now.counts result }
        ensures from { IsFoundFrom from (claimed_in_all Positions self.now.counts) result }
        ensures counts { AreShards S.bits S.right self.now
            → IsNext (joined (map S.bits self.now.shards.now)) one from result }
    {
        if from >= self.counts.total(Kind::Positions) {
            return Answer::Absent;
        }
        match self.rank(one, from) {
            Answer::Found(rank) => only_from(self.select(one, rank), from),
            Answer::Absent => Answer::Absent,
            Answer::Wrong => Answer::Wrong,
        }
    }

    /// The greatest position up to `from` that has a 1 bit, or a 0 bit; `from` may be past the end.
    ///
    /// Whatever the prefix counts and tables hold, a position that is found is one of the claimed bits, not after
    /// `from`, and in some shard has such a bit. Where they are right it is the greatest one, `Absent` is answered
    /// exactly where there is none, and `Wrong` never.
    ///
    /// # Cost
    /// The cost of `rank` and `select`, so of two shards at most: evident from the code.
    pub fn previous(&self, one: bool, from: usize) -> Answer<usize>
        ensures bit { IfFoundHasBit one (map S.bits self.now.shards.now) self.now.counts result }
        ensures to { IsFoundFrom 0 (from + 1) result }
        ensures counts { AreShards S.bits S.right self.now
            → IsPrevious (joined (map S.bits self.now.shards.now)) one from result }
    {
        let total = self.counts.total(Kind::Positions);
        let end = if from < total { from + 1 } else { total };
        match self.rank(one, end) {
            Answer::Found(ranks) => {
                if ranks == 0 {
                    Answer::Absent
                } else {
                    only_before(self.select(one, ranks - 1), end)
                }
            }
            Answer::Absent => Answer::Wrong,
            Answer::Wrong => Answer::Wrong,
        }
    }
}
