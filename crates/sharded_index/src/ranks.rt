//! Ranks of a list of positions of the joined bits.
ghost use Rattle.std.specs.Prelude.{◌≡◌, ◌-◌, ◌^◌, ◌<◌, ◌≤◌, ◌↔◌, ℕ, IsTrue, false, length, map, slice_index};
ghost use Rattle.bitm_view.specs.Queries.{ranked_by};
ghost use Rattle.tables_view.specs.Ranks.{IsRanked};
ghost use Rattle.sharded_index.specs.Joined.{shard_at};
ghost use Rattle.sharded_index.specs.Prefixes.{claimed_in_all};
ghost use Rattle.sharded_index.specs.Sharded.{IfNoCode};
ghost use Rattle.sharded_index.specs.declared.counts.Kind.TheVariants.{Positions};

use crate::counts::{Kind, Location};
use crate::groups::{group, has_room, write_wrong};
use crate::shard::Shard;
use crate::sharded::ShardedIndex;
use bitm_select::search::selected::{WRONG_TABLES, list_code};
use bitm_tables::answer::Answer;

impl<'a, S: Shard> ShardedIndex<'a, S> {
    ghost use Rattle.sharded_index.specs.Sharded.{AreShards, RankedIn};

    /// The rank of a position, if that is where its shard has it; of a code, and else, `WRONG_TABLES`.
    #[inline(always)]
    fn settled_rank(&self, one: bool, location: Location, position: usize, code: usize) -> usize
        requires { AreShards S.bits S.right self.now → IsRanked
            (shard_at (map S.bits self.now.shards.now) location.shard) one location.within
            (ranked_by code) }
        ensures { IfNoCode (RankedIn S.bits S.right self.now one position) result }
    {
        if code >= WRONG_TABLES || !self.counts.has(Kind::Positions, position, location) {
            return WRONG_TABLES;
        }
        match self.rank_from(one, location, position, code) {
            Answer::Found(rank) => rank,
            Answer::Absent => WRONG_TABLES,
            Answer::Wrong => WRONG_TABLES,
        }
    }

    /// Writes the ranks of the positions of a shard, each where its position stands in the list.
    fn rank_group(
        &self,
        one: bool,
        shard: usize,
        positions: &[usize],
        order: &[usize],
        inside: &[usize],
        ranks: &mut [usize],
        out: &mut [usize],
    )
        requires shard { shard < length self.now.shards.now }
        requires order { length order.now ≡ length inside.now }
        requires ranks { length ranks.old ≡ length inside.now }
        requires len { length out.old ≡ length positions.now }
        requires claimed { (j : ℕ) → j < length positions.now → IfNoCode
            (RankedIn S.bits S.right self.now one (slice_index positions.now j))
            (slice_index out.old j) }
        ensures len { length out.new ≡ length positions.now }
        ensures claimed { (j : ℕ) → j < length positions.now → IfNoCode
            (RankedIn S.bits S.right self.now one (slice_index positions.now j))
            (slice_index out.new j) }
    {
        self.shards[shard].rank_list(one, inside, &mut *ranks);
        for at in 0..order.len() {
            let to = order[at];
            if to < positions.len() {
                let location = Location {
                    shard,
                    within: inside[at],
                };
                out[to] = self.settled_rank(one, location, positions[to], ranks[at]);
            }
        }
    }

    /// Writes the ranks of positions in groups by shard.
    fn rank_groups(
        &self,
        one: bool,
        positions: &[usize],
        ends: &[usize],
        order: &[usize],
        inside: &[usize],
        ranks: &mut [usize],
        out: &mut [usize],
    )
        requires ends { length self.now.shards.now ≤ length ends.now }
        requires order { length order.now ≡ length inside.now }
        requires ranks { length inside.now ≤ length ranks.old }
        requires len { length out.old ≡ length positions.now }
        requires claimed { (j : ℕ) → j < length positions.now → IfNoCode
            (RankedIn S.bits S.right self.now one (slice_index positions.now j))
            (slice_index out.old j) }
        ensures len { length out.new ≡ length positions.now }
        ensures claimed { (j : ℕ) → j < length positions.now → IfNoCode
            (RankedIn S.bits S.right self.now one (slice_index positions.now j))
            (slice_index out.new j) }
    {
        let mut from = 0;
        for shard in 0..self.shards.len() {
            let to = ends[shard];
            if from < to && to <= order.len() {
                self.rank_group(
                    one,
                    shard,
                    positions,
                    &order[from..to],
                    &inside[from..to],
                    &mut ranks[from..to],
                    &mut *out,
                );
            }
            from = to;
        }
    }

    /// Writes the ranks of positions, in groups by shard where there is room; for the others `WRONG_TABLES`.
    fn rank_grouped(&self, one: bool, positions: &[usize], out: &mut [usize], room: &mut [usize])
        requires len { length out.old ≡ length positions.now }
        ensures len { length out.new ≡ length positions.now }
        ensures claimed { (j : ℕ) → j < length positions.now → IfNoCode
            (RankedIn S.bits S.right self.now one (slice_index positions.now j))
            (slice_index out.new j) }
    {
        if !has_room(room.len(), self.shards.len(), positions.len()) {
            write_wrong(out);
            return;
        }
        let (ends, rest) = room.split_at_mut(self.shards.len() + 1);
        let (order, more) = rest.split_at_mut(positions.len());
        let (inside, ranks) = more.split_at_mut(positions.len());
        group(
            &self.counts,
            Kind::Positions,
            positions,
            &mut *out,
            &mut *ends,
            &mut *order,
            &mut *inside,
        );
        write_wrong(&mut *out);
        self.rank_groups(one, positions, &*ends, &*order, &*inside, ranks, out);
    }

    /// The code of a rank: the given code where it is a rank; else the code of what `rank` answers.
    #[inline(always)]
    fn rank_code(&self, one: bool, position: usize, code: usize) -> usize
        requires few { claimed_in_all Positions self.now.counts < 2 ^ 64 - 2 }
        requires claimed { IfNoCode (RankedIn S.bits S.right self.now one position) code }
        ensures { RankedIn S.bits S.right self.now one position (ranked_by result) }
    {
        if code < WRONG_TABLES {
            return code;
        }
        list_code(self.rank(one, position))
    }

    /// Writes the rank of each position, as `rank` answers it, by the codes of lists: `NO_ANSWER` for `Absent`,
    /// `WRONG_TABLES` for `Wrong`. Over prefix counts and tables that are wrong, another answer that `rank` may give.
    /// Answers false exactly where there is not room for as many answers as positions, or the prefix counts claim
    /// 2^64 - 2 bits or more, whose ranks might be codes; nothing is written then.
    ///
    /// `room` may be of any length and hold anything. Three numbers for each position and one for each shard, and one
    /// more, let the positions be grouped by shard; with less, each position is answered by itself. What `room` holds
    /// afterwards means nothing.
    ///
    /// # Cost
    /// Evident from the code, and no clause: with that room, and right prefix counts and tables, each shard with
    /// positions in it answers them with one list, and none by itself. The shard of a position is guessed from the
    /// number of shards: two prefix counts where each has as many bits, and else the ones that `PrefixCounts::find`
    /// reads too.
    pub fn rank_list(
        &self,
        one: bool,
        positions: &[usize],
        out: &mut [usize],
        room: &mut [usize],
    ) -> bool
        ensures room { IsTrue result ↔ (length out.old ≡ length positions.now)
            × (claimed_in_all Positions self.now.counts < 2 ^ 64 - 2) }
        ensures ranks { IsTrue result → (j : ℕ) → j < length positions.now
            → RankedIn S.bits S.right self.now one (slice_index positions.now j)
            (ranked_by (slice_index out.new j)) }
        ensures kept { result ≡ false → out.new ≡ out.old }
    {
        if out.len() != positions.len() || self.counts.total(Kind::Positions) >= WRONG_TABLES {
            return false;
        }
        self.rank_grouped(one, positions, &mut *out, room);
        self.rank_rest(one, positions, out);
        true
    }

    /// Answers each position by itself and writes the code of its answer.
    fn rank_rest(&self, one: bool, positions: &[usize], out: &mut [usize])
        requires few { claimed_in_all Positions self.now.counts < 2 ^ 64 - 2 }
        requires len { length out.old ≡ length positions.now }
        requires claimed { (j : ℕ) → j < length positions.now → IfNoCode
            (RankedIn S.bits S.right self.now one (slice_index positions.now j))
            (slice_index out.old j) }
        ensures ranks { (j : ℕ) → j < length positions.now
            → RankedIn S.bits S.right self.now one (slice_index positions.now j)
            (ranked_by (slice_index out.new j)) }
    {
        for at in 0..positions.len() {
            out[at] = self.rank_code(one, positions[at], out[at]);
        }
    }
}
