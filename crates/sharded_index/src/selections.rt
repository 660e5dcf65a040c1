//! Selections of a list of ranks of the joined bits.
ghost use Rattle.std.specs.Prelude.{◌≡◌, ◌-◌, ◌^◌, ◌<◌, ◌≤◌, ◌↔◌, ℕ, IsTrue, false, length, map, slice_index};
ghost use Rattle.bitm_select.specs.Answers.{HasBit, IsSelected};
ghost use Rattle.bitm_view.specs.Queries.{selected_by};
ghost use Rattle.sharded_index.specs.Joined.{shard_at};
ghost use Rattle.sharded_index.specs.Prefixes.{claimed_in_all};
ghost use Rattle.sharded_index.specs.Sharded.{IfNoCode};
ghost use Rattle.sharded_index.specs.declared.counts.Kind.TheVariants.{Positions};

use crate::counts::{Kind, Location};
use crate::groups::{group, has_room, write_wrong};
use crate::shard::Shard;
use crate::sharded::{ShardedIndex, rank_kind};
use bitm_select::search::selected::{WRONG_TABLES, list_code};
use bitm_tables::answer::Answer;

impl<'a, S: Shard> ShardedIndex<'a, S> {
    ghost use Rattle.sharded_index.specs.Sharded.{AreShards, SelectedIn};

    /// The position of the bit with a rank, if that is where its shard has it; of a code, and else, `WRONG_TABLES`.
    #[inline(always)]
    fn settled_position(&self, one: bool, location: Location, rank: usize, code: usize) -> usize
        requires bit { HasBit (shard_at (map S.bits self.now.shards.now) location.shard) one
            (selected_by code) }
        requires selected { AreShards S.bits S.right self.now → IsSelected
            (shard_at (map S.bits self.now.shards.now) location.shard) one location.within
            (selected_by code) }
        ensures { IfNoCode (SelectedIn S.bits S.right self.now one rank) result }
    {
        if code >= WRONG_TABLES || !self.counts.has(rank_kind(one), rank, location) {
            return WRONG_TABLES;
        }
        match self.select_from(one, location, rank, code) {
            Answer::Found(position) => position,
            Answer::Absent => WRONG_TABLES,
            Answer::Wrong => WRONG_TABLES,
        }
    }

    /// Writes the positions of the bits with the ranks of a shard, each where its rank stands in the list.
    fn select_group(
        &self,
        one: bool,
        shard: usize,
        ranks: &[usize],
        order: &[usize],
        inside: &[usize],
        positions: &mut [usize],
        out: &mut [usize],
    )
        requires shard { shard < length self.now.shards.now }
        requires order { length order.now ≡ length inside.now }
        requires positions { length positions.old ≡ length inside.now }
        requires len { length out.old ≡ length ranks.now }
        requires claimed { (j : ℕ) → j < length ranks.now → IfNoCode
            (SelectedIn S.bits S.right self.now one (slice_index ranks.now j))
            (slice_index out.old j) }
        ensures len { length out.new ≡ length ranks.now }
        ensures claimed { (j : ℕ) → j < length ranks.now → IfNoCode
            (SelectedIn S.bits S.right self.now one (slice_index ranks.now j))
            (slice_index out.new j) }
    {
        self.shards[shard].select_list(one, inside, &mut *positions);
        for at in 0..order.len() {
            let to = order[at];
            if to < ranks.len() {
                let location = Location {
                    shard,
                    within: inside[at],
                };
                out[to] = self.settled_position(one, location, ranks[to], positions[at]);
            }
        }
    }

    /// Writes the positions of the bits with ranks in groups by shard.
    fn select_groups(
        &self,
        one: bool,
        ranks: &[usize],
        ends: &[usize],
        order: &[usize],
        inside: &[usize],
        positions: &mut [usize],
        out: &mut [usize],
    )
        requires ends { length self.now.shards.now ≤ length ends.now }
        requires order { length order.now ≡ length inside.now }
        requires positions { length inside.now ≤ length positions.old }
        requires len { length out.old ≡ length ranks.now }
        requires claimed { (j : ℕ) → j < length ranks.now → IfNoCode
            (SelectedIn S.bits S.right self.now one (slice_index ranks.now j))
            (slice_index out.old j) }
        ensures len { length out.new ≡ length ranks.now }
        ensures claimed { (j : ℕ) → j < length ranks.now → IfNoCode
            (SelectedIn S.bits S.right self.now one (slice_index ranks.now j))
            (slice_index out.new j) }
    {
        let mut from = 0;
        for shard in 0..self.shards.len() {
            let to = ends[shard];
            if from < to && to <= order.len() {
                self.select_group(
                    one,
                    shard,
                    ranks,
                    &order[from..to],
                    &inside[from..to],
                    &mut positions[from..to],
                    &mut *out,
                );
            }
            from = to;
        }
    }

    /// Writes the positions of the bits with ranks, in groups by shard where there is room; for the others
    /// `WRONG_TABLES`.
    fn select_grouped(&self, one: bool, ranks: &[usize], out: &mut [usize], room: &mut [usize])
        requires len { length out.old ≡ length ranks.now }
        ensures len { length out.new ≡ length ranks.now }
        ensures claimed { (j : ℕ) → j < length ranks.now → IfNoCode
            (SelectedIn S.bits S.right self.now one (slice_index ranks.now j))
            (slice_index out.new j) }
    {
        if !has_room(room.len(), self.shards.len(), ranks.len()) {
            write_wrong(out);
            return;
        }
        let (ends, rest) = room.split_at_mut(self.shards.len() + 1);
        let (order, more) = rest.split_at_mut(ranks.len());
        let (inside, positions) = more.split_at_mut(ranks.len());
        group(
            &self.counts,
            rank_kind(one),
            ranks,
            &mut *out,
            &mut *ends,
            &mut *order,
            &mut *inside,
        );
        write_wrong(&mut *out);
        self.select_groups(one, ranks, &*ends, &*order, &*inside, positions, out);
    }

    /// The code of a selection: a position, or the code of the rank asked by itself.
    #[inline(always)]
    fn select_code(&self, one: bool, rank: usize, code: usize) -> usize
        requires few { claimed_in_all Positions self.now.counts < 2 ^ 64 - 2 }
        requires claimed { IfNoCode (SelectedIn S.bits S.right self.now one rank) code }
        ensures { SelectedIn S.bits S.right self.now one rank (selected_by result) }
    {
        if code < WRONG_TABLES {
            return code;
        }
        list_code(self.select(one, rank))
    }

    /// Writes the position of the bit with each rank, as `select` answers it, by the codes of lists: `NO_ANSWER` for
    /// `Absent`, `WRONG_TABLES` for `Wrong`. Over prefix counts and tables that are wrong, another answer that `select`
    /// may give. Answers false exactly where there is not room for as many answers as ranks, or the prefix counts claim
    /// 2^64 - 2 bits or more, whose positions might be codes; nothing is written then.
    ///
    /// `room` is as for `rank_list`.
    ///
    /// # Cost
    /// The cost of `rank_list`, and likewise evident from the code alone.
    pub fn select_list(
        &self,
        one: bool,
        ranks: &[usize],
        out: &mut [usize],
        room: &mut [usize],
    ) -> bool
        ensures room { IsTrue result ↔ (length out.old ≡ length ranks.now)
            × (claimed_in_all Positions self.now.counts < 2 ^ 64 - 2) }
        ensures positions { IsTrue result → (j : ℕ) → j < length ranks.now
            → SelectedIn S.bits S.right self.now one (slice_index ranks.now j)
            (selected_by (slice_index out.new j)) }
        ensures kept { result ≡ false → out.new ≡ out.old }
    {
        if out.len() != ranks.len() || self.counts.total(Kind::Positions) >= WRONG_TABLES {
            return false;
        }
        self.select_grouped(one, ranks, &mut *out, room);
        self.select_rest(one, ranks, out);
        true
    }

    /// Answers each rank by itself and writes the code of its answer.
    fn select_rest(&self, one: bool, ranks: &[usize], out: &mut [usize])
        requires few { claimed_in_all Positions self.now.counts < 2 ^ 64 - 2 }
        requires len { length out.old ≡ length ranks.now }
        requires claimed { (j : ℕ) → j < length ranks.now → IfNoCode
            (SelectedIn S.bits S.right self.now one (slice_index ranks.now j))
            (slice_index out.old j) }
        ensures positions { (j : ℕ) → j < length ranks.now
            → SelectedIn S.bits S.right self.now one (slice_index ranks.now j)
            (selected_by (slice_index out.new j)) }
    {
        for at in 0..ranks.len() {
            out[at] = self.select_code(one, ranks[at], out[at]);
        }
    }
}
