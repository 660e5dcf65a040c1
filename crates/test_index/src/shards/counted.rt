//! How many lists and single queries each shard is queried: no clause says it.
use crate::shards::made::{Made, before, shards, views};
use bitm_view::{Answer, IndexView};
use sharded_index::{PrefixCounts, Shard, ShardedIndex};
use std::alloc::Global;
use std::cell::Cell;
use std::process::Abort;
use std::test::Fail;

/// A shard that counts the calls.
#[derive(Drop)]
struct Counting<'a> {
    view: IndexView<'a>,
    lists: Cell<usize>,
    singles: Cell<usize>,
}

/// One call more.
fn count(calls: &Cell<usize>) {
    calls.set(calls.get().wrapping_add(1));
}

impl<'a> Shard for Counting<'a> {
    ghost use Rattle.bitm_view.specs.Cut.{bits_of_cut};
    ghost use Rattle.bitm_view.specs.Tables.{HasTables};

    ghost bits = { λ c. bits_of_cut c.view };

    ghost right = { λ c. HasTables c.view.lists };

    fn rank(&self, one: bool, index: usize) -> Answer<usize> {
        count(&self.singles);
        self.view.rank_of(one, index)
    }

    fn select(&self, one: bool, rank: usize) -> Answer<usize> {
        count(&self.singles);
        Shard::select(&self.view, one, rank)
    }

    fn rank_list(&self, one: bool, positions: &[usize], out: &mut [usize]) {
        count(&self.lists);
        Shard::rank_list(&self.view, one, positions, out)
    }

    fn select_list(&self, one: bool, ranks: &[usize], out: &mut [usize]) {
        count(&self.lists);
        Shard::select_list(&self.view, one, ranks, out)
    }
}

/// A number for each.
fn numbers(alloc: Global, len: usize, step: usize, below: usize) -> Result<Vec<usize>, Fail> {
    let mut made = Vec::new(alloc);
    for at in 0..len {
        made.push(at.wrapping_mul(step) % below.max(1))?;
    }
    Ok(made)
}

/// The lists and the single queries of each shard so far.
fn asked(shards: &[Counting<'_>], want: &[(usize, usize)]) -> bool {
    let mut is_so = shards.len() == want.len();
    for at in 0..shards.len().min(want.len()) {
        is_so &= (shards[at].lists.get(), shards[at].singles.get()) == want[at];
    }
    is_so
}

/// The shards, which have counted no call yet.
fn uncalled<'a>(alloc: Global, made: &'a [Made]) -> Result<Vec<Counting<'a>>, Fail> {
    let mut all = Vec::new(alloc);
    for view in views(alloc, made)? {
        all.push(Counting {
            view,
            lists: Cell::new(0),
            singles: Cell::new(0),
        })?;
    }
    Ok(all)
}

/// Whether a list of ranks, and then one of selections, is one list for each shard that has some of them.
fn are_lists(alloc: Global, made: &[Made], below: usize) -> Result<bool, Fail> {
    let (lens, ones) = (before(alloc, made, false)?, before(alloc, made, true)?);
    let shards = uncalled(alloc, made)?;
    let Some(counts) = PrefixCounts::over(lens.as_slice(), ones.as_slice()) else {
        return Ok(false);
    };
    if counts.shards() != shards.len() {
        return Ok(false);
    }
    let index = ShardedIndex {
        counts,
        shards: shards.as_slice(),
    };
    let queries = numbers(alloc, 3000, 911, below)?;
    let mut out = numbers(alloc, 3000, 1, 1)?;
    let mut room = numbers(alloc, 9005, 1, 1)?;
    let ranked = index.rank_list(
        true,
        queries.as_slice(),
        out.as_mut_slice(),
        room.as_mut_slice(),
    );
    let of_ranks = asked(shards.as_slice(), &[(1, 0), (0, 0), (1, 0), (1, 0)]);
    let ranks = numbers(alloc, 3000, 7, 100)?;
    let selected = index.select_list(
        true,
        ranks.as_slice(),
        out.as_mut_slice(),
        room.as_mut_slice(),
    );
    let of_both = asked(shards.as_slice(), &[(2, 0), (0, 0), (1, 0), (1, 0)]);
    Ok(ranked && of_ranks && selected && of_both)
}

#[test]
fn each_shard_with_queries_is_asked_one_list_and_no_query_by_itself(
    rt: HostRuntime,
) -> Result<(), Fail> {
    let made = shards(rt.alloc(), &[700, 0, 300, 1000], 0)?;
    // 911 and 2000 have no common divisor: each of the 2000 positions is in the list, in a mixed order
    assert!(rt; are_lists(rt.alloc(), made.as_slice(), 2000)?);
    Ok(())
}
