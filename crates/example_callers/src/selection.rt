//! A call that selects in any way: over a source with its reads counted, or by an index's own strategies. And a way of
//! a client's own.
ghost use Rattle.std.specs.Prelude.{◌≡◌, ◌+◌, ◌*◌, ◌<◌, ℕ, true, length, slice_index};
ghost use Rattle.bitm.specs.Bits.{bits_of};
ghost use Rattle.bitm.specs.Count.{ones_of, Picks};
ghost use Rattle.bitm.specs.Tables.{bits_in, IsIndexed};
ghost use Rattle.bitm_selection.specs.Selection.{by_halves, OnlySelectsBy};

use bitm::{
    Answer, RankSelect101111, Select0ForRank101111, SelectForRank101111, TableSource, index_laws,
};
use bitm_selection::Finds;
use bitm_view::ByTables;
use std::convert::AsSlice;

/// How many 0 bits stand between the 1 bit of a rank and the next 1 bit.
///
/// # Conditions
/// The source's tables match its words, in which the finder finds bits, and both 1 bits are there.
/// # Cost
/// Two searches.
#[tactic(auto, using(bitm::proofs::Callers::ones_are_bits))]
pub fn gap_by<F: Finds, T: TableSource>(finder: &F, source: &mut T, rank: usize) -> usize
    requires indexed { IsIndexed (T.lists source.old) }
    requires finds { F.finds finder.now (T.lists source.old) }
    requires both { rank + 1 < ones_of (bits_in (T.lists source.old)) }
    ensures gap { let b = bits_in (T.lists source.old) in
        (p : ℕ) × Picks b true rank p × Picks b true (rank + 1) (p + 1 + result) }
    ensures reads { OnlySelectsBy T.lists T.reads source.old source.new
        (F.most (T.lists source.old)) 2 0 }
{
    index_laws::tables_have_sizes();
    let Answer::Found(one) = finder.one(source, rank) else {
        unreachable!()
    };
    let Answer::Found(next) = finder.one(source, rank + 1) else {
        unreachable!()
    };
    next - one - 1
}

/// `gap_by` in any words, by binary search.
///
/// # Conditions
/// The source's tables match its words, and both 1 bits are there.
/// # Cost
/// What two selections by binary search read.
pub fn gap_on<T: TableSource>(source: &mut T, rank: usize) -> usize
    requires indexed { IsIndexed (T.lists source.old) }
    requires both { rank + 1 < ones_of (bits_in (T.lists source.old)) }
    ensures gap { let b = bits_in (T.lists source.old) in
        (p : ℕ) × Picks b true rank p × Picks b true (rank + 1) (p + 1 + result) }
    ensures reads { OnlySelectsBy T.lists T.reads source.old source.new
        (by_halves (T.lists source.old)) 2 0 }
{
    gap_by(&ByTables, source, rank)
}

/// `gap_by` in an index's words, by its own strategies.
///
/// # Conditions
/// Both 1 bits are there.
pub fn gap<S: SelectForRank101111, S0: Select0ForRank101111, BV: AsSlice<u64>>(
    index: &RankSelect101111<S, S0, BV>,
    rank: usize,
) -> usize
    requires { rank + 1 < ones_of (bits_of (BV.items index.now.content)) }
    ensures { let b = bits_of (BV.items index.now.content) in
        (p : ℕ) × Picks b true rank p × Picks b true (rank + 1) (p + 1 + result) }
{
    gap_by(index, &mut index.probe(), rank)
}

/// The first 1 bits by a list of their positions, and all other bits as another finder finds them.
#[derive(Clone, Copy)]
pub struct Front<'a, F> {
    /// The positions of the first 1 bits.
    pub positions: &'a [usize],
    /// What finds the other bits.
    pub rest: F,
}

/// Finds bits in words whose first 1 bits are at these positions, and in which the other finder finds the rest; reads
/// what the other finder reads.
impl<'a, F: Finds> Finds for Front<'a, F> {
    ghost finds = { λ front lists. F.finds front.rest lists
        × ((r : ℕ) → r < length front.positions.now
        → Picks (bits_in lists) true r (slice_index front.positions.now r)) };

    ghost most = { F.most };

    #[tactic(auto, using(bitm::proofs::BitLaws::bits_are_counted))]
    fn one<T: TableSource>(&self, source: &mut T, rank: usize) -> Answer<usize> {
        match self.positions.get(rank) {
            Some(position) if *position == usize::MAX => Answer::Wrong,
            Some(position) => Answer::Found(*position),
            None => self.rest.one(source, rank),
        }
    }

    fn zero<T: TableSource>(&self, source: &mut T, rank: usize) -> Answer<usize> {
        self.rest.zero(source, rank)
    }
}
