//! The index with strategies and a density that a user wrote: the positions in sixty words that have 1 bits at 0, 2 and
//! 3, worked out by hand; and which strategy is called, which no clause says.
use crate::calls::walk::{Sampled, TablesView, borrowed};
use bitm::{
    BinaryRankSearch, CombinedSampling, Select, Select0, Select0ForRank101111, SelectForRank101111,
};
use example_callers::density::ByLength;
use example_callers::strategies::guarded::Guarded;
use example_callers::strategies::listed::Listed;
use example_callers::strategies::scan::Scan;
use std::alloc::Global;

/// Whether each one, and two first zeros of a word and its last, are selected.
fn selects_in<I: Select + Select0>(index: &I, word: u16) -> bool {
    let word = word as usize;
    let mut agrees = true;
    for (nth, position) in [(0, 0), (1, 2), (2, 3)] {
        agrees &= index.try_select(3 * word + nth) == Some(64 * word + position);
    }
    for (nth, position) in [(0, 1), (1, 4), (60, 63)] {
        agrees &= index.try_select0(61 * word + nth) == Some(64 * word + position);
    }
    agrees
}

/// Whether the bits of all words are selected, and none past them.
fn selects_all<I: Select + Select0>(index: &I) -> bool {
    let mut agrees = (index.try_select(180), index.try_select0(3660)) == (None, None);
    for word in 0..60u16 {
        agrees &= selects_in(index, word);
    }
    agrees
}

/// Whether each one, and two first zeros of each word and its last, are selected, and none past them.
fn selects_each<S: SelectForRank101111, S0: Select0ForRank101111>(alloc: Global) -> bool {
    match borrowed::<S, S0>(alloc, [0b1101; 60].as_slice()) {
        Ok((index, total)) => total == 180 && selects_all(&index),
        Err(_) => false,
    }
}

/// Selection by the density of a user.
type Dense = CombinedSampling<ByLength>;

#[test]
fn an_index_selects_by_strategies_that_a_user_wrote(rt: HostRuntime) {
    let alloc = rt.alloc();
    let by = [
        selects_each::<Scan, Scan>(alloc),
        selects_each::<Listed, Listed>(alloc),
        selects_each::<Guarded<BinaryRankSearch>, Guarded<Sampled>>(alloc),
        selects_each::<Dense, Dense>(alloc),
    ];
    assert!(rt; by == [true; 4]);
}

/// Whether an index selects as by hand.
fn selects_few<I: Select + Select0>(index: &I) -> bool {
    let mut agrees = true;
    for (rank, position, rank0, position0) in [(0, 0, 0, 1), (2, 3, 60, 63), (4, 66, 61, 64)] {
        agrees &= index.try_select(rank) == Some(position);
        agrees &= index.try_select0(rank0) == Some(position0);
    }
    agrees && index.try_select(1) == Some(2)
}

/// Whether an index whose strategies count their calls selects so, by one call of a strategy each.
fn counts_calls<S: SelectForRank101111, S0: Select0ForRank101111>(
    index: &TablesView<'_, Guarded<S>, Guarded<S0>>,
) -> bool {
    let agrees = selects_few(index);
    agrees && index.select_support().calls() == 4 && index.select0_support().calls() == 3
}

/// Whether such an index over two words does.
fn calls_are_counted<S: SelectForRank101111, S0: Select0ForRank101111>(alloc: Global) -> bool {
    match borrowed::<Guarded<S>, Guarded<S0>>(alloc, [0b1101, 0b110].as_slice()) {
        Ok((index, _)) => counts_calls(&index),
        Err(_) => false,
    }
}

#[test]
fn an_index_asks_the_strategy_of_its_kind_once_a_call(rt: HostRuntime) {
    assert!(rt; calls_are_counted::<BinaryRankSearch, Sampled>(rt.alloc()));
}
