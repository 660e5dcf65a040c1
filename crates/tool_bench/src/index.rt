//! Rows of indexes.
ghost use Rattle.bitm.specs.Bits.{IsShort};
ghost use Rattle.bitm.specs.Simple.{HasFewOnes};

use crate::bench::{Batch, Bench, Label, chain, sum};
use crate::many::add_many;
use bitm::{
    AdaptiveCombinedSamplingDensity, CombinedSampling, GetSize, Rank, RankSelect101111, RankSimple,
    Select, Select0, Select0ForRank101111, SelectForRank101111,
};
use std::alloc::AllocError;

/// Samples of the density that the documents speak of.
pub(crate) type Sampled = CombinedSampling<AdaptiveCombinedSamplingDensity<13>>;

/// The queries of an index: indices to be ranked, and ranks of 1 bits and of 0 bits.
#[derive(Clone, Copy)]
pub(crate) struct Asked<'a> {
    pub(crate) positions: &'a [usize],
    pub(crate) ones: &'a [usize],
    pub(crate) zeros: &'a [usize],
}

/// Ranks of a simple index.
#[derive(Drop)]
struct SimpleRanks<'a> {
    index: &'a RankSimple<&'a [u64]>,
    positions: &'a [usize],
}

impl<'a> Batch for SimpleRanks<'a> {
    #[inline(never)]
    fn run(&self) -> usize {
        sum!(self.positions, position => self.index.try_rank(*position))
    }
}

/// Builds a simple index, and adds the rows of its ranks.
pub(crate) fn add_simple(bench: &mut Bench<'_>, content: &[u64], positions: &[usize])
    requires short { IsShort content.now }
    requires few { HasFewOnes content.now }
{
    let begun = bench.used();
    if let Ok((index, _ones)) = RankSimple::build(bench.alloc(), content) {
        bench.add_since(begun, Label("build_a_word", "simple"), content.len());
        let ranks = SimpleRanks {
            index: &index,
            positions,
        };
        bench.least(Label("rank", "simple"), positions.len(), &ranks);
    }
}

/// A call of an index, whose queries wait for one another or do not.
#[derive(Clone, Copy)]
enum Call {
    Rank,
    RankChained,
    Select,
    SelectChained,
    Select0,
    Select0Chained,
}

/// Calls of an index.
#[derive(Drop)]
struct Calls<'a, 'c, S: SelectForRank101111, S0: Select0ForRank101111> {
    call: Call,
    index: &'a RankSelect101111<S, S0, &'c [u64]>,
    asked: &'a [usize],
}

impl<'a, 'c, S: SelectForRank101111, S0: Select0ForRank101111> Batch for Calls<'a, 'c, S, S0> {
    #[inline(never)]
    fn run(&self) -> usize {
        let (index, asked) = (self.index, self.asked);
        match self.call {
            Call::Rank => sum!(asked, position => index.try_rank(*position)),
            Call::RankChained => chain!(asked, position => index.try_rank(position)),
            Call::Select => sum!(asked, rank => index.try_select(*rank)),
            Call::SelectChained => chain!(asked, rank => index.try_select(rank)),
            Call::Select0 => sum!(asked, rank => index.try_select0(*rank)),
            Call::Select0Chained => chain!(asked, rank => index.try_select0(rank)),
        }
    }
}

/// Adds the rows of an index's size, of ranks and of selections, single and chained.
fn add_calls<'a, S: SelectForRank101111 + GetSize, S0: Select0ForRank101111 + GetSize>(
    bench: &mut Bench<'a>,
    by: &'a str,
    index: &RankSelect101111<S, S0, &[u64]>,
    asked: Asked<'_>,
) {
    let entries = index.l1ranks().len().saturating_add(index.l2ranks().len());
    for (name, bytes) in [
        ("space_tables", entries.saturating_mul(8)),
        ("space_ones", index.select_support().size_bytes_dyn()),
        ("space_zeros", index.select0_support().size_bytes_dyn()),
    ] {
        bench.add_space(Label(name, by), bytes, index.content().len());
    }
    for (name, call, asked) in [
        ("rank", Call::Rank, asked.positions),
        ("rank_chained", Call::RankChained, asked.positions),
        ("select", Call::Select, asked.ones),
        ("select_chained", Call::SelectChained, asked.ones),
        ("select0", Call::Select0, asked.zeros),
        ("select0_chained", Call::Select0Chained, asked.zeros),
    ] {
        bench.least(Label(name, by), asked.len(), &Calls { call, index, asked });
    }
}

/// Builds an index and adds its rows.
pub(crate) fn add_rows<'a, S: SelectForRank101111 + GetSize, S0: Select0ForRank101111 + GetSize>(
    bench: &mut Bench<'a>,
    by: &'a str,
    content: &[u64],
    asked: Asked<'_>,
) -> Result<(), AllocError>
    requires { IsShort content.now }
{
    let begun = bench.used();
    match RankSelect101111::<S, S0, &[u64]>::build(bench.alloc(), content) {
        Ok((index, _ones)) => {
            bench.add_since(begun, Label("build_a_word", by), content.len());
            add_calls(bench, by, &index, asked);
            // Calls for many queries at once use no strategy.
            if by == "binary" {
                return add_many(bench, &index, asked);
            }
            Ok(())
        }
        Err(_) => Err(AllocError),
    }
}
