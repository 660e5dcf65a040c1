//! Selection by each strategy: the kinds `select` and `select0`.
ghost use Rattle.bitm.specs.Bits.{IsShort};

use crate::content::State;
use crate::fault::Fault;
use crate::found::{Found, wide};
use crate::text::Base;
use crate::{index, text};
use bitm::{
    AdaptiveCombinedSamplingDensity, BinaryRankSearch, CombinedSampling, Select, Select0,
    Select0ForRank101111, SelectForRank101111,
};
use std::alloc::Global;

/// Selection by samples, with a density for the share of items.
type Sampled = CombinedSampling<AdaptiveCombinedSamplingDensity<13>>;

/// Compares the positions of 1 bits or 0 bits of ranks, by an index of one strategy.
fn compare_by<'a, S: SelectForRank101111 + Select0ForRank101111>(
    alloc: Global,
    words: &[u64],
    pairs: &'a str,
    of_ones: bool,
    found: &mut Found<'a>,
) -> Result<(), Fault>
    requires { IsShort words.now }
{
    let (index, _) = index::build::<S>(alloc, words)?;
    for pair in pairs.split_ascii_whitespace() {
        let (argument, theirs) = text::parts(pair, ":")?;
        let rank = text::position(argument)?;
        let ours = if of_ones {
            index.try_select(rank)
        } else {
            index.try_select0(rank)
        };
        found.compare(argument, Base::Decimal, wide(ours), theirs)?;
    }
    Ok(())
}

/// Compares the positions of 1 bits or 0 bits of ranks, by binary search and by samples.
pub fn select<'a>(
    alloc: Global,
    state: &State<'a>,
    line: &'a str,
    of_ones: bool,
    found: &mut Found<'a>,
) -> Result<(), Fault> {
    let (words, pairs) = state.content(line)?;
    compare_by::<BinaryRankSearch>(alloc, words, pairs, of_ones, found)?;
    compare_by::<Sampled>(alloc, words, pairs, of_ones, found)
}
