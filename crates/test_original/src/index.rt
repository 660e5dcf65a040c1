//! The index over words, by which tables, selection and samples are replayed.
ghost use Rattle.std.specs.Prelude.{◌≡◌, IfOk};
ghost use Rattle.bitm.specs.Bits.{bits_of, IsShort};
ghost use Rattle.bitm.specs.Count.{ones_of};

use crate::fault::Fault;
use bitm::{BinaryRankSearch, RankSelect101111, Select0ForRank101111, SelectForRank101111};
use std::alloc::Global;

/// An index over words, with one strategy for both kinds of bit.
pub type Index<'a, S> = RankSelect101111<S, S, &'a [u64]>;

/// An index over the words, and the number of ones.
pub fn build<'a, S: SelectForRank101111 + Select0ForRank101111>(
    alloc: Global,
    words: &'a [u64],
) -> Result<(Index<'a, S>, usize), Fault>
    requires { IsShort words.now }
    ensures { IfOk result (λ made. made.1 ≡ ones_of (bits_of words.now)) }
{
    match RankSelect101111::build(alloc, words) {
        Ok(built) => Ok(built),
        Err(_) => Err(Fault::NoMemory),
    }
}

/// The number of ones that an index over the words counts.
pub fn total(alloc: Global, words: &[u64]) -> Result<usize, Fault>
    requires { IsShort words.now }
    ensures { IfOk result (λ total. total ≡ ones_of (bits_of words.now)) }
{
    let (_, total) = build::<BinaryRankSearch>(alloc, words)?;
    Ok(total)
}
