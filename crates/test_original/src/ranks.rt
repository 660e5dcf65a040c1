//! Ranks: the kinds `ones`, `simple`, `rank` and `rank0`.
ghost use Rattle.std.specs.Prelude.{◌≡◌, IfOk, IfSome};
ghost use Rattle.bitm.specs.Bits.{IsShort};

use crate::content::{State, Totals};
use crate::fault::Fault;
use crate::found::{Found, List};
use crate::text::Base;
use crate::{index, text};
use bitm::{BinaryRankSearch, Rank, RankSimple, words};
use std::alloc::{AllocError, Global};
use std::convert::AsSlice;

/// A simple rank over the words, and the number of ones; `None` where its numbers are too narrow for them.
fn build(alloc: Global, words: &[u64]) -> Result<Option<(RankSimple<&[u64]>, u32)>, Fault>
    requires { IsShort words.now }
    ensures { IfOk result (λ made. IfSome made (λ built. built.0.now ≡ words.now)) }
{
    if words::count_bit_ones(words) >= 1 << 32 {
        return Ok(None);
    }
    match RankSimple::build(alloc, words) {
        Ok(built) => Ok(Some(built)),
        Err(_) => Err(Fault::NoMemory),
    }
}

/// The number of ones that a simple rank counts; `None` where its numbers are too narrow for them.
fn simple_total(alloc: Global, words: &[u64]) -> Result<Option<u32>, Fault>
    requires { IsShort words.now }
{
    match build(alloc, words)? {
        Some((_, total)) => Ok(Some(total)),
        None => Ok(None),
    }
}

/// Compares the number of ones of words, as both `build` give it and as it is counted.
fn compare_totals<'a>(
    alloc: Global,
    words: &[u64],
    theirs: &str,
    found: &mut Found<'a>,
) -> Result<(), Fault>
    requires { IsShort words.now }
{
    if let Some(total) = simple_total(alloc, words)? {
        found.compare("simple", Base::Decimal, Some(u64::from(total)), theirs)?;
    }
    let total = index::total(alloc, words)? as u64;
    found.compare("build", Base::Decimal, Some(total), theirs)?;
    let counted = words::count_bit_ones(words) as u64;
    found.compare("count_bit_ones", Base::Decimal, Some(counted), theirs)
}

/// Takes the number of ones of a line, and compares it.
pub fn ones<'a>(
    alloc: Global,
    state: &mut State<'a>,
    line: &'a str,
    found: &mut Found<'a>,
) -> Result<(), Fault> {
    state.set_ones(line)?;
    let (words, theirs) = state.content(line)?;
    compare_totals(alloc, words, theirs, found)
}

/// The number of 1 bits before each run of 512 bits; the last run may be partial.
fn table(alloc: Global, index: &RankSimple<&[u64]>) -> Result<Vec<u64>, AllocError>
    requires { IsShort index.now.now }
{
    let mut ranks = Vec::new(alloc);
    for run in 0..index.as_slice().len().div_ceil(8) {
        ranks.push(u64::from(index.rank(512 * run)))?;
    }
    Ok(ranks)
}

/// The number of 1 bits before each run of 512 bits of words, by a simple rank over them.
fn simple_table(alloc: Global, words: &[u64]) -> Result<Vec<u64>, Fault>
    requires { IsShort words.now }
{
    match build(alloc, words)? {
        Some((index, _)) => Ok(table(alloc, &index)?),
        None => Err(Fault::Condition),
    }
}

/// Compares the ranks at the start of each run of 512 bits.
pub fn simple<'a>(
    alloc: Global,
    state: &State<'a>,
    line: &'a str,
    found: &mut Found<'a>,
) -> Result<(), Fault> {
    let (words, theirs) = state.content(line)?;
    let ours = simple_table(alloc, words)?;
    found.compare_list(
        alloc,
        line,
        Base::Decimal,
        List::Words(ours.as_slice()),
        theirs,
    )
}

/// Compares ranks by an index, that at the exact length with the total.
fn compare_by<'a, R: Rank>(
    index: &R,
    pairs: &'a str,
    totals: Totals,
    found: &mut Found<'a>,
) -> Result<(), Fault> {
    for pair in pairs.split_ascii_whitespace() {
        let (argument, theirs) = text::parts(pair, ":")?;
        let position = text::position(argument)?;
        let ours = if totals.of_ones {
            index.try_rank(position)
        } else {
            index.try_rank0(position)
        };
        found.compare_rank(argument, ours, totals.at(position), theirs)?;
    }
    Ok(())
}

/// Compares the ones or the zeros before positions and before the end, by the simple rank and by the tables of an
/// index.
pub fn rank<'a>(
    alloc: Global,
    state: &State<'a>,
    line: &'a str,
    of_ones: bool,
    found: &mut Found<'a>,
) -> Result<(), Fault> {
    let (words, pairs) = state.content(line)?;
    let totals = state.totals(of_ones)?;
    if let Some((simple, _)) = build(alloc, words)? {
        compare_by(&simple, pairs, totals, found)?;
    }
    let (tables, _) = index::build::<BinaryRankSearch>(alloc, words)?;
    compare_by(&tables, pairs, totals, found)
}
