//! The two tables of an index: the kinds `l1`, `l2` and `l2at`.
use crate::content::State;
use crate::fault::Fault;
use crate::found::{Found, List};
use crate::index;
use crate::text::Base;
use bitm::BinaryRankSearch;
use std::alloc::Global;

/// Compares the upper table.
pub fn l1<'a>(
    alloc: Global,
    state: &State<'a>,
    line: &'a str,
    found: &mut Found<'a>,
) -> Result<(), Fault> {
    let (words, theirs) = state.content(line)?;
    let (index, _) = index::build::<BinaryRankSearch>(alloc, words)?;
    found.compare_list(
        alloc,
        line,
        Base::Decimal,
        List::Sizes(index.l1ranks()),
        theirs,
    )
}

/// Compares the lower table.
pub fn l2<'a>(
    alloc: Global,
    state: &State<'a>,
    line: &'a str,
    found: &mut Found<'a>,
) -> Result<(), Fault> {
    let (words, theirs) = state.content(line)?;
    let (index, _) = index::build::<BinaryRankSearch>(alloc, words)?;
    found.compare_list(
        alloc,
        line,
        Base::Hexadecimal,
        List::Words(index.l2ranks()),
        theirs,
    )
}

/// Compares entries of the lower table at their indices.
pub fn l2at<'a>(
    alloc: Global,
    state: &State<'a>,
    line: &'a str,
    found: &mut Found<'a>,
) -> Result<(), Fault> {
    let (words, pairs) = state.content(line)?;
    let (index, _) = index::build::<BinaryRankSearch>(alloc, words)?;
    found.compare_entries(pairs, List::Words(index.l2ranks()))
}
