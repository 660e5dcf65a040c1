//! Samples made from the tables alone: no word is read.
//!
//! In each upper block the items of a kind (1 bits or 0 bits) are counted from 0 and cut into intervals of `2^d`. Each
//! interval has one sample of 32 bits:
//!
//! ```text
//!  31          21 20            0
//! +--------------+--------------+
//! | distance: 11 |  entry: 21   |
//! +--------------+--------------+
//!  entry     the entry of the interval's first item, counted from the part's start
//!  distance  in entries from there to the item 2^(d-1) later, at most 2047; 0 where there is no such item
//! ```
//!
//! Beside the samples stand how many come before each upper block, and the density. `specs/Samples.antt` defines them.
//!
//! The tables may hold anything: where they match no bits, the samples are some numbers.
ghost use Rattle.std.specs.Prelude.{◌≡◌, ◌+◌, ◌-◌, ◌*◌, ◌^◌, ◌<◌, ◌≤◌, ◌++◌, Bool, List, length, min, IfOk};
ghost use Rattle.std.specs.Box.{boxed_slice_items};
ghost use Rattle.bit_lists.specs.Count.{count_of, ones_before, ones_of, as_bit};
ghost use Rattle.bitm_tables.specs.Entry.{lower_entry, entries_from};
ghost use Rattle.bitm_strategies.specs.Samples.{IsSized, IsSummaryOf, part_of, sample};
ghost use Rattle.bitm_strategies.specs.Samples.{intervals, part_samples, samples_of, sample_starts_of};
ghost use Rattle.bitm_select.specs.Search.{IsLastEntry, items_to, sought_bits};

use bitm_tables::entry::{complement_entry, entries_of_part, ones_to_entry};
use bitm_tables::levels::L2_ENTRIES_PER_L1_ENTRY;
use std::alloc::{AllocError, Global};
use std::boxed::BoxedSlice;

/// The tables of some bits, and how many 1 bits and bits there are.
#[derive(Clone, Copy)]
pub struct Summary<'a> {
    /// The 1 bits before each upper block.
    pub upper: &'a [usize],
    /// The packed entries.
    pub lower: &'a [u64],
    /// How many 1 bits there are.
    pub total: usize,
    /// How many bits there are.
    pub len: usize,
}

/// How many 1 bits there are, or 0 bits if `BIT` is 0, where `total` of `len` bits are 1.
#[inline(always)]
pub(crate) fn items_among<const BIT: u8>(total: usize, len: usize) -> usize
    requires { total ≤ len }
    ensures most { result ≤ len }
    ensures items { (b : List Bool) → total ≡ ones_of b → len ≡ length b
        → result ≡ count_of b (as_bit BIT) }
{
    if BIT == 0 { len - total } else { total }
}

/// How many 1 bits stand before an upper block's end.
fn ones_to_end(summary: &Summary<'_>, part: usize) -> usize
    requires sized { IsSized summary.now }
    requires inside { part < length summary.now.upper.now }
    ensures { (b : List Bool) → IsSummaryOf b summary.now
        → result ≡ ones_before b (min (length b) ((part + 1) * 2 ^ 32)) }
{
    if part + 1 < summary.upper.len() {
        summary.upper[part + 1]
    } else {
        summary.total
    }
}

/// How many 1 bits, or 0 bits if `BIT` is 0, an upper block has, where the tables match some bits; else no more than it
/// has bits.
///
/// # Conditions
/// There is such an upper block, and the lengths of the tables fit that number of bits. They may hold anything.
pub fn items_in<const BIT: u8>(summary: &Summary<'_>, part: usize) -> usize
    requires sized { IsSized summary.now }
    requires inside { part < length summary.now.upper.now }
    ensures few { result ≤ 2 ^ 32 }
    ensures fits { result ≤ summary.now.len - part * 2 ^ 32 }
    ensures items { (b : List Bool) → IsSummaryOf b summary.now
        → result ≡ count_of (part_of b part) (as_bit BIT) }
{
    let bits = (summary.len - (part << 32)).min(1 << 32);
    let ones = ones_to_end(summary, part)
        .saturating_sub(summary.upper[part])
        .min(bits);
    if BIT == 0 { bits - ones } else { ones }
}

/// Lower entry `at` of the bits in which 1 bits are sought.
#[inline(always)]
fn sought_entry<const BIT: u8>(summary: &Summary<'_>, at: usize) -> u64
    requires sized { IsSized summary.now }
    requires inside { at < length summary.now.lower.now }
    ensures { (b : List Bool) → IsSummaryOf b summary.now
        → result ≡ lower_entry (sought_bits (as_bit BIT) b) at }
{
    let entry = summary.lower[at];
    if BIT == 0 {
        complement_entry(entry, at)
    } else {
        entry
    }
}

/// How many entries an upper block has.
#[inline(always)]
fn entries_in(summary: &Summary<'_>, part: usize) -> usize
    requires sized { IsSized summary.now }
    requires inside { part < length summary.now.upper.now }
    ensures { result ≡ entries_from (length summary.now.lower.now) part }
{
    entries_of_part(summary.lower.len(), part)
}

/// The last entry of an upper block, from entry `from` on, with no more than `item` items before it in the upper block.
fn walk_tables<const BIT: u8>(summary: &Summary<'_>, part: usize, from: usize, item: usize) -> usize
    requires sized { IsSized summary.now }
    requires inside { part < length summary.now.upper.now }
    requires from { from < entries_from (length summary.now.lower.now) part }
    ensures order { from ≤ result }
    ensures inside { result < entries_from (length summary.now.lower.now) part }
    ensures last { (b : List Bool) → IsSummaryOf b summary.now → items_to BIT b part from ≤ item
        → IsLastEntry (sought_bits (as_bit BIT) b) (length summary.now.lower.now) part item result }
{
    let first = part * L2_ENTRIES_PER_L1_ENTRY;
    let end = entries_in(summary, part);
    for next in from + 1..end {
        if item < ones_to_entry(sought_entry::<BIT>(summary, first + next)) {
            return next - 1;
        }
    }
    end - 1
}

/// The sample of an interval that begins at `item`, and an entry that is no later than the entry of the next interval's
/// first item, where the tables match some bits; else some number and some entry of the upper block.
///
/// # Conditions
/// The upper block has that number of items by `items_in`, `item` is one of them, and `from` is an entry of the upper
/// block, the entry of an earlier item or the first. The logarithm is 7 to 31.
pub fn sample_from<const BIT: u8>(
    summary: &Summary<'_>,
    part: usize,
    log2: u8,
    from: usize,
    item: usize,
    items: usize,
) -> (u32, usize)
    requires sized { IsSized summary.now }
    requires inside { part < length summary.now.upper.now }
    requires low { 7 ≤ log2 }
    requires high { log2 ≤ 31 }
    requires from { from < entries_from (length summary.now.lower.now) part }
    requires item { item < items }
    requires few { items ≤ 2 ^ 32 }
    ensures inside { result.1 < entries_from (length summary.now.lower.now) part }
    ensures sample { (b : List Bool) → IsSummaryOf b summary.now
        → items ≡ count_of (part_of b part) (as_bit BIT) → items_to BIT b part from ≤ item
        → result.0 ≡ sample (part_of b part) (as_bit BIT) log2 item }
    ensures at_most { (b : List Bool) → IsSummaryOf b summary.now → items_to BIT b part from ≤ item
        → items_to BIT b part result.1 ≤ item + 2 ^ (log2 - 1) }
{
    let entry = walk_tables::<BIT>(summary, part, from, item);
    let middle = item + (1 << (log2 - 1));
    if middle < items {
        let later = walk_tables::<BIT>(summary, part, entry, middle);
        let distance = (later - entry).min(2047);
        ((entry + (distance << 21)) as u32, later)
    } else {
        (entry as u32, entry)
    }
}

/// How many samples an upper block has.
#[inline(always)]
fn samples_in<const BIT: u8>(summary: &Summary<'_>, part: usize, log2: u8) -> usize
    requires sized { IsSized summary.now }
    requires inside { part < length summary.now.upper.now }
    requires low { 7 ≤ log2 }
    requires high { log2 ≤ 31 }
    ensures few { result ≤ 2 ^ 25 }
    ensures count { (b : List Bool) → IsSummaryOf b summary.now
        → result ≡ intervals (part_of b part) (as_bit BIT) log2 }
{
    items_in::<BIT>(summary, part).div_ceil(1 << log2)
}

/// How many samples there are before each upper block, and in all.
fn make_starts<const BIT: u8>(
    alloc: Global,
    summary: &Summary<'_>,
    log2: u8,
) -> Result<(Vec<usize>, usize), AllocError>
    requires sized { IsSized summary.now }
    requires low { 7 ≤ log2 }
    requires high { log2 ≤ 31 }
    ensures { IfOk result (λ pair. (b : List Bool) → IsSummaryOf b summary.now
        → pair.0.items ≡ sample_starts_of b (as_bit BIT) log2) }
{
    let mut starts = Vec::with_capacity(alloc, summary.upper.len())?;
    let mut count = 0;
    for part in 0..summary.upper.len() {
        starts.push(count)?;
        count += samples_in::<BIT>(summary, part, log2);
    }
    Ok((starts, count))
}

/// Adds the samples of an upper block.
fn push_samples<const BIT: u8>(
    samples: &mut Vec<u32>,
    summary: &Summary<'_>,
    part: usize,
    log2: u8,
) -> Result<(), AllocError>
    requires sized { IsSized summary.now }
    requires inside { part < length summary.now.upper.now }
    requires low { 7 ≤ log2 }
    requires high { log2 ≤ 31 }
    ensures { IfOk result (λ _. (b : List Bool) → IsSummaryOf b summary.now
        → samples.new.items
        ≡ samples.old.items ++ part_samples (part_of b part) (as_bit BIT) log2) }
{
    let items = items_in::<BIT>(summary, part);
    let mut entry = 0;
    for interval in 0..items.div_ceil(1 << log2) {
        let (sample, next) = sample_from::<BIT>(
            summary,
            part,
            log2,
            entry,
            interval << log2,
            items,
        );
        samples.push(sample)?;
        entry = next;
    }
    Ok(())
}

/// The samples of some bits at a density, and how many there are before each upper block.
///
/// # Errors
/// `AllocError` if no memory was found; nothing is left.
pub(crate) fn make_samples<const BIT: u8>(
    alloc: Global,
    summary: &Summary<'_>,
    log2: u8,
) -> Result<(BoxedSlice<u32, Global>, BoxedSlice<usize, Global>), AllocError>
    requires sized { IsSized summary.now }
    requires low { 7 ≤ log2 }
    requires high { log2 ≤ 31 }
    ensures samples { IfOk result (λ pair. (b : List Bool) → IsSummaryOf b summary.now
        → boxed_slice_items pair.0 ≡ samples_of b (as_bit BIT) log2) }
    ensures starts { IfOk result (λ pair. (b : List Bool) → IsSummaryOf b summary.now
        → boxed_slice_items pair.1 ≡ sample_starts_of b (as_bit BIT) log2) }
{
    let (starts, count) = make_starts::<BIT>(alloc, summary, log2)?;
    let mut samples = Vec::with_capacity(alloc, count)?;
    for part in 0..summary.upper.len() {
        push_samples::<BIT>(&mut samples, summary, part, log2)?;
    }
    Ok((samples.into_boxed_slice(), starts.into_boxed_slice()))
}
