//! Selection from samples, over a source with any tables and samples. The samples bound the entries of an upper block
//! that can hold the rank, a read at either end tests the bounds, and a binary search finds the entry between them.
//! Where the test fails, the search does without samples, so that they never change an answer.
ghost use Rattle.std.specs.Prelude.{◌≡◌, ℕ, ◌+◌, ◌-◌, ◌*◌, ◌%◌, ◌^◌, ◌<◌, ◌≤◌, ◌↔◌, Bool, List, length, slice_index};
ghost use Rattle.std.specs.Prelude.{IfSome, IsSome, IsSomeAnd, IsTrue, MatchOption};
ghost use Rattle.std.specs.Int.{div_ceil};
ghost use Rattle.bit_lists.specs.Bits.{digit_count};
ghost use Rattle.bit_lists.specs.Count.{as_bit};
ghost use Rattle.bitm_strategies.specs.Density.{clamped_log};
ghost use Rattle.bitm_tables.specs.Entry.{before_in_part, entries_from};
ghost use Rattle.bitm_tables.specs.Reads.{OnlyReads, ReadsAtMost};
ghost use Rattle.bitm_strategies.specs.Samples.{part_of, parts, sample_count_before};
ghost use Rattle.bitm_select.specs.Search.{entry_in, sought_in, IsLastFound};
ghost use Rattle.bitm_tables.specs.Tables.{HasSizes, HasTables, bits_in};
ghost use Rattle.bitm_select.specs.Answers.{HasBit, IsSelected};
ghost use Rattle.bitm_select.specs.Claims.{claimed_entry, ClaimsNone};
ghost use Rattle.bitm_tables.specs.Answers.{IfAbsent};
ghost use Rattle.tables_view.specs.Samples.{AreSamplesOf, IsBounded};

use crate::guessed::ByGuess;
use crate::samples::{SamplesView, clamped_log};
use bitm_select::search::entries::{last_entry, sought_entry};
use bitm_select::search::entry_range::{EntryRange, last_in_range};
use bitm_select::search::selecting::search_on;
use bitm_strategies::first_entry;
use bitm_tables::answer::Answer;
use bitm_tables::entry::{entries_of_part, ones_to_entry};
use bitm_tables::levels::L2_ENTRIES_PER_L1_ENTRY;
use bitm_tables::source::TableSource;

/// The number of samples before an upper block; of all samples where there is no such upper block.
#[inline(always)]
pub(crate) fn samples_to(borrowed: &SamplesView<'_>, part: usize) -> usize
    ensures few { result ≤ length borrowed.now.samples.now }
    ensures own { (b : List Bool) → (v : Bool) → AreSamplesOf b v borrowed.now → part ≤ parts b
        → result ≡ sample_count_before b v (clamped_log borrowed.now.log2) part }
{
    let all = borrowed.samples.len();
    match borrowed.starts.get(part) {
        Some(start) => all.min(*start),
        None => all,
    }
}

/// The entry after the entry of the bit that sample `at` stands for.
///
/// # Conditions
/// There is such a sample.
#[inline(always)]
fn entry_behind(borrowed: &SamplesView<'_>, at: usize) -> usize
    requires { at < length borrowed.now.samples.now }
    ensures { result ≡ slice_index borrowed.now.samples.now at % 2 ^ 21 + 1 }
{
    (borrowed.samples[at] & 0x1F_FFFF) as usize + 1
}

/// Entries of an upper block, from `low` on and before `end`.
#[derive(Clone, Copy)]
pub(crate) struct Bounds {
    pub low: usize,
    pub end: usize,
}

/// Bounds of the entry that has the bit with rank `rank` in an upper block, if the samples match the words; `None` only
/// where they do not.
#[inline(always)]
fn bounds_of(borrowed: &SamplesView<'_>, part: usize, entries: usize, rank: usize) -> Option<Bounds>
    requires part { part < 2 ^ 60 }
    requires some { 0 < entries }
    ensures within { IfSome result (λ r. (r.low < r.end) × (r.end ≤ entries)) }
    ensures own { (b : List Bool) → (v : Bool) → AreSamplesOf b v borrowed.now → part < parts b
        → entries ≡ div_ceil (length (part_of b part)) 2048
        → IsSomeAnd result (λ r. IsBounded (part_of b part) v rank entries r.low r.end) }
{
    let first = samples_to(borrowed, part);
    let count = samples_to(borrowed, part + 1).saturating_sub(first);
    let log2 = clamped_log(borrowed.log2);
    let interval = rank >> log2;
    if interval >= count {
        return Some(Bounds {
            low: entries - 1,
            end: entries,
        });
    }
    let at = first + interval;
    let low = first_entry(borrowed.samples[at], rank, log2);
    if interval + 1 >= count {
        return if low < entries {
            Some(Bounds { low, end: entries })
        } else {
            None
        };
    }
    let end = entry_behind(borrowed, at + 1);
    if end > entries || low >= end {
        return None;
    }
    Some(Bounds { low, end })
}

/// What entry `low` of an upper block packs, or 0 for the first entry, which is not read; `None` where the table claims
/// more than `rank` bits of the kind before it in the upper block.
#[inline(always)]
fn begun_by<const BIT: u8, T: TableSource>(
    source: &mut T,
    part: usize,
    low: usize,
    rank: usize,
) -> Option<u64>
    requires sized { HasSizes (T.lists source.old) }
    requires inside { part < length (T.lists source.old).upper }
    requires low { low < entries_from (length (T.lists source.old).lower) part }
    ensures begun { HasTables (T.lists source.old) →
        let m = sought_in BIT (T.lists source.old).words in
        MatchOption result (rank < before_in_part m (entry_in part low))
        (λ _. before_in_part m (entry_in part low) ≤ rank) }
    ensures packed { 0 < low → IfSome result (λ packed. packed
        ≡ claimed_entry (as_bit BIT) (T.lists source.old) (entry_in part low)) }
    ensures reads { ReadsAtMost (T.reads source.old) (T.reads source.new) 0 1 0 }
    ensures reads_first { low ≡ 0 → T.reads source.new ≡ T.reads source.old }
    ensures same { T.lists source.new ≡ T.lists source.old }
{
    if low == 0 {
        return Some(0);
    }
    let packed = sought_entry::<BIT, T>(source, part * L2_ENTRIES_PER_L1_ENTRY + low);
    if ones_to_entry(packed) <= rank {
        Some(packed)
    } else {
        None
    }
}

/// Whether the table claims more than `rank` bits of the kind before entry `end` of an upper block, counted there; true
/// where the upper block has no such entry.
#[inline(always)]
fn is_behind<const BIT: u8, T: TableSource>(
    source: &mut T,
    part: usize,
    end: usize,
    rank: usize,
) -> bool
    requires sized { HasSizes (T.lists source.old) }
    requires inside { part < length (T.lists source.old).upper }
    ensures behind { HasTables (T.lists source.old) →
        let m = sought_in BIT (T.lists source.old).words in
        IsTrue result ↔ (end < entries_from (length (T.lists source.old).lower) part
        → rank < before_in_part m (entry_in part end)) }
    ensures reads { ReadsAtMost (T.reads source.old) (T.reads source.new) 0 1 0 }
    ensures same { T.lists source.new ≡ T.lists source.old }
{
    if end >= entries_of_part(source.lower_len(), part) {
        return true;
    }
    let packed = sought_entry::<BIT, T>(source, part * L2_ENTRIES_PER_L1_ENTRY + end);
    rank < ones_to_entry(packed)
}

/// The last entry of an upper block with at most `rank` bits of the kind before it there, and its packed counts: the
/// right one where the tables match the words. With these, `None` only where the entry is not within the bounds.
#[inline(always)]
pub(crate) fn entry_between<const BIT: u8, T: TableSource>(
    source: &mut T,
    part: usize,
    bounds: Bounds,
    rank: usize,
) -> Option<(usize, u64)>
    requires sized { HasSizes (T.lists source.old) }
    requires inside { part < length (T.lists source.old).upper }
    requires some { bounds.low < bounds.end }
    requires within { bounds.end ≤ entries_from (length (T.lists source.old).lower) part }
    ensures last { IfSome result (IsLastFound BIT (T.lists source.old) part rank) }
    ensures found { HasTables (T.lists source.old) →
        let m = sought_in BIT (T.lists source.old).words in
        before_in_part m (entry_in part bounds.low) ≤ rank
        → (bounds.end < entries_from (length (T.lists source.old).lower) part
        → rank < before_in_part m (entry_in part bounds.end))
        → IsSome result }
    ensures reads { ReadsAtMost (T.reads source.old) (T.reads source.new) 0 23 0 }
    ensures reads_near { bounds.end ≤ bounds.low + 8
        → ReadsAtMost (T.reads source.old) (T.reads source.new) 0 5 0 }
    ensures same { T.lists source.new ≡ T.lists source.old }
{
    let Some(packed) = begun_by::<BIT, T>(source, part, bounds.low, rank) else {
        return None;
    };
    if !is_behind::<BIT, T>(source, part, bounds.end, rank) {
        return None;
    }
    let range = EntryRange {
        low: bounds.low,
        left: bounds.end - bounds.low,
        packed,
        above: 0,
    };
    Some(last_in_range::<BIT, T>(source, part, range, rank))
}

/// The last entry of an upper block with at most `rank` bits of the kind before it there, and its packed counts: the
/// right one where the tables match the words. `None` only where tables or samples do not match the words.
#[inline(always)]
fn sampled_entry<const BIT: u8, T: TableSource>(
    source: &mut T,
    borrowed: &SamplesView<'_>,
    part: usize,
    rank: usize,
) -> Option<(usize, u64)>
    requires sized { HasSizes (T.lists source.old) }
    requires inside { part < length (T.lists source.old).upper }
    ensures last { IfSome result (IsLastFound BIT (T.lists source.old) part rank) }
    ensures found { HasTables (T.lists source.old)
        → AreSamplesOf (bits_in (T.lists source.old)) (as_bit BIT) borrowed.now
        → IsSome result }
    ensures reads { ReadsAtMost (T.reads source.old) (T.reads source.new) 0 23 0 }
    ensures same { T.lists source.new ≡ T.lists source.old }
{
    let entries = entries_of_part(source.lower_len(), part);
    let Some(bounds) = bounds_of(borrowed, part, entries, rank) else {
        return None;
    };
    entry_between::<BIT, T>(source, part, bounds, rank)
}

/// The last entry of an upper block with at most `rank` bits of the kind before it there, and its packed counts: the
/// right one where the tables match the words, some entry of the upper block otherwise. Where the samples do not lead
/// to it, the search does without them.
#[inline(always)]
pub(crate) fn entry_by_samples<const BIT: u8, T: TableSource>(
    source: &mut T,
    borrowed: &SamplesView<'_>,
    part: usize,
    rank: usize,
) -> (usize, u64)
    requires sized { HasSizes (T.lists source.old) }
    requires inside { part < length (T.lists source.old).upper }
    ensures last { IsLastFound BIT (T.lists source.old) part rank result }
    ensures reads { ReadsAtMost (T.reads source.old) (T.reads source.new) 0 46 0 }
    ensures reads_by_samples { HasTables (T.lists source.old)
        → AreSamplesOf (bits_in (T.lists source.old)) (as_bit BIT) borrowed.now
        → ReadsAtMost (T.reads source.old) (T.reads source.new) 0 23 0 }
    ensures same { T.lists source.new ≡ T.lists source.old }
{
    match sampled_entry::<BIT, T>(source, borrowed, part, rank) {
        Some(found) => found,
        None => last_entry::<BIT, T>(source, part, rank),
    }
}

/// Selects as `total_select_on` does, from samples of 1 bits; of 0 bits where `BIT` is 0. The samples never change an
/// answer, whatever they hold: where they do not lead to a rank, the search does without them.
///
/// # Conditions
/// The conditions of `total_select_on`. The samples have none.
/// # Cost
/// With u upper entries, a query reads at most one more of them than u has binary digits, 51 lower entries and eight
/// words, whatever the tables and samples hold, and a few numbers of the samples. Where tables and samples match the
/// words, it reads at most 28 lower entries: five near a guess and, after a wrong guess, two more and one for each
/// halving from the sample to the next.
pub fn sampled_select_on<const BIT: u8, T: TableSource>(
    source: &mut T,
    borrowed: &SamplesView<'_>,
    rank: usize,
) -> Answer<usize>
    requires { HasSizes (T.lists source.old) }
    ensures bit { HasBit (bits_in (T.lists source.old)) (as_bit BIT) result }
    ensures answer { HasTables (T.lists source.old)
        → IsSelected (bits_in (T.lists source.old)) (as_bit BIT) rank result }
    ensures none { IfAbsent result (ClaimsNone (as_bit BIT) (T.lists source.old) rank) }
    ensures reads { OnlyReads T.lists T.reads source.old source.new
        (digit_count (length (T.lists source.old).upper) + 1) 51 8 }
    ensures reads_by_samples { HasTables (T.lists source.old)
        → AreSamplesOf (bits_in (T.lists source.old)) (as_bit BIT) borrowed.now
        → ReadsAtMost (T.reads source.old) (T.reads source.new)
        (digit_count (length (T.lists source.old).upper) + 1) 28 8 }
{
    search_on::<BIT, 1, T, ByGuess<'_>>(source, &ByGuess { samples: *borrowed }, rank)
}
