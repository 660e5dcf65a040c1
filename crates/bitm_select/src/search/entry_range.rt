//! The last entry of a range of entries, by a guess that narrows the range and by binary search in what is left. The
//! tables may hold anything: where they do not match the words, some entry of the range is found.
ghost use Rattle.std.specs.Prelude.{◌≡◌, ◌+◌, ◌-◌, ◌*◌, ◌/◌, ◌^◌, ◌<◌, ◌≤◌, ◌⊎◌, length};
ghost use Rattle.bit_lists.specs.Bits.{digit_count};
ghost use Rattle.bit_lists.specs.Count.{as_bit};
ghost use Rattle.bitm_tables.specs.Entry.{lower_entry, entries_from};
ghost use Rattle.bitm_tables.specs.Reads.{lower_read, ReadsAtMost};
ghost use Rattle.bitm_select.specs.Search.{entry_in, sought_in, IsAmongIn, IsLastEntry, IsRange};
ghost use Rattle.bitm_tables.specs.Tables.{HasSizes, HasTables};
ghost use Rattle.bitm_select.specs.Claims.{claimed_entry};

use crate::search::entries::sought_entry;
use bitm_tables::entry::ones_to_entry;
use bitm_tables::levels::L2_ENTRIES_PER_L1_ENTRY;
use bitm_tables::source::TableSource;

/// Entries in a window around a guess: at most five cache lines.
const WINDOW: usize = 32;

/// The entries among which a search goes on: `left` entries of an upper block from entry `low` on. Entry `low` packs
/// `packed`, or 0 for the first entry of the upper block, which is not read; `above` bits of the kind come before entry
/// `low + left`, or 0 where that is not known. Contracts say of it `IsRange`.
#[derive(Clone, Copy, PartialEq, Eq, Debug)]
pub struct EntryRange {
    /// The first entry of the range, by number in its upper block.
    pub low: usize,
    /// The number of entries in the range.
    pub left: usize,
    /// What entry `low` packs, unless it is the first of the upper block.
    pub packed: u64,
    /// The number of bits of the kind in the upper block before the end of the range, or 0.
    pub above: usize,
}

/// The side of entry `cut` of a range that has the last entry with at most `rank` bits of the kind before it, where the
/// tables match the words.
#[inline(always)]
fn side_of<const BIT: u8, T: TableSource>(
    source: &mut T,
    part: usize,
    range: EntryRange,
    cut: usize,
    rank: usize,
) -> EntryRange
    requires sized { HasSizes (T.lists source.old) }
    requires inside { part < length (T.lists source.old).upper }
    requires some { 0 < cut }
    requires in_range { cut < range.left }
    requires range { IsRange BIT (T.lists source.old) part rank range }
    ensures range { IsRange BIT (T.lists source.old) part rank result }
    ensures side { ((result.low ≡ range.low) × (result.left ≡ cut))
        ⊎ ((result.low ≡ range.low + cut) × (result.left ≡ range.left - cut)) }
    ensures counted { T.reads source.new ≡ lower_read (T.reads source.old) }
    ensures same { T.lists source.new ≡ T.lists source.old }
{
    let EntryRange {
        low,
        left,
        packed,
        above,
    } = range;
    let next = sought_entry::<BIT, T>(source, part * L2_ENTRIES_PER_L1_ENTRY + low + cut);
    let count = ones_to_entry(next);
    if count <= rank {
        EntryRange {
            low: low + cut,
            left: left - cut,
            packed: next,
            above,
        }
    } else {
        EntryRange {
            low,
            left: cut,
            packed,
            above: count,
        }
    }
}

/// An index in a range that is near the right entry where the bits lie evenly; any other index in the range would do.
#[inline(always)]
fn guess(range: EntryRange, rank: usize) -> usize
    requires { 34 ≤ range.left }
    ensures some { 0 < result }
    ensures fits { result + 32 < range.left }
{
    let below = ones_to_entry(range.packed);
    let (items, entries) = if range.above > below {
        (range.above - below, range.left)
    } else {
        (below, range.low)
    };
    let about = rank.wrapping_sub(below).wrapping_mul(entries) / items.max(1);
    about
        .saturating_sub(WINDOW / 2)
        .clamp(1, range.left - WINDOW - 1)
}

/// Narrows the entries of a large upper block by two halvings, whose entries stay in the caches, and by a window around
/// a guess.
#[inline(always)]
pub(crate) fn narrow_by_guess<const BIT: u8, T: TableSource>(
    source: &mut T,
    part: usize,
    range: EntryRange,
    rank: usize,
) -> EntryRange
    requires sized { HasSizes (T.lists source.old) }
    requires inside { part < length (T.lists source.old).upper }
    requires many { 2 ^ 12 ≤ range.left }
    requires first { range.low ≡ 0 }
    requires range { IsRange BIT (T.lists source.old) part rank range }
    ensures range { IsRange BIT (T.lists source.old) part rank result }
    ensures reads { (T.reads source.new).lower + digit_count (result.left - 1)
        ≤ (T.reads source.old).lower + 23 }
    ensures reads_first { result.low ≡ 0
        → (T.reads source.new).lower + digit_count (result.left - 1)
        ≤ (T.reads source.old).lower + 22 }
    ensures lower_kept { (T.reads source.old).lower ≤ (T.reads source.new).lower }
    ensures upper { (T.reads source.new).upper ≡ (T.reads source.old).upper }
    ensures words { (T.reads source.new).words ≡ (T.reads source.old).words }
    ensures same { T.lists source.new ≡ T.lists source.old }
{
    let half = side_of::<BIT, T>(source, part, range, range.left / 2, rank);
    let quarter = side_of::<BIT, T>(source, part, half, half.left / 2, rank);
    let from = guess(quarter, rank);
    let near = side_of::<BIT, T>(source, part, quarter, from, rank);
    if near.low == quarter.low {
        return near;
    }
    side_of::<BIT, T>(source, part, near, WINDOW, rank)
}

/// The last entry of a range with at most `rank` bits of the kind before it in its upper block, where the tables match
/// the words and the range has that entry; some entry of the range otherwise. Returns its number in the upper block and
/// its packed counts.
///
/// # Conditions
/// The lengths of the tables fit the words, and the range is a non-empty part of the upper block's entries.
/// # Cost
/// For n entries in the range, at most as many lower entries are read as n - 1 has binary digits, and one more where
/// the range starts with the upper block's first entry, whatever the tables hold.
// The number of rounds is the same for every rank, so only the comparison depends on what was read; the entry is kept
// beside its index, and the compiler selects both by the comparison, without a branch (docs/performance-log.md has the
// times).
#[inline(always)]
pub fn last_in_range<const BIT: u8, T: TableSource>(
    source: &mut T,
    part: usize,
    range: EntryRange,
    rank: usize,
) -> (usize, u64)
    requires sized { HasSizes (T.lists source.old) }
    requires inside { part < length (T.lists source.old).upper }
    requires range { IsRange BIT (T.lists source.old) part rank range }
    ensures from { range.low ≤ result.0 }
    ensures to { result.0 < range.low + range.left }
    ensures last { HasTables (T.lists source.old)
        → IsLastEntry (sought_in BIT (T.lists source.old).words)
        (length (T.lists source.old).lower) part rank result.0 }
    ensures entry { HasTables (T.lists source.old) → result.1
        ≡ lower_entry (sought_in BIT (T.lists source.old).words) (entry_in part result.0) }
    ensures claimed { result.1
        ≡ claimed_entry (as_bit BIT) (T.lists source.old) (entry_in part result.0) }
    ensures reads { ReadsAtMost (T.reads source.old) (T.reads source.new)
        0 (digit_count (range.left - 1) + 1) 0 }
    ensures reads_later { 0 < range.low → ReadsAtMost (T.reads source.old) (T.reads source.new)
        0 (digit_count (range.left - 1)) 0 }
    ensures same { T.lists source.new ≡ T.lists source.old }
{
    let first = part * L2_ENTRIES_PER_L1_ENTRY;
    let EntryRange {
        mut low,
        mut left,
        mut packed,
        ..
    } = range;
    while left > 1 {
        let half = left / 2;
        let next = sought_entry::<BIT, T>(source, first + low + half);
        // The entry is kept with its index, so that the compiler selects both without a branch.
        if ones_to_entry(next) <= rank {
            low += half;
            packed = next;
        }
        left -= half;
    }
    if low == 0 {
        packed = sought_entry::<BIT, T>(source, first);
    }
    (low, packed)
}
