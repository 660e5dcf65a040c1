//! The search for an entry near a guess, entry by entry, in tables that may hold anything; and the guess where the bits
//! of an upper block lie evenly.
ghost use Rattle.std.specs.Prelude.{◌≡◌, ◌+◌, ◌*◌, ◌^◌, ◌<◌, ◌≤◌, length, IfSome};
ghost use Rattle.bit_lists.specs.Count.{as_bit};
ghost use Rattle.bitm_tables.specs.Entry.{before_in_part, entries_from};
ghost use Rattle.bitm_tables.specs.Reads.{ReadsAtMost};
ghost use Rattle.bitm_tables.specs.Tables.{HasSizes, HasTables};
ghost use Rattle.bitm_select.specs.Search.{entry_in, sought_in, IsLastFound};
ghost use Rattle.bitm_select.specs.Claims.{claimed_entry};

use crate::search::entries::sought_entry;
use bitm_tables::entry::{entries_of_part, ones_to_entry};
use bitm_tables::levels::L2_ENTRIES_PER_L1_ENTRY;
use bitm_tables::source::TableSource;

/// The number of entries on either side of a guess that are read one after another.
const STEPS: usize = 4;

/// The last entry of an upper block with at most `rank` bits of the kind before it there, and its packed counts: the
/// right one where the tables match the words. The search starts at entry `at`, which packs `packed` and has at most
/// `rank` before it. `None` where the right entry is neither `at` nor one of the three after it.
#[inline(always)]
fn steps_on<const BIT: u8, T: TableSource>(
    source: &mut T,
    part: usize,
    at: usize,
    packed: u64,
    rank: usize,
) -> Option<(usize, u64)>
    requires sized { HasSizes (T.lists source.old) }
    requires inside { part < length (T.lists source.old).upper }
    requires at { at < entries_from (length (T.lists source.old).lower) part }
    requires at_most { HasTables (T.lists source.old)
        → before_in_part (sought_in BIT (T.lists source.old).words) (entry_in part at) ≤ rank }
    requires packed { packed ≡ claimed_entry (as_bit BIT) (T.lists source.old) (entry_in part at) }
    ensures last { IfSome result (IsLastFound BIT (T.lists source.old) part rank) }
    ensures reads { ReadsAtMost (T.reads source.old) (T.reads source.new) 0 4 0 }
    ensures same { T.lists source.new ≡ T.lists source.old }
{
    let first = part * L2_ENTRIES_PER_L1_ENTRY;
    let end = entries_of_part(source.lower_len(), part);
    let mut packed = packed;
    for k in 0..STEPS {
        let next = at + k + 1;
        if next >= end {
            return Some((at + k, packed));
        }
        let entry = sought_entry::<BIT, T>(source, first + next);
        if rank < ones_to_entry(entry) {
            return Some((at + k, packed));
        }
        packed = entry;
    }
    None
}

/// The last entry of an upper block with at most `rank` bits of the kind before it there, and its packed counts: the
/// right one where the tables match the words. The search starts at entry `at`, which has more than `rank` before it.
/// `None` where the right entry is not one of the four before it.
#[inline(always)]
fn steps_back<const BIT: u8, T: TableSource>(
    source: &mut T,
    part: usize,
    at: usize,
    rank: usize,
) -> Option<(usize, u64)>
    requires sized { HasSizes (T.lists source.old) }
    requires inside { part < length (T.lists source.old).upper }
    requires at { at < entries_from (length (T.lists source.old).lower) part }
    requires above { HasTables (T.lists source.old)
        → rank < before_in_part (sought_in BIT (T.lists source.old).words) (entry_in part at) }
    ensures last { IfSome result (IsLastFound BIT (T.lists source.old) part rank) }
    ensures reads { ReadsAtMost (T.reads source.old) (T.reads source.new) 0 4 0 }
    ensures same { T.lists source.new ≡ T.lists source.old }
{
    let first = part * L2_ENTRIES_PER_L1_ENTRY;
    for k in 0..STEPS {
        if at <= k {
            return None;
        }
        let next = at - k - 1;
        let entry = sought_entry::<BIT, T>(source, first + next);
        if ones_to_entry(entry) <= rank {
            return Some((next, entry));
        }
    }
    None
}

/// The last entry of an upper block with at most `rank` bits of the kind before it there, and its packed counts: the
/// right one where the tables match the words. The search looks at entry `about` and at most four entries before or
/// after it, and returns `None` where this does not find it.
#[inline(always)]
pub fn entry_by_steps<const BIT: u8, T: TableSource>(
    source: &mut T,
    part: usize,
    about: usize,
    rank: usize,
) -> Option<(usize, u64)>
    requires sized { HasSizes (T.lists source.old) }
    requires inside { part < length (T.lists source.old).upper }
    ensures last { IfSome result (IsLastFound BIT (T.lists source.old) part rank) }
    ensures reads { ReadsAtMost (T.reads source.old) (T.reads source.new) 0 5 0 }
    ensures same { T.lists source.new ≡ T.lists source.old }
{
    let entries = entries_of_part(source.lower_len(), part);
    let at = about.min(entries - 1);
    let packed = sought_entry::<BIT, T>(source, part * L2_ENTRIES_PER_L1_ENTRY + at);
    if ones_to_entry(packed) <= rank {
        steps_on::<BIT, T>(source, part, at, packed, rank)
    } else {
        steps_back::<BIT, T>(source, part, at, rank)
    }
}

/// The entry that a rank would have if the bits of the kind lay evenly in an upper block, which need not be one of its
/// entries. `None` where the entry in the middle says that they do not: it is more than eight entries from where an
/// even half would be.
///
/// All searches in an upper block read the same two entries and go the same way, so neither costs much.
#[inline(always)]
fn even_guess<const BIT: u8, T: TableSource>(
    source: &mut T,
    part: usize,
    entries: usize,
    size: u32,
    rank: usize,
) -> Option<usize>
    requires sized { HasSizes (T.lists source.old) }
    requires all { entries ≡ entries_from (length (T.lists source.old).lower) part }
    requires some { 0 < entries }
    requires most { size < 21 }
    ensures reads { ReadsAtMost (T.reads source.old) (T.reads source.new) 0 2 0 }
    ensures same { T.lists source.new ≡ T.lists source.old }
{
    let first = part * L2_ENTRIES_PER_L1_ENTRY;
    let last = entries - 1;
    let all = ones_to_entry(sought_entry::<BIT, T>(source, first + last));
    let half = ones_to_entry(sought_entry::<BIT, T>(source, first + last / 2));
    if (2 * half).abs_diff(all) > all * 8 >> size {
        return None;
    }
    Some(rank.wrapping_mul(last) / all.max(1))
}

/// The last entry of an upper block with at most `rank` bits of the kind before it there, and its packed counts: the
/// right one where the tables match the words. `None` where the bits of the kind do not lie evenly in the upper block,
/// which has 2^`size` entries or more, but fewer than twice as many.
///
/// # Conditions
/// The upper block has this number of entries, and the lengths of the tables fit the words. They may hold anything.
/// # Cost
/// At most seven lower entries are read, whatever the tables hold.
#[inline(always)]
pub fn entry_if_even<const BIT: u8, T: TableSource>(
    source: &mut T,
    part: usize,
    entries: usize,
    size: u32,
    rank: usize,
) -> Option<(usize, u64)>
    requires sized { HasSizes (T.lists source.old) }
    requires inside { part < length (T.lists source.old).upper }
    requires all { entries ≡ entries_from (length (T.lists source.old).lower) part }
    requires some { 0 < entries }
    requires most { size < 21 }
    ensures last { IfSome result (IsLastFound BIT (T.lists source.old) part rank) }
    ensures reads { ReadsAtMost (T.reads source.old) (T.reads source.new) 0 7 0 }
    ensures same { T.lists source.new ≡ T.lists source.old }
{
    let about = even_guess::<BIT, T>(source, part, entries, size, rank)?;
    entry_by_steps::<BIT, T>(source, part, about, rank)
}
