//! The search for an entry of an upper block, in tables that may hold anything: binary search, and a guess first where
//! the bits lie evenly or there are many entries. It ends with some entry of the upper block where the tables do not
//! match the words.
ghost use Rattle.std.specs.Prelude.{◌≡◌, ◌+◌, ◌-◌, ◌*◌, ◌/◌, ◌^◌, ◌<◌, ◌≤◌, ◌⊎◌, length};
ghost use Rattle.bit_lists.specs.Bits.{digit_count};
ghost use Rattle.bit_lists.specs.Count.{as_bit};
ghost use Rattle.bitm_tables.specs.Entry.{lower_entry, entries_from};
ghost use Rattle.bitm_tables.specs.Reads.{lower_read, ReadsAtMost};
ghost use Rattle.bitm_select.specs.Search.{entry_in, sought_in, IsAmongIn, IsLastEntry, IsLastFound, IsRange};
ghost use Rattle.bitm_tables.specs.Tables.{HasSizes, HasTables};
ghost use Rattle.bitm_select.specs.Claims.{claimed_entry};

use crate::search::entry_range::{EntryRange, last_in_range, narrow_by_guess};
use crate::search::record::is_at_most;
use crate::search::steps::entry_if_even;
use bitm_tables::entry::{complement_entry, entries_of_part, ones_to_entry};
use bitm_tables::levels::L2_ENTRIES_PER_L1_ENTRY;
use bitm_tables::source::TableSource;
use tuning::{FEW_ENTRIES, FEWEST_HALVINGS_TO_GUESS};

/// The number of halvings that are unrolled at the end of a search.
const LAST: u32 = 8;

/// Where the bits lie evenly, a search takes a guess in place of at most this many halvings: after a wrong guess, which
/// reads seven entries, these halvings are within the 23 entries that a search reads at most.
const MOST_TO_GUESS: u32 = 14;

/// Lower entry `at` of the kind of bit that is sought, where the tables match the words: complemented where `BIT` is 0.
///
/// # Conditions
/// There is such an entry. It may hold anything.
#[inline(always)]
pub fn sought_entry<const BIT: u8, T: TableSource>(source: &mut T, at: usize) -> u64
    requires { at < length (T.lists source.old).lower }
    ensures entry { HasTables (T.lists source.old) → result
        ≡ lower_entry (sought_in BIT (T.lists source.old).words) at }
    ensures claimed { result ≡ claimed_entry (as_bit BIT) (T.lists source.old) at }
    ensures counted { T.reads source.new ≡ lower_read (T.reads source.old) }
    ensures same { T.lists source.new ≡ T.lists source.old }
{
    let entry = source.lower(at);
    if BIT == 0 {
        complement_entry(entry, at)
    } else {
        entry
    }
}

/// `last_entry` for many entries: as for few up to the number for which that takes a guess, and above it binary search
/// in what a guess leaves. Not inlined, so that the search over few entries is.
#[inline(never)]
fn last_of_many<const BIT: u8, T: TableSource>(
    source: &mut T,
    part: usize,
    rank: usize,
) -> (usize, u64)
    requires sized { HasSizes (T.lists source.old) }
    requires inside { part < length (T.lists source.old).upper }
    requires many { 2 ^ 12 ≤ entries_from (length (T.lists source.old).lower) part }
    ensures last { IsLastFound BIT (T.lists source.old) part rank result }
    ensures reads { ReadsAtMost (T.reads source.old) (T.reads source.new) 0 23 0 }
    ensures same { T.lists source.new ≡ T.lists source.old }
{
    let entries = entries_of_part(source.lower_len(), part);
    if entries < 2 << MOST_TO_GUESS {
        return last_of_few::<BIT, T>(source, part, entries, rank);
    }
    let all = EntryRange {
        low: 0,
        left: entries,
        packed: 0,
        above: 0,
    };
    let range = narrow_by_guess::<BIT, T>(source, part, all, rank);
    last_in_range::<BIT, T>(source, part, range, rank)
}

/// Entry `low` + 2^`size` of an upper block where at most `rank` bits of the kind come before it there, else entry
/// `low`: a sum without a branch on the count.
#[inline(always)]
fn step<const BIT: u8, T: TableSource>(
    source: &mut T,
    part: usize,
    low: usize,
    size: u32,
    rank: usize,
) -> usize
    requires sized { HasSizes (T.lists source.old) }
    requires size { size < 21 }
    requires room { low + 2 ^ (size + 1) ≤ entries_from (length (T.lists source.old).lower) part }
    ensures room { result + 2 ^ size ≤ entries_from (length (T.lists source.old).lower) part }
    ensures among { HasTables (T.lists source.old)
        → IsAmongIn BIT (T.lists source.old) part rank low (2 ^ (size + 1))
        → IsAmongIn BIT (T.lists source.old) part rank result (2 ^ size) }
    ensures counted { T.reads source.new ≡ lower_read (T.reads source.old) }
    ensures same { T.lists source.new ≡ T.lists source.old }
{
    let at = part * L2_ENTRIES_PER_L1_ENTRY + low + (1 << size);
    let count = ones_to_entry(sought_entry::<BIT, T>(source, at));
    low + (is_at_most(count, rank) << size)
}

/// The first of the 2^`to` entries that halving leaves of the 2^`from` entries from entry `begin` on.
#[inline(always)]
fn halve<const BIT: u8, T: TableSource>(
    source: &mut T,
    part: usize,
    begin: usize,
    from: u32,
    to: u32,
    rank: usize,
) -> usize
    requires sized { HasSizes (T.lists source.old) }
    requires most { from ≤ 21 }
    requires down { to ≤ from }
    requires room { begin + 2 ^ from ≤ entries_from (length (T.lists source.old).lower) part }
    ensures room { result + 2 ^ to ≤ entries_from (length (T.lists source.old).lower) part }
    ensures among { HasTables (T.lists source.old)
        → IsAmongIn BIT (T.lists source.old) part rank begin (2 ^ from)
        → IsAmongIn BIT (T.lists source.old) part rank result (2 ^ to) }
    ensures reads { ReadsAtMost (T.reads source.old) (T.reads source.new) 0 (from - to) 0 }
    ensures same { T.lists source.new ≡ T.lists source.old }
{
    let mut low = begin;
    let mut size = from;
    while size > to {
        size -= 1;
        low = step::<BIT, T>(source, part, low, size, rank);
    }
    low
}

/// The entry that halving leaves of the 2^`size` entries from entry `begin` on. The last halvings are the same in every
/// search, so that the compiler unrolls them.
#[inline(always)]
fn halve_all<const BIT: u8, T: TableSource>(
    source: &mut T,
    part: usize,
    begin: usize,
    size: u32,
    rank: usize,
) -> usize
    requires sized { HasSizes (T.lists source.old) }
    requires most { size ≤ 21 }
    requires room { begin + 2 ^ size ≤ entries_from (length (T.lists source.old).lower) part }
    ensures room { result < entries_from (length (T.lists source.old).lower) part }
    ensures among { HasTables (T.lists source.old)
        → IsAmongIn BIT (T.lists source.old) part rank begin (2 ^ size)
        → IsAmongIn BIT (T.lists source.old) part rank result 1 }
    ensures reads { ReadsAtMost (T.reads source.old) (T.reads source.new) 0 size 0 }
    ensures same { T.lists source.new ≡ T.lists source.old }
{
    if size < LAST {
        return halve::<BIT, T>(source, part, begin, size, 0, rank);
    }
    let near = halve::<BIT, T>(source, part, begin, size, LAST, rank);
    halve::<BIT, T>(source, part, near, LAST, 0, rank)
}

/// The greatest exponent whose power of two is at most the given number of entries.
#[inline(always)]
fn whole_halvings(entries: usize) -> u32
    requires some { 0 < entries }
    requires few { entries ≤ 2 ^ 21 }
    ensures least { 2 ^ result ≤ entries }
    ensures most { entries < 2 * 2 ^ result }
    ensures few { result ≤ 21 }
{
    entries.ilog2()
}

/// The first of 2^`size` entries of an upper block that have the entry of this rank among them: its last 2^`size`
/// entries or its first, which may overlap.
#[inline(always)]
fn first_half<const BIT: u8, T: TableSource>(
    source: &mut T,
    part: usize,
    entries: usize,
    size: u32,
    rank: usize,
) -> usize
    requires sized { HasSizes (T.lists source.old) }
    requires all { entries ≡ entries_from (length (T.lists source.old).lower) part }
    requires least { 2 ^ size ≤ entries }
    requires most { entries < 2 * 2 ^ size }
    requires few { size ≤ 21 }
    ensures room { result + 2 ^ size ≤ entries }
    ensures among { HasTables (T.lists source.old)
        → IsAmongIn BIT (T.lists source.old) part rank result (2 ^ size) }
    ensures counted { T.reads source.new ≡ lower_read (T.reads source.old) }
    ensures same { T.lists source.new ≡ T.lists source.old }
{
    let last = entries - (1 << size);
    let entry = sought_entry::<BIT, T>(source, part * L2_ENTRIES_PER_L1_ENTRY + last);
    if ones_to_entry(entry) <= rank {
        last
    } else {
        0
    }
}

/// `last_entry` by binary search alone, in 2^`size` entries or more, but fewer than twice as many.
#[inline(always)]
fn last_by_halves<const BIT: u8, T: TableSource>(
    source: &mut T,
    part: usize,
    entries: usize,
    size: u32,
    rank: usize,
) -> (usize, u64)
    requires sized { HasSizes (T.lists source.old) }
    requires all { entries ≡ entries_from (length (T.lists source.old).lower) part }
    requires least { 2 ^ size ≤ entries }
    requires most { entries < 2 * 2 ^ size }
    requires few { size ≤ 21 }
    ensures last { IsLastFound BIT (T.lists source.old) part rank result }
    ensures reads { ReadsAtMost (T.reads source.old) (T.reads source.new) 0 (size + 2) 0 }
    ensures same { T.lists source.new ≡ T.lists source.old }
{
    let begin = first_half::<BIT, T>(source, part, entries, size, rank);
    let low = halve_all::<BIT, T>(source, part, begin, size, rank);
    (
        low,
        sought_entry::<BIT, T>(source, part * L2_ENTRIES_PER_L1_ENTRY + low),
    )
}

/// `last_entry` by a guess where the bits lie evenly, and else by binary search. Without its 21 halvings, which few
/// entries do not need, the guess reads no more than binary search may.
#[inline(always)]
fn last_of_few<const BIT: u8, T: TableSource>(
    source: &mut T,
    part: usize,
    entries: usize,
    rank: usize,
) -> (usize, u64)
    requires sized { HasSizes (T.lists source.old) }
    requires inside { part < length (T.lists source.old).upper }
    requires all { entries ≡ entries_from (length (T.lists source.old).lower) part }
    requires some { 0 < entries }
    ensures last { IsLastFound BIT (T.lists source.old) part rank result }
    ensures reads { ReadsAtMost (T.reads source.old) (T.reads source.new) 0 23 0 }
    ensures same { T.lists source.new ≡ T.lists source.old }
{
    let size = whole_halvings(entries);
    if size >= FEWEST_HALVINGS_TO_GUESS && size <= MOST_TO_GUESS {
        if let Some(found) = entry_if_even::<BIT, T>(source, part, entries, size, rank) {
            return found;
        }
    }
    last_by_halves::<BIT, T>(source, part, entries, size, rank)
}

/// The last entry of an upper block with at most `rank` bits of the kind before it there, where the tables match the
/// words; some entry of the upper block otherwise. Returns its number in the upper block and its packed counts.
///
/// # Conditions
/// There is such an upper block, and the lengths of the tables fit the words. They may hold anything.
/// # Cost
/// At most 23 lower entries are read, whatever the tables hold.
#[inline(always)]
pub fn last_entry<const BIT: u8, T: TableSource>(
    source: &mut T,
    part: usize,
    rank: usize,
) -> (usize, u64)
    requires sized { HasSizes (T.lists source.old) }
    requires inside { part < length (T.lists source.old).upper }
    ensures last { IsLastFound BIT (T.lists source.old) part rank result }
    ensures reads { ReadsAtMost (T.reads source.old) (T.reads source.new) 0 23 0 }
    ensures same { T.lists source.new ≡ T.lists source.old }
{
    let entries = entries_of_part(source.lower_len(), part);
    if entries <= FEW_ENTRIES {
        return last_of_few::<BIT, T>(source, part, entries, rank);
    }
    last_of_many::<BIT, T>(source, part, rank)
}
