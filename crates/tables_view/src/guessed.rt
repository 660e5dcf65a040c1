//! Interpolation between two samples, over a source with any tables and samples: the search for the lower block of a
//! rank first looks near the guess, entry by entry or in a window, and then searches as `sampled` does.
ghost use Rattle.std.specs.Prelude.{◌≡◌, ◌+◌, ◌*◌, ◌^◌, ◌<◌, ◌≤◌, length, IfSome};
ghost use Rattle.bit_lists.specs.Count.{as_bit};
ghost use Rattle.bitm_tables.specs.Entry.{before_in_part, entries_from};
ghost use Rattle.bitm_tables.specs.Reads.{ReadsAtMost};
ghost use Rattle.bitm_select.specs.Search.{entry_in, sought_in, IsLastFound};
ghost use Rattle.bitm_tables.specs.Tables.{HasSizes, HasTables, bits_in};
ghost use Rattle.tables_view.specs.Samples.{AreSamplesOf};
ghost use Rattle.bitm_select.specs.Claims.{claimed_entry};

use crate::sampled::{Bounds, entry_between, entry_by_samples, samples_to};
use crate::samples::{SamplesView, clamped_log};
use bitm_select::search::entries::last_entry;
use bitm_select::search::selecting::FindsEntry;
use bitm_select::search::steps::entry_by_steps;
use bitm_tables::entry::entries_of_part;
use bitm_tables::source::TableSource;
use tuning::{ENTRIES_TO_STEP, ENTRIES_TOO_FAR};

/// Entries in a window around a guess.
const WINDOW: usize = 8;

/// The number of them before the guess.
const BEFORE: usize = 3;

/// Finds entries by interpolation between two samples; by the tables alone where there are no samples.
#[derive(Clone, Copy)]
pub struct ByGuess<'a> {
    /// The samples. They may hold anything.
    pub samples: SamplesView<'a>,
}

/// Where the search for the entry of a rank starts.
#[derive(Clone, Copy)]
struct Guess {
    /// The guessed entry, by number in its upper block: near the right one where the bits lie evenly between two
    /// samples and the samples match the words; any number otherwise.
    at: usize,
    /// The number of entries between the two samples, if these match the words; any number otherwise.
    between: usize,
}

/// The guess for the bit with rank `rank` in an upper block.
#[inline(always)]
fn guess_of(borrowed: &SamplesView<'_>, part: usize, rank: usize) -> Guess
    requires { part < 2 ^ 60 }
{
    let log2 = clamped_log(borrowed.log2);
    let begin = samples_to(borrowed, part).wrapping_add(rank >> log2);
    let Some(sample) = borrowed.samples.get(begin) else {
        return Guess {
            at: 0,
            between: ENTRIES_TOO_FAR,
        };
    };
    let low = (*sample & 0x1F_FFFF) as usize;
    let between = match borrowed.samples.get(begin.wrapping_add(1)) {
        Some(next) => ((*next & 0x1F_FFFF) as usize).wrapping_sub(low),
        // The sample holds how many entries later the bit in the middle of its interval is.
        None => 2 * (*sample >> 21) as usize,
    };
    let interval = 1usize << log2;
    let items = rank & interval.wrapping_sub(1);
    let passed = items.wrapping_mul(between).wrapping_add(interval >> 1) >> log2;
    Guess {
        at: low.wrapping_add(passed),
        between,
    }
}

/// Like `entry_by_steps`, by three halvings of the eight entries around entry `about`, without a branch on where the
/// entry is. `None` where it is not among these.
#[inline(always)]
fn entry_in_window<const BIT: u8, T: TableSource>(
    source: &mut T,
    part: usize,
    about: usize,
    rank: usize,
) -> Option<(usize, u64)>
    requires sized { HasSizes (T.lists source.old) }
    requires inside { part < length (T.lists source.old).upper }
    ensures last { IfSome result (IsLastFound BIT (T.lists source.old) part rank) }
    ensures reads { ReadsAtMost (T.reads source.old) (T.reads source.new) 0 5 0 }
    ensures same { T.lists source.new ≡ T.lists source.old }
{
    let entries = entries_of_part(source.lower_len(), part);
    if entries < WINDOW {
        return None;
    }
    let low = about.saturating_sub(BEFORE).min(entries - WINDOW);
    let bounds = Bounds {
        low,
        end: low + WINDOW,
    };
    entry_between::<BIT, T>(source, part, bounds, rank)
}

/// The last entry of an upper block with at most `rank` bits of the kind before it there, and its packed counts: the
/// right one where the tables match the words. `None` where it is not near the guess. A `SIDE_BY_SIDE` of 0 takes the
/// way that is fastest for one query, any other the one that is fastest for many: without a branch on where the entry
/// is.
#[inline(always)]
fn guessed_entry<const BIT: u8, const SIDE_BY_SIDE: u8, T: TableSource>(
    source: &mut T,
    borrowed: &SamplesView<'_>,
    part: usize,
    rank: usize,
) -> Option<(usize, u64)>
    requires sized { HasSizes (T.lists source.old) }
    requires inside { part < length (T.lists source.old).upper }
    ensures last { IfSome result (IsLastFound BIT (T.lists source.old) part rank) }
    ensures reads { ReadsAtMost (T.reads source.old) (T.reads source.new) 0 5 0 }
    ensures same { T.lists source.new ≡ T.lists source.old }
{
    let Guess { at, between } = guess_of(borrowed, part, rank);
    if between >= ENTRIES_TOO_FAR {
        return None;
    }
    if SIDE_BY_SIDE == 0 && between < ENTRIES_TO_STEP {
        entry_by_steps::<BIT, T>(source, part, at, rank)
    } else {
        entry_in_window::<BIT, T>(source, part, at, rank)
    }
}

/// The last entry of an upper block with at most `rank` bits of the kind before it there, and its packed counts: the
/// right one where the tables match the words, some entry of the upper block otherwise. The search looks near the guess
/// first, then between the samples, and last without them.
#[inline(always)]
pub(crate) fn entry_by_guess<const BIT: u8, const SIDE_BY_SIDE: u8, T: TableSource>(
    source: &mut T,
    borrowed: &SamplesView<'_>,
    part: usize,
    rank: usize,
) -> (usize, u64)
    requires sized { HasSizes (T.lists source.old) }
    requires inside { part < length (T.lists source.old).upper }
    ensures last { IsLastFound BIT (T.lists source.old) part rank result }
    ensures reads { ReadsAtMost (T.reads source.old) (T.reads source.new) 0 51 0 }
    ensures reads_by_samples { HasTables (T.lists source.old)
        → AreSamplesOf (bits_in (T.lists source.old)) (as_bit BIT) borrowed.now
        → ReadsAtMost (T.reads source.old) (T.reads source.new) 0 28 0 }
    ensures same { T.lists source.new ≡ T.lists source.old }
{
    match guessed_entry::<BIT, SIDE_BY_SIDE, T>(source, borrowed, part, rank) {
        Some(found) => found,
        None => entry_far_off::<BIT, T>(source, borrowed, part, rank),
    }
}

/// Calls `entry_by_samples` after a wrong guess. Not inlined, so that the code of the guess stays small enough to be.
#[inline(never)]
fn entry_far_off<const BIT: u8, T: TableSource>(
    source: &mut T,
    borrowed: &SamplesView<'_>,
    part: usize,
    rank: usize,
) -> (usize, u64)
    requires sized { HasSizes (T.lists source.old) }
    requires inside { part < length (T.lists source.old).upper }
    ensures last { IsLastFound BIT (T.lists source.old) part rank result }
    ensures reads { ReadsAtMost (T.reads source.old) (T.reads source.new) 0 46 0 }
    ensures reads_by_samples { HasTables (T.lists source.old)
        → AreSamplesOf (bits_in (T.lists source.old)) (as_bit BIT) borrowed.now
        → ReadsAtMost (T.reads source.old) (T.reads source.new) 0 23 0 }
    ensures same { T.lists source.new ≡ T.lists source.old }
{
    entry_by_samples::<BIT, T>(source, borrowed, part, rank)
}

impl<'a, const BIT: u8, T: TableSource> FindsEntry<BIT, T> for ByGuess<'a> {
    ghost lowers = { 51 };

    ghost lowers_led = { 28 };

    ghost leads = { λ by lists. HasTables lists
        × AreSamplesOf (bits_in lists) (as_bit BIT) by.samples };

    #[inline(always)]
    fn entry(&self, source: &mut T, part: usize, rank: usize) -> (usize, u64) {
        if self.samples.samples.is_empty() {
            return last_entry::<BIT, T>(source, part, rank);
        }
        entry_by_guess::<BIT, 0, T>(source, &self.samples, part, rank)
    }
}
