//! Selection over a source, with a bound on its reads: first the upper block, then its entry, then the words of the
//! entry.
//!
//! The tables may hold anything: where they do not match the words, the search ends with some upper block and some
//! entry.
ghost use Rattle.std.specs.Prelude.{◌≡◌, ⊤, ℕ, ◌+◌, ◌-◌, ◌*◌, ◌/◌, ◌^◌, ◌<◌, ◌≤◌, ◌≢◌, length};
ghost use Rattle.bit_lists.specs.Bits.{digit_count};
ghost use Rattle.bit_lists.specs.Count.{ones_before, as_bit, IsSelect};
ghost use Rattle.bitm_select.specs.Answers.{HasBit, IsSelected};
ghost use Rattle.bitm_tables.specs.Reads.{upper_read, OnlyReads, ReadsAtMost};
ghost use Rattle.bitm_select.specs.Search.{sought_in, IsLastFound, IsLastPart, IsPartOf};
ghost use Rattle.bitm_tables.specs.Tables.{HasSizes, HasTables, IsIndexed, Lists, bits_in};
ghost use Rattle.bitm_tables.specs.Entry.{less};
ghost use Rattle.bitm_select.specs.Claims.{claimed_part, ClaimsNone};
ghost use Rattle.bitm_tables.specs.Answers.{IfAbsent};

use crate::search::entries::last_entry;
use crate::search::record::{NOT_READ, in_packed};
use crate::search::selected::found;
use bitm_tables::answer::Answer;
use bitm_tables::source::TableSource;

/// How the entry of a rank is found in an upper block: by binary search, or from samples.
pub trait FindsEntry<const BIT: u8, T: TableSource> {
    /// The most lower entries that a search reads.
    ghost lowers: { ℕ };

    /// Whether the value leads to the entry in these tables, so that `lowers_led` reads are enough.
    ghost leads: { Self → Lists → Type 0 };

    /// The most lower entries that a search reads where the value leads to the entry.
    ghost lowers_led: { ℕ };

    /// The last entry of an upper block with at most `rank` bits of the kind before it there, and its packed counts:
    /// the right one where the tables match the words, some entry of the upper block otherwise.
    ///
    /// # Conditions
    /// There is such an upper block, and the lengths of the tables fit the words. They may hold anything.
    fn entry(&self, source: &mut T, part: usize, rank: usize) -> (usize, u64)
        requires sized { HasSizes (T.lists source.old) }
        requires inside { part < length (T.lists source.old).upper }
        ensures last { IsLastFound BIT (T.lists source.old) part rank result }
        ensures reads { ReadsAtMost (T.reads source.old) (T.reads source.new) 0 lowers 0 }
        ensures reads_led { leads self.now (T.lists source.old)
            → ReadsAtMost (T.reads source.old) (T.reads source.new) 0 lowers_led 0 }
        ensures same { T.lists source.new ≡ T.lists source.old };
}

/// Finds entries by the two tables alone.
#[derive(Clone, Copy)]
pub struct ByTables;

impl<const BIT: u8, T: TableSource> FindsEntry<BIT, T> for ByTables {
    ghost lowers = { 23 };

    ghost leads = { λ _ _. ⊤ };

    ghost lowers_led = { 23 };

    #[inline(always)]
    fn entry(&self, source: &mut T, part: usize, rank: usize) -> (usize, u64) {
        last_entry::<BIT, T>(source, part, rank)
    }
}

/// The position of the 1 bit of the source's words with exactly `rank` 1 bits before it; of the 0 bit with `rank` 0
/// bits before it where `BIT` is 0.
///
/// Whatever the tables hold, a position that is found is in the words and has such a bit. Where they match the words,
/// it is the right position, the answer is `Absent` exactly where there is no such bit, and it is never `Wrong`.
///
/// # Conditions
/// There are fewer than 2^58 words, and the tables have the right lengths. They may hold anything.
/// # Cost
/// With u upper entries, a query reads at most one more of them than u has binary digits, 23 lower entries and eight
/// words, whatever the tables hold.
pub fn total_select_on<const BIT: u8, T: TableSource>(source: &mut T, rank: usize) -> Answer<usize>
    requires { HasSizes (T.lists source.old) }
    ensures bit { HasBit (bits_in (T.lists source.old)) (as_bit BIT) result }
    ensures answer { HasTables (T.lists source.old)
        → IsSelected (bits_in (T.lists source.old)) (as_bit BIT) rank result }
    ensures none { IfAbsent result (ClaimsNone (as_bit BIT) (T.lists source.old) rank) }
    ensures reads { OnlyReads T.lists T.reads source.old source.new
        (digit_count (length (T.lists source.old).upper) + 1) 23 8 }
{
    search_on::<BIT, 1, T, ByTables>(source, &ByTables, rank)
}

/// The position of the 1 bit of the source's words with exactly `rank` 1 bits before it, and `None` exactly where there
/// is no such bit; of the 0 bit with `rank` 0 bits before it where `BIT` is 0.
///
/// # Conditions
/// The source's tables match its words, which are fewer than 2^58.
/// # Cost
/// With u upper entries, a query reads at most one more of them than u has binary digits, 23 lower entries and eight
/// words, also where the answer is `None`.
/// # Source
/// The levels are from Zhou, Andersen and Kaminsky, 'Space-efficient, high-performance rank and select structures on
/// uncompressed bit sequences' (SEA 2013).
pub fn binary_select_on<const BIT: u8, T: TableSource>(source: &mut T, rank: usize) -> Option<usize>
    requires { IsIndexed (T.lists source.old) }
    ensures answer { IsSelect (bits_in (T.lists source.old)) (as_bit BIT) rank result }
    ensures reads { OnlyReads T.lists T.reads source.old source.new
        (digit_count (length (T.lists source.old).upper) + 1) 23 8 }
{
    found(search_on::<BIT, 0, T, ByTables>(source, &ByTables, rank))
}

/// Selects as `total_select_on` does, with entries that `finder` finds. Where `TESTS` is 0, no test looks for a
/// difference that wrapped: such a rank is in no basic block, so the words decide, and the answer may be `Absent` where
/// it would be `Wrong`.
///
/// # Conditions
/// The conditions of `total_select_on`.
/// # Cost
/// The cost of `total_select_on`, with the lower entries that `finder` reads in place of 23.
#[inline(always)]
pub fn search_on<const BIT: u8, const TESTS: u8, T: TableSource, F: FindsEntry<BIT, T>>(
    source: &mut T,
    finder: &F,
    rank: usize,
) -> Answer<usize>
    requires { HasSizes (T.lists source.old) }
    ensures bit { HasBit (bits_in (T.lists source.old)) (as_bit BIT) result }
    ensures answer { HasTables (T.lists source.old)
        → IsSelected (bits_in (T.lists source.old)) (as_bit BIT) rank result }
    ensures none { TESTS ≢ 0
        → IfAbsent result (ClaimsNone (as_bit BIT) (T.lists source.old) rank) }
    ensures reads { OnlyReads T.lists T.reads source.old source.new
        (digit_count (length (T.lists source.old).upper) + 1) F.lowers 8 }
    ensures reads_led { F.leads finder.now (T.lists source.old)
        → ReadsAtMost (T.reads source.old) (T.reads source.new)
        (digit_count (length (T.lists source.old).upper) + 1) F.lowers_led 8 }
{
    if source.upper_len() == 0 {
        return Answer::Absent;
    }
    let (part, in_part) = part_of_rank::<BIT, T>(source, rank);
    if TESTS != 0 && in_part > rank {
        return Answer::Wrong;
    }
    let (entry, packed) = finder.entry(source, part, in_part);
    in_packed::<BIT, TESTS, T>(source, part, entry, packed, NOT_READ, in_part)
}

/// The number of 1 bits before an upper block, or of 0 bits where `BIT` is 0, where the tables match the words.
#[inline(always)]
pub fn before_part<const BIT: u8, T: TableSource>(source: &mut T, part: usize) -> usize
    requires { part < length (T.lists source.old).upper }
    ensures count { IsIndexed (T.lists source.old) → result
        ≡ ones_before (sought_in BIT (T.lists source.old).words) (part * 2 ^ 32) }
    ensures claimed { result ≡ claimed_part (as_bit BIT) (T.lists source.old) part }
    ensures counted { T.reads source.new ≡ upper_read (T.reads source.old) }
    ensures same { T.lists source.new ≡ T.lists source.old }
{
    let ones = source.upper(part);
    if BIT == 0 {
        (part << 32).wrapping_sub(ones)
    } else {
        ones
    }
}

/// The last upper block with at most `rank` bits of the kind before it, where the tables match the words; some upper
/// block otherwise.
///
/// # Conditions
/// There is an upper block. The tables may hold anything.
/// # Cost
/// With u upper entries, at most as many of them are read as u has binary digits, whatever they hold.
pub fn last_part<const BIT: u8, T: TableSource>(source: &mut T, rank: usize) -> usize
    requires { 0 < length (T.lists source.old).upper }
    ensures inside { result < length (T.lists source.old).upper }
    ensures last { IsIndexed (T.lists source.old)
        → IsLastPart (sought_in BIT (T.lists source.old).words)
        (length (T.lists source.old).upper) rank result }
    ensures reads { ReadsAtMost (T.reads source.old) (T.reads source.new)
        (digit_count (length (T.lists source.old).upper)) 0 0 }
    ensures same { T.lists source.new ≡ T.lists source.old }
{
    let mut low = 0;
    let mut left = source.upper_len();
    while left > 1 {
        let half = left / 2;
        if before_part::<BIT, T>(source, low + half) <= rank {
            low += half;
        }
        left -= half;
    }
    low
}

/// The last upper block with at most `rank` bits of the kind before it and the rank within it, where the tables match
/// the words; some upper block otherwise. In wrong tables the difference may wrap: no basic block has a bit of such a
/// rank.
///
/// # Conditions
/// There is an upper block. The tables may hold anything.
#[inline(always)]
pub fn part_of_rank<const BIT: u8, T: TableSource>(source: &mut T, rank: usize) -> (usize, usize)
    requires { 0 < length (T.lists source.old).upper }
    ensures inside { result.0 < length (T.lists source.old).upper }
    ensures part { IsIndexed (T.lists source.old)
        → IsPartOf BIT (T.lists source.old) rank result.0 result.1 }
    ensures claimed { result.1
        ≡ less rank (claimed_part (as_bit BIT) (T.lists source.old) result.0) }
    ensures fits { claimed_part (as_bit BIT) (T.lists source.old) result.0 < 2 ^ 64 }
    ensures reads { ReadsAtMost (T.reads source.old) (T.reads source.new)
        (digit_count (length (T.lists source.old).upper) + 1) 0 0 }
    ensures same { T.lists source.new ≡ T.lists source.old }
{
    let part = last_part::<BIT, T>(source, rank);
    let before = before_part::<BIT, T>(source, part);
    (part, rank.wrapping_sub(before))
}
