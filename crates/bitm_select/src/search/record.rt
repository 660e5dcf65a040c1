//! Selection in the lower block of an entry that was found: the basic block, its word, the bit of the word. The entry
//! may be any: where it is not the entry of the rank, the words decide.
ghost use Rattle.std.specs.Prelude.{◌≡◌, ◌+◌, ◌-◌, ◌*◌, ◌/◌, ◌%◌, ◌^◌, ◌<◌, ◌≤◌, ◌≢◌};
ghost use Rattle.std.specs.Prelude.{length, count_ones, slice_index, IfSome, MatchOption};
ghost use Rattle.bit_lists.specs.Bits.{bits_of, IsShort};
ghost use Rattle.bit_lists.specs.Count.{ones_before, as_bit, count_of, Picks};
ghost use Rattle.bitm_select.specs.Answers.{HasBit, IsFoundFrom, IsSelected, IsSelectedFrom};
ghost use Rattle.bitm_tables.specs.Entry.{field_0, field_1, field_2, field_3};
ghost use Rattle.bitm_tables.specs.Entry.{lower_entry, record_field, entries_from, less};
ghost use Rattle.bitm_tables.specs.Reads.{word_read, ReadsAtMost};
ghost use Rattle.bitm_select.specs.Search.{entry_in, sought_in, IsCountAbove, IsLastEntry, IsLastPart, IsLastWithin};
ghost use Rattle.bitm_select.specs.Search.{IsWord};
ghost use Rattle.bitm_select.specs.Search.{AreOnesToWords, CountsRise};
ghost use Rattle.bitm_tables.specs.Tables.{HasSizes, HasTables, bits_in};
ghost use Rattle.bitm_select.specs.Claims.{EntryClaimsNone};
ghost use Rattle.bitm_tables.specs.Answers.{IfAbsent};

use bitm_tables::answer::Answer;
use bitm_tables::entry::{ones_to_entry, ones_to_record};
use bitm_tables::levels::{L2_ENTRIES_PER_L1_ENTRY, U64_PER_L2_ENTRY, U64_PER_L2_RECORDS};
use bitm_tables::source::TableSource;
use broadword::select64;
use tuning::WORDS_IN_CACHE;

/// Stands for the number of bits of the kind before the next entry, where that entry was not read.
pub const NOT_READ: usize = 1 << 62;

/// 1 where `count` is at most `rank`, else 0.
#[inline(always)]
pub fn is_at_most(count: usize, rank: usize) -> usize
    ensures yes { count ≤ rank → result ≡ 1 }
    ensures no { rank < count → result ≡ 0 }
{
    (count <= rank) as usize
}

/// The basic block of an entry that has the 1 bit with this rank in the entry, and the number of 1 bits of the entry
/// before it: three comparisons and no branch.
///
/// Where the entry's counts fall from one basic block to the next, as in no entry of a right table, it is some basic
/// block of the entry.
#[inline(always)]
pub fn record_of(entry: u64, rank: usize) -> (usize, usize)
    ensures inside { result.0 < 4 }
    ensures before { result.1 ≡ record_field entry result.0 }
    ensures at_most { field_1 entry ≤ field_2 entry → field_2 entry ≤ field_3 entry
        → result.1 ≤ rank }
    ensures next { field_1 entry ≤ field_2 entry → field_2 entry ≤ field_3 entry
        → result.0 < 3 → rank < record_field entry (result.0 + 1) }
{
    let one = (entry >> 54) as usize;
    let two = (entry >> 43 & 0x7FF) as usize;
    let three = (entry >> 32 & 0x7FF) as usize;
    let position = is_at_most(one, rank) + is_at_most(two, rank) + is_at_most(three, rank);
    (position, ones_to_record(entry, position))
}

/// The position in a word of the 1 bit with `rank` 1 bits before it.
///
/// # Conditions
/// The word has more than `rank` 1 bits.
#[inline(always)]
pub fn select_in_word(word: u64, rank: usize) -> usize
    requires { rank < count_ones word }
    ensures inside { result < 64 }
    ensures before { count_ones (word % 2 ^ result) ≡ rank }
    ensures after { count_ones (word % 2 ^ (result + 1)) ≡ rank + 1 }
{
    select64(word, rank as u8) as usize
}

/// Word `at`, negated where `BIT` is 0: its 1 bits are the bits of the sought kind.
///
/// # Conditions
/// There is such a word. The tables may hold anything.
#[inline(always)]
pub fn sought_word<const BIT: u8, T: TableSource>(source: &mut T, at: usize) -> u64
    requires { at < length (T.lists source.old).words }
    ensures word { IsWord (sought_in BIT (T.lists source.old).words) at result }
    ensures counted { T.reads source.new ≡ word_read (T.reads source.old) }
    ensures same { T.lists source.new ≡ T.lists source.old }
{
    let word = source.word(at);
    if BIT == 0 { !word } else { word }
}

/// Selection among `count` words from `first` on. The rank counts from the first of these.
#[inline(always)]
pub fn among<const BIT: u8, T: TableSource>(
    source: &mut T,
    first: usize,
    count: usize,
    rank: usize,
) -> Option<usize>
    requires short { IsShort (T.lists source.old).words }
    requires first { first < 2 ^ 60 }
    requires most { count ≤ 8 }
    requires inside { count ≤ length (T.lists source.old).words - first }
    ensures answer { let m = sought_in BIT (T.lists source.old).words in
        MatchOption result
        (ones_before m (64 * (first + count)) ≤ ones_before m (64 * first) + rank)
        (Picks (bits_in (T.lists source.old)) (as_bit BIT) (ones_before m (64 * first) + rank)) }
    ensures inside { IfSome result (λ p. (64 * first ≤ p) × (p < 64 * (first + count))) }
    ensures reads { ReadsAtMost (T.reads source.old) (T.reads source.new) 0 0 count }
    ensures same { T.lists source.new ≡ T.lists source.old }
{
    let mut rest = rank;
    for k in 0..count {
        let word = sought_word::<BIT, T>(source, first + k);
        let ones = word.count_ones() as usize;
        if rest < ones {
            return Some((first + k) * 64 + select_in_word(word, rest));
        }
        rest -= ones;
    }
    None
}

/// The number of bits of the sought kind in a basic block before each of its words.
///
/// # Conditions
/// The source has the eight words from `first` on.
#[inline(always)]
fn ones_to_words<const BIT: u8, T: TableSource>(source: &mut T, first: usize) -> [usize; 8]
    requires short { IsShort (T.lists source.old).words }
    requires whole { first + 8 ≤ length (T.lists source.old).words }
    ensures counts { AreOnesToWords (sought_in BIT (T.lists source.old).words) first result }
    ensures reads { ReadsAtMost (T.reads source.old) (T.reads source.new) 0 0 7 }
    ensures same { T.lists source.new ≡ T.lists source.old }
{
    let mut counts = [0usize; 8];
    for k in 0..7 {
        let word = sought_word::<BIT, T>(source, first + k);
        counts[k + 1] = counts[k] + word.count_ones() as usize;
    }
    counts
}

/// The index of the last of eight counts that is at most `rank`: seven comparisons and no branch.
///
/// # Conditions
/// The first count is at most `rank`, and the counts do not fall.
#[inline(always)]
fn last_at_most(counts: &[usize; 8], rank: usize) -> usize
    requires some { slice_index counts.now 0 ≤ rank }
    requires rise { CountsRise counts.now }
    ensures { IsLastWithin (slice_index counts.now) 8 rank result }
{
    let mut last = 0;
    for k in 1..8 {
        last += is_at_most(counts[k], rank);
    }
    last
}

/// Selection among the eight words from `first` on, which all exist: `among` without a branch for each word, which the
/// processor would often predict wrongly.
#[inline(always)]
fn among_all<const BIT: u8, T: TableSource>(
    source: &mut T,
    first: usize,
    rank: usize,
) -> Option<usize>
    requires short { IsShort (T.lists source.old).words }
    requires whole { first + 8 ≤ length (T.lists source.old).words }
    ensures answer { let m = sought_in BIT (T.lists source.old).words in
        MatchOption result
        (ones_before m (64 * (first + 8)) ≤ ones_before m (64 * first) + rank)
        (Picks (bits_in (T.lists source.old)) (as_bit BIT) (ones_before m (64 * first) + rank)) }
    ensures inside { IfSome result (λ p. (64 * first ≤ p) × (p < 64 * (first + 8))) }
    ensures reads { ReadsAtMost (T.reads source.old) (T.reads source.new) 0 0 8 }
    ensures same { T.lists source.new ≡ T.lists source.old }
{
    let counts = ones_to_words::<BIT, T>(source, first);
    let k = last_at_most(&counts, rank);
    let word = sought_word::<BIT, T>(source, first + k);
    let rest = rank - counts[k];
    if rest < word.count_ones() as usize {
        Some((first + k) * 64 + select_in_word(word, rest))
    } else {
        None
    }
}

/// Selection among the eight words from `first` on, which all exist: without a branch for each word among few words,
/// and with one among many, where stopping at the right word saves more than a branch costs.
#[inline(always)]
fn among_eight<const BIT: u8, T: TableSource>(
    source: &mut T,
    first: usize,
    rank: usize,
) -> Option<usize>
    requires short { IsShort (T.lists source.old).words }
    requires whole { first + 8 ≤ length (T.lists source.old).words }
    ensures answer { let m = sought_in BIT (T.lists source.old).words in
        MatchOption result
        (ones_before m (64 * (first + 8)) ≤ ones_before m (64 * first) + rank)
        (Picks (bits_in (T.lists source.old)) (as_bit BIT) (ones_before m (64 * first) + rank)) }
    ensures inside { IfSome result (λ p. (64 * first ≤ p) × (p < 64 * (first + 8))) }
    ensures reads { ReadsAtMost (T.reads source.old) (T.reads source.new) 0 0 8 }
    ensures same { T.lists source.new ≡ T.lists source.old }
{
    if source.words_len() <= WORDS_IN_CACHE {
        among_all::<BIT, T>(source, first, rank)
    } else {
        // The number of words is fixed here, so that the compiler unrolls the loop.
        among::<BIT, T>(source, first, U64_PER_L2_RECORDS, rank)
    }
}

/// Selection among the eight words from `first` on, or among the fewer that exist. The rank counts from word `first`.
#[inline(always)]
fn in_record<const BIT: u8, T: TableSource>(
    source: &mut T,
    first: usize,
    rank: usize,
) -> Answer<usize>
    requires short { IsShort (T.lists source.old).words }
    requires first { first < 2 ^ 60 }
    ensures answer { IsSelectedFrom (T.lists source.old).words (as_bit BIT) first
        (ones_before (sought_in BIT (T.lists source.old).words) (64 * first) + rank) result }
    ensures inside { IsFoundFrom (64 * first) (64 * (first + 8)) result }
    ensures last { IfAbsent result (length (T.lists source.old).words ≤ first + 8) }
    ensures reads { ReadsAtMost (T.reads source.old) (T.reads source.new) 0 0 8 }
    ensures same { T.lists source.new ≡ T.lists source.old }
{
    let len = source.words_len();
    if first + U64_PER_L2_RECORDS < len {
        return match among_eight::<BIT, T>(source, first, rank) {
            Some(position) => Answer::Found(position),
            None => Answer::Wrong,
        };
    }
    match among::<BIT, T>(source, first, len.saturating_sub(first), rank) {
        Some(position) => Answer::Found(position),
        None => Answer::Absent,
    }
}

/// Selection among the eight words from `first` on, which all exist, from their end: the bit from which on they have
/// `rest` bits of the sought kind, itself included.
#[inline(always)]
fn among_last<const BIT: u8, T: TableSource>(
    source: &mut T,
    first: usize,
    rest: usize,
) -> Option<usize>
    requires short { IsShort (T.lists source.old).words }
    requires whole { first + 8 ≤ length (T.lists source.old).words }
    requires some { 0 < rest }
    ensures answer { let m = sought_in BIT (T.lists source.old).words in
        let end = ones_before m (64 * (first + 8)) in
        MatchOption result (end < ones_before m (64 * first) + rest)
        (Picks (bits_in (T.lists source.old)) (as_bit BIT) (end - rest)) }
    ensures inside { IfSome result (λ p. (64 * first ≤ p) × (p < 64 * (first + 8))) }
    ensures reads { ReadsAtMost (T.reads source.old) (T.reads source.new) 0 0 8 }
    ensures same { T.lists source.new ≡ T.lists source.old }
{
    let mut left = rest;
    for k in 0..8 {
        let at = first + (7 - k);
        let word = sought_word::<BIT, T>(source, at);
        let ones = word.count_ones() as usize;
        if left <= ones {
            return Some(at * 64 + select_in_word(word, ones - left));
        }
        left -= ones;
    }
    None
}

/// Like `in_record`, for a basic block that has `total` bits of the kind or fewer than eight words: among many words it
/// counts from the nearer end of the basic block, which halves the words to count.
///
/// Where the basic block has another number of such bits, a position that is found still has such a bit, and `Absent`
/// is still right.
#[inline(always)]
fn from_nearer_end<const BIT: u8, T: TableSource>(
    source: &mut T,
    first: usize,
    rank: usize,
    total: usize,
) -> Answer<usize>
    requires short { IsShort (T.lists source.old).words }
    requires first { first < 2 ^ 60 }
    ensures bit { HasBit (bits_in (T.lists source.old)) (as_bit BIT) result }
    ensures answer { let words = (T.lists source.old).words in let m = sought_in BIT words in
        (rank < total → total - rank ≤ total / 2 → first + 8 < length words
        → ones_before m (64 * first) + total ≡ ones_before m (64 * (first + 8)))
        → IsSelectedFrom words (as_bit BIT) first (ones_before m (64 * first) + rank) result }
    ensures absent { IfAbsent result (count_of (bits_in (T.lists source.old)) (as_bit BIT)
        ≤ ones_before (sought_in BIT (T.lists source.old).words) (64 * first) + rank) }
    ensures inside { IsFoundFrom (64 * first) (64 * (first + 8)) result }
    ensures last { IfAbsent result (length (T.lists source.old).words ≤ first + 8) }
    ensures reads { ReadsAtMost (T.reads source.old) (T.reads source.new) 0 0 8 }
    ensures same { T.lists source.new ≡ T.lists source.old }
{
    let len = source.words_len();
    let rest = total.wrapping_sub(rank);
    // One comparison for two: the difference wraps where `rest` is 0.
    if len > WORDS_IN_CACHE
        && first + U64_PER_L2_RECORDS < len
        && rest.wrapping_sub(1) < total / 2
    {
        let Some(position) = among_last::<BIT, T>(source, first, rest) else {
            return Answer::Wrong;
        };
        return Answer::Found(position);
    }
    in_record::<BIT, T>(source, first, rank)
}

/// The number of bits of the kind in an entry up to the end of its basic block `position`, from its packed counts and
/// from the number before the next entry in its upper block; any number where that entry was not read.
#[inline(always)]
fn ones_to_end(packed: u64, position: usize, above: usize) -> usize
    requires { position < 4 }
    ensures inner { position < 3 → result ≡ record_field packed (position + 1) }
    ensures last { position ≡ 3 → result ≡ less above (field_0 packed) }
{
    let inner = ones_to_record(packed, (position + 1) % 4);
    let last = above.wrapping_sub(ones_to_entry(packed));
    if position < 3 { inner } else { last }
}

/// Selection in entry `entry` of an upper block, which packs `packed`: the last with at most `rank` bits of the kind
/// before it there, if the tables are right. `above` is the number of such bits in the upper block before the next
/// entry, or `NOT_READ`. `TESTS` has the meaning that it has in `search_on`.
#[inline(always)]
pub fn in_packed<const BIT: u8, const TESTS: u8, T: TableSource>(
    source: &mut T,
    part: usize,
    entry: usize,
    packed: u64,
    above: usize,
    rank: usize,
) -> Answer<usize>
    requires sized { HasSizes (T.lists source.old) }
    requires inside { entry < entries_from (length (T.lists source.old).lower) part }
    requires part { HasTables (T.lists source.old) →
        let m = sought_in BIT (T.lists source.old).words in
        IsLastPart m (length (T.lists source.old).upper)
        (ones_before m (part * 2 ^ 32) + rank) part }
    requires entry { HasTables (T.lists source.old)
        → IsLastEntry (sought_in BIT (T.lists source.old).words)
        (length (T.lists source.old).lower) part rank entry }
    requires packed { HasTables (T.lists source.old) → packed
        ≡ lower_entry (sought_in BIT (T.lists source.old).words) (entry_in part entry) }
    requires above { HasTables (T.lists source.old)
        → IsCountAbove BIT (T.lists source.old) part entry above }
    ensures bit { HasBit (bits_in (T.lists source.old)) (as_bit BIT) result }
    ensures answer { HasTables (T.lists source.old) →
        let m = sought_in BIT (T.lists source.old).words in
        IsSelected (bits_in (T.lists source.old)) (as_bit BIT)
        (ones_before m (part * 2 ^ 32) + rank) result }
    ensures inside { IsFoundFrom
        (2048 * entry_in part entry) (2048 * (entry_in part entry + 1)) result }
    ensures none { TESTS ≢ 0 → IfAbsent result
        (EntryClaimsNone (as_bit BIT) (T.lists source.old) (entry_in part entry) packed rank) }
    ensures reads { ReadsAtMost (T.reads source.old) (T.reads source.new) 0 0 8 }
    ensures same { T.lists source.new ≡ T.lists source.old }
{
    let in_entry = rank.wrapping_sub(ones_to_entry(packed));
    let (position, before) = record_of(packed, in_entry);
    let at = part * L2_ENTRIES_PER_L1_ENTRY + entry;
    let first = at * U64_PER_L2_ENTRY + position * U64_PER_L2_RECORDS;
    let left = in_entry.wrapping_sub(before);
    if TESTS != 0 && left > rank {
        return Answer::Wrong;
    }
    let total = ones_to_end(packed, position, above).wrapping_sub(before);
    from_nearer_end::<BIT, T>(source, first, left, total)
}
