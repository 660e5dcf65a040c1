//! The second half of a group of selections, whose entries are found: the basic block of each, whose first word is read
//! ahead, and the code that is written to the list of answers.
ghost use Rattle.std.specs.Prelude.{◌≡◌, ◌+◌, ◌-◌, ◌*◌, ◌^◌, ◌<◌, ◌≤◌, ℕ, length, MatchOption};
ghost use Rattle.bit_lists.specs.Bits.{IsShort};
ghost use Rattle.bit_lists.specs.Count.{as_bit, ones_before, Picks};
ghost use Rattle.bitm_select.specs.Answers.{IsSelectedFrom, AreSelectCodes};
ghost use Rattle.bitm_select.specs.Many.{IsSearch, AreSearches, IsInRecord, AreInRecords};
ghost use Rattle.bitm_tables.specs.Reads.{word_read, ReadsAtMost};
ghost use Rattle.bitm_select.specs.Search.{sought_in, IsWord};
ghost use Rattle.bitm_tables.specs.Tables.{HasSizes, bits_in};
ghost use Rattle.bitm_select.specs.Claims.{wrong_for_absent};
ghost use Rattle.bitm_tables.specs.Answers.{IfAbsent};

use crate::many::query::Query;
use crate::search::entries::sought_entry;
use crate::search::record::{among, is_at_most, record_of, select_in_word, sought_word};
use crate::search::selected::list_code;
use bitm_tables::answer::Answer;
use bitm_tables::entry::ones_to_entry;
use bitm_tables::levels::{U64_PER_L2_ENTRY, U64_PER_L2_RECORDS};
use bitm_tables::source::TableSource;
use tuning::SELECTIONS_SIDE_BY_SIDE;

/// A query whose basic block is found. Contracts say of it `IsInRecord`.
#[derive(Clone, Copy, PartialEq, Eq, Debug)]
pub struct InRecord {
    /// The rank within the basic block, where the tables match the words.
    pub rest: usize,
    /// The index of the basic block's first word.
    pub first: usize,
    /// That word, if there is one; negated where 0 bits are sought.
    pub word: u64,
}

/// What fills the array before basic blocks are found. Its numbers differ for the same reason as the numbers of
/// `NO_QUERY`.
const NO_RECORD: InRecord = InRecord {
    rest: 0,
    first: 1,
    word: 0,
};

/// The basic block with the bit of a rank in its entry, if the tables match the words. Its first word is read ahead, so
/// that the cache misses of all queries overlap.
#[inline(always)]
fn load<const BIT: u8, T: TableSource>(source: &mut T, rest: usize, entry: usize) -> InRecord
    requires sized { HasSizes (T.lists source.old) }
    requires entry { entry < length (T.lists source.old).lower }
    ensures in_record { (rank : ℕ)
        → IsSearch BIT (T.lists source.old) rank (record { rest = rest; entry = entry }) 0
        → IsInRecord BIT (T.lists source.old) rank result }
    ensures reads { ReadsAtMost (T.reads source.old) (T.reads source.new) 0 1 1 }
    ensures same { T.lists source.new ≡ T.lists source.old }
{
    let packed = sought_entry::<BIT, T>(source, entry);
    let in_entry = rest.wrapping_sub(ones_to_entry(packed));
    let (position, before) = record_of(packed, in_entry);
    let first = entry * U64_PER_L2_ENTRY + position * U64_PER_L2_RECORDS;
    let word = if first < source.words_len() {
        sought_word::<BIT, T>(source, first)
    } else {
        0
    };
    InRecord {
        rest: in_entry.wrapping_sub(before),
        first,
        word,
    }
}

/// The number of bits of the sought kind in word `at`.
#[inline(always)]
fn items_of_word<const BIT: u8, T: TableSource>(source: &mut T, at: usize) -> usize
    requires at { at < length (T.lists source.old).words }
    ensures count { let m = sought_in BIT (T.lists source.old).words in
        ones_before m (64 * at) + result ≡ ones_before m (64 * (at + 1)) }
    ensures few { result ≤ 64 }
    ensures counted { T.reads source.new ≡ word_read (T.reads source.old) }
    ensures same { T.lists source.new ≡ T.lists source.old }
{
    sought_word::<BIT, T>(source, at).count_ones() as usize
}

/// One step of a search in a basic block: `words` words on, with `count` less than `rest` left, where `count` is at
/// most `rest`; else no step.
///
/// Sums, without a branch on the count.
#[inline(always)]
fn pass(at: usize, rest: usize, words: usize, count: usize) -> (usize, usize)
    requires at { at < 2 ^ 60 }
    requires words { words ≤ 4 }
    ensures passed { count ≤ rest → (result.0 ≡ at + words) × (result.1 ≡ rest - count) }
    ensures stays { rest < count → (result.0 ≡ at) × (result.1 ≡ rest) }
{
    let moves = is_at_most(count, rest);
    (at + moves * words, rest - moves * count)
}

/// Selection among the eight words of a basic block whose first was read, by binary search. `rest` is the rank within
/// the basic block.
#[inline(always)]
fn in_whole<const BIT: u8, T: TableSource>(
    source: &mut T,
    rest: usize,
    first: usize,
    word: u64,
) -> Option<usize>
    requires short { IsShort (T.lists source.old).words }
    requires inside { first + 8 ≤ length (T.lists source.old).words }
    requires word { IsWord (sought_in BIT (T.lists source.old).words) first word }
    ensures answer { let m = sought_in BIT (T.lists source.old).words in
        MatchOption result (ones_before m (64 * (first + 8)) ≤ ones_before m (64 * first) + rest)
        (Picks (bits_in (T.lists source.old)) (as_bit BIT) (ones_before m (64 * first) + rest)) }
    ensures reads { ReadsAtMost (T.reads source.old) (T.reads source.new) 0 0 7 }
    ensures same { T.lists source.new ≡ T.lists source.old }
{
    let four = word.count_ones() as usize
        + items_of_word::<BIT, T>(source, first + 1)
        + items_of_word::<BIT, T>(source, first + 2)
        + items_of_word::<BIT, T>(source, first + 3);
    let (half, of_half) = pass(first, rest, 4, four);
    let two = items_of_word::<BIT, T>(source, half) + items_of_word::<BIT, T>(source, half + 1);
    let (pair, of_pair) = pass(half, of_half, 2, two);
    let one = items_of_word::<BIT, T>(source, pair);
    let (at, left) = pass(pair, of_pair, 1, one);
    let last = sought_word::<BIT, T>(source, at);
    if left < last.count_ones() as usize {
        Some(at * 64 + select_in_word(last, left))
    } else {
        None
    }
}

/// Selection in the last basic block of the words, whose first word was read. `rest` is the rank within the basic
/// block.
#[inline(always)]
fn in_last<const BIT: u8, T: TableSource>(
    source: &mut T,
    rest: usize,
    first: usize,
    word: u64,
) -> Answer<usize>
    requires short { IsShort (T.lists source.old).words }
    requires first { first < 2 ^ 60 }
    requires last { length (T.lists source.old).words ≤ first + 8 }
    requires word { first < length (T.lists source.old).words
        → IsWord (sought_in BIT (T.lists source.old).words) first word }
    ensures answer { IsSelectedFrom (T.lists source.old).words (as_bit BIT) first
        (ones_before (sought_in BIT (T.lists source.old).words) (64 * first) + rest) result }
    ensures reads { ReadsAtMost (T.reads source.old) (T.reads source.new) 0 0 7 }
    ensures same { T.lists source.new ≡ T.lists source.old }
{
    let len = source.words_len();
    if first >= len {
        return Answer::Absent;
    }
    let count = word.count_ones() as usize;
    if rest < count {
        return Answer::Found(first * 64 + select_in_word(word, rest));
    }
    match among::<BIT, T>(source, first + 1, len - (first + 1), rest - count) {
        Some(position) => Answer::Found(position),
        None => Answer::Absent,
    }
}

/// Selection in a basic block whose first word was read. `rest` is the rank within the basic block.
#[inline(always)]
fn finish<const BIT: u8, T: TableSource>(
    source: &mut T,
    rest: usize,
    first: usize,
    word: u64,
) -> Answer<usize>
    requires short { IsShort (T.lists source.old).words }
    requires first { first < 2 ^ 60 }
    requires word { first < length (T.lists source.old).words
        → IsWord (sought_in BIT (T.lists source.old).words) first word }
    ensures answer { IsSelectedFrom (T.lists source.old).words (as_bit BIT) first
        (ones_before (sought_in BIT (T.lists source.old).words) (64 * first) + rest) result }
    ensures last { IfAbsent result (length (T.lists source.old).words ≤ first + 8) }
    ensures reads { ReadsAtMost (T.reads source.old) (T.reads source.new) 0 0 7 }
    ensures same { T.lists source.new ≡ T.lists source.old }
{
    if first + U64_PER_L2_RECORDS >= source.words_len() {
        return in_last::<BIT, T>(source, rest, first, word);
    }
    match in_whole::<BIT, T>(source, rest, first, word) {
        Some(position) => Answer::Found(position),
        None => Answer::Wrong,
    }
}

/// Loads the first word of each query's basic block.
#[inline(always)]
fn load_each<const BIT: u8, T: TableSource>(
    source: &mut T,
    ranks: &[usize],
    queries: &[Query],
    records: &mut [InRecord],
)
    requires sized { HasSizes (T.lists source.old) }
    requires searches { AreSearches BIT (T.lists source.old) ranks.now queries.now 0 }
    requires enough { length ranks.now ≤ length records.old }
    ensures loaded { AreInRecords BIT (T.lists source.old) ranks.now records.new }
    ensures reads { ReadsAtMost (T.reads source.old) (T.reads source.new)
        0 (length ranks.now) (length ranks.now) }
    ensures same { T.lists source.new ≡ T.lists source.old }
{
    for k in 0..ranks.len() {
        let Query { rest, entry } = queries[k];
        records[k] = load::<BIT, T>(source, rest, entry);
    }
}

/// `selected`, with `Wrong` in place of `Absent` where the subtraction that made `rest` of `rank` wrapped: the tables
/// then claim more than `rank` such bits before the basic block.
#[inline(always)]
fn unless_wrapped(selected: Answer<usize>, rest: usize, rank: usize) -> Answer<usize>
    ensures kept { rest ≤ rank → result ≡ selected }
    ensures wrapped { rank < rest → result ≡ wrong_for_absent selected }
{
    match selected {
        Answer::Absent if rest > rank => Answer::Wrong,
        other => other,
    }
}

/// Selects in the basic block of each rank and writes the code of the result.
#[inline(always)]
fn finish_each<const BIT: u8, T: TableSource>(
    source: &mut T,
    ranks: &[usize],
    records: &[InRecord],
    positions: &mut [usize],
)
    requires sized { HasSizes (T.lists source.old) }
    requires loaded { AreInRecords BIT (T.lists source.old) ranks.now records.now }
    requires enough { length ranks.now ≤ length positions.old }
    ensures claimed { AreSelectCodes (as_bit BIT) (T.lists source.old) ranks.now positions.new }
    ensures reads { ReadsAtMost (T.reads source.old) (T.reads source.new)
        0 0 (7 * length ranks.now) }
    ensures same { T.lists source.new ≡ T.lists source.old }
{
    for k in 0..ranks.len() {
        let InRecord { rest, first, word } = records[k];
        let selected = finish::<BIT, T>(source, rest, first, word);
        positions[k] = list_code(unless_wrapped(selected, rest, ranks[k]));
    }
}

/// Writes the code of each answer, for queries whose entries are found.
///
/// # Conditions
/// There are at most `SELECTIONS_SIDE_BY_SIDE` ranks.
/// # Cost
/// For each rank, one lower entry and at most eight words are read.
#[inline(always)]
pub fn code_entries<const BIT: u8, T: TableSource>(
    source: &mut T,
    ranks: &[usize],
    queries: &[Query],
    positions: &mut [usize],
)
    requires sized { HasSizes (T.lists source.old) }
    requires few { length ranks.now ≤ 16 }
    requires searches { AreSearches BIT (T.lists source.old) ranks.now queries.now 0 }
    requires enough { length ranks.now ≤ length positions.old }
    ensures claimed { AreSelectCodes (as_bit BIT) (T.lists source.old) ranks.now positions.new }
    ensures reads { ReadsAtMost (T.reads source.old) (T.reads source.new)
        0 (length ranks.now) (8 * length ranks.now) }
    ensures same { T.lists source.new ≡ T.lists source.old }
{
    let mut records = [NO_RECORD; SELECTIONS_SIDE_BY_SIDE];
    load_each::<BIT, T>(source, ranks, queries, &mut records);
    finish_each::<BIT, T>(source, ranks, &records, positions);
}
