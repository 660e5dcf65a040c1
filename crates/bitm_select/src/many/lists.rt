//! Many queries at once over a source, side by side, so that their waits for memory overlap.
ghost use Rattle.std.specs.Prelude.{◌≡◌, ◌+◌, ◌*◌, ◌<◌, ◌≤◌, ℕ, All, length};
ghost use Rattle.bit_lists.specs.Bits.{digit_count};
ghost use Rattle.bit_lists.specs.Count.{count_of, as_bit};
ghost use Rattle.bitm_select.specs.Answers.{AreRankCodes, AreSelectCodes};
ghost use Rattle.bitm_select.specs.Many.{RanksEach, PicksEach, AreSearches};
ghost use Rattle.bitm_tables.specs.Reads.{OnlyReads, ReadsAtMost};
ghost use Rattle.bitm_tables.specs.Tables.{HasSizes, IsIndexed, bits_in};

use crate::many::loaded::code_entries;
use crate::many::query::{NO_QUERY, Query, find_by_halves};
use crate::many::ranks::{code_blocks, code_each};
use crate::search::selecting::ByTables;
use bitm_tables::source::TableSource;
use tuning::{FEWEST_RANKS, SELECTIONS_SIDE_BY_SIDE, WORDS_NEAR};

/// Writes for each index the number of 1 bits among that many first bits of the source's words, or `NO_ANSWER` exactly
/// where there are fewer bits; of 0 bits where `BIT` is 0.
///
/// Whatever the tables hold, any other number written is `WRONG_TABLES` or at most the index. Where they match the
/// words, it is the right count, and `WRONG_TABLES` is never written. With more than 256 KiB of words and at least 16
/// indices, the reads of 32 ranks are started together, so that their cache misses overlap.
///
/// # Conditions
/// There are fewer than 2^58 words, and the tables have the right lengths; they may hold anything. `ranks` is as long
/// as `indices`.
/// # Cost
/// For each index, at most one upper entry, one lower entry and eight words are read.
pub fn total_rank_many_on<const BIT: u8, T: TableSource>(
    source: &mut T,
    indices: &[usize],
    ranks: &mut [usize],
)
    requires sized { HasSizes (T.lists source.old) }
    requires same_length { length indices.now ≡ length ranks.old }
    ensures claimed { AreRankCodes (as_bit BIT) (T.lists source.old) indices.now ranks.new }
    ensures reads { OnlyReads T.lists T.reads source.old source.new
        (length indices.now) (length indices.now) (8 * length indices.now) }
{
    // Two branches of the same text: the compiler gives few words a loop of their own.
    if source.words_len() <= WORDS_NEAR {
        code_each::<BIT, T>(source, indices, ranks);
    } else if indices.len() < FEWEST_RANKS {
        code_each::<BIT, T>(source, indices, ranks);
    } else {
        code_blocks::<BIT, T>(source, indices, ranks);
    }
}

/// Writes for each index the number of 1 bits among that many first bits of the source's words.
///
/// # Conditions
/// The source's tables match its words, which are fewer than 2^58. `ranks` is as long as `indices`, and no index is
/// greater than the number of bits.
/// # Cost
/// For each index, at most one upper entry, one lower entry and eight words are read.
#[inline]
pub fn rank_many_on<T: TableSource>(source: &mut T, indices: &[usize], ranks: &mut [usize])
    requires indexed { IsIndexed (T.lists source.old) }
    requires same_length { length indices.now ≡ length ranks.old }
    requires inside { All (λ i. i ≤ length (bits_in (T.lists source.old))) indices.now }
    ensures answers { RanksEach (bits_in (T.lists source.old)) indices.now ranks.new }
    ensures reads { OnlyReads T.lists T.reads source.old source.new
        (length indices.now) (length indices.now) (8 * length indices.now) }
{
    total_rank_many_on::<1, T>(source, indices, ranks);
}

/// How the entries of a group of queries are found: by binary search, or from samples.
pub trait FindsEntries<const BIT: u8, T: TableSource> {
    /// The most lower entries that a query reads.
    ghost lowers: { ℕ };

    /// Writes the entry of each rank and the rank within its upper block, where the tables match the words; some entry
    /// otherwise.
    ///
    /// # Conditions
    /// There is at least one word and there are fewer than 2^58, and the tables have the right lengths. There is at
    /// least one rank and there are at most `SELECTIONS_SIDE_BY_SIDE`, which is the length of `queries`.
    fn find(&self, source: &mut T, ranks: &[usize], queries: &mut [Query])
        requires sized { HasSizes (T.lists source.old) }
        requires part { 0 < length (T.lists source.old).upper }
        requires some { 0 < length ranks.now }
        requires few { length ranks.now ≤ 16 }
        requires block { length queries.old ≡ 16 }
        ensures searches { AreSearches BIT (T.lists source.old) ranks.now queries.new 0 }
        ensures reads { ReadsAtMost (T.reads source.old) (T.reads source.new)
            (length ranks.now * (digit_count (length (T.lists source.old).upper) + 1))
            (lowers * length ranks.now) 0 }
        ensures same { T.lists source.new ≡ T.lists source.old };
}

impl<const BIT: u8, T: TableSource> FindsEntries<BIT, T> for ByTables {
    ghost lowers = { 21 };

    #[inline(always)]
    fn find(&self, source: &mut T, ranks: &[usize], queries: &mut [Query]) {
        find_by_halves::<BIT, T>(source, ranks, queries);
    }
}

/// Selections of at least one rank and at most `SELECTIONS_SIDE_BY_SIDE`.
fn select_block<const BIT: u8, T: TableSource, F: FindsEntries<BIT, T>>(
    source: &mut T,
    finder: &F,
    ranks: &[usize],
    positions: &mut [usize],
)
    requires sized { HasSizes (T.lists source.old) }
    requires part { 0 < length (T.lists source.old).upper }
    requires some { 0 < length ranks.now }
    requires few { length ranks.now ≤ 16 }
    requires same_length { length ranks.now ≡ length positions.old }
    ensures claimed { AreSelectCodes (as_bit BIT) (T.lists source.old) ranks.now positions.new }
    ensures reads { ReadsAtMost (T.reads source.old) (T.reads source.new)
        (length ranks.now * (digit_count (length (T.lists source.old).upper) + 1))
        ((F.lowers + 1) * length ranks.now) (8 * length ranks.now) }
    ensures same { T.lists source.new ≡ T.lists source.old }
{
    let mut queries = [NO_QUERY; SELECTIONS_SIDE_BY_SIDE];
    finder.find(source, ranks, &mut queries);
    code_entries::<BIT, T>(source, ranks, &queries, positions);
}

/// Writes for each rank what `total_select_many_on` writes; `finder` finds the entries.
///
/// # Conditions
/// The conditions of `total_select_many_on`.
/// # Cost
/// With u upper entries, each rank reads at most one more of them than u has binary digits, one lower entry more than
/// `finder` reads, and eight words, whatever the tables hold.
#[inline(always)]
pub fn code_many_on<const BIT: u8, T: TableSource, F: FindsEntries<BIT, T>>(
    source: &mut T,
    finder: &F,
    ranks: &[usize],
    positions: &mut [usize],
)
    requires sized { HasSizes (T.lists source.old) }
    requires part { 0 < length (T.lists source.old).upper }
    requires same_length { length ranks.now ≡ length positions.old }
    ensures claimed { AreSelectCodes (as_bit BIT) (T.lists source.old) ranks.now positions.new }
    ensures reads { OnlyReads T.lists T.reads source.old source.new
        (length ranks.now * (digit_count (length (T.lists source.old).upper) + 1))
        ((F.lowers + 1) * length ranks.now) (8 * length ranks.now) }
{
    let mut from = 0;
    while from < ranks.len() {
        let to = from + (ranks.len() - from).min(SELECTIONS_SIDE_BY_SIDE);
        select_block::<BIT, T, F>(source, finder, &ranks[from..to], &mut positions[from..to]);
        from = to;
    }
}

/// Writes for each rank the position of the 1 bit of the source's words with that many 1 bits before it, or
/// `NO_ANSWER`; of the 0 bit with that many 0 bits before it where `BIT` is 0.
///
/// Whatever the tables hold, a position is in the words and has such a bit. Where they match the words, it is the right
/// position, `NO_ANSWER` is written exactly where there is no such bit, and `WRONG_TABLES` never. Sixteen searches run
/// side by side, so that their cache misses overlap: binary searches, which start from a guess where the entries are
/// neither few nor many.
///
/// # Conditions
/// There is at least one word and there are fewer than 2^58, and the tables have the right lengths; they may hold
/// anything. `positions` is as long as `ranks`.
/// # Cost
/// With u upper entries, each rank reads at most one more of them than u has binary digits, 22 lower entries and eight
/// words, whatever the tables hold.
pub fn total_select_many_on<const BIT: u8, T: TableSource>(
    source: &mut T,
    ranks: &[usize],
    positions: &mut [usize],
)
    requires sized { HasSizes (T.lists source.old) }
    requires part { 0 < length (T.lists source.old).upper }
    requires same_length { length ranks.now ≡ length positions.old }
    ensures claimed { AreSelectCodes (as_bit BIT) (T.lists source.old) ranks.now positions.new }
    ensures reads { OnlyReads T.lists T.reads source.old source.new
        (length ranks.now * (digit_count (length (T.lists source.old).upper) + 1))
        (22 * length ranks.now) (8 * length ranks.now) }
{
    code_many_on::<BIT, T, ByTables>(source, &ByTables, ranks, positions);
}

/// Writes for each rank the position of the 1 bit of the source's words with that many 1 bits before it; of the 0 bit
/// with that many 0 bits before it where `BIT` is 0.
///
/// # Conditions
/// The source's tables match its words, which are fewer than 2^58. `positions` is as long as `ranks`, and the words
/// have more such bits than each rank.
/// # Cost
/// With u upper entries, each rank reads at most one more of them than u has binary digits, 22 lower entries and eight
/// words.
#[inline]
pub fn select_many_on<const BIT: u8, T: TableSource>(
    source: &mut T,
    ranks: &[usize],
    positions: &mut [usize],
)
    requires indexed { IsIndexed (T.lists source.old) }
    requires same_length { length ranks.now ≡ length positions.old }
    requires some { All (λ r. r < count_of (bits_in (T.lists source.old)) (as_bit BIT)) ranks.now }
    ensures answers { PicksEach (bits_in (T.lists source.old)) (as_bit BIT) ranks.now positions.new }
    ensures reads { OnlyReads T.lists T.reads source.old source.new
        (length ranks.now * (digit_count (length (T.lists source.old).upper) + 1))
        (22 * length ranks.now) (8 * length ranks.now) }
{
    if ranks.len() == 0 {
        return;
    }
    total_select_many_on::<BIT, T>(source, ranks, positions);
}
