//! A group of ranks side by side: first the reads of all that may miss the caches, then the counting.
ghost use Rattle.std.specs.Prelude.{◌≡◌, ◌+◌, ◌*◌, ◌/◌, ◌^◌, ◌<◌, ◌≤◌, ℕ, length, slice_index};
ghost use Rattle.bit_lists.specs.Bits.{bits_of, IsShort};
ghost use Rattle.bit_lists.specs.Count.{as_bit, ones_before};
ghost use Rattle.bitm_select.specs.Answers.{IsRankCode, AreRankCodes};
ghost use Rattle.bitm_select.specs.Many.{AreBegun, IsBegun, IsBegunAt};
ghost use Rattle.bitm_tables.specs.Reads.{OnlyReads, ReadsAtMost};
ghost use Rattle.bitm_tables.specs.Tables.{HasSizes, HasTables, Lists, bits_in};

use crate::search::selected::{NO_ANSWER, WRONG_TABLES};
use bitm_tables::entry::{ones_to_entry, ones_to_record};
use bitm_tables::levels::{BITS_PER_L2_ENTRY, U64_PER_L2_ENTRY, U64_PER_L2_RECORDS};
use bitm_tables::ranking::{halved_ones, ones_of_word, ones_to_part, total_rank_on};
use bitm_tables::source::TableSource;
use broadword::ones_through;
use tuning::RANKS_SIDE_BY_SIDE;

/// Bits of one basic block.
const RECORD_BITS: usize = 64 * U64_PER_L2_RECORDS;

/// Basic blocks of one lower entry.
const RECORDS_PER_L2_ENTRY: usize = U64_PER_L2_ENTRY / U64_PER_L2_RECORDS;

/// A rank under way: an entry and two words. One word starts the basic block of the last bit that counts, and one has
/// that bit. A basic block may lie across two cache lines, so both words are read. Contracts say of it `IsBegun`.
#[derive(Clone, Copy, PartialEq, Eq, Debug)]
pub struct Begun {
    /// The lower entry of the last bit that counts.
    pub entry: u64,
    /// The first word of its basic block.
    pub first: u64,
    /// The word with that bit.
    pub word: u64,
}

/// What fills the array before ranks begin. Its numbers differ for the same reason as the numbers of `NO_QUERY`.
const NOT_BEGUN: Begun = Begun {
    entry: 0,
    first: 1,
    word: 0,
};

/// Starts the rank of `index` by its reads. Nothing is read where `index` is 0 or there are fewer bits.
#[inline(always)]
fn begin<T: TableSource>(source: &mut T, index: usize) -> Begun
    requires sized { HasSizes (T.lists source.old) }
    ensures begun { IsBegun (T.lists source.old) index result }
    ensures reads { ReadsAtMost (T.reads source.old) (T.reads source.new) 0 1 2 }
    ensures same { T.lists source.new ≡ T.lists source.old }
{
    let last = index.wrapping_sub(1);
    if last / 64 >= source.words_len() {
        return NOT_BEGUN;
    }
    let entry = source.lower(last / BITS_PER_L2_ENTRY);
    let first = source.word(last / RECORD_BITS * U64_PER_L2_RECORDS);
    let word = source.word(last / 64);
    Begun { entry, first, word }
}

/// Like `halved_ones`, for a basic block with fewer than eight words too.
#[inline(always)]
fn tested_ones<T: TableSource>(source: &mut T, first: usize, len: usize, word: u64) -> usize
    requires len { len < 8 }
    requires inside { first + len < length (T.lists source.old).words }
    requires short { IsShort (T.lists source.old).words }
    requires word { word ≡ slice_index (T.lists source.old).words first }
    ensures ones { let b = bits_of (T.lists source.old).words in
        ones_before b (64 * first) + result ≡ ones_before b (64 * (first + len)) }
    ensures few { result ≤ 448 }
    ensures reads { ReadsAtMost (T.reads source.old) (T.reads source.new) 0 0 6 }
    ensures same { T.lists source.new ≡ T.lists source.old }
{
    if len == 0 {
        return 0;
    }
    let mut ones = word.count_ones() as usize;
    for k in 1..7 {
        if k == len {
            return ones;
        }
        ones += ones_of_word(source, first + k);
    }
    ones
}

/// The number of 1 bits in the first `len` words of a basic block, whose first word is `word`.
#[inline(always)]
fn ones_to_word<T: TableSource>(source: &mut T, first: usize, len: usize, word: u64) -> usize
    requires len { len < 8 }
    requires inside { first + len < length (T.lists source.old).words }
    requires short { IsShort (T.lists source.old).words }
    requires word { word ≡ slice_index (T.lists source.old).words first }
    ensures ones { let b = bits_of (T.lists source.old).words in
        ones_before b (64 * first) + result ≡ ones_before b (64 * (first + len)) }
    ensures few { result ≤ 448 }
    ensures reads { ReadsAtMost (T.reads source.old) (T.reads source.new) 0 0 6 }
    ensures same { T.lists source.new ≡ T.lists source.old }
{
    if first + U64_PER_L2_RECORDS <= source.words_len() {
        halved_ones(source, first, len, word)
    } else {
        tested_ones(source, first, len, word)
    }
}

/// The number of 1 bits up to and including bit `last`, where the tables match the words; any number otherwise.
///
/// # Conditions
/// There is such a bit.
#[inline(always)]
fn finish<T: TableSource>(source: &mut T, last: usize, begun: Begun) -> usize
    requires sized { HasSizes (T.lists source.old) }
    requires inside { last / 64 < length (T.lists source.old).words }
    requires begun { IsBegunAt (T.lists source.old) last begun }
    ensures ones { HasTables (T.lists source.old)
        → result ≡ ones_before (bits_in (T.lists source.old)) (last + 1) }
    ensures reads { ReadsAtMost (T.reads source.old) (T.reads source.new) 1 0 6 }
    ensures same { T.lists source.new ≡ T.lists source.old }
{
    let Begun { entry, first, word } = begun;
    let record = last / RECORD_BITS;
    let in_record = ones_to_word(
        source,
        record * U64_PER_L2_RECORDS,
        last / 64 % U64_PER_L2_RECORDS,
        first,
    );
    let in_word = ones_through(word, last % 64) as usize;
    let to_record = ones_to_entry(entry) + ones_to_record(entry, record % RECORDS_PER_L2_ENTRY);
    let to_part = ones_to_part(source, last >> 32);
    to_part.wrapping_add(to_record + in_record + in_word)
}

/// The code of the rank of an index, before which the tables and words claim `ones` 1 bits; of 0 bits where `BIT` is 0.
#[inline(always)]
fn rank_code<const BIT: u8>(index: usize, ones: usize) -> usize
    ensures { (lists : Lists) → IsShort lists.words → index ≤ length (bits_in lists)
        → (HasTables lists → ones ≡ ones_before (bits_in lists) index)
        → IsRankCode (as_bit BIT) lists index result }
{
    match index.checked_sub(ones) {
        Some(zeros) => { if BIT == 0 { zeros } else { ones } }
        None => WRONG_TABLES,
    }
}

/// The code of a rank whose reads are done.
#[inline(always)]
fn code_begun<const BIT: u8, T: TableSource>(source: &mut T, index: usize, begun: Begun) -> usize
    requires sized { HasSizes (T.lists source.old) }
    requires begun { IsBegun (T.lists source.old) index begun }
    ensures claimed { IsRankCode (as_bit BIT) (T.lists source.old) index result }
    ensures reads { ReadsAtMost (T.reads source.old) (T.reads source.new) 1 0 6 }
    ensures same { T.lists source.new ≡ T.lists source.old }
{
    let last = index.wrapping_sub(1);
    if last / 64 >= source.words_len() {
        return if index == 0 { 0 } else { NO_ANSWER };
    }
    rank_code::<BIT>(index, finish(source, last, begun))
}

/// The code of one rank.
#[inline(always)]
fn code_rank<const BIT: u8, T: TableSource>(source: &mut T, index: usize) -> usize
    requires sized { HasSizes (T.lists source.old) }
    ensures claimed { IsRankCode (as_bit BIT) (T.lists source.old) index result }
    ensures reads { OnlyReads T.lists T.reads source.old source.new 1 1 8 }
{
    match total_rank_on(source, index) {
        Some(ones) => rank_code::<BIT>(index, ones),
        None => NO_ANSWER,
    }
}

/// Starts each rank.
#[inline(always)]
fn begin_each<T: TableSource>(source: &mut T, indices: &[usize], begun: &mut [Begun])
    requires sized { HasSizes (T.lists source.old) }
    requires enough { length indices.now ≤ length begun.old }
    ensures begun { AreBegun (T.lists source.old) indices.now begun.new }
    ensures reads { ReadsAtMost (T.reads source.old) (T.reads source.new)
        0 (length indices.now) (2 * length indices.now) }
    ensures same { T.lists source.new ≡ T.lists source.old }
{
    for k in 0..indices.len() {
        begun[k] = begin(source, indices[k]);
    }
}

/// Writes the code of each rank whose reads are done.
#[inline(always)]
fn finish_each<const BIT: u8, T: TableSource>(
    source: &mut T,
    indices: &[usize],
    begun: &[Begun],
    ranks: &mut [usize],
)
    requires sized { HasSizes (T.lists source.old) }
    requires begun { AreBegun (T.lists source.old) indices.now begun.now }
    requires enough { length indices.now ≤ length ranks.old }
    ensures claimed { AreRankCodes (as_bit BIT) (T.lists source.old) indices.now ranks.new }
    ensures reads { ReadsAtMost (T.reads source.old) (T.reads source.new)
        (length indices.now) 0 (6 * length indices.now) }
    ensures same { T.lists source.new ≡ T.lists source.old }
{
    for k in 0..indices.len() {
        let Begun { entry, first, word } = begun[k];
        ranks[k] = code_begun::<BIT, T>(source, indices[k], Begun { entry, first, word });
    }
}

/// Writes the codes of the ranks of one group.
#[inline(always)]
fn code_block<const BIT: u8, T: TableSource>(
    source: &mut T,
    indices: &[usize],
    begun: &mut [Begun],
    ranks: &mut [usize],
)
    requires sized { HasSizes (T.lists source.old) }
    requires room { length indices.now ≤ length begun.old }
    requires enough { length indices.now ≤ length ranks.old }
    ensures claimed { AreRankCodes (as_bit BIT) (T.lists source.old) indices.now ranks.new }
    ensures reads { ReadsAtMost (T.reads source.old) (T.reads source.new)
        (length indices.now) (length indices.now) (8 * length indices.now) }
    ensures same { T.lists source.new ≡ T.lists source.old }
{
    begin_each(source, indices, begun);
    finish_each::<BIT, T>(source, indices, begun, ranks);
}

/// Writes the code of each rank, group by group.
#[inline(always)]
pub(crate) fn code_blocks<const BIT: u8, T: TableSource>(
    source: &mut T,
    indices: &[usize],
    ranks: &mut [usize],
)
    requires sized { HasSizes (T.lists source.old) }
    requires same_length { length indices.now ≡ length ranks.old }
    ensures claimed { AreRankCodes (as_bit BIT) (T.lists source.old) indices.now ranks.new }
    ensures reads { OnlyReads T.lists T.reads source.old source.new
        (length indices.now) (length indices.now) (8 * length indices.now) }
{
    let mut begun = [NOT_BEGUN; RANKS_SIDE_BY_SIDE];
    let mut from = 0;
    while from < indices.len() {
        let to = from + (indices.len() - from).min(RANKS_SIDE_BY_SIDE);
        code_block::<BIT, T>(source, &indices[from..to], &mut begun, &mut ranks[from..to]);
        from = to;
    }
}

/// Writes the code of each rank, one by one.
#[inline(always)]
pub(crate) fn code_each<const BIT: u8, T: TableSource>(
    source: &mut T,
    indices: &[usize],
    ranks: &mut [usize],
)
    requires sized { HasSizes (T.lists source.old) }
    requires same_length { length indices.now ≡ length ranks.old }
    ensures claimed { AreRankCodes (as_bit BIT) (T.lists source.old) indices.now ranks.new }
    ensures reads { OnlyReads T.lists T.reads source.old source.new
        (length indices.now) (length indices.now) (8 * length indices.now) }
{
    for k in 0..indices.len() {
        ranks[k] = code_rank::<BIT, T>(source, indices[k]);
    }
}
