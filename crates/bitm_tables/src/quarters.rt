//! Rank by a third table, which has for each basic block the number of 1 bits before it and before each of its
//! quarters: a rank then reads no lower entry, and counts two words in place of eight. The table takes 64 bits for each
//! basic block of 512. No index has it: `make_quarters` builds it for callers that want faster ranks.
//!
//! # Source
//! To pack the counts before a block and within it into one number is due to Vigna, 'Broadword implementation of
//! rank/select queries' (WEA 2008); here the counts within a block are for every two words, and the table takes half
//! the space.
ghost use Rattle.std.specs.Prelude.{◌≡◌, ◌+◌, ◌*◌, ◌/◌, ◌^◌, ◌<◌, ◌≤◌, ℕ, List, length, slice_index};
ghost use Rattle.std.specs.Prelude.{IfOk};
ghost use Rattle.std.specs.Box.{boxed_slice_items};
ghost use Rattle.std.specs.Int.{div_ceil};
ghost use Rattle.bit_lists.specs.Bits.{bits_of, item, IsShort};
ghost use Rattle.bit_lists.specs.Count.{ones_before};
ghost use Rattle.bitm_tables.specs.Quarters.{AreQuartersOf, quarter_count, record_count};
ghost use Rattle.bitm_tables.specs.Reads.{OnlyReads};
ghost use Rattle.bitm_tables.specs.Tables.{HasSizes, HasTables, IsIndexed, bits_in};

use crate::entry::{ones_to_entry, ones_to_record};
use crate::levels::{RECORD_BITS, RECORDS_PER_L2_ENTRY, U64_PER_L2_RECORDS};
use crate::ranking::{bit_and_ones_before, ones_to_part};
use crate::source::TableSource;
use broadword::ones_through;
use std::alloc::{AllocError, Global};
use std::boxed::BoxedSlice;

/// Words of one quarter of a basic block.
const QUARTER_WORDS: usize = U64_PER_L2_RECORDS / 4;

/// The number of 1 bits in the quarter from word `first` on, where it is whole; otherwise any number up to 128.
#[inline(always)]
fn ones_of_quarter<T: TableSource>(source: &mut T, first: usize) -> u64
    requires { first < 2 ^ 63 }
    ensures most { result ≤ 128 }
    ensures ones { let words = (T.lists source.old).words in first + 2 ≤ length words
        → ones_before (bits_of words) (64 * first) + result ≡ ones_before (bits_of words) (64 * (first + 2)) }
    ensures same { T.lists source.new ≡ T.lists source.old }
{
    if first + QUARTER_WORDS <= source.words_len() {
        (source.word(first).count_ones() + source.word(first + 1).count_ones()) as u64
    } else {
        0
    }
}

/// The packed number of basic block `at`: the number of 1 bits before it in its upper block, and above that the numbers
/// of its 1 bits before its second, third and fourth quarter, the fourth quarter's lowest.
#[inline(always)]
fn number_of_record<T: TableSource>(source: &mut T, at: usize) -> u64
    requires indexed { IsIndexed (T.lists source.old) }
    requires begun { 8 * at < length (T.lists source.old).words }
    ensures counts { let b = bits_in (T.lists source.old) in (q : ℕ) → q < 4 → 512 * at + 128 * q < length b
        → ones_before b (at / 2 ^ 23 * 2 ^ 32) + record_count result + quarter_count result q
        ≡ ones_before b (512 * at + 128 * q) }
    ensures same { T.lists source.new ≡ T.lists source.old }
{
    let first = at * U64_PER_L2_RECORDS;
    let one = ones_of_quarter(source, first);
    let two = one + ones_of_quarter(source, first + QUARTER_WORDS);
    let three = two + ones_of_quarter(source, first + 2 * QUARTER_WORDS);
    let entry = source.lower(at / RECORDS_PER_L2_ENTRY);
    let before = ones_to_entry(entry) + ones_to_record(entry, at % RECORDS_PER_L2_ENTRY);
    before as u64 + (three << 32) + (two << 42) + (one << 52)
}

/// Writes the quarters of a source's words.
///
/// # Conditions
/// The source's tables match its words, which are fewer than 2^58, and there is room for a number for every eight
/// words.
/// # Cost
/// By its code, and in no clause: one lower entry and six words for each basic block.
///
/// ```
/// fill_quarters(&mut source, &mut quarters);   // of 16 words: two numbers
/// ```
pub fn fill_quarters<T: TableSource>(source: &mut T, quarters: &mut [u64])
    requires indexed { IsIndexed (T.lists source.old) }
    requires room { length quarters.old ≡ div_ceil (length (T.lists source.old).words) 8 }
    ensures { AreQuartersOf (bits_in (T.lists source.old)) quarters.new }
{
    for at in 0..quarters.len() {
        quarters[at] = number_of_record(source, at);
    }
}

/// Builds the quarters of a source's words.
///
/// # Conditions
/// The source's tables match its words, which are fewer than 2^58.
/// # Errors
/// `AllocError` if memory was refused; nothing is leaked.
/// # Cost
/// By its code, and in no clause: one lower entry and six words for each basic block.
pub fn make_quarters<T: TableSource>(
    alloc: Global,
    source: &mut T,
) -> Result<BoxedSlice<u64, Global>, AllocError>
    requires { IsIndexed (T.lists source.old) }
    ensures quarters { IfOk result (λ made. AreQuartersOf (bits_in (T.lists source.old))
        (boxed_slice_items made)) }
    ensures same { T.lists source.new ≡ T.lists source.old }
{
    let records = source.words_len().div_ceil(U64_PER_L2_RECORDS);
    let mut quarters = Vec::with_capacity(alloc, records)?;
    for record in 0..records {
        quarters.push(number_of_record(source, record))?;
    }
    Ok(quarters.into_boxed_slice())
}

/// The number of 1 bits in a basic block before a quarter, from the block's number: one shift, and no branch for the
/// first quarter.
#[inline(always)]
pub fn ones_to_quarter(number: u64, quarter: usize) -> usize
    requires { quarter < 4 }
    ensures { result ≡ quarter_count number quarter }
{
    // Ten times the quarter as five 64ths of its first position: that is the bit's position with all but two of its
    // bits cleared, so the shift takes three instructions fewer.
    let first = quarter * (64 * QUARTER_WORDS);
    (number >> (62 - 5 * first / 64) & 0x3FF) as usize
}

/// The word that has bit `last`, and the number of 1 bits up to and including that bit where the tables match the words
/// and `number` is the packed number of its basic block; any number otherwise.
///
/// # Conditions
/// There is such a bit.
#[inline(always)]
fn word_and_ones<T: TableSource>(source: &mut T, number: u64, last: usize) -> (u64, usize)
    requires sized { HasSizes (T.lists source.old) }
    requires inside { last / 64 < length (T.lists source.old).words }
    ensures word { result.0 ≡ slice_index (T.lists source.old).words (last / 64) }
    ensures ones { (quarters : List ℕ) → HasTables (T.lists source.old)
        → AreQuartersOf (bits_in (T.lists source.old)) quarters
        → number ≡ slice_index quarters (last / 512)
        → result.1 ≡ ones_before (bits_in (T.lists source.old)) (last + 1) }
    ensures reads { OnlyReads T.lists T.reads source.old source.new 1 0 2 }
{
    let at = last / 64;
    let to_record = ones_to_entry(number);
    let to_quarter = ones_to_quarter(number, at / QUARTER_WORDS % 4);
    // The quarter's first word counts unless it has the bit. A product needs no branch.
    let first = source.word(at - at % QUARTER_WORDS);
    let in_first = first.count_ones() as usize * (at % QUARTER_WORDS);
    let word = source.word(at);
    let in_word = ones_through(word, last % 64) as usize;
    let to_part = ones_to_part(source, last >> 32);
    (
        word,
        to_part.wrapping_add(to_record + to_quarter + in_first + in_word),
    )
}

/// The number of 1 bits among the first `index` bits of the source's words, where its tables and the quarters match the
/// words; any number otherwise.
///
/// # Conditions
/// There are at least `index` bits, and a number of the quarters for each basic block with one of them. There are fewer
/// than 2^58 words, and the tables have the right lengths. Tables and quarters may hold anything.
/// # Cost
/// At most one upper entry, no lower entry and two words are read, whatever they hold; by its code, and in no clause,
/// one number of the quarters.
///
/// ```
/// ones_by_quarters_on(&mut source, &quarters, 3);   // of the word 0b1011, its tables and quarters: 2
/// ```
#[inline(always)]
pub fn ones_by_quarters_on<T: TableSource>(source: &mut T, quarters: &[u64], index: usize) -> usize
    requires sized { HasSizes (T.lists source.old) }
    requires inside { index ≤ length (bits_in (T.lists source.old)) }
    requires quarters { index ≤ 512 * length quarters.now }
    ensures answer { HasTables (T.lists source.old)
        → AreQuartersOf (bits_in (T.lists source.old)) quarters.now
        → result ≡ ones_before (bits_in (T.lists source.old)) index }
    ensures reads { OnlyReads T.lists T.reads source.old source.new 1 0 2 }
{
    if index == 0 {
        return 0;
    }
    let last = index - 1;
    word_and_ones(source, quarters[last / RECORD_BITS], last).1
}

/// The number of 1 bits among the first `index` bits of the source's words.
///
/// # Conditions
/// There are at least `index` bits, the words are fewer than 2^58, and the source's tables and the quarters match the
/// words.
/// # Cost
/// At most one upper entry, no lower entry and two words are read; by its code, and in no clause, one number of the
/// quarters.
#[inline(always)]
pub fn rank_by_quarters_on<T: TableSource>(source: &mut T, quarters: &[u64], index: usize) -> usize
    requires indexed { IsIndexed (T.lists source.old) }
    requires quarters { AreQuartersOf (bits_in (T.lists source.old)) quarters.now }
    requires inside { index ≤ length (bits_in (T.lists source.old)) }
    ensures ones { result ≡ ones_before (bits_in (T.lists source.old)) index }
    ensures reads { OnlyReads T.lists T.reads source.old source.new 1 0 2 }
{
    ones_by_quarters_on(source, quarters, index)
}

/// The bit at position `position` of the source's words, and the number of 1 bits before it where its tables and the
/// quarters match the words, any number otherwise.
///
/// # Conditions
/// There is such a bit, and a number of the quarters for its basic block. There are fewer than 2^58 words, and the
/// tables have the right lengths. Tables and quarters may hold anything.
/// # Cost
/// The cost of `ones_by_quarters_on`.
///
/// ```
/// bit_and_ones_by_quarters_on(&mut source, &quarters, 3);   // of the word 0b1011: (true, 2)
/// ```
#[inline(always)]
pub fn bit_and_ones_by_quarters_on<T: TableSource>(
    source: &mut T,
    quarters: &[u64],
    position: usize,
) -> (bool, usize)
    requires sized { HasSizes (T.lists source.old) }
    requires inside { position < length (bits_in (T.lists source.old)) }
    requires quarters { position < 512 * length quarters.now }
    ensures bit { result.0 ≡ item (bits_in (T.lists source.old)) position }
    ensures answer { HasTables (T.lists source.old)
        → AreQuartersOf (bits_in (T.lists source.old)) quarters.now
        → result.1 ≡ ones_before (bits_in (T.lists source.old)) position }
    ensures reads { OnlyReads T.lists T.reads source.old source.new 1 0 2 }
{
    let (word, ones) = word_and_ones(source, quarters[position / RECORD_BITS], position);
    bit_and_ones_before(word, ones, position)
}

/// The bit at position `position` of the source's words, and the number of 1 bits before it.
///
/// # Conditions
/// There is such a bit, the words are fewer than 2^58, and the source's tables and the quarters match the words.
/// # Cost
/// The cost of `rank_by_quarters_on`.
#[inline(always)]
pub fn bit_and_rank_by_quarters_on<T: TableSource>(
    source: &mut T,
    quarters: &[u64],
    position: usize,
) -> (bool, usize)
    requires indexed { IsIndexed (T.lists source.old) }
    requires quarters { AreQuartersOf (bits_in (T.lists source.old)) quarters.now }
    requires inside { position < length (bits_in (T.lists source.old)) }
    ensures bit { result.0 ≡ item (bits_in (T.lists source.old)) position }
    ensures ones { result.1 ≡ ones_before (bits_in (T.lists source.old)) position }
    ensures reads { OnlyReads T.lists T.reads source.old source.new 1 0 2 }
{
    bit_and_ones_by_quarters_on(source, quarters, position)
}
