//! Rank over a source, with a bound on its reads.
ghost use Rattle.std.specs.Prelude.{◌≡◌, ◌+◌, ◌*◌, ◌/◌, ◌^◌, ◌<◌, ◌≤◌, ℕ, List};
ghost use Rattle.std.specs.Prelude.{length, slice_index, count_ones, IfSome, MatchOption, SomeIff};
ghost use Rattle.bit_lists.specs.Bits.{bits_of, item, IsShort};
ghost use Rattle.bit_lists.specs.Count.{ones_before, IsRank};
ghost use Rattle.bitm_tables.specs.Reads.{word_read, OnlyReads, ReadsAtMost};
ghost use Rattle.bitm_tables.specs.Tables.{HasSizes, HasTables, IsIndexed, bits_in};

use crate::entry::{ones_to_entry, ones_to_record};
use crate::levels::{
    BITS_PER_L2_ENTRY, RECORD_BITS, RECORDS_PER_L2_ENTRY, U64_PER_L1_ENTRY, U64_PER_L2_RECORDS,
};
use crate::source::{Probe, TableSource};
use broadword::ones_through;
use tuning::WORDS_AT_HAND;

/// The number of 1 bits in word `at`; one more word is read.
#[inline(always)]
pub fn ones_of_word<T: TableSource>(source: &mut T, at: usize) -> usize
    requires at { at < length (T.lists source.old).words }
    ensures count { let b = bits_of (T.lists source.old).words in
        ones_before b (64 * at) + result ≡ ones_before b (64 * (at + 1)) }
    ensures few { result ≤ 64 }
    ensures counted { T.reads source.new ≡ word_read (T.reads source.old) }
    ensures same { T.lists source.new ≡ T.lists source.old }
{
    source.word(at).count_ones() as usize
}

/// `count` where `times` is 1, and 0 where it is 0, without a branch.
#[inline(always)]
fn counted(times: usize, count: usize) -> usize
    requires { times < 2 }
    ensures product { result ≡ times * count }
    ensures few { result ≤ count }
{
    times * count
}

/// The number of 1 bits in the first `len` words of a whole basic block, whose first word is `word`.
///
/// Half of the block, a quarter and an eighth are counted where they are part of these words, without a branch on
/// `len`, and from no cache line other than the lines of the first word and of word `len`.
///
/// # Cost
/// Six words are read.
#[inline(always)]
pub fn halved_ones<T: TableSource>(source: &mut T, first: usize, len: usize, word: u64) -> usize
    requires len { len < 8 }
    requires whole { first + 8 ≤ length (T.lists source.old).words }
    requires short { IsShort (T.lists source.old).words }
    requires word { word ≡ slice_index (T.lists source.old).words first }
    ensures ones { let b = bits_of (T.lists source.old).words in
        ones_before b (64 * first) + result ≡ ones_before b (64 * (first + len)) }
    ensures few { result ≤ 448 }
    ensures reads { ReadsAtMost (T.reads source.old) (T.reads source.new) 0 0 6 }
    ensures same { T.lists source.new ≡ T.lists source.old }
{
    let four = word.count_ones() as usize
        + ones_of_word(source, first + 1)
        + ones_of_word(source, first + 2)
        + ones_of_word(source, first + 3);
    let half = first + len / 4 * 4;
    let two = ones_of_word(source, half) + ones_of_word(source, half + 1);
    let one = ones_of_word(source, first + len / 2 * 2);
    counted(len / 4, four) + counted(len / 2 % 2, two) + counted(len % 2, one)
}

/// `added_ones` with a test before each word.
#[inline(always)]
fn tested_ones<T: TableSource>(source: &mut T, first: usize, len: usize, before: usize) -> usize
    requires near { len < 8 }
    requires inside { first + len < length (T.lists source.old).words }
    requires short { IsShort (T.lists source.old).words }
    requires few { before < 2 ^ 34 }
    ensures ones { let b = bits_of (T.lists source.old).words in
        ones_before b (64 * first) + result ≡ ones_before b (64 * (first + len)) + before }
    ensures reads { ReadsAtMost (T.reads source.old) (T.reads source.new) 0 0 7 }
    ensures same { T.lists source.new ≡ T.lists source.old }
{
    let mut ones = before;
    for k in 0..7 {
        if k == len {
            return ones;
        }
        ones += ones_of_word(source, first + k);
    }
    ones
}

/// `before` and the number of 1 bits in the first `len` words of the basic block from word `first` on.
///
/// Among few words it counts seven words without a branch, since a processor would often predict wrongly where the
/// count ends. Among many words it tests before each, which takes fewer instructions and waits for fewer words.
#[inline(always)]
fn added_ones<T: TableSource>(source: &mut T, first: usize, len: usize, before: usize) -> usize
    requires near { len < 8 }
    requires inside { first + len < length (T.lists source.old).words }
    requires short { IsShort (T.lists source.old).words }
    requires few { before < 2 ^ 34 }
    ensures ones { let b = bits_of (T.lists source.old).words in
        ones_before b (64 * first) + result ≡ ones_before b (64 * (first + len)) + before }
    ensures reads { ReadsAtMost (T.reads source.old) (T.reads source.new) 0 0 7 }
    ensures same { T.lists source.new ≡ T.lists source.old }
{
    let words = source.words_len();
    if words <= WORDS_AT_HAND && first + U64_PER_L2_RECORDS <= words {
        let word = source.word(first);
        before + halved_ones(source, first, len, word)
    } else {
        tested_ones(source, first, len, before)
    }
}

/// The number of 1 bits in the basic block from word `first` on, before word `end`.
///
/// # Conditions
/// There is a word `end`, and it is among the eight from `first` on. The tables may hold anything.
/// # Cost
/// At most seven words are read.
#[inline(always)]
pub fn ones_in_record<T: TableSource>(source: &mut T, first: usize, end: usize) -> usize
    requires short { IsShort (T.lists source.old).words }
    requires order { first ≤ end }
    requires near { end < first + 8 }
    requires inside { end < length (T.lists source.old).words }
    ensures ones { let b = bits_of (T.lists source.old).words in
        ones_before b (64 * first) + result ≡ ones_before b (64 * end) }
    ensures reads { ReadsAtMost (T.reads source.old) (T.reads source.new) 0 0 7 }
    ensures same { T.lists source.new ≡ T.lists source.old }
{
    added_ones(source, first, end - first, 0)
}

/// `ones_in_record` for words without tables.
///
/// # Conditions
/// The conditions of `ones_in_record`.
#[inline(always)]
pub fn ones_of_words(words: &[u64], first: usize, end: usize) -> usize
    requires short { IsShort words.now }
    requires order { first ≤ end }
    requires near { end < first + 8 }
    requires inside { end < length words.now }
    ensures { let b = bits_of words.now in
        ones_before b (64 * first) + result ≡ ones_before b (64 * end) }
{
    let mut source = Probe::new(words, [].as_slice(), [].as_slice());
    ones_in_record(&mut source, first, end)
}

/// The number of 1 bits before an upper block, where the tables match the words. A single upper block has none before
/// it, and its entry is not read: the test takes fewer instructions than the read.
///
/// # Conditions
/// There is such an upper block. The tables may hold anything.
/// # Cost
/// At most one upper entry is read.
#[inline(always)]
pub fn ones_to_part<T: TableSource>(source: &mut T, part: usize) -> usize
    requires { part < length (T.lists source.old).upper }
    ensures count { HasTables (T.lists source.old)
        → result ≡ ones_before (bits_of (T.lists source.old).words) (part * 2 ^ 32) }
    ensures reads { ReadsAtMost (T.reads source.old) (T.reads source.new) 1 0 0 }
    ensures same { T.lists source.new ≡ T.lists source.old }
{
    if source.words_len() <= U64_PER_L1_ENTRY {
        0
    } else {
        source.upper(part)
    }
}

/// The bit at position `position` of the source's words; `None` exactly where there is no such bit. The tables may hold
/// anything.
///
/// # Cost
/// At most one word is read.
#[tactic(auto, using(bit_lists::proofs::BitLaws::bits_are_counted, bit_lists::proofs::lemmas::BitsLemmas::item_tested))]
#[inline(always)]
pub fn bit_on<T: TableSource>(source: &mut T, position: usize) -> Option<bool>
    ensures answer { SomeIff result (position < length (bits_in (T.lists source.old)))
        (item (bits_in (T.lists source.old)) position) }
    ensures reads { OnlyReads T.lists T.reads source.old source.new 0 0 1 }
{
    if position / 64 >= source.words_len() {
        return None;
    }
    Some(source.word(position / 64) & (1u64 << (position % 64)) != 0)
}

/// The number of 1 bits among the first `index` bits of the source's words; `None` exactly where there are fewer bits.
///
/// # Conditions
/// The source's tables match its words, which are fewer than 2^58.
/// # Cost
/// At most one upper entry, one lower entry and eight words are read, in the blocks of the last bit that counts.
/// # Source
/// The three levels are from Zhou, Andersen and Kaminsky, 'Space-efficient, high-performance rank and select structures
/// on uncompressed bit sequences' (SEA 2013), with the fields of an entry in the opposite order, so that rank needs no
/// branch.
#[inline(always)]
pub fn rank_on<T: TableSource>(source: &mut T, index: usize) -> Option<usize>
    requires { IsIndexed (T.lists source.old) }
    ensures answer { IsRank (bits_in (T.lists source.old)) index result }
    ensures reads { OnlyReads T.lists T.reads source.old source.new 1 1 8 }
{
    total_rank_on(source, index)
}

/// The number of 1 bits among the first `index` bits of the source's words, where its tables match the words; `None`
/// exactly where there are fewer bits, whatever the tables hold.
///
/// # Conditions
/// There are fewer than 2^58 words, and the tables have the right lengths. They may hold anything.
/// # Cost
/// At most one upper entry, one lower entry and eight words are read, in the blocks of the last bit that counts.
#[inline(always)]
pub fn total_rank_on<T: TableSource>(source: &mut T, index: usize) -> Option<usize>
    requires { HasSizes (T.lists source.old) }
    ensures inside { MatchOption result (length (bits_in (T.lists source.old)) < index)
        (λ _. index ≤ length (bits_in (T.lists source.old))) }
    ensures answer { HasTables (T.lists source.old)
        → IsRank (bits_in (T.lists source.old)) index result }
    ensures reads { OnlyReads T.lists T.reads source.old source.new 1 1 8 }
{
    // The last bit that counts: at the exact length too it has a word, a basic block and an entry of each table, which
    // `index` itself may lack. Where no bit counts, this wraps to a number past every position, so one test covers both
    // cases.
    let last = index.wrapping_sub(1);
    if last / 64 >= source.words_len() {
        return if index == 0 { Some(0) } else { None };
    }
    Some(word_and_ones(source, last).1)
}

/// The word that has bit `last`, and the number of 1 bits up to and including that bit where the tables match the
/// words; any number otherwise.
///
/// # Conditions
/// There is such a bit.
#[inline(always)]
fn word_and_ones<T: TableSource>(source: &mut T, last: usize) -> (u64, usize)
    requires sized { HasSizes (T.lists source.old) }
    requires inside { last / 64 < length (T.lists source.old).words }
    ensures word { result.0 ≡ slice_index (T.lists source.old).words (last / 64) }
    ensures ones { HasTables (T.lists source.old)
        → result.1 ≡ ones_before (bits_in (T.lists source.old)) (last + 1) }
    ensures reads { OnlyReads T.lists T.reads source.old source.new 1 1 8 }
{
    let record = last / RECORD_BITS;
    // The entry and the last word are read first, so that both arrive from memory while the words between are counted.
    // The count is added to a running sum, so that no register has to be saved for it.
    let entry = source.lower(last / BITS_PER_L2_ENTRY);
    let word = source.word(last / 64);
    let in_word = ones_through(word, last % 64) as usize;
    let to_record = ones_to_entry(entry) + ones_to_record(entry, record % RECORDS_PER_L2_ENTRY);
    let first = record * U64_PER_L2_RECORDS;
    let in_part = added_ones(
        source,
        first,
        last / 64 % U64_PER_L2_RECORDS,
        to_record + in_word,
    );
    let to_part = ones_to_part(source, last >> 32);
    (word, to_part.wrapping_add(in_part))
}

/// The bit at position `position` of the source's words, and the number of 1 bits before it; `None` exactly where there
/// is no such bit.
///
/// # Conditions
/// The source's tables match its words, which are fewer than 2^58.
/// # Cost
/// At most one upper entry, one lower entry and the eight words of the bit's basic block are read.
#[inline(always)]
pub fn bit_and_rank_on<T: TableSource>(source: &mut T, position: usize) -> Option<(bool, usize)>
    requires { IsIndexed (T.lists source.old) }
    ensures answer { let b = bits_in (T.lists source.old) in
        MatchOption result (length b ≤ position)
        (λ r. (position < length b) × (r.0 ≡ item b position) × (r.1 ≡ ones_before b position)) }
    ensures reads { OnlyReads T.lists T.reads source.old source.new 1 1 8 }
{
    total_bit_and_rank_on(source, position)
}

/// The bit at position `position` of the source's words, and the number of 1 bits before it where its tables match the
/// words, any number otherwise; `None` exactly where there is no such bit, whatever the tables hold.
///
/// # Conditions
/// There are fewer than 2^58 words, and the tables have the right lengths. They may hold anything.
/// # Cost
/// At most one upper entry, one lower entry and the eight words of the bit's basic block are read.
///
/// ```
/// total_bit_and_rank_on(&mut source, 3);   // of the word 0b1011 and its tables: Some((true, 2))
/// ```
#[tactic(auto, using(bit_lists::proofs::BitLaws::bits_are_counted, bit_lists::proofs::lemmas::BitsLemmas::item_tested))]
#[inline(always)]
pub fn total_bit_and_rank_on<T: TableSource>(
    source: &mut T,
    position: usize,
) -> Option<(bool, usize)>
    requires { HasSizes (T.lists source.old) }
    ensures bit { let b = bits_in (T.lists source.old) in
        MatchOption result (length b ≤ position) (λ r. (position < length b) × (r.0 ≡ item b position)) }
    ensures ones { HasTables (T.lists source.old)
        → IfSome result (λ r. r.1 ≡ ones_before (bits_in (T.lists source.old)) position) }
    ensures reads { OnlyReads T.lists T.reads source.old source.new 1 1 8 }
{
    if position / 64 >= source.words_len() {
        return None;
    }
    let (word, ones) = word_and_ones(source, position);
    Some(bit_and_ones_before(word, ones, position))
}

/// The bit at position `position` from the word that has it, and the number of 1 bits before it from the number of 1
/// bits up to and including it; from any other word and number, any answer.
///
/// The word is shifted as `ones_through` shifts it, once for both, and the bit is then its highest.
#[tactic(auto, using(crate::proofs::lemmas::RankLemmas::item_shifted))]
#[inline(always)]
pub(crate) fn bit_and_ones_before(word: u64, ones: usize, position: usize) -> (bool, usize)
    ensures bit { (ws : List ℕ) → position < 64 * length ws → word ≡ slice_index ws (position / 64)
        → result.0 ≡ item (bits_of ws) position }
    ensures ones { (ws : List ℕ) → IsShort ws → position < 64 * length ws → word ≡ slice_index ws (position / 64)
        → ones ≡ ones_before (bits_of ws) (position + 1) → result.1 ≡ ones_before (bits_of ws) position }
{
    let bit = word << (63 - position % 64) >> 63 != 0;
    (bit, ones.wrapping_sub(bit as usize))
}
