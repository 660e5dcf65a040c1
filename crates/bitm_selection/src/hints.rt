//! Hints: the positions of each 128th 1 bit, or 0 bit, of words. From there the bit of a rank is mostly one or two
//! words away, so a selection reads no table.
ghost use Rattle.std.specs.Prelude.{◌≡◌, ◌+◌, ◌-◌, ◌*◌, ◌/◌, ◌%◌, ◌^◌, ◌<◌, ◌≤◌, ◌↔◌, ⊤, ℕ, Bool, List};
ghost use Rattle.std.specs.Prelude.{IsTrue, None, IfSome, count_ones, drop, length, slice_index, take};
ghost use Rattle.bit_lists.specs.Bits.{digit_count, item};
ghost use Rattle.bit_lists.specs.Count.{as_bit, count_of, Picks};
ghost use Rattle.bitm_select.specs.Answers.{HasBit, IsSelected};
ghost use Rattle.bitm_select.specs.Claims.{ClaimsNone};
ghost use Rattle.bitm_tables.specs.Answers.{IfAbsent};
ghost use Rattle.bitm_tables.specs.Reads.{OnlyReads};
ghost use Rattle.bitm_tables.specs.Tables.{bits_in, HasSizes, HasTables, IsIndexed};
ghost use Rattle.bitm_selection.specs.Hints.{hint_words, hints_len, hints_room, AreHints, ArePair, ArePairs};
ghost use Rattle.bitm_selection.specs.Hints.{IsHint, Lead};

use bitm_select::search::record::{among, sought_word};
use bitm_select::search::selecting::{binary_select_on, total_select_on};
use bitm_tables::answer::Answer;
use bitm_tables::source::TableSource;

/// How many bits of a kind share a hint.
pub const BITS_PER_HINT: usize = 128;

/// In how many words, from a hint's word on, a bit is looked for before the tables decide.
const NEAR: usize = 8;

/// A hint where there is no such bit.
const NO_BIT: u64 = 0xFFFF_FFFF;

/// How many words the hints of the given number of bits of one kind take.
///
/// ```
/// hint_words(1000);   // 4: eight hints, two in a word
/// ```
#[inline(always)]
pub fn hint_words(bits: usize) -> usize
    ensures { result ≡ hint_words bits }
{
    bits.div_ceil(2 * BITS_PER_HINT)
}

/// How many words the hints of both kinds take, of the given number of words with the given number of 1 bits. Of 2^26
/// words or more there are none, since a hint has 32 bits.
///
/// ```
/// hints_len(1000, 40);   // 11: 4 for 1000 1 bits, and 7 for 1560 0 bits
/// ```
#[inline(always)]
pub fn hints_len(ones: usize, words: usize) -> usize
    ensures { result ≡ hints_len ones words }
{
    if words >= 1 << 26 {
        return 0;
    }
    hint_words(ones.min(64 * words)) + hint_words((64 * words).saturating_sub(ones))
}

/// How many words the hints of both kinds take at most, of the given number of words, however many of their bits are 1
/// bits: a quarter of the words, and one more. Of 2^26 words or more there are none.
///
/// ```
/// hints_room(40);   // 11, as many as hints_len(1000, 40)
/// ```
#[inline(always)]
pub fn hints_room(words: usize) -> usize
    ensures room { result ≡ hints_room words }
    ensures enough { (ones : ℕ) → hints_len ones words ≤ result }
{
    if words >= 1 << 26 {
        return 0;
    }
    hint_words(64 * words) + 1
}

/// The hints of words: of each 128th 1 bit, and of each 128th 0 bit. They may hold anything, and either may be empty.
#[derive(Clone, Copy)]
pub struct Hints<'a> {
    /// The hints of the 1 bits, two in a word, the lower half first.
    pub ones: &'a [u64],
    /// The hints of the 0 bits.
    pub zeros: &'a [u64],
}

impl<'a> Hints<'a> {
    /// The hints of words with the given number of 1 bits, which stand one after the other in `all`.
    ///
    /// ```
    /// Hints::over(&all, 1000);   // the first four words are hints of the 1 bits
    /// ```
    #[inline(always)]
    pub fn over(all: &'a [u64], ones: usize) -> Hints<'a>
        ensures ones { result.ones.now ≡ take (hint_words ones) all.now }
        ensures zeros { result.zeros.now ≡ drop (hint_words ones) all.now }
    {
        let (ones, zeros) = all.split_at(hint_words(ones).min(all.len()));
        Hints { ones, zeros }
    }
}

/// Hint `at`.
#[inline(always)]
fn hint_at(hints: &[u64], at: usize) -> usize
    requires { at < 2 * length hints.now }
    ensures { (v : Bool) (b : List Bool) → ArePairs v b hints.now → IsHint v b at result }
{
    ((hints[at / 2] >> (32 * (at % 2))) % (1 << 32)) as usize
}

/// How many of the lowest bits of a word, up to 63 of them, are 1 bits.
#[inline(always)]
fn ones_under(word: u64, bits: usize) -> usize
    requires { bits < 64 }
    ensures count { result ≡ count_ones (word % 2 ^ bits) }
    ensures few { result ≤ 64 }
{
    (word % (1 << bits)).count_ones() as usize
}

/// The position of the bit of the kind after `rest` others, counted from position `from` on; `None` where it is not in
/// the eight words from the word of `from` on. 1 bits, and 0 bits where `BIT` is 0.
#[inline(always)]
fn near_on<const BIT: u8, T: TableSource>(source: &mut T, from: usize, rest: usize) -> Option<usize>
    requires sized { HasSizes (T.lists source.old) }
    requires few { rest < 128 }
    ensures bit { IfSome result (λ p. (p < length (bits_in (T.lists source.old)))
        × (item (bits_in (T.lists source.old)) p ≡ as_bit BIT)) }
    ensures answer { (rank : ℕ) → Picks (bits_in (T.lists source.old)) (as_bit BIT) rank from
        → IfSome result (Picks (bits_in (T.lists source.old)) (as_bit BIT) (rank + rest)) }
    ensures outside { length (bits_in (T.lists source.old)) ≤ from → result ≡ None }
    ensures reads { OnlyReads T.lists T.reads source.old source.new 0 0 9 }
{
    let first = from / 64;
    let len = source.words_len();
    if first >= len {
        return None;
    }
    let word = sought_word::<BIT, T>(source, first);
    let skipped = ones_under(word, from % 64);
    among::<BIT, T>(source, first, NEAR.min(len - first), skipped + rest)
}

/// `total_select_on`, out of the way of a selection by a hint, which seldom needs it.
#[inline(never)]
fn far_on<const BIT: u8, T: TableSource>(source: &mut T, rank: usize) -> Answer<usize>
    requires { HasSizes (T.lists source.old) }
    ensures bit { HasBit (bits_in (T.lists source.old)) (as_bit BIT) result }
    ensures answer { HasTables (T.lists source.old)
        → IsSelected (bits_in (T.lists source.old)) (as_bit BIT) rank result }
    ensures none { IfAbsent result (ClaimsNone (as_bit BIT) (T.lists source.old) rank) }
    ensures reads { OnlyReads T.lists T.reads source.old source.new
        (digit_count (length (T.lists source.old).upper) + 1) 23 8 }
{
    total_select_on::<BIT, T>(source, rank)
}

/// The position of the 1 bit of the source's words with exactly `rank` 1 bits before it, from hints of the 1 bits; of
/// the 0 bit with `rank` 0 bits before it where `BIT` is 0.
///
/// Whatever tables and hints hold, a position that is found is in the words and has such a bit. Where both match the
/// words, it is the right position, the answer is `Absent` exactly where there is no such bit, and it is never `Wrong`.
/// Where a hint is missing, or the words from it on do not have the bit, the tables decide.
///
/// # Conditions
/// There are fewer than 2^58 words, and the tables have the right lengths. They may hold anything, and so may hints.
/// # Cost
/// One hint and up to 17 words: nine from the hint on, and where the bit is not there, the words that a selection by
/// binary search reads, as well as its entries.
///
/// ```
/// hinted_select_on::<1, _>(&mut source, &hints, 130);   // Found(position), Absent or Wrong
/// ```
#[inline(always)]
pub fn hinted_select_on<const BIT: u8, T: TableSource>(
    source: &mut T,
    hints: &[u64],
    rank: usize,
) -> Answer<usize>
    requires { HasSizes (T.lists source.old) }
    ensures bit { HasBit (bits_in (T.lists source.old)) (as_bit BIT) result }
    ensures answer { HasTables (T.lists source.old)
        → AreHints (as_bit BIT) (T.lists source.old).words hints.now
        → IsSelected (bits_in (T.lists source.old)) (as_bit BIT) rank result }
    ensures none { IfAbsent result (ClaimsNone (as_bit BIT) (T.lists source.old) rank) }
    ensures reads { OnlyReads T.lists T.reads source.old source.new
        (digit_count (length (T.lists source.old).upper) + 1) 23 17 }
{
    let at = rank / BITS_PER_HINT;
    if at / 2 >= hints.len() {
        return far_on::<BIT, T>(source, rank);
    }
    match near_on::<BIT, T>(source, hint_at(hints, at), rank % BITS_PER_HINT) {
        Some(position) => Answer::Found(position),
        None => far_on::<BIT, T>(source, rank),
    }
}

/// Hint `at` of the source's words: 1 bits, and 0 bits where `BIT` is 0.
#[inline(always)]
fn hint_on<const BIT: u8, T: TableSource>(source: &mut T, at: usize) -> u64
    requires indexed { IsIndexed (T.lists source.old) }
    requires short { length (T.lists source.old).words < 2 ^ 26 }
    requires few { at < 2 ^ 32 }
    ensures hint { IsHint (as_bit BIT) (bits_in (T.lists source.old)) at result }
    ensures only { (p : ℕ) → IsHint (as_bit BIT) (bits_in (T.lists source.old)) at p → p ≡ result }
    ensures half { result < 2 ^ 32 }
    ensures same { T.lists source.new ≡ T.lists source.old }
{
    match binary_select_on::<BIT, T>(source, at * BITS_PER_HINT) {
        Some(position) => position as u64,
        None => NO_BIT,
    }
}

/// Hints `2 * at` and `2 * at + 1` of the source's words, the first in the lower half.
#[inline(always)]
fn pair_on<const BIT: u8, T: TableSource>(source: &mut T, at: usize) -> u64
    requires indexed { IsIndexed (T.lists source.old) }
    requires short { length (T.lists source.old).words < 2 ^ 26 }
    requires few { at < 2 ^ 25 }
    ensures pair { ArePair (as_bit BIT) (bits_in (T.lists source.old)) at result }
    ensures only { (w : ℕ) → w < 2 ^ 64
        → ArePair (as_bit BIT) (bits_in (T.lists source.old)) at w → w ≡ result }
    ensures same { T.lists source.new ≡ T.lists source.old }
{
    let low = hint_on::<BIT, T>(source, 2 * at);
    let high = hint_on::<BIT, T>(source, 2 * at + 1);
    high << 32 | low
}

/// Writes the hints of the 1 bits of the source's words; of the 0 bits where `BIT` is 0. A hint for which there is no
/// bit is 2^32 - 1.
///
/// # Conditions
/// The source's tables match its words, which are fewer than 2^26 where there is room for a hint. There is room for at
/// most 2^26 hints.
/// # Cost
/// One selection for each hint (evident from the code).
///
/// ```
/// fill_hints::<1, _>(&mut source, hints);   // as many as there is room for, mostly `hint_words` words
/// ```
pub fn fill_hints<const BIT: u8, T: TableSource>(source: &mut T, hints: &mut [u64])
    requires indexed { IsIndexed (T.lists source.old) }
    requires short { 0 < length hints.old → length (T.lists source.old).words < 2 ^ 26 }
    requires few { length hints.old ≤ 2 ^ 25 }
    ensures hints { AreHints (as_bit BIT) (T.lists source.old).words hints.new }
    ensures len { length hints.new ≡ length hints.old }
    ensures same { T.lists source.new ≡ T.lists source.old }
{
    for at in 0..hints.len() {
        hints[at] = pair_on::<BIT, T>(source, at);
    }
}

/// Whether these are the hints of the 1 bits of the source's words; of the 0 bits where `BIT` is 0.
///
/// # Conditions
/// The conditions of `fill_hints`.
/// # Cost
/// At most one selection for each hint (evident from the code).
///
/// ```
/// are_hints::<1, _>(&mut source, hints);   // true of hints that `fill_hints` wrote
/// ```
pub fn are_hints<const BIT: u8, T: TableSource>(source: &mut T, hints: &[u64]) -> bool
    requires indexed { IsIndexed (T.lists source.old) }
    requires short { 0 < length hints.now → length (T.lists source.old).words < 2 ^ 26 }
    requires few { length hints.now ≤ 2 ^ 25 }
    ensures hints { IsTrue result ↔ AreHints (as_bit BIT) (T.lists source.old).words hints.now }
    ensures same { T.lists source.new ≡ T.lists source.old }
{
    for at in 0..hints.len() {
        if pair_on::<BIT, T>(source, at) != hints[at] {
            return false;
        }
    }
    true
}

/// Writes the hints of both kinds of the source's words, which have the given number of 1 bits, into all the room: the
/// hints of the 1 bits into the first words, and the hints of the 0 bits into the others. A hint for which there is no
/// bit is 2^32 - 1.
///
/// # Conditions
/// The conditions of `fill_hints`.
/// # Cost
/// One selection for each hint (evident from the code).
///
/// ```
/// write_hints_within(&mut source, 1000, hints);   // hints_room(40) words
/// ```
pub fn write_hints_within<T: TableSource>(source: &mut T, ones: usize, hints: &mut [u64])
    requires indexed { IsIndexed (T.lists source.old) }
    requires short { 0 < length hints.old → length (T.lists source.old).words < 2 ^ 26 }
    requires few { length hints.old ≤ 2 ^ 25 }
    ensures lead { Lead ones hints.new (T.lists source.old).words }
    ensures len { length hints.new ≡ length hints.old }
    ensures same { T.lists source.new ≡ T.lists source.old }
{
    let at = hint_words(ones).min(hints.len());
    let (of_ones, of_zeros) = hints.split_at_mut(at);
    fill_hints::<1, T>(&mut *source, of_ones);
    fill_hints::<0, T>(source, of_zeros);
}

/// Writes the hints of both kinds of the source's words, which have the given number of 1 bits.
///
/// # Conditions
/// The source's tables match its words, and there is room for as many words as `hints_len` says.
/// # Cost
/// One selection for each hint (evident from the code).
///
/// ```
/// write_hints(&mut source, 1000, hints);   // hints_len(1000, 40) words
/// ```
pub fn write_hints<T: TableSource>(source: &mut T, ones: usize, hints: &mut [u64])
    requires indexed { IsIndexed (T.lists source.old) }
    requires room { length hints.old ≡ hints_len ones (length (T.lists source.old).words) }
    ensures lead { Lead ones hints.new (T.lists source.old).words }
    ensures len { length hints.new ≡ length hints.old }
    ensures same { T.lists source.new ≡ T.lists source.old }
{
    write_hints_within(source, ones, hints);
}

/// Whether these are the hints of both kinds of the source's words, which have the given number of 1 bits, in whatever
/// room there is.
///
/// # Conditions
/// The conditions of `fill_hints`.
/// # Cost
/// At most one selection for each hint (evident from the code).
///
/// ```
/// are_hints_within(&mut source, 1000, hints);   // true of hints that `write_hints_within` wrote
/// ```
pub fn are_hints_within<T: TableSource>(source: &mut T, ones: usize, hints: &[u64]) -> bool
    requires indexed { IsIndexed (T.lists source.old) }
    requires short { 0 < length hints.now → length (T.lists source.old).words < 2 ^ 26 }
    requires few { length hints.now ≤ 2 ^ 25 }
    ensures lead { IsTrue result ↔ Lead ones hints.now (T.lists source.old).words }
    ensures same { T.lists source.new ≡ T.lists source.old }
{
    let all = Hints::over(hints, ones);
    are_hints::<1, T>(&mut *source, all.ones) && are_hints::<0, T>(source, all.zeros)
}

/// Whether these are the hints of both kinds of the source's words, which have the given number of 1 bits.
///
/// # Conditions
/// The source's tables match its words, and there are as many words of hints as `hints_len` says.
/// # Cost
/// At most one selection for each hint (evident from the code).
///
/// ```
/// are_all_hints(&mut source, 1000, hints);   // true of hints that `write_hints` wrote
/// ```
pub fn are_all_hints<T: TableSource>(source: &mut T, ones: usize, hints: &[u64]) -> bool
    requires indexed { IsIndexed (T.lists source.old) }
    requires room { length hints.now ≡ hints_len ones (length (T.lists source.old).words) }
    ensures lead { IsTrue result ↔ Lead ones hints.now (T.lists source.old).words }
    ensures same { T.lists source.new ≡ T.lists source.old }
{
    are_hints_within(source, ones, hints)
}
