//! Selection of a digit by the counts: the entry of the table, the line, the position in it. The memory may hold
//! anything: where the tables do not match the digits, each search ends with some entry and some line.
ghost use Rattle.std.specs.Prelude.{◌≡◌, ℕ, ◌+◌, ◌-◌, ◌*◌, ◌/◌, ◌%◌, ◌^◌, ◌<◌, ◌≤◌, ◌==◌};
ghost use Rattle.std.specs.Prelude.{length, slice_index, min, MatchOption, Some};
ghost use Rattle.std.specs.Int.{bit_at};
ghost use Rattle.bit_lists.proofs.lemmas.WordLemmas.{truth};
ghost use Rattle.bit_lists.specs.Bits.{digit_count, IsShort};
ghost use Rattle.digits.specs.Answers.{HasDigit, IsDigitSelected};
ghost use Rattle.digits.specs.Digits.{digits_of, digits_before, digit_in, low_word, high_word};
ghost use Rattle.digits.specs.Reads.{DigitReadsAtMost};
ghost use Rattle.digits.specs.Search.{IsLastCount, IsAmongCounts};
ghost use Rattle.digits.specs.Tables.{HasDigitSizes, HasDigitTables, digits_in};

use crate::line::matches;
use crate::ranking::{digit_count_on, rank_from};
use crate::sizes::{DIGITS_PER_LINE, LINES_PER_ENTRY};
use crate::source::DigitSource;
use bitm_tables::answer::Answer;
use broadword::select64;

/// A word whose bit j is 1 exactly where digit 64 * `part` + j of the open line is `digit`; the last part of a line has
/// 32 digits.
#[inline(always)]
fn matches_of_part<S: DigitSource>(source: &S, line: usize, part: usize, digit: u8) -> u64
    requires short { IsShort (S.lists source.now).lines }
    requires open { (S.reads source.now).opened ≡ Some line }
    requires inside { 8 * line + 8 ≤ length (S.lists source.now).lines }
    requires part { part < 4 }
    requires digit { digit < 4 }
    ensures bits { let lines = (S.lists source.now).lines in (j : ℕ) → j < 64 → 64 * part + j < 224
        → bit_at result j ≡ truth
        (bit_at (low_word lines line part) j + 2 * bit_at (high_word lines line part) j == digit) }
    ensures fits { result < 2 ^ (min 64 (224 - 64 * part)) }
{
    let last = part / 3;
    let low = source.word(line, 1 + 2 * part);
    let high = source.word(line, 2 + 2 * part - last) >> (32 * last);
    matches(low, high, digit) & (u64::MAX >> (32 * last))
}

/// The position in the open line of the digit with `rank` digits `digit` before it there; `None` exactly where the line
/// has no more than `rank` of them.
fn position_in_line<S: DigitSource>(
    source: &S,
    line: usize,
    digit: u8,
    rank: usize,
) -> Option<usize>
    requires short { IsShort (S.lists source.now).lines }
    requires open { (S.reads source.now).opened ≡ Some line }
    requires inside { 8 * line + 8 ≤ length (S.lists source.now).lines }
    requires digit { digit < 4 }
    ensures { let lines = (S.lists source.now).lines in let digits = digits_of lines in
        let before = digits_before digit digits (224 * line) in
        MatchOption result (digits_before digit digits (224 * (line + 1)) ≤ before + rank)
        (λ p. (p < 224) × (digit_in lines line p ≡ digit)
        × (digits_before digit digits (224 * line + p) ≡ before + rank)) }
{
    let mut left = rank;
    for part in 0..4 {
        let word = matches_of_part(source, line, part, digit);
        let ones = word.count_ones() as usize;
        if left < ones {
            return Some(64 * part + select64(word, left as u8) as usize);
        }
        left -= ones;
    }
    None
}

/// The last entry of the table with at most `rank` digits `digit` before it, where the tables match the digits;
/// some entry otherwise.
fn last_entry<S: DigitSource>(source: &mut S, digit: u8, rank: usize) -> usize
    requires sizes { HasDigitSizes (S.lists source.old) }
    requires digit { digit < 4 }
    ensures inside { result ≤ (S.lists source.old).len / 224 / 256 }
    ensures last { let lists = S.lists source.old in HasDigitTables lists → IsLastCount
        (λ e. digits_before digit (digits_of lists.lines) (224 * (256 * e))) 0 (lists.len / 224 / 256 + 1)
        rank result }
    ensures reads { DigitReadsAtMost (S.reads source.old) (S.reads source.new) 0
        (digit_count ((S.lists source.old).len / 224 / 256)) }
    ensures same { S.lists source.new ≡ S.lists source.old }
{
    let mut low = 0;
    let mut left = source.digits_len() / DIGITS_PER_LINE / LINES_PER_ENTRY + 1;
    while left > 1 {
        let half = left / 2;
        if source.number(4 * (low + half) + digit as usize) <= rank as u64 {
            low += half;
        }
        left -= half;
    }
    low
}

/// The last line of an entry with at most `rank` digits `digit` before it, where the tables match the digits and
/// the entry has no more than `rank` before it; some line of the entry otherwise. `before` is the entry's number.
fn last_line<S: DigitSource>(
    source: &mut S,
    entry: usize,
    before: u64,
    digit: u8,
    rank: usize,
) -> usize
    requires sizes { HasDigitSizes (S.lists source.old) }
    requires entry { entry ≤ (S.lists source.old).len / 224 / 256 }
    requires digit { digit < 4 }
    requires before { before ≡ slice_index (S.lists source.old).table (4 * entry + digit) }
    ensures from { 256 * entry ≤ result }
    ensures near { result < 256 * entry + 256 }
    ensures inside { result ≤ (S.lists source.old).len / 224 }
    ensures last { let lists = S.lists source.old in HasDigitTables lists → before ≤ rank → IsLastCount
        (λ k. digits_before digit (digits_of lists.lines) (224 * k)) (256 * entry)
        (min (256 * entry + 256) (lists.len / 224 + 1)) rank result }
    ensures reads { DigitReadsAtMost (S.reads source.old) (S.reads source.new) 8 0 }
    ensures same { S.lists source.new ≡ S.lists source.old }
{
    let mut low = LINES_PER_ENTRY * entry;
    let mut left = LINES_PER_ENTRY.min(source.digits_len() / DIGITS_PER_LINE + 1 - low);
    while left > 1 {
        let half = left / 2;
        source.open(low + half);
        if rank_from(source, before, low + half, digit, 0) <= rank {
            low += half;
        }
        left -= half;
    }
    low
}

/// The position of the digit `digit` with `rank` such digits before it in the whole list.
///
/// Whatever the tables hold, a position that is found has this digit. Where they match the digits, it is the
/// right position, the answer is `Absent` exactly where there are at most `rank` such digits, and it is never `Wrong`.
///
/// # Conditions
/// The conditions of `digit_rank_on`.
/// # Cost
/// At most ten lines are read, and two more numbers of the table than the number of its last entry has binary digits,
/// whatever they hold.
pub fn digit_select_on<S: DigitSource>(source: &mut S, digit: u8, rank: usize) -> Answer<usize>
    requires sizes { HasDigitSizes (S.lists source.old) }
    requires digit { digit < 4 }
    ensures digit { HasDigit (digits_in (S.lists source.old)) digit result }
    ensures answer { HasDigitTables (S.lists source.old)
        → IsDigitSelected (digits_in (S.lists source.old)) digit rank result }
    ensures reads { DigitReadsAtMost (S.reads source.old) (S.reads source.new) 10
        (digit_count ((S.lists source.old).len / 224 / 256) + 2) }
    ensures same { S.lists source.new ≡ S.lists source.old }
{
    if digit_count_on(source, digit) <= rank {
        return Answer::Absent;
    }
    let entry = last_entry(source, digit, rank);
    let before = source.number(4 * entry + digit as usize);
    let line = last_line(source, entry, before, digit, rank);
    source.open(line);
    let in_line = rank.wrapping_sub(rank_from(source, before, line, digit, 0));
    let Some(position) = position_in_line(source, line, digit, in_line) else {
        return Answer::Wrong;
    };
    let found = DIGITS_PER_LINE * line + position;
    if found < source.digits_len() {
        Answer::Found(found)
    } else {
        Answer::Wrong
    }
}
