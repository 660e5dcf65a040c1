//! The digit at a position, and rank of a digit, over a source that may hold anything.
ghost use Rattle.std.specs.Prelude.{◌≡◌, ℕ, ◌+◌, ◌*◌, ◌/◌, ◌%◌, ◌^◌, ◌<◌, ◌≤◌, length, slice_index};
ghost use Rattle.std.specs.Prelude.{MatchOption, IfSome, SomeIff, Some};
ghost use Rattle.digits.specs.Digits.{digits_of, digits_before, IsDigitRank};
ghost use Rattle.digits.specs.Reads.{line_read, number_read};
ghost use Rattle.digits.specs.Tables.{HasDigitSizes, HasDigitTables, digits_in};

use crate::line::{digit_at, field_of, from_middle};
use crate::sizes::{DIGITS_PER_LINE, LINES_PER_ENTRY};
use crate::source::DigitSource;

/// How many of the digits before position `position` of the open line are `digit`, where the tables match the
/// digits and `before` is the line's number of the table for the digit; any number otherwise.
///
/// # Cost
/// Five words of the line are read (evident from the code).
#[inline(always)]
pub(crate) fn rank_from<S: DigitSource>(
    source: &S,
    before: u64,
    line: usize,
    digit: u8,
    position: usize,
) -> usize
    requires sizes { HasDigitSizes (S.lists source.now) }
    requires open { (S.reads source.now).opened ≡ Some line }
    requires line { line ≤ (S.lists source.now).len / 224 }
    requires digit { digit < 4 }
    requires position { position < 224 }
    ensures { let lists = S.lists source.now in HasDigitTables lists
        → before ≡ slice_index lists.table (4 * (line / 256) + digit)
        → result ≡ digits_before digit (digits_of lists.lines) (224 * line + position) }
{
    let to_middle = field_of(source.word(line, 0), digit);
    before
        .wrapping_add(to_middle)
        .wrapping_add(from_middle(source, line, digit, position)) as usize
}

/// `rank_from`, with the number of the table that it takes.
#[inline(always)]
fn rank_in_line<S: DigitSource>(source: &mut S, line: usize, digit: u8, position: usize) -> usize
    requires sizes { HasDigitSizes (S.lists source.old) }
    requires open { (S.reads source.old).opened ≡ Some line }
    requires line { line ≤ (S.lists source.old).len / 224 }
    requires digit { digit < 4 }
    requires position { position < 224 }
    ensures answer { HasDigitTables (S.lists source.old) → result
        ≡ digits_before digit (digits_of (S.lists source.old).lines) (224 * line + position) }
    ensures reads { S.reads source.new ≡ number_read (S.reads source.old) }
    ensures same { S.lists source.new ≡ S.lists source.old }
{
    let before = source.number(4 * (line / LINES_PER_ENTRY) + digit as usize);
    rank_from(source, before, line, digit, position)
}

/// How many of the first `index` digits are `digit`, where the tables match the digits; any number otherwise.
#[inline(always)]
fn rank_at<S: DigitSource>(source: &mut S, digit: u8, index: usize) -> usize
    requires sizes { HasDigitSizes (S.lists source.old) }
    requires digit { digit < 4 }
    requires index { index ≤ (S.lists source.old).len }
    ensures answer { HasDigitTables (S.lists source.old) → result
        ≡ digits_before digit (digits_in (S.lists source.old)) index }
    ensures reads { S.reads source.new
        ≡ number_read (line_read (index / 224) (S.reads source.old)) }
    ensures same { S.lists source.new ≡ S.lists source.old }
{
    let line = index / DIGITS_PER_LINE;
    source.open(line);
    rank_in_line(source, line, digit, index % DIGITS_PER_LINE)
}

/// How many digits are `digit`, where the tables match the digits; any number otherwise.
///
/// # Conditions
/// The conditions of `digit_rank_on`.
/// # Cost
/// One line and one number of the table are read.
#[inline(always)]
pub fn digit_count_on<S: DigitSource>(source: &mut S, digit: u8) -> usize
    requires sizes { HasDigitSizes (S.lists source.old) }
    requires digit { digit < 4 }
    ensures answer { let digits = digits_in (S.lists source.old) in HasDigitTables (S.lists source.old)
        → result ≡ digits_before digit digits (length digits) }
    ensures reads { S.reads source.new
        ≡ number_read (line_read ((S.lists source.old).len / 224) (S.reads source.old)) }
    ensures same { S.lists source.new ≡ S.lists source.old }
{
    let len = source.digits_len();
    rank_at(source, digit, len)
}

/// How many of the first `index` digits are `digit`, where the tables match the digits; `None` exactly where
/// there are fewer digits, whatever the tables hold.
///
/// # Conditions
/// The digit is below 4; lines and table have the sizes that `have_sizes` tests. They may hold anything.
/// # Cost
/// One line and one number of the table are read, and nothing where there are fewer digits.
#[inline(always)]
pub fn digit_rank_on<S: DigitSource>(source: &mut S, digit: u8, index: usize) -> Option<usize>
    requires sizes { HasDigitSizes (S.lists source.old) }
    requires digit { digit < 4 }
    ensures inside { MatchOption result ((S.lists source.old).len < index)
        (λ _. index ≤ (S.lists source.old).len) }
    ensures answer { HasDigitTables (S.lists source.old)
        → IsDigitRank (digits_in (S.lists source.old)) digit index result }
    ensures reads { MatchOption result (S.reads source.new ≡ S.reads source.old)
        (λ _. S.reads source.new ≡ number_read (line_read (index / 224) (S.reads source.old))) }
    ensures same { S.lists source.new ≡ S.lists source.old }
{
    if index > source.digits_len() {
        return None;
    }
    Some(rank_at(source, digit, index))
}

/// The digit at position `position`; `None` exactly where there is no such position. The tables may hold anything.
///
/// # Conditions
/// Lines and table have the sizes that `have_sizes` tests. They may hold anything.
/// # Cost
/// One line is read, and nothing where there is no such position.
#[inline(always)]
pub fn digit_on<S: DigitSource>(source: &mut S, position: usize) -> Option<u8>
    requires { HasDigitSizes (S.lists source.old) }
    ensures answer { SomeIff result (position < length (digits_in (S.lists source.old)))
        (slice_index (digits_in (S.lists source.old)) position) }
    ensures few { IfSome result (λ d. d < 4) }
    ensures reads { MatchOption result (S.reads source.new ≡ S.reads source.old)
        (λ _. S.reads source.new ≡ line_read (position / 224) (S.reads source.old)) }
    ensures same { S.lists source.new ≡ S.lists source.old }
{
    if position >= source.digits_len() {
        return None;
    }
    let line = position / DIGITS_PER_LINE;
    source.open(line);
    Some(digit_at(source, line, position % DIGITS_PER_LINE))
}

/// The digit at position `position`, and how many of the digits before it are the same, where the tables match the
/// digits, any number otherwise; `None` exactly where there is no such position, whatever the tables hold.
///
/// # Conditions
/// The conditions of `digit_on`.
/// # Cost
/// One line and one number of the table are read, and nothing where there is no such position.
#[inline(always)]
pub fn digit_and_rank_on<S: DigitSource>(source: &mut S, position: usize) -> Option<(u8, usize)>
    requires { HasDigitSizes (S.lists source.old) }
    ensures digit { let digits = digits_in (S.lists source.old) in
        MatchOption result (length digits ≤ position)
        (λ r. (position < length digits) × (r.0 ≡ slice_index digits position)) }
    ensures rank { HasDigitTables (S.lists source.old) → IfSome result (λ r. r.1
        ≡ digits_before r.0 (digits_in (S.lists source.old)) position) }
    ensures reads { MatchOption result (S.reads source.new ≡ S.reads source.old)
        (λ _. S.reads source.new ≡ number_read (line_read (position / 224) (S.reads source.old))) }
    ensures same { S.lists source.new ≡ S.lists source.old }
{
    if position >= source.digits_len() {
        return None;
    }
    let line = position / DIGITS_PER_LINE;
    source.open(line);
    let digit = digit_at(source, line, position % DIGITS_PER_LINE);
    let rank = rank_in_line(source, line, digit, position % DIGITS_PER_LINE);
    Some((digit, rank))
}
