//! The counts of a line and the numbers of the table, as they are written and as they are checked.
ghost use Rattle.std.specs.Prelude.{◌≡◌, ℕ, ◌+◌, ◌-◌, ◌*◌, ◌/◌, ◌%◌, ◌^◌, ◌<◌, ◌≤◌, length, slice_index};
ghost use Rattle.bit_lists.specs.Bits.{IsShort};
ghost use Rattle.digits.specs.Digits.{digits_of, digits_before};
ghost use Rattle.digits.specs.Tables.{counts_between, FollowsEntry};

use crate::line::{field_of, matches};
use crate::sizes::WORDS_PER_LINE;

/// How many digits of a line are `digit`: of its first 128, and of all.
#[inline(always)]
fn digit_in_line(lines: &[u64], line: usize, digit: u8) -> (u64, u64)
    requires inside { 8 * line + 8 ≤ length lines.now }
    requires short { IsShort lines.now }
    requires digit { digit < 4 }
    ensures middle { let digits = digits_of lines.now in
        digits_before digit digits (224 * line) + result.0 ≡ digits_before digit digits (224 * line + 128) }
    ensures all { let digits = digits_of lines.now in
        digits_before digit digits (224 * line) + result.1 ≡ digits_before digit digits (224 * (line + 1)) }
    ensures few { result.0 ≤ 128 }
    ensures most { result.1 ≤ 224 }
{
    let first = WORDS_PER_LINE * line;
    let one = matches(lines[first + 1], lines[first + 2], digit);
    let two = matches(lines[first + 3], lines[first + 4], digit);
    let three = matches(lines[first + 5], lines[first + 6], digit);
    let four = matches(lines[first + 7], lines[first + 7] >> 32, digit);
    let middle = one.count_ones() as u64 + two.count_ones() as u64;
    let rest = three.count_ones() as u64 + (four & 0xFFFF_FFFF).count_ones() as u64;
    (middle, middle + rest)
}

/// Four counts in one word, of 16 bits each.
#[inline(always)]
fn pack(zeros: u64, ones: u64, twos: u64, threes: u64) -> u64
    requires zeros { zeros < 2 ^ 16 }
    requires ones { ones < 2 ^ 16 }
    requires twos { twos < 2 ^ 16 }
    requires threes { threes < 2 ^ 16 }
    ensures { result ≡ zeros + ones * 2 ^ 16 + twos * 2 ^ 32 + threes * 2 ^ 48 }
{
    zeros + (ones << 16) + (twos << 32) + (threes << 48)
}

/// How many digits of a line are 0, 1, 2 and 3, in one word: of its first 128, and of all.
#[inline(always)]
pub(crate) fn counts_in_line(lines: &[u64], line: usize) -> (u64, u64)
    requires inside { 8 * line + 8 ≤ length lines.now }
    requires short { IsShort lines.now }
    ensures middle { result.0 ≡ counts_between (digits_of lines.now) (224 * line) (224 * line + 128) }
    ensures all { result.1 ≡ counts_between (digits_of lines.now) (224 * line) (224 * (line + 1)) }
{
    let (zeros, all_zeros) = digit_in_line(lines, line, 0);
    let (ones, all_ones) = digit_in_line(lines, line, 1);
    let (twos, all_twos) = digit_in_line(lines, line, 2);
    let (threes, all_threes) = digit_in_line(lines, line, 3);
    (
        pack(zeros, ones, twos, threes),
        pack(all_zeros, all_ones, all_twos, all_threes),
    )
}

/// The number of an entry of the table for a digit: 0 in the first entry; in the next ones the number of the entry
/// before and the count of the digit in its lines, which `counts` has.
#[inline(always)]
pub(crate) fn next_number(table: &[u64], entry: usize, digit: u8, counts: u64) -> u64
    requires inside { 4 * entry ≤ length table.now }
    requires digit { digit < 4 }
    ensures { FollowsEntry table.now entry counts digit result }
{
    if entry == 0 {
        return 0;
    }
    table[4 * (entry - 1) + digit as usize].wrapping_add(field_of(counts, digit))
}
