//! Lines of digits and their table, in the caller's memory, from a list of numbers.
ghost use Rattle.std.specs.Prelude.{◌≡◌, ℕ, ◌+◌, ◌-◌, ◌*◌, ◌/◌, ◌%◌, ◌^◌, ◌<◌, ◌≤◌, length, slice_index, map};
ghost use Rattle.std.specs.Int.{bit_at, div_ceil};
ghost use Rattle.bit_lists.specs.Bits.{IsShort};
ghost use Rattle.digits.specs.Digits.{digits_of, digit_of, digit_from, low_word, high_word};
ghost use Rattle.digits.specs.Tables.{counts_between, digit_lists, digits_in, FollowsEntry};
ghost use Rattle.digits.specs.Tables.{HasDigitSizes, HasDigitTables};

use crate::counting::{counts_in_line, next_number};
use crate::sizes::{DIGITS_PER_LINE, LINES_PER_ENTRY, WORDS_PER_LINE};

/// The two bits from bit `position` on of number `at`, and 0 where there is no such number.
#[inline(always)]
fn digit_of_number(numbers: &[u64], at: usize, position: u8) -> u64
    requires { position < 64 }
    ensures { result ≡ digit_from position (slice_index numbers.now at) }
{
    if at < numbers.len() {
        numbers[at] >> position & 3
    } else {
        0
    }
}

/// The low bits and the high bits of the digits of `count` numbers from number `from` on, lowest first; 0 after them.
#[inline(always)]
fn bits_of_digits(numbers: &[u64], from: usize, count: usize, position: u8) -> (u64, u64)
    requires position { position < 64 }
    requires count { count ≤ 64 }
    requires near { from < 2 ^ 63 }
    ensures digits { (y : ℕ) → y < count → bit_at result.0 y + 2 * bit_at result.1 y
        ≡ digit_from position (slice_index numbers.now (from + y)) }
    ensures low { (y : ℕ) → count ≤ y → y < 64 → bit_at result.0 y ≡ 0 }
    ensures high { (y : ℕ) → count ≤ y → y < 64 → bit_at result.1 y ≡ 0 }
{
    let mut low = 0;
    let mut high = 0;
    for at in 0..count {
        let digit = digit_of_number(numbers, from + at, position);
        low |= (digit & 1) << at;
        high |= (digit >> 1) << at;
    }
    (low, high)
}

/// Writes 64 digits of a line, or its last 32.
fn write_part(numbers: &[u64], position: u8, lines: &mut [u64], line: usize, part: usize)
    requires position { position < 64 }
    requires short { IsShort lines.old }
    requires inside { 8 * line + 8 ≤ length lines.old }
    requires part { part < 4 }
    ensures len { length lines.new ≡ length lines.old }
    ensures digits { (y : ℕ) → y < 64 → 64 * part + y < 224
        → bit_at (low_word lines.new line part) y + 2 * bit_at (high_word lines.new line part) y
        ≡ digit_from position (slice_index numbers.now (224 * line + 64 * part + y)) }
    ensures low { (k j : ℕ) → j < 4 → 4 * k + j < 4 * line + part
        → low_word lines.new k j ≡ low_word lines.old k j }
    ensures high { (k j : ℕ) → j < 4 → 4 * k + j < 4 * line + part
        → high_word lines.new k j ≡ high_word lines.old k j }
{
    let from = DIGITS_PER_LINE * line + 64 * part;
    let count = (DIGITS_PER_LINE - 64 * part).min(64);
    let (low, high) = bits_of_digits(numbers, from, count, position);
    let at = WORDS_PER_LINE * line + 1 + 2 * part;
    if part < 3 {
        lines[at] = low;
        lines[at + 1] = high;
    } else {
        lines[at] = low | high << 32;
    }
}

/// Writes the digits of all lines: the two bits from bit `position` on of each number, and 0 after the last number.
fn write_digits(numbers: &[u64], position: u8, lines: &mut [u64])
    requires position { position < 64 }
    requires short { IsShort lines.old }
    ensures len { length lines.new ≡ length lines.old }
    ensures digits { (i : ℕ) → i < 224 * (length lines.old / 8)
        → digit_of lines.new i ≡ digit_from position (slice_index numbers.now i) }
{
    for part in 0..4 * (lines.len() / WORDS_PER_LINE) {
        write_part(numbers, position, &mut *lines, part / 4, part % 4);
    }
}

/// Writes the counts of lines `first` to `end` - 1, from those before line `first` on, and returns the counts of all
/// their digits.
fn count_lines(lines: &mut [u64], first: usize, end: usize) -> u64
    requires short { IsShort lines.old }
    requires order { first ≤ end }
    requires near { end ≤ first + 256 }
    requires inside { 8 * end ≤ length lines.old }
    ensures len { length lines.new ≡ length lines.old }
    ensures digits { digits_of lines.new ≡ digits_of lines.old }
    ensures all { result ≡ counts_between (digits_of lines.old) (224 * first) (224 * end) }
    ensures counts { (k : ℕ) → first ≤ k → k < end → slice_index lines.new (8 * k)
        ≡ counts_between (digits_of lines.old) (224 * first) (224 * k + 128) }
    ensures kept { (i : ℕ) → i < 8 * first → slice_index lines.new i ≡ slice_index lines.old i }
{
    let mut before = 0;
    for line in first..end {
        let (middle, all) = counts_in_line(&*lines, line);
        lines[WORDS_PER_LINE * line] = before + middle;
        before += all;
    }
    before
}

/// Writes an entry of the table, from the entry before and the counts of its lines.
fn write_entry(table: &mut [u64], entry: usize, counts: u64)
    requires inside { 4 * entry + 4 ≤ length table.old }
    ensures len { length table.new ≡ length table.old }
    ensures numbers { (d : ℕ) → d < 4
        → FollowsEntry table.old entry counts d (slice_index table.new (4 * entry + d)) }
    ensures kept { (i : ℕ) → i < 4 * entry → slice_index table.new i ≡ slice_index table.old i }
{
    for digit in 0..4u8 {
        let number = next_number(&*table, entry, digit, counts);
        table[4 * entry + digit as usize] = number;
    }
}

/// Writes the counts of all lines, and the table.
fn write_counts(lines: &mut [u64], table: &mut [u64])
    requires short { IsShort lines.old }
    requires table { length table.old ≡ 4 * div_ceil (length lines.old / 8) 256 }
    ensures lines_len { length lines.new ≡ length lines.old }
    ensures table_len { length table.new ≡ length table.old }
    ensures digits { digits_of lines.new ≡ digits_of lines.old }
    ensures tables { (n : ℕ) → HasDigitTables (digit_lists lines.new table.new n) }
{
    let count = lines.len() / WORDS_PER_LINE;
    let mut counts = 0;
    for entry in 0..count.div_ceil(LINES_PER_ENTRY) {
        write_entry(&mut *table, entry, counts);
        let first = LINES_PER_ENTRY * entry;
        counts = count_lines(&mut *lines, first, count.min(first + LINES_PER_ENTRY));
    }
}

/// Writes the digits of numbers as lines and their table: digit i is made of bits `position` and `position` + 1 of
/// number i. What both slices held is overwritten. Digits after the last one, up to the end of its line, are 0.
///
/// # Conditions
/// Lines and table have the sizes that `have_sizes` tests for this number of digits. The bit is one of a number's 64.
/// # Cost
/// One pass over the numbers, then one over the lines (evident from the code). Nothing is allocated.
///
/// ```
/// build(&[9, 4, 7], 1, &mut lines, &mut table);   // the digits 0, 2, 3
/// ```
pub fn build(numbers: &[u64], position: u8, lines: &mut [u64], table: &mut [u64])
    requires position { position < 64 }
    requires sizes { HasDigitSizes (digit_lists lines.old table.old (length numbers.now)) }
    ensures sizes { HasDigitSizes (digit_lists lines.new table.new (length numbers.now)) }
    ensures digits { digits_in (digit_lists lines.new table.new (length numbers.now))
        ≡ map (digit_from position) numbers.now }
    ensures rest { (i : ℕ) → length numbers.now ≤ i → slice_index (digits_of lines.new) i ≡ 0 }
    ensures tables { HasDigitTables (digit_lists lines.new table.new (length numbers.now)) }
{
    write_digits(numbers, position, &mut *lines);
    write_counts(lines, table);
}
