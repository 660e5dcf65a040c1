//! Whether lines and table hold the counts of the digits.
ghost use Rattle.std.specs.Prelude.{◌≡◌, ℕ, ◌+◌, ◌-◌, ◌*◌, ◌/◌, ◌%◌, ◌^◌, ◌<◌, ◌≤◌, ◌↔◌, ◌≢◌};
ghost use Rattle.std.specs.Prelude.{length, slice_index, IsTrue, IfSome, MatchOption};
ghost use Rattle.bit_lists.specs.Bits.{IsShort};
ghost use Rattle.digits.specs.Digits.{digits_of};
ghost use Rattle.digits.specs.Tables.{counts_between, digit_lists, HasDigitSizes, HasDigitTables, FollowsEntry};

use crate::counting::{counts_in_line, next_number};
use crate::sizes::{LINES_PER_ENTRY, WORDS_PER_LINE};

/// The counts of all digits of lines `first` to `end` - 1; `None` exactly where a line among them does not hold the
/// counts from line `first` on.
fn counts_of_lines(lines: &[u64], first: usize, end: usize) -> Option<u64>
    requires short { IsShort lines.now }
    requires order { first ≤ end }
    requires near { end ≤ first + 256 }
    requires inside { 8 * end ≤ length lines.now }
    ensures all { IfSome result (λ all. all
        ≡ counts_between (digits_of lines.now) (224 * first) (224 * end)) }
    ensures counts { MatchOption result
        ((k : ℕ) × (first ≤ k) × (k < end) × (slice_index lines.now (8 * k)
        ≢ counts_between (digits_of lines.now) (224 * first) (224 * k + 128)))
        (λ _. (k : ℕ) → first ≤ k → k < end → slice_index lines.now (8 * k)
        ≡ counts_between (digits_of lines.now) (224 * first) (224 * k + 128)) }
{
    let mut before = 0;
    for line in first..end {
        let (middle, all) = counts_in_line(lines, line);
        if lines[WORDS_PER_LINE * line] != before + middle {
            return None;
        }
        before += all;
    }
    Some(before)
}

/// Whether an entry of the table follows from the entry before and the counts of its lines.
fn is_entry(table: &[u64], entry: usize, counts: u64) -> bool
    requires inside { 4 * entry + 4 ≤ length table.now }
    ensures { IsTrue result ↔ ((d : ℕ) → d < 4
        → FollowsEntry table.now entry counts d (slice_index table.now (4 * entry + d))) }
{
    for digit in 0..4u8 {
        let number = next_number(table, entry, digit, counts);
        if table[4 * entry + digit as usize] != number {
            return false;
        }
    }
    true
}

/// Whether the counts of lines and table match the digits.
///
/// # Conditions
/// Lines and table have the sizes that `have_sizes` tests. They may hold anything.
/// # Cost
/// One pass over lines and table, which stops at the first wrong count (evident from the code).
///
/// ```
/// check(&lines, &table, len);   // true of what `build` wrote
/// ```
pub fn check(lines: &[u64], table: &[u64], len: usize) -> bool
    requires { HasDigitSizes (digit_lists lines.now table.now len) }
    ensures { IsTrue result ↔ HasDigitTables (digit_lists lines.now table.now len) }
{
    let count = lines.len() / WORDS_PER_LINE;
    let mut counts = 0;
    for entry in 0..count.div_ceil(LINES_PER_ENTRY) {
        if !is_entry(table, entry, counts) {
            return false;
        }
        let first = LINES_PER_ENTRY * entry;
        match counts_of_lines(lines, first, count.min(first + LINES_PER_ENTRY)) {
            Some(all) => counts = all,
            None => return false,
        }
    }
    true
}
