//! A source of lines and a table, whose reads are counted: lines that are opened, and numbers of the table.
ghost use Rattle.std.specs.Prelude.{◌≡◌, ℕ, ◌+◌, ◌*◌, ◌<◌, ◌≤◌, Some, length, slice_index, IfSome, MatchOption};
ghost use Rattle.bit_lists.specs.Bits.{IsShort};
ghost use Rattle.digits.specs.declared.source.counts.DigitReads.{DigitReads};
ghost use Rattle.digits.specs.Reads.{line_read, no_digit_reads, number_read};
ghost use Rattle.digits.specs.Tables.{DigitLists, HasDigitSizes, digit_lists};

pub mod counts;

use crate::sizes::have_sizes;
use crate::source::counts::DigitReads;
use std::marker::Model;

/// Lines, of which one at a time is open, and a table. Their items are read by calls that count, and by no others.
pub trait DigitSource {
    /// The lines, the table and the number of digits.
    ghost lists: { Self → DigitLists };

    /// The reads so far, and the open line. A query knows of no open line before it opens one.
    ghost reads: { Self → DigitReads };

    /// Opens a line; one more line is read.
    ///
    /// # Conditions
    /// There is such a line.
    fn open(&mut self, line: usize)
        requires { 8 * line + 8 ≤ length (lists self.old).lines }
        ensures counted { reads self.new ≡ line_read line (reads self.old) }
        ensures same { lists self.new ≡ lists self.old };

    /// Word `position` of line `line`.
    ///
    /// # Conditions
    /// The line is the open one, there is such a word, and there are fewer than 2^58 words.
    fn word(&self, line: usize, position: usize) -> u64
        requires open { (reads self.now).opened ≡ Some line }
        requires short { IsShort (lists self.now).lines }
        requires inside { 8 * line + 8 ≤ length (lists self.now).lines }
        requires position { position < 8 }
        ensures { result ≡ slice_index (lists self.now).lines (8 * line + position) };

    /// Number `at` of the table; one more number is read.
    ///
    /// # Conditions
    /// There is such a number.
    fn number(&mut self, at: usize) -> u64
        requires { at < length (lists self.old).table }
        ensures item { result ≡ slice_index (lists self.old).table at }
        ensures counted { reads self.new ≡ number_read (reads self.old) }
        ensures same { lists self.new ≡ lists self.old };

    /// The number of digits.
    fn digits_len(&self) -> usize
        ensures { result ≡ (lists self.now).len };
}

/// A source over two borrowed slices.
#[derive(Drop)]
pub struct DigitProbe<'a> {
    lines: &'a [u64],
    table: &'a [u64],
    len: usize,
    reads: DigitReads,
}

impl<'a> Model for DigitProbe<'a> {
    ghost use Rattle.digits.specs.Reads.{DigitsProbed};

    ghost Value = { DigitsProbed };

    ghost view = { λ p. record {
      lists = record { lines = p.lines.now; table = p.table.now; len = p.len };
      reads = p.reads;
    } };
}

impl<'a> DigitProbe<'a> {
    /// A source over the first `len` digits of lines and their table, whose reads are counted from 0; `None` exactly
    /// where they have other lengths than `len` digits need, or 2^58 words or more. They may hold anything.
    ///
    /// ```
    /// DigitProbe::over(&lines, &table, len);
    /// ```
    #[inline(always)]
    pub fn over(lines: &'a [u64], table: &'a [u64], len: usize) -> Option<DigitProbe<'a>>
        ensures sizes { MatchOption result (¬ (HasDigitSizes (digit_lists lines.now table.now len)))
            (λ p. HasDigitSizes p.lists) }
        ensures lists { IfSome result (λ p. p.lists ≡ digit_lists lines.now table.now len) }
        ensures reads { IfSome result (λ p. p.reads ≡ no_digit_reads) }
    {
        if have_sizes(lines, table, len) {
            Some(DigitProbe::new(lines, table, len))
        } else {
            None
        }
    }

    /// A source over the first `len` digits of lines and their table, whose reads are counted from 0.
    #[inline(always)]
    pub fn new(lines: &'a [u64], table: &'a [u64], len: usize) -> DigitProbe<'a>
        ensures lists { result.lists ≡ digit_lists lines.now table.now len }
        ensures reads { result.reads ≡ no_digit_reads }
    {
        DigitProbe {
            lines,
            table,
            len,
            reads: DigitReads::new(),
        }
    }
}

impl<'a> DigitSource for DigitProbe<'a> {
    ghost lists = { λ s. s.lists };

    ghost reads = { λ s. s.reads };

    #[inline(always)]
    fn open(&mut self, line: usize) {
        self.reads.read_line(line as u64);
    }

    #[inline(always)]
    fn word(&self, line: usize, position: usize) -> u64 {
        self.lines[8 * line + position]
    }

    #[inline(always)]
    fn number(&mut self, at: usize) -> u64 {
        self.reads.read_number();
        self.table[at]
    }

    #[inline(always)]
    fn digits_len(&self) -> usize {
        self.len
    }
}
