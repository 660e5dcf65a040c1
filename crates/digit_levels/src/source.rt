//! The lines and the table of one level at a time, whose reads are counted over all levels.
ghost use Rattle.std.specs.Prelude.{◌≡◌};
ghost use Rattle.digits.specs.Reads.{no_digit_reads};
ghost use Rattle.digits.specs.Tables.{digit_lists};

use digits::source::DigitSource;
use digits::source::counts::DigitReads;
use std::marker::Model;

/// A source over the lines and the table of one level, which may be exchanged for another level's.
#[derive(Drop)]
pub struct LevelProbe<'a> {
    lines: &'a [u64],
    table: &'a [u64],
    len: usize,
    reads: DigitReads,
}

impl<'a> Model for LevelProbe<'a> {
    ghost use Rattle.digits.specs.Reads.{DigitsProbed};

    ghost Value = { DigitsProbed };

    ghost view = { λ p. record {
      lists = record { lines = p.lines.now; table = p.table.now; len = p.len };
      reads = p.reads;
    } };
}

impl<'a> LevelProbe<'a> {
    /// A source over the first `len` digits of lines and their table, whose reads are counted from 0.
    #[inline(always)]
    pub(crate) fn new(lines: &'a [u64], table: &'a [u64], len: usize) -> LevelProbe<'a>
        ensures lists { result.lists ≡ digit_lists lines.now table.now len }
        ensures reads { result.reads ≡ no_digit_reads }
    {
        LevelProbe {
            lines,
            table,
            len,
            reads: DigitReads::new(),
        }
    }

    /// Goes on over other lines and another table. Its reads stay counted.
    #[inline(always)]
    pub(crate) fn go_to(&mut self, lines: &'a [u64], table: &'a [u64], len: usize)
        ensures lists { self.new.lists ≡ digit_lists lines.now table.now len }
        ensures reads { self.new.reads ≡ self.old.reads }
    {
        self.lines = lines;
        self.table = table;
        self.len = len;
    }
}

impl<'a> DigitSource for LevelProbe<'a> {
    ghost lists = { λ s. s.lists };

    ghost reads = { λ s. s.reads };

    #[inline(always)]
    fn open(&mut self, line: usize) {
        self.reads.read_line(line as u64);
    }

    #[inline(always)]
    fn word(&self, line: usize, position: usize) -> u64 {
        self.lines[8 * line + position]
    }

    #[inline(always)]
    fn number(&mut self, at: usize) -> u64 {
        self.reads.read_number();
        self.table[at]
    }

    #[inline(always)]
    fn digits_len(&self) -> usize {
        self.len
    }
}
