//! Numbers that only clauses read. They take no bytes, and no code runs for them.
ghost use Rattle.std.specs.Prelude.{◌≡◌, ℕ, ◌+◌, Option};
ghost use Rattle.std.specs.Borrow.{ftrue};

use std::marker::Model;
use std::mem::size_of;

/// How many lines and numbers of the table a source has read, and which line is open.
///
/// The numbers are unbounded. They take no bytes at run time; only clauses see them.
#[derive(Drop)]
pub struct DigitReads {
    /// How many lines were opened.
    pub ghost lines: { ℕ },
    /// How many numbers of the table were read.
    pub ghost numbers: { ℕ },
    /// The line that is open, if one is.
    pub ghost opened: { Option ℕ },
}

const _: () = prove!(size_of::<DigitReads>() == 0);

impl Model for DigitReads {
    ghost also_owns = { λ _. ftrue };
}

impl DigitReads {
    ghost use Rattle.digits.specs.Reads.{no_digit_reads, line_read, number_read};

    /// No reads yet, and no open line: what a source begins with.
    ///
    /// ```
    /// DigitReads::new(); // no line and no number
    /// ```
    #[inline(always)]
    pub fn new() -> DigitReads
        ensures { result ≡ no_digit_reads }
    {
        DigitReads {}
    }

    /// Counts one more line, which is now the open one.
    #[inline(always)]
    pub fn read_line(&mut self, _line: u64)
        ensures { self.new ≡ line_read _line self.old }
    {}

    /// Adds to the numbers of the table that were read.
    #[inline(always)]
    fn add(&mut self, _numbers: u64)
        ensures { self.new ≡ record self.old { numbers = self.old.numbers + _numbers } }
    {}

    /// Counts one more number of the table.
    #[inline(always)]
    pub fn read_number(&mut self)
        ensures { self.new ≡ number_read self.old }
    {
        self.add(1)
    }
}
