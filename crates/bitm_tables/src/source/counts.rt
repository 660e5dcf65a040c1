//! Numbers that only clauses read. They take no bytes, and no code runs for them.
ghost use Rattle.std.specs.Prelude.{◌≡◌, ℕ, ◌+◌};
ghost use Rattle.std.specs.Borrow.{ftrue};

use std::marker::Model;
use std::mem::size_of;

/// How often each list of a source was read: words, upper entries and lower entries.
///
/// The numbers are unbounded. They take no bytes at run time; only clauses see them.
#[derive(Drop)]
pub struct ReadCounts {
    /// How many words were read.
    pub ghost words: { ℕ },
    /// How many upper entries were read.
    pub ghost upper: { ℕ },
    /// How many lower entries were read.
    pub ghost lower: { ℕ },
}

const _: () = prove!(size_of::<ReadCounts>() == 0);

impl Model for ReadCounts {
    ghost also_owns = { λ _. ftrue };
}

impl ReadCounts {
    ghost use Rattle.bitm_tables.specs.Reads.{none_read, word_read, upper_read, lower_read};

    /// No reads yet: what a source of one's own begins with.
    ///
    /// That the counter of a source is of its own reads is what the calls of `TableSource` promise, and the module that
    /// holds it.
    ///
    /// ```
    /// ReadCounts::new(); // no word, no upper entry and no lower entry
    /// ```
    #[inline(always)]
    pub fn new() -> ReadCounts
        ensures { result ≡ none_read }
    {
        ReadCounts {}
    }

    /// Adds to the three numbers.
    #[inline(always)]
    fn add(&mut self, _words: u64, _upper: u64, _lower: u64)
        ensures { self.new ≡ record {
          words = self.old.words + _words;
          upper = self.old.upper + _upper;
          lower = self.old.lower + _lower;
        } }
    {}

    /// Counts one more word.
    #[inline(always)]
    pub fn read_word(&mut self)
        ensures { self.new ≡ word_read self.old }
    {
        self.add(1, 0, 0)
    }

    /// Counts one more upper entry.
    #[inline(always)]
    pub fn read_upper(&mut self)
        ensures { self.new ≡ upper_read self.old }
    {
        self.add(0, 1, 0)
    }

    /// Counts one more lower entry.
    #[inline(always)]
    pub fn read_lower(&mut self)
        ensures { self.new ≡ lower_read self.old }
    {
        self.add(0, 0, 1)
    }
}
