//! Sources of words and tables whose reads are counted.
ghost use Rattle.std.specs.Prelude.{◌≡◌, ◌<◌, length, slice_index};
ghost use Rattle.bitm_tables.specs.declared.source.counts.ReadCounts.{ReadCounts};
ghost use Rattle.bitm_tables.specs.Reads.{word_read, upper_read, lower_read, none_read};
ghost use Rattle.bitm_tables.specs.Tables.{Lists};

pub mod counts;

use crate::source::counts::ReadCounts;
use std::marker::Model;

/// Words and two tables, whose items are read by calls that count, and by no others.
pub trait TableSource {
    /// The words and the two tables.
    ghost lists: { Self → Lists };

    /// The reads so far.
    ghost reads: { Self → ReadCounts };

    /// Word `at`; one more word is read.
    ///
    /// # Conditions
    /// There is such a word.
    fn word(&mut self, at: usize) -> u64
        requires { at < length (lists self.old).words }
        ensures item { result ≡ slice_index (lists self.old).words at }
        ensures counted { reads self.new ≡ word_read (reads self.old) }
        ensures same { lists self.new ≡ lists self.old };

    /// Upper entry `at`; one more upper entry is read.
    ///
    /// # Conditions
    /// There is such an entry.
    fn upper(&mut self, at: usize) -> usize
        requires { at < length (lists self.old).upper }
        ensures item { result ≡ slice_index (lists self.old).upper at }
        ensures counted { reads self.new ≡ upper_read (reads self.old) }
        ensures same { lists self.new ≡ lists self.old };

    /// Lower entry `at`; one more lower entry is read.
    ///
    /// # Conditions
    /// There is such an entry.
    fn lower(&mut self, at: usize) -> u64
        requires { at < length (lists self.old).lower }
        ensures item { result ≡ slice_index (lists self.old).lower at }
        ensures counted { reads self.new ≡ lower_read (reads self.old) }
        ensures same { lists self.new ≡ lists self.old };

    /// The number of words.
    fn words_len(&self) -> usize
        ensures { result ≡ length (lists self.now).words };

    /// The number of upper entries.
    fn upper_len(&self) -> usize
        ensures { result ≡ length (lists self.now).upper };

    /// The number of lower entries.
    fn lower_len(&self) -> usize
        ensures { result ≡ length (lists self.now).lower };
}

/// A source over three borrowed slices.
#[derive(Drop)]
pub struct Probe<'a> {
    content: &'a [u64],
    l1ranks: &'a [usize],
    l2ranks: &'a [u64],
    reads: ReadCounts,
}

impl<'a> Model for Probe<'a> {
    ghost use Rattle.bitm_tables.specs.Reads.{Probed};

    ghost Value = { Probed };

    ghost view = { λ p. record {
      lists = record { words = p.content.now; upper = p.l1ranks.now; lower = p.l2ranks.now };
      reads = p.reads;
    } };
}

impl<'a> Probe<'a> {
    /// A source over words and two tables, whose reads are counted from 0.
    #[inline(always)]
    pub fn new(content: &'a [u64], l1ranks: &'a [usize], l2ranks: &'a [u64]) -> Probe<'a>
        ensures lists { result.lists
            ≡ record { words = content.now; upper = l1ranks.now; lower = l2ranks.now } }
        ensures reads { result.reads ≡ none_read }
    {
        Probe {
            content,
            l1ranks,
            l2ranks,
            reads: ReadCounts::new(),
        }
    }

    /// The reads so far.
    #[inline(always)]
    pub fn into_reads(self) -> ReadCounts
        ensures { result ≡ self.entry.reads }
    {
        let Probe {
            content: _,
            l1ranks: _,
            l2ranks: _,
            reads,
        } = self;
        reads
    }
}

impl<'a> TableSource for Probe<'a> {
    ghost lists = { λ s. s.lists };

    ghost reads = { λ s. s.reads };

    #[inline(always)]
    fn word(&mut self, at: usize) -> u64 {
        self.reads.read_word();
        self.content[at]
    }

    #[inline(always)]
    fn upper(&mut self, at: usize) -> usize {
        self.reads.read_upper();
        self.l1ranks[at]
    }

    #[inline(always)]
    fn lower(&mut self, at: usize) -> u64 {
        self.reads.read_lower();
        self.l2ranks[at]
    }

    #[inline(always)]
    fn words_len(&self) -> usize {
        self.content.len()
    }

    #[inline(always)]
    fn upper_len(&self) -> usize {
        self.l1ranks.len()
    }

    #[inline(always)]
    fn lower_len(&self) -> usize {
        self.l2ranks.len()
    }
}
