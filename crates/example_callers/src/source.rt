//! Words and tables that a user keeps, as a source whose reads are counted: rank and selection over it, with their
//! reads.
ghost use Rattle.std.specs.Prelude.{◌≡◌, ◌+◌, false, length};
ghost use Rattle.bitm.specs.Bits.{digit_count};
ghost use Rattle.bitm.specs.Count.{IsRank, IsSelect};
ghost use Rattle.bitm.specs.Reads.{ReadsAtMost};
ghost use Rattle.bitm.specs.Tables.{IsIndexed, bits_in};

use bitm::{ReadCounts, TableSource, binary_select_on, rank_on};
use std::marker::Model;

/// Words and two tables in vectors, and their reads so far.
#[derive(Drop)]
pub struct Kept {
    words: Vec<u64>,
    upper: Vec<usize>,
    lower: Vec<u64>,
    reads: ReadCounts,
}

impl Model for Kept {
    ghost use Rattle.bitm.specs.Reads.{Probed};

    ghost Value = { Probed };

    ghost view = { λ k. record {
      lists = record { words = k.words.items; upper = k.upper.items; lower = k.lower.items };
      reads = k.reads;
    } };
}

impl Kept {
    ghost use Rattle.bitm.specs.Reads.{none_read};

    /// A source over these, with no reads counted yet.
    pub fn new(words: Vec<u64>, upper: Vec<usize>, lower: Vec<u64>) -> Kept
        ensures lists { result.lists
            ≡ record { words = words.items; upper = upper.items; lower = lower.items } }
        ensures reads { result.reads ≡ none_read }
    {
        Kept {
            words,
            upper,
            lower,
            reads: ReadCounts::new(),
        }
    }
}

impl TableSource for Kept {
    ghost lists = { λ k. k.lists };

    ghost reads = { λ k. k.reads };

    fn word(&mut self, at: usize) -> u64 {
        self.reads.read_word();
        self.words[at]
    }

    fn upper(&mut self, at: usize) -> usize {
        self.reads.read_upper();
        self.upper[at]
    }

    fn lower(&mut self, at: usize) -> u64 {
        self.reads.read_lower();
        self.lower[at]
    }

    fn words_len(&self) -> usize {
        self.words.len()
    }

    fn upper_len(&self) -> usize {
        self.upper.len()
    }

    fn lower_len(&self) -> usize {
        self.lower.len()
    }
}

/// How many of the first `index` bits are ones; `None` exactly where there are fewer bits.
///
/// # Conditions
/// The tables match the words, which are fewer than 2^58.
pub fn rank_in(kept: &mut Kept, index: usize) -> Option<usize>
    requires { IsIndexed kept.old.lists }
    ensures answer { IsRank (bits_in kept.old.lists) index result }
    ensures reads { ReadsAtMost kept.old.reads kept.new.reads 1 1 8 }
{
    rank_on(kept, index)
}

/// The position of the 0 bit with exactly `rank` 0 bits before it; `None` exactly where there is none.
///
/// # Conditions
/// The tables match the words, which are fewer than 2^58.
pub fn select0_in(kept: &mut Kept, rank: usize) -> Option<usize>
    requires { IsIndexed kept.old.lists }
    ensures answer { IsSelect (bits_in kept.old.lists) false rank result }
    ensures reads { ReadsAtMost kept.old.reads kept.new.reads
        (digit_count (length kept.old.lists.upper) + 1) 23 8 }
{
    binary_select_on::<0, Kept>(kept, rank)
}
