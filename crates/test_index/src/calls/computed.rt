//! A source of words whose lowest bit alone is one, and of their tables: formulas in place of memory.
//!
//! By hand: word `i` is 1, so the ones before position `p` are `p / 64`, rounded up, and the one of rank `r` is at `64
//! r`. A part of 2^32 bits has 2^26 words, so upper entry `k` is `2^26 k`. A lower entry has 32 words and each record
//! of it eight: its first field is the words of its part before it, and the others 8, 16 and 24.
ghost use Rattle.std.specs.Prelude.{◌≡◌, ◌%◌, ◌<◌, ◌^◌};
ghost use Rattle.bitm.specs.Tables.{IsIndexed, bits_in};
ghost use Rattle.bitm.specs.Count.{ones_of, zeros_of};
ghost use Rattle.test_index.specs.Computed.{lists_of};

use bitm::{ReadCounts, TableSource};
use std::marker::Model;

/// Words that are computed where they are read: their number, and what was read of them.
#[derive(Drop)]
pub struct Computed {
    len: usize,
    reads: ReadCounts,
}

impl Model for Computed {
    ghost use Rattle.std.specs.Prelude.{◌≡◌, ◌%◌, ◌<◌, ◌^◌};
    ghost use Rattle.bitm.specs.Reads.{Probed};
    ghost use Rattle.test_index.specs.Computed.{lists_of};

    ghost Value = { Probed };

    ghost view = { λ c. record { lists = lists_of c.len; reads = c.reads } };

    ghost invariant = { λ c. (c.len < 2 ^ 58) × (c.len % 32 ≡ 0) };
}

impl Computed {
    /// A source of `len` words, with no reads counted yet.
    ///
    /// # Conditions
    /// There are fewer than 2^58 words, and they fill all lower entries.
    pub fn new(len: usize) -> Computed
        requires few { len < 2 ^ 58 }
        requires whole { len % 32 ≡ 0 }
        ensures lists { result.lists ≡ lists_of len }
        ensures indexed { IsIndexed result.lists }
    {
        Computed {
            len,
            reads: ReadCounts::new(),
        }
    }

    /// How many ones the words have: one each.
    pub fn ones(&self) -> usize
        ensures { result ≡ ones_of (bits_in self.now.lists) }
    {
        self.len
    }

    /// How many zeros the words have: 63 each.
    pub fn zeros(&self) -> usize
        ensures { result ≡ zeros_of (bits_in self.now.lists) }
    {
        63 * self.len
    }
}

impl TableSource for Computed {
    ghost lists = { λ c. c.lists };

    ghost reads = { λ c. c.reads };

    fn word(&mut self, _at: usize) -> u64 {
        self.reads.read_word();
        1
    }

    fn upper(&mut self, at: usize) -> usize {
        self.reads.read_upper();
        at << 26
    }

    fn lower(&mut self, at: usize) -> u64 {
        self.reads.read_lower();
        (at as u64 % (1 << 21)) * 32 + (24 << 32) + (16 << 43) + (8 << 54)
    }

    fn words_len(&self) -> usize {
        self.len
    }

    fn upper_len(&self) -> usize {
        self.len.div_ceil(1 << 26)
    }

    fn lower_len(&self) -> usize {
        self.len / 32
    }
}
