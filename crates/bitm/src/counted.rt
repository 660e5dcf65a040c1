//! A value whose ranks and selections are counted: a body over it makes no more of them than its clause says.
ghost use Rattle.std.specs.Prelude.{◌≡◌, ◌+◌, ◌<◌, ◌≤◌, length, true, false};
ghost use Rattle.bit_lists.specs.Count.{ones_before, zeros_before, ones_of, zeros_of, IsSelect, Picks};
ghost use Rattle.bitm.specs.Counted.{one_more_rank, one_more_selection, no_queries};

use crate::queries::{HasBits, Rank, Select, Select0};
use bitm_tables::source::counts::ReadCounts;
use std::marker::Model;

/// A borrowed value, and how many ranks and selections were made in it. The counts take no bytes at run time.
#[derive(Drop)]
pub(crate) struct Counted<'a, I> {
    value: &'a I,
    // A rank counts as a word, and a selection too.
    ranks: ReadCounts,
    selections: ReadCounts,
}

impl<'a, I> Model for Counted<'a, I> {
    ghost use Rattle.bitm.specs.Counted.{Queries};

    ghost Value = { Queries I };

    ghost view = { λ c. record {
      value = c.value.now;
      ranks = c.ranks.words;
      selections = c.selections.words;
    } };
}

impl<'a, I> Counted<'a, I> {
    /// A value in which no rank and no selection was made yet.
    #[inline(always)]
    pub(crate) fn new(value: &'a I) -> Counted<'a, I>
        ensures { result ≡ no_queries value.now }
    {
        Counted {
            value,
            ranks: ReadCounts::new(),
            selections: ReadCounts::new(),
        }
    }
}

impl<'a, I: HasBits> Counted<'a, I> {
    /// The number of bits.
    #[inline(always)]
    pub(crate) fn len(&self) -> usize
        ensures { result ≡ length (I.bits self.now.value) }
    {
        self.value.len()
    }
}

impl<'a, I: Rank> Counted<'a, I> {
    /// The number of 1 bits among the first `index` bits; one more rank is made.
    ///
    /// # Conditions
    /// There are at least `index` bits.
    #[inline(always)]
    pub(crate) fn rank(&mut self, index: usize) -> usize
        requires { index ≤ length (I.bits self.old.value) }
        ensures count { result ≡ ones_before (I.bits self.old.value) index }
        ensures counted { self.new ≡ one_more_rank self.old }
    {
        self.ranks.read_word();
        self.value.rank(index)
    }

    /// The number of 0 bits among the first `index` bits; one more rank is made.
    ///
    /// # Conditions
    /// There are at least `index` bits.
    #[inline(always)]
    pub(crate) fn rank0(&mut self, index: usize) -> usize
        requires { index ≤ length (I.bits self.old.value) }
        ensures count { result ≡ zeros_before (I.bits self.old.value) index }
        ensures counted { self.new ≡ one_more_rank self.old }
    {
        self.ranks.read_word();
        self.value.rank0(index)
    }
}

impl<'a, I: Select> Counted<'a, I> {
    /// The position of the 1 bit with rank `rank`; `None` exactly where there is none. One more selection is made.
    #[inline(always)]
    pub(crate) fn try_select(&mut self, rank: usize) -> Option<usize>
        ensures position { IsSelect (I.bits self.old.value) true rank result }
        ensures counted { self.new ≡ one_more_selection self.old }
    {
        self.selections.read_word();
        self.value.try_select(rank)
    }

    /// The position of the 1 bit with rank `rank`; one more selection is made.
    ///
    /// # Conditions
    /// There are more than `rank` 1 bits.
    #[inline(always)]
    pub(crate) fn select(&mut self, rank: usize) -> usize
        requires { rank < ones_of (I.bits self.old.value) }
        ensures position { Picks (I.bits self.old.value) true rank result }
        ensures counted { self.new ≡ one_more_selection self.old }
    {
        self.selections.read_word();
        self.value.select(rank)
    }
}

impl<'a, I: Select0> Counted<'a, I> {
    /// The position of the 0 bit with rank `rank`; `None` exactly where there is none. One more selection is made.
    #[inline(always)]
    pub(crate) fn try_select0(&mut self, rank: usize) -> Option<usize>
        ensures position { IsSelect (I.bits self.old.value) false rank result }
        ensures counted { self.new ≡ one_more_selection self.old }
    {
        self.selections.read_word();
        self.value.try_select0(rank)
    }

    /// The position of the 0 bit with rank `rank`; one more selection is made.
    ///
    /// # Conditions
    /// There are more than `rank` 0 bits.
    #[inline(always)]
    pub(crate) fn select0(&mut self, rank: usize) -> usize
        requires { rank < zeros_of (I.bits self.old.value) }
        ensures position { Picks (I.bits self.old.value) false rank result }
        ensures counted { self.new ≡ one_more_selection self.old }
    {
        self.selections.read_word();
        self.value.select0(rank)
    }
}
