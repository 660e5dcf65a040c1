//! Where numbers of a sequence stand.
ghost use Rattle.std.specs.Prelude.{◌↔◌, IsTrue};
ghost use Rattle.std.specs.List.{Contains};
ghost use Rattle.elias_fano.specs.Sequence.{IsFirstAtLeast, IsLastAtMost};

use crate::items::Items;
use crate::predecessor::last_at_most_by;
use crate::sequence::Sequence;
use bitm_select::search::selected::found;
use bitm_strategies::{Select0ForRank101111, SelectForRank101111};

impl<S: SelectForRank101111, S0: Select0ForRank101111> Sequence<S, S0> {
    /// The least index whose number is at least `v` (the successor); `None` exactly where there is none.
    ///
    /// # Cost
    /// One selection of a 0 bit in the upper vector by the sequence's own strategy, then at most eight words, or, where
    /// the numbers that share the high bits of `v` do not end in these, a second selection; and at most one fragment of
    /// the low vector for each binary digit of how many these are. After the first selection that is at most `digits +
    /// 1` upper entries, where the number of them has `digits` binary digits, 23 lower entries and 16 words: evident
    /// from the code. `first_at_least_on` has clauses for all of its reads.
    #[inline]
    pub fn first_at_least(&self, v: u64) -> Option<usize>
        ensures { IsFirstAtLeast self.now.items v result }
    {
        found(self.successor(v))
    }

    /// The greatest index whose number is at most `v` (the predecessor); `None` exactly where there is none.
    ///
    /// # Cost
    /// The cost of `first_at_least` of `v + 1`, and nothing where `v` is 2^64 - 1.
    #[inline]
    pub fn last_at_most(&self, v: u64) -> Option<usize>
        ensures { IsLastAtMost self.now.items v result }
    {
        let (mut source, mut low, bits) = self.parts();
        found(last_at_most_by(&mut source, &bits, &mut low, self.len(), v))
    }

    /// Whether `v` is one of the numbers.
    ///
    /// # Cost
    /// The cost of `first_at_least`, and one more fragment of the low vector: no 1 bit is selected.
    #[inline]
    pub fn contains(&self, v: u64) -> bool
        ensures { IsTrue result ↔ Contains self.now.items v }
    {
        match self.has(v) {
            Some(is) => is,
            None => unreachable!(),
        }
    }
}
