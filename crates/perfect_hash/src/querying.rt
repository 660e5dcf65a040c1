//! How the bits of levels are queried: in a source, with its reads counted, or in an index.
ghost use Rattle.std.specs.Prelude.{◌≡◌, ◌+◌, ◌/◌, ◌<◌, ◌≤◌, ℕ, List, Bool, ⊤, length, MatchOption};
ghost use Rattle.bit_lists.specs.Bits.{item};
ghost use Rattle.bit_lists.specs.Count.{ones_before};
ghost use Rattle.bitm_tables.specs.Reads.{OnlyReads};
ghost use Rattle.bitm_tables.specs.Tables.{bits_in, HasSizes, HasTables, Lists};

use crate::asking::is_one_on;
use bitm::Access;
use bitm_tables::ranking::total_rank_on;
use bitm_tables::source::{Probe, TableSource};

/// A way to query bits: a look-up runs one body, over any source and over any index.
pub(crate) trait Query {
    /// The bits that are queried, where a source has these lists.
    ghost bits: { Self → Lists → List Bool };

    /// Whether ranks are answered where a source has these lists.
    ghost sized: { Self → Lists → Type 0 };

    /// Whether they are right then.
    ghost ready: { Self → Lists → Type 0 };

    /// How many words of the source are read for a bit.
    ghost words_each: { ℕ };

    /// How many words the bits fill.
    fn words_len<T: TableSource>(&self, source: &T) -> usize
        ensures { result ≡ length (bits self.now (T.lists source.now)) / 64 };

    /// Whether the bit at `position` is 1.
    ///
    /// # Conditions
    /// There is such a bit.
    fn is_one<T: TableSource>(&self, source: &mut T, position: usize) -> bool
        requires { position < length (bits self.now (T.lists source.old)) }
        ensures bit { result ≡ item (bits self.now (T.lists source.old)) position }
        ensures reads { OnlyReads T.lists T.reads source.old source.new 0 0 1 }
        ensures counted { (T.reads source.new).words ≡ (T.reads source.old).words + words_each };

    /// How many 1 bits stand before `position`; `None` only where the tables do not match the bits.
    ///
    /// # Conditions
    /// There are no fewer bits.
    /// # Cost
    /// At most one upper entry, one lower entry and eight words of the source are read.
    fn rank<T: TableSource>(&self, source: &mut T, position: usize) -> Option<usize>
        requires sized { sized self.now (T.lists source.old) }
        requires inside { position ≤ length (bits self.now (T.lists source.old)) }
        ensures count { ready self.now (T.lists source.old)
            → MatchOption result ⊥ (λ n. n ≡ ones_before (bits self.now (T.lists source.old)) position) }
        ensures reads { OnlyReads T.lists T.reads source.old source.new 1 1 8 };
}

/// Queries the bits of the source.
#[derive(Clone, Copy)]
pub(crate) struct BySource;

impl Query for BySource {
    ghost bits = { λ _ lists. bits_in lists };

    ghost sized = { λ _ lists. HasSizes lists };

    ghost ready = { λ _ lists. HasTables lists };

    ghost words_each = { 1 };

    #[inline(always)]
    #[tactic(auto, using(bitm::proofs::BitLaws::bits_are_counted))]
    fn words_len<T: TableSource>(&self, source: &T) -> usize {
        source.words_len()
    }

    #[inline(always)]
    fn is_one<T: TableSource>(&self, source: &mut T, position: usize) -> bool {
        is_one_on(source, position)
    }

    #[inline(always)]
    fn rank<T: TableSource>(&self, source: &mut T, position: usize) -> Option<usize> {
        total_rank_on(source, position)
    }
}

/// Queries an index, and reads nothing of the source.
#[derive(Clone, Copy)]
pub(crate) struct ByIndex<'a, I> {
    pub(crate) index: &'a I,
}

impl<'a, I: Access> Query for ByIndex<'a, I> {
    ghost bits = { λ by _. I.bits by.index.now };

    ghost sized = { λ _ _. ⊤ };

    ghost ready = { λ _ _. ⊤ };

    ghost words_each = { 0 };

    #[inline(always)]
    fn words_len<T: TableSource>(&self, _source: &T) -> usize {
        self.index.len() / 64
    }

    #[inline(always)]
    fn is_one<T: TableSource>(&self, _source: &mut T, position: usize) -> bool {
        self.index.get_bit(position)
    }

    #[inline(always)]
    fn rank<T: TableSource>(&self, _source: &mut T, position: usize) -> Option<usize> {
        Some(self.index.rank(position))
    }
}

/// A source over nothing, for an index that is queried itself.
#[inline(always)]
pub(crate) fn no_source() -> Probe<'static> {
    Probe::new([].as_slice(), [].as_slice(), [].as_slice())
}
