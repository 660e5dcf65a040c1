//! Borrowed words and tables, and how long the tables are.
ghost use Rattle.std.specs.Prelude.{◌≡◌, ◌^◌, ◌↔◌, ◌<◌, ◌≤◌, IsTrue, MatchOption, length, SomeIff, true};
ghost use Rattle.std.specs.Int.{div_ceil};
ghost use Rattle.bit_lists.specs.Bits.{bits_of, IsShort};
ghost use Rattle.bit_lists.specs.Count.{as_bit, IsRank};
ghost use Rattle.bitm_tables.specs.Reads.{none_read};
ghost use Rattle.bitm_tables.specs.Tables.{HasSizes, HasTables, bits_in};
ghost use Rattle.bitm_select.specs.Answers.{HasBit, IsSelected};
ghost use Rattle.bitm_select.specs.Claims.{ClaimsNone};
ghost use Rattle.bitm_tables.specs.Answers.{IfAbsent};
ghost use Rattle.tables_view.specs.Ranks.{IsCountWithin, IsRanked};
ghost use Rattle.tables_view.specs.Sizes.{lists_of};

mod by_samples;
mod checks;

use crate::checking::are_tables;
use crate::ranked::ranked_on;
use bitm_select::search::selecting::total_select_on;
use bitm_tables::answer::Answer;
use bitm_tables::levels::{U64_PER_L1_ENTRY, U64_PER_L2_ENTRY};
use bitm_tables::ranking::total_rank_on;
use bitm_tables::source::Probe;
use std::marker::Model;
use tuning::WORDS_AT_HAND;

/// The number of upper entries of the given number of words: ceil(words / 2^26).
#[inline(always)]
pub fn upper_len(words: usize) -> usize
    ensures { result ≡ div_ceil words (2 ^ 26) }
{
    words.div_ceil(U64_PER_L1_ENTRY)
}

/// The number of lower entries of the given number of words: ceil(words / 32).
#[inline(always)]
pub fn lower_len(words: usize) -> usize
    ensures { result ≡ div_ceil words 32 }
{
    words.div_ceil(U64_PER_L2_ENTRY)
}

/// Whether `BIT` stands for 1 bits; only 0 stands for 0 bits.
#[inline(always)]
pub fn is_one<const BIT: u8>() -> bool
    ensures { result ≡ as_bit BIT }
{
    if BIT == 0 { false } else { true }
}

/// Whether there are fewer than 2^58 words and the tables have the right lengths.
#[inline(always)]
pub(crate) fn has_sizes(words: &[u64], upper: &[usize], lower: &[u64]) -> bool
    ensures { IsTrue result ↔ HasSizes (lists_of words.now upper.now lower.now) }
{
    // Sums, and not `upper_len` and `lower_len`: where a caller has bounded the words LLVM then knows the first.
    words.len() < 1 << 58
        && upper.len() == (words.len() + (U64_PER_L1_ENTRY - 1)) / U64_PER_L1_ENTRY
        && lower.len() == (words.len() + (U64_PER_L2_ENTRY - 1)) / U64_PER_L2_ENTRY
}

/// Borrowed words and their two tables, whose lengths are right.
///
/// Contracts see the three lists. The tables may hold anything: each call says its answer where they match the words,
/// and where they do not.
#[derive(Drop)]
pub struct TablesView<'a> {
    words: &'a [u64],
    upper: &'a [usize],
    lower: &'a [u64],
}

impl<'a> Model for TablesView<'a> {
    ghost use Rattle.bitm_tables.specs.Tables.{HasSizes, Lists};
    ghost use Rattle.tables_view.specs.Sizes.{lists_of};

    ghost Value = { Lists };

    ghost view = { λ l. lists_of l.words.now l.upper.now l.lower.now };

    ghost invariant = { λ l. HasSizes (lists_of l.words.now l.upper.now l.lower.now) };
}

impl<'a> TablesView<'a> {
    /// Borrows words and their tables. `None` exactly where there are 2^58 words or more, or a table has another length
    /// than `upper_len` or `lower_len` of the words.
    #[inline(always)]
    pub fn over(words: &'a [u64], upper: &'a [usize], lower: &'a [u64]) -> Option<TablesView<'a>>
        ensures { SomeIff result (HasSizes (lists_of words.now upper.now lower.now))
            (lists_of words.now upper.now lower.now) }
    {
        if has_sizes(words, upper, lower) {
            Some(TablesView {
                words,
                upper,
                lower,
            })
        } else {
            None
        }
    }

    /// Like `over`, for at least one word and at most `WORDS_AT_HAND` words; `None` for any other number of words too.
    /// For a call that treats these apart: fewer tests than `over`.
    #[inline(always)]
    pub fn over_few(
        words: &'a [u64],
        upper: &'a [usize],
        lower: &'a [u64],
    ) -> Option<TablesView<'a>>
        ensures { SomeIff result (HasSizes (lists_of words.now upper.now lower.now)
            × (0 < length words.now) × (length words.now ≤ 2 ^ 18))
            (lists_of words.now upper.now lower.now) }
    {
        let few = words.len().wrapping_sub(1) < WORDS_AT_HAND;
        TablesView::over_part(few, words, upper, lower)
    }

    /// Like `over`, for more than `WORDS_AT_HAND` words in one upper block; `None` for any other number of words too.
    /// For a call that treats these apart: fewer tests than `over`.
    #[inline(always)]
    pub fn over_large_part(
        words: &'a [u64],
        upper: &'a [usize],
        lower: &'a [u64],
    ) -> Option<TablesView<'a>>
        ensures { SomeIff result (HasSizes (lists_of words.now upper.now lower.now)
            × (2 ^ 18 < length words.now) × (length words.now ≤ 2 ^ 26))
            (lists_of words.now upper.now lower.now) }
    {
        let large = words.len() > WORDS_AT_HAND && words.len() <= U64_PER_L1_ENTRY;
        TablesView::over_part(large, words, upper, lower)
    }

    /// Like `over`, for words of one upper block; `None` where `asked` is false too.
    #[inline(always)]
    fn over_part(
        asked: bool,
        words: &'a [u64],
        upper: &'a [usize],
        lower: &'a [u64],
    ) -> Option<TablesView<'a>>
        requires { asked ≡ true → (0 < length words.now) × (length words.now ≤ 2 ^ 26) }
        ensures { SomeIff result ((asked ≡ true) × HasSizes (lists_of words.now upper.now lower.now))
            (lists_of words.now upper.now lower.now) }
    {
        if asked
            && upper.len() == 1
            && lower.len() == (words.len() + (U64_PER_L2_ENTRY - 1)) / U64_PER_L2_ENTRY
        {
            Some(TablesView {
                words,
                upper,
                lower,
            })
        } else {
            None
        }
    }

    /// The words: fewer than 2^58.
    #[inline(always)]
    pub fn words(&self) -> &[u64]
        ensures words { result.now ≡ self.now.words }
        ensures short { IsShort result.now }
    {
        self.words
    }

    /// A source over the words and tables whose reads are counted from 0, for calls over any source.
    #[inline(always)]
    pub fn probe(&self) -> Probe<'_>
        ensures lists { result.lists ≡ self.now }
        ensures sizes { HasSizes result.lists }
        ensures reads { result.reads ≡ none_read }
    {
        Probe::new(self.words, self.upper, self.lower)
    }

    /// Whether the tables match the words. One pass over the words, which stops at the first wrong entry.
    pub fn check(&self) -> bool
        ensures { IsTrue result ↔ HasTables self.now }
    {
        are_tables(self.words, self.upper, self.lower)
    }

    /// The number of 1 bits among the first `index` bits; of 0 bits where `BIT` is 0.
    ///
    /// Whatever the tables hold, the answer is `Absent` exactly where there are fewer than `index` bits, and a count is
    /// at most `index`. Where they match the words, the count is right and the answer is never `Wrong`.
    ///
    /// # Cost
    /// At most one upper entry, one lower entry and eight words are read.
    #[inline(always)]
    pub fn rank<const BIT: u8>(&self, index: usize) -> Answer<usize>
        ensures within { IsCountWithin (length (bits_in self.now)) index result }
        ensures counts { HasTables self.now → IsRanked (bits_in self.now) (as_bit BIT) index result }
    {
        ranked_on(&mut self.probe(), is_one::<BIT>(), index)
    }

    /// The number of 1 bits among the first `index` bits where the tables match the words, any number otherwise. `None`
    /// exactly where there are fewer than `index` bits.
    #[inline(always)]
    fn claimed_ones(&self, index: usize) -> Option<usize>
        ensures sized { HasSizes self.now }
        ensures inside { MatchOption result (length (bits_in self.now) < index)
            (λ _. index ≤ length (bits_in self.now)) }
        ensures answer { HasTables self.now → IsRank (bits_in self.now) index result }
    {
        total_rank_on(&mut self.probe(), index)
    }

    /// The position of the 1 bit with exactly `rank` 1 bits before it; of the 0 bit with `rank` 0 bits before it where
    /// `BIT` is 0.
    ///
    /// Whatever the tables hold, a position that is found is in the words and has such a bit. Where they match the
    /// words, it is the right position, the answer is `Absent` exactly where there is no such bit, and it is never
    /// `Wrong`.
    ///
    /// # Cost
    /// With u upper entries, a query reads at most one more of them than u has binary digits, 23 lower entries and
    /// eight words, whatever the tables hold.
    #[inline(always)]
    pub fn select<const BIT: u8>(&self, rank: usize) -> Answer<usize>
        ensures bit { HasBit (bits_in self.now) (as_bit BIT) result }
        ensures counts { HasTables self.now → IsSelected (bits_in self.now) (as_bit BIT) rank result }
        ensures absent { IfAbsent result (ClaimsNone (as_bit BIT) self.now rank) }
    {
        total_select_on::<BIT, Probe<'_>>(&mut self.probe(), rank)
    }
}
