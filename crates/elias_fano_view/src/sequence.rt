//! A sequence whose parts are borrowed.
ghost use Rattle.std.specs.Prelude.{◌≡◌, ◌+◌, ◌*◌, ◌/◌, ◌^◌, ◌<◌, ◌≤◌, ◌↔◌, ℕ, SomeIff};
ghost use Rattle.std.specs.Prelude.{IsTrue, List, length, slice_index, true};
ghost use Rattle.std.specs.List.Sorted.{IsStrictlyIncreasing};
ghost use Rattle.bitm_select.specs.Answers.{IsSelectCode};
ghost use Rattle.bitm_selection.specs.Hints.{Lead};
ghost use Rattle.bitm_tables.specs.Tables.{HasTables, Lists};
ghost use Rattle.elias_fano.specs.Parts.{HasFragment};
ghost use Rattle.elias_fano.specs.Answers.{IsItem, IsOfIndex, IsIndexIn, IsSuccessorOf};
ghost use Rattle.elias_fano.specs.SequenceParts.{parts_of, parts_with, with_hints, AreParts, HasLengths, Holds};
ghost use Rattle.elias_fano_view.specs.Lists.{AreAhead, AreZerosAhead, AreEndCodes, IsZeroCode};
ghost use Rattle.elias_fano.specs.Low.{unread, ReadsFragments};
ghost use Rattle.elias_fano.specs.Claims.{IfIndex, ClaimsLess};

mod finding;
mod items;

use crate::bucket::{index_of, rank_each};
use crate::checking::are_parts;
use crate::rising::rise_among;
use bitm_select::search::selected::WRONG_TABLES;
use bitm_selection::{are_all_hints, hints_len};
use bitm_tables::answer::Answer;
use elias_fano::building::item_at_one;
use elias_fano::{Items, LowDigits, hinted_first_at_least_on, hinted_item_on};
use std::marker::Model;
use tables_view::TablesView;
use tuning::SELECTIONS_SIDE_BY_SIDE;

/// Number `index` of `n`, from the code `one` of the position of its 1 bit. Reads the low bits of at most one number.
#[inline(always)]
fn item_of(low: &mut LowDigits<'_>, n: usize, index: usize, one: usize) -> Answer<u64>
    requires { index < n → HasFragment low.old.words index low.old.width }
    ensures inside { IsOfIndex n index result }
    ensures answer { (xs : List ℕ) (upper : Lists) → Holds xs (parts_with n low.old upper)
        → IsSelectCode true upper index one → IsItem xs index result }
    ensures fragments { ReadsFragments low.old low.new 1 }
{
    if index >= n {
        return Answer::Absent;
    }
    if one >= WRONG_TABLES {
        return Answer::Wrong;
    }
    Answer::Found(item_at_one(one, low, index))
}

/// The borrowed parts of a sequence, whose lengths are right.
///
/// Contracts see the number of numbers, the number of low bits of each, and the lists. These may hold anything: each
/// call says its answer where they form a sequence, and where they do not. A view keeps the number of low bits and not
/// the largest number, from which each call would have to compute it by a division.
///
/// A view may have hints of the high bits, by which it selects. They are trusted as the tables are: where they do not
/// match the words, an answer may differ.
#[derive(Drop)]
pub struct SequenceView<'a> {
    len: usize,
    width: u8,
    low: &'a [u64],
    upper: TablesView<'a>,
    hints: &'a [u64],
}

impl<'a> Model for SequenceView<'a> {
    ghost use Rattle.elias_fano.specs.SequenceParts.{parts_of, with_hints, HasLengths, SequenceParts};

    ghost Value = { SequenceParts };

    ghost view = { λ s. record {
      len = s.len;
      width = s.width;
      low = s.low.now;
      upper = s.upper;
      hints = s.hints.now;
    } };

    ghost invariant = { λ s. HasLengths (with_hints s.hints.now (parts_of s.len s.width s.low.now s.upper)) };
}

impl<'a> SequenceView<'a> {
    /// Borrows the parts of `len` numbers: `width` low bits of each in `low`, and the words of the high bits with their
    /// tables in `upper`. `None` exactly where there are 2^56 numbers or more, more than 63 low bits of each, or where
    /// `low` is not as long as the low bits need. The sequence has no hints.
    #[inline(always)]
    pub fn over(
        len: usize,
        width: u8,
        low: &'a [u64],
        upper: TablesView<'a>,
    ) -> Option<SequenceView<'a>>
        ensures { SomeIff result (HasLengths (parts_of len width low.now upper.entry))
            (parts_of len width low.now upper.entry) }
    {
        if len >= 1 << 56 || width > 63 {
            return None;
        }
        if low.len() != (len * width as usize).div_ceil(64) {
            return None;
        }
        Some(SequenceView {
            len,
            width,
            low,
            upper,
            hints: &[],
        })
    }

    /// The sequence with hints of its high bits, in place of the hints that it had: the hints of the 1 bits and after
    /// them the hints of the 0 bits, as `write_hints` of `bitm_selection` writes them, or an empty list. They shorten
    /// the selections. `None` exactly where the list is neither empty nor as long as `hints_len` of `bitm_selection`
    /// says.
    ///
    /// ```
    /// let Some(primes) = primes.with_hints(&hints) else { return };
    /// primes.get(4);   // Found(11)
    /// ```
    #[inline(always)]
    pub fn with_hints(self, hints: &'a [u64]) -> Option<SequenceView<'a>>
        ensures { SomeIff result (HasLengths (with_hints hints.now self.entry))
            (with_hints hints.now self.entry) }
    {
        if !hints.is_empty() && hints.len() != hints_len(self.len, self.upper.words().len()) {
            return None;
        }
        let SequenceView {
            len,
            width,
            low,
            upper,
            ..
        } = self;
        Some(SequenceView {
            len,
            width,
            low,
            upper,
            hints,
        })
    }

    /// The number of numbers, less than 2^56.
    #[inline(always)]
    pub fn len(&self) -> usize
        ensures len { result ≡ self.now.len }
        ensures short { result < 2 ^ 56 }
    {
        self.len
    }

    /// Whether the parts form a sequence, tables and hints included. One pass over the words of the high bits for the
    /// tables, and one more for the numbers, which reads the low bits of numbers next to one another with the same high
    /// bits; then one selection for each hint.
    pub fn check(&self) -> bool
        ensures { IsTrue result ↔ AreParts self.now }
    {
        self.leads() && are_parts(self.upper.words(), self.low, self.width, self.len)
    }

    /// Whether the tables match the words of the high bits, and so do the hints, if there are some.
    fn leads(&self) -> bool
        ensures { IsTrue result
            ↔ (HasTables self.now.upper × Lead self.now.len self.now.hints self.now.upper.words) }
    {
        if !self.upper.check() {
            return false;
        }
        self.hints.is_empty() || are_all_hints(&mut self.upper.probe(), self.len, self.hints)
    }

    /// Whether each number is greater than the one before it, where the parts form a sequence.
    ///
    /// # Cost
    /// One pass over the words of the high bits, which reads the low bits of numbers next to one another with the same
    /// high bits (evident from the code).
    ///
    /// ```
    /// primes.is_strictly_rising();   // true: no prime stands there twice
    /// ```
    pub fn is_strictly_rising(&self) -> bool
        ensures { (xs : List ℕ) → Holds xs self.now → IsTrue result ↔ IsStrictlyIncreasing xs }
    {
        rise_among(self.upper.words(), self.low, self.width, self.len, 1)
    }

    /// The low bits, whose reads are counted from 0.
    #[inline(always)]
    fn low_digits(&self) -> LowDigits<'_>
        ensures { result ≡ unread self.now.low self.now.width }
    {
        LowDigits::new(self.low, self.width)
    }

    /// At each sixteenth index of the list, selects the 1 bits of the next sixteen numbers side by side.
    #[inline(always)]
    pub(crate) fn select_ahead(&self, indices: &[usize], at: usize, ones: &mut [usize])
        requires at { at < length indices.now }
        requires room { length ones.old ≡ 16 }
        requires claimed { AreAhead self.now.upper indices.now at ((at + 15) / 16 * 16) ones.old }
        ensures claimed { AreAhead self.now.upper indices.now at ((at + 16) / 16 * 16) ones.new }
        ensures room { length ones.new ≡ 16 }
    {
        if at % SELECTIONS_SIDE_BY_SIDE != 0 {
            return;
        }
        let count = (indices.len() - at).min(SELECTIONS_SIDE_BY_SIDE);
        let next = &indices[at..at + count];
        self.upper.select_list::<1>(next, &mut ones[0..count]);
    }

    /// At each sixteenth value of the list, selects the 0 bits of the buckets of the next sixteen side by side: the 0
    /// bits before the buckets where `less` is 1, and the 0 bits after them where it is 0.
    #[inline(always)]
    pub(crate) fn zeros_ahead(&self, values: &[u64], at: usize, less: usize, zeros: &mut [usize])
        requires at { at < length values.now }
        requires room { length zeros.old ≡ 16 }
        requires claimed { AreZerosAhead self.now less values.now at ((at + 15) / 16 * 16) zeros.old }
        ensures claimed { AreZerosAhead self.now less values.now at ((at + 16) / 16 * 16) zeros.new }
        ensures room { length zeros.new ≡ 16 }
    {
        if at % SELECTIONS_SIDE_BY_SIDE != 0 {
            return;
        }
        let count = (values.len() - at).min(SELECTIONS_SIDE_BY_SIDE);
        self.select_zeros(&values[at..at + count], less, &mut zeros[0..count]);
    }

    /// Selects the 0 bits after the buckets as `zeros_ahead` does; selects none where numbers have no low bits.
    #[inline(always)]
    pub(crate) fn ends_ahead(&self, values: &[u64], at: usize, ends: &mut [usize])
        requires at { at < length values.now }
        requires room { length ends.old ≡ 16 }
        requires claimed { 0 < self.now.width
            → AreZerosAhead self.now 0 values.now at ((at + 15) / 16 * 16) ends.old }
        ensures claimed { 0 < self.now.width
            → AreZerosAhead self.now 0 values.now at ((at + 16) / 16 * 16) ends.new }
        ensures room { length ends.new ≡ 16 }
    {
        if self.width > 0 {
            self.zeros_ahead(values, at, 0, ends);
        }
    }

    /// Selects the 0 bit before the bucket of each value where `less` is 1, and the 0 bit after it where `less` is 0.
    fn select_zeros(&self, values: &[u64], less: usize, zeros: &mut [usize])
        requires few { length values.now ≤ 16 }
        requires room { length zeros.old ≡ length values.now }
        ensures claimed { (j : ℕ) → j < length values.now
            → IsZeroCode self.now less (slice_index values.now j) (slice_index zeros.new j) }
        ensures room { length zeros.new ≡ length values.now }
    {
        let mut ranks = [0; SELECTIONS_SIDE_BY_SIDE];
        rank_each(values, self.width, less, &mut ranks);
        self.upper.select_list::<0>(&ranks[0..values.len()], zeros);
    }

    /// Number `index`, from the code `one` of the position of its 1 bit.
    #[inline(always)]
    pub(crate) fn item_by_code(&self, index: usize, one: usize) -> Answer<u64>
        requires { IsSelectCode true self.now.upper index one }
        ensures inside { IsOfIndex self.now.len index result }
        ensures answer { (xs : List ℕ) → Holds xs self.now → IsItem xs index result }
    {
        item_of(&mut self.low_digits(), self.len, index, one)
    }

    /// The successor of `v`, from the codes of the 0 bits at the ends of its bucket.
    #[inline(always)]
    pub(crate) fn index_by_codes(&self, v: u64, begin: usize, end: usize) -> Answer<usize>
        requires { AreEndCodes self.now v begin end }
        ensures inside { IsIndexIn self.now.len result }
        ensures claimed { IfIndex self.now.len result (ClaimsLess self.now v) }
        ensures answer { (xs : List ℕ) → Holds xs self.now → IsSuccessorOf xs v result }
    {
        index_of(&mut self.low_digits(), self.len, v, begin, end)
    }

    /// Number `i` where the parts form a sequence. Whatever they hold, the answer is `Absent` exactly where there is no
    /// such number.
    ///
    /// # Cost
    /// The cost of `hinted_item_on`: one selection, and the low bits of at most one number.
    #[inline(always)]
    pub fn get(&self, i: usize) -> Answer<u64>
        ensures inside { IsOfIndex self.now.len i result }
        ensures answer { (xs : List ℕ) → Holds xs self.now → IsItem xs i result }
    {
        let (source, low) = (&mut self.upper.probe(), &mut self.low_digits());
        hinted_item_on(source, self.hints, low, self.len, i)
    }

    /// The successor of `v`: the least index whose number is at least `v`, and `Absent` exactly where each number is
    /// less, where the parts form a sequence. Whatever they hold, the answer is `Wrong`, or the parts claim that all
    /// numbers before the index are less than `v`, or all numbers for `Absent`.
    ///
    /// # Cost
    /// The cost of `hinted_first_at_least_on`.
    #[inline]
    pub fn first_at_least(&self, v: u64) -> Answer<usize>
        ensures inside { IsIndexIn self.now.len result }
        ensures claimed { IfIndex self.now.len result (ClaimsLess self.now v) }
        ensures answer { (xs : List ℕ) → Holds xs self.now → IsSuccessorOf xs v result }
    {
        let (source, low) = (&mut self.upper.probe(), &mut self.low_digits());
        hinted_first_at_least_on(source, self.hints, low, self.len, v)
    }
}

impl<'a> Items for SequenceView<'a> {
    ghost len = { λ s. s.len };

    ghost holds = { λ xs s. Holds xs s };

    #[inline(always)]
    fn count(&self) -> usize {
        self.len()
    }

    #[inline(always)]
    fn item(&self, i: usize) -> Answer<u64> {
        self.get(i)
    }

    #[inline(always)]
    fn successor(&self, v: u64) -> Answer<usize> {
        self.first_at_least(v)
    }

    #[inline(always)]
    fn has(&self, v: u64) -> Option<bool> {
        self.contains(v)
    }
}
