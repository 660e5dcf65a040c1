//! The type of a sequence.
ghost use Rattle.std.specs.Prelude.{◌≡◌, ◌+◌, ◌*◌, ◌^◌, ◌<◌, ◌≤◌, ◌↔◌, IsErrOf, SomeIff};
ghost use Rattle.std.specs.Prelude.{length, slice_index, drop, IfOk};
ghost use Rattle.std.specs.Box.{boxed_slice_items};
ghost use Rattle.std.specs.Int.{div_ceil};
ghost use Rattle.bit_lists.specs.Bits.{bits_of, IsShort};
ghost use Rattle.bitm_bits.specs.Size.{saturated_size};
ghost use Rattle.bitm_tables.specs.Reads.{none_read};
ghost use Rattle.bitm_tables.specs.Tables.{bits_in, HasSizes, HasTables};
ghost use Rattle.elias_fano.specs.SequenceParts.{parts_with, HasLengths, Holds};
ghost use Rattle.elias_fano.specs.Numbers.{HasBefore};
ghost use Rattle.elias_fano.specs.Parts.{width_of, low_words_of, upper_words_of, IsLow, IsUpper};
ghost use Rattle.elias_fano.specs.Sequence.{IsSequence, HasFall};

use crate::checking::check;
use crate::error::EfError;
use crate::finds::ByIndex;
use crate::items::Items;
use crate::iterating::Numbers;
use crate::low::LowDigits;
use crate::making::{make_low, make_upper, width_for};
use bitm::{RankSelect101111, Select, index_laws};
use bitm_bits::{CloneWords, GetSize};
use bitm_strategies::{
    AdaptiveCombinedSamplingDensity, BinaryRankSearch, CombinedSampling, Select0ForRank101111,
    SelectForRank101111,
};
use bitm_tables::answer::Answer;
use bitm_tables::source::Probe;
use std::alloc::{AllocError, Global};
use std::boxed::BoxedSlice;
use std::convert::AsSlice;
use std::marker::Model;

/// The index over the words of the high bits.
pub(crate) type Upper<S, S0> = RankSelect101111<S, S0, BoxedSlice<u64, Global>>;

/// A monotone integer sequence (Elias-Fano): numbers, each at least the one before it.
///
/// The `l` lowest bits of the numbers lie side by side in the low words, the bits of number `i` as fragment `i`. The
/// rest of number `i`, `x >> l`, is how many 0 bits stand before its 1 bit in the upper words, so that bit is at `(x >>
/// l) + i`. With `n` numbers and `u` the largest, `l` is the number of binary digits of `u / n` less one, 0 where there
/// is none; the upper vector has `n + (u >> l) + 1` bits, fewer than `3 n + 2`. Both have as few words as hold them,
/// and all other bits are 0. So a sequence takes at most `n * (l + 3) + 126` bits and the index over the upper vector.
///
/// For 2, 3, 5, 7, 11, 13, 24 the width `l` is 1, since 24 / 7 is 3, and there are 7 + 12 + 1 = 20 upper bits:
///
/// ```text
/// number         2  3  5  7 11 13 24
/// its low bit    0  1  1  1  1  1  0        the low vector
/// the rest       1  1  2  3  5  6 12
///
/// position       0  1  2  3  4  5  6  7  8  9 10 11 12 13 14 15 16 17 18 19
/// upper bit      0  1  1  0  1  0  1  0  0  1  0  1  0  0  0  0  0  0  1  0
/// number            2  3     5     7       11    13                   24
/// ```
///
/// Number 4 is at the 1 bit with four 1 bits before it, position 9: 9 - 4 = 5 of the bits before it are 0, its low bit
/// is 1, and 5 * 2 + 1 = 11. The first number that is at least 8 has a rest of at least 8 >> 1 = 4. The 0 bit with
/// three 0 bits before it is at 7, so 7 - 3 = 4 numbers have a rest of at most 3; the next 0 bit is at 8, and 8 - 4 = 4
/// have one of at most 4. So no number has the rest 4, and the first one with more, number 4, is the answer.
/// `specs/Parts.antt` has the definitions.
///
/// # Source
/// Elias, 'Efficient storage and retrieval by content and address of static files' (1974), and Fano, 'On the number of
/// bits required to implement an associative memory' (1971); as an index of lists: Vigna, 'Quasi-succinct indices'
/// (WSDM 2013).
#[derive(Drop)]
pub struct Sequence<S: SelectForRank101111, S0: Select0ForRank101111> {
    len: usize,
    width: u8,
    low: BoxedSlice<u64, Global>,
    upper: Upper<S, S0>,
}

impl<S: SelectForRank101111, S0: Select0ForRank101111> Model for Sequence<S, S0> {
    ghost use Rattle.std.specs.Box.{boxed_slice_items};
    ghost use Rattle.elias_fano.specs.Parts.{items_of, ArePartsOf};
    ghost use Rattle.elias_fano.specs.Value.{SequenceValue};

    ghost Value = { SequenceValue S S0 };

    ghost view = { λ e. record {
      items = items_of e.len e.width (boxed_slice_items e.low) (boxed_slice_items e.upper.content);
      select = e.upper.select;
      select0 = e.upper.select0;
    } };

    ghost invariant = { λ e. let low = boxed_slice_items e.low in
        let upper = boxed_slice_items e.upper.content in
        ArePartsOf (items_of e.len e.width low upper) e.len e.width low upper };
}

impl<S: SelectForRank101111, S0: Select0ForRank101111> Sequence<S, S0> {
    /// A sequence of the numbers, which are not changed.
    ///
    /// # Errors
    /// `TooLong` exactly where there are 2^56 numbers or more; else `NotSorted` exactly where some number is less than
    /// the one before it; else `OutOfMemory` if memory was refused. Nothing stays allocated then.
    /// # Cost
    /// One pass over the numbers for each of the two vectors, and one over the upper vector for its index.
    pub fn build(alloc: Global, items: &[u64]) -> Result<Self, EfError>
        ensures ok { IfOk result (λ made. made.items ≡ items.now) }
        ensures too_long { IsErrOf result EfError.TooLong ↔ (2 ^ 56 ≤ length items.now) }
        ensures not_sorted { IsErrOf result EfError.NotSorted
            ↔ ((length items.now < 2 ^ 56) × HasFall items.now) }
        ensures size { IfOk result (λ made. let xs = made.items in let l = width_of xs in
            64 * (low_words_of xs l + upper_words_of xs l) ≤ length xs * (l + 3) + 126) }
    {
        check(items)?;
        let width = width_for(items);
        let low = make_low(alloc, items, width)?;
        let upper = make_upper(alloc, items, width)?;
        match RankSelect101111::build(alloc, upper) {
            Ok((upper, _)) => Ok(Sequence {
                len: items.len(),
                width,
                low,
                upper,
            }),
            Err(_) => Err(EfError::OutOfMemory),
        }
    }

    /// How many numbers there are: fewer than 2^56.
    #[inline(always)]
    pub fn len(&self) -> usize
        ensures count { result ≡ length self.now.items }
        ensures short { result < 2 ^ 56 }
    {
        self.len
    }

    /// The numbers never decrease; there are fewer than 2^56 of them, each below 2^64.
    #[inline(always)]
    pub(crate) fn rise(&self)
        ensures { IsSequence self.now.items }
    {
        let _ = &self.len; // a field that is read makes the invariant known to the proof
    }

    /// Number `i`.
    ///
    /// # Conditions
    /// There is such a number.
    /// # Cost
    /// One selection in the upper vector, and at most one fragment of the low one, as `item_at_one` says.
    #[inline(always)]
    pub fn get(&self, i: usize) -> u64
        requires { i < length self.now.items }
        ensures { result ≡ slice_index self.now.items i }
    {
        match self.item(i) {
            Answer::Found(item) => item,
            Answer::Absent | Answer::Wrong => unreachable!(),
        }
    }

    /// Number `i`; `None` exactly where there is none.
    #[inline(always)]
    pub fn try_get(&self, i: usize) -> Option<u64>
        ensures { SomeIff result (i < length self.now.items) (slice_index self.now.items i) }
    {
        if i < self.len {
            Some(self.get(i))
        } else {
            None
        }
    }

    /// The low bits of each number, one number after another, and 0 bits after them.
    #[inline(always)]
    pub fn low_words(&self) -> &[u64]
        ensures { IsLow self.now.items (width_of self.now.items) result.now }
    {
        self.low.as_slice()
    }

    /// A 1 bit for each number, after as many 0 bits in all as the number says without its low bits.
    #[inline(always)]
    pub fn upper_words(&self) -> &[u64]
        ensures { IsUpper self.now.items (width_of self.now.items) result.now }
    {
        self.upper.as_slice()
    }

    /// The low bits of each number, with no reads counted yet.
    #[inline(always)]
    pub fn low_digits(&self) -> LowDigits<'_>
        ensures words { IsLow self.now.items (width_of self.now.items) result.words }
        ensures width { result.width ≡ width_of self.now.items }
        ensures read { result.read ≡ 0 }
    {
        LowDigits::new(self.low_words(), self.low_width())
    }

    /// A source over the upper words and the tables of their index, with no reads counted yet.
    #[inline(always)]
    pub fn probe(&self) -> Probe<'_>
        ensures words { IsUpper self.now.items (width_of self.now.items) result.lists.words }
        ensures tables { HasTables result.lists }
        ensures short { IsShort result.lists.words }
        ensures reads { result.reads ≡ none_read }
    {
        self.upper.probe()
    }

    /// How many low bits each number has, 0 to 63.
    #[inline(always)]
    pub fn low_width(&self) -> u8
        ensures { result ≡ width_of self.now.items }
    {
        self.width
    }

    /// The numbers, from the first on and from the last back.
    ///
    /// # Cost
    /// One upper word is read before the first call of `next` or `next_back`. All numbers together are one pass over
    /// the upper words and one over the low words, and no selection.
    #[inline]
    pub fn iter(&self) -> Numbers<'_>
        ensures { result ≡ self.now.items }
    {
        self.numbers(0, 0)
    }

    /// The numbers from index `index` on.
    ///
    /// # Conditions
    /// There is a number at that index, or it is the number of all.
    /// # Cost
    /// One selection, and none where no number is left; then as `iter`.
    #[inline]
    pub fn iter_from(&self, index: usize) -> Numbers<'_>
        requires { index ≤ length self.now.items }
        ensures { result ≡ drop index self.now.items }
    {
        self.numbers(index, self.first_bit(index))
    }

    /// The numbers from index `index` on, where as many 1 bits stand before bit `first` of the upper words.
    #[inline(always)]
    fn numbers(&self, index: usize, first: usize) -> Numbers<'_>
        requires order { index ≤ length self.now.items }
        requires first { HasBefore self.now.items index first }
        ensures { result ≡ drop index self.now.items }
    {
        let (low, upper) = (self.low_words(), self.upper_words());
        Numbers::new(low, upper, self.width, self.len, index, first)
    }

    /// A bit of the upper words before which the 1 bits of the numbers before `index` stand, and no others.
    #[inline(always)]
    fn first_bit(&self, index: usize) -> usize
        requires { index ≤ length self.now.items }
        ensures { HasBefore self.now.items index result }
    {
        if index < self.len {
            self.upper.select(index)
        } else {
            self.upper_words().len() * 64
        }
    }

    /// A source over the upper words and the tables of their index, the low bits, and the way to find bits of the upper
    /// words: what a query takes.
    #[inline(always)]
    pub(crate) fn parts(&self) -> (Probe<'_>, LowDigits<'_>, ByIndex<'_, Upper<S, S0>>)
        ensures holds { Holds self.now.items
            (parts_with (length self.now.items) result.1 result.0.lists) }
        ensures lengths { HasLengths (parts_with (length self.now.items) result.1 result.0.lists) }
        ensures sized { HasSizes result.0.lists }
        ensures finds { bits_of (boxed_slice_items result.2.index.now.content)
            ≡ bits_in result.0.lists }
    {
        self.rise();
        index_laws::tables_have_sizes();
        let index = &self.upper;
        (index.probe(), self.low_digits(), ByIndex { index })
    }

    /// A copy of the sequence.
    ///
    /// # Errors
    /// `AllocError` if memory was refused; this value is as it was.
    pub fn try_clone(&self, alloc: Global) -> Result<Self, AllocError>
        ensures { IfOk result (λ copy. copy.items ≡ self.now.items) }
    {
        let low = self.low.try_same(alloc)?;
        let upper = self.upper.try_clone(alloc)?;
        Ok(Sequence {
            len: self.len,
            width: self.width,
            low,
            upper,
        })
    }
}

impl<S: SelectForRank101111 + GetSize, S0: Select0ForRank101111 + GetSize> GetSize
    for Sequence<S, S0> {
    // both vectors, eight bytes for each upper block and each lower block of the words of the high bits, and the
    // strategies
    ghost dyn_bytes = { λ e. let l = width_of e.items in let words = upper_words_of e.items l in
        saturated_size (8 * low_words_of e.items l + 8 * words + 8 * div_ceil words (2 ^ 26)
        + 8 * div_ceil words 32 + S.dyn_bytes e.select + S0.dyn_bytes e.select0) };

    const USES_DYN_MEM: bool = true;

    fn size_bytes_dyn(&self) -> usize {
        self.low
            .size_bytes_dyn()
            .saturating_add(self.upper.size_bytes_dyn())
    }
}

/// Samples of the upper vector: one for each 2^13 1 bits or 0 bits, or fewer where there are fewer of these.
type Sampled = CombinedSampling<AdaptiveCombinedSamplingDensity<13>>;

/// A sequence that selects by samples, the fastest: what to take unless the reads of binary search are wanted.
pub type EliasFano = Sequence<Sampled, Sampled>;

/// A sequence that selects by binary search, with nothing kept beside the two vectors and the index.
pub type BinaryEliasFano = Sequence<BinaryRankSearch, BinaryRankSearch>;
