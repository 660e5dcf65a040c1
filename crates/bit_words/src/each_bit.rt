//! The bits of a range, as an iterator from either end.
ghost use Rattle.std.specs.Prelude.{◌≡◌, ℕ, ◌*◌, ◌≤◌, length, Some, IfSome, ⊤};
ghost use Rattle.std.specs.Iterator.{MakesProgress, item_count, UpTo, at_most};
ghost use Rattle.std.specs.Iterator.SizeHint.{IsWithinCount};
ghost use Rattle.bit_lists.specs.Bits.{bits_of, IsShort};
ghost use Rattle.bit_lists.specs.Coming.{BitsLeft, GivesFirst, GivesLast, all_bits_left, bits_left};

use crate::reading::get_bit;
use std::iter::{DoubleEndedIterator, ExactSizeIterator, FusedIterator, Iterator};
use std::marker::Model;
use std::ops::Range;

/// The bits of a range of words, each once, from either end, seen as the words and the range that is left.
#[derive(Drop)]
pub struct BitIterator<'bv> {
    words: &'bv [u64],
    range: Range<usize>,
}

impl<'bv> Model for BitIterator<'bv> {
    ghost Value = { BitsLeft };

    ghost view = { λ it. record { bit_vec = it.words.now; bit_range = it.range } };

    ghost invariant = { λ it. (it.range.end ≤ 64 * length it.words.now) × IsShort it.words.now };
}

impl<'bv> BitIterator<'bv> {
    /// All bits of the words.
    ///
    /// # Conditions
    /// There are fewer than 2^58 words.
    #[inline]
    pub fn new(words: &'bv [u64]) -> Self
        requires { IsShort words.now }
        ensures { result ≡ all_bits_left words.now }
    {
        BitIterator {
            words,
            range: 0..words.len() * 64,
        }
    }

    /// The bits of the range; none where it is reversed.
    ///
    /// # Conditions
    /// The range ends inside or at the end of the words, which are fewer than 2^58.
    #[inline]
    pub fn with_range(words: &'bv [u64], range: Range<usize>) -> Self
        requires inside { range.end ≤ 64 * length words.now }
        requires short { IsShort words.now }
        ensures { result ≡ record { bit_vec = words.now; bit_range = range } }
    {
        BitIterator { words, range }
    }

    /// The bits of the range, as `with_range`.
    ///
    /// # Conditions
    /// The range ends inside or at the end of the words, which are fewer than 2^58.
    #[inline(always)]
    pub fn with_range_unchecked(words: &'bv [u64], range: Range<usize>) -> Self
        requires inside { range.end ≤ 64 * length words.now }
        requires short { IsShort words.now }
        ensures { result ≡ record { bit_vec = words.now; bit_range = range } }
    {
        BitIterator::with_range(words, range)
    }

    /// The range that is left.
    #[inline(always)]
    pub fn bit_range(&self) -> &Range<usize>
        ensures { result.now ≡ self.now.bit_range }
    {
        &self.range
    }

    /// The words.
    #[inline(always)]
    pub fn bit_vec(&self) -> &'bv [u64]
        ensures { result.now ≡ self.now.bit_vec }
    {
        self.words
    }
}

impl<'bv> Iterator for BitIterator<'bv> {
    type Item = bool;

    // Which range is left is known in generic code too, also where it was reversed.
    ghost next_gives = { GivesFirst };

    ghost remaining = { item_count bits_left };

    #[inline]
    fn next(&mut self) -> Option<bool>
        ensures steps { GivesFirst self.old result self.new }
        ensures goes { MakesProgress (λ _. ⊤) (item_count bits_left) self.old result self.new }
    {
        let position = self.range.next()?;
        Some(get_bit(self.words, position))
    }

    #[inline]
    fn size_hint(&self) -> (usize, Option<usize>)
        ensures lower { IsWithinCount result.0 (at_most (length (bits_left self.now))) }
        ensures upper { IfSome result.1 (UpTo (at_most (length (bits_left self.now)))) }
        ensures exact { (result.0 ≡ length (bits_left self.now))
            × (result.1 ≡ Some (length (bits_left self.now))) }
    {
        let len = self.len();
        (len, Some(len))
    }
}

impl<'bv> DoubleEndedIterator for BitIterator<'bv> {
    ghost next_back_gives = { GivesLast };

    #[inline]
    fn next_back(&mut self) -> Option<bool>
        ensures steps { GivesLast self.old result self.new }
        ensures goes { MakesProgress (λ _. ⊤) (item_count bits_left) self.old result self.new }
    {
        let position = self.range.next_back()?;
        Some(get_bit(self.words, position))
    }
}

impl<'bv> ExactSizeIterator for BitIterator<'bv> {
    #[inline]
    fn len(&self) -> usize {
        self.range.len()
    }
}

impl<'bv> FusedIterator for BitIterator<'bv> {}
