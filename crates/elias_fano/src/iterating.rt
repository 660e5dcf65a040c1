//! The numbers of a sequence, as an iterator from either end.
ghost use Rattle.std.specs.Prelude.{◌≡◌, ◌≤◌, ℕ, List, length, drop, Some, IfSome};
ghost use Rattle.std.specs.Iterator.{YieldsFirst, YieldsLast, item_count, UpTo, at_most};
ghost use Rattle.std.specs.Iterator.SizeHint.{IsWithinCount};
ghost use Rattle.bit_lists.specs.Bits.{bits_of};
ghost use Rattle.bit_lists.specs.Count.{ones_before};
ghost use Rattle.elias_fano.specs.Parts.{ArePartsOf};

use crate::ahead::{Ahead, look_ahead, numbers_at_once};
use crate::low::LowDigits;
use crate::searching::item_at_one;
use bit_words::{BitOnesIterator, n_lowest_bits, words};
use std::iter::{DoubleEndedIterator, ExactSizeIterator, FusedIterator, Iterator};
use std::marker::Model;

/// The numbers of a sequence that are left, from either end, seen as their list.
#[derive(Drop)]
pub struct Numbers<'a> {
    low: &'a [u64],
    upper: &'a [u64],
    width: u8,
    // How many numbers the sequence has.
    len: usize,
    // The positions of the numbers that are left.
    start: usize,
    end: usize,
    // The positions of the ones from that of number `start` on.
    ones: BitOnesIterator<'a>,
    // The bit of the upper words before which the ones of the numbers that are left stand.
    limit: usize,
    // Of how many numbers the low digits are read at once; 0 where each number's are read alone.
    at_once: usize,
    // Low digits of numbers from `start` on, where they are read at once.
    ahead: Ahead,
}

impl<'a> Model for Numbers<'a> {
    ghost use Rattle.std.specs.Prelude.{List, ℕ};
    ghost use Rattle.elias_fano.specs.Ahead.{ReadsAhead};
    ghost use Rattle.elias_fano.specs.Numbers.{IsCursor, items_left};
    ghost use Rattle.elias_fano.specs.Parts.{items_of};

    ghost Value = { List ℕ };

    ghost view = { λ it. items_left (items_of it.len it.width it.low.now it.upper.now) it.start it.end };

    ghost invariant = { λ it. let low = it.low.now in let upper = it.upper.now in
        IsCursor (items_of it.len it.width low upper) it.len it.width low upper
        it.start it.end it.limit it.ones
        × ReadsAhead low it.width it.at_once it.start it.end it.ahead.until it.ahead.digits };
}

impl<'a> Numbers<'a> {
    /// The numbers from index `start` on, of a sequence of `len` numbers with these parts; as many 1 bits stand before
    /// bit `first` of the upper words.
    #[inline(always)]
    pub(crate) fn new(
        low: &'a [u64],
        upper: &'a [u64],
        width: u8,
        len: usize,
        start: usize,
        first: usize,
    ) -> Self
        requires parts { (xs : List ℕ) × ArePartsOf xs len width low.now upper.now }
        requires order { start ≤ len }
        requires first { ones_before (bits_of upper.now) first ≡ start }
        ensures { (xs : List ℕ) → ArePartsOf xs len width low.now upper.now → result ≡ drop start xs }
    {
        Numbers {
            low,
            upper,
            width,
            len,
            start,
            end: len,
            ones: BitOnesIterator::from_position(upper, first),
            limit: upper.len() * 64,
            at_once: numbers_at_once(width),
            ahead: Ahead::nothing(start),
        }
    }

    // The first number that is left, whose low digits are read alone.
    #[inline]
    fn next_alone(&mut self) -> Option<u64>
        ensures { YieldsFirst (λ left. left) self.old result self.new }
    {
        if self.start >= self.end {
            return None;
        }
        let at = self.start;
        let position = match self.ones.next() {
            Some(position) => position,
            None => unreachable!(),
        };
        self.start = at + 1;
        self.ahead = Ahead::nothing(at + 1);
        Some(item_at_one(position, &mut LowDigits::new(self.low, self.width), at))
    }
}

impl<'a> Iterator for Numbers<'a> {
    type Item = u64;

    ghost next_gives = { YieldsFirst (λ left. left) };

    ghost remaining = { item_count (λ left. left) };

    // Both ways are inlined, so that a loop tests once which of them it goes.
    #[inline(always)]
    fn next(&mut self) -> Option<u64> {
        if self.at_once == 0 {
            return self.next_alone();
        }
        let (at, width) = (self.start, self.width);
        let Some(ahead) = look_ahead(self.low, width, self.at_once, at, self.end, self.ahead) else {
            return None;
        };
        let position = match self.ones.next() {
            Some(position) => position,
            None => unreachable!(),
        };
        let lowest = ahead.digits & n_lowest_bits(width);
        self.start = at + 1;
        self.ahead = Ahead {
            until: ahead.until,
            digits: ahead.digits >> width,
        };
        Some(((position.wrapping_sub(at) as u64) << width).wrapping_add(lowest))
    }

    #[inline]
    fn size_hint(&self) -> (usize, Option<usize>)
        ensures lower { IsWithinCount result.0 (at_most (length self.now)) }
        ensures upper { IfSome result.1 (UpTo (at_most (length self.now))) }
        ensures exact { (result.0 ≡ length self.now) × (result.1 ≡ Some (length self.now)) }
    {
        let len = self.len();
        (len, Some(len))
    }
}

impl<'a> DoubleEndedIterator for Numbers<'a> {
    ghost next_back_gives = { YieldsLast (λ left. left) };

    #[inline]
    fn next_back(&mut self) -> Option<u64> {
        if self.start >= self.end {
            return None;
        }
        let at = self.end - 1;
        let position = words::rfind_bit_one_unchecked(self.upper, self.limit - 1);
        let number = item_at_one(position, &mut LowDigits::new(self.low, self.width), at);
        self.end = at;
        self.limit = position;
        self.ahead.until = self.ahead.until.min(at);
        Some(number)
    }
}

impl<'a> ExactSizeIterator for Numbers<'a> {
    #[inline]
    fn len(&self) -> usize {
        self.end - self.start
    }
}

impl<'a> FusedIterator for Numbers<'a> {}
