//! The positions of the 1 bits, and of the 0 bits, as iterators.
ghost use Rattle.std.specs.Prelude.{◌≡◌, ℕ, ◌+◌, ◌*◌, ◌^◌, ◌<◌, List, drop, length, Some, IfSome};
ghost use Rattle.std.specs.Iterator.{YieldsFirst, item_count, UpTo, at_most};
ghost use Rattle.std.specs.Iterator.SizeHint.{IsWithinCount};
ghost use Rattle.bit_lists.specs.Bits.{bits_of, IsShort};
ghost use Rattle.bit_lists.specs.Coming.{coming, word_of_kind};
ghost use Rattle.bit_lists.specs.Count.{count_before, bit_positions, as_bit};

use crate::masks::n_lowest_bits;
use broadword::{count_bit_ones, count_bit_zeros};
use std::iter::{ExactSizeIterator, FusedIterator, Iterator};
use std::marker::Model;

/// The positions of the 0 bits where `BIT` is 0, and otherwise of the 1 bits, rising, seen as the list of positions
/// still to come.
#[derive(Drop)]
pub struct BitBIterator<'a, const BIT: u8> {
    // The words after the current one.
    rest: &'a [u64],
    // The position of the first bit of the current word.
    first: usize,
    // What is left of the current word, with ones for the bits of this kind.
    current: u64,
}

/// The positions of the 1 bits.
pub type BitOnesIterator<'a> = BitBIterator<'a, 1>;

/// The positions of the 0 bits.
pub type BitZerosIterator<'a> = BitBIterator<'a, 0>;

impl<'a, const BIT: u8> Model for BitBIterator<'a, BIT> {
    ghost Value = { List ℕ };

    ghost view = { λ it. coming BIT it.first it.current it.rest.now };

    ghost invariant = { λ it. it.first + 64 * length it.rest.now + 64 < 2 ^ 64 };
}

// The word with ones for the bits of this kind.
#[inline(always)]
fn word_of<const BIT: u8>(word: u64) -> u64
    ensures { result ≡ word_of_kind BIT word }
{
    if BIT == 0 { !word } else { word }
}

impl<'a, const BIT: u8> BitBIterator<'a, BIT> {
    /// All positions of this kind of bit; none where there are no words.
    ///
    /// # Conditions
    /// There are fewer than 2^58 words.
    #[inline]
    pub fn new(words: &'a [u64]) -> Self
        requires { IsShort words.now }
        ensures { result ≡ bit_positions (as_bit BIT) 0 (bits_of words.now) }
    {
        match words.split_first() {
            Some((word, rest)) => BitBIterator {
                rest,
                first: 0,
                current: word_of::<BIT>(*word),
            },
            // Without a word there is no position, of zeros neither.
            None => BitBIterator {
                rest: words,
                first: 0,
                current: 0,
            },
        }
    }

    /// The positions of this kind of bit from `start` on: all but the positions before it; none where `start` is
    /// outside.
    ///
    /// # Conditions
    /// There are fewer than 2^58 words.
    /// # Cost
    /// One word is read; nothing before it is.
    #[inline]
    pub fn from_position(words: &'a [u64], start: usize) -> Self
        requires { IsShort words.now }
        ensures { let bits = bits_of words.now in
            result ≡ drop (count_before bits (as_bit BIT) start) (bit_positions (as_bit BIT) 0 bits) }
    {
        let index = start / 64;
        if index >= words.len() {
            return BitBIterator {
                rest: &words[words.len()..],
                first: 0,
                current: 0,
            };
        }
        BitBIterator {
            rest: &words[index + 1..],
            first: index * 64,
            current: word_of::<BIT>(words[index]) & !n_lowest_bits((start % 64) as u8),
        }
    }
}

impl<'a, const BIT: u8> Iterator for BitBIterator<'a, BIT> {
    type Item = usize;

    ghost next_gives = { YieldsFirst (λ coming. coming) };

    ghost remaining = { item_count (λ coming. coming) };

    #[inline]
    fn next(&mut self) -> Option<usize> {
        while self.current == 0 {
            let (word, rest) = self.rest.split_first()?;
            self.current = word_of::<BIT>(*word);
            self.rest = rest;
            self.first += 64;
        }
        let position = self.current.trailing_zeros();
        self.current &= self.current - 1;
        Some(self.first + position as usize)
    }

    #[inline]
    fn size_hint(&self) -> (usize, Option<usize>)
        ensures lower { IsWithinCount result.0 (at_most (length self.now)) }
        ensures upper { IfSome result.1 (UpTo (at_most (length self.now))) }
        ensures exact { (result.0 ≡ length self.now) × (result.1 ≡ Some (length self.now)) }
    {
        let len = self.len();
        (len, Some(len))
    }
}

impl<'a, const BIT: u8> ExactSizeIterator for BitBIterator<'a, BIT> {
    #[inline]
    fn len(&self) -> usize {
        let rest = if BIT == 0 {
            count_bit_zeros(self.rest)
        } else {
            count_bit_ones(self.rest)
        };
        self.current.count_ones() as usize + rest
    }
}

impl<'a, const BIT: u8> FusedIterator for BitBIterator<'a, BIT> {}
