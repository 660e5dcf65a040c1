//! Reads of a value that gives out words: the trait `BitAccess`.
ghost use Rattle.std.specs.Prelude.{◌≡◌, ◌+◌, ◌*◌, ◌^◌, ◌<◌, ◌≤◌, ℕ, List, length, SomeIff, true, false};
ghost use Rattle.bit_lists.specs.Bits.{bits_of, item, IsShort};
ghost use Rattle.bit_lists.specs.Coming.{all_bits_left};
ghost use Rattle.bit_lists.specs.Count.{ones_of, zeros_of, bit_positions, HasOneFrom, HasOneTo};
ghost use Rattle.bit_lists.specs.Count.{IsFirstOneFrom, IsFirstOneOrEnd, IsLastOneTo, MatchesFirstOne};
ghost use Rattle.bit_lists.specs.Number.{number_at, IsInRange, IsFragmentInRange};
ghost use Rattle.bit_lists.specs.Window.{reach_of};

use bit_words::{BitIterator, BitOnesIterator, BitZerosIterator};
use std::ops::Range;

/// Reads the bits of the words that a value gives out: of a slice of `u64`, shared or mutable.
///
/// Positions, widths and counts are in bits. A call ending in `_unchecked` is the plain one: both have the same
/// condition, which the checker proves at each call, and neither tests it when it runs. The two finds are apart:
/// `find_bit_one_unchecked` has the condition that there is a 1 bit, and then answers what `find_bit_one` does.
///
/// # Cost
/// A bit, or a range that lies in one word, is read by one word; a range over a border by two. Counts, and `len` of the
/// iterators over positions, read each word that is left; a find reads the words up to its answer. All others read
/// none.
///
/// A range is in range where there is a bit at its begin and none of its bits is past the end: a range of width 0 at
/// the exact end is not. Fragment `index` of width `s` is the range of `s` bits from bit `index * s` on, a product of
/// whole numbers: where it does not fit `usize`, the fragment is not in range.
pub trait BitAccess {
    /// The words.
    ghost words: { Self → List ℕ };

    /// The bit at `position`.
    ///
    /// # Conditions
    /// The position is inside.
    fn get_bit(&self, position: usize) -> bool
        requires { position < 64 * length (words self.now) }
        ensures { result ≡ item (bits_of (words self.now)) position };

    /// The bit at `position`, as `get_bit`.
    ///
    /// # Conditions
    /// The position is inside.
    #[inline(always)]
    fn get_bit_unchecked(&self, position: usize) -> bool
        requires { position < 64 * length (words self.now) }
        ensures { result ≡ item (bits_of (words self.now)) position }
    {
        self.get_bit(position)
    }

    /// The bit at `position`; `None` exactly where that position is outside.
    fn try_get_bit(&self, position: usize) -> Option<bool>
        ensures { SomeIff result (position < 64 * length (words self.now))
            (item (bits_of (words self.now)) position) };

    /// The bit at `position`, which moves on by one.
    ///
    /// # Conditions
    /// The position is inside; there are fewer than 2^58 words.
    fn get_successive_bit(&self, position: &mut usize) -> bool
        requires inside { position.old < 64 * length (words self.now) }
        requires short { IsShort (words self.now) }
        ensures bit { result ≡ item (bits_of (words self.now)) position.old }
        ensures advances { position.new ≡ position.old + 1 };

    /// Does nothing: a caller may name a position that it reads soon, inside or not.
    #[inline(always)]
    fn prefetch_bit(&self, _position: usize) {}

    /// The bits from `begin` to the end of the word, or 64 of them where `len` bits cross that end, as a number, lowest
    /// first.
    ///
    /// # Conditions
    /// The `len` bits from `begin` on are in range; `len` is 0 to 64.
    fn get_bits_unmasked(&self, begin: usize, len: u8) -> u64
        requires in_range { IsInRange (words self.now) begin len }
        requires width { len ≤ 64 }
        ensures { result ≡ number_at (bits_of (words self.now)) begin (reach_of begin len) };

    /// What `get_bits_unmasked` reads.
    ///
    /// # Conditions
    /// The `len` bits from `begin` on are in range; `len` is 0 to 64.
    #[inline(always)]
    fn get_bits_unmasked_unchecked(&self, begin: usize, len: u8) -> u64
        requires in_range { IsInRange (words self.now) begin len }
        requires width { len ≤ 64 }
        ensures { result ≡ number_at (bits_of (words self.now)) begin (reach_of begin len) }
    {
        self.get_bits_unmasked(begin, len)
    }

    /// The `len` bits from `begin` on as a number, lowest first.
    ///
    /// # Conditions
    /// They are in range; `len` is 0 to 63.
    fn get_bits(&self, begin: usize, len: u8) -> u64
        requires in_range { IsInRange (words self.now) begin len }
        requires width { len ≤ 63 }
        ensures value { result ≡ number_at (bits_of (words self.now)) begin len }
        ensures bound { result < 2 ^ len };

    /// The `len` bits from `begin` on as a number, as `get_bits`.
    ///
    /// # Conditions
    /// They are in range; `len` is 0 to 63.
    #[inline(always)]
    fn get_bits_unchecked(&self, begin: usize, len: u8) -> u64
        requires in_range { IsInRange (words self.now) begin len }
        requires width { len ≤ 63 }
        ensures value { result ≡ number_at (bits_of (words self.now)) begin len }
        ensures bound { result < 2 ^ len }
    {
        self.get_bits(begin, len)
    }

    /// What `get_bits_unmasked` reads; `None` exactly where the `len` bits from `begin` on are not in range.
    ///
    /// # Conditions
    /// `len` is 0 to 64.
    fn try_get_bits_unmasked(&self, begin: usize, len: u8) -> Option<u64>
        requires { len ≤ 64 }
        ensures { SomeIff result (IsInRange (words self.now) begin len)
            (number_at (bits_of (words self.now)) begin (reach_of begin len)) };

    /// The `len` bits from `begin` on as a number, lowest first; `None` exactly where they are not in range.
    ///
    /// # Conditions
    /// `len` is 0 to 63.
    fn try_get_bits(&self, begin: usize, len: u8) -> Option<u64>
        requires { len ≤ 63 }
        ensures { SomeIff result (IsInRange (words self.now) begin len)
            (number_at (bits_of (words self.now)) begin len) };

    /// The `len` bits from `begin` on as a number, lowest first; `begin` moves on by `len`.
    ///
    /// # Conditions
    /// They are in range; there are fewer than 2^58 words; `len` is 0 to 63.
    fn get_successive_bits(&self, begin: &mut usize, len: u8) -> u64
        requires in_range { IsInRange (words self.now) begin.old len }
        requires short { IsShort (words self.now) }
        requires width { len ≤ 63 }
        ensures value { result ≡ number_at (bits_of (words self.now)) begin.old len }
        ensures bound { result < 2 ^ len }
        ensures advances { begin.new ≡ begin.old + len };

    /// The bits from the begin of fragment `index` of width `s` to the end of its word, or 64 of them where the
    /// fragment crosses that end, as a number, lowest first.
    ///
    /// # Conditions
    /// The fragment is in range; `s` is 0 to 64.
    fn get_fragment_unmasked(&self, index: usize, s: u8) -> u64
        requires in_range { IsFragmentInRange (words self.now) index s }
        requires width { s ≤ 64 }
        ensures { result
            ≡ number_at (bits_of (words self.now)) (index * s) (reach_of (index * s) s) };

    /// What `get_fragment_unmasked` reads.
    ///
    /// # Conditions
    /// The fragment is in range; `s` is 0 to 64.
    #[inline(always)]
    fn get_fragment_unmasked_unchecked(&self, index: usize, s: u8) -> u64
        requires in_range { IsFragmentInRange (words self.now) index s }
        requires width { s ≤ 64 }
        ensures { result
            ≡ number_at (bits_of (words self.now)) (index * s) (reach_of (index * s) s) }
    {
        self.get_fragment_unmasked(index, s)
    }

    /// Fragment `index` of width `s` as a number, lowest bit first.
    ///
    /// # Conditions
    /// The fragment is in range; `s` is 0 to 63.
    fn get_fragment(&self, index: usize, s: u8) -> u64
        requires in_range { IsFragmentInRange (words self.now) index s }
        requires width { s ≤ 63 }
        ensures value { result ≡ number_at (bits_of (words self.now)) (index * s) s }
        ensures bound { result < 2 ^ s };

    /// Fragment `index` of width `s` as a number, as `get_fragment`.
    ///
    /// # Conditions
    /// The fragment is in range; `s` is 0 to 63.
    #[inline(always)]
    fn get_fragment_unchecked(&self, index: usize, s: u8) -> u64
        requires in_range { IsFragmentInRange (words self.now) index s }
        requires width { s ≤ 63 }
        ensures value { result ≡ number_at (bits_of (words self.now)) (index * s) s }
        ensures bound { result < 2 ^ s }
    {
        self.get_fragment(index, s)
    }

    /// What `get_fragment_unmasked` reads; `None` exactly where the fragment is not in range, or begins past
    /// `usize::MAX`.
    ///
    /// # Conditions
    /// `s` is 0 to 64.
    fn try_get_fragment_unmasked(&self, index: usize, s: u8) -> Option<u64>
        requires { s ≤ 64 }
        ensures { SomeIff result (IsFragmentInRange (words self.now) index s)
            (number_at (bits_of (words self.now)) (index * s) (reach_of (index * s) s)) };

    /// Fragment `index` of width `s` as a number, lowest bit first; `None` exactly where it is not in range, or begins
    /// past `usize::MAX`.
    ///
    /// # Conditions
    /// `s` is 0 to 63.
    fn try_get_fragment(&self, index: usize, s: u8) -> Option<u64>
        requires { s ≤ 63 }
        ensures { SomeIff result (IsFragmentInRange (words self.now) index s)
            (number_at (bits_of (words self.now)) (index * s) s) };

    /// Fragment `index` of width `s` as a number, lowest bit first; `index` moves on by one.
    ///
    /// # Conditions
    /// The fragment is in range; there are fewer than 2^58 words; `index` is below `usize::MAX`; `s` is 0 to 63.
    fn get_successive_fragment(&self, index: &mut usize, s: u8) -> u64
        requires in_range { IsFragmentInRange (words self.now) index.old s }
        requires short { IsShort (words self.now) }
        requires room { index.old < usize.MAX }
        requires width { s ≤ 63 }
        ensures value { result ≡ number_at (bits_of (words self.now)) (index.old * s) s }
        ensures bound { result < 2 ^ s }
        ensures advances { index.new ≡ index.old + 1 };

    /// Does nothing: a caller may name a fragment that it reads soon, in range or not.
    #[inline(always)]
    fn prefetch_fragment(&self, _index: usize, _s: u8) {}

    /// How many bits are 1.
    ///
    /// # Conditions
    /// There are fewer than 2^58 words.
    fn count_bit_ones(&self) -> usize
        requires { IsShort (words self.now) }
        ensures { result ≡ ones_of (bits_of (words self.now)) };

    /// How many bits are 0.
    ///
    /// # Conditions
    /// There are fewer than 2^58 words.
    fn count_bit_zeros(&self) -> usize
        requires { IsShort (words self.now) }
        ensures { result ≡ zeros_of (bits_of (words self.now)) };

    /// The positions of the 1 bits, rising.
    ///
    /// # Conditions
    /// There are fewer than 2^58 words.
    fn bit_ones(&self) -> BitOnesIterator<'_>
        requires { IsShort (words self.now) }
        ensures { result ≡ bit_positions true 0 (bits_of (words self.now)) };

    /// The positions of the 0 bits, rising.
    ///
    /// # Conditions
    /// There are fewer than 2^58 words.
    fn bit_zeros(&self) -> BitZerosIterator<'_>
        requires { IsShort (words self.now) }
        ensures { result ≡ bit_positions false 0 (bits_of (words self.now)) };

    /// All bits, from either end.
    ///
    /// # Conditions
    /// There are fewer than 2^58 words.
    fn bit_iter(&self) -> BitIterator<'_>
        requires { IsShort (words self.now) }
        ensures { result ≡ all_bits_left (words self.now) };

    /// The bits of the range, from either end; none where it is reversed.
    ///
    /// # Conditions
    /// The range ends inside or at the end of the words, which are fewer than 2^58.
    fn bit_in_range_iter(&self, range: Range<usize>) -> BitIterator<'_>
        requires inside { range.end ≤ 64 * length (words self.now) }
        requires short { IsShort (words self.now) }
        ensures { result ≡ record { bit_vec = words self.now; bit_range = range } };

    /// The bits of the range, as `bit_in_range_iter`.
    ///
    /// # Conditions
    /// The range ends inside or at the end of the words, which are fewer than 2^58.
    #[inline(always)]
    fn bit_in_unchecked_range_iter(&self, range: Range<usize>) -> BitIterator<'_>
        requires inside { range.end ≤ 64 * length (words self.now) }
        requires short { IsShort (words self.now) }
        ensures { result ≡ record { bit_vec = words self.now; bit_range = range } }
    {
        self.bit_in_range_iter(range)
    }

    /// How many 0 bits there are before the first 1 bit: its position, or the number of bits if there is no 1 bit.
    ///
    /// # Conditions
    /// There are fewer than 2^58 words.
    fn trailing_zero_bits(&self) -> usize
        requires { IsShort (words self.now) }
        ensures { IsFirstOneOrEnd (bits_of (words self.now)) result };

    /// The position of the first 1 bit at or after `start`; `None` exactly where there is none, also where `start` is
    /// outside.
    ///
    /// # Conditions
    /// There are fewer than 2^58 words.
    fn find_bit_one(&self, start: usize) -> Option<usize>
        requires { IsShort (words self.now) }
        ensures { MatchesFirstOne (bits_of (words self.now)) start result };

    /// The position of the first 1 bit at or after `start`.
    ///
    /// # Conditions
    /// There is a 1 bit at `start` or after it, and there are fewer than 2^58 words.
    fn find_bit_one_unchecked(&self, start: usize) -> usize
        requires exists { HasOneFrom (bits_of (words self.now)) start }
        requires short { IsShort (words self.now) }
        ensures { IsFirstOneFrom (bits_of (words self.now)) start result };

    /// The position of the last 1 bit up to `start`.
    ///
    /// # Conditions
    /// The position `start` is inside, there is a 1 bit at `start` or before it, and there are fewer than 2^58 words.
    fn rfind_bit_one_unchecked(&self, start: usize) -> usize
        requires inside { start < 64 * length (words self.now) }
        requires exists { HasOneTo (bits_of (words self.now)) start }
        requires short { IsShort (words self.now) }
        ensures { IsLastOneTo (bits_of (words self.now)) start result };
}
