//! The calls of borrowed slices: each is one call of `words`.

use crate::access::BitAccess;
use crate::access_mut::BitAccessMut;
use bit_words::{BitIterator, BitOnesIterator, BitZerosIterator, words};
use std::ops::Range;

impl BitAccess for &[u64] {
    ghost words = { λ s. s.now };

    #[inline(always)]
    fn get_bit(&self, position: usize) -> bool {
        words::get_bit(*self, position)
    }

    #[inline(always)]
    fn try_get_bit(&self, position: usize) -> Option<bool> {
        words::try_get_bit(*self, position)
    }

    #[inline(always)]
    fn get_successive_bit(&self, position: &mut usize) -> bool {
        words::get_successive_bit(*self, position)
    }

    #[inline(always)]
    fn get_bits_unmasked(&self, begin: usize, len: u8) -> u64 {
        words::get_bits_unmasked(*self, begin, len)
    }

    #[inline(always)]
    fn get_bits(&self, begin: usize, len: u8) -> u64 {
        words::get_bits(*self, begin, len)
    }

    #[inline(always)]
    fn try_get_bits_unmasked(&self, begin: usize, len: u8) -> Option<u64> {
        words::try_get_bits_unmasked(*self, begin, len)
    }

    #[inline(always)]
    fn try_get_bits(&self, begin: usize, len: u8) -> Option<u64> {
        words::try_get_bits(*self, begin, len)
    }

    #[inline(always)]
    fn get_successive_bits(&self, begin: &mut usize, len: u8) -> u64 {
        words::get_successive_bits(*self, begin, len)
    }

    #[inline(always)]
    fn get_fragment_unmasked(&self, index: usize, s: u8) -> u64 {
        words::get_fragment_unmasked(*self, index, s)
    }

    #[inline(always)]
    fn get_fragment(&self, index: usize, s: u8) -> u64 {
        words::get_fragment(*self, index, s)
    }

    #[inline(always)]
    fn try_get_fragment_unmasked(&self, index: usize, s: u8) -> Option<u64> {
        words::try_get_fragment_unmasked(*self, index, s)
    }

    #[inline(always)]
    fn try_get_fragment(&self, index: usize, s: u8) -> Option<u64> {
        words::try_get_fragment(*self, index, s)
    }

    #[inline(always)]
    fn get_successive_fragment(&self, index: &mut usize, s: u8) -> u64 {
        words::get_successive_fragment(*self, index, s)
    }

    #[inline]
    fn count_bit_ones(&self) -> usize {
        words::count_bit_ones(*self)
    }

    #[inline]
    fn count_bit_zeros(&self) -> usize {
        words::count_bit_zeros(*self)
    }

    #[inline(always)]
    fn bit_ones(&self) -> BitOnesIterator<'_> {
        BitOnesIterator::new(*self)
    }

    #[inline(always)]
    fn bit_zeros(&self) -> BitZerosIterator<'_> {
        BitZerosIterator::new(*self)
    }

    #[inline(always)]
    fn bit_iter(&self) -> BitIterator<'_> {
        BitIterator::new(*self)
    }

    #[inline(always)]
    fn bit_in_range_iter(&self, range: Range<usize>) -> BitIterator<'_> {
        BitIterator::with_range(*self, range)
    }

    #[inline]
    fn trailing_zero_bits(&self) -> usize {
        words::trailing_zero_bits(*self)
    }

    #[inline]
    fn find_bit_one(&self, start: usize) -> Option<usize> {
        words::find_bit_one(*self, start)
    }

    #[inline]
    fn find_bit_one_unchecked(&self, start: usize) -> usize {
        words::find_bit_one_unchecked(*self, start)
    }

    #[inline]
    fn rfind_bit_one_unchecked(&self, start: usize) -> usize {
        words::rfind_bit_one_unchecked(*self, start)
    }
}

impl BitAccess for &mut [u64] {
    ghost words = { λ s. s.now };

    #[inline(always)]
    fn get_bit(&self, position: usize) -> bool {
        words::get_bit(&**self, position)
    }

    #[inline(always)]
    fn try_get_bit(&self, position: usize) -> Option<bool> {
        words::try_get_bit(&**self, position)
    }

    #[inline(always)]
    fn get_successive_bit(&self, position: &mut usize) -> bool {
        words::get_successive_bit(&**self, position)
    }

    #[inline(always)]
    fn get_bits_unmasked(&self, begin: usize, len: u8) -> u64 {
        words::get_bits_unmasked(&**self, begin, len)
    }

    #[inline(always)]
    fn get_bits(&self, begin: usize, len: u8) -> u64 {
        words::get_bits(&**self, begin, len)
    }

    #[inline(always)]
    fn try_get_bits_unmasked(&self, begin: usize, len: u8) -> Option<u64> {
        words::try_get_bits_unmasked(&**self, begin, len)
    }

    #[inline(always)]
    fn try_get_bits(&self, begin: usize, len: u8) -> Option<u64> {
        words::try_get_bits(&**self, begin, len)
    }

    #[inline(always)]
    fn get_successive_bits(&self, begin: &mut usize, len: u8) -> u64 {
        words::get_successive_bits(&**self, begin, len)
    }

    #[inline(always)]
    fn get_fragment_unmasked(&self, index: usize, s: u8) -> u64 {
        words::get_fragment_unmasked(&**self, index, s)
    }

    #[inline(always)]
    fn get_fragment(&self, index: usize, s: u8) -> u64 {
        words::get_fragment(&**self, index, s)
    }

    #[inline(always)]
    fn try_get_fragment_unmasked(&self, index: usize, s: u8) -> Option<u64> {
        words::try_get_fragment_unmasked(&**self, index, s)
    }

    #[inline(always)]
    fn try_get_fragment(&self, index: usize, s: u8) -> Option<u64> {
        words::try_get_fragment(&**self, index, s)
    }

    #[inline(always)]
    fn get_successive_fragment(&self, index: &mut usize, s: u8) -> u64 {
        words::get_successive_fragment(&**self, index, s)
    }

    #[inline]
    fn count_bit_ones(&self) -> usize {
        words::count_bit_ones(&**self)
    }

    #[inline]
    fn count_bit_zeros(&self) -> usize {
        words::count_bit_zeros(&**self)
    }

    #[inline(always)]
    fn bit_ones(&self) -> BitOnesIterator<'_> {
        BitOnesIterator::new(&**self)
    }

    #[inline(always)]
    fn bit_zeros(&self) -> BitZerosIterator<'_> {
        BitZerosIterator::new(&**self)
    }

    #[inline(always)]
    fn bit_iter(&self) -> BitIterator<'_> {
        BitIterator::new(&**self)
    }

    #[inline(always)]
    fn bit_in_range_iter(&self, range: Range<usize>) -> BitIterator<'_> {
        BitIterator::with_range(&**self, range)
    }

    #[inline]
    fn trailing_zero_bits(&self) -> usize {
        words::trailing_zero_bits(&**self)
    }

    #[inline]
    fn find_bit_one(&self, start: usize) -> Option<usize> {
        words::find_bit_one(&**self, start)
    }

    #[inline]
    fn find_bit_one_unchecked(&self, start: usize) -> usize {
        words::find_bit_one_unchecked(&**self, start)
    }

    #[inline]
    fn rfind_bit_one_unchecked(&self, start: usize) -> usize {
        words::rfind_bit_one_unchecked(&**self, start)
    }
}

impl BitAccessMut for &mut [u64] {
    ghost lender = { λ s. s.ghost_name };

    #[inline(always)]
    fn set_bit_to(&mut self, position: usize, value: bool) {
        words::set_bit_to(&mut **self, position, value);
    }

    #[inline(always)]
    fn set_bit(&mut self, position: usize) {
        words::set_bit(&mut **self, position);
    }

    #[inline(always)]
    fn clear_bit(&mut self, position: usize) {
        words::clear_bit(&mut **self, position);
    }

    #[inline(always)]
    fn init_bit(&mut self, position: usize, value: bool) {
        words::init_bit(&mut **self, position, value);
    }

    #[inline(always)]
    fn set_successive_bit_to(&mut self, position: &mut usize, value: bool) {
        words::set_successive_bit_to(&mut **self, position, value);
    }

    #[inline(always)]
    fn init_successive_bit(&mut self, position: &mut usize, value: bool) {
        words::init_successive_bit(&mut **self, position, value);
    }

    #[inline(always)]
    fn set_bits(&mut self, begin: usize, v: u64, len: u8) {
        words::set_bits(&mut **self, begin, v, len);
    }

    #[inline(always)]
    fn init_bits(&mut self, begin: usize, v: u64, len: u8) {
        words::init_bits(&mut **self, begin, v, len);
    }

    #[inline(always)]
    fn xor_bits(&mut self, begin: usize, v: u64, len: u8) {
        words::xor_bits(&mut **self, begin, v, len);
    }

    #[inline(always)]
    fn set_successive_bits(&mut self, begin: &mut usize, v: u64, len: u8) {
        words::set_successive_bits(&mut **self, begin, v, len);
    }

    #[inline(always)]
    fn init_successive_bits(&mut self, begin: &mut usize, v: u64, len: u8) {
        words::init_successive_bits(&mut **self, begin, v, len);
    }

    #[inline(always)]
    fn xor_successive_bits(&mut self, begin: &mut usize, v: u64, len: u8) {
        words::xor_successive_bits(&mut **self, begin, v, len);
    }

    #[inline(always)]
    fn set_fragment(&mut self, index: usize, v: u64, s: u8) {
        words::set_fragment(&mut **self, index, v, s);
    }

    #[inline(always)]
    fn init_fragment(&mut self, index: usize, v: u64, s: u8) {
        words::init_fragment(&mut **self, index, v, s);
    }

    #[inline(always)]
    fn xor_fragment(&mut self, index: usize, v: u64, s: u8) {
        words::xor_fragment(&mut **self, index, v, s);
    }

    #[inline(always)]
    fn set_successive_fragment(&mut self, index: &mut usize, v: u64, s: u8) {
        words::set_successive_fragment(&mut **self, index, v, s);
    }

    #[inline(always)]
    fn init_successive_fragment(&mut self, index: &mut usize, v: u64, s: u8) {
        words::init_successive_fragment(&mut **self, index, v, s);
    }

    #[inline(always)]
    fn xor_successive_fragment(&mut self, index: &mut usize, v: u64, s: u8) {
        words::xor_successive_fragment(&mut **self, index, v, s);
    }

    #[inline(always)]
    fn swap_fragments(&mut self, i: usize, j: usize, s: u8) {
        words::swap_fragments(&mut **self, i, j, s);
    }

    #[inline(always)]
    fn conditionally_change_bits<F: FnOnce(u64) -> Option<u64>>(
        &mut self,
        new_value: F,
        begin: usize,
        s: u8,
    ) -> u64 {
        words::conditionally_change_bits(&mut **self, new_value, begin, s)
    }

    #[inline(always)]
    fn conditionally_change_fragment<F: FnOnce(u64) -> Option<u64>>(
        &mut self,
        new_value: F,
        index: usize,
        s: u8,
    ) -> u64 {
        words::conditionally_change_fragment(&mut **self, new_value, index, s)
    }

    #[inline(always)]
    fn conditionally_copy_bits<F: FnOnce(u64, u64) -> bool>(
        &mut self,
        src: &[u64],
        predicate: F,
        begin: usize,
        s: u8,
    ) {
        words::conditionally_copy_bits(&mut **self, src, predicate, begin, s);
    }

    #[inline(always)]
    fn conditionally_copy_fragment<F: FnOnce(u64, u64) -> bool>(
        &mut self,
        src: &[u64],
        predicate: F,
        index: usize,
        s: u8,
    ) {
        words::conditionally_copy_fragment(&mut **self, src, predicate, index, s);
    }
}
