//! The two vectors of a sequence, each made in one pass over the numbers.
ghost use Rattle.std.specs.Prelude.{◌≡◌, ◌+◌, ◌*◌, ◌/◌, ◌^◌, ◌<◌, ◌≤◌, length, replicate, IfOk};
ghost use Rattle.std.specs.Box.{boxed_slice_items};
ghost use Rattle.std.specs.List.Sorted.{IsNonDecreasing};
ghost use Rattle.elias_fano.specs.Parts.{width_at, width_of, low_words_of, upper_words_of, IsLow, IsUpper};
ghost use Rattle.elias_fano.specs.Sequence.{largest, IsSequence};

use bit_words::{bits_to_store, n_lowest_bits, words};
use bitm_bits::BitVec;
use std::alloc::{AllocError, Global};
use std::boxed::BoxedSlice;

/// The last number, which is the largest where numbers never decrease; 0 where there is none.
pub fn largest_of(items: &[u64]) -> u64
    ensures { result ≡ largest items.now }
{
    match items.last() {
        Some(last) => *last,
        None => 0,
    }
}

/// How many low bits each of `len` numbers has, 0 to 63, where `largest` is the last of them; 0 where there is none.
#[inline]
pub fn low_width(len: usize, largest: u64) -> u8
    ensures width { result ≡ width_at len largest }
    ensures most { result ≤ 63 }
{
    if len == 0 {
        return 0;
    }
    bits_to_store(largest / len as u64).saturating_sub(1)
}

/// How many low bits each number has.
pub(crate) fn width_for(items: &[u64]) -> u8
    ensures { result ≡ width_of items.now }
{
    low_width(items.len(), largest_of(items))
}

/// The low bits of each number, one number after another.
///
/// # Errors
/// `AllocError` if memory was refused.
pub(crate) fn make_low(
    alloc: Global,
    items: &[u64],
    width: u8,
) -> Result<BoxedSlice<u64, Global>, AllocError>
    requires sequence { IsSequence items.now }
    requires width { width ≤ 63 }
    ensures { IfOk result (λ low. IsLow items.now width (boxed_slice_items low)) }
{
    let mut low = BoxedSlice::with_zeroed_bits(alloc, items.len() * width as usize)?;
    write_low(low.as_mut_slice(), items, width);
    Ok(low)
}

/// Writes the low bits of each number, `width` of each, where all bits are 0.
///
/// # Conditions
/// There are fewer than 2^56 numbers and at most 63 low bits; there are as many words as these take, all 0.
#[inline]
pub fn write_low(low: &mut [u64], items: &[u64], width: u8)
    requires width { width ≤ 63 }
    requires short { length items.now < 2 ^ 56 }
    requires clear { low.old ≡ replicate (low_words_of items.now width) 0 }
    ensures { IsLow items.now width low.new }
{
    if width == 0 {
        return;
    }
    let mask = n_lowest_bits(width);
    for i in 0..items.len() {
        words::init_fragment(low, i, items[i] & mask, width);
    }
}

/// A 1 bit for each number, after as many 0 bits as it says without its low bits.
///
/// # Errors
/// `AllocError` if memory was refused.
pub(crate) fn make_upper(
    alloc: Global,
    items: &[u64],
    width: u8,
) -> Result<BoxedSlice<u64, Global>, AllocError>
    requires sequence { IsSequence items.now }
    requires width { width ≡ width_of items.now }
    ensures { IfOk result (λ upper. IsUpper items.now width (boxed_slice_items upper)) }
{
    let len = items.len() + (largest_of(items) >> width) as usize + 1;
    let mut upper = BoxedSlice::with_zeroed_bits(alloc, len)?;
    write_upper(upper.as_mut_slice(), items, width);
    Ok(upper)
}

/// Writes a 1 bit for each number, after as many 0 bits as it says without its `width` low bits, where all bits are 0.
///
/// # Conditions
/// The numbers never decrease, and there are at most 63 low bits; there are as many words as the 1 bits and 0 bits
/// take, fewer than 2^58, all 0.
#[inline]
pub fn write_upper(upper: &mut [u64], items: &[u64], width: u8)
    requires width { width ≤ 63 }
    requires rising { IsNonDecreasing items.now }
    requires short { upper_words_of items.now width < 2 ^ 58 }
    requires clear { upper.old ≡ replicate (upper_words_of items.now width) 0 }
    ensures { IsUpper items.now width upper.new }
{
    for i in 0..items.len() {
        words::set_bit(upper, (items[i] >> width) as usize + i);
    }
}
