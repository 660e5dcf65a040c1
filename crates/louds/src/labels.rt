//! Numbers of one width in bits, side by side.
ghost use Rattle.std.specs.Prelude.{◌≡◌, ◌*◌, ◌^◌, ◌<◌, ◌≤◌, ◌↔◌, All, IfOk, IsTrue, length, slice_index};
ghost use Rattle.std.specs.Box.{boxed_slice_items};
ghost use Rattle.std.specs.Int.{div_ceil};
ghost use Rattle.louds.specs.Labels.{HasLabelRoom, numbers_of};

use crate::probing::RootedProbe;
use bit_words::{n_lowest_bits, words};
use bitm_bits::{BitVec, GetSize};
use std::alloc::{AllocError, Global};
use std::boxed::BoxedSlice;
use std::marker::Model;

/// Numbers of one width in bits, side by side.
#[derive(Drop)]
pub(crate) struct Packed {
    words: BoxedSlice<u64, Global>,
    width: u8,
    len: usize,
}

impl Model for Packed {
    ghost use Rattle.std.specs.Box.{boxed_slice_items};
    ghost use Rattle.louds.specs.Labels.{HasLabelRoom, PackedNumbers, numbers_of};

    ghost Value = { PackedNumbers };

    ghost view = { λ p. record {
      items = numbers_of (boxed_slice_items p.words) p.width p.len;
      width = p.width;
    } };

    ghost invariant = { λ p. HasLabelRoom (boxed_slice_items p.words) p.width p.len };
}

/// Whether no number has more than `width` bits.
///
/// # Conditions
/// `width` is at most 63.
///
/// ```
/// all_fit(&[5, 7], 3);   // true
/// ```
pub fn all_fit(numbers: &[u64], width: u8) -> bool
    requires { width ≤ 63 }
    ensures { IsTrue result ↔ All (λ x. x < 2 ^ width) numbers.now }
{
    let most = n_lowest_bits(width);
    for number in numbers {
        if *number > most {
            return false;
        }
    }
    true
}

/// Writes each number at its index.
///
/// # Conditions
/// There is room, and each number fits.
/// # Cost
/// One pass over the numbers (evident from the code).
///
/// ```
/// write_numbers(words.as_mut_slice(), &[5, 7], 3);   // the bits 101 111
/// ```
pub fn write_numbers(words: &mut [u64], numbers: &[u64], width: u8)
    requires room { HasLabelRoom words.old width (length numbers.now) }
    requires fit { All (λ x. x < 2 ^ width) numbers.now }
    ensures numbers { numbers_of words.new width (length numbers.now) ≡ numbers.now }
    ensures len { length words.new ≡ length words.old }
{
    for (i, number) in numbers.iter().enumerate() {
        words::set_fragment(words, i, *number, width);
    }
}

/// Number `i` of the `_len` numbers that words hold.
///
/// # Conditions
/// There is such a number.
#[inline(always)]
#[tactic(auto, using(crate::proofs::lemmas::LabelLemmas::number_inside, crate::proofs::lemmas::LabelLemmas::packed_at))]
pub(crate) fn number_of(words: &[u64], width: u8, _len: usize, i: usize) -> u64
    requires room { HasLabelRoom words.now width _len }
    requires inside { i < _len }
    ensures { result ≡ slice_index (numbers_of words.now width _len) i }
{
    words::get_fragment(words, i, width)
}

impl Packed {
    /// The numbers, packed.
    ///
    /// # Conditions
    /// `width` is 1 to 63, and no number has more bits.
    /// # Errors
    /// `AllocError` if memory was refused, as it is where the numbers would have 2^64 bits or more.
    pub(crate) fn build(alloc: Global, numbers: &[u64], width: u8) -> Result<Self, AllocError>
        requires some { 1 ≤ width }
        requires few { width ≤ 63 }
        requires fit { All (λ x. x < 2 ^ width) numbers.now }
        ensures items { IfOk result (λ made. made.items ≡ numbers.now) }
        ensures width { IfOk result (λ made. made.width ≡ width) }
    {
        let Some(bits) = numbers.len().checked_mul(width as usize) else {
            return Err(AllocError);
        };
        let mut words = BoxedSlice::with_zeroed_bits(alloc, bits)?;
        write_numbers(words.as_mut_slice(), numbers, width);
        Ok(Packed {
            words,
            width,
            len: numbers.len(),
        })
    }

    /// Number `i`.
    ///
    /// # Conditions
    /// There is such a number.
    #[inline(always)]
    #[tactic(auto, using(crate::proofs::lemmas::LabelLemmas::numbers_counted))]
    pub(crate) fn get(&self, i: usize) -> u64
        requires { i < length self.now.items }
        ensures { result ≡ slice_index self.now.items i }
    {
        number_of(self.words.as_slice(), self.width, self.len, i)
    }

    /// The numbers as the labels of that many nodes, with no reads counted yet.
    #[inline(always)]
    #[tactic(auto, using(crate::proofs::lemmas::LabelLemmas::numbers_counted))]
    pub(crate) fn probe(&self) -> RootedProbe<'_>
        ensures room { HasLabelRoom result.words result.width (length self.now.items) }
        ensures items { numbers_of result.words result.width (length self.now.items)
            ≡ self.now.items }
    {
        RootedProbe::new(self.words.as_slice(), self.width)
    }

    /// A copy of the numbers.
    ///
    /// # Errors
    /// `AllocError` if memory was refused; this value is as it was.
    pub(crate) fn try_clone(&self, alloc: Global) -> Result<Self, AllocError>
        ensures { IfOk result (λ copy. copy ≡ self.now) }
    {
        let words = BoxedSlice::from_slice(alloc, self.words.as_slice())?;
        Ok(Packed {
            words,
            width: self.width,
            len: self.len,
        })
    }
}

impl GetSize for Packed {
    // the words
    ghost dyn_bytes = { λ p. 8 * div_ceil (length p.items * p.width) 64 };

    const USES_DYN_MEM: bool = true;

    fn size_bytes_dyn(&self) -> usize {
        self.words.size_bytes_dyn()
    }
}
