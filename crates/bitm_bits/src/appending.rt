//! Bits and numbers that are written one after the other: the type `BitWriter`.
ghost use Rattle.std.specs.Prelude.{◌≡◌, ◌+◌, ◌^◌, ◌<◌, ◌≤◌, ℕ, false, length, take, IfOk, IfErr, [], ◌∷◌, ◌++◌};
ghost use Rattle.std.specs.Box.{boxed_slice_items};
ghost use Rattle.std.specs.Int.{div_ceil};
ghost use Rattle.bit_lists.specs.Bits.{bits_of, item, low_digits};
ghost use Rattle.bitm_bits.specs.Appending.{AreFilledTo, HasRoom};

use bit_words::{n_lowest_bits_0_64, words};
use std::alloc::{AllocError, Global};
use std::boxed::BoxedSlice;
use std::marker::Model;

/// A bit vector that grows: bits, and numbers by their binary digits, are written one after the other.
///
/// Contracts see a writer as the list of the bits that were written.
#[derive(Drop)]
pub struct BitWriter {
    words: Vec<u64>,
    len: usize,
}

impl Model for BitWriter {
    ghost use Rattle.std.specs.Prelude.{Bool, List, take};
    ghost use Rattle.bit_lists.specs.Bits.{bits_of};
    ghost use Rattle.bitm_bits.specs.Appending.{AreFilledTo};

    ghost Value = { List Bool };

    ghost view = { λ w. take w.len (bits_of w.words.items) };

    ghost invariant = { λ w. AreFilledTo w.words.items w.len };
}

impl BitWriter {
    /// A writer of no bits. Nothing is allocated.
    #[tactic(auto, using(crate::proofs::lemmas::AppendLemmas::filled_none))]
    pub fn new(alloc: Global) -> BitWriter
        ensures { result ≡ [] }
    {
        BitWriter {
            words: Vec::new(alloc),
            len: 0,
        }
    }

    /// How many bits were written.
    #[inline(always)]
    #[tactic(auto, using(crate::proofs::lemmas::AppendLemmas::length_filled))]
    pub fn len(&self) -> usize
        ensures { result ≡ length self.now }
    {
        self.len
    }

    /// Appends a bit.
    ///
    /// # Errors
    /// `AllocError` if memory was refused, or a `usize` would not count the bits. Nothing was written then.
    #[inline]
    pub fn push_bit(&mut self, value: bool) -> Result<(), AllocError>
        ensures ok { IfOk result (λ _. self.new ≡ self.old ++ value ∷ []) }
        ensures err { IfErr result (λ _. self.new ≡ self.old) }
    {
        self.push_bits(value as u64, 1)
    }

    /// Appends the `count` lowest bits of `v`, lowest first.
    ///
    /// # Conditions
    /// `count` is 0 to 64.
    /// # Errors
    /// `AllocError` if memory was refused, or a `usize` would not count the bits. Nothing was written then.
    #[inline]
    pub fn push_bits(&mut self, v: u64, count: u8) -> Result<(), AllocError>
        requires { count ≤ 64 }
        ensures ok { IfOk result (λ _. self.new ≡ self.old ++ low_digits count v) }
        ensures err { IfErr result (λ _. self.new ≡ self.old) }
    {
        if count == 0 {
            return Ok(());
        }
        let Some(end) = self.len.checked_add(count as usize) else {
            return Err(AllocError);
        };
        append(&mut self.words, self.len, v, count)?;
        self.len = end;
        Ok(())
    }

    /// The words of the bits that were written: as few as hold them, and the bits after them are 0.
    #[inline(always)]
    #[tactic(auto, using(crate::proofs::lemmas::AppendLemmas::length_filled))]
    pub fn as_slice(&self) -> &[u64]
        ensures len { length result.now ≡ div_ceil (length self.now) 64 }
        ensures bits { take (length self.now) (bits_of result.now) ≡ self.now }
        ensures after { (p : ℕ) → length self.now ≤ p → item (bits_of result.now) p ≡ false }
    {
        self.words.as_slice()
    }

    /// The words, owned: for an index over them.
    #[inline]
    #[tactic(auto, using(crate::proofs::lemmas::AppendLemmas::length_filled))]
    pub fn into_boxed_slice(self) -> BoxedSlice<u64, Global>
        ensures len { length (boxed_slice_items result) ≡ div_ceil (length self) 64 }
        ensures bits { take (length self) (bits_of (boxed_slice_items result)) ≡ self }
        ensures after { (p : ℕ) → length self ≤ p
            → item (bits_of (boxed_slice_items result)) p ≡ false }
    {
        self.words.into_boxed_slice()
    }
}

/// Puts the `count` lowest bits of `v` after the first `len` bits, in a new word where they need one.
#[inline]
fn append(words: &mut Vec<u64>, len: usize, v: u64, count: u8) -> Result<(), AllocError>
    requires filled { AreFilledTo words.old.items len }
    requires least { 1 ≤ count }
    requires most { count ≤ 64 }
    requires room { len + count < 2 ^ 64 }
    ensures bits { IfOk result (λ _. take (len + count) (bits_of words.new.items)
        ≡ take len (bits_of words.old.items) ++ low_digits count v) }
    ensures filled { IfOk result (λ _. AreFilledTo words.new.items (len + count)) }
    ensures err { IfErr result (λ _. words.new.items ≡ words.old.items) }
{
    make_room(words, len, count)?;
    let low = v & n_lowest_bits_0_64(count);
    words::init_bits(words.as_mut_slice(), len, low, count);
    Ok(())
}

/// Adds a word that is 0 where `count` more bits after the first `len` need one.
#[inline(always)]
fn make_room(words: &mut Vec<u64>, len: usize, count: u8) -> Result<(), AllocError>
    requires filled { AreFilledTo words.old.items len }
    requires most { count ≤ 64 }
    requires room { len + count < 2 ^ 64 }
    ensures ok { IfOk result (λ _. HasRoom words.old.items words.new.items len count) }
    ensures err { IfErr result (λ _. words.new.items ≡ words.old.items) }
{
    if words.len() < (len + count as usize).div_ceil(64) {
        words.push(0)?;
    }
    Ok(())
}
