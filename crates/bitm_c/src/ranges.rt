//! Counts, nearest bits, positions and writes over ranges of a bit vector in the caller's words, without tables.
ghost use Rattle.std.specs.Prelude.{◌≡◌, ◌≢◌, ℕ, ◌+◌, ◌-◌, ◌<◌, ◌≤◌, ◌↔◌, ◌⊎◌, not, false, length, min, slice_index};
ghost use Rattle.bit_lists.specs.Bits.{bits_of, item};
ghost use Rattle.bit_lists.specs.Count.{count_before, count_of, Picks};
ghost use Rattle.bit_words.specs.First.{first_bits};
ghost use Rattle.bitm_c.specs.Bits.{IsStatus, NextAnswered, PreviousAnswered};
ghost use Rattle.bitm_abi.specs.Lengths.{HasBits, HasCountedBits};

use bit_words::slices::{count_in, count_range_in, next_in, positions_in, previous_in};
use bit_words::words;
use bitm_abi::{BAD_SIZE, NONE, OK, has_bits, has_counted_bits, report_option};
use tables_view::clear_from;

/// The number of 1 bits, or of 0 bits, among the first `bits_len` bits.
#[unsafe(no_mangle)]
pub extern "C" fn bitm_bits_count(words: &[u64], bits_len: usize, one: bool, out: &mut usize) -> u32
    ensures ok { (result ≡ 0) ↔ HasCountedBits words.now bits_len }
    ensures count { result ≡ 0 → out.new ≡ count_of (first_bits words.now bits_len) one }
    ensures unchanged { result ≢ 0 → (result ≡ 2) × (out.new ≡ out.old) }
{
    if !has_counted_bits(words, bits_len) {
        return BAD_SIZE;
    }
    *out = count_in(words, bits_len, one);
    OK
}

/// The number of 1 bits, or of 0 bits, from `from` on and before `to`.
#[unsafe(no_mangle)]
pub extern "C" fn bitm_bits_count_range(
    words: &[u64],
    bits_len: usize,
    one: bool,
    from: usize,
    to: usize,
    out: &mut usize,
) -> u32
    ensures status { IsStatus (HasCountedBits words.now bits_len)
        ((from ≤ to) × (to ≤ bits_len)) result }
    ensures count { result ≡ 0 → let b = first_bits words.now bits_len in
        out.new ≡ count_before b one to - count_before b one from }
    ensures unchanged { result ≢ 0 → out.new ≡ out.old }
{
    if !has_counted_bits(words, bits_len) {
        return BAD_SIZE;
    }
    if from > to || to > bits_len {
        return NONE;
    }
    *out = count_range_in(words, bits_len, one, from, to);
    OK
}

/// The least position from `from` on of a 1 bit, or of a 0 bit.
#[unsafe(no_mangle)]
pub extern "C" fn bitm_bits_next(
    words: &[u64],
    bits_len: usize,
    one: bool,
    from: usize,
    out: &mut usize,
) -> u32
    ensures { NextAnswered one words.now bits_len from result out.old out.new }
{
    if !has_counted_bits(words, bits_len) {
        return BAD_SIZE;
    }
    report_option(next_in(words, bits_len, one, from), out)
}

/// The greatest position up to `from` of a 1 bit, or of a 0 bit; `from` may be past the end.
#[unsafe(no_mangle)]
pub extern "C" fn bitm_bits_previous(
    words: &[u64],
    bits_len: usize,
    one: bool,
    from: usize,
    out: &mut usize,
) -> u32
    ensures { PreviousAnswered one words.now bits_len from result out.old out.new }
{
    if !has_counted_bits(words, bits_len) {
        return BAD_SIZE;
    }
    report_option(previous_in(words, bits_len, one, from), out)
}

/// Writes the positions of the 1 bits, or 0 bits, from `from` on, in rising order, until none is left or `out` is full,
/// and how many were written.
#[unsafe(no_mangle)]
pub extern "C" fn bitm_bits_positions(
    words: &[u64],
    bits_len: usize,
    one: bool,
    from: usize,
    out: &mut [usize],
    written: &mut usize,
) -> u32
    ensures ok { (result ≡ 0) ↔ HasCountedBits words.now bits_len }
    ensures number { result ≡ 0 → let b = first_bits words.now bits_len in written.new
        ≡ min (length out.old) (count_of b one - count_before b one from) }
    ensures positions { result ≡ 0 → let b = first_bits words.now bits_len in (j : ℕ)
        → j < written.new
        → Picks b one (count_before b one from + j) (slice_index out.new j) }
    ensures rest { result ≡ 0 → (j : ℕ) → written.new ≤ j
        → slice_index out.new j ≡ slice_index out.old j }
    ensures unchanged { result ≢ 0 → (result ≡ 2) × (out.new ≡ out.old)
        × (written.new ≡ written.old) }
{
    if !has_counted_bits(words, bits_len) {
        return BAD_SIZE;
    }
    *written = positions_in(words, bits_len, one, from, out);
    OK
}

/// Clears every bit from `bits_len` on; changes nothing where there are fewer bits.
#[unsafe(no_mangle)]
pub extern "C" fn bitm_bits_clear_from(words: &mut [u64], bits_len: usize) -> u32
    ensures ok { result ≡ 0 }
    ensures before { (i : ℕ) → i < bits_len
        → item (bits_of words.new) i ≡ item (bits_of words.old) i }
    ensures from { (i : ℕ) → bits_len ≤ i → item (bits_of words.new) i ≡ false }
{
    clear_from(words, bits_len);
    OK
}

/// Sets the bits from `from` on and before `to` to `value`.
#[unsafe(no_mangle)]
pub extern "C" fn bitm_bits_fill_range(
    words: &mut [u64],
    bits_len: usize,
    from: usize,
    to: usize,
    value: bool,
) -> u32
    ensures status { IsStatus (HasBits words.old bits_len) ((from ≤ to) × (to ≤ bits_len)) result }
    ensures inside { result ≡ 0 → (i : ℕ) → from ≤ i → i < to
        → item (bits_of words.new) i ≡ value }
    ensures beside { (i : ℕ) → (i < from) ⊎ (to ≤ i)
        → item (bits_of words.new) i ≡ item (bits_of words.old) i }
    ensures unchanged { result ≢ 0 → words.new ≡ words.old }
{
    if !has_bits(&*words, bits_len) {
        return BAD_SIZE;
    }
    if from > to || to > bits_len {
        return NONE;
    }
    words::fill_range(words, from, to, value);
    OK
}

/// Negates the bits from `from` on and before `to`.
#[unsafe(no_mangle)]
pub extern "C" fn bitm_bits_flip_range(
    words: &mut [u64],
    bits_len: usize,
    from: usize,
    to: usize,
) -> u32
    ensures status { IsStatus (HasBits words.old bits_len) ((from ≤ to) × (to ≤ bits_len)) result }
    ensures inside { result ≡ 0 → (i : ℕ) → from ≤ i → i < to
        → item (bits_of words.new) i ≡ not (item (bits_of words.old) i) }
    ensures beside { (i : ℕ) → (i < from) ⊎ (to ≤ i)
        → item (bits_of words.new) i ≡ item (bits_of words.old) i }
    ensures unchanged { result ≢ 0 → words.new ≡ words.old }
{
    if !has_bits(&*words, bits_len) {
        return BAD_SIZE;
    }
    if from > to || to > bits_len {
        return NONE;
    }
    words::flip_range(words, from, to);
    OK
}
