//! Single bits and numbers in the caller's words. A bit vector may end inside a word.
ghost use Rattle.std.specs.Prelude.{◌≡◌, ◌≢◌, ◌+◌, ◌*◌, ◌%◌, ◌^◌, ◌<◌, ◌≤◌, if◌then◌else◌};
ghost use Rattle.bit_lists.specs.Bits.{bits_of, item};
ghost use Rattle.bit_lists.specs.Number.{number_at, with_number};
ghost use Rattle.bit_words.specs.First.{first_bits};
ghost use Rattle.bitm_c.specs.Bits.{IsStatus};
ghost use Rattle.bitm_abi.specs.Lengths.{HasBits};

use bit_words::slices::{fragment_in, number_in, set_fragment_in, set_number_in};
use bit_words::words;
use bitm_abi::{BAD_SIZE, NONE, OK, done, has_bits, report_option};

/// The bit at `position`, as 0 or 1.
#[unsafe(no_mangle)]
pub extern "C" fn bitm_bits_get(
    words: &[u64],
    bits_len: usize,
    position: usize,
    out: &mut u64,
) -> u32
    ensures status { IsStatus (HasBits words.now bits_len) (position < bits_len) result }
    ensures bit { result ≡ 0
        → out.new ≡ (if item (bits_of words.now) position then 1 else 0) }
    ensures unchanged { result ≢ 0 → out.new ≡ out.old }
{
    if !has_bits(words, bits_len) {
        return BAD_SIZE;
    }
    if position >= bits_len {
        return NONE;
    }
    *out = words::get_bit(words, position) as u64;
    OK
}

/// Sets the bit at `position` to `value`.
#[unsafe(no_mangle)]
pub extern "C" fn bitm_bits_set(
    words: &mut [u64],
    bits_len: usize,
    position: usize,
    value: bool,
) -> u32
    ensures status { IsStatus (HasBits words.old bits_len) (position < bits_len) result }
    ensures bit { result ≡ 0 → bits_of words.new
        ≡ with_number (bits_of words.old) position 1 (if value then 1 else 0) }
    ensures unchanged { result ≢ 0 → words.new ≡ words.old }
{
    if !has_bits(&*words, bits_len) {
        return BAD_SIZE;
    }
    if position >= bits_len {
        return NONE;
    }
    words::set_bit_to(words, position, value);
    OK
}

/// The `width` bits from `begin` on as a number, lowest first; 0 to 64 bits.
#[unsafe(no_mangle)]
pub extern "C" fn bitm_bits_get_number(
    words: &[u64],
    bits_len: usize,
    begin: usize,
    width: u32,
    out: &mut u64,
) -> u32
    ensures status { IsStatus (HasBits words.now bits_len)
        ((width ≤ 64) × (begin + width ≤ bits_len)) result }
    ensures number { result ≡ 0
        → out.new ≡ number_at (first_bits words.now bits_len) begin width }
    ensures unchanged { result ≢ 0 → out.new ≡ out.old }
{
    if !has_bits(words, bits_len) {
        return BAD_SIZE;
    }
    report_option(number_in(words, bits_len, begin, width), out)
}

/// Replaces the `width` bits from `begin` on by the lowest bits of `value`, lowest first; 0 to 64 bits.
#[unsafe(no_mangle)]
pub extern "C" fn bitm_bits_set_number(
    words: &mut [u64],
    bits_len: usize,
    begin: usize,
    width: u32,
    value: u64,
) -> u32
    ensures status { IsStatus (HasBits words.old bits_len)
        ((width ≤ 64) × (begin + width ≤ bits_len)) result }
    ensures number { result ≡ 0 → bits_of words.new
        ≡ with_number (bits_of words.old) begin width (value % 2 ^ width) }
    ensures unchanged { result ≢ 0 → words.new ≡ words.old }
{
    if !has_bits(&*words, bits_len) {
        return BAD_SIZE;
    }
    done(set_number_in(words, bits_len, begin, width, value))
}

/// Number `index` of an array of numbers of `width` bits, lowest bit first; 0 to 64 bits.
#[unsafe(no_mangle)]
pub extern "C" fn bitm_bits_get_fragment(
    words: &[u64],
    bits_len: usize,
    index: usize,
    width: u32,
    out: &mut u64,
) -> u32
    ensures status { IsStatus (HasBits words.now bits_len)
        ((width ≤ 64) × (index * width + width ≤ bits_len)) result }
    ensures number { result ≡ 0
        → out.new ≡ number_at (first_bits words.now bits_len) (index * width) width }
    ensures unchanged { result ≢ 0 → out.new ≡ out.old }
{
    if !has_bits(words, bits_len) {
        return BAD_SIZE;
    }
    report_option(fragment_in(words, bits_len, index, width), out)
}

/// Replaces number `index` of an array of numbers of `width` bits by the lowest bits of `value`; 0 to 64 bits.
#[unsafe(no_mangle)]
pub extern "C" fn bitm_bits_set_fragment(
    words: &mut [u64],
    bits_len: usize,
    index: usize,
    width: u32,
    value: u64,
) -> u32
    ensures status { IsStatus (HasBits words.old bits_len)
        ((width ≤ 64) × (index * width + width ≤ bits_len)) result }
    ensures number { result ≡ 0 → bits_of words.new
        ≡ with_number (bits_of words.old) (index * width) width (value % 2 ^ width) }
    ensures unchanged { result ≢ 0 → words.new ≡ words.old }
{
    if !has_bits(&*words, bits_len) {
        return BAD_SIZE;
    }
    done(set_fragment_in(words, bits_len, index, width, value))
}
