//! Numbers in the bits of the caller's words: negated, exchanged or filled. How many words a bit vector takes.
ghost use Rattle.std.specs.Prelude.{◌≡◌, ◌≢◌, ℕ, ◌+◌, ◌*◌, ◌%◌, ◌^◌, ◌<◌, ◌≤◌, bit_xor};
ghost use Rattle.std.specs.Int.{div_ceil};
ghost use Rattle.bit_lists.specs.Bits.{bits_of, item};
ghost use Rattle.bit_lists.specs.Number.{number_at, with_number, with_swapped};
ghost use Rattle.bitm_c.specs.Bits.{IsStatus};
ghost use Rattle.bitm_abi.specs.Lengths.{HasBits};

use bit_words::slices::{fill_fragments_in, swap_fragments_in, xor_number_in};
use bitm_abi::{BAD_SIZE, done, has_bits};

/// The number of words that hold `bits_len` bits.
#[unsafe(no_mangle)]
pub extern "C" fn bitm_bits_words_len(bits_len: u64) -> usize
    ensures { result ≡ div_ceil bits_len 64 }
{
    bits_len.div_ceil(64) as usize
}

/// Negates each of the `width` bits from `begin` on where `value` has a 1 bit, lowest first; 0 to 64 bits.
#[unsafe(no_mangle)]
pub extern "C" fn bitm_bits_xor_number(
    words: &mut [u64],
    bits_len: usize,
    begin: usize,
    width: u32,
    value: u64,
) -> u32
    ensures status { IsStatus (HasBits words.old bits_len)
        ((width ≤ 64) × (begin + width ≤ bits_len)) result }
    ensures number { result ≡ 0 → bits_of words.new ≡ with_number (bits_of words.old) begin width
        (bit_xor (number_at (bits_of words.old) begin width) value % 2 ^ width) }
    ensures unchanged { result ≢ 0 → words.new ≡ words.old }
{
    if !has_bits(&*words, bits_len) {
        return BAD_SIZE;
    }
    done(xor_number_in(words, bits_len, begin, width, value))
}

/// Exchanges numbers `first` and `second` of an array of numbers of `width` bits; 0 to 64 bits.
#[unsafe(no_mangle)]
pub extern "C" fn bitm_bits_swap_fragments(
    words: &mut [u64],
    bits_len: usize,
    first: usize,
    second: usize,
    width: u32,
) -> u32
    ensures status { IsStatus (HasBits words.old bits_len) ((width ≤ 64)
        × (first * width + width ≤ bits_len) × (second * width + width ≤ bits_len)) result }
    ensures numbers { result ≡ 0
        → bits_of words.new ≡ with_swapped (bits_of words.old) first second width }
    ensures unchanged { result ≢ 0 → words.new ≡ words.old }
{
    if !has_bits(&*words, bits_len) {
        return BAD_SIZE;
    }
    done(swap_fragments_in(words, bits_len, first, second, width))
}

/// Sets the first `count` numbers of an array of numbers of `width` bits to the lowest bits of `value`; 0 to 64 bits.
#[unsafe(no_mangle)]
pub extern "C" fn bitm_bits_fill_fragments(
    words: &mut [u64],
    bits_len: usize,
    width: u32,
    value: u64,
    count: usize,
) -> u32
    ensures status { IsStatus (HasBits words.old bits_len)
        ((width ≤ 64) × (count * width ≤ bits_len)) result }
    ensures numbers { result ≡ 0 → (k : ℕ) → k < count
        → number_at (bits_of words.new) (k * width) width ≡ value % 2 ^ width }
    ensures beyond { result ≡ 0 → (i : ℕ) → count * width ≤ i
        → item (bits_of words.new) i ≡ item (bits_of words.old) i }
    ensures unchanged { result ≢ 0 → words.new ≡ words.old }
{
    if !has_bits(&*words, bits_len) {
        return BAD_SIZE;
    }
    done(fill_fragments_in(words, bits_len, width, value, count))
}
