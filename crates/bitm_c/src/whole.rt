//! Bitwise operations on two bit vectors of the caller, word by word.
ghost use Rattle.std.specs.Prelude.{◌≡◌, ◌≢◌, ℕ, ◌*◌, ◌<◌, ◌≤◌, ◌↔◌, ◌&&◌, ◌||◌, not, if◌then◌else◌, length};
ghost use Rattle.bit_lists.specs.Bits.{bits_of, item};
ghost use Rattle.bit_words.specs.Where.{AreDisjoint, IsSubset};
ghost use Rattle.bitm_abi.specs.Lengths.{HasBits};

use bit_words::slices::has_where;
use bit_words::words;
use bitm_abi::{BAD_SIZE, OK, has_bits};

/// Keeps each 1 bit where `other` has a 1 bit too, and clears all others.
#[unsafe(no_mangle)]
pub extern "C" fn bitm_bits_and(words: &mut [u64], other: &[u64]) -> u32
    ensures ok { (result ≡ 0) ↔ (length words.old ≡ length other.now) }
    ensures bits { result ≡ 0 → (i : ℕ) → i < 64 * length words.old → item (bits_of words.new) i
        ≡ (item (bits_of words.old) i && item (bits_of other.now) i) }
    ensures unchanged { result ≢ 0 → (result ≡ 2) × (words.new ≡ words.old) }
{
    if words.len() != other.len() {
        return BAD_SIZE;
    }
    words::and(words, other);
    OK
}

/// Sets each bit where `other` has a 1 bit.
#[unsafe(no_mangle)]
pub extern "C" fn bitm_bits_or(words: &mut [u64], other: &[u64]) -> u32
    ensures ok { (result ≡ 0) ↔ (length words.old ≡ length other.now) }
    ensures bits { result ≡ 0 → (i : ℕ) → i < 64 * length words.old → item (bits_of words.new) i
        ≡ (item (bits_of words.old) i || item (bits_of other.now) i) }
    ensures unchanged { result ≢ 0 → (result ≡ 2) × (words.new ≡ words.old) }
{
    if words.len() != other.len() {
        return BAD_SIZE;
    }
    words::or(words, other);
    OK
}

/// Negates each bit where `other` has a 1 bit.
#[unsafe(no_mangle)]
pub extern "C" fn bitm_bits_xor(words: &mut [u64], other: &[u64]) -> u32
    ensures ok { (result ≡ 0) ↔ (length words.old ≡ length other.now) }
    ensures bits { result ≡ 0 → (i : ℕ) → i < 64 * length words.old → item (bits_of words.new) i
        ≡ (if item (bits_of other.now) i then not (item (bits_of words.old) i)
        else item (bits_of words.old) i) }
    ensures unchanged { result ≢ 0 → (result ≡ 2) × (words.new ≡ words.old) }
{
    if words.len() != other.len() {
        return BAD_SIZE;
    }
    words::xor(words, other);
    OK
}

/// Clears each bit where `other` has a 1 bit.
#[unsafe(no_mangle)]
pub extern "C" fn bitm_bits_and_not(words: &mut [u64], other: &[u64]) -> u32
    ensures ok { (result ≡ 0) ↔ (length words.old ≡ length other.now) }
    ensures bits { result ≡ 0 → (i : ℕ) → i < 64 * length words.old → item (bits_of words.new) i
        ≡ (item (bits_of words.old) i && not (item (bits_of other.now) i)) }
    ensures unchanged { result ≢ 0 → (result ≡ 2) × (words.new ≡ words.old) }
{
    if words.len() != other.len() {
        return BAD_SIZE;
    }
    words::and_not(words, other);
    OK
}

/// Whether a position among the first `bits_len` has a 1 bit in both, as 0 or 1.
#[unsafe(no_mangle)]
pub extern "C" fn bitm_bits_intersects(
    words: &[u64],
    other: &[u64],
    bits_len: usize,
    out: &mut u64,
) -> u32
    ensures ok { (result ≡ 0) ↔ (HasBits words.now bits_len × HasBits other.now bits_len) }
    ensures disjoint { result ≡ 0
        → (out.new ≡ 0) ↔ AreDisjoint (bits_of words.now) (bits_of other.now) bits_len }
    ensures truth { result ≡ 0 → out.new ≤ 1 }
    ensures unchanged { result ≢ 0 → (result ≡ 2) × (out.new ≡ out.old) }
{
    if !has_bits(words, bits_len) || !has_bits(other, bits_len) {
        return BAD_SIZE;
    }
    *out = !has_where::<0>(words, other, bits_len) as u64;
    OK
}

/// Whether `other` has a 1 bit at each position among the first `bits_len` where `words` has one, as 0 or 1.
#[unsafe(no_mangle)]
pub extern "C" fn bitm_bits_is_subset(
    words: &[u64],
    other: &[u64],
    bits_len: usize,
    out: &mut u64,
) -> u32
    ensures ok { (result ≡ 0) ↔ (HasBits words.now bits_len × HasBits other.now bits_len) }
    ensures subset { result ≡ 0
        → (out.new ≡ 1) ↔ IsSubset (bits_of words.now) (bits_of other.now) bits_len }
    ensures truth { result ≡ 0 → out.new ≤ 1 }
    ensures unchanged { result ≢ 0 → (result ≡ 2) × (out.new ≡ out.old) }
{
    if !has_bits(words, bits_len) || !has_bits(other, bits_len) {
        return BAD_SIZE;
    }
    *out = has_where::<1>(words, other, bits_len) as u64;
    OK
}
