//! A few bits that begin anywhere in the caller's bytes, read and written by one little-endian word.
ghost use Rattle.std.specs.Prelude.{◌≡◌, ◌≢◌, ◌+◌, ◌/◌, ◌≤◌, ◌↔◌, length};
ghost use Rattle.bit_words.specs.Bytes.{byte_bits_of, byte_window, with_window};
ghost use Rattle.bit_lists.specs.Number.{number_of_bits};

use bitm_abi::{NONE, OK, has_bytes};

/// The bits from `first_bit` to the end of the eight bytes that begin with its byte, as a number, lowest first.
#[unsafe(no_mangle)]
pub extern "C" fn bitm_bytes_get57(bytes: &[u8], first_bit: usize, out: &mut u64) -> u32
    ensures ok { (result ≡ 0) ↔ (first_bit / 8 + 8 ≤ length bytes.now) }
    ensures number { result ≡ 0
        → out.new ≡ number_of_bits (byte_window (byte_bits_of bytes.now) first_bit 8) }
    ensures unchanged { result ≢ 0 → (result ≡ 1) × (out.new ≡ out.old) }
{
    if !has_bytes(bytes, first_bit, 8) {
        return NONE;
    }
    *out = bitm::get_bits57(bytes, first_bit);
    OK
}

/// Sets each of those bits where `value` has a 1 bit, lowest first.
#[unsafe(no_mangle)]
pub extern "C" fn bitm_bytes_init57(bytes: &mut [u8], first_bit: usize, value: u64) -> u32
    ensures ok { (result ≡ 0) ↔ (first_bit / 8 + 8 ≤ length bytes.old) }
    ensures bits { result ≡ 0 → byte_bits_of bytes.new
        ≡ with_window (byte_bits_of bytes.old) first_bit 8 value 0 }
    ensures unchanged { result ≢ 0 → (result ≡ 1) × (bytes.new ≡ bytes.old) }
{
    if !has_bytes(&*bytes, first_bit, 8) {
        return NONE;
    }
    bitm::init_bits57(bytes, first_bit, value);
    OK
}

/// Replaces those bits by the bits of `value` where `len_mask` has 1 bits, and treats the others as `bitm_bytes_init57`
/// does.
#[unsafe(no_mangle)]
pub extern "C" fn bitm_bytes_set57(
    bytes: &mut [u8],
    first_bit: usize,
    value: u64,
    len_mask: u64,
) -> u32
    ensures ok { (result ≡ 0) ↔ (first_bit / 8 + 8 ≤ length bytes.old) }
    ensures bits { result ≡ 0 → byte_bits_of bytes.new
        ≡ with_window (byte_bits_of bytes.old) first_bit 8 value len_mask }
    ensures unchanged { result ≢ 0 → (result ≡ 1) × (bytes.new ≡ bytes.old) }
{
    if !has_bytes(&*bytes, first_bit, 8) {
        return NONE;
    }
    bitm::set_bits57(bytes, first_bit, value, len_mask);
    OK
}

/// Like `bitm_bytes_get57`, with four bytes.
#[unsafe(no_mangle)]
pub extern "C" fn bitm_bytes_get25(bytes: &[u8], first_bit: usize, out: &mut u32) -> u32
    ensures ok { (result ≡ 0) ↔ (first_bit / 8 + 4 ≤ length bytes.now) }
    ensures number { result ≡ 0
        → out.new ≡ number_of_bits (byte_window (byte_bits_of bytes.now) first_bit 4) }
    ensures unchanged { result ≢ 0 → (result ≡ 1) × (out.new ≡ out.old) }
{
    if !has_bytes(bytes, first_bit, 4) {
        return NONE;
    }
    *out = bitm::get_bits25(bytes, first_bit);
    OK
}

/// Like `bitm_bytes_init57`, with four bytes.
#[unsafe(no_mangle)]
pub extern "C" fn bitm_bytes_init25(bytes: &mut [u8], first_bit: usize, value: u32) -> u32
    ensures ok { (result ≡ 0) ↔ (first_bit / 8 + 4 ≤ length bytes.old) }
    ensures bits { result ≡ 0 → byte_bits_of bytes.new
        ≡ with_window (byte_bits_of bytes.old) first_bit 4 value 0 }
    ensures unchanged { result ≢ 0 → (result ≡ 1) × (bytes.new ≡ bytes.old) }
{
    if !has_bytes(&*bytes, first_bit, 4) {
        return NONE;
    }
    bitm::init_bits25(bytes, first_bit, value);
    OK
}

/// Like `bitm_bytes_set57`, with four bytes.
#[unsafe(no_mangle)]
pub extern "C" fn bitm_bytes_set25(
    bytes: &mut [u8],
    first_bit: usize,
    value: u32,
    len_mask: u32,
) -> u32
    ensures ok { (result ≡ 0) ↔ (first_bit / 8 + 4 ≤ length bytes.old) }
    ensures bits { result ≡ 0 → byte_bits_of bytes.new
        ≡ with_window (byte_bits_of bytes.old) first_bit 4 value len_mask }
    ensures unchanged { result ≢ 0 → (result ≡ 1) × (bytes.new ≡ bytes.old) }
{
    if !has_bytes(&*bytes, first_bit, 4) {
        return NONE;
    }
    bitm::set_bits25(bytes, first_bit, value, len_mask);
    OK
}
