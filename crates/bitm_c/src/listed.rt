//! Bits at a list of positions.
ghost use Rattle.std.specs.Prelude.{◌≡◌, ◌≢◌, ◌↔◌};
ghost use Rattle.bit_lists.specs.Bits.{bits_of};
ghost use Rattle.bit_words.specs.Listed.{outside_of, IsSetAt};
ghost use Rattle.bitm_abi.specs.Lengths.{HasBits};

use bit_words::slices::set_listed_in;
use bitm_abi::{BAD_SIZE, OK, has_bits};

/// Sets the bits at those positions that are below `bits_len` to `value`, and writes how many positions are not.
#[unsafe(no_mangle)]
pub extern "C" fn bitm_bits_set_list(
    words: &mut [u64],
    bits_len: usize,
    positions: &[usize],
    value: bool,
    outside: &mut usize,
) -> u32
    ensures ok { (result ≡ 0) ↔ HasBits words.old bits_len }
    ensures outside { result ≡ 0 → outside.new ≡ outside_of bits_len positions.now }
    ensures bits { result ≡ 0
        → IsSetAt (bits_of words.old) bits_len value positions.now (bits_of words.new) }
    ensures unchanged { result ≢ 0
        → (result ≡ 2) × (words.new ≡ words.old) × (outside.new ≡ outside.old) }
{
    if !has_bits(&*words, bits_len) {
        return BAD_SIZE;
    }
    *outside = set_listed_in(words, bits_len, value, positions);
    OK
}
