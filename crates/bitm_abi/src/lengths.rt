//! Whether words and bytes of the caller have the bits that a call needs.
ghost use Rattle.std.specs.Prelude.{◌+◌, ◌/◌, ◌≤◌, ◌↔◌, IsTrue, length};
ghost use Rattle.bitm_abi.specs.Lengths.{HasBits, HasCountedBits, HasRange};

/// Whether the words have `bits_len` bits.
#[inline(always)]
pub fn has_bits(words: &[u64], bits_len: usize) -> bool
    ensures { IsTrue result ↔ HasBits words.now bits_len }
{
    bits_len.div_ceil(64) <= words.len()
}

/// Whether the words have `bits_len` bits, and are fewer than 2^58.
#[inline(always)]
pub fn has_counted_bits(words: &[u64], bits_len: usize) -> bool
    ensures { IsTrue result ↔ HasCountedBits words.now bits_len }
{
    words.len() < 1 << 58 && has_bits(words, bits_len)
}

/// Whether the `count` bits from `begin` on are in the words.
#[inline(always)]
pub fn has_range(words: &[u64], begin: usize, count: usize) -> bool
    ensures { IsTrue result ↔ HasRange words.now begin count }
{
    match begin.checked_add(count) {
        Some(end) => end.div_ceil(64) <= words.len(),
        None => false,
    }
}

/// Whether there are `count` bytes from byte `first_bit / 8` on.
#[inline(always)]
pub fn has_bytes(bytes: &[u8], first_bit: usize, count: usize) -> bool
    ensures { IsTrue result ↔ (first_bit / 8 + count ≤ length bytes.now) }
{
    count <= bytes.len() && first_bit / 8 <= bytes.len() - count
}
