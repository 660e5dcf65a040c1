//! Bytes in words: read, compared and written.
ghost use Rattle.std.specs.Prelude.{◌≡◌, ◌≢◌, ◌+◌, ◌*◌, ◌^◌, ◌<◌, ◌≤◌, ◌↔◌, IsTrue, ℕ, length, slice_index};
ghost use Rattle.hash_block.specs.Bytes.{byte_of, bytes_from, AreZeroBytesFrom, StandsAt};

use bit_words::words;

/// Byte `k` of words.
#[inline(always)]
pub(crate) fn byte_at(words: &[u64], k: usize) -> u64
    requires short { length words.now < 2 ^ 58 }
    requires inside { k < 8 * length words.now }
    ensures value { result ≡ byte_of words.now k }
    ensures bound { result < 256 }
{
    words::get_fragment(words, k, 8)
}

/// Writes byte `k` of words.
#[inline(always)]
fn set_byte(words: &mut [u64], k: usize, byte: u8)
    requires short { length words.old < 2 ^ 58 }
    requires inside { k < 8 * length words.old }
    ensures written { byte_of words.new k ≡ byte }
    ensures beside { (i : ℕ) → i ≢ k → byte_of words.new i ≡ byte_of words.old i }
    ensures len { length words.new ≡ length words.old }
{
    words::set_fragment(words, k, byte as u64, 8);
}

/// Copies the `len` bytes of a list from `begin` on to where byte `at` of words is.
pub(crate) fn write_bytes(from: &[u8], begin: usize, len: usize, to: &mut [u64], at: usize)
    requires short { length to.old < 2 ^ 58 }
    requires some { begin + len ≤ length from.now }
    requires room { at + len ≤ 8 * length to.old }
    ensures written { StandsAt to.new at (bytes_from from.now begin) len }
    ensures before { (k : ℕ) → k < at → byte_of to.new k ≡ byte_of to.old k }
    ensures after { (k : ℕ) → at + len ≤ k → byte_of to.new k ≡ byte_of to.old k }
    ensures len { length to.new ≡ length to.old }
{
    for j in 0..len {
        set_byte(to, at + j, from[begin + j]);
    }
}

/// Whether the bytes of words from `at` on are the `len` bytes of a list from `begin` on.
pub(crate) fn is_at(words: &[u64], at: usize, bytes: &[u8], begin: usize, len: usize) -> bool
    requires short { length words.now < 2 ^ 58 }
    requires inside { at + len ≤ 8 * length words.now }
    requires some { begin + len ≤ length bytes.now }
    ensures { IsTrue result ↔ StandsAt words.now at (bytes_from bytes.now begin) len }
{
    for j in 0..len {
        if byte_at(words, at + j) != bytes[begin + j] as u64 {
            return false;
        }
    }
    true
}

/// Whether the bytes of words from `first` on are 0.
pub(crate) fn are_zero_from(words: &[u64], first: usize) -> bool
    requires short { length words.now < 2 ^ 58 }
    ensures { IsTrue result ↔ AreZeroBytesFrom words.now first }
{
    for k in first..8 * words.len() {
        if byte_at(words, k) != 0 {
            return false;
        }
    }
    true
}
