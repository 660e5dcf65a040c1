//! How the strings of blocks of kind 10 are hashed: FNV-1a of 64 bits, with a seed.
ghost use Rattle.std.specs.Prelude.{◌≡◌, ◌-◌, ◌*◌, ◌^◌, ◌<◌, ◌≤◌, length};
ghost use Rattle.hash_block.specs.Bytes.{bytes_from, stored_from};
ghost use Rattle.hash_block.specs.Kinds.{fnv_of, mixed};

use crate::strings::bytes::byte_at;

/// What a hash begins with, by FNV.
const BASIS: u64 = 0xcbf2_9ce4_8422_2325;

/// What each step of a hash multiplies by, by FNV.
const PRIME: u64 = 0x100_0000_01b3;

/// A hash with one more byte.
#[inline(always)]
#[tactic(auto, unfolding(crate::specs::Kinds::mixed))]
fn mix(hash: u64, byte: u64) -> u64
    ensures { result ≡ mixed hash byte }
{
    (hash ^ byte).wrapping_mul(PRIME)
}

/// The hash of the bytes of a list from `begin` on and before `end`.
pub(crate) fn fnv_between(seed: u64, bytes: &[u8], begin: usize, end: usize) -> u64
    requires order { begin ≤ end }
    requires inside { end ≤ length bytes.now }
    ensures { result ≡ fnv_of seed (bytes_from bytes.now begin) (end - begin) }
{
    let mut hash = BASIS ^ seed;
    for j in 0..end - begin {
        hash = mix(hash, bytes[begin + j] as u64);
    }
    hash
}

/// The hash of the bytes of words from `begin` on and before `end`.
pub(crate) fn fnv_stored(seed: u64, words: &[u64], begin: usize, end: usize) -> u64
    requires short { length words.now < 2 ^ 58 }
    requires order { begin ≤ end }
    requires inside { end ≤ 8 * length words.now }
    ensures { result ≡ fnv_of seed (stored_from words.now begin) (end - begin) }
{
    let mut hash = BASIS ^ seed;
    for j in 0..end - begin {
        hash = mix(hash, byte_at(words, begin + j));
    }
    hash
}
