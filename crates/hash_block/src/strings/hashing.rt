//! How strings are hashed: SipHash-1-3, keyed by the seed; and keys, with a fingerprint.
ghost use Rattle.std.specs.Prelude.{◌≡◌, ◌-◌, ◌*◌, ◌^◌, ◌<◌, ◌≤◌, length, slice_index};
ghost use Rattle.hash_block.specs.Bytes.{bytes_from, stored_from};
ghost use Rattle.hash_block.specs.Prints.{print_of_hash};
ghost use Rattle.hash_block.specs.SipHash.{hash_of, keyed_hash};

use crate::strings::numbers::{last_word, rest_from, stored_number, word_from};
use crate::strings::sip::Sip;
use perfect_hash::levels::fold;

/// The hash of the bytes of a list from `begin` on and before `end`, by the key (seed, kind).
fn keyed_between(seed: u64, kind: u64, bytes: &[u8], begin: usize, end: usize) -> u64
    requires order { begin ≤ end }
    requires inside { end ≤ length bytes.now }
    ensures { result ≡ keyed_hash seed kind (bytes_from bytes.now begin) (end - begin) }
{
    let len = end - begin;
    let mut state = Sip::keyed(seed, kind);
    for i in 0..len / 8 {
        state = state.with_word(word_from(bytes, begin, 8 * i));
    }
    let rest = rest_from(bytes, begin, 8 * (len / 8), len % 8);
    state.with_word(last_word(rest, len)).finish()
}

/// The hash of the bytes of a list from `begin` on and before `end`.
#[inline(always)]
#[tactic(auto, unfolding(crate::specs::SipHash::hash_of))]
pub(crate) fn hash_between(seed: u64, bytes: &[u8], begin: usize, end: usize) -> u64
    requires order { begin ≤ end }
    requires inside { end ≤ length bytes.now }
    ensures { result ≡ hash_of seed (bytes_from bytes.now begin) (end - begin) }
{
    keyed_between(seed, 0, bytes, begin, end)
}

/// The hash of the bytes of words from `begin` on and before `end`.
pub(crate) fn hash_stored(seed: u64, words: &[u64], begin: usize, end: usize) -> u64
    requires short { length words.now < 2 ^ 58 }
    requires order { begin ≤ end }
    requires inside { end ≤ 8 * length words.now }
    ensures { result ≡ hash_of seed (stored_from words.now begin) (end - begin) }
{
    let len = end - begin;
    let mut state = Sip::keyed(seed, 0);
    for i in 0..len / 8 {
        state = state.with_word(stored_number(words, begin, 8 * i, 8));
    }
    let rest = stored_number(words, begin, 8 * (len / 8), len % 8);
    state.with_word(last_word(rest, len)).finish()
}

/// The hash of a string by a seed: SipHash-1-3 with the key (seed, 0), of the bytes of the string and nothing else.
/// Every bit of the hash depends on every bit of the seed.
///
/// # Cost
/// A round for each eight bytes and four more; each byte is read once (evident from the code).
/// # Source
/// Aumasson and Bernstein, 'SipHash: a fast short-input PRF' (INDOCRYPT 2012).
///
/// ```
/// hash(0, b"foobar");   // 0x7738_ae0a_5df0_9b34
/// ```
pub fn hash(seed: u64, string: &[u8]) -> u64
    ensures { result ≡ hash_of seed (slice_index string.now) (length string.now) }
{
    hash_between(seed, string, 0, string.len())
}

/// The fingerprint of a hash.
#[inline(always)]
#[tactic(auto, unfolding(crate::specs::Prints::print_of_hash))]
fn print_of_hash(hash: u64) -> u64
    ensures { result ≡ print_of_hash hash }
{
    let half = fold(hash, 33, 0xff51_afd7_ed55_8ccd);
    let mixed = fold(half, 33, 0xc4ce_b9fe_1a85_ec53);
    mixed ^ (mixed >> 33)
}

/// The hash of a key of a perfect hash, and its fingerprint: SipHash-1-3 with the key (seed, kind) of the bytes and
/// nothing else, and that hash mixed by the last steps of MurmurHash3. With the kind 0 the hash is that of `hash`.
///
/// # Cost
/// A round for each eight bytes and four more; each byte is read once (evident from the code).
/// # Source
/// Aumasson and Bernstein, 'SipHash: a fast short-input PRF' (INDOCRYPT 2012); Appleby's MurmurHash3.
///
/// ```
/// key_hash(0, 0, b"foobar").0;   // 0x7738_ae0a_5df0_9b34
/// ```
pub fn key_hash(seed: u64, kind: u64, key: &[u8]) -> (u64, u64)
    ensures hash { result.0 ≡ keyed_hash seed kind (slice_index key.now) (length key.now) }
    ensures print { result.1 ≡ print_of_hash result.0 }
{
    let hash = keyed_between(seed, kind, key, 0, key.len());
    (hash, print_of_hash(hash))
}
