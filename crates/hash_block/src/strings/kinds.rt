//! The kinds of blocks of strings, and how the strings of each are hashed.
ghost use Rattle.std.specs.Prelude.{◌≡◌, ◌-◌, ◌*◌, ◌^◌, ◌<◌, ◌≤◌, ◌↔◌, IsTrue, length};
ghost use Rattle.hash_block.specs.Bytes.{bytes_from, stored_from};
ghost use Rattle.hash_block.specs.Kinds.{hash_by, IsStringKind};

use crate::strings::fnv::{fnv_between, fnv_stored};
use crate::strings::hashing::{hash_between, hash_stored};

/// The kind of strings: SipHash-1-3 hashes them.
pub const STRINGS: u64 = 12;

/// The kind of strings that FNV-1a hashes: such blocks are read, and nothing writes them.
pub const FNV_STRINGS: u64 = 10;

/// Whether a number is a kind of strings.
#[inline(always)]
pub(crate) fn is_string_kind(kind: u64) -> bool
    ensures { IsTrue result ↔ IsStringKind kind }
{
    kind == STRINGS || kind == FNV_STRINGS
}

/// The hash of the bytes of a list from `begin` on and before `end`, in a block of a kind.
#[inline(always)]
pub(crate) fn hash_by(kind: u64, seed: u64, bytes: &[u8], begin: usize, end: usize) -> u64
    requires order { begin ≤ end }
    requires inside { end ≤ length bytes.now }
    ensures { result ≡ hash_by kind seed (bytes_from bytes.now begin) (end - begin) }
{
    if kind == FNV_STRINGS {
        fnv_between(seed, bytes, begin, end)
    } else {
        hash_between(seed, bytes, begin, end)
    }
}

/// The hash of the bytes of words from `begin` on and before `end`, in a block of a kind.
pub(crate) fn stored_by(kind: u64, seed: u64, words: &[u64], begin: usize, end: usize) -> u64
    requires short { length words.now < 2 ^ 58 }
    requires order { begin ≤ end }
    requires inside { end ≤ 8 * length words.now }
    ensures { result ≡ hash_by kind seed (stored_from words.now begin) (end - begin) }
{
    if kind == FNV_STRINGS {
        fnv_stored(seed, words, begin, end)
    } else {
        hash_stored(seed, words, begin, end)
    }
}
