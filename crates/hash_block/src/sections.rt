//! The sections of the block of a hash.
ghost use Rattle.std.specs.Prelude.{◌≡◌, ◌^◌, ◌<◌, ◌≤◌, SomeIff};
ghost use Rattle.bitm_block.specs.Layout.{end_of};
ghost use Rattle.hash_block.specs.Block.{hash_head, hash_sections, AreFew};
ghost use Rattle.hash_block.specs.Dictionary.{dictionary_sections, AreFewKeys};

use bitm_block::{Head, Section, aligned};
use tables_view::{lower_len, upper_len};

/// The kind of a minimal perfect hash.
pub const HASH: u64 = 5;

/// The role of the sizes of levels.
pub const SIZES: u64 = 4;

/// The role of the keys of a dictionary.
pub(crate) const KEYS: u64 = 5;

/// The greatest number of levels.
pub const LEVELS: usize = 256;

/// The numbers of the header of a hash of the given number of keys, with seeds or without.
///
/// ```
/// hash_head(3, 7);   // Head { kind: HASH, len: 3, a: 7, .. }
/// ```
pub fn hash_head(keys: usize, seed: u64) -> Head
    ensures { result ≡ hash_head keys seed }
{
    Head {
        kind: HASH,
        len: keys as u64,
        width: 0,
        ones_log2: 0,
        zeros_log2: 0,
        a: seed,
        b: 0,
        c: 0,
    }
}

/// The sections of levels: their words, the two tables of these, and the sizes.
pub(crate) fn hash_sections(words: usize, levels: usize) -> [Section; 4]
    ensures { result ≡ hash_sections words levels }
{
    [
        Section::of(1, words),
        Section::of(2, upper_len(words)),
        Section::of(3, lower_len(words)),
        Section::of(SIZES, levels),
    ]
}

/// How many words the block of a hash has, whose levels have that many words together; `None` exactly where there are
/// 2^58 words or more, or more than 256 levels.
///
/// ```
/// size(1, 1);   // Some(64)
/// ```
pub fn size(words: usize, levels: usize) -> Option<usize>
    ensures { SomeIff result (AreFew words levels) (end_of (hash_sections words levels)) }
{
    if words >= 1 << 58 || levels > LEVELS {
        return None;
    }
    Some(block_len(words, levels))
}

/// How many words the block of a hash has.
pub(crate) fn block_len(words: usize, levels: usize) -> usize
    requires short { words < 2 ^ 58 }
    requires few { levels ≤ 256 }
    ensures len { result ≡ end_of (hash_sections words levels) }
    ensures most { result < 2 ^ 59 }
{
    let tables = aligned(words) + aligned(upper_len(words)) + aligned(lower_len(words));
    32 + tables + aligned(levels)
}

/// The sections of a dictionary: the sections of its hash, and the keys.
pub(crate) fn dictionary_sections(words: usize, levels: usize, keys: usize) -> [Section; 5]
    ensures { result ≡ dictionary_sections words levels keys }
{
    [
        Section::of(1, words),
        Section::of(2, upper_len(words)),
        Section::of(3, lower_len(words)),
        Section::of(SIZES, levels),
        Section::of(KEYS, keys),
    ]
}

/// How many words the block of a dictionary has, the levels of whose hash have that many words together; `None` exactly
/// where there are 2^58 words or keys or more, or more than 256 levels.
///
/// ```
/// dictionary_size(1, 1, 3);   // Some(80)
/// ```
pub fn dictionary_size(words: usize, levels: usize, keys: usize) -> Option<usize>
    ensures { SomeIff result (AreFewKeys words levels keys)
        (end_of (dictionary_sections words levels keys)) }
{
    if words >= 1 << 58 || levels > LEVELS || keys >= 1 << 58 {
        return None;
    }
    Some(8 + block_len(words, levels) + aligned(keys))
}
