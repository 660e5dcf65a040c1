//! The sections of the block of strings.
ghost use Rattle.std.specs.Prelude.{◌≡◌, ◌^◌, ◌<◌, ◌≤◌, ◌↔◌, IsTrue, SomeIff};
ghost use Rattle.std.specs.Int.{div_ceil};
ghost use Rattle.bitm_block.specs.Layout.{end_of};
ghost use Rattle.hash_block.specs.StringsBlock.{hash_len, sections_of, string_head, string_sections, AreFewStrings};

use crate::strings::kinds::STRINGS;
use bitm_block::{Head, Section, aligned};

/// The role of a start for each string and the end of the last.
pub(crate) const STARTS: u64 = 19;

/// The role of the words of bytes.
pub(crate) const BYTES: u64 = 20;

/// The role of the block of a hash.
pub(crate) const HASH_BLOCK: u64 = 21;

/// The numbers of the header of the given number of strings.
pub(crate) fn string_head(strings: usize) -> Head
    ensures { result ≡ string_head strings }
{
    Head {
        kind: STRINGS,
        len: strings as u64,
        width: 0,
        ones_log2: 0,
        zeros_log2: 0,
        a: 0,
        b: 0,
        c: 0,
    }
}

/// The sections of strings: the block of a hash of the given number of words, the starts, and the bytes.
pub(crate) fn string_sections(hash: usize, strings: usize, bytes: usize) -> [Section; 3]
    requires { strings < 2 ^ 57 }
    ensures { result ≡ string_sections hash strings bytes }
{
    [
        Section::of(HASH_BLOCK, hash),
        Section::of(STARTS, strings + 1),
        Section::of(BYTES, bytes.div_ceil(8)),
    ]
}

/// How many words the block of a hash has.
pub(crate) fn hash_len(words: usize, levels: usize) -> usize
    requires words { words < 2 ^ 57 }
    requires levels { levels ≤ 256 }
    ensures len { result ≡ hash_len words levels }
    ensures short { result < 2 ^ 58 }
{
    match crate::size(words, levels) {
        Some(len) => len,
        None => unreachable!(),
    }
}

/// Whether there are few enough words of levels, levels, strings and bytes.
pub(crate) fn are_few(words: usize, levels: usize, strings: usize, bytes: usize) -> bool
    ensures { IsTrue result ↔ AreFewStrings words levels strings bytes }
{
    words < 1 << 57 && levels <= 256 && strings < 1 << 57 && bytes < 1 << 60
}

/// How many words the block of strings has.
pub(crate) fn block_len(words: usize, levels: usize, strings: usize, bytes: usize) -> usize
    requires { AreFewStrings words levels strings bytes }
    ensures { result ≡ end_of (sections_of words levels strings bytes) }
{
    32 + aligned(hash_len(words, levels)) + aligned(strings + 1) + aligned(bytes.div_ceil(8))
}

/// How many words the block of the given number of strings has, which have that many bytes together, and whose hash has
/// levels with that many words together; `None` exactly where there are 2^57 words or strings or more, more than 256
/// levels, or 2^60 bytes or more.
///
/// ```
/// size(1, 1, 3, 11);   // Some(112)
/// ```
pub fn size(words: usize, levels: usize, strings: usize, bytes: usize) -> Option<usize>
    ensures { SomeIff result (AreFewStrings words levels strings bytes)
        (end_of (sections_of words levels strings bytes)) }
{
    if !are_few(words, levels, strings, bytes) {
        return None;
    }
    Some(block_len(words, levels, strings, bytes))
}
