//! The sections of the block of a hash with seeds.
ghost use Rattle.std.specs.Prelude.{◌≡◌, ◌^◌, ◌<◌, ◌≤◌, SomeIff};
ghost use Rattle.bitm_block.specs.Layout.{end_of};
ghost use Rattle.hash_block.specs.Block.{AreFew};
ghost use Rattle.hash_block.specs.SeededBlock.{seeded_sections};

use crate::{LEVELS, SIZES};
use bitm_block::{Section, aligned};
use tables_view::{lower_len, upper_len};

/// The role of seeds.
pub(crate) const SEEDS: u64 = 15;

/// The sections of levels: their words, the two tables of these, a seed for each word, and the sizes.
pub(crate) fn seeded_sections(words: usize, levels: usize) -> [Section; 5]
    ensures { result ≡ seeded_sections words levels }
{
    [
        Section::of(1, words),
        Section::of(2, upper_len(words)),
        Section::of(3, lower_len(words)),
        Section::of(SEEDS, words),
        Section::of(SIZES, levels),
    ]
}

/// How many words the block of a hash has, whose levels have that many words together, with a seed for each; `None`
/// exactly where there are 2^58 words or more, or more than 256 levels.
///
/// ```
/// size(1, 1);   // Some(80)
/// ```
pub fn size(words: usize, levels: usize) -> Option<usize>
    ensures { SomeIff result (AreFew words levels) (end_of (seeded_sections words levels)) }
{
    if words >= 1 << 58 || levels > LEVELS {
        return None;
    }
    Some(block_len(words, levels))
}

/// How many words the block of a hash with seeds has.
pub(crate) fn block_len(words: usize, levels: usize) -> usize
    requires short { words < 2 ^ 58 }
    requires few { levels ≤ 256 }
    ensures len { result ≡ end_of (seeded_sections words levels) }
    ensures most { result < 2 ^ 60 }
{
    let tables = aligned(words) + aligned(upper_len(words)) + aligned(lower_len(words));
    40 + tables + aligned(words.div_ceil(8)) + aligned(levels)
}
