//! The optional section of a block that has hints of its words.
ghost use Rattle.std.specs.Prelude.{◌≡◌};
ghost use Rattle.block_tables.specs.Hints.{hints_in, hints_with};

use bitm_block::Block;
use bitm_selection::hints_len;

/// The role of hints.
pub const HINTS: u64 = 22;

/// The words of section `at` where it is one of hints and has the given number of words; no words otherwise. They may
/// hold anything.
///
/// # Cost
/// One entry of the directory is read (evident from the code).
///
/// ```
/// hints_with(&block, 5, hints_room(40));   // of a matrix whose levels have 40 words
/// ```
#[inline]
pub fn hints_with<'a>(block: &Block<'a>, at: usize, len: usize) -> &'a [u64]
    ensures { result.now ≡ hints_with block.now at len }
{
    let Some(section) = block.entry(at) else {
        return &[];
    };
    if section.role != HINTS || section.count != len as u64 {
        return &[];
    }
    match block.section(at) {
        Some(hints) => hints,
        None => &[],
    }
}

/// The words of section `at` where it is one of hints and has the length for the given number of words with the given
/// number of 1 bits; no words otherwise. They may hold anything.
///
/// # Cost
/// One entry of the directory is read (evident from the code).
///
/// ```
/// hints_of(&block, 3, tree.len(), tree.words().len());   // of a tree: the section after its tables
/// ```
#[inline]
pub fn hints_of<'a>(block: &Block<'a>, at: usize, ones: usize, words: usize) -> &'a [u64]
    ensures { result.now ≡ hints_in block.now at ones words }
{
    hints_with(block, at, hints_len(ones, words))
}
