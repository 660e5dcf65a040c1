//! The view of a block of strings, and a check of what the block holds.
ghost use Rattle.std.specs.Prelude.{◌↔◌, IsTrue, SomeIff};
ghost use Rattle.hash_block.specs.StringsBlock.{strings_in, HasStringSections, IsSoundBlock, IsStringBlock};

use crate::strings::kinds::is_string_kind;
use crate::strings::sections::{BYTES, HASH_BLOCK, STARTS};
use crate::strings::view::StringsView;
use bitm_block::{Block, is_verified};

/// Whether a block is of a kind of strings, and its first three sections are the block of a hash, starts and bytes.
#[inline(always)]
fn has_strings(block: &Block<'_>) -> bool
    ensures { IsTrue result ↔ HasStringSections block.now }
{
    let words = block.words();
    if !is_string_kind(words[1]) || words[11] < 3 {
        return false;
    }
    words[16] == HASH_BLOCK && words[20] == STARTS && words[24] == BYTES
}

/// The strings in a block; `None` exactly where the words are no block (`Block::open` says why), the block is of
/// another kind, its first section is no block of a hash (`hash_block::open`), this has not as many keys as the header
/// says, or there is not one start more. What the sections hold is not looked at: the queries of the view have no
/// condition on it.
///
/// # Cost
/// Headers and directories are read, at most 160 words (evident from the code).
///
/// ```
/// let Some(names) = open(block.as_slice()) else { .. };
/// names.find(b"ada".as_slice());   // Found(number), Absent or Wrong
/// ```
pub fn open(block: &[u64]) -> Option<StringsView<'_>>
    ensures { SomeIff result (IsStringBlock block.now) (strings_in block.now) }
{
    let Ok(opened) = Block::open(block) else {
        return None;
    };
    if !has_strings(&opened) {
        return None;
    }
    let hash = crate::open(opened.section(0)?)?;
    if block[3] as usize != hash.keys() {
        return None;
    }
    StringsView::over(block[1], hash, opened.section(1)?, opened.section(2)?)
}

/// Whether the block is opened, is as it was written, and holds strings: then `find` answers by these.
///
/// # Cost
/// A pass over the words of the block, and `StringsView::check` (evident from the code).
///
/// ```
/// check(block.as_slice());   // true of a block that `build` wrote
/// ```
pub fn check(block: &[u64]) -> bool
    ensures { IsTrue result ↔ IsSoundBlock block.now }
{
    match open(block) {
        Some(strings) => is_verified(block) && strings.check(),
        None => false,
    }
}
