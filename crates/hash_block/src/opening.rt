//! The view of a block of a hash, and a check of what the block holds.
ghost use Rattle.std.specs.Prelude.{◌↔◌, IsTrue, SomeIff};
ghost use Rattle.hash_block.specs.Block.{hash_in, HasHashSections, IsHashBlock, IsSoundBlock};

use crate::sections::{HASH, SIZES};
use crate::view::HashView;
use bitm_block::Block;
use block_tables::{as_entries, tables_of};

/// Whether a block is of the kind of a hash, and its first four sections are words, two tables and sizes.
#[inline(always)]
fn has_hash(block: &Block<'_>) -> bool
    ensures { IsTrue result ↔ HasHashSections block.now }
{
    block.is_of(HASH, [1, 2, 3, SIZES].as_slice())
}

/// The hash in a block; `None` exactly where the words are no block (`Block::open` says why), the block is of another
/// kind, a table has not the length that the words need, or there are more than 256 levels. What the sections hold is
/// not looked at: the queries of the view have no condition on it.
///
/// # Cost
/// Header and directory are read, at most 80 words (evident from the code).
///
/// ```
/// let Some(hash) = open(block.as_slice()) else { .. };
/// hash.get(9);   // Found(number), Absent or Wrong
/// ```
pub fn open(block: &[u64]) -> Option<HashView<'_>>
    ensures { SomeIff result (IsHashBlock block.now) (hash_in block.now) }
{
    let Ok(opened) = Block::open(block) else {
        return None;
    };
    if !has_hash(&opened) {
        return None;
    }
    let sizes = opened.section(3)?;
    let tables = tables_of(&opened)?;
    HashView::over(tables, as_entries(sizes), block[3] as usize, block[8])
}

/// Whether the block is opened, is as it was written, and holds a hash: then each number of the view is the hash's.
///
/// # Cost
/// Two passes over the words of the block (evident from the code).
///
/// ```
/// check(block.as_slice());   // true of a block that `build` wrote
/// ```
pub fn check(block: &[u64]) -> bool
    ensures { IsTrue result ↔ IsSoundBlock block.now }
{
    match (open(block), Block::open(block)) {
        (Some(hash), Ok(opened)) => opened.verify() && hash.check(),
        _ => false,
    }
}
