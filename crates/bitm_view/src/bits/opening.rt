//! The view of a block of bits, and a check of what the block holds.
ghost use Rattle.std.specs.Prelude.{◌↔◌, IsTrue, SomeIff};
ghost use Rattle.bitm_view.specs.BitsBlock.{bits_in_block, IsBitsBlock, IsSoundBlock};

use crate::IndexView;
use crate::bits::sections::BITS;
use bitm_block::Block;
use block_tables::{has_tables, tables_of};

/// The bits in a block, without samples; `None` exactly where the words are no block (`Block::open` says why), the
/// block is of another kind, or a section has a length that does not fit the number of bits. What the sections hold is
/// not looked at: the queries of the view have no condition on it.
///
/// # Cost
/// Header and directory are read, at most 80 words (evident from the code).
///
/// ```
/// let Some(bits) = open(block.as_slice()) else { .. };
/// bits.rank::<1>(64);   // Found(count), Absent or Wrong
/// ```
#[tactic(auto, using(bitm::proofs::BitLaws::bits_are_counted))]
pub fn open(block: &[u64]) -> Option<IndexView<'_>>
    ensures { SomeIff result (IsBitsBlock block.now) (bits_in_block block.now) }
{
    let Ok(opened) = Block::open(block) else {
        return None;
    };
    if !has_tables(&opened, BITS) {
        return None;
    }
    let len = block[3] as usize;
    let tables = tables_of(&opened)?;
    if tables.words().len() != len.div_ceil(64) {
        return None;
    }
    IndexView::over(tables, len)
}

/// Whether the block is opened, is as it was written, and has the tables of its words: then each answer of the view is
/// what counting gives.
///
/// # Cost
/// Two passes over the block (evident from the code).
///
/// ```
/// check(block.as_slice());   // true of a block that `build` wrote
/// ```
pub fn check(block: &[u64]) -> bool
    ensures { IsTrue result ↔ IsSoundBlock block.now }
{
    match (open(block), Block::open(block)) {
        (Some(bits), Ok(opened)) => opened.verify() && bits.tables().check(),
        _ => false,
    }
}
