//! The view of a block of a hash with seeds, and a check of what the block holds.
ghost use Rattle.std.specs.Prelude.{◌≡◌, ◌↔◌, IsSome, IsTrue, SomeIff};
ghost use Rattle.hash_block.specs.Block.{IsHashBlock};
ghost use Rattle.hash_block.specs.SeededBlock.{seeded_in, seeds_in, HasSeededSections, IsSeededBlock, IsSoundBlock};

use crate::seeded::packed::PackedSeeds;
use crate::seeded::sections::SEEDS;
use crate::seeded::view::SeededView;
use crate::{HASH, HashView, SIZES};
use bitm_block::Block;
use block_tables::{as_entries, tables_of};

/// Whether a block is of the kind of a hash, and its first five sections are words, two tables, seeds and sizes.
#[inline(always)]
fn has_seeded(block: &Block<'_>) -> bool
    ensures { IsTrue result ↔ HasSeededSections block.now }
{
    block.is_of(HASH, [1, 2, 3, SEEDS, SIZES].as_slice())
}

/// The seeds in a block of a hash with seeds.
#[inline(always)]
#[tactic(auto, using(crate::proofs::MovedLemmas::seeds_words))]
fn seeds_of<'a>(block: &Block<'a>) -> PackedSeeds<'a>
    requires { HasSeededSections block.now }
    ensures { result ≡ seeds_in block.now }
{
    let count = block.words()[30] as usize;
    match block.section(3) {
        Some(words) => match PackedSeeds::over(words, count) {
            Some(seeds) => seeds,
            None => unreachable!(),
        },
        None => unreachable!(),
    }
}

/// The hash with seeds in a block; `None` exactly where the words are no block (`Block::open` says why), the block is
/// of another kind or has no seeds, a table has not the length that the words need, there is not a seed for each word,
/// or there are more than 256 levels. What the sections hold is not looked at: the queries of the view have no
/// condition on it. `hash_block::open` does not open such a block, nor this call one of a hash without seeds.
///
/// # Cost
/// Header and directory are read, at most 80 words (evident from the code).
///
/// ```
/// let Some(hash) = open(block.as_slice()) else { .. };
/// hash.get(9);   // Found(number), Absent or Wrong
/// ```
pub fn open(block: &[u64]) -> Option<SeededView<'_>>
    ensures view { SomeIff result (IsSeededBlock block.now) (seeded_in block.now) }
    ensures apart { IsSome result → ¬ (IsHashBlock block.now) }
{
    let Ok(opened) = Block::open(block) else {
        return None;
    };
    if !has_seeded(&opened) {
        return None;
    }
    let sizes = opened.section(4)?;
    let tables = tables_of(&opened)?;
    let hash = HashView::over(tables, as_entries(sizes), block[3] as usize, block[8])?;
    SeededView::over(hash, seeds_of(&opened))
}

/// Whether the block is opened, is as it was written, and holds a hash: then each number of the view is the hash's.
///
/// # Cost
/// Two passes over the words of the block (evident from the code).
///
/// ```
/// check(block.as_slice());   // true of a block that `build` wrote
/// ```
pub fn check(block: &[u64]) -> bool
    ensures { IsTrue result ↔ IsSoundBlock block.now }
{
    match (open(block), Block::open(block)) {
        (Some(hash), Ok(opened)) => opened.verify() && hash.check(),
        _ => false,
    }
}
