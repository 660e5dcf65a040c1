//! The view of a block of a sequence, and a check of what the block holds.
ghost use Rattle.std.specs.Prelude.{◌↔◌, IsTrue, SomeIff};
ghost use Rattle.sequence_block.specs.Block.{sequence_in, HasSequenceSections, IsSequenceBlock, IsSoundBlock};
ghost use Rattle.sequence_block.specs.Block.{IsBlockOfKind, IsSoundOfKind};

use crate::sections::SEQUENCE;
use bitm_block::Block;
use block_tables::{hints_of, tables_of};
use elias_fano_view::SequenceView;

/// Whether a block is of a kind, and its first four sections are words, two tables and low bits.
#[inline(always)]
fn has_sequence(block: &Block<'_>, kind: u64) -> bool
    ensures { IsTrue result ↔ HasSequenceSections kind block.now }
{
    block.is_of(kind, [1u64, 2, 3, 9].as_slice())
}

/// The sequence in a block; `None` exactly where the words are no block (`Block::open` says why), the block is of
/// another kind, or a section has a length that does not fit the number of numbers. What the sections hold is not
/// looked at: the queries of the view have no condition on it. The view has the hints that a fifth section of the role
/// `HINTS` holds; where there is none, or it is not as long as the hints of the words, it has none.
///
/// # Cost
/// Header and directory are read, at most 80 words (evident from the code).
///
/// ```
/// let Some(primes) = open(block.as_slice()) else { .. };
/// primes.get(4);   // Found(11), Absent or Wrong
/// ```
pub fn open(block: &[u64]) -> Option<SequenceView<'_>>
    ensures { SomeIff result (IsSequenceBlock block.now) (sequence_in block.now) }
{
    open_as(SEQUENCE, block)
}

/// The sequence in a block of another kind, whose first four sections hold a sequence; else as `open`.
///
/// # Cost
/// The cost of `open`.
///
/// ```
/// open_as(SEQUENCE, block.as_slice());   // as open(block.as_slice())
/// ```
#[inline(always)]
pub fn open_as(kind: u64, block: &[u64]) -> Option<SequenceView<'_>>
    ensures { SomeIff result (IsBlockOfKind kind block.now) (sequence_in block.now) }
{
    let Ok(opened) = Block::open(block) else {
        return None;
    };
    if !has_sequence(&opened, kind) || block[4] > 63 {
        return None;
    }
    let low = opened.section(3)?;
    let tables = tables_of(&opened)?;
    let len = block[3] as usize;
    let hints = hints_of(&opened, 4, len, tables.words().len());
    SequenceView::over(len, block[4] as u8, low, tables)?.with_hints(hints)
}

/// Whether the block is opened, is as it was written, and holds the parts of a sequence: then each answer of the view
/// agrees with the sequence.
///
/// # Cost
/// Three passes over the words of the block, and a selection for each hint (evident from the code).
///
/// ```
/// check(block.as_slice());   // true of a block that `build` wrote
/// ```
pub fn check(block: &[u64]) -> bool
    ensures { IsTrue result ↔ IsSoundBlock block.now }
{
    check_as(SEQUENCE, block)
}

/// As `check`, of a block of another kind, whose first four sections hold a sequence.
///
/// # Cost
/// The cost of `check`.
///
/// ```
/// check_as(SEQUENCE, block.as_slice());   // as check(block.as_slice())
/// ```
pub fn check_as(kind: u64, block: &[u64]) -> bool
    ensures { IsTrue result ↔ IsSoundOfKind kind block.now }
{
    // By reference, and opened inline: to move a view C's `memcpy` is called, which the archive does without.
    match (&open_as(kind, block), Block::open(block)) {
        (Some(sequence), Ok(opened)) => opened.verify() && sequence.check(),
        _ => false,
    }
}
