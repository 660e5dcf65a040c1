//! Words and their tables as the first three sections of a block.
ghost use Rattle.std.specs.Prelude.{◌≡◌, ◌≤◌, ◌<◌, ◌^◌, ◌↔◌, IsTrue, SomeIff};
ghost use Rattle.bitm_block.specs.Header.{count_in};
ghost use Rattle.bitm_tables.specs.Tables.{HasSizes};
ghost use Rattle.block_tables.specs.Sections.{table_sections, tables_in, HasTableSections};

use crate::entries::as_entries;
use bitm_block::{Block, Section};
use tables_view::{TablesView, lower_len, upper_len};

/// The sections of the given number of words: these, their upper and their lower table.
///
/// ```
/// table_sections(40);   // 40 words, 1 upper entry, 2 lower entries
/// ```
pub fn table_sections(words: usize) -> [Section; 3]
    ensures { result ≡ table_sections words }
{
    [
        Section::of(1, words),
        Section::of(2, upper_len(words)),
        Section::of(3, lower_len(words)),
    ]
}

/// Whether a block is of a kind, and its first three sections are words, an upper and a lower table.
///
/// ```
/// has_tables(&block, 2);   // true of the block of bits
/// ```
#[inline(always)]
pub fn has_tables(block: &Block<'_>, kind: u64) -> bool
    ensures { IsTrue result ↔ HasTableSections kind block.now }
{
    block.is_of(kind, [1u64, 2, 3].as_slice())
}

/// The first three sections of a block, words with two tables, which may hold anything; `None` exactly where there are
/// 2^58 words or more, or a table has not the length that these need.
///
/// # Conditions
/// The block has three sections.
/// # Cost
/// Their entries in the directory are read (evident from the code).
///
/// ```
/// let Some(tables) = tables_of(&block) else { .. };
/// tables.check();   // true where they are the tables of the words
/// ```
#[inline]
pub fn tables_of<'a>(block: &Block<'a>) -> Option<TablesView<'a>>
    requires { 3 ≤ count_in block.now }
    ensures { SomeIff result (HasSizes (tables_in block.now)) (tables_in block.now) }
{
    match (block.section(0), block.section(1), block.section(2)) {
        (Some(words), Some(upper), Some(lower)) => TablesView::over(
            words,
            as_entries(upper),
            lower,
        ),
        _ => unreachable!(),
    }
}
