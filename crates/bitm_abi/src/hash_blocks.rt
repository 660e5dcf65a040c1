//! A hash in a block as C passes it, and as the library queries it.
ghost use Rattle.std.specs.Prelude.{◌≡◌, ◌*◌, ◌<◌, ◌≤◌, length, SomeIff};
ghost use Rattle.bitm_tables.specs.Tables.{HasSizes};
ghost use Rattle.bitm_block.specs.Header.{count_in, section_in};
ghost use Rattle.block_tables.specs.Sections.{tables_in};
ghost use Rattle.hash_block.specs.Block.{hash_in};
ghost use Rattle.hash_block.specs.Parts.{HasLengths};
ghost use Rattle.bitm_abi.specs.Hash.{hash_lists};
ghost use Rattle.bitm_abi.specs.HashBlock.{hash_parts};
ghost use Rattle.bitm_abi.specs.Samples.{HasNoSamples};

use crate::hash::Hash;
use crate::index::Index;
use crate::samples::Samples;
use bitm_block::Block;
use block_tables::as_entries;
use hash_block::HashView;

/// A hash and the seed by which its keys are hashed, as the library queries them; `None` exactly where a length is not
/// right.
#[inline(always)]
pub fn hash_view<'a>(hash: &Hash<'a>, seed: u64) -> Option<HashView<'a>>
    ensures { SomeIff result (HasLengths (hash_parts hash.now seed)) (hash_parts hash.now seed) }
{
    let tables = hash.borrowed()?;
    HashView::over(tables, hash.sizes, hash.keys, seed)
}

/// The hash over the first three sections of a block and the sizes in section `i`, whose index has no samples.
///
/// # Conditions
/// The block has these sections, and the lengths of the tables fit the words.
#[inline(always)]
pub fn hash_at<'a>(block: &Block<'a>, i: usize) -> Hash<'a>
    requires three { 3 ≤ count_in block.now }
    requires inside { i < count_in block.now }
    requires sized { HasSizes (tables_in block.now) }
    ensures lists { hash_lists result ≡ tables_in block.now }
    ensures bits { result.index.bits_len ≡ 64 * length (section_in block.now 0) }
    ensures ones { HasNoSamples result.index.ones }
    ensures zeros { HasNoSamples result.index.zeros }
    ensures sizes { result.sizes.now ≡ section_in block.now i }
    ensures keys { result.keys ≡ (hash_in block.now).keys }
{
    match (
        block.section(0),
        block.section(1),
        block.section(2),
        block.section(i),
    ) {
        (Some(words), Some(upper), Some(lower), Some(sizes)) => Hash {
            index: Index {
                words,
                upper: as_entries(upper),
                lower,
                bits_len: 64 * words.len() as u64,
                ones: Samples::none(),
                zeros: Samples::none(),
                reserved: [0; 2],
            },
            sizes: as_entries(sizes),
            keys: block.head().len as usize,
        },
        _ => unreachable!(),
    }
}
