//! The hints of a matrix: in a block, and of how many 1 bits they are.
ghost use Rattle.std.specs.Prelude.{◌≡◌, ◌<◌, length};
ghost use Rattle.bitm_block.specs.Header.{count_in};
ghost use Rattle.bitm_selection.specs.Hints.{hints_room};
ghost use Rattle.block_tables.specs.Hints.{hints_with};
ghost use Rattle.matrix_block.specs.Block.{has_quarters, hints_index, ones_by_counts};

use crate::sections::QUARTERS;
use bitm_block::Block;
use bitm_selection::hints_room;
use block_tables::hints_with;

/// Whether a block's sixth section is that of quarters.
#[inline(always)]
pub(crate) fn has_quarters(block: &Block<'_>) -> bool
    ensures { result ≡ has_quarters block.now }
{
    let words = block.words();
    words[11] >= 6 && words[36] == QUARTERS
}

/// The hints in a block whose levels have the given number of words, none where it has no such section.
#[inline(always)]
pub(crate) fn hints_of<'a>(block: &Block<'a>, words: usize) -> &'a [u64]
    ensures { result.now ≡ hints_with block.now (hints_index block.now) (hints_room words) }
{
    let at = if has_quarters(block) { 6 } else { 5 };
    hints_with(block, at, hints_room(words))
}

/// How many 1 bits the tables of the levels of `len` numbers say that there are.
#[inline(always)]
pub(crate) fn ones_by_counts(len: usize, ones: &[u64], zeros: &[u64]) -> usize
    requires ones { 0 < length ones.now }
    requires zeros { 0 < length zeros.now }
    ensures { result ≡ ones_by_counts len ones.now zeros.now }
{
    let before = ones[ones.len() - 1] as usize;
    let own = len.saturating_sub(zeros[zeros.len() - 1] as usize);
    before.saturating_add(own)
}
