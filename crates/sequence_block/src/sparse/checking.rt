//! A check of what a block of sparse bits holds.
ghost use Rattle.std.specs.Prelude.{◌↔◌, IsTrue, List, ℕ};
ghost use Rattle.elias_fano.specs.SequenceParts.{Holds};
ghost use Rattle.sparse_bits.specs.Positions.{AreBitPositions};
ghost use Rattle.sequence_block.specs.SparseBlock.{IsSoundBlock};

use crate::check_as;
use crate::sparse::view::{SPARSE_BITS, SparseView};
use bitm_tables::answer::Answer;
use elias_fano_view::SequenceView;

/// Whether each number of a sequence is greater than the one before it, and less than `end`.
fn rise_below(numbers: &SequenceView<'_>, end: u64) -> bool
    ensures { (xs : List ℕ) → Holds xs numbers.now → IsTrue result ↔ AreBitPositions end 0 xs }
{
    if numbers.len() == 0 {
        return true;
    }
    let Answer::Found(last) = numbers.get(numbers.len() - 1) else {
        return false;
    };
    if last >= end {
        return false;
    }
    numbers.is_strictly_rising()
}

/// Whether the block is opened, is as it was written, and holds sparse bits: then each answer of the view is what
/// counting gives.
///
/// # Cost
/// Five passes over the words of the block, and a selection for each hint and one more (evident from the code).
///
/// ```
/// check(block.as_slice());   // true of a block that `build` wrote
/// ```
pub fn check(block: &[u64]) -> bool
    ensures { IsTrue result ↔ IsSoundBlock block.now }
{
    if !check_as(SPARSE_BITS, block) {
        return false;
    }
    match SparseView::open(block) {
        Some(view) => rise_below(&view.positions, view.len() as u64),
        None => false,
    }
}
