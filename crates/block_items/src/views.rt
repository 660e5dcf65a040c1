//! The views of blocks that have items.
ghost use Rattle.std.specs.Prelude.{◌≡◌};
ghost use Rattle.elias_fano.specs.SequenceParts.{Holds};
ghost use Rattle.matrix_block.specs.Block.{items_in, HoldsMatrix};
ghost use Rattle.sequence_block.specs.SparseBlock.{HoldsOnes};

use crate::items::HasItems;
use bitm_tables::answer::Answer;
use elias_fano_view::SequenceView;
use matrix_block::MatrixView;
use sequence_block::sparse::SparseView;

/// The numbers of a sequence; each takes one selection.
impl<'a> HasItems for SequenceView<'a> {
    ghost holds = { Holds };

    ghost announced = { λ parts. parts.len };

    #[inline]
    fn announced(&self) -> usize {
        self.len()
    }

    #[inline]
    fn item(&self, index: usize) -> Answer<u64> {
        self.get(index)
    }
}

/// The positions of the 1 bits; each takes one selection.
impl<'a> HasItems for SparseView<'a> {
    ghost holds = { HoldsOnes };

    ghost announced = { λ parts. parts.positions.len };

    #[inline]
    fn announced(&self) -> usize {
        self.count_bit_ones()
    }

    #[inline]
    fn item(&self, index: usize) -> Answer<u64> {
        match self.select(index) {
            Answer::Found(position) => Answer::Found(position as u64),
            Answer::Absent => Answer::Absent,
            Answer::Wrong => Answer::Wrong,
        }
    }
}

/// The numbers of a matrix; each takes a rank on each level.
impl<'a> HasItems for MatrixView<'a> {
    ghost holds = { λ xs parts. HoldsMatrix parts × (xs ≡ items_in parts) };

    ghost announced = { λ parts. parts.levels.len };

    #[inline]
    fn announced(&self) -> usize {
        self.len()
    }

    #[inline]
    fn item(&self, index: usize) -> Answer<u64> {
        self.get(index)
    }
}
