//! Sparse bits in a block as C passes them, and as the library queries them.
ghost use Rattle.std.specs.Prelude.{SomeIff};
ghost use Rattle.bitm_abi.specs.Sequence.{IsSequenceSized};
ghost use Rattle.bitm_numbers_c.specs.Sparse.{sparse_parts};

use bitm_abi::Sequence;
use sequence_block::sparse::SparseView;

/// Sparse bits in the caller's memory: the positions of the 1 bits as a sequence, how many bits there are, and room.
#[repr(C)]
#[derive(Clone, Copy)]
pub struct Sparse<'a> {
    /// The positions of the 1 bits.
    pub positions: Sequence<'a>,
    /// The number of bits.
    pub bits_len: usize,
    /// Room for later versions; this one does not read it.
    pub reserved: [u64; 2],
}

impl<'a> Sparse<'a> {
    /// The bits as the library queries them; `None` exactly where a length of the sequence is not right.
    #[inline(always)]
    pub(crate) fn view(&self) -> Option<SparseView<'a>>
        ensures { SomeIff result (IsSequenceSized self.now.positions) (sparse_parts self.now) }
    {
        let positions = self.positions.borrowed()?;
        Some(SparseView::over(positions, self.bits_len))
    }
}
