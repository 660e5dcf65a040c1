//! The view of a block of sparse bits, which may hold anything.
ghost use Rattle.std.specs.Prelude.{◌≡◌, ◌^◌, ◌<◌, SomeIff};
ghost use Rattle.sequence_block.specs.SparseBlock.{parts_of, sparse_in, IsSparseBlock};

use crate::open_as;
use elias_fano_view::SequenceView;
use std::marker::Model;

/// The kind of sparse bits.
pub const SPARSE_BITS: u64 = 4;

/// A view of sparse bits in a block whose header and directory are right.
///
/// Contracts see the parts of the sequence of the 1 bits' positions, and the number of bits. These may hold anything: a
/// call says its answer where they form sparse bits, and where they do not.
///
/// ```
/// let Some(bits) = SparseView::open(block.as_slice()) else { .. };
/// bits.rank(101);   // Found(2), Absent or Wrong
/// ```
#[derive(Drop)]
pub struct SparseView<'a> {
    pub(crate) positions: SequenceView<'a>,
    len: usize,
}

impl<'a> Model for SparseView<'a> {
    ghost use Rattle.sequence_block.specs.SparseBlock.{SparseParts};

    ghost Value = { SparseParts };

    ghost view = { λ v. record { positions = v.positions; len = v.len } };
}

impl<'a> SparseView<'a> {
    /// The sparse bits in a block; `None` exactly where the words are no block (`Block::open` says why), the block is
    /// of another kind, or a section has a length that does not fit the number of 1 bits. What the sections hold is not
    /// looked at.
    ///
    /// # Cost
    /// Header and directory are read, at most 80 words (evident from the code).
    ///
    /// ```
    /// SparseView::open(block.as_slice());   // Some(..)
    /// ```
    pub fn open(block: &'a [u64]) -> Option<SparseView<'a>>
        ensures { SomeIff result (IsSparseBlock block.now) (sparse_in block.now) }
    {
        let positions = open_as(SPARSE_BITS, block)?;
        Some(SparseView {
            positions,
            len: block[9] as usize,
        })
    }

    /// `len` sparse bits; these numbers are the positions of the 1 bits. What the numbers are is not looked at.
    ///
    /// ```
    /// SparseView::over(positions, 5000);   // of a SequenceView over 3, 100, 101, 4000
    /// ```
    #[inline(always)]
    pub fn over(positions: SequenceView<'a>, len: usize) -> SparseView<'a>
        ensures { result ≡ parts_of positions.entry len }
    {
        SparseView { positions, len }
    }

    /// How many bits there are, as the header says.
    ///
    /// ```
    /// bits.len();   // 5000
    /// ```
    #[inline(always)]
    pub fn len(&self) -> usize
        ensures { result ≡ self.now.len }
    {
        self.len
    }

    /// How many 1 bits there are, as the header says.
    ///
    /// ```
    /// bits.count_bit_ones();   // 4
    /// ```
    #[inline(always)]
    pub fn count_bit_ones(&self) -> usize
        ensures count { result ≡ self.now.positions.len }
        ensures short { result < 2 ^ 56 }
    {
        self.positions.len()
    }
}
