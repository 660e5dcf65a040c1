//! The block of sparse bits: how many words it takes, writing it, opening it and checking it.
ghost use Rattle.std.specs.Prelude.{◌≡◌, ◌≢◌, ◌^◌, ◌<◌, ◌↔◌, ◌⊎◌, length};
ghost use Rattle.bitm_block.specs.Layout.{end_of};
ghost use Rattle.elias_fano_view.specs.Sizes.{IsLargest};
ghost use Rattle.sequence_block.specs.Block.{sections_of, sequence_sections};
ghost use Rattle.sparse_bits.specs.Positions.{HasNoRise, HasPast, Rises};
ghost use Rattle.sequence_block.specs.SparseBlock.{sparse_in, CanHold, IsBlockOf, IsSoundBlock, IsSparseBlock};
ghost use Rattle.bitm_numbers_c.specs.Sparse.{sparse_parts};

use crate::sequence_blocks::sequence_at;
use crate::sparse::Sparse;
use bitm_abi::{BAD_SIZE, OK, UNSORTED, WRONG};
use bitm_block::Block;
use sequence_block::size;
use sequence_block::sparse::{BuildError, SparseView, build, check};

/// Writes how many words the block of `ones` 1 bits takes, where the last 1 bit is at position `last`.
#[unsafe(no_mangle)]
pub extern "C" fn bitm_sparse_size(ones: usize, last: u64, out: &mut usize) -> u32
    ensures ok { (result ≡ 0) ↔ IsLargest ones last }
    ensures size { result ≡ 0 → out.new ≡ end_of (sequence_sections ones last) }
    ensures kept { result ≢ 0 → (result ≡ 2) × (out.new ≡ out.old) }
{
    match size(ones, last) {
        Some(words) => {
            *out = words;
            OK
        }
        None => BAD_SIZE,
    }
}

/// Writes the block of `bits_len` bits, with 1 bits at the given positions alone.
#[unsafe(no_mangle)]
pub extern "C" fn bitm_sparse_build(positions: &[u64], bits_len: usize, block: &mut [u64]) -> u32
    ensures ok { (result ≡ 0) ↔ CanHold positions.now bits_len block.old }
    ensures unsorted { (result ≡ 4) ↔ ((length positions.now < 2 ^ 56)
        × (length block.old ≡ end_of (sections_of positions.now)) × HasNoRise positions.now) }
    ensures wrong { (result ≡ 3) ↔ ((length positions.now < 2 ^ 56)
        × (length block.old ≡ end_of (sections_of positions.now)) × Rises positions.now
        × HasPast positions.now bits_len) }
    ensures status { (result ≡ 0) ⊎ (result ≡ 2) ⊎ (result ≡ 3) ⊎ (result ≡ 4) }
    ensures block { result ≡ 0 → IsBlockOf positions.now bits_len block.new }
    ensures kept { result ≢ 0 → block.new ≡ block.old }
{
    match build(positions, bits_len, block) {
        Ok(()) => OK,
        Err(BuildError::TooLong) => BAD_SIZE,
        Err(BuildError::WrongLength) => BAD_SIZE,
        Err(BuildError::NotRising) => UNSORTED,
        Err(BuildError::PastEnd) => WRONG,
    }
}

/// Opens a block: writes the bits that queries take. What the words and tables hold is not looked at.
#[unsafe(no_mangle)]
pub extern "C" fn bitm_sparse_open<'a>(block: &'a [u64], sparse: &mut Sparse<'a>) -> u32
    ensures ok { (result ≡ 0) ↔ IsSparseBlock block.now }
    ensures bits { result ≡ 0 → sparse_parts sparse.new ≡ sparse_in block.now }
    ensures kept { result ≢ 0 → (result ≡ 3) × (sparse.new ≡ sparse.old) }
{
    match (SparseView::open(block), Block::open(block)) {
        (Some(view), Ok(opened)) => {
            *sparse = Sparse {
                positions: sequence_at(&opened),
                bits_len: view.len(),
                reserved: [0; 2],
            };
            OK
        }
        _ => WRONG,
    }
}

/// Whether a block is as it was written, and holds sparse bits: five passes over its words, and a selection for each
/// hint and one more.
#[unsafe(no_mangle)]
pub extern "C" fn bitm_sparse_check(block: &[u64]) -> u32
    ensures ok { (result ≡ 0) ↔ IsSoundBlock block.now }
    ensures status { (result ≡ 0) ⊎ (result ≡ 3) }
{
    if check(block) { OK } else { WRONG }
}
