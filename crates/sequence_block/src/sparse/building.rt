//! The block of sparse bits, written into the caller's memory.
ghost use Rattle.std.specs.Prelude.{◌≡◌, ◌≢◌, ◌^◌, ◌<◌, ◌≤◌, ◌↔◌, IfErr, IfOk, IsErrOf, length};
ghost use Rattle.bitm_block.specs.Layout.{end_of};
ghost use Rattle.sequence_block.specs.Block.{sections_of};
ghost use Rattle.sparse_bits.specs.Positions.{AreBitPositions, HasNoRise, HasPast, Rises};
ghost use Rattle.sequence_block.specs.SparseBlock.{IsBlockOf};

use crate::sparse::error::BuildError;
use crate::sparse::view::SPARSE_BITS;
use crate::{build_as, size};
use elias_fano::building::largest_of;
use sparse_bits::{SparseError, check_positions};

/// Tests numbers that are to be the positions of the 1 bits among `len` bits.
fn check_ones(positions: &[u64], len: usize) -> Result<(), BuildError>
    ensures positions { IfOk result (λ _. AreBitPositions len 0 positions.now) }
    ensures short { IfOk result (λ _. length positions.now < 2 ^ 56) }
    ensures too_long { IsErrOf result BuildError.TooLong ↔ (2 ^ 56 ≤ length positions.now) }
    ensures not_rising { IsErrOf result BuildError.NotRising
        ↔ ((length positions.now < 2 ^ 56) × HasNoRise positions.now) }
    ensures past_end { IsErrOf result BuildError.PastEnd
        ↔ ((length positions.now < 2 ^ 56) × Rises positions.now × HasPast positions.now len) }
    ensures length { ¬ (IsErrOf result BuildError.WrongLength) }
{
    match check_positions(positions, len) {
        Ok(()) => Ok(()),
        Err(SparseError::TooLong) => Err(BuildError::TooLong),
        Err(SparseError::NotRising) => Err(BuildError::NotRising),
        Err(SparseError::PastEnd) => Err(BuildError::PastEnd),
        Err(SparseError::OutOfMemory) => unreachable!(),
    }
}

/// Writes the block of bits for which there is room, if the numbers are positions of 1 bits.
fn write_checked(positions: &[u64], len: usize, block: &mut [u64]) -> Result<(), BuildError>
    requires short { length positions.now < 2 ^ 56 }
    requires room { length block.old ≡ end_of (sections_of positions.now) }
    ensures lengths { ¬ (IsErrOf result BuildError.TooLong) × (¬ (IsErrOf result BuildError.WrongLength)) }
    ensures not_rising { IsErrOf result BuildError.NotRising ↔ HasNoRise positions.now }
    ensures past_end { IsErrOf result BuildError.PastEnd
        ↔ (Rises positions.now × HasPast positions.now len) }
    ensures block { IfOk result (λ _. IsBlockOf positions.now len block.new) }
    ensures kept { IfErr result (λ _. block.new ≡ block.old) }
{
    check_ones(positions, len)?;
    match build_as(SPARSE_BITS, len as u64, positions, block) {
        Ok(()) => Ok(()),
        Err(_) => unreachable!(),
    }
}

/// Writes the block of `len` bits, with 1 bits at the given positions alone. `SparseView::open` opens it and `check`
/// accepts it.
///
/// # Errors
/// `TooLong` exactly where there are 2^56 positions or more; else `WrongLength` exactly where the words are more or
/// fewer than the block takes (`size` of the number of positions and the last of them); else `NotRising` exactly where
/// some position is not greater than the one before it; else `PastEnd` exactly where some position is not less than
/// `len`. The words stay as they are then.
/// # Cost
/// Six passes over the positions, and three over the block, and a selection for each hint (evident from the code).
/// Nothing is allocated.
///
/// ```
/// let mut block = [0u64; 80];                                // size(4, 4000): Some(80)
/// build(&[3, 100, 101, 4000], 5000, block.as_mut_slice());   // Ok(())
/// build(&[3, 3], 5000, block.as_mut_slice());                // Err(BuildError::NotRising)
/// ```
pub fn build(positions: &[u64], len: usize, block: &mut [u64]) -> Result<(), BuildError>
    ensures too_long { IsErrOf result BuildError.TooLong ↔ (2 ^ 56 ≤ length positions.now) }
    ensures wrong_length { IsErrOf result BuildError.WrongLength ↔ ((length positions.now < 2 ^ 56)
        × (length block.old ≢ end_of (sections_of positions.now))) }
    ensures not_rising { IsErrOf result BuildError.NotRising ↔ ((length positions.now < 2 ^ 56)
        × (length block.old ≡ end_of (sections_of positions.now)) × HasNoRise positions.now) }
    ensures past_end { IsErrOf result BuildError.PastEnd ↔ ((length positions.now < 2 ^ 56)
        × (length block.old ≡ end_of (sections_of positions.now)) × Rises positions.now
        × HasPast positions.now len) }
    ensures block { IfOk result (λ _. IsBlockOf positions.now len block.new) }
    ensures kept { IfErr result (λ _. block.new ≡ block.old) }
{
    let Some(words) = size(positions.len(), largest_of(positions)) else {
        return Err(BuildError::TooLong);
    };
    if block.len() != words {
        return Err(BuildError::WrongLength);
    }
    write_checked(positions, len, block)
}
