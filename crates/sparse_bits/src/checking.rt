//! Which numbers are positions of 1 bits.
ghost use Rattle.std.specs.Prelude.{◌≡◌, ◌^◌, ◌<◌, ◌≤◌, ◌↔◌, IsErrOf, IfOk, IsTrue, length};
ghost use Rattle.std.specs.Bool.{MatchBool};
ghost use Rattle.sparse_bits.specs.Positions.{AreBitPositions, HasNoRise, HasPast, Rises};

use crate::error::SparseError;

/// As many 1 bits as sparse bits cannot have.
pub(crate) const TOO_MANY: usize = 1 << 56;

/// Whether each number is greater than the one before it.
fn rises(numbers: &[u64]) -> bool
    ensures { MatchBool result (Rises numbers.now) (HasNoRise numbers.now) }
{
    for at in 1..numbers.len() {
        if numbers[at] <= numbers[at - 1] {
            return false;
        }
    }
    true
}

/// Whether each of rising numbers is less than `end`.
fn ends_below(numbers: &[u64], end: usize) -> bool
    requires { Rises numbers.now }
    ensures { MatchBool result (AreBitPositions end 0 numbers.now) (HasPast numbers.now end) }
{
    match numbers.last() {
        Some(last) => *last < end as u64,
        None => true,
    }
}

/// Tests numbers that are to be the positions of the 1 bits among `len` bits.
///
/// # Errors
/// `TooLong` exactly where there are 2^56 numbers or more; else `NotRising` exactly where some number is not greater
/// than the one before it; else `PastEnd` exactly where some number is not less than `len`.
/// # Cost
/// One pass over the positions (evident from the code).
///
/// ```
/// check_positions(&[3, 100, 101, 4000], 5000);   // Ok(())
/// check_positions(&[3, 3], 5000);                // Err(SparseError::NotRising)
/// ```
pub fn check_positions(positions: &[u64], len: usize) -> Result<(), SparseError>
    ensures positions { IfOk result (λ _. AreBitPositions len 0 positions.now) }
    ensures short { IfOk result (λ _. length positions.now < 2 ^ 56) }
    ensures too_long { IsErrOf result SparseError.TooLong ↔ (2 ^ 56 ≤ length positions.now) }
    ensures not_rising { IsErrOf result SparseError.NotRising
        ↔ ((length positions.now < 2 ^ 56) × HasNoRise positions.now) }
    ensures past_end { IsErrOf result SparseError.PastEnd
        ↔ ((length positions.now < 2 ^ 56) × Rises positions.now × HasPast positions.now len) }
    ensures memory { ¬ (IsErrOf result SparseError.OutOfMemory) }
{
    if positions.len() >= TOO_MANY {
        return Err(SparseError::TooLong);
    }
    if !rises(positions) {
        return Err(SparseError::NotRising);
    }
    if !ends_below(positions, len) {
        return Err(SparseError::PastEnd);
    }
    Ok(())
}
