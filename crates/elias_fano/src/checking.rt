//! Which numbers are a sequence.
ghost use Rattle.std.specs.Prelude.{◌^◌, ◌<◌, ◌≤◌, ◌↔◌, IsErrOf, IfOk, length};
ghost use Rattle.std.specs.Bool.{MatchBool};
ghost use Rattle.std.specs.List.Sorted.{IsNonDecreasing};
ghost use Rattle.elias_fano.specs.Sequence.{HasFall};

use crate::error::EfError;

/// As many numbers as a sequence cannot have.
const TOO_MANY: usize = 1 << 56;

/// Whether each number is at least the one before it.
pub fn is_rising(items: &[u64]) -> bool
    ensures { MatchBool result (IsNonDecreasing items.now) (HasFall items.now) }
{
    items.is_sorted()
}

/// Tests numbers that are to be a sequence.
///
/// # Errors
/// `TooLong` exactly where there are 2^56 numbers or more; else `NotSorted` exactly where some number is less than the
/// one before it.
pub(crate) fn check(items: &[u64]) -> Result<(), EfError>
    ensures short { IfOk result (λ _. length items.now < 2 ^ 56) }
    ensures rising { IfOk result (λ _. IsNonDecreasing items.now) }
    ensures too_long { IsErrOf result EfError.TooLong ↔ (2 ^ 56 ≤ length items.now) }
    ensures not_sorted { IsErrOf result EfError.NotSorted
        ↔ ((length items.now < 2 ^ 56) × HasFall items.now) }
{
    if items.len() >= TOO_MANY {
        return Err(EfError::TooLong);
    }
    if !is_rising(items) {
        return Err(EfError::NotSorted);
    }
    Ok(())
}
