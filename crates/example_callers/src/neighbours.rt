//! The run of 1 bits around a position, and the members of a range, from rank and selection.
ghost use Rattle.std.specs.Prelude.{◌≡◌, ℕ, ◌+◌, ◌<◌, ◌≤◌, MatchOption, length, true};
ghost use Rattle.bitm.specs.Bits.{item};
ghost use Rattle.bitm.specs.Count.{ones_before};

use bitm::{Rank, Select, Select0, ranges};

/// The run of 1 bits that has position `position`: its first position, and the position after its last.
///
/// # Conditions
/// There is a one at `position`.
pub fn run_of_ones<I: Rank + Select0>(index: &I, position: usize) -> (usize, usize)
    requires inside { position < length (I.bits index.now) }
    requires one { item (I.bits index.now) position ≡ true }
    ensures around { (result.0 ≤ position) × (position < result.1) }
    ensures ones { (i : ℕ) → result.0 ≤ i → i < result.1 → item (I.bits index.now) i ≡ true }
{
    let start = match ranges::previous_zero(index, position) {
        Some(zero) => zero + 1,
        None => 0,
    };
    let end = match ranges::next_zero(index, position) {
        Some(zero) => zero,
        None => index.len(),
    };
    (start, end)
}

/// The member in the middle of the members from `from` up to `to`, and how many these are; `None` exactly where there
/// is none.
///
/// # Conditions
/// `from` is no more than `to`, and there are at least `to` bits.
pub fn middle<I: Rank + Select>(set: &I, from: usize, to: usize) -> Option<(usize, usize)>
    requires order { from ≤ to }
    requires inside { to ≤ length (I.bits set.now) }
    ensures { let bits = I.bits set.now in
        MatchOption result (ones_before bits from ≡ ones_before bits to)
        (λ found. (ones_before bits from + found.1 ≡ ones_before bits to)
        × (from ≤ found.0) × (found.0 < to) × (item bits found.0 ≡ true)) }
{
    let count = ranges::ones_between(set, from, to);
    if count == 0 {
        return None;
    }
    match ranges::select_from(set, from, count / 2) {
        Some(member) => Some((member, count)),
        None => unreachable!(),
    }
}
