//! Queries made of ranks and selections, for any value that has them: counts in a range, the nearest bits of a
//! position, and selection from a position on.
ghost use Rattle.std.specs.Prelude.{◌≡◌, ◌+◌, ◌<◌, ◌≤◌, length, true, false};
ghost use Rattle.bit_lists.specs.Count.{ones_before, zeros_before};
ghost use Rattle.bitm.specs.Counted.{QueriesAtMost};
ghost use Rattle.bit_lists.specs.Count.{IsSelectFrom, MatchesFirstOne, MatchesFirstZero, MatchesLast};

use crate::counted::Counted;
use crate::queries::{Rank, Select, Select0};

/// `ones_between`, by two ranks in a value that counts them.
#[tactic(auto, using(bitm_bits::proofs::Callers::ones_grow))]
#[inline(always)]
fn ones_between_in<I: Rank>(counted: &mut Counted<'_, I>, start: usize, end: usize) -> usize
    requires order { start ≤ end }
    requires inside { end ≤ length (I.bits counted.old.value) }
    ensures answer { ones_before (I.bits counted.old.value) start + result
        ≡ ones_before (I.bits counted.old.value) end }
    ensures queries { QueriesAtMost counted.old counted.new 2 0 }
{
    let to_end = counted.rank(end);
    to_end - counted.rank(start)
}

/// The number of 1 bits from position `start` on and before position `end`.
///
/// # Conditions
/// `start` is at most `end`, and there are at least `end` bits.
/// # Cost
/// Two ranks.
#[inline(always)]
pub fn ones_between<I: Rank>(index: &I, start: usize, end: usize) -> usize
    requires order { start ≤ end }
    requires inside { end ≤ length (I.bits index.now) }
    ensures { ones_before (I.bits index.now) start + result ≡ ones_before (I.bits index.now) end }
{
    ones_between_in(&mut Counted::new(index), start, end)
}

/// `zeros_between`, by two ranks in a value that counts them.
#[tactic(auto, using(bitm_bits::proofs::Callers::zeros_grow))]
#[inline(always)]
fn zeros_between_in<I: Rank>(counted: &mut Counted<'_, I>, start: usize, end: usize) -> usize
    requires order { start ≤ end }
    requires inside { end ≤ length (I.bits counted.old.value) }
    ensures answer { zeros_before (I.bits counted.old.value) start + result
        ≡ zeros_before (I.bits counted.old.value) end }
    ensures queries { QueriesAtMost counted.old counted.new 2 0 }
{
    let to_end = counted.rank0(end);
    to_end - counted.rank0(start)
}

/// The number of 0 bits from position `start` on and before position `end`.
///
/// # Conditions
/// `start` is at most `end`, and there are at least `end` bits.
/// # Cost
/// Two ranks.
#[inline(always)]
pub fn zeros_between<I: Rank>(index: &I, start: usize, end: usize) -> usize
    requires order { start ≤ end }
    requires inside { end ≤ length (I.bits index.now) }
    ensures { zeros_before (I.bits index.now) start + result ≡ zeros_before (I.bits index.now) end }
{
    zeros_between_in(&mut Counted::new(index), start, end)
}

/// `next_one`, by one rank and one selection in a value that counts them.
#[tactic(auto, using(bit_lists::proofs::BitLaws::next_one_is_selected))]
#[inline(always)]
fn next_one_in<I: Rank + Select>(counted: &mut Counted<'_, I>, position: usize) -> Option<usize>
    requires { position ≤ length (I.bits counted.old.value) }
    ensures answer { MatchesFirstOne (I.bits counted.old.value) position result }
    ensures queries { QueriesAtMost counted.old counted.new 1 1 }
{
    let rank = counted.rank(position);
    counted.try_select(rank)
}

/// The position of the first 1 bit at `position` or after it; `None` exactly where there is none.
///
/// # Conditions
/// There are at least `position` bits.
/// # Cost
/// A rank and a selection.
#[inline(always)]
pub fn next_one<I: Rank + Select>(index: &I, position: usize) -> Option<usize>
    requires { position ≤ length (I.bits index.now) }
    ensures { MatchesFirstOne (I.bits index.now) position result }
{
    next_one_in(&mut Counted::new(index), position)
}

/// `next_zero`, by one rank and one selection in a value that counts them.
#[tactic(auto, using(bitm_bits::proofs::Callers::next_zero))]
#[inline(always)]
fn next_zero_in<I: Rank + Select0>(counted: &mut Counted<'_, I>, position: usize) -> Option<usize>
    requires { position ≤ length (I.bits counted.old.value) }
    ensures answer { MatchesFirstZero (I.bits counted.old.value) position result }
    ensures queries { QueriesAtMost counted.old counted.new 1 1 }
{
    let rank = counted.rank0(position);
    counted.try_select0(rank)
}

/// The position of the first 0 bit at `position` or after it; `None` exactly where there is none.
///
/// # Conditions
/// There are at least `position` bits.
/// # Cost
/// A rank and a selection.
#[inline(always)]
pub fn next_zero<I: Rank + Select0>(index: &I, position: usize) -> Option<usize>
    requires { position ≤ length (I.bits index.now) }
    ensures { MatchesFirstZero (I.bits index.now) position result }
{
    next_zero_in(&mut Counted::new(index), position)
}

/// `previous_one`, by one rank and one selection in a value that counts them.
#[tactic(auto, using(bitm_bits::proofs::Callers::last_one, bitm_bits::proofs::Callers::no_one_to, bitm_bits::proofs::Callers::ones_grow))]
#[inline(always)]
fn previous_one_in<I: Rank + Select>(counted: &mut Counted<'_, I>, position: usize) -> Option<usize>
    requires { position < length (I.bits counted.old.value) }
    ensures answer { MatchesLast (I.bits counted.old.value) true position result }
    ensures queries { QueriesAtMost counted.old counted.new 1 1 }
{
    // The number of bits fits `usize`, so `position + 1` does.
    let _len = counted.len();
    let count = counted.rank(position + 1);
    if count == 0 {
        None
    } else {
        Some(counted.select(count - 1))
    }
}

/// The position of the last 1 bit at `position` or before it; `None` exactly where there is none.
///
/// # Conditions
/// There are more than `position` bits.
/// # Cost
/// A rank and a selection.
#[inline(always)]
pub fn previous_one<I: Rank + Select>(index: &I, position: usize) -> Option<usize>
    requires { position < length (I.bits index.now) }
    ensures { MatchesLast (I.bits index.now) true position result }
{
    previous_one_in(&mut Counted::new(index), position)
}

/// `previous_zero`, by one rank and one selection in a value that counts them.
#[tactic(auto, using(bitm_bits::proofs::Callers::last_zero, bitm_bits::proofs::Callers::no_zero_to, bitm_bits::proofs::Callers::zeros_grow))]
#[inline(always)]
fn previous_zero_in<I: Rank + Select0>(
    counted: &mut Counted<'_, I>,
    position: usize,
) -> Option<usize>
    requires { position < length (I.bits counted.old.value) }
    ensures answer { MatchesLast (I.bits counted.old.value) false position result }
    ensures queries { QueriesAtMost counted.old counted.new 1 1 }
{
    // The number of bits fits `usize`, so `position + 1` does.
    let _len = counted.len();
    let count = counted.rank0(position + 1);
    if count == 0 {
        None
    } else {
        Some(counted.select0(count - 1))
    }
}

/// The position of the last 0 bit at `position` or before it; `None` exactly where there is none.
///
/// # Conditions
/// There are more than `position` bits.
/// # Cost
/// A rank and a selection.
#[inline(always)]
pub fn previous_zero<I: Rank + Select0>(index: &I, position: usize) -> Option<usize>
    requires { position < length (I.bits index.now) }
    ensures { MatchesLast (I.bits index.now) false position result }
{
    previous_zero_in(&mut Counted::new(index), position)
}

/// `select_from`, by one rank and one selection in a value that counts them.
#[tactic(auto, using(bitm_bits::proofs::Callers::one_from, bitm_bits::proofs::Callers::ones_are_bits))]
#[inline(always)]
fn select_from_in<I: Rank + Select>(
    counted: &mut Counted<'_, I>,
    position: usize,
    k: usize,
) -> Option<usize>
    requires { position ≤ length (I.bits counted.old.value) }
    ensures answer { IsSelectFrom (I.bits counted.old.value) true position k result }
    ensures queries { QueriesAtMost counted.old counted.new 1 1 }
{
    // The number of bits fits `usize`, so a sum that does not is greater than it.
    let _len = counted.len();
    match counted.rank(position).checked_add(k) {
        Some(rank) => counted.try_select(rank),
        None => None,
    }
}

/// The position of the 1 bit from `position` on with exactly `k` 1 bits between `position` and it; `None` exactly where
/// there is none.
///
/// # Conditions
/// There are at least `position` bits.
/// # Cost
/// A rank and a selection.
#[inline(always)]
pub fn select_from<I: Rank + Select>(index: &I, position: usize, k: usize) -> Option<usize>
    requires { position ≤ length (I.bits index.now) }
    ensures { IsSelectFrom (I.bits index.now) true position k result }
{
    select_from_in(&mut Counted::new(index), position, k)
}

/// `select0_from`, by one rank and one selection in a value that counts them.
#[tactic(auto, using(bitm_bits::proofs::Callers::zero_from, bitm_bits::proofs::Callers::zeros_are_bits))]
#[inline(always)]
fn select0_from_in<I: Rank + Select0>(
    counted: &mut Counted<'_, I>,
    position: usize,
    k: usize,
) -> Option<usize>
    requires { position ≤ length (I.bits counted.old.value) }
    ensures answer { IsSelectFrom (I.bits counted.old.value) false position k result }
    ensures queries { QueriesAtMost counted.old counted.new 1 1 }
{
    // The number of bits fits `usize`, so a sum that does not is greater than it.
    let _len = counted.len();
    match counted.rank0(position).checked_add(k) {
        Some(rank) => counted.try_select0(rank),
        None => None,
    }
}

/// The position of the 0 bit from `position` on with exactly `k` 0 bits between `position` and it; `None` exactly where
/// there is none.
///
/// # Conditions
/// There are at least `position` bits.
/// # Cost
/// A rank and a selection.
#[inline(always)]
pub fn select0_from<I: Rank + Select0>(index: &I, position: usize, k: usize) -> Option<usize>
    requires { position ≤ length (I.bits index.now) }
    ensures { IsSelectFrom (I.bits index.now) false position k result }
{
    select0_from_in(&mut Counted::new(index), position, k)
}
