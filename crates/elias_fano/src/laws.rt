//! Laws of the definitions that contracts cite. A function here does nothing: its contract is the law, and a caller
//! that wants the law calls it.
ghost use Rattle.elias_fano.specs.Laws.{ReachedFromThere, FirstOfEqual};
ghost use Rattle.elias_fano.specs.Laws.{OneForEachItem, ItemsArePicked, PartsHoldItems, PartsAreSmall};
ghost use Rattle.elias_fano.specs.Sequence.{IsSequence};

use crate::sequence::Sequence;
use bitm_strategies::{Select0ForRank101111, SelectForRank101111};

/// The numbers of a sequence never decrease; there are fewer than 2^56 of them, each below 2^64.
#[inline(always)]
pub fn numbers_rise<S: SelectForRank101111, S0: Select0ForRank101111>(sequence: &Sequence<S, S0>)
    ensures { IsSequence sequence.now.items }
{
    sequence.rise();
}

/// Where numbers never decrease, a number is at least a value exactly from the first such index on.
#[inline(always)]
pub fn reached_from_there()
    ensures { ReachedFromThere }
{}

/// Where numbers never decrease, the first index whose number reaches a number is the least index of an equal number.
#[inline(always)]
pub fn first_of_equal()
    ensures { FirstOfEqual }
{}

/// The upper vector has as many 1 bits as there are numbers.
#[inline(always)]
pub fn one_for_each_item()
    ensures { OneForEachItem }
{}

/// The 1 bit that rank `i` picks in the upper vector stands where number `i` says.
#[inline(always)]
pub fn items_are_picked()
    ensures { ItemsArePicked }
{}

/// The parts of a sequence hold its numbers and no others.
#[inline(always)]
pub fn parts_hold_items()
    ensures { PartsHoldItems }
{}

/// The two vectors of `n` numbers with `l` low bits have `n * (l + 3) + 126` bits at most.
#[inline(always)]
pub fn parts_are_small()
    ensures { PartsAreSmall }
{}
