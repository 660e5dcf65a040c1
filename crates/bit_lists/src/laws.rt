//! Laws of the definitions that contracts cite, over lists of bits alone. A function here does nothing: its contract is
//! the law, and a caller that wants the law calls it.
ghost use Rattle.bit_lists.specs.Laws.{ReadAfterWrite, NegatedTwice, SwappedTwice, SwappedWithItself};
ghost use Rattle.bit_lists.specs.Laws.{DigitsBoundPowers};
ghost use Rattle.bit_lists.specs.Laws.{OnesAndZeros, OnesAndZerosOfContent, CountsGrow, CountAfterItem};
ghost use Rattle.bit_lists.specs.Laws.{NoneBeforeTheFirst};
ghost use Rattle.bit_lists.specs.Laws.{AtMostOnePicked, OnePickedForEachRank, NonePickedFromTheCountOn};
ghost use Rattle.bit_lists.specs.Laws.{RankOfPicked, PickedByRank, NextOneIsSelected};
ghost use Rattle.bit_lists.specs.Laws.{PositionsRise, PositionsArePicked, PositionsAreCounted};
ghost use Rattle.bit_lists.specs.Laws.{AllBitsCome, NoBitsCome, BitsComeFromTheFront, BitsComeFromTheBack, EachBitOnce};

mod stretches;
mod writes;

pub use stretches::{
    bit_is_digit, bits_are_joined, count_in_stretch, count_is_of_same, counts_agree,
    equal_items_count, equal_items_count_for_one, item_after_write, item_of_stretch,
    picked_between, picked_in_stretch,
};
pub use writes::{
    bits_are_counted, count_before_is_kept, item_beside_is_kept, item_is_written, last_one_is_set,
    length_is_kept, no_items_are_zero, number_beside_is_kept, one_bit_is_set, one_more_is_cleared,
    one_more_is_set, position_is_inside, word_is_its_bits, zeros_are_counted, zeros_are_zero,
    zeros_have_no_ones,
};

/// A number that was written, and fits its width, is the number that is read there.
#[tactic(auto, using(crate::proofs::BitLaws::read_after_write))]
pub fn read_after_write()
    ensures { ReadAfterWrite }
{}

/// To negate bits twice by one number leaves all bits as they were.
#[tactic(auto, using(crate::proofs::BitLaws::negated_twice))]
pub fn negated_twice()
    ensures { NegatedTwice }
{}

/// To swap two fragments twice leaves all bits as they were.
#[tactic(auto, using(crate::proofs::BitLaws::swapped_twice))]
pub fn swapped_twice()
    ensures { SwappedTwice }
{}

/// To swap a fragment with itself leaves all bits as they were.
#[tactic(auto, using(crate::proofs::BitLaws::swapped_with_itself))]
pub fn swapped_with_itself()
    ensures { SwappedWithItself }
{}

/// A number has at most `k` binary digits exactly where it is below two to the power of `k`.
#[tactic(auto, using(crate::proofs::BitLaws::digits_bound_powers))]
pub fn digits_bound_powers()
    ensures { DigitsBoundPowers }
{}

/// The 1 bits and the 0 bits before a position add up to the number of positions before it.
#[tactic(auto, using(crate::proofs::BitLaws::ones_and_zeros))]
pub fn ones_and_zeros()
    ensures { OnesAndZeros }
{}

/// The 1 bits and the 0 bits of words add up to the number of their bits.
#[tactic(auto, using(crate::proofs::BitLaws::ones_and_zeros_of_content))]
pub fn ones_and_zeros_of_content()
    ensures { OnesAndZerosOfContent }
{}

/// No fewer items of a kind stand before a later position.
#[tactic(auto, using(crate::proofs::BitLaws::counts_grow))]
pub fn counts_grow()
    ensures { CountsGrow }
{}

/// After an item there is one more of its kind, and no more of the other.
#[tactic(auto, using(crate::proofs::BitLaws::count_after_item))]
pub fn count_after_item()
    ensures { CountAfterItem }
{}

/// No items stand before the first position.
#[tactic(auto, using(crate::proofs::BitLaws::none_before_the_first))]
pub fn none_before_the_first()
    ensures { NoneBeforeTheFirst }
{}

/// At most one position has a given bit and a given rank.
#[tactic(auto, using(crate::proofs::BitLaws::at_most_one_picked))]
pub fn at_most_one_picked()
    ensures { AtMostOnePicked }
{}

/// For each rank below the count of a bit, some position has that bit and that rank.
#[tactic(auto, using(crate::proofs::BitLaws::one_picked_for_each_rank))]
pub fn one_picked_for_each_rank()
    ensures { OnePickedForEachRank }
{}

/// A rank is at least the count of a bit exactly where no position has that bit and that rank.
pub fn none_picked_from_the_count_on()
    ensures { NonePickedFromTheCountOn }
{}

/// The rank of the position that was selected by a rank is that rank.
#[tactic(auto, using(crate::proofs::BitLaws::rank_of_picked))]
pub fn rank_of_picked()
    ensures { RankOfPicked }
{}

/// The position selected by the rank of a position, for its own bit, is that position.
#[tactic(auto, using(crate::proofs::BitLaws::picked_by_rank))]
pub fn picked_by_rank()
    ensures { PickedByRank }
{}

/// The rank of a position selects the first such bit from that position on.
#[tactic(auto, using(crate::proofs::BitLaws::next_one_is_selected))]
pub fn next_one_is_selected()
    ensures { NextOneIsSelected }
{}

/// The positions of a bit rise strictly.
#[tactic(auto, using(crate::proofs::BitLaws::positions_rise))]
pub fn positions_rise()
    ensures { PositionsRise }
{}

/// Item `k` of the positions of a bit is the position that is selected by rank `k`.
#[tactic(auto, using(crate::proofs::BitLaws::positions_are_picked))]
pub fn positions_are_picked()
    ensures { PositionsArePicked }
{}

/// There are as many positions of a bit as the count of that bit.
#[tactic(auto, using(crate::proofs::BitLaws::positions_are_counted))]
pub fn positions_are_counted()
    ensures { PositionsAreCounted }
{}

/// The bits of the range of all positions are all bits.
#[tactic(auto, using(crate::proofs::BitLaws::all_bits_come))]
pub fn all_bits_come()
    ensures { AllBitsCome }
{}

/// A range that ends where it starts, or before, has no bits.
#[tactic(auto, using(crate::proofs::BitLaws::no_bits_come))]
pub fn no_bits_come()
    ensures { NoBitsCome }
{}

/// The bits of a range are the bit at its start and then the bits from the next position on.
#[tactic(auto, using(crate::proofs::BitLaws::bits_come_from_the_front))]
pub fn bits_come_from_the_front()
    ensures { BitsComeFromTheFront }
{}

/// The bits of a range are the bits before its last position and then the bit there.
#[tactic(auto, using(crate::proofs::BitLaws::bits_come_from_the_back))]
pub fn bits_come_from_the_back()
    ensures { BitsComeFromTheBack }
{}

/// What came from the start, what is left, and what came from the end are the bits of the range, each once.
#[tactic(auto, using(crate::proofs::BitLaws::each_bit_once))]
pub fn each_bit_once()
    ensures { EachBitOnce }
{}
