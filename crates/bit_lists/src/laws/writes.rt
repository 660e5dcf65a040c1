//! Laws of words, of 0 bits and of what a write leaves, for items, numbers and counts.
ghost use Rattle.bit_lists.specs.WriteLaws.{BitsAreCounted, PositionIsInside, WordIsItsBits};
ghost use Rattle.bit_lists.specs.WriteLaws.{ZerosHaveNoOnes, ZerosAreCounted, ZerosAreZero, NoItemsAreZero};
ghost use Rattle.bit_lists.specs.WriteLaws.{LengthIsKept, OneBitIsSet, ItemIsWritten, ItemBesideIsKept};
ghost use Rattle.bit_lists.specs.WriteLaws.{NumberBesideIsKept, CountBeforeIsKept};
ghost use Rattle.bit_lists.specs.WriteLaws.{OneMoreIsSet, OneMoreIsCleared, LastOneIsSet};

/// Words have 64 bits each.
#[tactic(auto, using(crate::proofs::BitLaws::bits_are_counted))]
pub fn bits_are_counted()
    ensures { BitsAreCounted }
{}

/// A position is inside exactly where its word is.
#[tactic(auto, using(crate::proofs::BitLaws::position_is_inside))]
pub fn position_is_inside()
    ensures { PositionIsInside }
{}

/// A word is the number of its 64 bits.
#[tactic(auto, using(crate::proofs::BitLaws::word_is_its_bits))]
pub fn word_is_its_bits()
    ensures { WordIsItsBits }
{}

/// Words that are 0 have no 1 bits.
#[tactic(auto, using(crate::proofs::BitLaws::zeros_have_no_ones))]
pub fn zeros_have_no_ones()
    ensures { ZerosHaveNoOnes }
{}

/// In words that are 0 no 1 bits are counted, and as many 0 bits before a position as there are positions.
pub fn zeros_are_counted()
    ensures { ZerosAreCounted }
{}

/// Items that are all 0 are the number 0.
#[tactic(auto, using(crate::proofs::BitLaws::zeros_are_zero))]
pub fn zeros_are_zero()
    ensures { ZerosAreZero }
{}

/// No items are the number 0.
#[tactic(auto, using(crate::proofs::BitLaws::no_items_are_zero))]
pub fn no_items_are_zero()
    ensures { NoItemsAreZero }
{}

/// A write leaves as many items as there were.
#[tactic(auto, using(crate::proofs::BitLaws::length_is_kept))]
pub fn length_is_kept()
    ensures { LengthIsKept }
{}

/// One bit that is written is that item set, and nothing else.
#[tactic(auto, using(crate::proofs::BitLaws::one_bit_is_set))]
pub fn one_bit_is_set()
    ensures { OneBitIsSet }
{}

/// An item that was written is the bit of the number at its position there.
#[tactic(auto, using(crate::proofs::BitLaws::item_is_written))]
pub fn item_is_written()
    ensures { ItemIsWritten }
{}

/// An item beside what was written is as it was.
#[tactic(auto, using(crate::proofs::BitLaws::item_beside_is_kept))]
pub fn item_beside_is_kept()
    ensures { ItemBesideIsKept }
{}

/// A number beside what was written is as it was.
#[tactic(auto, using(crate::proofs::BitLaws::number_beside_is_kept))]
pub fn number_beside_is_kept()
    ensures { NumberBesideIsKept }
{}

/// A count up to the position where a write begins is as it was.
#[tactic(auto, using(crate::proofs::BitLaws::count_before_is_kept))]
pub fn count_before_is_kept()
    ensures { CountBeforeIsKept }
{}

/// After a 0 bit was made a 1 bit there is one more 1 bit, and one fewer 0 bit.
pub fn one_more_is_set()
    ensures { OneMoreIsSet }
{}

/// After a 1 bit was made a 0 bit there is one fewer 1 bit, and one more 0 bit.
pub fn one_more_is_cleared()
    ensures { OneMoreIsCleared }
{}

/// A 1 bit that was written after all 1 bits has the last of their positions.
#[tactic(auto, using(crate::proofs::BitLaws::last_one_is_set))]
pub fn last_one_is_set()
    ensures { LastOneIsSet }
{}
