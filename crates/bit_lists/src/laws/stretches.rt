//! Laws of a stretch of items, of equal items, of lists that agree, and of single bits.
ghost use Rattle.bit_lists.specs.StretchLaws.{ItemOfStretch, CountInStretch, PickedInStretch, PickedBetween};
ghost use Rattle.bit_lists.specs.StretchLaws.{EqualItemsCount, EqualItemsCountForOne, CountsAgree};
ghost use Rattle.bit_lists.specs.StretchLaws.{BitsAreJoined, BitIsDigit, CountIsOfSame, ItemAfterWrite};

/// Item `i` of the items from item `k` on is item `k + i` of all.
#[tactic(auto, using(crate::proofs::BitLaws::item_of_stretch))]
pub fn item_of_stretch()
    ensures { ItemOfStretch }
{}

/// The count before a position of a stretch and the count before the stretch add up to the count before that position
/// in all.
#[tactic(auto, using(crate::proofs::BitLaws::count_in_stretch))]
pub fn count_in_stretch()
    ensures { CountInStretch }
{}

/// A position is picked in a stretch exactly where it is picked in all, by its rank plus the count before the stretch.
pub fn picked_in_stretch()
    ensures { PickedInStretch }
{}

/// 1 bits and 0 bits are counted alike: as the items that equal a given bit.
#[tactic(auto, using(crate::proofs::BitLaws::count_is_of_same))]
pub fn count_is_of_same()
    ensures { CountIsOfSame }
{}

/// A rank between the ranks of two positions picks a position between them.
pub fn picked_between()
    ensures { PickedBetween }
{}

/// Among equal items each counts for its kind.
#[tactic(auto, using(crate::proofs::BitLaws::equal_items_count))]
pub fn equal_items_count()
    ensures { EqualItemsCount }
{}

/// Among equal items none counts for the other kind.
#[tactic(auto, using(crate::proofs::BitLaws::equal_items_count_for_one))]
pub fn equal_items_count_for_one()
    ensures { EqualItemsCountForOne }
{}

/// Where the items of two lists agree up to a position, so do the counts before it.
#[tactic(auto, using(crate::proofs::BitLaws::counts_agree))]
pub fn counts_agree()
    ensures { CountsAgree }
{}

/// The bits of two lists of words, one after the other, are the bits of the joined list.
#[tactic(auto, using(crate::proofs::BitLaws::bits_are_joined))]
pub fn bits_are_joined()
    ensures { BitsAreJoined }
{}

/// Bit `i` of words is bit `i mod 64`, lowest first, of word `i / 64`.
#[tactic(auto, using(crate::proofs::BitLaws::bit_is_digit))]
pub fn bit_is_digit()
    ensures { BitIsDigit }
{}

/// A bit that was written is the number's lowest bit, and each other item is as it was.
pub fn item_after_write()
    ensures { ItemAfterWrite }
{}
