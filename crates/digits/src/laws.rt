//! Laws of the definitions that contracts cite. No code runs.
ghost use Rattle.digits.specs.Laws.{DigitsAreOnes, DigitPicksAreOnes, FourCountsAreAll};

/// A digit counts as the 1 bits of the list that says where it is.
#[tactic(auto, using(crate::proofs::lemmas::DigitLemmas::digits_are_ones))]
pub fn digits_are_ones()
    ensures { DigitsAreOnes }
{}

/// A digit has a rank where the list that says where it is has a 1 bit of this rank.
pub fn digit_picks_are_ones()
    ensures { DigitPicksAreOnes }
{}

/// The counts of the four digits up to a position add up to the position.
pub fn four_counts_are_all()
    ensures { FourCountsAreAll }
{}
