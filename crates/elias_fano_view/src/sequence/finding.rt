//! The predecessor of a value, and whether a value is one of the numbers.
ghost use Rattle.std.specs.Prelude.{◌≡◌, ◌↔◌, ℕ, false, IfSome, IsTrue, List, IsSomeAnd};
ghost use Rattle.std.specs.List.{Contains};
ghost use Rattle.elias_fano.specs.Answers.{IsIndexIn, IsPredecessorOf};
ghost use Rattle.elias_fano.specs.SequenceParts.{Holds};
ghost use Rattle.elias_fano.specs.Claims.{IfLast, ClaimsAtMost, ClaimsLess};

use crate::sequence::SequenceView;
use bitm_tables::answer::Answer;
use elias_fano::{hinted_contains_on, hinted_last_at_most_on};

impl<'a> SequenceView<'a> {
    /// The predecessor of `v`: the greatest index whose number is at most `v`, and `Absent` exactly where each number
    /// is greater, where the parts form a sequence. Whatever they hold, the answer is `Wrong`, or the parts claim that
    /// all numbers up to the index are at most `v`, or that none is for `Absent`.
    ///
    /// # Cost
    /// The cost of `hinted_last_at_most_on`: the cost of `first_at_least` of `v + 1`.
    #[inline]
    pub fn last_at_most(&self, v: u64) -> Answer<usize>
        ensures inside { IsIndexIn self.now.len result }
        ensures claimed { IfLast result (ClaimsAtMost self.now v) }
        ensures answer { (xs : List ℕ) → Holds xs self.now → IsPredecessorOf xs v result }
    {
        let (source, low) = (&mut self.upper.probe(), &mut self.low_digits());
        hinted_last_at_most_on(source, self.hints, low, self.len, v)
    }

    /// Whether `v` is one of the numbers, where the parts form a sequence; in other parts the answer may be either, or
    /// `None`. Whatever they hold, with an answer they claim how many numbers are less than `v`, and the answer is
    /// false where that is all of them.
    ///
    /// # Cost
    /// The cost of `hinted_contains_on`: the cost of `first_at_least`, and the low bits of one number more.
    #[inline]
    pub fn contains(&self, v: u64) -> Option<bool>
        ensures answer { (xs : List ℕ) → Holds xs self.now
            → IsSomeAnd result (λ is. IsTrue is ↔ Contains xs v) }
        ensures claimed { IfSome result (λ is. (p : ℕ) × ClaimsLess self.now v p
            × (p ≡ self.now.len → is ≡ false)) }
    {
        let (source, low) = (&mut self.upper.probe(), &mut self.low_digits());
        hinted_contains_on(source, self.hints, low, self.len, v)
    }
}
