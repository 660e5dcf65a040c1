//! A cursor over a sequence as C passes it.
ghost use Rattle.std.specs.Prelude.{◌≡◌, ◌<◌, ◌≤◌, ◌↔◌, ◌⊎◌, IfSome, IsSomeAnd, IsTrue, SomeIff};
ghost use Rattle.bitm_abi.specs.Sequence.{sequence_parts, IsSequenceSized};
ghost use Rattle.elias_fano.specs.SequenceParts.{Holds};
ghost use Rattle.postings.specs.Moves.{IfFound, IsAnswered};
ghost use Rattle.bitm_numbers_c.specs.Cursor.{left_in, sequence_items, spot_of, IsMoveIn, IsRight};

use bitm_abi::Sequence;
use bitm_tables::answer::Answer;
use elias_fano::LowDigits;
use elias_fano_view::SequenceView;
use postings::{Spot, TotalCursor, near_in_word, total_next_on};
use tables_view::TablesView;

/// A cursor over a sequence in the caller's memory: the sequence, and where the cursor stands in it. Both may hold any
/// numbers.
#[repr(C)]
pub struct Cursor<'a> {
    /// The sequence.
    pub sequence: Sequence<'a>,
    /// The index of the number at the cursor; it is at the end where there is no such number.
    pub index: usize,
    /// The position of that number's 1 bit.
    pub position: usize,
    /// The number.
    pub number: u64,
}

impl<'a> Cursor<'a> {
    /// The words of the high bits with their tables; `None` exactly where a length of the sequence is not right.
    #[inline(always)]
    pub(crate) fn upper(&self) -> Option<TablesView<'a>>
        ensures { SomeIff result (IsSequenceSized self.now.sequence) (sequence_parts self.now.sequence).upper }
    {
        match self.sequence.borrowed() {
            Some(_) => TablesView::over(
                self.sequence.words,
                self.sequence.upper,
                self.sequence.lower,
            ),
            None => None,
        }
    }

    /// The cursor's sequence, and the index of its number there, or the end; `None` only where a length is wrong.
    #[inline(always)]
    pub(crate) fn borrowed_from(&self) -> Option<(SequenceView<'a>, usize)>
        ensures { IsRight self.now → IsSomeAnd result (λ r. Holds (sequence_items self.now.sequence) r.0
            × (r.1 ≡ self.now.index)) }
    {
        let sequence = self.sequence.borrowed()?;
        let at = self.index.min(sequence.len());
        Some((sequence, at))
    }

    /// Whether the cursor is at its end, or at a number that is at least `v`.
    #[inline(always)]
    pub(crate) fn is_from(&self, v: u64) -> bool
        ensures { IsTrue result ↔ ((self.now.sequence.len ≤ self.now.index) ⊎ (v ≤ self.now.number)) }
    {
        self.index >= self.sequence.len || self.number >= v
    }

    /// Where the cursor stands.
    #[inline(always)]
    fn spot(&self) -> Spot
        ensures { result ≡ spot_of self.now }
    {
        Spot {
            at: self.index,
            one: self.position,
            number: self.number,
        }
    }

    /// The position of the first number that is at least `v`, which is more than the number at the cursor, where it is
    /// one of the next four and stands in the word of the cursor's 1 bit. No length of the sequence is tested but those
    /// that are needed.
    #[inline(always)]
    fn near(&self, v: u64) -> Option<Spot>
        requires { self.now.number < v }
        ensures near { IsRight self.now
            → IfSome result (λ s. IsMoveIn self.now.sequence v (spot_of self.now) (Answer.Found s.number) s) }
        ensures at_least { IfSome result (λ s. v ≤ s.number) }
    {
        if self.sequence.width > 63 {
            return None;
        }
        let mut low = LowDigits::new(self.sequence.low, self.sequence.width as u8);
        if self.index >= self.sequence.len || !low.has(self.sequence.len) {
            return None;
        }
        near_in_word(
            self.sequence.words,
            &mut low,
            self.sequence.len,
            self.spot(),
            v,
        )
    }

    /// Moves to the first number from the cursor on that is at least `v`, and answers it: inside the word of the
    /// cursor's 1 bit where it is near, else by `seek`.
    #[inline]
    fn go(&mut self, v: u64) -> Answer<u64>
        ensures next { IsRight self.old → IsAnswered (left_in self.old) v result (left_in self.new) }
        ensures stays { IsRight self.old → IsRight self.new }
        ensures at_least { IfFound result (λ x. v ≤ x) }
        ensures sequence { self.new.sequence ≡ self.old.sequence }
    {
        if self.number < v
            && let Some(spot) = self.near(v)
        {
            self.stand_at(spot);
            return Answer::Found(spot.number);
        }
        match self.upper() {
            Some(upper) => self.seek(&upper, v),
            None => Answer::Wrong,
        }
    }

    /// Moves to the first number from the cursor on that is at least `v`, and answers it, by the words after the cursor
    /// and by selections.
    #[inline]
    fn seek(&mut self, upper: &TablesView<'_>, v: u64) -> Answer<u64>
        requires sized { IsSequenceSized self.old.sequence }
        requires upper { upper.now ≡ (sequence_parts self.old.sequence).upper }
        ensures next { IsRight self.old → IsAnswered (left_in self.old) v result (left_in self.new) }
        ensures stays { IsRight self.old → IsRight self.new }
        ensures at_least { IfFound result (λ x. v ≤ x) }
        ensures sequence { self.new.sequence ≡ self.old.sequence }
    {
        let mut low = LowDigits::new(self.sequence.low, self.sequence.width as u8);
        let mut spot = self.spot();
        let answer = total_next_on(
            &mut upper.probe(),
            &mut low,
            self.sequence.len,
            &mut spot,
            v,
        );
        self.stand_at(spot);
        answer
    }

    /// Moves to a position.
    #[inline(always)]
    pub(crate) fn stand_at(&mut self, spot: Spot)
        ensures sequence { self.new.sequence ≡ self.old.sequence }
        ensures spot { spot_of self.new ≡ spot }
    {
        self.index = spot.at;
        self.position = spot.one;
        self.number = spot.number;
    }
}

impl<'a> TotalCursor for Cursor<'a> {
    ghost use Rattle.bitm_abi.specs.declared.sequence.Sequence.{Sequence};
    ghost use Rattle.bitm_numbers_c.specs.Cursor.{left_in, IsRight};

    ghost left = { left_in };

    ghost right = { IsRight };

    ghost calls = { λ c. 0 };

    ghost wrong = { λ c. 0 };

    ghost Kept = { Sequence };

    ghost kept = { λ c. c.sequence };

    #[inline(always)]
    fn total_next_geq(&mut self, v: u64) -> Answer<u64> {
        // Where the cursor stays, no length of its sequence matters.
        if self.index < self.sequence.len && self.number >= v {
            return Answer::Found(self.number);
        }
        self.go(v)
    }
}
