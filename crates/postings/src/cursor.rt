//! What a cursor is, and how its calls are counted.
ghost use Rattle.std.specs.Prelude.{◌≡◌, ◌≤◌, ◌+◌, ℕ, List};
ghost use Rattle.postings.specs.Moves.{IfFound, IsAnswered, UnlessWrong};
ghost use Rattle.postings.specs.Next.{IsNextAtLeast};

use bitm_tables::answer::Answer;

/// A position in a list of numbers that never decrease, which moves forward only.
pub trait Cursor {
    /// The numbers from the cursor on.
    ghost left: { Self → List ℕ };

    /// How often `next_geq` was called.
    ghost calls: { Self → ℕ };

    /// Moves to the first number from the cursor on that is at least `v`, and answers it; `None` exactly where each is
    /// less, and then no number is left. Where the number at the cursor is at least `v` it stays there.
    fn next_geq(&mut self, v: u64) -> Option<u64>
        ensures next { IsNextAtLeast (left self.old) v result (left self.new) }
        ensures counted { calls self.new ≡ calls self.old + 1 };
}

/// A position in a list of numbers that never decrease, which moves forward only, over memory that may hold anything:
/// it may turn out not to be such a list. Each `Cursor` is one that is right.
pub trait TotalCursor {
    /// The numbers from the cursor on, where it is right.
    ghost left: { Self → List ℕ };

    /// The memory holds a list, and the cursor is a position in it.
    ghost right: { Self → Type 0 };

    /// The calls that were counted so far.
    ghost calls: { Self → ℕ };

    /// The answers `Wrong` that were counted so far.
    ghost wrong: { Self → ℕ };

    /// The type of what no call changes.
    ghost Kept: { Type 0 };

    /// What no call changes, such as the memory that it reads.
    ghost kept: { Self → Kept };

    /// Moves as `next_geq` of a `Cursor` where the cursor is right, and stays right. Whatever the memory holds, a
    /// number that is found is at least `v`, and the answer may be `Wrong`: no other answer counts as one.
    fn total_next_geq(&mut self, v: u64) -> Answer<u64>
        ensures next { right self.old → IsAnswered (left self.old) v result (left self.new) }
        ensures stays { right self.old → right self.new }
        ensures at_least { IfFound result (λ x. v ≤ x) }
        ensures counted { calls self.new ≤ calls self.old + 1 }
        ensures sound { UnlessWrong result (wrong self.new ≡ wrong self.old) }
        ensures same { kept self.new ≡ kept self.old };
}

impl<C: Cursor> TotalCursor for C {
    ghost use Rattle.std.specs.Prelude.{⊤, ℕ};

    ghost left = { C.Cursor.left };

    ghost right = { λ c. ⊤ };

    ghost calls = { C.Cursor.calls };

    ghost wrong = { λ c. 0 };

    ghost Kept = { ℕ };

    ghost kept = { λ c. 0 };

    #[inline(always)]
    fn total_next_geq(&mut self, v: u64) -> Answer<u64> {
        match self.next_geq(v) {
            Some(number) => Answer::Found(number),
            None => Answer::Absent,
        }
    }
}
