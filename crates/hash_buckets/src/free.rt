//! The list of free slots, as it is read.
ghost use Rattle.std.specs.Prelude.{◌≡◌, ℕ, List};
ghost use Rattle.hash_buckets.specs.Numbers.{IsFreeItem};

use bitm_tables::answer::Answer;

/// The free slots for which the slots from the number of keys on stand, in order: a slice of numbers, or a sequence in
/// memory that may hold anything.
pub trait FreeSlots {
    /// It holds these numbers.
    ghost holds: { List ℕ → Self → Type 0 };

    /// Number `i`. Where it is numbers that are held, the answer is `Absent` exactly where there is no such number, and
    /// never `Wrong`.
    fn item(&self, i: usize) -> Answer<u64>
        ensures { (free : List ℕ) → holds free self.now → IsFreeItem free i result };
}

impl<'a> FreeSlots for &'a [u64] {
    ghost holds = { λ free numbers. numbers.now ≡ free };

    #[inline(always)]
    fn item(&self, i: usize) -> Answer<u64> {
        match self.get(i) {
            Some(number) => Answer::Found(*number),
            None => Answer::Absent,
        }
    }
}
