//! The queries of a sequence, whoever holds it.
ghost use Rattle.std.specs.Prelude.{◌≡◌, ◌↔◌, ◌^◌, ◌<◌, ℕ, List, length, IsSomeAnd, IsTrue};
ghost use Rattle.std.specs.List.{Contains};
ghost use Rattle.elias_fano.specs.Answers.{IsItem, IsOfIndex, IsIndexIn, IsSuccessorOf};

use crate::predecessor::contains_by;
use crate::searching::{first_at_least_by, item_by};
use crate::sequence::Sequence;
use bitm_strategies::{Select0ForRank101111, SelectForRank101111};
use bitm_tables::answer::Answer;

/// Numbers in order, or memory that may hold anything: an owner's sequence, or a view's.
pub trait Items {
    /// How many numbers there are, as it says.
    ghost len: { Self → ℕ };

    /// It holds these numbers, and they are in order.
    ghost holds: { List ℕ → Self → Type 0 };

    /// How many numbers there are: fewer than 2^56.
    fn count(&self) -> usize
        ensures count { result ≡ len self.now }
        ensures short { result < 2 ^ 56 }
        ensures held { (xs : List ℕ) → holds xs self.now → result ≡ length xs };

    /// Number `i`. Whatever is held, the answer is `Absent` exactly where there is no such number; where it is numbers
    /// in order, never `Wrong`.
    fn item(&self, i: usize) -> Answer<u64>
        ensures inside { IsOfIndex (len self.now) i result }
        ensures answer { (xs : List ℕ) → holds xs self.now → IsItem xs i result };

    /// The least index whose number is at least `v`. Whatever is held, it is an index of a number; where it is numbers
    /// in order, the answer is `Absent` exactly where each is less, and never `Wrong`.
    fn successor(&self, v: u64) -> Answer<usize>
        ensures inside { IsIndexIn (len self.now) result }
        ensures answer { (xs : List ℕ) → holds xs self.now → IsSuccessorOf xs v result };

    /// Whether `v` is one of the numbers; where it is numbers in order, never `None`.
    fn has(&self, v: u64) -> Option<bool>
        ensures answer { (xs : List ℕ) → holds xs self.now
            → IsSomeAnd result (λ is. IsTrue is ↔ Contains xs v) };
}

impl<S: SelectForRank101111, S0: Select0ForRank101111> Items for Sequence<S, S0> {
    ghost len = { λ e. length e.items };

    ghost holds = { λ xs e. e.items ≡ xs };

    #[inline(always)]
    fn count(&self) -> usize {
        self.len()
    }

    #[inline(always)]
    fn item(&self, i: usize) -> Answer<u64> {
        let (mut source, mut low, bits) = self.parts();
        item_by(&mut source, &bits, &mut low, self.len(), i)
    }

    #[inline(always)]
    fn successor(&self, v: u64) -> Answer<usize> {
        let (mut source, mut low, bits) = self.parts();
        first_at_least_by(&mut source, &bits, &mut low, self.len(), v)
    }

    #[inline(always)]
    fn has(&self, v: u64) -> Option<bool> {
        let (mut source, mut low, bits) = self.parts();
        contains_by(&mut source, &bits, &mut low, self.len(), v)
    }
}
