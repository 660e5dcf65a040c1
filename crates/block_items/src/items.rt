//! What has items, and the iterator over them.
ghost use Rattle.std.specs.Prelude.{◌≡◌, ◌-◌, ◌≤◌, ℕ, List, length, IfSome};
ghost use Rattle.std.specs.Iterator.{at_most, UpTo};
ghost use Rattle.std.specs.Iterator.SizeHint.{IsWithinCount};
ghost use Rattle.elias_fano.specs.Answers.{IsItem, IsOfIndex};
ghost use Rattle.block_items.specs.Coming.{Gives, Left};

use bitm_tables::answer::Answer;
use std::iter::{FusedIterator, Iterator};
use std::marker::Model;

/// A view of a block whose items have indices from 0 on. The block may hold anything: contracts say what is answered
/// where it holds a list.
pub trait HasItems {
    /// Whether the parts of the block hold this list.
    ghost holds: { List ℕ → Self → Type 0 };

    /// How many items the block announces.
    ghost announced: { Self → ℕ };

    /// How many items the block announces: where it holds a list, the number of its items.
    fn announced(&self) -> usize
        ensures announced { result ≡ announced self.now }
        ensures all { (xs : List ℕ) → holds xs self.now → length xs ≡ result };

    /// The item at an index. Whatever the block holds, the answer is `Absent` exactly where there is no such item.
    /// Where it holds a list, the answer is never `Wrong`.
    fn item(&self, index: usize) -> Answer<u64>
        ensures inside { IsOfIndex (announced self.now) index result }
        ensures answer { (xs : List ℕ) → holds xs self.now → IsItem xs index result };

    /// The items in their order: where the block holds a list, all of it; else no more than are announced.
    ///
    /// # Cost
    /// For each item that comes, the cost of `item`.
    ///
    /// ```
    /// for number in sequence.iter() { .. }
    /// ```
    fn iter(&self) -> Items<'_, Self>
    where
        Self: Sized,
        ensures { result ≡ record { parts = self.now; left = announced self.now } }
    {
        self.iter_from(0)
    }

    /// The items from index `index` on, in their order, else as `iter`; none where there are no more than `index`.
    ///
    /// # Cost
    /// For each item that comes, the cost of `item`.
    ///
    /// ```
    /// for number in sequence.iter_from(1000) { .. }
    /// ```
    fn iter_from(&self, index: usize) -> Items<'_, Self>
    where
        Self: Sized,
        ensures { result ≡ record { parts = self.now; left = announced self.now - index } }
    {
        Items {
            of: self,
            left: self.announced().saturating_sub(index),
        }
    }
}

/// The items of a block that are to come, seen as the parts of the block and how many are left at most.
#[derive(Drop)]
pub struct Items<'a, V: HasItems> {
    of: &'a V,
    left: usize,
}

impl<'a, V: HasItems> Model for Items<'a, V> {
    ghost use Rattle.std.specs.Prelude.{◌≤◌};
    ghost use Rattle.block_items.specs.Coming.{Left};

    ghost Value = { Left V };

    ghost view = { λ it. record { parts = it.of.now; left = it.left } };

    ghost invariant = { λ it. it.left ≤ V.announced it.of.now };
}

impl<'a, V: HasItems> Iterator for Items<'a, V> {
    type Item = u64;

    ghost next_gives = { Gives V.holds };

    ghost remaining = { λ it. at_most it.left };

    #[inline]
    fn next(&mut self) -> Option<u64> {
        if self.left == 0 {
            return None;
        }
        match self.of.item(self.of.announced() - self.left) {
            Answer::Found(item) => {
                self.left -= 1;
                Some(item)
            }
            _ => {
                self.left = 0;
                None
            }
        }
    }

    #[inline]
    fn size_hint(&self) -> (usize, Option<usize>)
        ensures lower { IsWithinCount result.0 (at_most self.now.left) }
        ensures upper { IfSome result.1 (UpTo (at_most self.now.left)) }
        ensures most { (result.0 ≡ 0) × (result.1 ≡ Some self.now.left) }
    {
        (0, Some(self.left))
    }
}

impl<'a, V: HasItems> FusedIterator for Items<'a, V> {}
