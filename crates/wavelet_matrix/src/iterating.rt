//! The numbers of a matrix one after another, as an iterator.
ghost use Rattle.std.specs.Prelude.{◌≡◌, ◌≤◌, length, drop, Some, IfSome};
ghost use Rattle.std.specs.Iterator.{YieldsFirst, item_count, UpTo, at_most};
ghost use Rattle.std.specs.Iterator.SizeHint.{IsWithinCount};

use crate::matrix::WaveletMatrix;
use bitm_strategies::{Select0ForRank101111, SelectForRank101111};
use std::iter::{ExactSizeIterator, FusedIterator, Iterator};
use std::marker::Model;

/// The numbers of a matrix in their order, seen as the list of numbers still to come.
#[derive(Drop)]
pub struct Numbers<'a, S: SelectForRank101111, S0: Select0ForRank101111> {
    matrix: &'a WaveletMatrix<S, S0>,
    // The position of the next one.
    position: usize,
}

impl<'a, S: SelectForRank101111, S0: Select0ForRank101111> Model for Numbers<'a, S, S0> {
    ghost use Rattle.std.specs.Prelude.{◌≤◌, ℕ, List, length, drop};

    ghost Value = { List ℕ };

    ghost view = { λ it. drop it.position it.matrix.now.items };

    ghost invariant = { λ it. it.position ≤ length it.matrix.now.items };
}

impl<S: SelectForRank101111, S0: Select0ForRank101111> WaveletMatrix<S, S0> {
    /// The numbers in their order.
    ///
    /// # Cost
    /// For each number that comes, the cost of `get`.
    #[inline]
    pub fn iter(&self) -> Numbers<'_, S, S0>
        ensures { result ≡ self.now.items }
    {
        self.iter_from(0)
    }

    /// The numbers from number `position` on, in their order.
    ///
    /// # Conditions
    /// There is a number at that index, or it is the number of all.
    /// # Cost
    /// For each number that comes, the cost of `get`.
    #[inline]
    pub fn iter_from(&self, position: usize) -> Numbers<'_, S, S0>
        requires { position ≤ length self.now.items }
        ensures { result ≡ drop position self.now.items }
    {
        Numbers {
            matrix: self,
            position,
        }
    }
}

impl<'a, S: SelectForRank101111, S0: Select0ForRank101111> Iterator for Numbers<'a, S, S0> {
    type Item = u64;

    ghost next_gives = { YieldsFirst (λ coming. coming) };

    ghost remaining = { item_count (λ coming. coming) };

    #[inline]
    fn next(&mut self) -> Option<u64> {
        if self.position >= self.matrix.len() {
            return None;
        }
        let number = self.matrix.get(self.position);
        self.position += 1;
        Some(number)
    }

    #[inline]
    fn size_hint(&self) -> (usize, Option<usize>)
        ensures lower { IsWithinCount result.0 (at_most (length self.now)) }
        ensures upper { IfSome result.1 (UpTo (at_most (length self.now))) }
        ensures exact { (result.0 ≡ length self.now) × (result.1 ≡ Some (length self.now)) }
    {
        let len = self.len();
        (len, Some(len))
    }
}

impl<'a, S: SelectForRank101111, S0: Select0ForRank101111> ExactSizeIterator
    for Numbers<'a, S, S0> {
    #[inline]
    fn len(&self) -> usize {
        self.matrix.len() - self.position
    }
}

impl<'a, S: SelectForRank101111, S0: Select0ForRank101111> FusedIterator for Numbers<'a, S, S0> {}
