//! The calls of a matrix by index and by value.
ghost use Rattle.std.specs.Prelude.{◌≡◌, ◌<◌, ◌≤◌, All, SomeIff, length, slice_index};
ghost use Rattle.matrix_levels.specs.Numbers.{occurrences_before, GetsEach, IsItemRank, IsItemSelect, PicksItem};
ghost use Rattle.matrix_levels.specs.Numbers.{RanksEachNumber};

use crate::matrix::WaveletMatrix;
use bitm_strategies::{Select0ForRank101111, SelectForRank101111};
use bitm_tables::answer::Answer;

impl<S: SelectForRank101111, S0: Select0ForRank101111> WaveletMatrix<S, S0> {
    /// Number `i`.
    ///
    /// # Conditions
    /// There is such a number.
    /// # Cost
    /// The cost of `LevelsView::total_get_on`.
    #[inline]
    pub fn get(&self, i: usize) -> u64
        requires { i < length self.now.items }
        ensures { result ≡ slice_index self.now.items i }
    {
        let (levels, mut probe) = self.parts();
        match levels.total_get_on(&mut probe, i) {
            Answer::Found(number) => number,
            _ => unreachable!(),
        }
    }

    /// Number `i`; `None` exactly where there is none.
    #[inline]
    pub fn try_get(&self, i: usize) -> Option<u64>
        ensures { SomeIff result (i < length self.now.items) (slice_index self.now.items i) }
    {
        let (levels, mut probe) = self.parts();
        levels.total_get_on(&mut probe, i).right()
    }

    /// For each index the number there; they go to `numbers` in the order of the indices.
    ///
    /// # Conditions
    /// There are as many `numbers` as `positions`, and there is a number at each index.
    /// # Cost
    /// The cost of `LevelsView::total_get_list_on`.
    pub fn get_many(&self, positions: &mut [usize], numbers: &mut [u64])
        requires same_length { length numbers.old ≡ length positions.old }
        requires inside { All (λ p. p < length self.now.items) positions.old }
        ensures { GetsEach self.now.items positions.old numbers.new }
    {
        let (levels, mut probe) = self.parts();
        let _found = levels.total_get_list_on(&mut probe, positions, numbers);
    }

    /// How many of the first `i` numbers are this one.
    ///
    /// # Conditions
    /// There are no fewer than `i` numbers.
    /// # Cost
    /// The cost of `LevelsView::total_rank_on`.
    #[inline]
    pub fn rank(&self, number: u64, i: usize) -> usize
        requires { i ≤ length self.now.items }
        ensures { result ≡ occurrences_before self.now.items number i }
    {
        let (levels, mut probe) = self.parts();
        match levels.total_rank_on(&mut probe, number, i) {
            Answer::Found(count) => count,
            _ => unreachable!(),
        }
    }

    /// How many of the first `i` numbers are this one; `None` exactly where there are fewer numbers.
    #[inline]
    pub fn try_rank(&self, number: u64, i: usize) -> Option<usize>
        ensures { IsItemRank self.now.items number i result }
    {
        let (levels, mut probe) = self.parts();
        levels.total_rank_on(&mut probe, number, i).right()
    }

    /// For each number and its index in `positions`, how many numbers before that index equal it; the counts go to
    /// `ranks` in this order.
    ///
    /// # Conditions
    /// There are as many `numbers` and `ranks` as `positions`, and no index is past the end.
    /// # Cost
    /// The cost of `LevelsView::total_rank_list_on`.
    pub fn rank_many(&self, numbers: &[u64], positions: &[usize], ranks: &mut [usize])
        requires numbers { length numbers.now ≡ length positions.now }
        requires ranks { length ranks.old ≡ length positions.now }
        requires inside { All (λ p. p ≤ length self.now.items) positions.now }
        ensures { RanksEachNumber self.now.items numbers.now positions.now ranks.new }
    {
        let (levels, mut probe) = self.parts();
        let _found = levels.total_rank_list_on(&mut probe, numbers, positions, ranks);
    }

    /// Number `i`, and how many of the numbers before it are equal to it.
    ///
    /// # Conditions
    /// There is such a number.
    /// # Cost
    /// The cost of `LevelsView::total_get_and_rank_on`: no more than `rank` takes.
    ///
    /// ```
    /// // of 3, 1, 4, 1, 5, 1
    /// m.get_and_rank(3)   // (1, 1): a 1, with one 1 before it
    /// ```
    #[inline]
    pub fn get_and_rank(&self, i: usize) -> (u64, usize)
        requires { i < length self.now.items }
        ensures number { result.0 ≡ slice_index self.now.items i }
        ensures count { result.1 ≡ occurrences_before self.now.items result.0 i }
    {
        let (levels, mut probe) = self.parts();
        match levels.total_get_and_rank_on(&mut probe, i) {
            Answer::Found(item) => item,
            _ => unreachable!(),
        }
    }

    /// The index of this number with exactly `k` such numbers before it.
    ///
    /// # Conditions
    /// There is one: there are more than `k` such numbers.
    /// # Cost
    /// For each level a selection, and for each that is not known from the table of starts a rank.
    #[inline]
    pub fn select(&self, number: u64, k: usize) -> usize
        requires { k < occurrences_before self.now.items number (length self.now.items) }
        ensures { PicksItem self.now.items number k result }
    {
        let (levels, index, mut probe) = self.all_parts();
        match levels.total_nth_by(index, &mut probe, number, k) {
            Some(position) => position,
            None => unreachable!(),
        }
    }

    /// The index of this number with exactly `k` such numbers before it; `None` exactly where there is none.
    ///
    /// # Cost
    /// For each level a selection, and two ranks, or one where it is known from the table of starts.
    #[inline]
    pub fn try_select(&self, number: u64, k: usize) -> Option<usize>
        ensures { IsItemSelect self.now.items number k result }
    {
        let (levels, index, mut probe) = self.all_parts();
        levels.total_select_by(index, &mut probe, number, k).right()
    }
}
