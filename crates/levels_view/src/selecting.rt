//! The indices of a number, over any source and by any way to find a bit: words and tables may hold anything.
ghost use Rattle.std.specs.Prelude.{◌≡◌, ◌+◌, ◌-◌, ◌*◌, ◌^◌, ◌<◌, ◌≤◌, ℕ, List, Bool, IfSome, IsSomeAnd, length};
ghost use Rattle.bitm_select.specs.Answers.{position_in};
ghost use Rattle.bit_lists.specs.Count.{count_of, Picks};
ghost use Rattle.bitm_tables.specs.Tables.{HasSizes, HasTables, bits_in};
ghost use Rattle.bitm_selection.specs.Selection.{by_halves, OnlySelectsBy};
ghost use Rattle.matrix_levels.specs.Levels.{level};
ghost use Rattle.matrix_levels.specs.Matrix.{IsLevelBitOf, IsMatrix, IsMatrixOf, OnlyRanks, OnlyRanksAndSelects};
ghost use Rattle.matrix_levels.specs.Matrix.{level_in};
ghost use Rattle.matrix_levels.specs.Matrix.{numbers_in};
ghost use Rattle.matrix_levels.specs.Numbers.{occurrences_before, PicksItem};
ghost use Rattle.levels_view.specs.Answers.{IsIndexAmong, IsIndexOf, IsIndexWithin};

use crate::levels::LevelsView;
use crate::stepping::difference;
use bitm_select::search::selecting::ByTables;
use bitm_selection::Finds;
use bitm_tables::answer::Answer;
use bitm_tables::source::TableSource;
use matrix_levels::{digit_of, fits};

/// The position that was found, if one was.
#[inline(always)]
fn found(answer: Answer<usize>) -> Option<usize>
    ensures { result ≡ position_in answer }
{
    match answer {
        Answer::Found(position) => Some(position),
        Answer::Absent => None,
        Answer::Wrong => None,
    }
}

/// The position of the bit of this kind and rank among the words of a source; `None` only where there is none, or the
/// tables do not match the words, or `finder` does not find their bits.
#[inline(always)]
fn selected_by<F: Finds, T: TableSource>(
    finder: &F,
    source: &mut T,
    digit: bool,
    rank: usize,
) -> Option<usize>
    requires { HasSizes (T.lists source.old) }
    ensures answer { HasTables (T.lists source.old) → F.finds finder.now (T.lists source.old)
        → rank < count_of (bits_in (T.lists source.old)) digit
        → IsSomeAnd result (Picks (bits_in (T.lists source.old)) digit rank) }
    ensures reads { OnlySelectsBy T.lists T.reads source.old source.new
        (F.most (T.lists source.old)) 1 0 }
{
    if digit {
        found(finder.one(source, rank))
    } else {
        found(finder.zero(source, rank))
    }
}

impl<'a> LevelsView<'a> {
    /// Which bit of the source belongs to the number that stands at an index of the level after this one, where the
    /// tables belong to a matrix: the bit's kind and its rank.
    #[inline(always)]
    fn bit_before(&self, depth: u8, number: u64, position: usize) -> (bool, usize)
        requires { depth < self.now.width }
        ensures { (xs : List ℕ) → (b : List Bool) → (k : ℕ) → IsMatrixOf xs self.now b
            → PicksItem (level xs self.now.width (depth + 1)) number k position
            → IsLevelBitOf xs self.now b depth number k result.0 result.1 }
    {
        let ones = self.ones_before_level(depth);
        if digit_of(number, self.width() - 1 - depth) {
            let among = position.saturating_sub(self.zeros_of_level(depth));
            (true, ones.saturating_add(among))
        } else {
            let zeros = (depth as usize * self.len()).saturating_sub(ones);
            (false, zeros.saturating_add(position))
        }
    }

    /// From where a number came to an index of the next level; `None` only where words and tables form no matrix, or
    /// the number does not stand there.
    #[inline(always)]
    fn total_back_by<F: Finds, T: TableSource>(
        &self,
        finder: &F,
        source: &mut T,
        depth: u8,
        number: u64,
        position: usize,
    ) -> Option<usize>
        requires sized { HasSizes (T.lists source.old) }
        requires depth { depth < self.now.width }
        requires inside { position < self.now.len }
        ensures inside { IfSome result (λ back. back < self.now.len) }
        ensures answer { (k : ℕ) → IsMatrix self.now (T.lists source.old)
            → F.finds finder.now (T.lists source.old)
            → PicksItem (level_in self.now (T.lists source.old) (depth + 1)) number k position
            → IsSomeAnd result (PicksItem (level_in self.now (T.lists source.old) depth) number k) }
        ensures reads { OnlySelectsBy T.lists T.reads source.old source.new
            (F.most (T.lists source.old)) 1 0 }
    {
        let len = self.len();
        let (digit, rank) = self.bit_before(depth, number, position);
        match selected_by(finder, source, digit, rank) {
            Some(bit) => difference(depth as usize * len, bit, len - 1),
            None => None,
        }
    }

    /// From where a number came to an index after the last level; `None` only where words and tables form no matrix, or
    /// the number does not stand there.
    #[inline(always)]
    fn total_first_position_by<F: Finds, T: TableSource>(
        &self,
        finder: &F,
        source: &mut T,
        number: u64,
        position: usize,
    ) -> Option<usize>
        requires sized { HasSizes (T.lists source.old) }
        requires inside { position < self.now.len }
        ensures inside { IfSome result (λ first. first < self.now.len) }
        ensures answer { (k : ℕ) → IsMatrix self.now (T.lists source.old)
            → F.finds finder.now (T.lists source.old)
            → PicksItem (level_in self.now (T.lists source.old) self.now.width) number k position
            → IsSomeAnd result (PicksItem (numbers_in self.now (T.lists source.old)) number k) }
        ensures reads { OnlySelectsBy T.lists T.reads source.old source.new
            (F.most (T.lists source.old)) self.now.width 0 }
    {
        let width = self.width();
        let mut at = position;
        for up in 0..width {
            let Some(back) = self.total_back_by(finder, source, width - 1 - up, number, at) else {
                return None;
            };
            at = back;
        }
        Some(at)
    }

    /// The index after the last level of this number with exactly `k` such numbers before it, where there are more than
    /// `k`; `None` only where there are not, or words and tables form no matrix.
    #[inline(always)]
    fn total_nth_position_on<T: TableSource>(
        &self,
        source: &mut T,
        number: u64,
        k: usize,
    ) -> Option<usize>
        requires sized { HasSizes (T.lists source.old) }
        requires room { self.now.width * self.now.len ≤ length (bits_in (T.lists source.old)) }
        ensures inside { IfSome result (λ position. position < self.now.len) }
        ensures answer { let numbers = numbers_in self.now (T.lists source.old) in
            IsMatrix self.now (T.lists source.old) → k < occurrences_before numbers number (length numbers)
            → IsSomeAnd result (PicksItem (level_in self.now (T.lists source.old) self.now.width) number k) }
        ensures reads { OnlyRanks self.now T.lists T.reads source.old source.new
            (self.now.width - self.now.known) }
    {
        if !fits(number, self.width()) {
            return None;
        }
        let first = self.total_start_on(source, number)?;
        if k >= self.len() - first {
            return None;
        }
        Some(first + k)
    }

    /// The index of this number with exactly `k` such numbers before it, where it is known that there are more than
    /// `k`: so none are counted.
    ///
    /// Whatever words and tables hold, it is the index of a number. Where they form a matrix, in whose words `finder`
    /// finds bits, and there are more than `k` such numbers, it is the right one; the answer is `None` only where one
    /// of this does not hold.
    ///
    /// # Conditions
    /// The conditions of `total_get_on`.
    /// # Cost
    /// For each level a search, and for each that is not known a rank, whatever words and tables hold.
    ///
    /// ```
    /// levels.total_nth_by(&ByTables, &mut source, 1, 2);   // Some(5), or None
    /// ```
    #[inline(always)]
    pub fn total_nth_by<F: Finds, T: TableSource>(
        &self,
        finder: &F,
        source: &mut T,
        number: u64,
        k: usize,
    ) -> Option<usize>
        requires sized { HasSizes (T.lists source.old) }
        requires room { self.now.width * self.now.len ≤ length (bits_in (T.lists source.old)) }
        ensures inside { IfSome result (λ index. index < self.now.len) }
        ensures answer { let numbers = numbers_in self.now (T.lists source.old) in
            IsMatrix self.now (T.lists source.old) → F.finds finder.now (T.lists source.old)
            → k < occurrences_before numbers number (length numbers)
            → IsSomeAnd result (PicksItem numbers number k) }
        ensures reads { OnlyRanksAndSelects self.now T.lists T.reads source.old source.new
            (self.now.width - self.now.known) (F.most (T.lists source.old)) self.now.width }
    {
        let position = self.total_nth_position_on(source, number, k)?;
        self.total_first_position_by(finder, source, number, position)
    }

    /// The index after the last level of this number with exactly `k` such numbers before it.
    #[inline(always)]
    fn total_last_position_on<T: TableSource>(
        &self,
        source: &mut T,
        number: u64,
        k: usize,
    ) -> Answer<usize>
        requires sized { HasSizes (T.lists source.old) }
        requires room { self.now.width * self.now.len ≤ length (bits_in (T.lists source.old)) }
        requires fit { number < 2 ^ self.now.width }
        ensures inside { IsIndexWithin self.now.len result }
        ensures answer { IsMatrix self.now (T.lists source.old)
            → IsIndexAmong (numbers_in self.now (T.lists source.old))
            (level_in self.now (T.lists source.old) self.now.width) number k result }
        ensures reads { OnlyRanks self.now T.lists T.reads source.old source.new
            (2 * self.now.width - self.now.known) }
    {
        let len = self.len();
        let Some((first, last)) = self.total_stretch_on(source, number, len) else {
            return Answer::Wrong;
        };
        let count = last.saturating_sub(first);
        if count <= k {
            return Answer::Absent;
        }
        Answer::Found(first + k)
    }

    /// The index of this number with exactly `k` such numbers before it.
    ///
    /// Whatever words and tables hold, it is the index of a number. Where they form a matrix, in whose words `finder`
    /// finds bits, it is the right one, and the answer is `Absent` exactly where there are no more than `k` such
    /// numbers, and never `Wrong`.
    ///
    /// # Conditions
    /// The conditions of `total_get_on`.
    /// # Cost
    /// For each level a search, and two ranks, or one where it is known, whatever words and tables hold.
    ///
    /// ```
    /// levels.total_select_by(&ByTables, &mut source, 1, 2);   // Found(5), Absent or Wrong
    /// ```
    #[inline(always)]
    pub fn total_select_by<F: Finds, T: TableSource>(
        &self,
        finder: &F,
        source: &mut T,
        number: u64,
        k: usize,
    ) -> Answer<usize>
        requires sized { HasSizes (T.lists source.old) }
        requires room { self.now.width * self.now.len ≤ length (bits_in (T.lists source.old)) }
        ensures inside { IsIndexWithin self.now.len result }
        ensures answer { IsMatrix self.now (T.lists source.old) → F.finds finder.now (T.lists source.old)
            → IsIndexOf (numbers_in self.now (T.lists source.old)) number k result }
        ensures reads { OnlyRanksAndSelects self.now T.lists T.reads source.old source.new
            (2 * self.now.width - self.now.known) (F.most (T.lists source.old)) self.now.width }
    {
        if !fits(number, self.width()) {
            return Answer::Absent;
        }
        let position = match self.total_last_position_on(source, number, k) {
            Answer::Found(position) => position,
            other => return other,
        };
        match self.total_first_position_by(finder, source, number, position) {
            Some(first) => Answer::Found(first),
            None => Answer::Wrong,
        }
    }

    /// `total_select_by` by binary search in the tables.
    ///
    /// # Conditions
    /// The conditions of `total_get_on`.
    /// # Cost
    /// The cost of `total_select_by`; a search reads at most one upper entry more than their number has binary digits,
    /// 23 lower entries and eight words.
    ///
    /// ```
    /// levels.total_select_on(&mut source, 1, 2);   // Found(5), Absent or Wrong
    /// ```
    #[inline(always)]
    pub fn total_select_on<T: TableSource>(
        &self,
        source: &mut T,
        number: u64,
        k: usize,
    ) -> Answer<usize>
        requires sized { HasSizes (T.lists source.old) }
        requires room { self.now.width * self.now.len ≤ length (bits_in (T.lists source.old)) }
        ensures inside { IsIndexWithin self.now.len result }
        ensures answer { IsMatrix self.now (T.lists source.old)
            → IsIndexOf (numbers_in self.now (T.lists source.old)) number k result }
        ensures reads { OnlyRanksAndSelects self.now T.lists T.reads source.old source.new
            (2 * self.now.width - self.now.known) (by_halves (T.lists source.old)) self.now.width }
    {
        self.total_select_by(&ByTables, source, number, k)
    }
}
