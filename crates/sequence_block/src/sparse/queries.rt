//! Ranks, selections and bits of a view, whatever its block holds.
ghost use Rattle.std.specs.Prelude.{◌≡◌, ◌-◌, ◌≤◌, ◌<◌, List, ℕ, true, false};
ghost use Rattle.bitm_tables.specs.declared.answer.Answer.TheVariants.{Wrong};
ghost use Rattle.bitm_select.specs.Answers.{IsSelected};
ghost use Rattle.tables_view.specs.Ranks.{IsCountWithin, IsRanked};
ghost use Rattle.sparse_bits.specs.Answers.{IsBitOf, IsBitWithin, IsSelectedWithin};
ghost use Rattle.sparse_bits.specs.Looks.{no_looks};
ghost use Rattle.sequence_block.specs.SparseBlock.{bits_of, HoldsOnes};

use crate::sparse::view::SparseView;
use bitm_tables::answer::Answer;
use elias_fano_view::SequenceView;
use sparse_bits::Ones;

impl<'a> SparseView<'a> {
    /// The bits, as the bodies of their queries take them.
    #[inline(always)]
    fn asked(&self) -> Ones<'_, SequenceView<'a>>
        ensures { result ≡ no_looks self.now.positions self.now.len }
    {
        Ones::new(&self.positions, self.len())
    }

    /// How many of the first `index` bits are 1 bits. Whatever the block holds, they are at most `index`, and the
    /// answer is `Absent` exactly where there are fewer bits. Where it holds bits, the answer is never `Wrong`.
    ///
    /// # Cost
    /// One search for a successor among the positions (`sparse_bits::Ones::rank_in` has the clause).
    ///
    /// ```
    /// bits.rank(101);   // Found(2)
    /// ```
    #[inline]
    pub fn rank(&self, index: usize) -> Answer<usize>
        ensures within { IsCountWithin self.now.len index result }
        ensures counts { (xs : List ℕ) → HoldsOnes xs self.now
            → IsRanked (bits_of xs self.now) true index result }
    {
        self.asked().rank_in(index)
    }

    /// How many of the first `index` bits are 0 bits; else as `rank`.
    ///
    /// # Cost
    /// The cost of `rank`.
    ///
    /// ```
    /// bits.rank0(101);   // Found(99)
    /// ```
    #[inline]
    pub fn rank0(&self, index: usize) -> Answer<usize>
        ensures within { IsCountWithin self.now.len index result }
        ensures counts { (xs : List ℕ) → HoldsOnes xs self.now
            → IsRanked (bits_of xs self.now) false index result }
    {
        match self.rank(index) {
            Answer::Found(ones) => Answer::Found(index - ones),
            Answer::Absent => Answer::Absent,
            Answer::Wrong => Answer::Wrong,
        }
    }

    /// The bit at a position. Whatever the block holds, the answer is `Absent` exactly where there is no such bit.
    /// Where it holds bits, the answer is never `Wrong`.
    ///
    /// # Cost
    /// One search for the position (`sparse_bits::Ones::bit_in` has the clause).
    ///
    /// ```
    /// bits.get_bit(100);   // Found(true)
    /// ```
    #[inline]
    pub fn get_bit(&self, position: usize) -> Answer<bool>
        ensures within { IsBitWithin self.now.len position result }
        ensures bit { (xs : List ℕ) → HoldsOnes xs self.now
            → IsBitOf (bits_of xs self.now) position result }
    {
        self.asked().bit_in(position)
    }

    /// The position of the 1 bit with exactly `rank` 1 bits before it. Whatever the block holds, it is the position of
    /// a bit, and the answer is `Absent` exactly where there are no more than `rank` 1 bits. Where the block holds
    /// bits, the answer is never `Wrong`.
    ///
    /// # Cost
    /// One position is read (`sparse_bits::Ones::select_in` has the clause).
    ///
    /// ```
    /// bits.select(3);   // Found(4000)
    /// ```
    #[inline]
    pub fn select(&self, rank: usize) -> Answer<usize>
        ensures within { IsSelectedWithin self.now.positions.len self.now.len rank result }
        ensures counts { (xs : List ℕ) → HoldsOnes xs self.now
            → IsSelected (bits_of xs self.now) true rank result }
    {
        self.asked().select_in(rank)
    }

    /// The position of the 0 bit with exactly `rank` 0 bits before it. Whatever the block holds, it is the position of
    /// a bit, and where there are no more 1 bits than bits, the answer is `Absent` exactly where there are no more than
    /// `rank` others. Where the block holds bits, the answer is never `Wrong`.
    ///
    /// # Cost
    /// At most one position is read for each binary digit of the number of 1 bits (`sparse_bits::Ones::select0_in` has
    /// the clause).
    ///
    /// ```
    /// bits.select0(3);   // Found(4)
    /// ```
    pub fn select0(&self, rank: usize) -> Answer<usize>
        ensures within { self.now.positions.len ≤ self.now.len → IsSelectedWithin
            (self.now.len - self.now.positions.len) self.now.len rank result }
        ensures crowded { self.now.len < self.now.positions.len → result ≡ Wrong }
        ensures counts { (xs : List ℕ) → HoldsOnes xs self.now
            → IsSelected (bits_of xs self.now) false rank result }
    {
        self.asked().select0_in(rank)
    }
}
