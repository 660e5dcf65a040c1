//! The queries of a value's bits: rank, access and selection.
ghost use Rattle.std.specs.Prelude.{◌≡◌, ◌<◌, ◌≤◌, List, Bool, length, SomeIff, true, false};
ghost use Rattle.bit_lists.specs.Bits.{item};
ghost use Rattle.bit_lists.specs.Count.{ones_before, zeros_before, ones_of, zeros_of, IsRank, IsRank0, IsSelect, Picks};

/// A value that rank and selection see as a list of bits.
pub trait HasBits {
    /// The bits of the value.
    ghost bits: { Self → List Bool };

    /// The number of bits. It fits `usize`, so `position + 1` does for each position `position` of a bit.
    fn len(&self) -> usize
        ensures { result ≡ length (Self.bits self.now) };
}

/// Rank: the number of 1 bits, and of 0 bits, before a position or before the end.
pub trait Rank: HasBits {
    /// The number of 1 bits among the first `index` bits; `None` exactly where there are fewer bits.
    fn try_rank(&self, index: usize) -> Option<usize>
        ensures { IsRank (Self.bits self.now) index result };

    /// The number of 1 bits among the first `index` bits.
    ///
    /// # Conditions
    /// There are at least `index` bits.
    #[inline(always)]
    fn rank(&self, index: usize) -> usize
        requires { index ≤ length (Self.bits self.now) }
        ensures { result ≡ ones_before (Self.bits self.now) index }
    {
        match self.try_rank(index) {
            Some(count) => count,
            None => unreachable!(),
        }
    }

    /// The number of 1 bits among the first `index` bits, like `rank`.
    ///
    /// # Conditions
    /// There are at least `index` bits.
    #[inline(always)]
    fn rank_unchecked(&self, index: usize) -> usize
        requires { index ≤ length (Self.bits self.now) }
        ensures { result ≡ ones_before (Self.bits self.now) index }
    {
        self.rank(index)
    }

    /// The number of 0 bits among the first `index` bits; `None` exactly where there are fewer bits.
    #[inline(always)]
    fn try_rank0(&self, index: usize) -> Option<usize>
        ensures { IsRank0 (Self.bits self.now) index result }
    {
        match self.try_rank(index) {
            Some(count) => Some(index - count),
            None => None,
        }
    }

    /// The number of 0 bits among the first `index` bits.
    ///
    /// # Conditions
    /// There are at least `index` bits.
    #[inline(always)]
    fn rank0(&self, index: usize) -> usize
        requires { index ≤ length (Self.bits self.now) }
        ensures { result ≡ zeros_before (Self.bits self.now) index }
    {
        index - self.rank(index)
    }

    /// The number of 0 bits among the first `index` bits, like `rank0`.
    ///
    /// # Conditions
    /// There are at least `index` bits.
    #[inline(always)]
    fn rank0_unchecked(&self, index: usize) -> usize
        requires { index ≤ length (Self.bits self.now) }
        ensures { result ≡ zeros_before (Self.bits self.now) index }
    {
        self.rank0(index)
    }

    /// Does nothing; in the original, a hint to load what `rank(index)` reads.
    #[inline(always)]
    fn prefetch(&self, _index: usize) {}
}

/// Access: the value of a bit, alone or with its rank. Succinct structures need it beside rank and selection.
pub trait Access: Rank {
    /// The bit at position `position`; `None` exactly where there is no such bit.
    fn try_get_bit(&self, position: usize) -> Option<bool>
        ensures { SomeIff result (position < length (Self.bits self.now))
            (item (Self.bits self.now) position) };

    /// The bit at position `position`.
    ///
    /// # Conditions
    /// There is such a bit.
    #[inline(always)]
    fn get_bit(&self, position: usize) -> bool
        requires { position < length (Self.bits self.now) }
        ensures { result ≡ item (Self.bits self.now) position }
    {
        match self.try_get_bit(position) {
            Some(bit) => bit,
            None => unreachable!(),
        }
    }

    /// The bit at position `position`, and the number of 1 bits before it.
    ///
    /// # Conditions
    /// There is such a bit.
    #[inline(always)]
    fn bit_and_rank(&self, position: usize) -> (bool, usize)
        requires { position < length (Self.bits self.now) }
        ensures bit { result.0 ≡ item (Self.bits self.now) position }
        ensures rank { result.1 ≡ ones_before (Self.bits self.now) position }
    {
        (self.get_bit(position), self.rank(position))
    }

    /// The number of 1 bits among the first `from` bits, and among the first `to` bits.
    ///
    /// # Conditions
    /// There are at least `from` bits, and at least `to` bits.
    #[inline(always)]
    fn rank_pair(&self, from: usize, to: usize) -> (usize, usize)
        requires from { from ≤ length (Self.bits self.now) }
        requires to { to ≤ length (Self.bits self.now) }
        ensures from { result.0 ≡ ones_before (Self.bits self.now) from }
        ensures to { result.1 ≡ ones_before (Self.bits self.now) to }
    {
        (self.rank(from), self.rank(to))
    }
}

/// Selection: the position of the 1 bit with a rank.
pub trait Select: HasBits {
    /// The position of the 1 bit with exactly `rank` 1 bits before it; `None` exactly where there is none.
    fn try_select(&self, rank: usize) -> Option<usize>
        ensures { IsSelect (Self.bits self.now) true rank result };

    /// The position of the 1 bit with exactly `rank` 1 bits before it.
    ///
    /// # Conditions
    /// There are more than `rank` 1 bits.
    #[inline(always)]
    fn select(&self, rank: usize) -> usize
        requires { rank < ones_of (Self.bits self.now) }
        ensures { Picks (Self.bits self.now) true rank result }
    {
        match self.try_select(rank) {
            Some(position) => position,
            None => unreachable!(),
        }
    }

    /// The position of the 1 bit with exactly `rank` 1 bits before it, like `select`.
    ///
    /// # Conditions
    /// There are more than `rank` 1 bits.
    #[inline(always)]
    fn select_unchecked(&self, rank: usize) -> usize
        requires { rank < ones_of (Self.bits self.now) }
        ensures { Picks (Self.bits self.now) true rank result }
    {
        self.select(rank)
    }
}

/// Selection of 0 bits: the position of the 0 bit with a rank.
pub trait Select0: HasBits {
    /// The position of the 0 bit with exactly `rank` 0 bits before it; `None` exactly where there is none.
    fn try_select0(&self, rank: usize) -> Option<usize>
        ensures { IsSelect (Self.bits self.now) false rank result };

    /// The position of the 0 bit with exactly `rank` 0 bits before it.
    ///
    /// # Conditions
    /// There are more than `rank` 0 bits.
    #[inline(always)]
    fn select0(&self, rank: usize) -> usize
        requires { rank < zeros_of (Self.bits self.now) }
        ensures { Picks (Self.bits self.now) false rank result }
    {
        match self.try_select0(rank) {
            Some(position) => position,
            None => unreachable!(),
        }
    }

    /// The position of the 0 bit with exactly `rank` 0 bits before it, like `select0`.
    ///
    /// # Conditions
    /// There are more than `rank` 0 bits.
    #[inline(always)]
    fn select0_unchecked(&self, rank: usize) -> usize
        requires { rank < zeros_of (Self.bits self.now) }
        ensures { Picks (Self.bits self.now) false rank result }
    {
        self.select0(rank)
    }
}
