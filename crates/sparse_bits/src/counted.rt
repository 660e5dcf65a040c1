//! The queries of borrowed positions of 1 bits, which may be anything. A query makes no more searches, and reads no
//! more positions, than its clause says; sparse bits and views of them answer by these.
ghost use Rattle.std.specs.Prelude.{◌≡◌, ◌↔◌, ◌-◌, ◌<◌, ◌≤◌, ℕ, List, length, true, false};
ghost use Rattle.std.specs.Prelude.{IfSome, IsSomeAnd, IsTrue};
ghost use Rattle.std.specs.List.{Contains};
ghost use Rattle.bit_lists.specs.Bits.{digit_count};
ghost use Rattle.bitm_select.specs.Answers.{IsSelected};
ghost use Rattle.bitm_tables.specs.declared.answer.Answer.TheVariants.{Found, Wrong};
ghost use Rattle.elias_fano.specs.Answers.{IsItem, IsOfIndex, IsIndexIn, IsSuccessorOf};
ghost use Rattle.tables_view.specs.Ranks.{IsCountWithin, IsRanked};
ghost use Rattle.sparse_bits.specs.Answers.{IsBitAndRankOf, IsBitOf, IsBitWithin, IsSelectedWithin};
ghost use Rattle.sparse_bits.specs.Looks.{LooksAtMost, no_looks, one_more_get, one_more_search};
ghost use Rattle.sparse_bits.specs.Positions.{bits_at, ArePositionsHeld, PartsZeros};

use bitm_tables::answer::Answer;
use bitm_tables::source::counts::ReadCounts;
use elias_fano::Items;
use std::marker::Model;

/// Borrowed positions of the 1 bits among a given number of bits. Searches and positions that are read are counted; the
/// counts take no bytes at run time.
#[derive(Drop)]
pub struct Ones<'a, P: Items> {
    positions: &'a P,
    len: usize,
    // A search counts as a word, and a position that is read too.
    searches: ReadCounts,
    gets: ReadCounts,
}

impl<'a, P: Items> Model for Ones<'a, P> {
    ghost use Rattle.sparse_bits.specs.Looks.{Looks};

    ghost Value = { Looks P };

    ghost view = { λ o. record {
      positions = o.positions.now;
      len = o.len;
      searches = o.searches.words;
      gets = o.gets.words;
    } };
}

/// A count among the first `index` of `len` bits, and `Wrong` where it is more than these.
#[inline(always)]
fn count_within(count: usize, index: usize, _len: usize) -> Answer<usize>
    requires { index ≤ _len }
    ensures within { IsCountWithin _len index result }
    ensures count { count ≤ index → result ≡ Found count }
{
    if count <= index {
        Answer::Found(count)
    } else {
        Answer::Wrong
    }
}

impl<'a, P: Items> Ones<'a, P> {
    /// These positions among `len` bits, with nothing counted yet.
    #[inline(always)]
    pub fn new(positions: &'a P, len: usize) -> Ones<'a, P>
        ensures { result ≡ no_looks positions.now len }
    {
        Ones {
            positions,
            len,
            searches: ReadCounts::new(),
            gets: ReadCounts::new(),
        }
    }

    /// The number of bits.
    #[inline(always)]
    fn len(&self) -> usize
        ensures { result ≡ self.now.len }
    {
        self.len
    }

    /// The number of positions.
    #[inline(always)]
    fn count(&self) -> usize
        ensures count { result ≡ P.len self.now.positions }
        ensures held { (xs : List ℕ) → P.holds xs self.now.positions → result ≡ length xs }
    {
        self.positions.count()
    }

    /// Position `i`; one more is read.
    #[inline(always)]
    fn get(&mut self, i: usize) -> Answer<u64>
        ensures inside { IsOfIndex (P.len self.old.positions) i result }
        ensures answer { (xs : List ℕ) → P.holds xs self.old.positions → IsItem xs i result }
        ensures counted { self.new ≡ one_more_get self.old }
    {
        self.gets.read_word();
        self.positions.item(i)
    }

    /// The least index whose position is at least `v`. One more search is made.
    #[inline(always)]
    fn first_at_least(&mut self, v: u64) -> Answer<usize>
        ensures inside { IsIndexIn (P.len self.old.positions) result }
        ensures answer { (xs : List ℕ) → P.holds xs self.old.positions → IsSuccessorOf xs v result }
        ensures counted { self.new ≡ one_more_search self.old }
    {
        self.searches.read_word();
        self.positions.successor(v)
    }

    /// Whether `v` is one of the positions. One more search is made.
    #[inline(always)]
    fn has(&mut self, v: u64) -> Option<bool>
        ensures answer { (xs : List ℕ) → P.holds xs self.old.positions
            → IsSomeAnd result (λ is. IsTrue is ↔ Contains xs v) }
        ensures counted { self.new ≡ one_more_search self.old }
    {
        self.searches.read_word();
        self.positions.has(v)
    }

    /// How many of the first `index` bits are 1 bits. Whatever the positions are, that is at most `index`, and the
    /// answer is `Absent` exactly where there are fewer bits. Where they are positions of 1 bits, it is never `Wrong`.
    ///
    /// ```
    /// Ones::new(&positions, 5000).rank_in(101);   // Found(2), where the 1 bits are at 3, 100, 101 and 4000
    /// ```
    #[inline(always)]
    pub fn rank_in(&mut self, index: usize) -> Answer<usize>
        ensures within { IsCountWithin self.old.len index result }
        ensures counts { (xs : List ℕ)
            → ArePositionsHeld xs (P.holds xs self.old.positions) self.old.len
            → IsRanked (bits_at self.old.len 0 xs) true index result }
        ensures queries { LooksAtMost self.old self.new 1 0 }
    {
        if index > self.len() {
            return Answer::Absent;
        }
        match self.first_at_least(index as u64) {
            Answer::Found(count) => count_within(count, index, self.len()),
            Answer::Absent => count_within(self.count(), index, self.len()),
            Answer::Wrong => Answer::Wrong,
        }
    }

    /// The bit at position `position`, and the number of 1 bits before it. Whatever the positions are, the answer is
    /// `Absent` exactly where there is no such bit. Where they are positions of 1 bits, it is never `Wrong`.
    ///
    /// ```
    /// Ones::new(&positions, 5000).bit_and_rank_in(100);   // Found((true, 1))
    /// ```
    #[inline(always)]
    pub fn bit_and_rank_in(&mut self, position: usize) -> Answer<(bool, usize)>
        ensures within { IsBitWithin self.old.len position result }
        ensures bit { (xs : List ℕ)
            → ArePositionsHeld xs (P.holds xs self.old.positions) self.old.len
            → IsBitAndRankOf (bits_at self.old.len 0 xs) position result }
        ensures queries { LooksAtMost self.old self.new 1 1 }
    {
        if position >= self.len() {
            return Answer::Absent;
        }
        match self.first_at_least(position as u64) {
            Answer::Found(rank) => match self.get(rank) {
                Answer::Found(one) => Answer::Found((one == position as u64, rank)),
                _ => Answer::Wrong,
            },
            Answer::Absent => Answer::Found((false, self.count())),
            Answer::Wrong => Answer::Wrong,
        }
    }

    /// The bit at position `position`; else as `bit_and_rank_in`.
    ///
    /// ```
    /// Ones::new(&positions, 5000).bit_in(100);   // Found(true)
    /// ```
    #[inline(always)]
    pub fn bit_in(&mut self, position: usize) -> Answer<bool>
        ensures within { IsBitWithin self.old.len position result }
        ensures bit { (xs : List ℕ)
            → ArePositionsHeld xs (P.holds xs self.old.positions) self.old.len
            → IsBitOf (bits_at self.old.len 0 xs) position result }
        ensures queries { LooksAtMost self.old self.new 1 0 }
    {
        if position >= self.len() {
            return Answer::Absent;
        }
        match self.has(position as u64) {
            Some(bit) => Answer::Found(bit),
            None => Answer::Wrong,
        }
    }

    /// The position of the 1 bit with exactly `rank` 1 bits before it. Whatever the positions are, it is the position
    /// of a bit, and the answer is `Absent` exactly where there are no more than `rank` of them. Where they are
    /// positions of 1 bits, it is never `Wrong`.
    ///
    /// ```
    /// Ones::new(&positions, 5000).select_in(3);   // Found(4000)
    /// ```
    #[inline(always)]
    pub fn select_in(&mut self, rank: usize) -> Answer<usize>
        ensures within { IsSelectedWithin (P.len self.old.positions) self.old.len rank result }
        ensures counts { (xs : List ℕ)
            → ArePositionsHeld xs (P.holds xs self.old.positions) self.old.len
            → IsSelected (bits_at self.old.len 0 xs) true rank result }
        ensures queries { LooksAtMost self.old self.new 0 1 }
    {
        match self.get(rank) {
            Answer::Found(one) => {
                if one < self.len() as u64 {
                    Answer::Found(one as usize)
                } else {
                    Answer::Wrong
                }
            }
            Answer::Absent => Answer::Absent,
            Answer::Wrong => Answer::Wrong,
        }
    }

    /// How many 1 bits have at most `rank` 0 bits before them, by halving; `None` only where the positions are not
    /// positions of 1 bits.
    fn ones_within(&mut self, rank: usize) -> Option<usize>
        ensures within { IfSome result (λ c. c ≤ P.len self.old.positions) }
        ensures parts { (xs : List ℕ)
            → ArePositionsHeld xs (P.holds xs self.old.positions) self.old.len
            → IsSomeAnd result (λ c. PartsZeros xs rank c) }
        ensures queries { LooksAtMost self.old self.new 0
            (digit_count (P.len self.old.positions)) }
    {
        let mut low = 0;
        let mut left = self.count();
        while left > 0 {
            let half = left / 2;
            let Answer::Found(one) = self.get(low + half) else {
                return None;
            };
            if one.saturating_sub((low + half) as u64) <= rank as u64 {
                low += half + 1;
                left -= half + 1;
            } else {
                left = half;
            }
        }
        Some(low)
    }

    /// The position of the 0 bit with exactly `rank` 0 bits before it. Whatever the positions are, it is the position
    /// of a bit, and where there are no more of them than bits, the answer is `Absent` exactly where there are no more
    /// than `rank` other bits. Where they are positions of 1 bits, it is never `Wrong`.
    ///
    /// ```
    /// Ones::new(&positions, 5000).select0_in(3);   // Found(4)
    /// ```
    pub fn select0_in(&mut self, rank: usize) -> Answer<usize>
        ensures within { P.len self.old.positions ≤ self.old.len → IsSelectedWithin
            (self.old.len - P.len self.old.positions) self.old.len rank result }
        ensures crowded { self.old.len < P.len self.old.positions → result ≡ Wrong }
        ensures counts { (xs : List ℕ)
            → ArePositionsHeld xs (P.holds xs self.old.positions) self.old.len
            → IsSelected (bits_at self.old.len 0 xs) false rank result }
        ensures queries { LooksAtMost self.old self.new 0
            (digit_count (P.len self.old.positions)) }
    {
        let ones = self.count();
        if self.len() < ones {
            return Answer::Wrong;
        }
        if rank >= self.len() - ones {
            return Answer::Absent;
        }
        match self.ones_within(rank) {
            Some(before) => Answer::Found(rank + before),
            None => Answer::Wrong,
        }
    }
}
