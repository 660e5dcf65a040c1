//! The tables of levels, owned: how they are made, and borrowed.
ghost use Rattle.std.specs.Prelude.{◌≡◌, ◌+◌, ◌*◌, ◌^◌, ◌<◌, ◌≤◌, ◌∷◌, ℕ, [], length, slice_index, IfErr, IfOk};
ghost use Rattle.std.specs.Box.{boxed_slice_items};
ghost use Rattle.bit_lists.specs.Count.{ones_before, zeros_before};
ghost use Rattle.bitm_bits.specs.Size.{saturated_size};
ghost use Rattle.bitm_tables.specs.Tables.{bits_in};
ghost use Rattle.matrix_levels.specs.Matrix.{IsMatrix, IsMatrixOf, numbers_in};
ghost use Rattle.levels_view.specs.Levels.{HasLevels};

use crate::laws;
use crate::levels::LevelsView;
use bitm::Access;
use bitm_bits::GetSize;
use bitm_tables::source::TableSource;
use std::alloc::{AllocError, Global};
use std::boxed::BoxedSlice;
use std::marker::Model;

/// Where the levels of a matrix are among the bits of a source: how many numbers there are, of how many bits, and for
/// each level how many 1 bits stand before it, and how many of its items have a 0 bit. A table says for each number of
/// some of the highest bits, those that are known, where the numbers that begin with it start after these levels. The
/// quarters of the bits spare a rank the lower table and six words; compact levels have none.
#[derive(Drop)]
pub struct Levels {
    len: usize,
    width: u8,
    known: u8,
    compact: bool,
    ones: BoxedSlice<u64, Global>,
    zeros: BoxedSlice<u64, Global>,
    starts: BoxedSlice<u64, Global>,
    quarters: BoxedSlice<u64, Global>,
}

impl Model for Levels {
    ghost use Rattle.std.specs.Box.{boxed_slice_items};
    ghost use Rattle.matrix_levels.specs.Matrix.{LevelTables};

    ghost Value = { LevelTables };

    ghost view = { λ l. record {
      len = l.len;
      width = l.width;
      ones = boxed_slice_items l.ones;
      zeros = boxed_slice_items l.zeros;
      known = l.known;
      starts = boxed_slice_items l.starts;
      compact = l.compact;
      quarters = boxed_slice_items l.quarters;
    } };
}

impl Levels {
    /// The levels of `len` numbers of `width` bits, whose bits the index has from its first one on, with these
    /// quarters, or compact. No bits are known from the table of starts: it says that all numbers start at index 0.
    ///
    /// # Conditions
    /// All bits together are fewer than 2^63, and the index has no fewer.
    /// # Errors
    /// `AllocError` if memory was refused; nothing is left.
    /// # Cost
    /// Two ranks for each level.
    pub fn new<I: Access>(
        alloc: Global,
        index: &I,
        len: usize,
        width: u8,
        compact: bool,
        quarters: BoxedSlice<u64, Global>,
    ) -> Result<Levels, AllocError>
        requires short { width * len < 2 ^ 63 }
        requires room { width * len ≤ length (I.bits index.now) }
        ensures len { IfOk result (λ made. made.len ≡ len) }
        ensures width { IfOk result (λ made. made.width ≡ width) }
        ensures ones_len { IfOk result (λ made. length made.ones ≡ width) }
        ensures zeros_len { IfOk result (λ made. length made.zeros ≡ width) }
        ensures known { IfOk result (λ made. made.known ≡ 0) }
        ensures starts { IfOk result (λ made. made.starts ≡ 0 ∷ []) }
        ensures compact { IfOk result (λ made. made.compact ≡ compact) }
        ensures quarters { IfOk result (λ made. made.quarters ≡ boxed_slice_items quarters) }
        ensures ones { IfOk result (λ made. (d : ℕ) → d < width
            → slice_index made.ones d ≡ ones_before (I.bits index.now) (d * len)) }
        ensures zeros { IfOk result (λ made. (d : ℕ) → d < width
            → zeros_before (I.bits index.now) (d * len) + slice_index made.zeros d
            ≡ zeros_before (I.bits index.now) (d * len + len)) }
    {
        let mut ones = Vec::with_capacity(alloc, width as usize)?;
        let mut zeros = Vec::with_capacity(alloc, width as usize)?;
        for depth in 0..width as usize {
            let start = depth * len;
            let (before, through) = index.rank_pair(start, start + len);
            ones.push(before as u64)?;
            zeros.push((len - (through - before)) as u64)?;
        }
        let mut starts = Vec::with_capacity(alloc, 1)?;
        starts.push(0)?;
        Ok(Levels {
            len,
            width,
            ones: ones.into_boxed_slice(),
            zeros: zeros.into_boxed_slice(),
            known: 0,
            starts: starts.into_boxed_slice(),
            compact,
            quarters,
        })
    }

    /// Makes `known` of the highest bits known from the table of starts.
    ///
    /// # Conditions
    /// The levels belong to the source, and no more bits are to be known than numbers have, and fewer than 64.
    /// # Errors
    /// `AllocError` if memory was refused; the levels are as they were.
    /// # Cost
    /// For each of the 2^`known` prefixes, and each of its levels, a rank.
    pub fn keep_starts<T: TableSource>(
        &mut self,
        alloc: Global,
        source: &mut T,
        known: u8,
    ) -> Result<(), AllocError>
        requires matrix { IsMatrix self.old (T.lists source.old) }
        requires most { known ≤ self.old.width }
        requires few { known < 64 }
        ensures len { self.new.len ≡ self.old.len }
        ensures width { self.new.width ≡ self.old.width }
        ensures compact { self.new.compact ≡ self.old.compact }
        ensures known { IfOk result (λ _. self.new.known ≡ known) }
        ensures matrix { IfOk result (λ _. IsMatrixOf (numbers_in self.old (T.lists source.old))
            self.new (bits_in (T.lists source.old))) }
        ensures as_it_was { IfErr result (λ _. self.new ≡ self.old) }
    {
        let count = 1 << known;
        // There is one number without bits, and none of its bits is read.
        let rest = (self.width() - known) % 64;
        laws::matrices_fit();
        let levels = self.lend();
        let mut starts = Vec::with_capacity(alloc, count)?;
        for begin in 0..count {
            let number = (begin as u64) << rest;
            match levels.total_position_on(source, number, 0, known, 0) {
                Some(position) => starts.push(position as u64)?,
                None => unreachable!(),
            }
        }
        self.known = known;
        self.starts = starts.into_boxed_slice();
        Ok(())
    }

    /// A copy of the levels.
    ///
    /// # Errors
    /// `AllocError` if memory was refused; this value is as it was.
    pub fn try_clone(&self, alloc: Global) -> Result<Levels, AllocError>
        ensures { IfOk result (λ copy. copy ≡ self.now) }
    {
        let ones = Vec::from_slice(alloc, self.ones.as_slice())?;
        let zeros = Vec::from_slice(alloc, self.zeros.as_slice())?;
        let starts = Vec::from_slice(alloc, self.starts.as_slice())?;
        let quarters = Vec::from_slice(alloc, self.quarters.as_slice())?;
        Ok(Levels {
            len: self.len,
            width: self.width,
            ones: ones.into_boxed_slice(),
            zeros: zeros.into_boxed_slice(),
            known: self.known,
            starts: starts.into_boxed_slice(),
            compact: self.compact,
            quarters: quarters.into_boxed_slice(),
        })
    }

    /// A view of the tables, whose calls are the queries.
    ///
    /// # Conditions
    /// The tables have the lengths of a matrix's tables, as the levels of a matrix do.
    #[inline(always)]
    pub fn lend(&self) -> LevelsView<'_>
        requires { HasLevels self.now }
        ensures { result ≡ self.now }
    {
        LevelsView::of_tables(
            self.len,
            self.width,
            self.ones.as_slice(),
            self.zeros.as_slice(),
            self.known,
            self.starts.as_slice(),
            self.compact,
            self.quarters.as_slice(),
        )
    }

    /// Whether there are no quarters, so that ranks go by the index alone.
    #[inline(always)]
    pub fn is_compact(&self) -> bool
        ensures { result ≡ self.now.compact }
    {
        self.compact
    }

    /// How many numbers there are.
    #[inline(always)]
    pub fn len(&self) -> usize
        ensures { result ≡ self.now.len }
    {
        self.len
    }

    /// How many bits each number has at most.
    #[inline(always)]
    pub fn width(&self) -> u8
        ensures { result ≡ self.now.width }
    {
        self.width
    }
}

impl GetSize for Levels {
    // eight bytes for each number of each table
    ghost dyn_bytes = { λ l. saturated_size
        (8 * (length l.ones + length l.zeros + length l.starts + length l.quarters)) };

    const USES_DYN_MEM: bool = true;

    fn size_bytes_dyn(&self) -> usize {
        self.ones
            .size_bytes_dyn()
            .saturating_add(self.zeros.size_bytes_dyn())
            .saturating_add(self.starts.size_bytes_dyn())
            .saturating_add(self.quarters.size_bytes_dyn())
    }
}
