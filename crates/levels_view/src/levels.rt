//! The tables of the levels of a matrix, which may hold anything.
ghost use Rattle.std.specs.Prelude.{◌≡◌, ◌-◌, ◌/◌, ◌^◌, ◌<◌, ◌≤◌, ◌↔◌, ℕ, List, Bool, Some, IfSome, IsTrue, SomeIff};
ghost use Rattle.std.specs.Prelude.{[], ◌∷◌, length, slice_index};
ghost use Rattle.matrix_levels.specs.Levels.{level_position};
ghost use Rattle.matrix_levels.specs.Matrix.{IsMatrixOf};
ghost use Rattle.levels_view.specs.Levels.{levels_with, tables_of, AreNumbers, HasLevels};

use matrix_levels::without_lowest;
use std::marker::Model;

/// The table of starts of levels without known bits: all numbers start at index 0.
static NONE_KNOWN: [u64; 1] = [0];

/// Whether a matrix can have the given number of numbers of `width` bits: these are 1 to 64, and all bits together
/// fewer than 2^63.
///
/// ```
/// are_numbers(6, 3);   // true
/// ```
#[inline]
pub fn are_numbers(len: usize, width: usize) -> bool
    ensures { IsTrue result ↔ AreNumbers len width }
{
    if width == 0 || width > 64 {
        return false;
    }
    match len.checked_mul(width) {
        Some(bits) => bits < 1 << 63,
        None => false,
    }
}

/// The tables of the levels of a matrix: how many 1 bits stand before each level, and how many of its items have a 0
/// bit; perhaps a table of starts, which says for each number of some of the highest bits, those that are known, where
/// the numbers that begin with it start after these levels; and perhaps the quarters of the words
/// (`bitm_tables::quarters::fill_quarters`), by which ranks read fewer words. They may hold anything.
///
/// Contracts see the levels as `matrix_levels` keeps them.
///
/// ```
/// let Some(levels) = LevelsView::over(6, 3, ones, zeros, &[]) else { .. };   // of three words each
/// levels.total_get_on(&mut source, 4);                                       // Found(5), Absent or Wrong
/// ```
#[derive(Drop)]
pub struct LevelsView<'a> {
    len: usize,
    // Fields are laid as they stand here: these three share eight bytes.
    width: u8,
    known: u8,
    compact: bool,
    ones: &'a [u64],
    zeros: &'a [u64],
    starts: &'a [u64],
    quarters: &'a [u64],
}

impl<'a> Model for LevelsView<'a> {
    ghost use Rattle.matrix_levels.specs.Matrix.{LevelTables};
    ghost use Rattle.levels_view.specs.Levels.{HasLevels};

    ghost Value = { LevelTables };

    ghost view = { λ l. record {
      len = l.len;
      width = l.width;
      ones = l.ones.now;
      zeros = l.zeros.now;
      known = l.known;
      starts = l.starts.now;
      compact = l.compact;
      quarters = l.quarters.now;
    } };

    ghost invariant = { λ l. HasLevels (record {
      len = l.len;
      width = l.width;
      ones = l.ones.now;
      zeros = l.zeros.now;
      known = l.known;
      starts = l.starts.now;
      compact = l.compact;
      quarters = l.quarters.now;
    }) };
}

impl<'a> LevelsView<'a> {
    /// The tables of the levels of `len` numbers of `width` bits, and the quarters of their words, or an empty slice to
    /// do without; `None` exactly where a matrix cannot have these numbers (`are_numbers`), a table has not one entry
    /// for each level, or quarters are missing: every 512 bits need a number, and so does what is left of them.
    ///
    /// ```
    /// LevelsView::over(6, 3, ones, zeros, &[]);   // Some(..) of three words each
    /// ```
    #[inline]
    pub fn over(
        len: usize,
        width: u8,
        ones: &'a [u64],
        zeros: &'a [u64],
        quarters: &'a [u64],
    ) -> Option<LevelsView<'a>>
        ensures { SomeIff result (HasLevels (levels_with len width ones.now zeros.now quarters.now))
            (levels_with len width ones.now zeros.now quarters.now) }
    {
        if !are_numbers(len, width as usize) {
            return None;
        }
        if ones.len() != width as usize || zeros.len() != width as usize {
            return None;
        }
        let bits = len * width as usize;
        if !quarters.is_empty() && quarters.len() < bits.div_ceil(512) {
            return None;
        }
        Some(LevelsView::sized(len, width, ones, zeros, quarters))
    }

    /// What `over` finds, where it is known that the tables and the quarters have the lengths that it requires.
    ///
    /// # Conditions
    /// `over` of the same is not `None`.
    ///
    /// ```
    /// LevelsView::sized(6, 3, ones, zeros, &[]);   // of three words each
    /// ```
    #[inline(always)]
    pub fn sized(
        len: usize,
        width: u8,
        ones: &'a [u64],
        zeros: &'a [u64],
        quarters: &'a [u64],
    ) -> LevelsView<'a>
        requires { HasLevels (levels_with len width ones.now zeros.now quarters.now) }
        ensures { result ≡ levels_with len width ones.now zeros.now quarters.now }
    {
        LevelsView {
            len,
            width,
            ones,
            zeros,
            known: 0,
            starts: NONE_KNOWN.as_slice(),
            compact: quarters.is_empty(),
            quarters,
        }
    }

    /// The levels of these tables, which are of the right lengths: `known` bits are known from the starts, and ranks go
    /// by the quarters unless the levels are compact.
    #[inline(always)]
    pub(crate) fn of_tables(
        len: usize,
        width: u8,
        ones: &'a [u64],
        zeros: &'a [u64],
        known: u8,
        starts: &'a [u64],
        compact: bool,
        quarters: &'a [u64],
    ) -> LevelsView<'a>
        requires { HasLevels (tables_of len width ones.now zeros.now known starts.now compact quarters.now) }
        ensures { result ≡ tables_of len width ones.now zeros.now known starts.now compact quarters.now }
    {
        LevelsView {
            len,
            width,
            ones,
            zeros,
            known,
            starts,
            compact,
            quarters,
        }
    }

    /// The same levels once more.
    ///
    /// ```
    /// levels.copy().len();   // levels.len()
    /// ```
    #[inline(always)]
    pub fn copy(&self) -> LevelsView<'a>
        ensures { result ≡ self.now }
    {
        LevelsView {
            len: self.len,
            width: self.width,
            ones: self.ones,
            zeros: self.zeros,
            known: self.known,
            starts: self.starts,
            compact: self.compact,
            quarters: self.quarters,
        }
    }

    /// These levels without their table of starts: no bits are known.
    #[inline(always)]
    pub(crate) fn without_starts(&self) -> LevelsView<'a>
        ensures { result ≡ tables_of self.now.len self.now.width self.now.ones self.now.zeros 0 (0 ∷ [])
            self.now.compact self.now.quarters }
    {
        LevelsView::of_tables(
            self.len,
            self.width,
            self.ones,
            self.zeros,
            0,
            NONE_KNOWN.as_slice(),
            self.compact,
            self.quarters,
        )
    }

    /// The table of starts, which has an entry for each prefix of the known length.
    ///
    /// ```
    /// levels.starts().len();   // 1 where none are known
    /// ```
    #[inline(always)]
    pub fn starts(&self) -> &'a [u64]
        ensures starts { result.now ≡ self.now.starts }
        ensures len { length result.now ≡ 2 ^ self.now.known }
    {
        self.starts
    }

    /// How many numbers there are.
    ///
    /// ```
    /// levels.len();   // 6
    /// ```
    #[inline(always)]
    pub fn len(&self) -> usize
        ensures len { result ≡ self.now.len }
        ensures levels { HasLevels self.now }
    {
        self.len
    }

    /// How many bits each number has at most.
    ///
    /// ```
    /// levels.width();   // 3
    /// ```
    #[inline(always)]
    pub fn width(&self) -> u8
        ensures width { result ≡ self.now.width }
        ensures levels { HasLevels self.now }
    {
        self.width
    }

    /// The table of the 1 bits before each level.
    ///
    /// ```
    /// levels.ones().len();   // 3
    /// ```
    #[inline(always)]
    pub fn ones(&self) -> &'a [u64]
        ensures { result.now ≡ self.now.ones }
    {
        self.ones
    }

    /// The table of the 0 bits of each level.
    ///
    /// ```
    /// levels.zeros().len();   // 3
    /// ```
    #[inline(always)]
    pub fn zeros(&self) -> &'a [u64]
        ensures { result.now ≡ self.now.zeros }
    {
        self.zeros
    }

    /// The quarters, none where the levels are compact.
    ///
    /// ```
    /// levels.quarters().len();   // 0 of compact levels
    /// ```
    #[inline(always)]
    pub fn quarters(&self) -> &'a [u64]
        ensures { result.now ≡ self.now.quarters }
    {
        self.quarters
    }

    /// Whether ranks go by the index alone, and not by the quarters.
    ///
    /// ```
    /// levels.is_compact();   // true without quarters
    /// ```
    #[inline(always)]
    pub fn is_compact(&self) -> bool
        ensures { result ≡ self.now.compact }
    {
        self.compact
    }

    /// How many of the highest bits are known from the table of starts.
    ///
    /// ```
    /// levels.known();   // 0 without such a table
    /// ```
    #[inline(always)]
    pub fn known(&self) -> u8
        ensures known { result ≡ self.now.known }
        ensures most { result ≤ self.now.width }
    {
        self.known
    }

    /// Where the numbers whose known high bits are `begin` start after these levels, as the table of starts says;
    /// `None` only where the table belongs to no matrix.
    #[inline(always)]
    pub(crate) fn start_at(&self, begin: u64) -> Option<usize>
        requires begin { begin < 2 ^ self.now.known }
        ensures inside { IfSome result (λ start. start ≤ self.now.len) }
        ensures start { (xs : List ℕ) (b : List Bool) (x : ℕ) → IsMatrixOf xs self.now b
            → x < 2 ^ self.now.width → x / 2 ^ (self.now.width - self.now.known) ≡ begin
            → result ≡ Some (level_position xs self.now.width x self.now.known 0) }
    {
        let start = self.starts()[begin as usize] as usize;
        if start <= self.len() {
            Some(start)
        } else {
            None
        }
    }

    /// Where the numbers that begin with the known high bits of this one start after these levels, as the table of
    /// starts says; `None` only where the table belongs to no matrix.
    #[inline(always)]
    pub(crate) fn start_of(&self, number: u64) -> Option<usize>
        requires fit { number < 2 ^ self.now.width }
        ensures inside { IfSome result (λ start. start ≤ self.now.len) }
        ensures start { (xs : List ℕ) (b : List Bool) → IsMatrixOf xs self.now b
            → result ≡ Some (level_position xs self.now.width number self.now.known 0) }
    {
        self.start_at(without_lowest(number, self.width() - self.known()))
    }

    /// How many 1 bits stand before a level, as the table says.
    #[inline(always)]
    pub(crate) fn ones_before_level(&self, depth: u8) -> usize
        requires { depth < self.now.width }
        ensures { result ≡ slice_index self.now.ones depth }
    {
        self.ones[depth as usize] as usize
    }

    /// How many items of a level have a 0 bit, as the table says.
    #[inline(always)]
    pub(crate) fn zeros_of_level(&self, depth: u8) -> usize
        requires { depth < self.now.width }
        ensures { result ≡ slice_index self.now.zeros depth }
    {
        self.zeros[depth as usize] as usize
    }
}
