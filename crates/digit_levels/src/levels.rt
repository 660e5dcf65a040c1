//! The levels of a list of numbers, in memory that may hold anything.
ghost use Rattle.std.specs.Prelude.{◌≡◌, ◌+◌, ◌*◌, ◌<◌, ◌≤◌, ◌↔◌, IsTrue, SomeIff, slice_index};
ghost use Rattle.digits.specs.Digits.{digit_from};
ghost use Rattle.digits.specs.Reads.{no_digit_reads};
ghost use Rattle.digits.specs.Tables.{HasDigitSizes};
ghost use Rattle.digit_levels.specs.Levels.{levels_for, quad_position};
ghost use Rattle.digit_levels.specs.Matrix.{digit_matrix, height, level_lists, HasLevelSizes};

use crate::source::LevelProbe;
use digits::sizes::{lines_len, table_len};
use std::marker::Model;

/// How many levels of digits numbers of `width` bits have.
///
/// ```
/// height_for(3);   // 2
/// ```
#[inline(always)]
pub fn height_for(width: u8) -> u8
    ensures { result ≡ levels_for width }
{
    width / 2 + width % 2
}

/// Whether lines, tables and counts of lesser digits have the lengths that `len` numbers of `width` bits need: for each
/// level the lengths that `digits` has for the given number of digits, one level after another, and four counts.
/// Numbers have 1 to 64 bits, and the lines are fewer than 2^58 words.
///
/// ```
/// have_level_sizes(&[0; 16], &[0; 8], &[0; 8], 223, 3);   // true
/// ```
pub fn have_level_sizes(
    lines: &[u64],
    tables: &[u64],
    lesser: &[u64],
    len: usize,
    width: u8,
) -> bool
    ensures { IsTrue result ↔ HasLevelSizes (digit_matrix lines.now tables.now lesser.now len width) }
{
    if width == 0 || width > 64 || len >= 1 << 63 || lines.len() >= 1 << 58 {
        return false;
    }
    let height = height_for(width) as usize;
    lines.len() == height * lines_len(len)
        && tables.len() == height * table_len(len)
        && lesser.len() == height * 4
}

/// The levels of a list of numbers by digits of two bits, in memory that may hold anything: lines and tables of all
/// levels, one after another, and for each level how many of its digits are less than 0, 1, 2 and 3.
///
/// Contracts see the levels as `specs/Matrix.antt` says. A query reads lines and tables by a `LevelProbe`, which
/// counts.
///
/// ```
/// let Some(levels) = DigitLevels::over(6, 3, &lines, &tables, &lesser) else { .. };
/// levels.get_on(&mut levels.probe(), 4);   // Found(5), Absent or Wrong
/// ```
#[derive(Drop)]
pub struct DigitLevels<'a> {
    len: usize,
    width: u8,
    lines: &'a [u64],
    tables: &'a [u64],
    lesser: &'a [u64],
}

impl<'a> Model for DigitLevels<'a> {
    ghost use Rattle.digit_levels.specs.Matrix.{DigitMatrix, HasLevelSizes};

    ghost Value = { DigitMatrix };

    ghost view = { λ l. record {
      lines = l.lines.now;
      tables = l.tables.now;
      lesser = l.lesser.now;
      len = l.len;
      width = l.width;
    } };

    ghost invariant = { λ l. HasLevelSizes (record {
      lines = l.lines.now;
      tables = l.tables.now;
      lesser = l.lesser.now;
      len = l.len;
      width = l.width;
    }) };
}

impl<'a> DigitLevels<'a> {
    /// The levels of `len` numbers of `width` bits; `None` exactly where `have_level_sizes` says that the lengths are
    /// not theirs.
    ///
    /// ```
    /// DigitLevels::over(6, 3, &lines, &tables, &lesser);   // Some(..)
    /// ```
    #[inline]
    pub fn over(
        len: usize,
        width: u8,
        lines: &'a [u64],
        tables: &'a [u64],
        lesser: &'a [u64],
    ) -> Option<DigitLevels<'a>>
        ensures { SomeIff result (HasLevelSizes (digit_matrix lines.now tables.now lesser.now len width))
            (digit_matrix lines.now tables.now lesser.now len width) }
    {
        if !have_level_sizes(lines, tables, lesser, len, width) {
            return None;
        }
        Some(DigitLevels {
            len,
            width,
            lines,
            tables,
            lesser,
        })
    }

    /// What reads these levels; its reads are counted from 0.
    ///
    /// ```
    /// levels.get_on(&mut levels.probe(), 4);
    /// ```
    #[inline(always)]
    pub fn probe(&self) -> LevelProbe<'a>
        ensures { result.reads ≡ no_digit_reads }
    {
        LevelProbe::new(self.lines, self.tables, self.len)
    }

    /// How many numbers there are.
    ///
    /// ```
    /// levels.len();   // 6
    /// ```
    #[inline(always)]
    pub fn len(&self) -> usize
        ensures len { result ≡ self.now.len }
        ensures sizes { HasLevelSizes self.now }
    {
        self.len
    }

    /// How many bits each number has at most.
    ///
    /// ```
    /// levels.width();   // 3
    /// ```
    #[inline(always)]
    pub fn width(&self) -> u8
        ensures width { result ≡ self.now.width }
        ensures sizes { HasLevelSizes self.now }
    {
        self.width
    }

    /// How many levels there are.
    ///
    /// ```
    /// levels.height();   // 2
    /// ```
    #[inline(always)]
    pub fn height(&self) -> u8
        ensures height { result ≡ height self.now }
        ensures most { result ≤ 32 }
    {
        height_for(self.width)
    }

    /// The digit of a number by which a level is sorted.
    #[inline(always)]
    pub(crate) fn digit_of(&self, number: u64, depth: u8) -> u8
        requires { depth < height self.now }
        ensures digit { result ≡ digit_from (quad_position (height self.now) depth) number }
        ensures few { result < 4 }
    {
        (number >> (2 * (self.height() - 1 - depth)) & 3) as u8
    }

    /// How many digits of a level are less than this one, as the counts say.
    #[inline(always)]
    pub(crate) fn lesser_of(&self, depth: u8, digit: u8) -> usize
        requires depth { depth < height self.now }
        requires digit { digit < 4 }
        ensures { result ≡ slice_index self.now.lesser (depth * 4 + digit) }
    {
        self.lesser[depth as usize * 4 + digit as usize] as usize
    }

    /// Opens a level: queries of digits go on over its lines and its table.
    #[inline(always)]
    pub(crate) fn open_level(&self, probe: &mut LevelProbe<'a>, depth: u8)
        requires { depth < height self.now }
        ensures level { probe.new.lists ≡ level_lists self.now depth }
        ensures sizes { HasDigitSizes probe.new.lists }
        ensures reads { probe.new.reads ≡ probe.old.reads }
    {
        let words = lines_len(self.len);
        let numbers = table_len(self.len);
        let first_word = depth as usize * words;
        let first_number = depth as usize * numbers;
        probe.go_to(
            &self.lines[first_word..first_word + words],
            &self.tables[first_number..first_number + numbers],
            self.len,
        );
    }
}
