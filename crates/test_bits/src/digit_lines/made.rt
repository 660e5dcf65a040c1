//! Lists of numbers, their digits as lines and table, and each query of these.
ghost use Rattle.std.specs.Prelude.{IfSome};
ghost use Rattle.digits.specs.Tables.{HasDigitSizes};

use digits::answer::Answer;
use digits::building::build;
use digits::checking::check;
use digits::ranking::{digit_and_rank_on, digit_count_on, digit_on, digit_rank_on};
use digits::selecting::digit_select_on;
use digits::sizes::{have_sizes, lines_len, table_len};
use digits::source::DigitProbe;
use std::alloc::Global;
use std::test::Fail;

/// Lines, their table and the number of digits.
#[derive(Drop)]
pub struct Made {
    pub lines: Vec<u64>,
    pub table: Vec<u64>,
    pub len: usize,
}

/// The digits of numbers from bit `position` on, as lines and table that held ones before.
pub fn make_lines(alloc: Global, numbers: &[u64], position: u8) -> Result<Made, Fail> {
    let len = numbers.len();
    let mut lines = vec![in alloc; u64::MAX; lines_len(len)]?;
    let mut table = vec![in alloc; u64::MAX; table_len(len)]?;
    if position > 63 || !have_sizes(lines.as_slice(), table.as_slice(), len) {
        return Err("there are too many numbers".into());
    }
    build(
        numbers,
        position,
        lines.as_mut_slice(),
        table.as_mut_slice(),
    );
    Ok(Made { lines, table, len })
}

/// Numbers that look random (xorshift), of which few, half or most have a kind's digit at bit 4.
pub fn drawn(alloc: Global, len: usize, kind: u64) -> Result<Vec<u64>, Fail> {
    let mut numbers = Vec::new(alloc);
    let mut state = 88_172_645_463_325_252u64 ^ kind;
    for at in 0..len {
        state ^= state << 13;
        state ^= state >> 7;
        state ^= state << 17;
        numbers.push(match kind % 6 {
            0 => state,
            1 => state | 48,
            2 => state & !48,
            3 => at as u64,
            4 => state | (state >> 8 & state >> 16 & state >> 24 & 48),
            _ => at as u64 / 50,
        })?;
    }
    Ok(numbers)
}

impl Made {
    /// A source over the lines and the table.
    fn probe(&self) -> Option<DigitProbe<'_>>
        ensures { IfSome result (λ p. HasDigitSizes p.lists) }
    {
        DigitProbe::over(self.lines.as_slice(), self.table.as_slice(), self.len)
    }

    /// Whether the counts are those of the digits.
    pub fn is_right(&self) -> bool {
        let (lines, table) = (self.lines.as_slice(), self.table.as_slice());
        have_sizes(lines, table, self.len) && check(lines, table, self.len)
    }

    /// `digit_on` these.
    pub fn digit(&self, position: usize) -> Option<u8> {
        let mut source = self.probe()?;
        digit_on(&mut source, position)
    }

    /// `digit_rank_on` these, of the lowest two bits of a digit.
    pub fn rank(&self, digit: u8, index: usize) -> Option<usize> {
        let mut source = self.probe()?;
        digit_rank_on(&mut source, digit % 4, index)
    }

    /// `digit_count_on` these, of the lowest two bits of a digit.
    pub fn count(&self, digit: u8) -> Option<usize> {
        let mut source = self.probe()?;
        Some(digit_count_on(&mut source, digit % 4))
    }

    /// `digit_and_rank_on` these.
    pub fn digit_and_rank(&self, position: usize) -> Option<(u8, usize)> {
        let mut source = self.probe()?;
        digit_and_rank_on(&mut source, position)
    }

    /// `digit_select_on` these, of the lowest two bits of a digit.
    pub fn select(&self, digit: u8, rank: usize) -> Option<Answer<usize>> {
        let mut source = self.probe()?;
        Some(digit_select_on(&mut source, digit % 4, rank))
    }
}
