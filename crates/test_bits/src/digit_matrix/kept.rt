//! Lists of numbers, their levels, and each query of these.
use digit_levels::answer::Answer;
use digit_levels::building::build;
use digit_levels::levels::{DigitLevels, have_level_sizes, height_for};
use digits::sizes::{lines_len, table_len};
use matrix_levels::all_fit;
use std::alloc::Global;
use std::test::Fail;

/// Lines, tables and counts of all levels, and the number and the width of the numbers.
#[derive(Drop)]
pub struct Kept {
    pub lines: Vec<u64>,
    pub tables: Vec<u64>,
    pub lesser: Vec<u64>,
    pub len: usize,
    pub width: u8,
}

/// Memory for the levels of `len` numbers, with `word` in each of its words.
pub fn room_for(alloc: Global, len: usize, width: u8, word: u64) -> Result<Kept, Fail> {
    if len > 100_000 || width > 64 {
        return Err("there are too many numbers".into());
    }
    let height = height_for(width) as usize;
    Ok(Kept {
        lines: vec![in alloc; word; height * lines_len(len)]?,
        tables: vec![in alloc; word; height * table_len(len)]?,
        lesser: vec![in alloc; word; height * 4]?,
        len,
        width,
    })
}

/// The levels of numbers, in memory that held ones before.
pub fn make_levels(alloc: Global, numbers: &[u64], width: u8) -> Result<Kept, Fail> {
    let mut kept = room_for(alloc, numbers.len(), width, u64::MAX)?;
    let mut sorted = Vec::from_slice(alloc, numbers)?;
    let mut scratch = vec![in alloc; 0u64; numbers.len()]?;
    let lines = kept.lines.as_mut_slice();
    let tables = kept.tables.as_mut_slice();
    let lesser = kept.lesser.as_mut_slice();
    if !have_level_sizes(&*lines, &*tables, &*lesser, numbers.len(), width) {
        return Err("the memory is not theirs".into());
    }
    if !all_fit(numbers, width) {
        return Err("a number has more bits".into());
    }
    build(
        sorted.as_mut_slice(),
        scratch.as_mut_slice(),
        width,
        lines,
        tables,
        lesser,
    );
    Ok(kept)
}

impl Kept {
    /// The levels.
    fn levels(&self) -> Option<DigitLevels<'_>> {
        DigitLevels::over(
            self.len,
            self.width,
            self.lines.as_slice(),
            self.tables.as_slice(),
            self.lesser.as_slice(),
        )
    }

    /// `get_on` these.
    pub fn get(&self, i: usize) -> Option<Answer<u64>> {
        let levels = self.levels()?;
        Some(levels.get_on(&mut levels.probe(), i))
    }

    /// `rank_on` these.
    pub fn rank(&self, number: u64, i: usize) -> Option<Answer<usize>> {
        let levels = self.levels()?;
        Some(levels.rank_on(&mut levels.probe(), number, i))
    }

    /// `select_on` these.
    pub fn select(&self, number: u64, k: usize) -> Option<Answer<usize>> {
        let levels = self.levels()?;
        Some(levels.select_on(&mut levels.probe(), number, k))
    }
}
