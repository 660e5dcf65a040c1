//! Whether the sections of a block are as they were written.
ghost use Rattle.std.specs.Prelude.{◌<◌, ◌↔◌, IsTrue};
ghost use Rattle.bitm_block.specs.Header.{count_in, IsBlock, IsKept, IsVerified};

use crate::checksum::checksum_in;
use crate::layout::{ENTRY_WORDS, HEADER_WORDS};
use crate::reading::{Block, are_zeros, begin_at, entry_at, version_at};

/// Whether section `i` of a block has its checksum, and zeros stand after it up to the next one.
fn is_kept(block: &[u64], i: usize) -> bool
    requires block { IsBlock block.now }
    requires inside { i < count_in block.now }
    ensures { IsTrue result ↔ IsKept block.now i }
{
    let at = begin_at(block, i);
    let section = entry_at(block, i);
    let finish = at + section.words();
    let sum = block[HEADER_WORDS + ENTRY_WORDS * i + 3];
    sum == checksum_in(version_at(block), &block[at..finish])
        && are_zeros(&block[finish..at + section.room()])
}

impl<'a> Block<'a> {
    /// Whether all sections are as they were written: each has its checksum, and zeros stand after it up to the next
    /// one. So each change of one word after the directory is seen (`sees_one_word`).
    ///
    /// # Cost
    /// One pass over the words, which stops at the first section that is not (evident from the code).
    ///
    /// ```
    /// block.verify();   // true of a block that `seal` wrote
    /// ```
    pub fn verify(&self) -> bool
        ensures { IsTrue result ↔ IsVerified self.now }
    {
        for i in 0..self.sections() {
            if !is_kept(self.words(), i) {
                return false;
            }
        }
        true
    }
}

/// Whether words are a block whose sections are as they were written (`Block::open`, `Block::verify`).
///
/// # Cost
/// One pass over the words (evident from the code).
///
/// ```
/// is_verified(block.as_slice());          // true of what `seal` wrote
/// is_verified(&block.as_slice()[..55]);   // false
/// ```
pub fn is_verified(words: &[u64]) -> bool
    ensures { IsTrue result ↔ (IsBlock words.now × IsVerified words.now) }
{
    match Block::open(words) {
        Ok(block) => block.verify(),
        Err(_) => false,
    }
}
