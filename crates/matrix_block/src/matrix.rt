//! A matrix in a block that may hold anything.
ghost use Rattle.std.specs.Prelude.{◌≡◌, ◌*◌, ◌≤◌, ◌↔◌, true, false, IsTrue, SomeIff, length};
ghost use Rattle.bitm_tables.specs.Reads.{none_read};
ghost use Rattle.bitm_selection.specs.Hints.{AreHints};
ghost use Rattle.bitm_tables.specs.Tables.{bits_in, HasTables};
ghost use Rattle.levels_view.specs.Answers.{IsIndexOf, IsIndexWithin, IsNumberOf, IsNumberWithin};
ghost use Rattle.levels_view.specs.Answers.{IsRankOf, IsRankWithin};
ghost use Rattle.matrix_block.specs.Block.{items_in, matrix_in, parts_of, quarters_in, with_hints};
ghost use Rattle.matrix_block.specs.Block.{ones_by_counts, HasHints, HasLengths, HasMatrixSections, HoldsMatrix};
ghost use Rattle.matrix_block.specs.Block.{IsMatrixBlock, IsSoundBlock};

use crate::hints::{has_quarters, hints_of, ones_by_counts};
use crate::sections::{Lens, MATRIX};
use bitm_block::Block;
use bitm_selection::{Hints, are_hints_within, hints_room};
use bitm_tables::answer::Answer;
use bitm_tables::source::Probe;
use block_tables::{are_tables, probe};
use levels_view::{LevelsView, are_levels};
use std::marker::Model;

/// Whether header and directory describe a matrix.
#[inline(always)]
fn is_matrix_block(block: &Block<'_>) -> bool
    ensures { IsTrue result ↔ HasMatrixSections block.now }
{
    block.is_of(MATRIX, [1u64, 2, 3, 11, 12].as_slice())
}

/// The quarters in a block, none where it has no such section.
#[inline(always)]
fn quarters_of<'a>(block: &Block<'a>) -> &'a [u64]
    ensures { result.now ≡ quarters_in block.now }
{
    if !has_quarters(block) {
        return &[];
    }
    match block.section(5) {
        Some(quarters) => quarters,
        None => unreachable!(),
    }
}

/// A view of a wavelet matrix in a block whose header and directory are right.
///
/// Contracts see the tables of the levels, the words and their two tables, and the hints of the words. These may hold
/// anything: a call says its answer where they form a matrix, and where they do not.
///
/// ```
/// let Some(matrix) = MatrixView::open(&block) else { .. };
/// matrix.check();       // true of a block that `build` wrote
/// matrix.get(4);        // Found(5), Absent or Wrong
/// matrix.rank(1, 4);    // Found(2), Absent or Wrong
/// ```
#[derive(Drop)]
pub struct MatrixView<'a> {
    // These are 128 bytes, which are copied without a call: so no table of starts is among them.
    len: usize,
    width: u8,
    ones: &'a [u64],
    zeros: &'a [u64],
    quarters: &'a [u64],
    words: &'a [u64],
    upper: &'a [u64],
    lower: &'a [u64],
    hints: &'a [u64],
}

impl<'a> Model for MatrixView<'a> {
    ghost use Rattle.levels_view.specs.Levels.{levels_with};
    ghost use Rattle.matrix_block.specs.Block.{parts_of, with_hints, HasLengths, MatrixParts};

    ghost Value = { MatrixParts };

    ghost view = { λ m. with_hints m.hints.now
        (parts_of (levels_with m.len m.width m.ones.now m.zeros.now m.quarters.now)
        m.words.now m.upper.now m.lower.now) };

    ghost invariant = { λ m. HasLengths (with_hints m.hints.now
        (parts_of (levels_with m.len m.width m.ones.now m.zeros.now m.quarters.now)
        m.words.now m.upper.now m.lower.now)) };
}

impl<'a> MatrixView<'a> {
    /// The matrix in a block, by its quarters and hints where it has these; `None` exactly where the words are no block
    /// (`Block::open` says why), the block is of another kind, or a section has a length that does not fit the given
    /// numbers. The view has the hints that a section of the role `HINTS` holds, after the quarters or, without these,
    /// after the first five; where there is none, or it is not as long as the hints of the words, it has none. What the
    /// sections hold is not looked at.
    ///
    /// # Cost
    /// Header and directory are read, at most 80 words (evident from the code).
    ///
    /// ```
    /// MatrixView::open(block.as_slice());   // Some(..)
    /// ```
    pub fn open(words: &'a [u64]) -> Option<MatrixView<'a>>
        ensures { SomeIff result (IsMatrixBlock words.now) (matrix_in words.now) }
    {
        let Ok(block) = Block::open(words) else {
            return None;
        };
        if !is_matrix_block(&block) || words[4] > 64 {
            return None;
        }
        let levels = match (block.section(3), block.section(4)) {
            (Some(ones), Some(zeros)) => {
                let quarters = quarters_of(&block);
                LevelsView::over(words[3] as usize, words[4] as u8, ones, zeros, quarters)?
            }
            _ => return None,
        };
        match (block.section(0), block.section(1), block.section(2)) {
            (Some(bits), Some(upper), Some(lower)) => {
                let hints = hints_of(&block, bits.len());
                MatrixView::over(levels, bits, upper, lower)?.with_hints(hints)
            }
            _ => None,
        }
    }

    /// The matrix in a block that is as it was written; `None` exactly where `open` says so, a section or the zeros
    /// after it are not as they were written (`Block::verify`), or the sections hold no matrix or hints of other words
    /// (`check`). So a block in which one word was changed is refused, and every answer is right for the numbers.
    ///
    /// # Cost
    /// A pass over the words, and the cost of `check` (evident from the code).
    ///
    /// ```
    /// MatrixView::open_checked(block.as_slice());   // Some(..) of a block that `build` wrote
    /// ```
    pub fn open_checked(words: &'a [u64]) -> Option<MatrixView<'a>>
        ensures { SomeIff result (IsSoundBlock words.now) (matrix_in words.now) }
    {
        let view = MatrixView::open(words)?;
        let Ok(block) = Block::open(words) else {
            return None;
        };
        if block.verify() && view.check() {
            Some(view)
        } else {
            None
        }
    }

    /// The levels of numbers in words with two tables, without hints; `None` exactly where a length does not fit the
    /// numbers, or the levels have a table of starts.
    ///
    /// ```
    /// MatrixView::over(levels, words, upper, lower);   // Some(..) of one word each, for six numbers of three bits
    /// ```
    #[tactic(auto, using(crate::proofs::PlainLemmas::plain_levels))]
    #[inline]
    pub fn over(
        levels: LevelsView<'a>,
        words: &'a [u64],
        upper: &'a [u64],
        lower: &'a [u64],
    ) -> Option<MatrixView<'a>>
        ensures { SomeIff result (HasLengths (parts_of levels.entry words.now upper.now lower.now))
            (parts_of levels.entry words.now upper.now lower.now) }
    {
        let lens = Lens::of(levels.len(), levels.width() as usize);
        if words.len() != lens.words || upper.len() != lens.upper || lower.len() != lens.lower {
            return None;
        }
        let quarters = if levels.is_compact() {
            0
        } else {
            lens.quarters
        };
        if levels.quarters().len() != quarters {
            return None;
        }
        if levels.known() != 0 || levels.starts()[0] != 0 {
            return None;
        }
        if levels.is_compact() != levels.quarters().is_empty() {
            return None;
        }
        Some(MatrixView {
            len: levels.len(),
            width: levels.width(),
            ones: levels.ones(),
            zeros: levels.zeros(),
            quarters: levels.quarters(),
            words,
            upper,
            lower,
            hints: &[],
        })
    }

    /// The matrix with hints of its words, in place of the hints that it had: the hints of the 1 bits and after them
    /// the hints of the 0 bits, as `write_hints_within` of `bitm_selection` writes them, or an empty list. They shorten
    /// `select`. `None` exactly where the list is neither empty nor as long as `hints_room` of `bitm_selection` says.
    ///
    /// ```
    /// let Some(matrix) = matrix.with_hints(&hints) else { return };
    /// matrix.select(1, 2);   // Found(5)
    /// ```
    #[inline(always)]
    pub fn with_hints(self, hints: &'a [u64]) -> Option<MatrixView<'a>>
        ensures { SomeIff result (HasLengths (with_hints hints.now self.entry))
            (with_hints hints.now self.entry) }
    {
        if !hints.is_empty() && hints.len() != hints_room(self.words.len()) {
            return None;
        }
        let MatrixView {
            len,
            width,
            ones,
            zeros,
            quarters,
            words,
            upper,
            lower,
            ..
        } = self;
        Some(MatrixView {
            len,
            width,
            ones,
            zeros,
            quarters,
            words,
            upper,
            lower,
            hints,
        })
    }

    /// How many numbers the header announces.
    ///
    /// ```
    /// matrix.len();   // 6
    /// ```
    #[inline(always)]
    pub fn len(&self) -> usize
        ensures { result ≡ self.now.levels.len }
    {
        self.len
    }

    /// How many bits each number has at most, as the header announces.
    ///
    /// ```
    /// matrix.width();   // 3
    /// ```
    #[inline(always)]
    pub fn width(&self) -> u8
        ensures { result ≡ self.now.levels.width }
    {
        self.width
    }

    /// The words that hold the bits of the numbers.
    ///
    /// ```
    /// matrix.words().len();   // 1
    /// ```
    #[inline(always)]
    pub fn words(&self) -> &'a [u64]
        ensures { result.now ≡ self.now.lists.words }
    {
        self.words
    }

    /// The upper table of the words.
    ///
    /// ```
    /// matrix.upper().len();   // 1
    /// ```
    #[inline(always)]
    pub fn upper(&self) -> &'a [u64]
        ensures { result.now ≡ self.now.lists.upper }
    {
        self.upper
    }

    /// The lower table of the words.
    ///
    /// ```
    /// matrix.lower().len();   // 1
    /// ```
    #[inline(always)]
    pub fn lower(&self) -> &'a [u64]
        ensures { result.now ≡ self.now.lists.lower }
    {
        self.lower
    }

    /// The hints of the words; no words where there are none.
    ///
    /// ```
    /// matrix.hints().len();   // 2 of a block with hints
    /// ```
    #[inline(always)]
    pub fn hints(&self) -> &'a [u64]
        ensures { result.now ≡ self.now.hints }
    {
        self.hints
    }

    /// The levels, and a source over the words and tables whose reads are counted from 0.
    ///
    /// ```
    /// let (levels, mut source) = matrix.parts();
    /// levels.total_get_on(&mut source, 4);   // Found(5)
    /// ```
    #[tactic(auto, using(bitm::proofs::BitLaws::bits_are_counted))]
    #[inline(always)]
    pub fn parts(&self) -> (LevelsView<'a>, Probe<'_>)
        ensures levels { result.0 ≡ self.now.levels }
        ensures lists { result.1.lists ≡ self.now.lists }
        ensures lengths { HasLengths self.now }
        ensures room { self.now.levels.width * self.now.levels.len
            ≤ length (bits_in self.now.lists) }
        ensures reads { result.1.reads ≡ none_read }
    {
        let levels = LevelsView::sized(self.len, self.width, self.ones, self.zeros, self.quarters);
        (levels, probe(self.words, self.upper, self.lower))
    }

    /// A way to find the bits of the words, by the hints: what `LevelsView::total_select_by` takes.
    ///
    /// ```
    /// levels.total_select_by(&matrix.finder(), &mut source, 1, 2);   // Found(5)
    /// ```
    #[inline(always)]
    pub fn finder(&self) -> Hints<'a>
        ensures { HasHints self.now → AreHints true self.now.lists.words result.ones.now
            × AreHints false self.now.lists.words result.zeros.now }
    {
        Hints::over(self.hints, self.ones_by_counts())
    }

    /// How many 1 bits the tables of the levels say that there are.
    #[inline(always)]
    fn ones_by_counts(&self) -> usize
        ensures { result ≡ ones_by_counts self.now.levels.len self.now.levels.ones self.now.levels.zeros }
    {
        ones_by_counts(self.len, self.ones, self.zeros)
    }

    /// Whether there are no hints, or they match the words, where the tables do.
    fn has_hints(&self) -> bool
        requires { HasTables self.now.lists }
        ensures { IsTrue result ↔ HasHints self.now }
    {
        let (_levels, mut source) = self.parts();
        are_hints_within(&mut source, self.ones_by_counts(), self.hints)
    }

    /// Whether the block holds a matrix, with the hints of its words or none: then the answers are right for its
    /// numbers.
    ///
    /// # Cost
    /// One pass over the words, the cost of `levels_view::are_levels`, and one selection for each hint.
    ///
    /// ```
    /// matrix.check();   // true
    /// ```
    pub fn check(&self) -> bool
        ensures { IsTrue result ↔ (HoldsMatrix self.now × HasHints self.now) }
    {
        if !are_tables(self.words, self.upper, self.lower) {
            return false;
        }
        let (levels, mut source) = self.parts();
        are_levels(&levels, &mut source) && self.has_hints()
    }

    /// Number `i`. Whatever the block holds, it has no more bits than the width, and the answer is `Absent` exactly
    /// where there is no such number. Where the block holds a matrix, the answer is never `Wrong`.
    ///
    /// # Cost
    /// The cost of `LevelsView::total_get_on`.
    ///
    /// ```
    /// matrix.get(4);   // Found(5)
    /// ```
    #[inline]
    pub fn get(&self, i: usize) -> Answer<u64>
        ensures inside { IsNumberWithin self.now.levels.len self.now.levels.width i result }
        ensures answer { HoldsMatrix self.now → IsNumberOf (items_in self.now) i result }
    {
        let (levels, mut source) = self.parts();
        levels.total_get_on(&mut source, i)
    }

    /// How many of the first `i` numbers are this one. Whatever the block holds, they are at most `i`, and the answer
    /// is `Absent` exactly where there are fewer numbers. Where the block holds a matrix, the answer is never `Wrong`.
    ///
    /// # Cost
    /// The cost of `LevelsView::total_rank_on`.
    ///
    /// ```
    /// matrix.rank(1, 4);   // Found(2)
    /// ```
    #[inline]
    pub fn rank(&self, number: u64, i: usize) -> Answer<usize>
        ensures inside { IsRankWithin self.now.levels.len i result }
        ensures answer { HoldsMatrix self.now → IsRankOf (items_in self.now) number i result }
    {
        let (levels, mut source) = self.parts();
        levels.total_rank_on(&mut source, number, i)
    }

    /// The index of this number with exactly `k` such numbers before it, by the hints. Whatever the block holds, it is
    /// the index of a number. Where the block holds a matrix, and there are no hints or those of its words, the answer
    /// is `Absent` exactly where there are no more than `k` such numbers, and never `Wrong`.
    ///
    /// # Cost
    /// The cost of `LevelsView::total_select_by`; a search reads a hint and nine words, and at most what one by binary
    /// search reads besides, whatever the hints hold.
    ///
    /// ```
    /// matrix.select(1, 2);   // Found(5)
    /// ```
    #[inline]
    pub fn select(&self, number: u64, k: usize) -> Answer<usize>
        ensures inside { IsIndexWithin self.now.levels.len result }
        ensures answer { HoldsMatrix self.now → HasHints self.now
            → IsIndexOf (items_in self.now) number k result }
    {
        let (levels, mut source) = self.parts();
        levels.total_select_by(&self.finder(), &mut source, number, k)
    }
}
