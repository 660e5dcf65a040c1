//! A matrix in a block as C passes it, and as the library queries it.
ghost use Rattle.std.specs.Prelude.{◌≡◌, [], SomeIff};
ghost use Rattle.matrix_block.specs.Block.{with_hints, HasLengths};
ghost use Rattle.bitm_abi.specs.Matrix.{matrix_parts};

use levels_view::LevelsView;
use matrix_block::MatrixView;

/// A matrix in the caller's memory: how many numbers it holds and of how many bits, and the words, tables and hints of
/// its block, for C seven pairs of a pointer and a length.
#[repr(C)]
#[derive(Clone, Copy)]
pub struct Matrix<'a> {
    /// The number of numbers.
    pub len: usize,
    /// How many bits each number has at most.
    pub width: u64,
    /// The words that hold the bits of the numbers.
    pub words: &'a [u64],
    /// The upper table of these words.
    pub upper: &'a [u64],
    /// The lower table of these words.
    pub lower: &'a [u64],
    /// The 1 bits before each level.
    pub ones: &'a [u64],
    /// The 0 bits of each level.
    pub zeros: &'a [u64],
    /// The quarters of the words, none where the block is compact.
    pub quarters: &'a [u64],
    /// The hints of the words, or no words.
    pub hints: &'a [u64],
}

impl<'a> Matrix<'a> {
    /// What C is passed for a view of a block.
    #[tactic(auto, using(matrix_block::proofs::PlainLemmas::plain_parts))]
    #[inline(always)]
    pub fn of(view: &MatrixView<'a>) -> Matrix<'a>
        ensures { matrix_parts result ≡ view.now }
    {
        let (levels, _) = view.parts();
        Matrix {
            len: levels.len(),
            width: levels.width() as u64,
            words: view.words(),
            upper: view.upper(),
            lower: view.lower(),
            ones: levels.ones(),
            zeros: levels.zeros(),
            quarters: levels.quarters(),
            hints: view.hints(),
        }
    }

    /// The matrix without its hints.
    #[inline(always)]
    pub fn bare(&self) -> Matrix<'a>
        ensures { matrix_parts result ≡ with_hints [] (matrix_parts self.now) }
    {
        Matrix {
            len: self.len,
            width: self.width,
            words: self.words,
            upper: self.upper,
            lower: self.lower,
            ones: self.ones,
            zeros: self.zeros,
            quarters: self.quarters,
            hints: &[],
        }
    }

    /// The matrix as the library queries it; `None` exactly where a length is not right.
    #[inline(always)]
    pub fn view(&self) -> Option<MatrixView<'a>>
        ensures { SomeIff result (HasLengths (matrix_parts self.now)) (matrix_parts self.now) }
    {
        if self.width > 64 {
            return None;
        }
        let width = self.width as u8;
        let levels = LevelsView::over(self.len, width, self.ones, self.zeros, self.quarters)?;
        MatrixView::over(levels, self.words, self.upper, self.lower)?.with_hints(self.hints)
    }
}
