//! The index of a text in a block as C passes it, and as the library queries it.
ghost use Rattle.std.specs.Prelude.{◌≡◌, SomeIff};
ghost use Rattle.text_block.specs.Block.{HasTextLengths};
ghost use Rattle.bitm_trees_c.specs.Text.{text_parts};

use bitm_abi::Matrix;
use text_block::TextView;

/// The index of a text in the caller's memory: the matrices of its letters and of its marks, and what else its block
/// holds.
#[repr(C)]
#[derive(Clone, Copy)]
pub struct Text<'a> {
    /// The letter before each row.
    pub letters: Matrix<'a>,
    /// Which rows are sampled.
    pub marks: Matrix<'a>,
    /// The first row of each letter.
    pub starts: &'a [u64],
    /// The samples: a position in the lower half of each, and a row in the upper half.
    pub samples: &'a [u64],
    /// The row of the whole text.
    pub first: usize,
    /// Each how many letters a position is sampled.
    pub step: u64,
    /// Which bytes the letters stand for, as 256 bits; no words where letters are numbers.
    pub used: &'a [u64],
    /// Room for later versions; this one does not read it.
    pub reserved: [u64; 2],
}

impl<'a> Text<'a> {
    /// What C is passed for a view of a block.
    #[inline(always)]
    pub(crate) fn of(view: &TextView<'a>) -> Text<'a>
        ensures { text_parts result ≡ view.now }
    {
        Text {
            letters: Matrix::of(view.letters()),
            marks: Matrix::of(view.marks()),
            starts: view.starts(),
            samples: view.samples(),
            first: view.first(),
            step: view.step() as u64,
            used: view.used(),
            reserved: [0; 2],
        }
    }

    /// The index as the library queries it, which does not look at hints of its matrices; `None` exactly where a length
    /// is not right.
    #[inline(always)]
    pub(crate) fn view(&self) -> Option<TextView<'a>>
        ensures { SomeIff result (HasTextLengths (text_parts self.now)) (text_parts self.now) }
    {
        if self.step > u32::MAX as u64 {
            return None;
        }
        let letters = self.letters.bare().view()?;
        let marks = self.marks.bare().view()?;
        TextView::over(
            letters,
            marks,
            self.starts,
            self.samples,
            self.used,
            self.first,
            self.step as u32,
        )
    }
}
