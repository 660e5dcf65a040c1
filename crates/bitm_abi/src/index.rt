//! Words and tables in the caller's memory, and the index over them: what the calls of an index take.
ghost use Rattle.std.specs.Prelude.{◌≡◌, ◌≢◌, ◌^◌, ◌<◌, ◌≤◌, SomeIff, length};
ghost use Rattle.bitm_view.specs.Cut.{IsSizedCut};
ghost use Rattle.bitm_abi.specs.Index.{cut_of, sampled_cut_of};
ghost use Rattle.bitm_abi.specs.Samples.{borrowed_samples};

use crate::samples::Samples;
use bitm_view::IndexView;
use tables_view::{SamplesView, TablesView};

/// An index in the caller's memory: words, whose first `bits_len` bits are the bit vector, with their two tables, and
/// samples of either kind of bit, which may be none. For C each slice is a pointer and a length.
#[repr(C)]
#[derive(Clone, Copy)]
pub struct Index<'a> {
    /// The words.
    pub words: &'a [u64],
    /// The upper table.
    pub upper: &'a [usize],
    /// The lower table.
    pub lower: &'a [u64],
    /// The length of the bit vector in bits.
    pub bits_len: u64,
    /// Samples of the 1 bits.
    pub ones: Samples<'a>,
    /// Samples of the 0 bits.
    pub zeros: Samples<'a>,
    /// Room for later versions; this one does not read it.
    pub reserved: [u64; 2],
}

impl<'a> Index<'a> {
    /// The view of the index that the library queries, with its samples; `None` exactly where a length is not right.
    #[inline(always)]
    pub fn view(&self) -> Option<IndexView<'a>>
        ensures { SomeIff result (IsSizedCut (cut_of self.now)) (sampled_cut_of self.now) }
    {
        let tables = TablesView::over(self.words, self.upper, self.lower)?;
        let whole = IndexView::over(tables, self.bits_len as usize)?;
        let of_ones = whole.with_samples::<1>(self.ones.borrowed());
        Some(of_ones.with_samples::<0>(self.zeros.borrowed()))
    }

    /// The view without samples of 1 to 2^18 words; `None` for any other number of words, and where a length is not
    /// right.
    #[inline(always)]
    pub fn few_view(&self) -> Option<IndexView<'a>>
        ensures { SomeIff result (IsSizedCut (cut_of self.now)
            × (0 < length self.now.words.now) × (length self.now.words.now ≤ 2 ^ 18))
            (cut_of self.now) }
    {
        let tables = TablesView::over_few(self.words, self.upper, self.lower)?;
        IndexView::over(tables, self.bits_len as usize)
    }

    /// The view without samples of more than 2^18 words in one upper block; `None` for any other number of words, and
    /// where a length is not right.
    #[inline(always)]
    pub fn large_view(&self) -> Option<IndexView<'a>>
        ensures { SomeIff result (IsSizedCut (cut_of self.now)
            × (2 ^ 18 < length self.now.words.now) × (length self.now.words.now ≤ 2 ^ 26))
            (cut_of self.now) }
    {
        let tables = TablesView::over_large_part(self.words, self.upper, self.lower)?;
        IndexView::over(tables, self.bits_len as usize)
    }

    /// The view without samples; `None` exactly where a length is not right.
    #[inline(always)]
    pub fn bare_view(&self) -> Option<IndexView<'a>>
        ensures { SomeIff result (IsSizedCut (cut_of self.now)) (cut_of self.now) }
    {
        let tables = TablesView::over(self.words, self.upper, self.lower)?;
        IndexView::over(tables, self.bits_len as usize)
    }

    /// The samples of the 1 bits; of the 0 bits where `BIT` is 0.
    #[inline(always)]
    pub fn samples<const BIT: u8>(&self) -> SamplesView<'a>
        ensures zeros { BIT ≡ 0 → result ≡ borrowed_samples self.now.zeros }
        ensures ones { BIT ≢ 0 → result ≡ borrowed_samples self.now.ones }
    {
        if BIT == 0 {
            self.zeros.borrowed()
        } else {
            self.ones.borrowed()
        }
    }
}
