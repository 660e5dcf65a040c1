//! Borrowed samples, and the room that they need.
ghost use Rattle.std.specs.Prelude.{◌≡◌, ◌≤◌, []};
ghost use Rattle.bitm_strategies.specs.Density.{clamped_log};
ghost use Rattle.tables_view.specs.Samples.{enough_samples};

/// A caller's logarithm, clamped to 7 to 31.
#[inline(always)]
pub(crate) fn clamped_log(log2: u8) -> u8
    ensures value { result ≡ clamped_log log2 }
    ensures low { 7 ≤ result }
    ensures high { result ≤ 31 }
{
    log2.clamp(7, 31)
}

/// Borrowed samples of 1 bits or of 0 bits: one for each 2^`log2` such bits of an upper block, which has 2^32 bits.
///
/// They may hold anything, and there may be any number of them: each call says its answer where they match the words,
/// and where they do not.
#[derive(Clone, Copy)]
pub struct SamplesView<'a> {
    /// The samples of all upper blocks in turn, and nothing after them.
    pub samples: &'a [u32],
    /// The number of samples before each upper block.
    pub starts: &'a [usize],
    /// The logarithm of the number of bits that share a sample; it is clamped to 7 to 31.
    pub log2: u8,
}

impl<'a> SamplesView<'a> {
    /// No samples: a selection with them goes by the tables alone (evident from the code).
    ///
    /// ```
    /// SamplesView::none().samples;   // []
    /// ```
    #[inline(always)]
    pub fn none() -> SamplesView<'a>
        ensures samples { result.samples.now ≡ [] }
        ensures starts { result.starts.now ≡ [] }
    {
        SamplesView {
            samples: &[],
            starts: &[],
            log2: 0,
        }
    }
}

/// The room for samples of one kind of the given number of words: ceil(words / 2^(`log2` - 6)) samples. The logarithm
/// is clamped to 7 to 31. `build_samples` returns the exact number, which is never greater: a caller can take memory
/// for this number and give back the rest.
#[inline(always)]
pub fn samples_len(words: usize, log2: u8) -> usize
    ensures { result ≡ enough_samples words log2 }
{
    words.div_ceil(1 << (clamped_log(log2) - 6))
}
