//! Samples as C passes them, and as the library takes them.
ghost use Rattle.std.specs.Prelude.{◌≡◌, min};
ghost use Rattle.tables_view.specs.Samples.{enough_samples};
ghost use Rattle.bitm_abi.specs.Samples.{borrowed_samples, HasNoSamples};

use tables_view::{SamplesView, samples_len};

/// Samples of one kind of bit: for C two pairs of a pointer and a length, and a number.
#[repr(C)]
#[derive(Clone, Copy)]
pub struct Samples<'a> {
    /// The samples, and nothing after them.
    pub samples: &'a [u32],
    /// The number of samples before each upper block.
    pub starts: &'a [usize],
    /// The logarithm of the number of bits that one sample stands for.
    pub log2: u32,
    /// Room for later versions; this one does not read it.
    pub reserved: u32,
}

/// A logarithm as the library takes it: 31 in place of any above 31.
#[inline(always)]
pub fn narrow_log2(log2: u32) -> u8
    ensures { result ≡ min log2 31 }
{
    log2.min(31) as u8
}

/// The room for samples of one kind of `words_len` words: ceil(words_len / 2^(log2 - 6)) samples.
#[inline(always)]
pub fn samples_room(words_len: usize, log2: u32) -> usize
    ensures { result ≡ enough_samples words_len log2 }
{
    samples_len(words_len, narrow_log2(log2))
}

impl<'a> Samples<'a> {
    /// No samples.
    #[inline(always)]
    pub fn none() -> Samples<'a>
        ensures { HasNoSamples result }
    {
        Samples {
            samples: &[],
            starts: &[],
            log2: 0,
            reserved: 0,
        }
    }

    /// The samples as the library takes them.
    #[inline(always)]
    pub fn borrowed(&self) -> SamplesView<'a>
        ensures { result ≡ borrowed_samples self.now }
    {
        SamplesView {
            samples: self.samples,
            starts: self.starts,
            log2: narrow_log2(self.log2),
        }
    }
}
