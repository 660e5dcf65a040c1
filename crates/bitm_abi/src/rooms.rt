//! The room for the samples of a stored index.
ghost use Rattle.std.specs.Prelude.{◌≡◌, ◌↔◌, IsTrue};
ghost use Rattle.bitm_view.specs.Block.{sample_room};
ghost use Rattle.bitm_abi.specs.Stored.{IsLog};

use crate::samples::samples_room;

/// The room that samples of one kind of the given number of words need; 0 where the logarithm is 0, which stands for no
/// samples.
#[inline(always)]
pub fn most_samples(words: u64, log2: u32) -> u64
    ensures { result ≡ sample_room words log2 }
{
    if log2 == 0 {
        return 0;
    }
    samples_room(words as usize, log2) as u64
}

/// Whether `log2` is a logarithm of samples, or 0 for no samples.
#[inline(always)]
pub fn is_log(log2: u32) -> bool
    ensures { IsTrue result ↔ IsLog log2 }
{
    log2 == 0 || log2 >= 7 && log2 <= 31
}
