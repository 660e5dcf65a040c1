//! A density of samples as a user of the library writes it.
ghost use Rattle.std.specs.Prelude.{◌+◌, ◌/◌, min};
ghost use Rattle.std.proofs.Common.{rules};
ghost use Rattle.bitm.specs.Density.{clamped_log};

use bitm::CombinedSamplingDensity;

/// One sample for each 2^7 bits of the kind in a bit vector of fewer than 1024 bits, and for twice as many with each
/// further 1024 bits, up to 2^31.
#[derive(Clone, Copy)]
pub struct ByLength;

impl CombinedSamplingDensity for ByLength {
    type SamplingDensity = u8;

    ghost log = { λ density. clamped_log density };

    ghost chosen = { λ _ len. 7 + min (len / 1024) 24 };

    fn density_for(_items: usize, len: usize) -> u8 {
        7 + (len / 1024).min(24) as u8
    }

    fn items_per_sample_log2(density: u8) -> u8 {
        density.clamp(7, 31)
    }

    ghost in_range = { λ _. Prim.search rules };
}
