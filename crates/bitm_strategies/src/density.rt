//! How many items one sample stands for.
ghost use Rattle.std.specs.Prelude.{◌≡◌, ℕ, ◌-◌, ◌/◌, ◌^◌, ◌≤◌};
ghost use Rattle.bit_lists.specs.Bits.{digit};
ghost use Rattle.bitm_strategies.specs.Density.{optimal_log, clamped_log};
ghost use Rattle.std.proofs.Common.{rules};

use crate::optimal::optimal_combined_sampling;

/// How many items one sample of `CombinedSampling` stands for: a power of two.
pub trait CombinedSamplingDensity: Copy {
    /// The form in which a value keeps the density.
    type SamplingDensity: Copy;

    /// The logarithm that a kept density stands for.
    ghost log: { Self.SamplingDensity → ℕ };

    /// The density for `items` bits of a kind among all.
    ghost chosen: { ℕ → ℕ → Self.SamplingDensity };

    /// The density for `items` items among `len` bits.
    fn density_for(items: usize, len: usize) -> Self::SamplingDensity
        ensures { result ≡ chosen items len };

    /// The logarithm of how many items one sample stands for: 7 to 31.
    fn items_per_sample_log2(density: Self::SamplingDensity) -> u8
        ensures value { result ≡ log density }
        ensures low { 7 ≤ result }
        ensures high { result ≤ 31 };

    /// How many items one sample stands for.
    #[inline(always)]
    fn items_per_sample(density: Self::SamplingDensity) -> u32
        ensures { result ≡ 2 ^ log density }
    {
        1 << Self::items_per_sample_log2(density)
    }

    /// In which interval item `index` is.
    #[inline(always)]
    fn divide(index: usize, density: Self::SamplingDensity) -> usize
        ensures { result ≡ index / 2 ^ log density }
    {
        index >> Self::items_per_sample_log2(density)
    }

    /// Whether item `index` is in the second half of its interval.
    #[inline(always)]
    fn is_in_second_half(index: usize, density: Self::SamplingDensity) -> bool
        ensures { result ≡ digit index (log density - 1) }
    {
        index >> (Self::items_per_sample_log2(density) - 1) & 1 == 1
    }

    /// Each density stands for a logarithm of 7 to 31.
    ghost in_range: { (density : Self.SamplingDensity)
        → (7 ≤ log density) × (log density ≤ 31) };
}

/// One sample for each 2^`VALUE_LOG2` items; a logarithm outside 7 to 31 is clamped.
#[derive(Clone, Copy)]
pub struct ConstCombinedSamplingDensity<const VALUE_LOG2: u8>;

impl<const VALUE_LOG2: u8> CombinedSamplingDensity for ConstCombinedSamplingDensity<VALUE_LOG2> {
    type SamplingDensity = ();

    ghost log = { λ _. clamped_log VALUE_LOG2 };

    ghost chosen = { λ _ _. tt };

    #[inline(always)]
    fn density_for(_items: usize, _len: usize) {}

    #[inline(always)]
    fn items_per_sample_log2(_density: ()) -> u8 {
        VALUE_LOG2.clamp(7, 31)
    }

    ghost in_range = { λ _. Prim.search rules };
}

/// A density for the share of items, by `optimal_combined_sampling`, of a logarithm of at most `MAX_RESULT`, which is
/// clamped to 7 to 31.
#[derive(Clone, Copy)]
pub struct AdaptiveCombinedSamplingDensity<const MAX_RESULT: u8>;

impl<const MAX_RESULT: u8> CombinedSamplingDensity for AdaptiveCombinedSamplingDensity<MAX_RESULT> {
    type SamplingDensity = u8;

    ghost log = { λ density. clamped_log density };

    ghost chosen = { λ items len. optimal_log items len (clamped_log MAX_RESULT) };

    #[inline(always)]
    fn density_for(items: usize, len: usize) -> u8 {
        optimal_combined_sampling(items, len, MAX_RESULT.clamp(7, 31))
    }

    #[inline(always)]
    fn items_per_sample_log2(density: u8) -> u8 {
        density.clamp(7, 31)
    }

    ghost in_range = { λ _. Prim.search rules };
}
