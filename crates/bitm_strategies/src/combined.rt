//! Selection by samples: what is kept, how it is made, and the strategy of both kinds.
ghost use Rattle.std.specs.Prelude.{◌≡◌, ◌+◌, ◌*◌, ℕ, Bool, List, length, true, false, IfOk};
ghost use Rattle.bit_lists.specs.Bits.{bits_of, IsShort};
ghost use Rattle.bit_lists.specs.Count.{ones_of, as_bit, IsSelect};
ghost use Rattle.bitm_bits.specs.Size.{saturated_size};
ghost use Rattle.bitm_strategies.specs.Samples.{SampledReads, Supported, IsSampleCount};
ghost use Rattle.bitm_tables.specs.Tables.{AreTablesOf, HasTables, bits_in};

use crate::density::CombinedSamplingDensity;
use crate::sampled::sampled_select_on;
use crate::samples::{Summary, items_among, make_samples};
use crate::traits::{Select0ForRank101111, SelectForRank101111};
use bitm_bits::GetSize;
use bitm_tables::source::{Probe, TableSource};
use std::alloc::{AllocError, Global};
use std::boxed::BoxedSlice;
use std::marker::Model;

/// Selection that starts at samples: of each upper block (2^32 bits) one sample of 32 bits for each 2^d bits of the
/// kind, rounded up, and one number, where the density `D` chooses d for the bit vector.
///
/// A sample has the entry of 2048 bits of its interval's first item, counted in the upper block, and the distance in
/// entries from there to the item half an interval later, kept as at most 2047. Selection walks over the lower entries
/// from there on.
///
/// # Source
/// Samples beside the summary of rank are from Navarro and Providel, 'Fast, small, simple rank/select on bitmaps'
/// (SEA 2012).
#[derive(Drop)]
pub struct CombinedSampling<D: CombinedSamplingDensity> {
    samples: BoxedSlice<u32, Global>,
    starts: BoxedSlice<usize, Global>,
    density: D::SamplingDensity,
    // the logarithm that the density stands for, which a selection need not compute
    log2: u8,
}

impl<D: CombinedSamplingDensity> Model for CombinedSampling<D> {
    ghost use Rattle.std.specs.Prelude.{◌≡◌};
    ghost use Rattle.std.specs.Box.{boxed_slice_items};
    ghost use Rattle.bitm_strategies.specs.Samples.{Sampled};

    ghost Value = { Sampled D.SamplingDensity };

    ghost view = { λ s. record {
      density = s.density;
      samples = boxed_slice_items s.samples;
      starts = boxed_slice_items s.starts;
    } };

    ghost invariant = { λ s. s.log2 ≡ D.log s.density };
}

impl<D: CombinedSamplingDensity> CombinedSampling<D> {
    fn make<const BIT: u8>(
        alloc: Global,
        content: &[u64],
        l1ranks: &[usize],
        l2ranks: &[u64],
        total_rank: usize,
    ) -> Result<Self, AllocError>
        requires short { IsShort content.now }
        requires tables { AreTablesOf (bits_of content.now) l1ranks.now l2ranks.now }
        requires total { total_rank ≡ ones_of (bits_of content.now) }
        ensures { IfOk result (Supported D.log D.chosen (as_bit BIT) content.now) }
    {
        let len = content.len() * 64;
        let density = D::density_for(items_among::<BIT>(total_rank, len), len);
        let summary = Summary {
            upper: l1ranks,
            lower: l2ranks,
            total: total_rank,
            len,
        };
        let log2 = D::items_per_sample_log2(density);
        let (samples, starts) = make_samples::<BIT>(alloc, &summary, log2)?;
        Ok(CombinedSampling {
            samples,
            starts,
            density,
            log2,
        })
    }

    /// How many samples are kept: for each upper block its items divided by how many one sample stands for, rounded up.
    #[inline(always)]
    pub fn sample_count(&self) -> usize
        ensures len { result ≡ length self.now.samples }
        ensures count { (v : Bool) (words : List ℕ) → Supported D.log D.chosen v words self.now
            → IsSampleCount (bits_of words) v (D.log self.now.density) result }
    {
        self.samples.len()
    }

    /// The samples that are kept, upper block after upper block, each with its entry in the low 21 bits and its
    /// distance in the others: for code that stores them.
    #[inline(always)]
    pub fn samples(&self) -> &[u32]
        ensures { result.now ≡ self.now.samples }
    {
        self.samples.as_slice()
    }

    /// How many samples there are before the samples of each upper block.
    #[inline(always)]
    pub fn starts(&self) -> &[usize]
        ensures { result.now ≡ self.now.starts }
    {
        self.starts.as_slice()
    }

    /// A sample stands for 2 to this many items.
    #[inline(always)]
    pub fn items_per_sample_log2(&self) -> u8
        ensures { result ≡ D.log self.now.density }
    {
        self.log2
    }

    /// The position of the 1 bit of the source's words with exactly `rank` 1 bits before it; `None` exactly where there
    /// is none.
    ///
    /// # Conditions
    /// The source's tables match its words, and the value supports these for 1 bits.
    /// # Cost
    /// At most as many upper entries as their number has binary digits and one more are read; and eight words and two
    /// lower entries more than the walk passes from where the sample lets it begin to the answer's entry. Where there
    /// is no answer, the walk ends at the last entry of the last upper block, if that upper block has items of the
    /// rank's interval; else neither a lower entry nor a word is read.
    #[inline(always)]
    pub fn select_counted<T: TableSource>(&self, source: &mut T, rank: usize) -> Option<usize>
        requires tables { HasTables (T.lists source.old) }
        requires supported { Supported D.log D.chosen true (T.lists source.old).words self.now }
        ensures answer { IsSelect (bits_in (T.lists source.old)) true rank result }
        ensures reads { SampledReads (bits_in (T.lists source.old)) true
            (D.log self.now.density) rank result (T.reads source.old) (T.reads source.new) }
        ensures same { T.lists source.new ≡ T.lists source.old }
    {
        sampled_select_on::<1, T>(self.samples(), self.starts(), self.log2, source, rank)
    }

    /// The position of the 0 bit of the source's words with exactly `rank` 0 bits before it; `None` exactly where there
    /// is none.
    ///
    /// # Conditions
    /// The source's tables match its words, and the value supports these for 0 bits.
    /// # Cost
    /// The reads of `select_counted`.
    #[inline(always)]
    pub fn select0_counted<T: TableSource>(&self, source: &mut T, rank: usize) -> Option<usize>
        requires tables { HasTables (T.lists source.old) }
        requires supported { Supported D.log D.chosen false (T.lists source.old).words self.now }
        ensures answer { IsSelect (bits_in (T.lists source.old)) false rank result }
        ensures reads { SampledReads (bits_in (T.lists source.old)) false
            (D.log self.now.density) rank result (T.reads source.old) (T.reads source.new) }
        ensures same { T.lists source.new ≡ T.lists source.old }
    {
        sampled_select_on::<0, T>(self.samples(), self.starts(), self.log2, source, rank)
    }
}

impl<D: CombinedSamplingDensity> SelectForRank101111 for CombinedSampling<D> {
    ghost supports = { λ kept words. Supported D.log D.chosen true words kept };

    fn new(
        alloc: Global,
        content: &[u64],
        l1ranks: &[usize],
        l2ranks: &[u64],
        total_rank: usize,
    ) -> Result<Self, AllocError> {
        CombinedSampling::<D>::make::<1>(alloc, content, l1ranks, l2ranks, total_rank)
    }

    #[inline(always)]
    fn select(
        &self,
        content: &[u64],
        l1ranks: &[usize],
        l2ranks: &[u64],
        rank: usize,
    ) -> Option<usize> {
        self.select_counted(&mut Probe::new(content, l1ranks, l2ranks), rank)
    }
}

impl<D: CombinedSamplingDensity> Select0ForRank101111 for CombinedSampling<D> {
    ghost supports0 = { λ kept words. Supported D.log D.chosen false words kept };

    fn new0(
        alloc: Global,
        content: &[u64],
        l1ranks: &[usize],
        l2ranks: &[u64],
        total_rank: usize,
    ) -> Result<Self, AllocError> {
        CombinedSampling::<D>::make::<0>(alloc, content, l1ranks, l2ranks, total_rank)
    }

    #[inline(always)]
    fn select0(
        &self,
        content: &[u64],
        l1ranks: &[usize],
        l2ranks: &[u64],
        rank: usize,
    ) -> Option<usize> {
        self.select0_counted(&mut Probe::new(content, l1ranks, l2ranks), rank)
    }
}

impl<D: CombinedSamplingDensity> GetSize for CombinedSampling<D>
where
    D::SamplingDensity: GetSize,
{
    // four bytes a sample, eight for each part, and what the density keeps
    ghost dyn_bytes = { λ kept. saturated_size (4 * length kept.samples + 8 * length kept.starts
        + D.SamplingDensity.dyn_bytes kept.density) };

    const USES_DYN_MEM: bool = true;

    fn size_bytes_dyn(&self) -> usize {
        self.samples
            .size_bytes_dyn()
            .saturating_add(self.starts.size_bytes_dyn())
            .saturating_add(self.density.size_bytes_dyn())
    }
}
