//! Samples of borrowed words, and selection from them.
ghost use Rattle.std.specs.Prelude.{◌≡◌, ◌<◌, ◌≤◌, ℕ, length, slice_index, take, IfSome, IsNone, MatchOption};
ghost use Rattle.bit_lists.specs.Count.{as_bit};
ghost use Rattle.bitm_strategies.specs.Density.{clamped_log};
ghost use Rattle.bitm_tables.specs.Tables.{HasTables, bits_in};
ghost use Rattle.bitm_select.specs.Answers.{HasBit, IsSelected};
ghost use Rattle.bitm_select.specs.Claims.{ClaimsNone};
ghost use Rattle.bitm_tables.specs.Answers.{IfAbsent};
ghost use Rattle.tables_view.specs.Samples.{AreSamples, HasSampleRoom};

use crate::sampled::sampled_select_on;
use crate::samples::{SamplesView, clamped_log, samples_len};
use crate::sampling::fill_all;
use crate::view::TablesView;
use bitm_strategies::Summary;
use bitm_tables::answer::Answer;
use bitm_tables::source::Probe;

impl<'a> TablesView<'a> {
    /// Writes the samples of 1 bits, one for each 2^`log2` of them in an upper block, and the number of samples before
    /// each upper block, and returns the number of samples; of 0 bits where `BIT` is 0. The rest of `samples` keeps its
    /// values. Where the tables match the words, so do the samples; otherwise they are some numbers.
    ///
    /// Returns `None`, and writes nothing, exactly where `samples` is shorter than `samples_len`, or `starts` is not as
    /// long as the upper table. The logarithm is clamped to 7 to 31.
    ///
    /// # Cost
    /// Each lower entry is read once, up to two are read again for each sample, and at most eight words are read.
    pub fn build_samples<const BIT: u8>(
        &self,
        log2: u8,
        samples: &mut [u32],
        starts: &mut [usize],
    ) -> Option<usize>
        ensures room { MatchOption result
            (¬ (HasSampleRoom self.now log2 samples.old starts.old))
            (λ used. HasSampleRoom self.now log2 samples.old starts.old
            × (used ≤ length samples.old)) }
        ensures made { IfSome result (λ used. HasTables self.now → AreSamples (bits_in self.now)
            (as_bit BIT) (clamped_log log2) (take used samples.new) starts.new) }
        ensures behind { IfSome result (λ used. (j : ℕ) → used ≤ j
            → slice_index samples.new j ≡ slice_index samples.old j) }
        ensures kept { IsNone result
            → (samples.new ≡ samples.old) × (starts.new ≡ starts.old) }
    {
        let len = self.words.len() * 64;
        if samples.len() < samples_len(self.words.len(), log2) || starts.len() != self.upper.len() {
            return None;
        }
        let Some(total) = self.claimed_ones(len) else {
            return None;
        };
        let summary = Summary {
            upper: self.upper,
            lower: self.lower,
            total,
            len,
        };
        let log2 = clamped_log(log2);
        Some(fill_all::<BIT>(&summary, log2, samples, starts))
    }

    /// Selects as `select` does, from samples of 1 bits; of 0 bits where `BIT` is 0. The samples never change an
    /// answer, whatever they hold.
    ///
    /// # Cost
    /// With u upper entries, a query reads at most one more of them than u has binary digits, 51 lower entries and
    /// eight words, whatever the tables and samples hold. Where tables and samples match the words, it reads at most 28
    /// lower entries: five near a guess between the rank's sample and the next and, after a wrong guess, two more and
    /// one for each halving between the two samples.
    #[inline(always)]
    pub fn sampled_select<const BIT: u8>(
        &self,
        samples: &SamplesView<'_>,
        rank: usize,
    ) -> Answer<usize>
        ensures bit { HasBit (bits_in self.now) (as_bit BIT) result }
        ensures counts { HasTables self.now → IsSelected (bits_in self.now) (as_bit BIT) rank result }
        ensures absent { IfAbsent result (ClaimsNone (as_bit BIT) self.now rank) }
    {
        sampled_select_on::<BIT, Probe<'_>>(&mut self.probe(), samples, rank)
    }
}
