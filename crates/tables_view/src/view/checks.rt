//! Whether borrowed samples match the words.
ghost use Rattle.std.specs.Prelude.{IsTrue, ◌↔◌};
ghost use Rattle.bit_lists.specs.Count.{as_bit};
ghost use Rattle.bitm_tables.specs.Tables.{HasTables, bits_in};
ghost use Rattle.tables_view.specs.Samples.{AreSamplesOf};

use crate::sample_checks::are_samples;
use crate::samples::{SamplesView, clamped_log};
use crate::view::TablesView;
use bitm_strategies::Summary;

impl<'a> TablesView<'a> {
    /// Whether the samples of 1 bits and their starts are as `build_samples` writes them; of 0 bits where `BIT` is
    /// 0. Where the tables do not match the words, which `check` finds out, the answer may be either.
    ///
    /// # Cost
    /// Each lower entry is read at most once, up to two are read again for each sample, and at most eight words are
    /// read.
    pub fn check_samples<const BIT: u8>(&self, samples: &SamplesView<'_>) -> bool
        ensures { HasTables self.now
            → IsTrue result ↔ AreSamplesOf (bits_in self.now) (as_bit BIT) samples.now }
    {
        let len = self.words.len() * 64;
        if samples.starts.len() != self.upper.len() {
            return false;
        }
        let Some(total) = self.claimed_ones(len) else {
            return false;
        };
        let summary = Summary {
            upper: self.upper,
            lower: self.lower,
            total,
            len,
        };
        let log2 = clamped_log(samples.log2);
        are_samples::<BIT>(&summary, log2, samples.samples, samples.starts)
    }
}
