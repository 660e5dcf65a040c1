//! Samples of tables that may hold anything, written into the caller's memory.
ghost use Rattle.std.specs.Prelude.{◌≡◌, ℕ, ◌+◌, ◌*◌, ◌^◌, ◌<◌, ◌≤◌, Bool, List, length, slice_index, slice_set, take};
ghost use Rattle.bit_lists.specs.Count.{as_bit};
ghost use Rattle.bitm_strategies.specs.Samples.{IsSized, IsSummaryOf, sample_count_before};
ghost use Rattle.tables_view.specs.Samples.{AreSamples, sample_number};
ghost use Rattle.tables_view.specs.Sizes.{IsFilled};

use bitm_strategies::{Summary, items_in, sample_from};

/// Writes a sample at index `at`.
///
/// The index is tested again right before the write: even if the tables change meanwhile, because a caller breaks the
/// rules and lets them overlap the samples or lets another thread write them, nothing is written outside the list.
#[inline(always)]
fn put(samples: &mut [u32], at: usize, sample: u32)
    requires { at < length samples.old }
    ensures { samples.new ≡ slice_set samples.old at sample }
{
    if at < samples.len() {
        samples[at] = sample;
    }
}

/// Writes the samples of an upper block from index `first` on, and returns their number.
fn fill_samples<const BIT: u8>(
    summary: &Summary<'_>,
    part: usize,
    log2: u8,
    first: usize,
    samples: &mut [u32],
) -> usize
    requires sized { IsSized summary.now }
    requires inside { part < length summary.now.upper.now }
    requires low { 7 ≤ log2 }
    requires high { log2 ≤ 31 }
    requires before { first * 2 ^ log2 ≤ part * 2 ^ 32 }
    requires room { summary.now.len ≤ length samples.old * 2 ^ log2 }
    ensures len { length samples.new ≡ length samples.old }
    ensures fits { first + result ≤ length samples.old }
    ensures after { (first + result) * 2 ^ log2 ≤ (part + 1) * 2 ^ 32 }
    ensures count { (b : List Bool) → IsSummaryOf b summary.now
        → first ≡ sample_count_before b (as_bit BIT) log2 part
        → first + result ≡ sample_count_before b (as_bit BIT) log2 (part + 1) }
    ensures filled { (b : List Bool) → IsSummaryOf b summary.now
        → first ≡ sample_count_before b (as_bit BIT) log2 part
        → IsFilled (sample_number b (as_bit BIT) log2) samples.old first
        → IsFilled (sample_number b (as_bit BIT) log2) samples.new (first + result) }
    ensures kept { (j : ℕ) → first + result ≤ j
        → slice_index samples.new j ≡ slice_index samples.old j }
{
    let items = items_in::<BIT>(summary, part);
    let count = items.div_ceil(1 << log2);
    let mut entry = 0;
    for interval in 0..count {
        let item = interval << log2;
        let (sample, next) = sample_from::<BIT>(summary, part, log2, entry, item, items);
        put(&mut *samples, first + interval, sample);
        entry = next;
    }
    count
}

/// Writes the samples of all upper blocks and the number of samples before each, and returns the number of samples.
pub(crate) fn fill_all<const BIT: u8>(
    summary: &Summary<'_>,
    log2: u8,
    samples: &mut [u32],
    starts: &mut [usize],
) -> usize
    requires sized { IsSized summary.now }
    requires low { 7 ≤ log2 }
    requires high { log2 ≤ 31 }
    requires room { summary.now.len ≤ length samples.old * 2 ^ log2 }
    requires parts { length starts.old ≡ length summary.now.upper.now }
    ensures fits { result ≤ length samples.old }
    ensures made { (b : List Bool) → IsSummaryOf b summary.now
        → AreSamples b (as_bit BIT) log2 (take result samples.new) starts.new }
    ensures kept { (j : ℕ) → result ≤ j
        → slice_index samples.new j ≡ slice_index samples.old j }
{
    let mut count = 0;
    for part in 0..summary.upper.len() {
        starts[part] = count;
        count += fill_samples::<BIT>(summary, part, log2, count, &mut *samples);
    }
    count
}
