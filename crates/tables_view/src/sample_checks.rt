//! Whether samples are the ones that the tables determine.
ghost use Rattle.std.specs.Prelude.{◌≡◌, ◌≢◌, ℕ, ◌+◌, ◌^◌, ◌<◌, ◌≤◌, ◌↔◌, Bool, IfSome, IsNone, IsTrue, List, length};
ghost use Rattle.bit_lists.specs.Count.{as_bit};
ghost use Rattle.bitm_strategies.specs.Samples.{IsSized, IsSummaryOf, sample_count_before, samples_of};
ghost use Rattle.tables_view.specs.Samples.{AreSamples, sample_number};
ghost use Rattle.tables_view.specs.Sizes.{IsFilled};

use bitm_strategies::{Summary, items_in, sample_from};

/// The number of samples of an upper block, if they stand from index `first` on in the list; `None` otherwise.
fn samples_of_part<const BIT: u8>(
    summary: &Summary<'_>,
    part: usize,
    log2: u8,
    first: usize,
    samples: &[u32],
) -> Option<usize>
    requires sized { IsSized summary.now }
    requires inside { part < length summary.now.upper.now }
    requires low { 7 ≤ log2 }
    requires high { log2 ≤ 31 }
    requires within { first ≤ length samples.now }
    ensures fits { IfSome result (λ n. first + n ≤ length samples.now) }
    ensures count { IfSome result (λ n. (b : List Bool) → IsSummaryOf b summary.now
        → first ≡ sample_count_before b (as_bit BIT) log2 part
        → first + n ≡ sample_count_before b (as_bit BIT) log2 (part + 1)) }
    ensures filled { IfSome result (λ n. (b : List Bool) → IsSummaryOf b summary.now
        → first ≡ sample_count_before b (as_bit BIT) log2 part
        → IsFilled (sample_number b (as_bit BIT) log2) samples.now first
        → IsFilled (sample_number b (as_bit BIT) log2) samples.now (first + n)) }
    ensures wrong { IsNone result → (b : List Bool) → IsSummaryOf b summary.now
        → first ≡ sample_count_before b (as_bit BIT) log2 part
        → samples.now ≢ samples_of b (as_bit BIT) log2 }
{
    let items = items_in::<BIT>(summary, part);
    let count = items.div_ceil(1 << log2);
    if samples.len() - first < count {
        return None;
    }
    let mut entry = 0;
    for interval in 0..count {
        let item = interval << log2;
        let (sample, next) = sample_from::<BIT>(summary, part, log2, entry, item, items);
        if samples[first + interval] != sample {
            return None;
        }
        entry = next;
    }
    Some(count)
}

/// Whether `samples` and `starts` are the samples and starts of all upper blocks, which the tables determine: each
/// sample is computed anew, up to the first that differs.
pub(crate) fn are_samples<const BIT: u8>(
    summary: &Summary<'_>,
    log2: u8,
    samples: &[u32],
    starts: &[usize],
) -> bool
    requires sized { IsSized summary.now }
    requires low { 7 ≤ log2 }
    requires high { log2 ≤ 31 }
    requires parts { length starts.now ≡ length summary.now.upper.now }
    ensures { (b : List Bool) → IsSummaryOf b summary.now
        → IsTrue result ↔ AreSamples b (as_bit BIT) log2 samples.now starts.now }
{
    let mut count = 0;
    for part in 0..summary.upper.len() {
        if starts[part] != count {
            return false;
        }
        let Some(more) = samples_of_part::<BIT>(summary, part, log2, count, samples) else {
            return false;
        };
        count += more;
    }
    if count != samples.len() {
        return false;
    }
    true
}
