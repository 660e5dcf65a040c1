//! Selection by samples: the samples that are kept, and what the index selects by them, worked out by hand.
//! `test_original` compares other samples with the samples of the original crate.
use crate::calls::walk::{Sampled, TablesView, borrowed, one_agrees, zero_agrees};
use bitm::{
    AdaptiveCombinedSamplingDensity, BinaryRankSearch, BitAccess, BitVec, CombinedSampling,
    CombinedSamplingDensity, ConstCombinedSamplingDensity, Select, Select0ForRank101111,
    SelectForRank101111,
};
use std::alloc::Global;
use std::boxed::BoxedSlice;
use std::convert::AsSlice;

/// One sample for each 2^13 items, or fewer where there are few of them.
type ByShare = AdaptiveCombinedSamplingDensity<13>;

/// One sample for each 128 items.
type Each128 = ConstCombinedSamplingDensity<7>;

/// One sample for each 512 items.
type Each512 = ConstCombinedSamplingDensity<9>;

/// One sample for each 8 items, which is taken for each 128.
type Each8 = ConstCombinedSamplingDensity<3>;

type Words = BoxedSlice<u64, Global>;

/// A rank, and the position of its bit.
type Row = (usize, Option<usize>);

/// Whether the 1 bits of these ranks are at the positions beside them.
fn select_rows<I: Select>(index: &I, rows: &[Row]) -> bool {
    let mut agrees = true;
    for (rank, position) in rows {
        agrees &= one_agrees(index, *rank, *position);
    }
    agrees
}

/// Whether an index over 35 full words keeps and selects what was worked out by hand.
fn is_full_kept<D: CombinedSamplingDensity>(
    index: &TablesView<'_, CombinedSampling<D>, CombinedSampling<D>>,
) -> bool {
    let entries = [0x8020_0600_0000_0000, 0x3006_00C0_0000_0800];
    let mut agrees = index.l2ranks() == entries.as_slice();
    agrees &= index.select_support().sample_count() == 1;
    agrees &= index.select0_support().sample_count() == 0;
    agrees && one_agrees(index, 2239, Some(2239)) && zero_agrees(index, 0, None)
}

/// Whether such an index does at this density.
fn full_is_kept<D: CombinedSamplingDensity>(alloc: Global) -> bool {
    match borrowed::<CombinedSampling<D>, CombinedSampling<D>>(alloc, [u64::MAX; 35].as_slice()) {
        Ok((index, _)) => is_full_kept(&index),
        Err(_) => false,
    }
}

#[test]
fn full_words_keep_one_sample_of_ones_and_none_of_zeros(rt: HostRuntime) {
    assert!(rt; full_is_kept::<ByShare>(rt.alloc()));
}

/// The samples of the 0 bits in 33 empty words, one for each 128.
const OF_ZEROS: [u32; 17] = [0, 0, 0, 0, 0, 0, 0, 0, 0, 0, 0, 0, 0, 0, 0, 0, 1];

/// Whether these are kept by an index over 33 empty words, and a 0 bit is selected by them.
fn keeps_17<S: SelectForRank101111, D: CombinedSamplingDensity>(
    index: &TablesView<'_, S, CombinedSampling<D>>,
) -> bool {
    let zeros = index.select0_support();
    let is_kept = zeros.sample_count() == 17 && zeros.samples() == OF_ZEROS.as_slice();
    is_kept && zero_agrees(index, 2048, Some(2048))
}

/// Whether they are at this density.
fn empty_keep_17<S: SelectForRank101111, D: CombinedSamplingDensity>(alloc: Global) -> bool {
    match borrowed::<S, CombinedSampling<D>>(alloc, [0; 33].as_slice()) {
        Ok((index, _)) => keeps_17(&index),
        Err(_) => false,
    }
}

#[test]
fn a_sample_for_each_128_zeros_is_17_in_33_empty_words(rt: HostRuntime) {
    assert!(rt; empty_keep_17::<BinaryRankSearch, Each128>(rt.alloc()));
}

#[test]
fn a_logarithm_below_seven_keeps_the_samples_of_seven(rt: HostRuntime) {
    assert!(rt; empty_keep_17::<BinaryRankSearch, Each8>(rt.alloc()));
}

/// Whether an index keeps these samples of 1 bits, and selects the 1 bits of these ranks.
fn keeps<D: CombinedSamplingDensity, S0: Select0ForRank101111>(
    index: &TablesView<'_, CombinedSampling<D>, S0>,
    samples: &[u32],
    rows: &[Row],
) -> bool {
    let ones = index.select_support();
    let is_kept = ones.sample_count() == samples.len() && ones.samples() == samples;
    is_kept && select_rows(index, rows)
}

/// Whether an index over these words does.
fn is_kept<D: CombinedSamplingDensity, S0: Select0ForRank101111>(
    alloc: Global,
    words: &[u64],
    samples: &[u32],
    rows: &[Row],
) -> bool {
    match borrowed::<CombinedSampling<D>, S0>(alloc, words) {
        Ok((index, _)) => keeps(&index, samples, rows),
        Err(_) => false,
    }
}

#[test]
fn a_sample_has_the_distance_to_its_middle_item(rt: HostRuntime) {
    // a full word, 62 empty ones and a full one
    let mut words = [0; 64];
    words[0] = u64::MAX;
    words[63] = u64::MAX;
    let (words, samples) = (words.as_slice(), [0x0020_0000]);
    let rows = [(64, Some(4032)), (127, Some(4095)), (128, None)];
    let (samples, rows) = (samples.as_slice(), rows.as_slice());
    assert!(rt; is_kept::<Each128, BinaryRankSearch>(rt.alloc(), words, samples, rows));
}

/// Ranks in a full word, 95,999 empty ones and a full one, with the positions of their 1 bits.
const FAR: [Row; 3] = [(63, Some(63)), (64, Some(6_144_000)), (128, None)];

/// The sample of these words.
const OF_FAR: [u32; 1] = [0xFFE0_0000];

/// Replaces the first word, and then the last one.
fn replace_ends(words: &mut [u64], first: u64, last: u64) {
    let len = words.len();
    if len > 0 {
        words[0] = first;
        words[len - 1] = last;
    }
}

/// The given number of equal words, where the first and then the last is another; `None` where there is no memory.
fn words_of(alloc: Global, len: usize, first: u64, word: u64, last: u64) -> Option<Words> {
    match Words::with_64bit_segments(alloc, word, len) {
        Ok(mut words) => {
            replace_ends(words.as_mut_slice(), first, last);
            Some(words)
        }
        Err(_) => None,
    }
}

/// Whether an index over the far words keeps their one sample, and selects by it.
fn far_is_kept<D: CombinedSamplingDensity, S0: Select0ForRank101111>(alloc: Global) -> bool {
    match words_of(alloc, 96_001, u64::MAX, 0, u64::MAX) {
        Some(words) => {
            is_kept::<D, S0>(alloc, words.as_slice(), OF_FAR.as_slice(), FAR.as_slice())
        }
        None => false,
    }
}

/// Whether the samples of the 0 bits of these words are those by hand.
fn are_of_far(zeros: &CombinedSampling<ByShare>) -> bool {
    let mut agrees = zeros.samples().len() == 750 && zeros.starts() == [0].as_slice();
    let mut wanted = 0x40_0000u32;
    for sample in zeros.samples() {
        agrees &= *sample == wanted;
        wanted = wanted.wrapping_add(4);
    }
    agrees
}

/// Whether an index over these words has the starts and the samples that it has by hand.
fn starts_agree(alloc: Global, words: &[u64]) -> bool {
    match borrowed::<Sampled, Sampled>(alloc, words) {
        Ok((index, _)) => {
            let is_first = index.select_support().starts() == [0].as_slice();
            is_first && are_of_far(index.select0_support())
        }
        Err(_) => false,
    }
}

/// Whether one over the far words does.
fn far_starts_agree(alloc: Global) -> bool {
    match words_of(alloc, 96_001, u64::MAX, 0, u64::MAX) {
        Some(words) => starts_agree(alloc, words.as_slice()),
        None => false,
    }
}

#[test]
fn one_sample_selects_past_the_distance_that_it_keeps(rt: HostRuntime) {
    assert!(rt; far_is_kept::<ByShare, Sampled>(rt.alloc()));
    assert!(rt; far_starts_agree(rt.alloc()));
}

#[test]
fn a_constant_density_keeps_that_one_sample_too(rt: HostRuntime) {
    assert!(rt; far_is_kept::<Each128, BinaryRankSearch>(rt.alloc()));
}

/// Whether the last one of the given number of first samples is this.
fn is_last(samples: &[u32], count: usize, sample: u32) -> bool {
    count == 0 || count <= samples.len() && samples[count - 1] == sample
}

/// Whether the samples of one part of words match a walk over its bits: an item that is a whole number of intervals
/// from the first begins a sample, and one half an interval later adds the distance to it.
fn are_walked(samples: &[u32], words: &[u64], kind: bool, log2: u8) -> bool {
    let in_interval = 1u64.wrapping_shl(u32::from(log2)).wrapping_sub(1);
    let (mut items, mut count, mut sample) = (0u64, 0usize, 0u32);
    let mut agrees = true;
    for position in 0..usize::MAX {
        let Some(bit) = words.try_get_bit(position) else {
            break;
        };
        if bit != kind {
            continue;
        }
        let entry = (position / 2048 % 0x20_0000) as u32;
        if items & in_interval == 0 {
            agrees &= is_last(samples, count, sample);
            (count, sample) = (count.wrapping_add(1), entry);
        } else if items & in_interval >> 1 == 0 {
            sample |= entry.wrapping_sub(sample).min(2047) << 21;
        }
        items = items.wrapping_add(1);
    }
    agrees && samples.len() == count && is_last(samples, count, sample)
}

/// Whether the samples that are kept of a kind of bit are those that a walk finds.
fn is_walked<D: CombinedSamplingDensity>(
    kept: &CombinedSampling<D>,
    words: &[u64],
    kind: bool,
) -> bool {
    are_walked(kept.samples(), words, kind, kept.items_per_sample_log2())
}

/// Whether the samples of both kinds are what a walk finds, at this density.
fn both_are_walked<D: CombinedSamplingDensity>(alloc: Global, words: &[u64]) -> bool {
    match borrowed::<CombinedSampling<D>, CombinedSampling<D>>(alloc, words) {
        Ok((index, _)) => {
            let ones = is_walked(index.select_support(), words, true);
            ones && is_walked(index.select0_support(), words, false)
        }
        Err(_) => false,
    }
}

/// Whether they are over the given number of equal words and the same word negated.
fn runs_are_walked<D: CombinedSamplingDensity>(alloc: Global, word: u64, len: usize) -> bool {
    match words_of(alloc, len.saturating_add(1), word, word, !word) {
        Some(words) => both_are_walked::<D>(alloc, words.as_slice()),
        None => false,
    }
}

/// Whether they are for each of some words and lengths.
fn each_is_walked<D: CombinedSamplingDensity>(alloc: Global) -> bool {
    let mut agrees = true;
    for len in [0, 1, 9, 32, 33, 60, 300] {
        for word in [0, u64::MAX, 1, 1 << 63, 0x5555_5555_5555_5555, 0xFFFF] {
            agrees &= runs_are_walked::<D>(alloc, word, len);
        }
    }
    agrees
}

#[test]
fn samples_are_those_of_a_walk(rt: HostRuntime) {
    assert!(rt; each_is_walked::<ByShare>(rt.alloc()));
    assert!(rt; each_is_walked::<Each128>(rt.alloc()));
    assert!(rt; each_is_walked::<Each512>(rt.alloc()));
}
