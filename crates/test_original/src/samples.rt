//! The samples, how many there are before each part, and how dense they are: the kinds
//! `samples`, `samplesat` and `ocs`.
ghost use Rattle.bitm.specs.Bits.{IsShort};

use crate::content::State;
use crate::fault::Fault;
use crate::found::{Found, List};
use crate::text::Base;
use crate::{index, text};
use bitm::{
    AdaptiveCombinedSamplingDensity as Adaptive, CombinedSampling, CombinedSamplingDensity,
    ConstCombinedSamplingDensity as Const, optimal_combined_sampling,
};
use std::alloc::Global;

/// What a line says of the samples of one kind of bit.
#[derive(Clone, Copy)]
struct Claim<'a> {
    text: &'a str,
    of_ones: bool,
    logarithm: u64,
    starts: &'a str,
    /// How many samples there are, where only pairs of an index and a sample are given.
    count: Option<u64>,
    samples: &'a str,
}

/// What the arguments of a line say from the kind of bit on, with a number of samples or without one.
fn read_claim<'a>(
    text: &'a str,
    arguments: &'a str,
    samples: &'a str,
    has_count: bool,
) -> Result<Claim<'a>, Fault> {
    let (bit, rest) = text::first_word(arguments);
    let of_ones = bit == "1";
    if !of_ones && bit != "0" {
        return Err(Fault::Malformed);
    }
    let (logarithm, rest) = text::first_word(rest);
    let mut claim = Claim {
        text,
        of_ones,
        logarithm: text::number(logarithm, Base::Decimal)?,
        starts: rest,
        count: None,
        samples,
    };
    if has_count {
        let (count, starts) = text::first_word(rest);
        claim.count = Some(text::number(count, Base::Decimal)?);
        claim.starts = starts;
    }
    Ok(claim)
}

/// Compares samples with the samples of a line.
fn compare_samples<'a>(
    alloc: Global,
    samples: List<'_>,
    claim: Claim<'a>,
    found: &mut Found<'a>,
) -> Result<(), Fault> {
    let Some(count) = claim.count else {
        return found.compare_list(alloc, claim.text, Base::Hexadecimal, samples, claim.samples);
    };
    found.compare_values("number", Some(samples.len() as u64), Some(count));
    found.compare_entries(claim.samples, samples)
}

/// Compares the logarithm of a density, the numbers of samples before each part, and the samples with a line.
fn compare_kept<'a, D: CombinedSamplingDensity>(
    alloc: Global,
    kept: &CombinedSampling<D>,
    claim: Claim<'a>,
    found: &mut Found<'a>,
) -> Result<(), Fault> {
    let logarithm = u64::from(kept.items_per_sample_log2());
    found.compare_values("logarithm", Some(logarithm), Some(claim.logarithm));
    let starts = List::Sizes(kept.starts());
    found.compare_list(alloc, claim.text, Base::Decimal, starts, claim.starts)?;
    compare_samples(alloc, List::Samples(kept.samples()), claim, found)
}

/// Compares what a line says with the samples of a density.
fn compare_at<'a, D: CombinedSamplingDensity>(
    alloc: Global,
    words: &[u64],
    claim: Claim<'a>,
    found: &mut Found<'a>,
) -> Result<(), Fault>
    requires { IsShort words.now }
{
    let (index, _) = index::build::<CombinedSampling<D>>(alloc, words)?;
    if claim.of_ones {
        compare_kept(alloc, index.select_support(), claim, found)
    } else {
        compare_kept(alloc, index.select0_support(), claim, found)
    }
}

/// Compares the logarithm of a density, and all samples or the number of samples and some of them.
pub fn samples<'a>(
    alloc: Global,
    state: &State<'a>,
    line: &'a str,
    has_count: bool,
    found: &mut Found<'a>,
) -> Result<(), Fault> {
    let (text, theirs) = text::parts(line, " /")?;
    let (words, arguments) = state.content(text)?;
    let (density, rest) = text::first_word(arguments);
    let claim = read_claim(text, rest, theirs, has_count)?;
    match density {
        "a7" => compare_at::<Adaptive<7>>(alloc, words, claim, found),
        "a13" => compare_at::<Adaptive<13>>(alloc, words, claim, found),
        "c7" => compare_at::<Const<7>>(alloc, words, claim, found),
        "c8" => compare_at::<Const<8>>(alloc, words, claim, found),
        "c10" => compare_at::<Const<10>>(alloc, words, claim, found),
        "c31" => compare_at::<Const<31>>(alloc, words, claim, found),
        _ => Err(Fault::Malformed),
    }
}

/// The logarithms that are chosen for a share of items, one for each greatest result that the lines
/// speak of.
fn chosen(n: usize, len: usize) -> [u64; 6] {
    [
        u64::from(optimal_combined_sampling(n, len, 7)),
        u64::from(optimal_combined_sampling(n, len, 8)),
        u64::from(optimal_combined_sampling(n, len, 13)),
        u64::from(optimal_combined_sampling(n, len, 14)),
        u64::from(optimal_combined_sampling(n, len, 15)),
        u64::from(optimal_combined_sampling(n, len, 31)),
    ]
}

/// Compares the logarithms that are chosen for a share of items.
pub fn ocs<'a>(alloc: Global, line: &'a str, found: &mut Found<'a>) -> Result<(), Fault> {
    let (len, rest) = text::first_word(line);
    let (n, theirs) = text::first_word(rest);
    let ours = chosen(text::position(n)?, text::position(len)?);
    found.compare_list(
        alloc,
        line,
        Base::Decimal,
        List::Words(ours.as_slice()),
        theirs,
    )
}
