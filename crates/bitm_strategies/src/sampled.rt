//! Selection that starts at a sample, over a source, with a bound on its reads.
ghost use Rattle.std.specs.Prelude.{◌≡◌, ◌+◌, ◌-◌, ◌*◌, ◌/◌, ◌%◌, ◌^◌, ◌<◌, ◌≤◌, length, if◌then◌else◌};
ghost use Rattle.bit_lists.specs.Bits.{bits_of, digit, digit_count, IsShort};
ghost use Rattle.bit_lists.specs.Count.{as_bit, IsSelect};
ghost use Rattle.bitm_tables.specs.Reads.{ReadsAtMost};
ghost use Rattle.bitm_strategies.specs.Samples.{parts, samples_of, sample_starts_of, IsSampledPart, SampledReads};
ghost use Rattle.bitm_tables.specs.Tables.{HasTables};
ghost use Rattle.bitm_tables.specs.declared.source.counts.ReadCounts.{ReadCounts};

use crate::walking::walk;
use bitm_select::search::record::in_packed;
use bitm_select::search::selected::found;
use bitm_select::search::selecting::{before_part, last_part};
use bitm_tables::source::TableSource;

/// The entry at which a sample lets the selection of this rank begin, counted in its upper block, where a sample stands
/// for 2^`log2` items.
///
/// # Conditions
/// The logarithm is 7 to 31. The sample may be any number.
#[inline(always)]
pub fn first_entry(sample: u32, rank: usize, log2: u8) -> usize
    requires low { 7 ≤ log2 }
    requires high { log2 ≤ 31 }
    ensures { result ≡ sample % 2 ^ 21 + (if digit rank (log2 - 1) then sample / 2 ^ 21 else 0) }
{
    let first = (sample & 0x1F_FFFF) as usize;
    if rank >> (log2 - 1) & 1 == 1 {
        first + (sample >> 21) as usize
    } else {
        first
    }
}

/// An upper block, and how many samples and items there are before it.
#[derive(Clone, Copy)]
pub struct PartBegin {
    /// Which upper block it is.
    pub part: usize,
    /// The samples of the upper blocks before it.
    pub samples: usize,
    /// The items before it.
    pub items: usize,
}

/// Selection by the samples of the source's words, one for each 2^`log2` items, in an upper block that is known: a walk
/// over the lower entries from the sample on.
#[inline(always)]
fn sampled_in_part<const BIT: u8, T: TableSource>(
    source: &mut T,
    samples: &[u32],
    log2: u8,
    begin: PartBegin,
    rank: usize,
) -> Option<usize>
    requires tables { HasTables (T.lists source.old) }
    requires short { IsShort (T.lists source.old).words }
    requires sampled { IsSampledPart BIT (T.lists source.old) samples.now log2 begin rank }
    ensures answer { IsSelect (bits_of (T.lists source.old).words) (as_bit BIT) rank result }
    ensures reads { (early : ReadCounts)
        → ReadsAtMost early (T.reads source.old)
        (digit_count (parts (bits_of (T.lists source.old).words)) + 1) 0 0
        → SampledReads (bits_of (T.lists source.old).words) (as_bit BIT) log2 rank result
        early (T.reads source.new) }
    ensures same { T.lists source.new ≡ T.lists source.old }
{
    let in_part = rank - begin.items;
    let at = begin.samples + (in_part >> log2);
    if at >= samples.len() {
        return None;
    }
    let from = first_entry(samples[at], in_part, log2);
    let (entry, packed, above) = walk::<BIT, T>(source, begin.part, from, in_part);
    found(in_packed::<BIT, 0, T>(source, begin.part, entry, packed, above, in_part))
}

/// Selection by the samples of the source's words where there are more upper blocks than one: one read of an upper
/// entry for each halving and one more, and a walk over the lower entries from the sample on.
#[inline(never)]
fn sampled_in_parts<const BIT: u8, T: TableSource>(
    samples: &[u32],
    starts: &[usize],
    log2: u8,
    source: &mut T,
    rank: usize,
) -> Option<usize>
    requires tables { HasTables (T.lists source.old) }
    requires short { IsShort (T.lists source.old).words }
    requires low { 7 ≤ log2 }
    requires high { log2 ≤ 31 }
    requires some { 0 < length (T.lists source.old).upper }
    requires samples { samples.now
        ≡ samples_of (bits_of (T.lists source.old).words) (as_bit BIT) log2 }
    requires starts { starts.now
        ≡ sample_starts_of (bits_of (T.lists source.old).words) (as_bit BIT) log2 }
    ensures answer { IsSelect (bits_of (T.lists source.old).words) (as_bit BIT) rank result }
    ensures reads { SampledReads (bits_of (T.lists source.old).words) (as_bit BIT) log2
        rank result (T.reads source.old) (T.reads source.new) }
    ensures same { T.lists source.new ≡ T.lists source.old }
{
    let part = last_part::<BIT, T>(source, rank);
    let before = before_part::<BIT, T>(source, part);
    let begin = PartBegin {
        part,
        samples: starts[part],
        items: before,
    };
    sampled_in_part::<BIT, T>(source, samples, log2, begin, rank)
}

/// Selection by the samples of the source's words, one for each 2^`log2` items: where there is one upper block no upper
/// entry is read. More upper blocks have a call of their own, so that the short one is inlined.
#[inline(always)]
pub(crate) fn sampled_select_on<const BIT: u8, T: TableSource>(
    samples: &[u32],
    starts: &[usize],
    log2: u8,
    source: &mut T,
    rank: usize,
) -> Option<usize>
    requires tables { HasTables (T.lists source.old) }
    requires short { IsShort (T.lists source.old).words }
    requires low { 7 ≤ log2 }
    requires high { log2 ≤ 31 }
    requires samples { samples.now
        ≡ samples_of (bits_of (T.lists source.old).words) (as_bit BIT) log2 }
    requires starts { starts.now
        ≡ sample_starts_of (bits_of (T.lists source.old).words) (as_bit BIT) log2 }
    ensures answer { IsSelect (bits_of (T.lists source.old).words) (as_bit BIT) rank result }
    ensures reads { SampledReads (bits_of (T.lists source.old).words) (as_bit BIT) log2
        rank result (T.reads source.old) (T.reads source.new) }
    ensures same { T.lists source.new ≡ T.lists source.old }
{
    match source.upper_len() {
        0 => None,
        1 => {
            // Nothing stands before the only part.
            let begin = PartBegin {
                part: 0,
                samples: 0,
                items: 0,
            };
            sampled_in_part::<BIT, T>(source, samples, log2, begin, rank)
        }
        _ => sampled_in_parts::<BIT, T>(samples, starts, log2, source, rank),
    }
}
