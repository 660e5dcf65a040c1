//! Words, tables and samples of an index, built in one call in the caller's memory.
ghost use Rattle.std.specs.Prelude.{◌≡◌, ◌≢◌, ◌*◌, ◌≤◌, ◌↔◌, IfSome, IsNone, IsSome, IsTrue, length, take};
ghost use Rattle.std.specs.Int.{div_ceil};
ghost use Rattle.bit_lists.specs.Bits.{bits_of};
ghost use Rattle.bit_lists.specs.Count.{as_bit};
ghost use Rattle.bitm_strategies.specs.Density.{clamped_log};
ghost use Rattle.bitm_tables.specs.Tables.{bits_in, HasTables};
ghost use Rattle.bitm_view.specs.Block.{sample_room, starts_of, AreFirst, HasBlockRoom, IsIndexBlock};
ghost use Rattle.tables_view.specs.Samples.{AreSamples, HasSampleRoom};

use bit_words::slices::copy_range;
use tables_view::{TablesView, build, clear_from, lower_len, samples_len, upper_len};

/// Copies the first `len` bits; those after them become 0 bits.
fn copy_first(words: &[u64], len: usize, to: &mut [u64])
    requires inside { len ≤ 64 * length words.now }
    requires room { length to.old ≡ div_ceil len 64 }
    ensures bits { AreFirst (bits_of words.now) len (bits_of to.new) }
    ensures len { length to.new ≡ length to.old }
{
    copy_range(&mut *to, 0, words, 0, len);
    clear_from(to, len);
}

/// The room that samples at a logarithm need, in samples; 0 where the logarithm is 0, which stands for no samples.
#[inline(always)]
fn samples_room(words: usize, log2: u8) -> usize
    ensures { result ≡ sample_room words log2 }
{
    if log2 == 0 {
        0
    } else {
        samples_len(words, log2)
    }
}

/// The length of the list of starts beside samples of that logarithm: one for each upper block, and none where the
/// logarithm is 0.
#[inline(always)]
pub fn starts_len(upper: usize, log2: u8) -> usize
    ensures { result ≡ starts_of log2 upper }
{
    if log2 == 0 { 0 } else { upper }
}

/// Builds samples as `TablesView::build_samples` does and returns their number; builds none and returns 0 where `log2`
/// is 0.
fn sample<const BIT: u8>(
    tables: &TablesView<'_>,
    log2: u8,
    samples: &mut [u32],
    starts: &mut [usize],
) -> usize
    requires room { log2 ≢ 0 → HasSampleRoom tables.now log2 samples.old starts.old }
    ensures most { result ≤ length samples.old }
    ensures len { length samples.new ≡ length samples.old }
    ensures made { log2 ≢ 0 → HasTables tables.now → AreSamples (bits_in tables.now) (as_bit BIT)
        (clamped_log log2) (take result samples.new) starts.new }
{
    if log2 == 0 {
        return 0;
    }
    match tables.build_samples::<BIT>(log2, samples, starts) {
        Some(used) => used,
        None => 0,
    }
}

/// Whether the words have `len` bits and each list has the length that `build_block` requires.
#[inline(always)]
pub fn has_block_room(
    words: &[u64],
    len: usize,
    logs: (u8, u8),
    to: &[u64],
    tables: (&[usize], &[u64]),
    starts: (&[usize], &[usize]),
    samples: &[u32],
) -> bool
    ensures { IsTrue result ↔ HasBlockRoom words.now len logs.0 logs.1 to.now tables.entry.0.now tables.entry.1.now
        starts.entry.0.now starts.entry.1.now samples.now }
{
    let needed = len.div_ceil(64);
    let (upper, lower) = tables;
    len <= usize::MAX - 63
        && needed <= words.len()
        && to.len() == needed
        && upper.len() == upper_len(needed)
        && lower.len() == lower_len(needed)
        && starts.0.len() == starts_len(upper.len(), logs.0)
        && starts.1.len() == starts_len(upper.len(), logs.1)
        && samples_room(needed, logs.0).div_ceil(16) * 16 + samples_room(needed, logs.1)
            <= samples.len()
}

/// Copies the first `len` bits of the words and builds their tables, and samples of 1 bits and of 0 bits at the two
/// logarithms; a logarithm of 0 stands for no samples. Returns the number of samples of either kind. The samples of 0
/// bits start at the first multiple of 16 that is not below the number of samples of 1 bits.
///
/// # Conditions
/// `has_block_room` holds of the lists.
/// # Cost
/// Two passes over the words, and what `TablesView::build_samples` reads.
pub fn build_block(
    words: &[u64],
    len: usize,
    logs: (u8, u8),
    to: &mut [u64],
    upper: &mut [usize],
    lower: &mut [u64],
    starts: &mut [usize],
    starts0: &mut [usize],
    samples: &mut [u32],
) -> (usize, usize)
    requires { HasBlockRoom words.now len logs.0 logs.1 to.old upper.old lower.old starts.old starts0.old
        samples.old }
    ensures { IsIndexBlock words.now len logs.0 logs.1 to.new upper.new lower.new starts.new starts0.new
        samples.new result.0 result.1 }
{
    copy_first(words, len, &mut *to);
    let _ones = build(&*to, &mut *upper, &mut *lower);
    let tables = TablesView::over(&*to, &*upper, &*lower).unwrap();
    let room = samples_room(to.len(), logs.0);
    let ones = sample::<1>(&tables, logs.0, &mut samples[..room], starts);
    let first = ones.div_ceil(16) * 16;
    let room0 = samples_room(to.len(), logs.1);
    let zeros = sample::<0>(&tables, logs.1, &mut samples[first..first + room0], starts0);
    (ones, zeros)
}
