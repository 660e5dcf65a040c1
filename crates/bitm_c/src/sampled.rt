//! Samples in the caller's memory: how to build and how to check them.
ghost use Rattle.std.specs.Prelude.{◌≡◌, ◌≢◌, ◌≤◌, ◌↔◌, ◌⊎◌, ℕ, length, slice_index, take};
ghost use Rattle.bitm_strategies.specs.Density.{clamped_log};
ghost use Rattle.bitm_tables.specs.Tables.{HasTables, bits_in};
ghost use Rattle.tables_view.specs.Samples.{AreSamples, AreSamplesOf, HasSampleRoom, enough_samples};
ghost use Rattle.bitm_view.specs.Cut.{IsSizedCut};
ghost use Rattle.bitm_abi.specs.Index.{cut_of};
ghost use Rattle.bitm_abi.specs.Samples.{index_samples, borrowed_samples};

use bitm_abi::{BAD_SIZE, Index, OK, WRONG, narrow_log2};

/// The room for samples of one kind of `words_len` words: ceil(words_len / 2^(log2 - 6)) samples.
#[unsafe(no_mangle)]
pub extern "C" fn bitm_index_samples_len(words_len: usize, log2: u32) -> usize
    ensures { result ≡ enough_samples words_len log2 }
{
    tables_view::samples_len(words_len, narrow_log2(log2))
}

/// Writes the samples of the 1 bits, or of the 0 bits, the number of samples before each upper block, and how many
/// samples there are.
#[unsafe(no_mangle)]
pub extern "C" fn bitm_index_build_samples(
    index: &Index<'_>,
    one: bool,
    log2: u32,
    samples: &mut [u32],
    starts: &mut [usize],
    used: &mut usize,
) -> u32
    ensures ok { (result ≡ 0) ↔ IsSizedCut (cut_of index.now)
        × HasSampleRoom (cut_of index.now).lists log2 samples.old starts.old }
    ensures fits { result ≡ 0 → used.new ≤ length samples.old }
    ensures made { result ≡ 0 → HasTables (cut_of index.now).lists → AreSamples
        (bits_in (cut_of index.now).lists) one (clamped_log log2)
        (take used.new samples.new) starts.new }
    ensures behind { result ≡ 0 → (j : ℕ) → used.new ≤ j
        → slice_index samples.new j ≡ slice_index samples.old j }
    ensures kept { result ≢ 0 → (result ≡ 2) × (samples.new ≡ samples.old)
        × (starts.new ≡ starts.old) × (used.new ≡ used.old) }
{
    let Some(view) = index.view() else {
        return BAD_SIZE;
    };
    let made = if one {
        view.tables()
            .build_samples::<1>(narrow_log2(log2), samples, starts)
    } else {
        view.tables()
            .build_samples::<0>(narrow_log2(log2), samples, starts)
    };
    match made {
        Some(count) => {
            *used = count;
            OK
        }
        None => BAD_SIZE,
    }
}

/// Whether the index's samples of the 1 bits, or of the 0 bits, are the samples that the build writes, where the tables
/// match the words.
#[unsafe(no_mangle)]
pub extern "C" fn bitm_index_check_samples(index: &Index<'_>, one: bool) -> u32
    ensures ok { IsSizedCut (cut_of index.now) → HasTables (cut_of index.now).lists
        → (result ≡ 0) ↔ AreSamplesOf (bits_in (cut_of index.now).lists) one
        (borrowed_samples (index_samples one index.now)) }
    ensures bad { (result ≡ 2) ↔ ¬ (IsSizedCut (cut_of index.now)) }
    ensures status { (result ≡ 0) ⊎ (result ≡ 2) ⊎ (result ≡ 3) }
{
    let Some(view) = index.view() else {
        return BAD_SIZE;
    };
    let are = if one {
        view.tables().check_samples::<1>(&index.ones.borrowed())
    } else {
        view.tables().check_samples::<0>(&index.zeros.borrowed())
    };
    if are { OK } else { WRONG }
}
