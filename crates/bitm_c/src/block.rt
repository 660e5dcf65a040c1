//! Whole stored indexes: how large they are, and the call that writes all their parts.
ghost use Rattle.std.specs.Prelude.{◌≡◌, ◌≢◌, ◌+◌, ◌*◌, ◌↔◌};
ghost use Rattle.std.specs.Int.{div_ceil};
ghost use Rattle.bitm_view.specs.Block.{sample_room, zeros_from, HasBlockRoom, IsIndexBlock};
ghost use Rattle.bitm_abi.specs.Stored.{HasIndexLens, IsIndexHeaderOf, IsLog, IsStored};

use crate::sampled::bitm_index_samples_len;
use crate::stored::bitm_stored_index;
use bitm_abi::{BAD_SIZE, OK, Stored, index_of, is_log, most_samples};
use bitm_view::{build_block, has_block_room};

/// Writes the header of an index of `bits_len` bits with the room that its samples need at most.
#[unsafe(no_mangle)]
pub extern "C" fn bitm_stored_index_room(
    bits_len: u64,
    ones_log2: u32,
    zeros_log2: u32,
    out: &mut Stored,
) -> u32
    ensures ok { let words = div_ceil bits_len 64 in (result ≡ 0) ↔ HasIndexLens bits_len ones_log2
        (sample_room words ones_log2) zeros_log2 (sample_room words zeros_log2) }
    ensures header { let words = div_ceil bits_len 64 in result ≡ 0 → IsStored out.new
        × IsIndexHeaderOf bits_len ones_log2 (sample_room words ones_log2) zeros_log2
        (sample_room words zeros_log2) out.new }
    ensures kept { result ≢ 0 → (result ≡ 2) × (out.new ≡ out.old) }
{
    let words = bits_len.div_ceil(64);
    let ones = most_samples(words, ones_log2);
    let zeros = most_samples(words, zeros_log2);
    bitm_stored_index(bits_len, ones_log2, ones, zeros_log2, zeros, out)
}

/// Writes the words, tables and samples of an index of the first `bits_len` bits of the words, and the header of its
/// file.
#[unsafe(no_mangle)]
pub extern "C" fn bitm_stored_build(
    words: &[u64],
    bits_len: usize,
    ones_log2: u32,
    zeros_log2: u32,
    to: &mut [u64],
    upper: &mut [usize],
    lower: &mut [u64],
    starts: &mut [usize],
    starts0: &mut [usize],
    samples: &mut [u32],
    out: &mut Stored,
) -> u32
    ensures ok { (result ≡ 0) ↔ (IsLog ones_log2 × IsLog zeros_log2 × HasBlockRoom words.now bits_len
        ones_log2 zeros_log2 to.old upper.old lower.old starts.old starts0.old samples.old) }
    ensures header { result ≡ 0 → IsStored out.new × IsIndexHeaderOf bits_len ones_log2 out.new.samples.len
        zeros_log2 out.new.samples0.len out.new }
    ensures block { result ≡ 0 → IsIndexBlock words.now bits_len ones_log2 zeros_log2 to.new upper.new
        lower.new starts.new starts0.new samples.new out.new.samples.len out.new.samples0.len }
    ensures position { result ≡ 0 → out.new.samples0.at
        ≡ out.new.samples.at + 4 * zeros_from out.new.samples.len }
    ensures unchanged { result ≢ 0 → (result ≡ 2) × (to.new ≡ to.old) × (upper.new ≡ upper.old)
        × (lower.new ≡ lower.old) × (starts.new ≡ starts.old) × (starts0.new ≡ starts0.old)
        × (samples.new ≡ samples.old) × (out.new ≡ out.old) }
{
    if !is_log(ones_log2) || !is_log(zeros_log2) {
        return BAD_SIZE;
    }
    let logs = (ones_log2 as u8, zeros_log2 as u8);
    if !has_block_room(
        words,
        bits_len,
        logs,
        &*to,
        (&*upper, &*lower),
        (&*starts, &*starts0),
        &*samples,
    ) {
        return BAD_SIZE;
    }
    let (ones, zeros) = build_block(
        words, bits_len, logs, to, upper, lower, starts, starts0, samples,
    );
    let lens = index_of(
        bits_len as u64,
        ones_log2,
        ones as u64,
        zeros_log2,
        zeros as u64,
    );
    *out = lens.laid_out();
    OK
}
