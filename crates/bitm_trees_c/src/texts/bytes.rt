//! The block of a text of bytes: how much memory building takes, and writing it.
ghost use Rattle.std.specs.Prelude.{◌≡◌, ◌≢◌, ◌+◌, ◌^◌, ◌<◌, ◌≤◌, ◌↔◌, ◌⊎◌, length};
ghost use Rattle.text_block.specs.Made.{block_len_of_bytes, kinds_of, scratch_for, IsByteBlock};

use bitm_abi::{BAD_SIZE, OK};
use text_block::making::{block_len_of_bytes, build_bytes, scratch_len_of_bytes};

/// Writes how many words the block of a text of bytes takes, with a sample each `step` bytes, and how many numbers of
/// 32 bits `bitm_text_build_bytes` takes: two passes over the text.
#[unsafe(no_mangle)]
pub extern "C" fn bitm_text_size_bytes(
    text: &[u8],
    step: u32,
    block_len: &mut usize,
    scratch_len: &mut usize,
) -> u32
    ensures ok { (result ≡ 0) ↔ ((length text.now + 1 < 2 ^ 32) × (1 ≤ step)) }
    ensures block { result ≡ 0 → block_len.new ≡ block_len_of_bytes text.now step }
    ensures scratch { result ≡ 0 → scratch_len.new ≡ scratch_for (length text.now) (kinds_of text.now) }
    ensures kept { result ≢ 0
        → (result ≡ 2) × (block_len.new ≡ block_len.old) × (scratch_len.new ≡ scratch_len.old) }
{
    if step == 0 || text.len() >= u32::MAX as usize {
        return BAD_SIZE;
    }
    match (block_len_of_bytes(text, step), scratch_len_of_bytes(text)) {
        (Some(words), Some(numbers)) => {
            *block_len = words;
            *scratch_len = numbers;
            OK
        }
        _ => BAD_SIZE,
    }
}

/// Writes the block of the index of a text of bytes, with a sample each `step` bytes; what the scratch has is
/// overwritten.
#[unsafe(no_mangle)]
pub extern "C" fn bitm_text_build_bytes(
    text: &[u8],
    step: u32,
    scratch: &mut [u32],
    block: &mut [u64],
) -> u32
    ensures ok { (result ≡ 0) ↔ ((length text.now + 1 < 2 ^ 32) × (1 ≤ step)
        × (length block.old ≡ block_len_of_bytes text.now step)
        × (length scratch.old ≡ scratch_for (length text.now) (kinds_of text.now))) }
    ensures status { (result ≡ 0) ⊎ (result ≡ 2) }
    ensures block { result ≡ 0 → IsByteBlock text.now step block.new }
    ensures kept { result ≢ 0 → (block.new ≡ block.old) × (scratch.new ≡ scratch.old) }
{
    match build_bytes(text, step, scratch, block) {
        Ok(()) => OK,
        Err(_) => BAD_SIZE,
    }
}
