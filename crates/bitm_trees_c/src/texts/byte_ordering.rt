//! The block of a text of bytes in two steps: the order of its suffixes, and the block from that order.
ghost use Rattle.std.specs.Prelude.{◌≡◌, ◌≢◌, ◌+◌, ◌^◌, ◌<◌, ◌≤◌, ◌↔◌, ◌⊎◌, length};
ghost use Rattle.text_block.specs.Made.{block_len_of_bytes, kinds_of, scratch_for, HoldsOrder, IsByteBlock};

use bitm_abi::{BAD_SIZE, OK, WRONG};
use text_block::making::{BuildError, build_ordered_bytes, order_bytes};

/// Writes the order of the suffixes of a text of bytes to the front of the scratch; what the rest has is overwritten.
#[unsafe(no_mangle)]
pub extern "C" fn bitm_text_order_bytes(text: &[u8], scratch: &mut [u32]) -> u32
    ensures ok { (result ≡ 0) ↔ ((length text.now + 1 < 2 ^ 32)
        × (length scratch.old ≡ scratch_for (length text.now) (kinds_of text.now))) }
    ensures status { (result ≡ 0) ⊎ (result ≡ 2) }
    ensures order { result ≡ 0 → HoldsOrder text.now scratch.new }
    ensures kept { result ≢ 0 → scratch.new ≡ scratch.old }
{
    match order_bytes(text, scratch) {
        Ok(()) => OK,
        Err(_) => BAD_SIZE,
    }
}

/// Writes the block of the index of a text of bytes, with a sample each `step` bytes, from the order of its suffixes in
/// the front of the scratch; what the scratch has is overwritten.
#[unsafe(no_mangle)]
pub extern "C" fn bitm_text_build_ordered_bytes(
    text: &[u8],
    step: u32,
    scratch: &mut [u32],
    block: &mut [u64],
) -> u32
    ensures ok { (result ≡ 0) ↔ ((length text.now + 1 < 2 ^ 32) × (1 ≤ step)
        × (length block.old ≡ block_len_of_bytes text.now step)
        × (length scratch.old ≡ scratch_for (length text.now) (kinds_of text.now))
        × HoldsOrder text.now scratch.old) }
    ensures wrong { (result ≡ 3) ↔ ((length text.now + 1 < 2 ^ 32) × (1 ≤ step)
        × (length block.old ≡ block_len_of_bytes text.now step)
        × (length scratch.old ≡ scratch_for (length text.now) (kinds_of text.now))
        × (¬ (HoldsOrder text.now scratch.old))) }
    ensures status { (result ≡ 0) ⊎ (result ≡ 2) ⊎ (result ≡ 3) }
    ensures block { result ≡ 0 → IsByteBlock text.now step block.new }
    ensures kept { result ≢ 0 → block.new ≡ block.old }
    ensures scratch { result ≡ 2 → scratch.new ≡ scratch.old }
{
    match build_ordered_bytes(text, step, scratch, block) {
        Ok(()) => OK,
        Err(BuildError::TooLarge) => BAD_SIZE,
        Err(BuildError::TooLong) => BAD_SIZE,
        Err(BuildError::WrongStep) => BAD_SIZE,
        Err(BuildError::WrongLength) => BAD_SIZE,
        Err(BuildError::WrongScratch) => BAD_SIZE,
        Err(BuildError::LetterOutside) => BAD_SIZE,
        Err(BuildError::WrongOrder) => WRONG,
    }
}
