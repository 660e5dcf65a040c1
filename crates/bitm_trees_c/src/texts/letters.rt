//! The block of a text of letters below a bound: how much memory building takes, and writing it.
ghost use Rattle.std.specs.Prelude.{◌≡◌, ◌≢◌, ◌+◌, ◌^◌, ◌<◌, ◌≤◌, ◌↔◌, ◌⊎◌, [], All, length};
ghost use Rattle.bitm_block.specs.Layout.{end_of};
ghost use Rattle.text_block.specs.Made.{scratch_for, IsIndexable, IsMadeBlock};
ghost use Rattle.text_block.specs.Written.{text_sections};
ghost use Rattle.text_index.specs.Text.{width_of_kinds};

use bitm_abi::{BAD_SIZE, OK, WRONG};
use text_block::making::{BuildError, build, size};
use text_index::width_for;

/// Writes how many words the block of a text of `len` letters below `letters` takes, with a sample each `step` letters,
/// and how many numbers of 32 bits `bitm_text_build` takes.
#[unsafe(no_mangle)]
pub extern "C" fn bitm_text_size_letters(
    len: usize,
    letters: u32,
    step: u32,
    block_len: &mut usize,
    scratch_len: &mut usize,
) -> u32
    ensures ok { (result ≡ 0) ↔ ((len + 1 < 2 ^ 32) × (1 ≤ step)) }
    ensures block { result ≡ 0
        → block_len.new ≡ end_of (text_sections len (width_of_kinds letters) letters step 0) }
    ensures scratch { result ≡ 0 → scratch_len.new ≡ scratch_for len letters }
    ensures kept { result ≢ 0
        → (result ≡ 2) × (block_len.new ≡ block_len.old) × (scratch_len.new ≡ scratch_len.old) }
{
    let words = size(len, width_for(letters), letters as usize, step);
    match (words, text_block::making::scratch_len(len, letters)) {
        (Some(words), Some(numbers)) => {
            *block_len = words;
            *scratch_len = numbers;
            OK
        }
        _ => BAD_SIZE,
    }
}

/// Writes the block of the index of a text of letters below `letters`, with a sample each `step` letters; what the
/// scratch has is overwritten.
#[unsafe(no_mangle)]
pub extern "C" fn bitm_text_build(
    text: &[u64],
    letters: u32,
    step: u32,
    scratch: &mut [u32],
    block: &mut [u64],
) -> u32
    ensures ok { (result ≡ 0) ↔ (IsIndexable text.now letters step
        × (length block.old ≡ end_of (text_sections (length text.now) (width_of_kinds letters) letters step 0))
        × (length scratch.old ≡ scratch_for (length text.now) letters)) }
    ensures wrong { (result ≡ 3) ↔ ((length text.now + 1 < 2 ^ 32) × (1 ≤ step)
        × (length block.old ≡ end_of (text_sections (length text.now) (width_of_kinds letters) letters step 0))
        × (length scratch.old ≡ scratch_for (length text.now) letters)
        × (¬ (All (λ x. x < letters) text.now))) }
    ensures status { (result ≡ 0) ⊎ (result ≡ 2) ⊎ (result ≡ 3) }
    ensures block { result ≡ 0 → IsMadeBlock text.now letters (width_of_kinds letters) step [] block.new }
    ensures kept { result ≢ 0 → (block.new ≡ block.old) × (scratch.new ≡ scratch.old) }
{
    match build(text, letters, step, scratch, block) {
        Ok(()) => OK,
        Err(BuildError::TooLarge) => BAD_SIZE,
        Err(BuildError::TooLong) => BAD_SIZE,
        Err(BuildError::WrongStep) => BAD_SIZE,
        Err(BuildError::WrongLength) => BAD_SIZE,
        Err(BuildError::WrongScratch) => BAD_SIZE,
        Err(BuildError::LetterOutside) => WRONG,
        Err(BuildError::WrongOrder) => BAD_SIZE,
    }
}
