//! The block of a text of letters below a bound in two steps: the order of its suffixes, and the block from that order.
ghost use Rattle.std.specs.Prelude.{◌≡◌, ◌≢◌, ◌+◌, ◌^◌, ◌<◌, ◌≤◌, ◌↔◌, ◌⊎◌, [], All, length};
ghost use Rattle.bitm_block.specs.Layout.{end_of};
ghost use Rattle.text_block.specs.Made.{scratch_for, HoldsOrder, IsIndexable, IsMadeBlock};
ghost use Rattle.text_block.specs.Written.{text_sections};
ghost use Rattle.text_index.specs.Text.{width_of_kinds};

use bitm_abi::{BAD_SIZE, OK, WRONG};
use text_block::making::{BuildError, build_ordered, order};

/// Writes the order of the suffixes of a text of letters below `letters` to the front of the scratch; what the rest has
/// is overwritten.
#[unsafe(no_mangle)]
pub extern "C" fn bitm_text_order(text: &[u64], letters: u32, scratch: &mut [u32]) -> u32
    ensures ok { (result ≡ 0) ↔ ((length text.now + 1 < 2 ^ 32)
        × (length scratch.old ≡ scratch_for (length text.now) letters)
        × All (λ x. x < letters) text.now) }
    ensures wrong { (result ≡ 3) ↔ ((length text.now + 1 < 2 ^ 32)
        × (length scratch.old ≡ scratch_for (length text.now) letters)
        × (¬ (All (λ x. x < letters) text.now))) }
    ensures status { (result ≡ 0) ⊎ (result ≡ 2) ⊎ (result ≡ 3) }
    ensures order { result ≡ 0 → HoldsOrder text.now scratch.new }
    ensures kept { result ≢ 0 → scratch.new ≡ scratch.old }
{
    match order(text, letters, scratch) {
        Ok(()) => OK,
        Err(BuildError::TooLarge) => BAD_SIZE,
        Err(BuildError::TooLong) => BAD_SIZE,
        Err(BuildError::WrongStep) => BAD_SIZE,
        Err(BuildError::WrongLength) => BAD_SIZE,
        Err(BuildError::WrongScratch) => BAD_SIZE,
        Err(BuildError::LetterOutside) => WRONG,
        Err(BuildError::WrongOrder) => BAD_SIZE,
    }
}

/// Writes the block of the index of a text of letters below `letters`, with a sample each `step` letters, from the
/// order of its suffixes in the front of the scratch; what the scratch has is overwritten.
#[unsafe(no_mangle)]
pub extern "C" fn bitm_text_build_ordered(
    text: &[u64],
    letters: u32,
    step: u32,
    scratch: &mut [u32],
    block: &mut [u64],
) -> u32
    ensures ok { (result ≡ 0) ↔ (IsIndexable text.now letters step
        × (length block.old ≡ end_of (text_sections (length text.now) (width_of_kinds letters) letters step 0))
        × (length scratch.old ≡ scratch_for (length text.now) letters)
        × HoldsOrder text.now scratch.old) }
    ensures wrong { (result ≡ 3) ↔ ((length text.now + 1 < 2 ^ 32) × (1 ≤ step)
        × (length block.old ≡ end_of (text_sections (length text.now) (width_of_kinds letters) letters step 0))
        × (length scratch.old ≡ scratch_for (length text.now) letters)
        × (¬ (All (λ x. x < letters) text.now × HoldsOrder text.now scratch.old))) }
    ensures status { (result ≡ 0) ⊎ (result ≡ 2) ⊎ (result ≡ 3) }
    ensures block { result ≡ 0 → IsMadeBlock text.now letters (width_of_kinds letters) step [] block.new }
    ensures kept { result ≢ 0 → block.new ≡ block.old }
    ensures scratch { result ≡ 2 → scratch.new ≡ scratch.old }
{
    match build_ordered(text, letters, step, scratch, block) {
        Ok(()) => OK,
        Err(BuildError::TooLarge) => BAD_SIZE,
        Err(BuildError::TooLong) => BAD_SIZE,
        Err(BuildError::WrongStep) => BAD_SIZE,
        Err(BuildError::WrongLength) => BAD_SIZE,
        Err(BuildError::WrongScratch) => BAD_SIZE,
        Err(BuildError::LetterOutside) => WRONG,
        Err(BuildError::WrongOrder) => WRONG,
    }
}
