//! The file of a text.
ghost use Rattle.std.specs.Prelude.{◌≡◌, ◌≢◌, ◌↔◌, ◌+◌, ◌≤◌, ◌<◌, ◌^◌, IfErr, IfOk, IsErrOf, OnOk, length};
ghost use Rattle.program_files.specs.TextsBuilding.{IsTextBlockOf, WroteText};

use crate::blocks::write_words;
use crate::texts::failure::Failure;
use std::alloc::Global;
use std::io::Write;
use text_block::making::{block_len_of_bytes, build_bytes, scratch_len_of_bytes};

/// How many letters there are to a sample: a position takes at most 31 steps, and samples two bits a letter.
const STEP: u32 = 32;

/// The words of the block of a text of bytes.
///
/// # Errors
/// `TooLong` exactly where the text has 2^32 - 1 bytes or more; else `NoMemory` if memory was refused.
fn block_of_text(alloc: Global, text: &[u8]) -> Result<Vec<u64>, Failure>
    ensures block { IfOk result (λ block. IsTextBlockOf text.now block.items) }
    ensures too_long { IsErrOf result Failure.TooLong ↔ (2 ^ 32 ≤ length text.now + 1) }
    ensures memory { IfErr result (λ e. e ≢ Failure.TooLong → e ≡ Failure.NoMemory) }
{
    let Some(words) = block_len_of_bytes(text, STEP) else {
        return Err(Failure::TooLong);
    };
    let Some(numbers) = scratch_len_of_bytes(text) else {
        return Err(Failure::TooLong);
    };
    let mut scratch = vec![in alloc; 0u32; numbers]?;
    let mut block = vec![in alloc; 0u64; words]?;
    match build_bytes(text, STEP, scratch.as_mut_slice(), block.as_mut_slice()) {
        Ok(()) => Ok(block),
        Err(_) => unreachable!(),
    }
}

/// Writes the index of a text of bytes as a file, which `count` and `locate` read.
///
/// # Errors
/// `TooLong` exactly where the text has 2^32 - 1 bytes or more; else `NoMemory` where memory was refused. Nothing is
/// written then. `CannotWrite` where a write failed; what was written before that stays.
/// # Cost
/// The cost of `text_block::making::build_bytes`, in linear time; eight bytes of memory for each byte of the text, and
/// the bytes of the file (evident from the code).
///
/// ```
/// build(alloc, b"banana", &mut out);   // Ok(()): out has the bytes of the block
/// ```
pub fn build<W: Write>(alloc: Global, text: &[u8], out: &mut W) -> Result<(), Failure>
    ensures written { OnOk result (WroteText text.now (W.contents out.old) (W.contents out.new)) }
    ensures too_long { IsErrOf result Failure.TooLong ↔ (2 ^ 32 ≤ length text.now + 1) }
    ensures wrong { ¬ (IsErrOf result Failure.WrongBlock) }
    ensures nothing { IfErr result (λ e. e ≢ Failure.CannotWrite → out.new ≡ out.old) }
{
    let block = block_of_text(alloc, text)?;
    Ok(write_words(block.as_slice(), out)?)
}
