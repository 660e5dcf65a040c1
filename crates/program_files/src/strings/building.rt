//! The block of the lines of a text.
ghost use Rattle.std.specs.Prelude.{◌≡◌, ◌≢◌, IfErr, IsErrOf, OnOk};
ghost use Rattle.program_files.specs.StringsBuilding.{WroteStrings};

use crate::blocks::write_words;
use crate::strings::failure::Failure;
use crate::strings::gathering::gathered;
use crate::strings::numbering::block_of;
use std::alloc::Global;
use std::io::Write;

/// Writes the block of the lines of a text that are not empty, as bytes, in which `find` finds them: each is a string
/// that has a number of its own, below how many there are (`program_base::text::FilledLines`).
///
/// # Errors
/// `EqualLines` where two lines are equal, or have one hash by the seed 0 and two have one by the seed 1; `TooLarge`
/// where the lines are too many or too long for a block; `NoMemory` where memory was refused (which of these three is
/// evident from the code). Nothing is written then. `CannotWrite` where a write failed; what was written before that
/// stays.
/// # Cost
/// Two passes over the text for each seed that is tried, and what `perfect_hash::build` and
/// `hash_block::strings::build` cost; memory for a copy of the lines, two words for each, their hash and the block
/// (evident from the code).
///
/// ```
/// build(alloc, b"ada\nbob\n".as_slice(), &mut out);   // Ok(()): out has the bytes of the block
/// build(alloc, b"ada\nada\n".as_slice(), &mut out);   // Err(Failure::EqualLines)
/// ```
pub fn build<W: Write>(alloc: Global, text: &[u8], out: &mut W) -> Result<(), Failure>
    ensures written { OnOk result (WroteStrings text.now (W.contents out.old) (W.contents out.new)) }
    ensures wrong { ¬ (IsErrOf result Failure.WrongBlock) }
    ensures nothing { IfErr result (λ e. e ≢ Failure.CannotWrite → out.new ≡ out.old) }
{
    let lines = gathered(alloc, text)?;
    let block = block_of(alloc, lines.bytes.as_slice(), lines.ends.as_slice())?;
    Ok(write_words(block.as_slice(), out)?)
}
