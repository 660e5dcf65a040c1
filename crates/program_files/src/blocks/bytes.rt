//! The words of a block as bytes, the lowest byte of each first.
ghost use Rattle.std.specs.Prelude.{◌≡◌, IfOk, OnOk, option_map};
ghost use Rattle.std.specs.Io.KnownBytes.{Appends};
ghost use Rattle.program_files.specs.Bytes.{bytes_of, words_of_bytes};

use program_base::runs::CannotWrite;
use std::alloc::{AllocError, Global};
use std::io::Write;

/// The words that the bytes are, the lowest byte of each first; `None` exactly where these are not eight for each word.
///
/// # Errors
/// `AllocError` where memory was refused.
///
/// ```
/// words_of_bytes(alloc, &[1, 0, 0, 0, 0, 0, 0, 0]);   // Ok(Some(..)) of the word 1
/// ```
pub fn words_of_bytes(alloc: Global, bytes: &[u8]) -> Result<Option<Vec<u64>>, AllocError>
    ensures { IfOk result (λ words. option_map (λ v. v.items) words ≡ words_of_bytes bytes.now) }
{
    let (chunks, rest) = bytes.as_chunks::<8>();
    if !rest.is_empty() {
        return Ok(None);
    }
    let mut words = Vec::with_capacity(alloc, chunks.len())?;
    for chunk in chunks {
        words.push(u64::from_le_bytes(*chunk))?;
    }
    Ok(Some(words))
}

/// Writes the bytes of the words, the lowest byte of each first.
///
/// # Errors
/// `CannotWrite` where a write failed; what was written before that stays.
///
/// ```
/// write_words(&[1], &mut out);   // Ok(()): out has the bytes 1, 0, 0, 0, 0, 0, 0, 0
/// ```
pub fn write_words<W: Write>(words: &[u64], out: &mut W) -> Result<(), CannotWrite>
    ensures { OnOk result (Appends (W.contents out.old) (W.contents out.new) (bytes_of words.now)) }
{
    for word in words {
        out.write_all(&word.to_le_bytes())?;
    }
    Ok(())
}
