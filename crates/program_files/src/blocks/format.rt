//! Which format a file is in, by the mark that it begins with.
ghost use Rattle.std.specs.Prelude.{◌≡◌};
ghost use Rattle.program_files.specs.Format.{format_in, version_of, version_of_file};

use crate::blocks::failure::Failure;

/// The letters `bitmtab` as a number, the first one in the lowest byte.
const LETTERS: u64 = 0x62_6174_6d74_6962;

/// A format of files that the program reads.
#[derive(Clone, Copy, Debug, PartialEq, Eq)]
pub enum Format {
    /// A block: version 3 or 4.
    Block,
    /// Version 2, which releases before 0.3.0 wrote.
    Old,
}

/// The version in the highest byte of a mark, if the others are its letters.
fn version_of(mark: u64) -> Option<u64>
    ensures { result ≡ version_of mark }
{
    if mark % (1 << 56) == LETTERS {
        Some(mark / (1 << 56))
    } else {
        None
    }
}

/// The version that a file says, if it has the letters of a mark.
fn version_in(bytes: &[u8]) -> Option<u64>
    ensures { result ≡ version_of_file bytes.now }
{
    let (chunks, _rest) = bytes.as_chunks::<8>();
    match chunks {
        [first, ..] => version_of(u64::from_le_bytes(*first)),
        [] => None,
    }
}

/// The format of a file, by its first eight bytes alone.
///
/// # Errors
/// `Unmarked` exactly where these are not the letters `bitmtab` and a version, `OtherVersion` exactly where the version
/// is none of 2, 3 and 4.
///
/// ```
/// format_in(b"bitmtab\x04".as_slice());   // Ok(Format::Block)
/// format_in(b"one\ntwo\n".as_slice());    // Err(Failure::Unmarked)
/// ```
pub fn format_in(bytes: &[u8]) -> Result<Format, Failure>
    ensures { result ≡ format_in bytes.now }
{
    match version_in(bytes) {
        None => Err(Failure::Unmarked),
        Some(3 | 4) => Ok(Format::Block),
        Some(2) => Ok(Format::Old),
        Some(version) => Err(Failure::OtherVersion(version)),
    }
}
