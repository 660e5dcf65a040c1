//! The lines of a text, one after another.
ghost use Rattle.std.specs.Prelude.{◌≡◌, IfOk};
ghost use Rattle.program_base.specs.Text.{lines_of};
ghost use Rattle.program_files.specs.StringsLines.{ends_of, joined_lines};

use program_base::text::FilledLines;
use std::alloc::{AllocError, Global};

/// Strings that stand one after another, and where each ends.
#[derive(Drop)]
pub(crate) struct StringList {
    /// Their bytes.
    pub(crate) bytes: Vec<u8>,
    /// Where each of them ends.
    pub(crate) ends: Vec<usize>,
}

/// The lines of a text that are not empty, one after another.
pub(crate) fn gathered(alloc: Global, text: &[u8]) -> Result<StringList, AllocError>
    ensures bytes { IfOk result (λ made. made.bytes.items ≡ joined_lines (lines_of text.now)) }
    ensures ends { IfOk result (λ made. made.ends.items ≡ ends_of (lines_of text.now)) }
{
    let mut bytes = Vec::new(alloc);
    let mut ends = Vec::new(alloc);
    for line in FilledLines::new(text) {
        bytes.extend_from_slice(line)?;
        ends.push(bytes.len())?;
    }
    Ok(StringList { bytes, ends })
}
