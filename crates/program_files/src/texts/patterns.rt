//! The patterns of a list, one a line.
ghost use Rattle.std.specs.Prelude.{◌≡◌, IfOk};
ghost use Rattle.std.specs.Str.Lines.{lines};
ghost use Rattle.program_files.specs.Lines.{bytes_in};

use program_base::text::Lines;
use std::alloc::{AllocError, Global};

/// The lines of a list of patterns, the empty ones too.
pub(crate) fn listed(alloc: Global, list: &[u8]) -> Result<Vec<&[u8]>, AllocError>
    ensures { IfOk result (λ patterns. bytes_in patterns.items ≡ lines list.now) }
{
    let mut patterns = Vec::new(alloc);
    for line in Lines::new(list) {
        patterns.push(line)?;
    }
    Ok(patterns)
}
