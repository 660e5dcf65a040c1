//! The lines of a text that have one of some patterns.
ghost use Rattle.std.specs.Prelude.{◌≡◌, ◌<◌, ◌^◌, All, IfOk, IsErrOf, length};
ghost use Rattle.std.specs.List.Sorted.{IsNonDecreasing, IsStrictlyIncreasing};
ghost use Rattle.program_files.specs.Lines.{bytes_in, line_among, AreLinesOf, LinesWith};
ghost use Rattle.text_block.specs.Block.{HoldsIndex, bytes_of_parts};

use crate::texts::all_positions::{all_positions, positions};
use crate::texts::failure::Failure;
use std::alloc::{AllocError, Global};
use text_block::TextView;

/// The numbers of the lines of the text that have one of the patterns, each once and in their order.
pub(crate) fn lines_with(
    alloc: Global,
    text: &TextView<'_>,
    patterns: &[&[u8]],
) -> Result<Vec<usize>, Failure>
    ensures answer { HoldsIndex text.now → IfOk result (λ lines.
        LinesWith (bytes_in patterns.now) (bytes_of_parts text.now) lines.items) }
    ensures within { IfOk result (λ lines. All (λ line. 0 < line) lines.items) }
    ensures rising { IfOk result (λ lines. IsStrictlyIncreasing lines.items) }
    ensures wrong { HoldsIndex text.now → ¬ (IsErrOf result Failure.WrongBlock) }
{
    let all_positions = all_positions(alloc, text, patterns)?;
    let ends = positions(alloc, text, b"\n".as_slice())?;
    Ok(lines_of(alloc, all_positions.as_slice(), ends.as_slice(), text.len())?)
}

/// The numbers of the lines in which these positions are, less those from `len` on, where the lines end at `ends`;
/// each once and in their order.
fn lines_of(
    alloc: Global,
    all_positions: &[usize],
    ends: &[usize],
    len: usize,
) -> Result<Vec<usize>, AllocError>
    requires all_positions { IsNonDecreasing all_positions.now }
    requires ends { IsNonDecreasing ends.now }
    ensures { IfOk result (λ lines. AreLinesOf all_positions.now ends.now len lines.items) }
{
    let mut lines = Vec::new(alloc);
    let mut last = 0;
    for position in all_positions {
        let line = line_of(ends, *position);
        if *position < len && last < line {
            lines.push(line)?;
            last = line;
        }
    }
    Ok(lines)
}

/// The number of the line in which a position is, where the lines end at `ends`.
fn line_of(ends: &[usize], position: usize) -> usize
    requires { IsNonDecreasing ends.now }
    ensures { result ≡ line_among ends.now position }
{
    ends.partition_point(|end| *end < position) + 1
}
