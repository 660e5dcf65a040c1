//! The median of a range of numbers, by a wavelet matrix.
ghost use Rattle.std.specs.Prelude.{◌≡◌, ◌-◌, ◌/◌, ◌≤◌, ◌↔◌, IfSome, IsNone, length, slice_range};
ghost use Rattle.wavelet_matrix.specs.Numbers.{IsSmallest};

use std::ops::Range;
use wavelet_matrix::BinaryWaveletMatrix;

/// The middle number of a range, as if the range were sorted; the lower one of two; `None` exactly for no numbers.
///
/// # Conditions
/// The range does not end before it starts, nor past the numbers.
pub fn median(matrix: &BinaryWaveletMatrix, range: Range<usize>) -> Option<u64>
    requires order { range.start ≤ range.end }
    requires inside { range.end ≤ length matrix.now.items }
    ensures none { IsNone result ↔ (range.start ≡ range.end) }
    ensures some { let items = slice_range matrix.now.items range.start range.end in
        IfSome result (IsSmallest items ((range.end - range.start - 1) / 2)) }
{
    let (start, end) = (range.start, range.end);
    if start == end {
        return None;
    }
    Some(matrix.quantile(start..end, (end - start - 1) / 2))
}
