//! The sections of the block of bits.
ghost use Rattle.std.specs.Prelude.{◌≡◌, ◌-◌, ◌^◌, ◌≤◌, SomeIff};
ghost use Rattle.bitm_block.specs.Layout.{end_of};
ghost use Rattle.bitm_view.specs.BitsBlock.{bits_head, bits_sections};

use bitm_block::{Head, aligned};
use tables_view::{lower_len, upper_len};

/// The kind of bits.
pub const BITS: u64 = 2;

/// The numbers of the header of the given number of bits.
pub(crate) fn bits_head(len: usize) -> Head
    ensures { result ≡ bits_head len }
{
    Head {
        kind: BITS,
        len: len as u64,
        width: 0,
        ones_log2: 0,
        zeros_log2: 0,
        a: 0,
        b: 0,
        c: 0,
    }
}

/// How many words the block of the given number of bits has; `None` exactly where there are more than 2^64 - 64 bits.
///
/// ```
/// size(100);   // Some(56)
/// ```
pub fn size(len: usize) -> Option<usize>
    ensures { SomeIff result (len ≤ 2 ^ 64 - 64) (end_of (bits_sections len)) }
{
    if len > usize::MAX - 63 {
        return None;
    }
    let words = len.div_ceil(64);
    Some(32 + aligned(words) + aligned(upper_len(words)) + aligned(lower_len(words)))
}
