//! The lengths of the parts of a sequence.
ghost use Rattle.std.specs.Prelude.{◌≡◌, ◌+◌, ◌*◌, ◌≤◌, IfSome, SomeIff};
ghost use Rattle.elias_fano_view.specs.Sizes.{sizes_of, IsLargest};

use elias_fano::building::low_width;
use tables_view::{lower_len, upper_len};

/// The number of low bits of each number, and the length of each part.
#[derive(Clone, Copy, PartialEq, Eq, Debug)]
pub struct Sizes {
    /// The number of low bits of each number, 0 to 63.
    pub width: u8,
    /// The number of words of the low bits.
    pub low: usize,
    /// The number of words of the high bits.
    pub words: usize,
    /// The number of entries of the upper table of these words.
    pub upper: usize,
    /// The number of entries of the lower table of these words.
    pub lower: usize,
}

impl Sizes {
    /// The sizes for `len` numbers whose last and largest is `largest`; 0 where there are no numbers. `None` exactly
    /// where there are 2^56 numbers or more, or where `len` is 0 and `largest` is not.
    ///
    /// Both vectors together have at most `len * (width + 3) + 126` bits.
    #[inline]
    pub fn of(len: usize, largest: u64) -> Option<Sizes>
        ensures sizes { SomeIff result (IsLargest len largest) (sizes_of len largest) }
        ensures few { IfSome result (λ sizes.
            64 * (sizes.low + sizes.words) ≤ len * (sizes.width + 3) + 126) }
    {
        if len >= 1 << 56 {
            return None;
        }
        if len == 0 && largest != 0 {
            return None;
        }
        let width = low_width(len, largest);
        let words = (len + (largest >> width) as usize + 1).div_ceil(64);
        Some(Sizes {
            width,
            low: (len * width as usize).div_ceil(64),
            words,
            upper: upper_len(words),
            lower: lower_len(words),
        })
    }
}
