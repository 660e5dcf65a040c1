//! The sections of the block of a sequence.
ghost use Rattle.std.specs.Prelude.{◌≡◌, SomeIff};
ghost use Rattle.bitm_block.specs.Layout.{end_of};
ghost use Rattle.elias_fano_view.specs.Sizes.{sizes_of, IsLargest};
ghost use Rattle.sequence_block.specs.Block.{numbers_head, sequence_sections};

use bitm_block::{Head, Section, aligned};
use bitm_selection::hints_len;
use block_tables::HINTS;
use elias_fano_view::Sizes;

/// The kind of a sequence.
pub const SEQUENCE: u64 = 3;

/// The numbers of the header of the given number of numbers in a block of a kind, which has the number `b` besides.
pub(crate) fn numbers_head(kind: u64, b: u64, len: usize, width: u8) -> Head
    ensures { result ≡ numbers_head kind b len width }
{
    Head {
        kind,
        len: len as u64,
        width: width as u64,
        ones_log2: 0,
        zeros_log2: 0,
        a: 0,
        b,
        c: 0,
    }
}

/// The sections of a sequence whose parts have these sizes: the words of the high bits, their two tables, the low bits,
/// and the hints of the words.
#[tactic(auto, unfolding(crate::specs::Block::numbers_hints))]
pub(crate) fn sequence_sections(len: usize, largest: u64, sizes: &Sizes) -> [Section; 5]
    requires { sizes.now ≡ sizes_of len largest }
    ensures { result ≡ sequence_sections len largest }
{
    [
        Section {
            role: 1,
            count: sizes.words as u64,
        },
        Section {
            role: 2,
            count: sizes.upper as u64,
        },
        Section {
            role: 3,
            count: sizes.lower as u64,
        },
        Section {
            role: 9,
            count: sizes.low as u64,
        },
        Section {
            role: HINTS,
            count: hints_len(len, sizes.words) as u64,
        },
    ]
}

/// How many words the block of `len` numbers has, where the last and largest number is `largest`, 0 where there are no
/// numbers. `None` exactly where there are 2^56 numbers or more, or where `len` is 0 and `largest` is not.
///
/// ```
/// size(7, 24);   // Some(80)
/// ```
#[tactic(auto, unfolding(crate::specs::Block::numbers_hints))]
pub fn size(len: usize, largest: u64) -> Option<usize>
    ensures { SomeIff result (IsLargest len largest) (end_of (sequence_sections len largest)) }
{
    let sizes = Sizes::of(len, largest)?;
    let tables = aligned(sizes.words) + aligned(sizes.upper) + aligned(sizes.lower);
    let hints = aligned(hints_len(len, sizes.words));
    Some(40 + tables + aligned(sizes.low) + hints)
}
