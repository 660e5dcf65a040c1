//! An index over its own vector: built, and queried by a rank and a selection.
ghost use Rattle.std.specs.Prelude.{◌≡◌, ◌*◌, ◌<◌, true, length, replicate, IfOk};
ghost use Rattle.std.specs.Box.{boxed_slice_items};
ghost use Rattle.bitm.specs.Bits.{bits_of};
ghost use Rattle.bitm.specs.Count.{IsRank, IsSelect};
ghost use Rattle.bitm.specs.Number.{with_number};

use bitm::{ArrayWithRank101111, BitVec, Rank, Select, words};
use std::alloc::{AllocError, Global};
use std::boxed::BoxedSlice;

/// Makes a bit of the vector one.
///
/// # Conditions
/// There is such a bit.
pub fn mark(content: &mut BoxedSlice<u64, Global>, position: usize)
    requires { position < 64 * length (boxed_slice_items content.old) }
    ensures len { length (boxed_slice_items content.new)
        ≡ length (boxed_slice_items content.old) }
    ensures bits { bits_of (boxed_slice_items content.new)
        ≡ with_number (bits_of (boxed_slice_items content.old)) position 1 1 }
{
    words::set_bit(content.as_mut_slice(), position);
}

/// Of 2048 bits, where bit 100 alone is a 1 bit: the number of 1 bits among the first `index`, and the position of the
/// 1 bit with `rank` 1 bits before it.
///
/// # Errors
/// `AllocError` if no memory was found.
pub fn ask(
    alloc: Global,
    index: usize,
    rank: usize,
) -> Result<(Option<usize>, Option<usize>), AllocError>
    ensures ranked { IfOk result (λ answers.
        IsRank (with_number (bits_of (replicate 32 0)) 100 1 1) index answers.0) }
    ensures selected { IfOk result (λ answers.
        IsSelect (with_number (bits_of (replicate 32 0)) 100 1 1) true rank answers.1) }
{
    let mut content = BoxedSlice::with_zeroed_bits(alloc, 2048)?;
    mark(&mut content, 100);
    let Ok((bits, _ones)) = ArrayWithRank101111::build(alloc, content) else {
        return Err(AllocError);
    };
    Ok((bits.try_rank(index), bits.try_select(rank)))
}
