//! A sequence in a block: how many words it takes, writing it, opening it as a sequence and checking it.
ghost use Rattle.std.specs.Prelude.{◌≡◌, ◌≢◌, ◌^◌, ◌<◌, ◌≤◌, ◌↔◌, ◌⊎◌, length};
ghost use Rattle.bitm_block.specs.Header.{count_in};
ghost use Rattle.bitm_block.specs.Layout.{end_of};
ghost use Rattle.elias_fano.specs.Sequence.{HasFall};
ghost use Rattle.elias_fano_view.specs.Sizes.{IsLargest};
ghost use Rattle.sequence_block.specs.Block.{sections_of, sequence_in, sequence_sections, CanHold};
ghost use Rattle.sequence_block.specs.Block.{IsBlockOf, IsSequenceBlock, IsSoundBlock};
ghost use Rattle.bitm_abi.specs.Sequence.{sequence_parts};

use bitm_abi::{BAD_SIZE, OK, Sequence, UNSORTED, WRONG};
use bitm_block::Block;
use block_tables::{as_entries, hints_of};
use sequence_block::{BuildError, build, check, open, size};

/// Writes how many words the block of `len` numbers takes whose last and largest is `largest`.
#[unsafe(no_mangle)]
pub extern "C" fn bitm_sequence_block_size(len: usize, largest: u64, out: &mut usize) -> u32
    ensures ok { (result ≡ 0) ↔ IsLargest len largest }
    ensures size { result ≡ 0 → out.new ≡ end_of (sequence_sections len largest) }
    ensures kept { result ≢ 0 → (result ≡ 2) × (out.new ≡ out.old) }
{
    match size(len, largest) {
        Some(words) => {
            *out = words;
            OK
        }
        None => BAD_SIZE,
    }
}

/// Writes the block of a sequence of the given numbers.
#[unsafe(no_mangle)]
pub extern "C" fn bitm_sequence_block_build(items: &[u64], block: &mut [u64]) -> u32
    ensures ok { (result ≡ 0) ↔ CanHold items.now block.old }
    ensures unsorted { (result ≡ 4) ↔ ((length items.now < 2 ^ 56)
        × (length block.old ≡ end_of (sections_of items.now)) × HasFall items.now) }
    ensures status { (result ≡ 0) ⊎ (result ≡ 2) ⊎ (result ≡ 4) }
    ensures block { result ≡ 0 → IsBlockOf items.now block.new }
    ensures kept { result ≢ 0 → block.new ≡ block.old }
{
    match build(items, block) {
        Ok(()) => OK,
        Err(BuildError::TooLong) => BAD_SIZE,
        Err(BuildError::WrongLength) => BAD_SIZE,
        Err(BuildError::NotSorted) => UNSORTED,
    }
}

/// The sequence over the first four sections of a block, with the hints that a fifth one may have.
#[inline(always)]
pub(crate) fn sequence_at<'a>(block: &Block<'a>) -> Sequence<'a>
    requires { 4 ≤ count_in block.now }
    ensures { sequence_parts result ≡ sequence_in block.now }
{
    let head = block.head();
    let len = head.len as usize;
    match (
        block.section(0),
        block.section(1),
        block.section(2),
        block.section(3),
    ) {
        (Some(words), Some(upper), Some(lower), Some(low)) => Sequence {
            len,
            width: head.width,
            low,
            words,
            upper: as_entries(upper),
            lower,
            hints: hints_of(block, 4, len, words.len()),
        },
        _ => unreachable!(),
    }
}

/// Opens a block: writes the sequence that queries take. What the words and tables hold is not looked at.
#[unsafe(no_mangle)]
pub extern "C" fn bitm_sequence_block_open<'a>(block: &'a [u64], sequence: &mut Sequence<'a>) -> u32
    ensures ok { (result ≡ 0) ↔ IsSequenceBlock block.now }
    ensures sequence { result ≡ 0 → sequence_parts sequence.new ≡ sequence_in block.now }
    ensures kept { result ≢ 0 → (result ≡ 3) × (sequence.new ≡ sequence.old) }
{
    match (open(block), Block::open(block)) {
        (Some(_), Ok(opened)) => {
            *sequence = sequence_at(&opened);
            OK
        }
        _ => WRONG,
    }
}

/// Whether a block is as it was written, and holds a sequence: three passes over its words, and a selection for each
/// hint.
#[unsafe(no_mangle)]
pub extern "C" fn bitm_sequence_block_check(block: &[u64]) -> u32
    ensures ok { (result ≡ 0) ↔ IsSoundBlock block.now }
    ensures status { (result ≡ 0) ⊎ (result ≡ 3) }
{
    if check(block) { OK } else { WRONG }
}
