//! The block of a sequence, written into the caller's memory.
ghost use Rattle.std.specs.Prelude.{◌≡◌, ◌≢◌, ◌^◌, ◌<◌, ◌≤◌, ◌↔◌, IfErr, IfOk, IsErrOf, length};
ghost use Rattle.std.specs.List.Sorted.{IsNonDecreasing};
ghost use Rattle.bitm_block.specs.Layout.{end_of};
ghost use Rattle.bitm_block.specs.Written.{IsSealed};
ghost use Rattle.bitm_selection.specs.Hints.{hints_len};
ghost use Rattle.elias_fano.specs.Parts.{width_of};
ghost use Rattle.elias_fano.specs.Sequence.{largest, HasFall};
ghost use Rattle.elias_fano_view.specs.Sizes.{sizes_of, HasPartRoom};
ghost use Rattle.sequence_block.specs.Block.{numbers_head, sections_of};
ghost use Rattle.sequence_block.specs.Block.{AreHintsWritten, ArePartsWritten, CanHold, HoldsNumbers};
ghost use Rattle.sequence_block.specs.Block.{IsBlockOf, StandsIn};

use crate::error::BuildError;
use crate::sections::{SEQUENCE, numbers_head, sequence_sections, size};
use bitm_block::{aligned, seal};
use bitm_selection::{hints_len, write_hints};
use block_tables::{as_entries_mut, probe};
use elias_fano::building::{is_rising, largest_of};
use elias_fano_view::Sizes;

/// Writes the parts of a sequence.
fn write_numbers(
    items: &[u64],
    low: &mut [u64],
    words: &mut [u64],
    upper: &mut [u64],
    lower: &mut [u64],
)
    requires room { HasPartRoom items.now low.old words.old upper.old lower.old }
    requires rising { IsNonDecreasing items.now }
    ensures { ArePartsWritten items.now low.new words.new upper.new lower.new }
{
    match elias_fano_view::build(items, low, words, as_entries_mut(upper), lower) {
        Ok(_) => {}
        Err(_) => unreachable!(),
    }
}

/// Writes the parts of a sequence, and the hints of the words.
fn write_sections(
    items: &[u64],
    low: &mut [u64],
    words: &mut [u64],
    upper: &mut [u64],
    lower: &mut [u64],
    hints: &mut [u64],
)
    requires room { HasPartRoom items.now low.old words.old upper.old lower.old }
    requires hints { length hints.old ≡ hints_len (length items.now) (length words.old) }
    requires rising { IsNonDecreasing items.now }
    ensures parts { ArePartsWritten items.now low.new words.new upper.new lower.new }
    ensures hints { AreHintsWritten items.now words.new hints.new }
{
    write_numbers(items, low, &mut *words, &mut *upper, &mut *lower);
    write_hints(&mut probe(&*words, &*upper, &*lower), items.len(), hints);
}

/// Writes the sections of a sequence where its block has them.
fn write_parts(items: &[u64], sizes: &Sizes, block: &mut [u64])
    requires sizes { sizes.now ≡ sizes_of (length items.now) (largest items.now) }
    requires holds { CanHold items.now block.old }
    ensures { StandsIn items.now block.new }
{
    let (_head, rest) = block.split_at_mut(40);
    let (room, rest) = rest.split_at_mut(aligned(sizes.words));
    let (words, _gap) = room.split_at_mut(sizes.words);
    let (room, rest) = rest.split_at_mut(aligned(sizes.upper));
    let (upper, _gap) = room.split_at_mut(sizes.upper);
    let (room, rest) = rest.split_at_mut(aligned(sizes.lower));
    let (lower, _gap) = room.split_at_mut(sizes.lower);
    let (room, rest) = rest.split_at_mut(aligned(sizes.low));
    let (low, _gap) = room.split_at_mut(sizes.low);
    let (hints, _gap) = rest.split_at_mut(hints_len(items.len(), sizes.words));
    write_sections(items, low, words, upper, lower, hints);
}

/// Writes the header and the directory of a sequence in a block of a kind.
fn seal_sequence(kind: u64, b: u64, items: &[u64], sizes: &Sizes, block: &mut [u64])
    requires sizes { sizes.now ≡ sizes_of (length items.now) (largest items.now) }
    requires short { length items.now < 2 ^ 56 }
    requires rising { IsNonDecreasing items.now }
    requires room { length block.old ≡ end_of (sections_of items.now) }
    ensures { IsSealed (numbers_head kind b (length items.now) (width_of items.now))
        (sections_of items.now) block.old block.new }
{
    let sections = sequence_sections(items.len(), largest_of(items), sizes);
    match seal(
        &numbers_head(kind, b, items.len(), sizes.width),
        sections.as_slice(),
        block,
    ) {
        Ok(()) => {}
        Err(_) => unreachable!(),
    }
}

/// Writes the block of a sequence, of a kind.
fn write_block(kind: u64, b: u64, items: &[u64], sizes: &Sizes, block: &mut [u64])
    requires sizes { sizes.now ≡ sizes_of (length items.now) (largest items.now) }
    requires holds { CanHold items.now block.old }
    ensures { HoldsNumbers kind b items.now block.new }
{
    write_parts(items, sizes, &mut *block);
    seal_sequence(kind, b, items, sizes, block);
}

/// Writes the block of the given numbers, which `open` opens and `check` accepts.
///
/// # Errors
/// `TooLong` exactly where there are 2^56 numbers or more; else `WrongLength` exactly where the words are more or fewer
/// than the block takes (`size` of the number of numbers and the last of them); else `NotSorted` exactly where some
/// number is less than the one before it. The words stay as they are then.
/// # Cost
/// Four passes over the numbers, and three over the block, and a selection for each hint (evident from the code).
/// Nothing is allocated.
///
/// ```
/// let mut block = [0u64; 80];                               // size(7, 24): Some(80)
/// build(&[2, 3, 5, 7, 11, 13, 24], block.as_mut_slice());   // Ok(())
/// build(&[3, 2], block.as_mut_slice());                     // Err(BuildError::NotSorted)
/// ```
pub fn build(items: &[u64], block: &mut [u64]) -> Result<(), BuildError>
    ensures too_long { IsErrOf result BuildError.TooLong ↔ (2 ^ 56 ≤ length items.now) }
    ensures wrong_length { IsErrOf result BuildError.WrongLength
        ↔ ((length items.now < 2 ^ 56) × (length block.old ≢ end_of (sections_of items.now))) }
    ensures not_sorted { IsErrOf result BuildError.NotSorted ↔ ((length items.now < 2 ^ 56)
        × (length block.old ≡ end_of (sections_of items.now)) × HasFall items.now) }
    ensures block { IfOk result (λ _. IsBlockOf items.now block.new) }
    ensures kept { IfErr result (λ _. block.new ≡ block.old) }
{
    build_as(SEQUENCE, 0, items, block)
}

/// As `build`, for a block of another kind, whose first five sections hold a sequence: its header has the number `b`
/// besides.
///
/// # Errors
/// The errors of `build`.
/// # Cost
/// The cost of `build`.
///
/// ```
/// build_as(SEQUENCE, 0, &[2, 3, 5], block.as_mut_slice());   // as build(&[2, 3, 5], block.as_mut_slice())
/// ```
pub fn build_as(kind: u64, b: u64, items: &[u64], block: &mut [u64]) -> Result<(), BuildError>
    ensures too_long { IsErrOf result BuildError.TooLong ↔ (2 ^ 56 ≤ length items.now) }
    ensures wrong_length { IsErrOf result BuildError.WrongLength
        ↔ ((length items.now < 2 ^ 56) × (length block.old ≢ end_of (sections_of items.now))) }
    ensures not_sorted { IsErrOf result BuildError.NotSorted ↔ ((length items.now < 2 ^ 56)
        × (length block.old ≡ end_of (sections_of items.now)) × HasFall items.now) }
    ensures block { IfOk result (λ _. HoldsNumbers kind b items.now block.new) }
    ensures kept { IfErr result (λ _. block.new ≡ block.old) }
{
    let largest = largest_of(items);
    let (Some(sizes), Some(words)) = (Sizes::of(items.len(), largest), size(items.len(), largest))
    else {
        return Err(BuildError::TooLong);
    };
    if block.len() != words {
        return Err(BuildError::WrongLength);
    }
    if !is_rising(items) {
        return Err(BuildError::NotSorted);
    }
    write_block(kind, b, items, &sizes, block);
    Ok(())
}
