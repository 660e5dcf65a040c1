//! The parts of a sequence, written into the caller's memory.
ghost use Rattle.std.specs.Prelude.{◌≡◌, ◌^◌, ◌<◌, ◌≤◌, ◌↔◌, IsErrOf, IfOk, IsErr, IsTrue, SomeIff, length, replicate};
ghost use Rattle.tables_view.specs.Sizes.{lists_of};
ghost use Rattle.std.specs.List.Sorted.{IsNonDecreasing};
ghost use Rattle.elias_fano.specs.Parts.{width_of, upper_words_of, IsUpper};
ghost use Rattle.elias_fano.specs.Sequence.{HasFall};
ghost use Rattle.elias_fano.specs.SequenceParts.{parts_of, Holds};
ghost use Rattle.elias_fano_view.specs.Sizes.{HasPartRoom};

use crate::error::BuildError;
use crate::sizes::Sizes;
use bit_words::words::set_bit;
use elias_fano::building::{is_rising, largest_of, write_low};
use tables_view::clear;

/// Sets a 1 bit for each number after as many 0 bits as its high bits say, in words that are all 0. Returns whether
/// each position was in the words, which holds.
///
/// Each number is read once, and its position is tested before the write: even if another thread changes the numbers
/// meanwhile, which no caller may allow, nothing is written outside the words.
///
/// # Conditions
/// The conditions of `write_upper` of `elias_fano`.
fn write_tested(words: &mut [u64], items: &[u64], width: u8) -> bool
    requires width { width ≤ 63 }
    requires rising { IsNonDecreasing items.now }
    requires short { upper_words_of items.now width < 2 ^ 58 }
    requires clear { words.old ≡ replicate (upper_words_of items.now width) 0 }
    ensures upper { IsUpper items.now width words.new }
    ensures all { IsTrue result }
{
    for i in 0..items.len() {
        let position = (items[i] >> width) as usize + i;
        if position / 64 >= words.len() {
            return false;
        }
        set_bit(words, position);
    }
    true
}

/// The number of low bits of each number, if the parts have the lengths that the numbers need.
fn width_if_room(
    items: &[u64],
    low: &[u64],
    words: &[u64],
    upper: &[usize],
    lower: &[u64],
) -> Option<u8>
    ensures { SomeIff result (HasPartRoom items.now low.now words.now upper.now lower.now)
        (width_of items.now) }
{
    let sizes = Sizes::of(items.len(), largest_of(items))?;
    if low.len() != sizes.low || words.len() != sizes.words {
        return None;
    }
    if upper.len() != sizes.upper || lower.len() != sizes.lower {
        return None;
    }
    Some(sizes.width)
}

/// Writes the parts of the sequence of the given numbers, which are the low bits, the words of the high bits and the
/// two tables of these words, and returns how many low bits each number has.
///
/// # Errors
/// `WrongLength` exactly where there are 2^56 numbers or more, or a part does not have its length of `Sizes::of` for
/// the number of numbers and the last of them; otherwise `NotSorted` exactly where some number is less than the number
/// before it. Nothing is written then.
/// # Cost
/// One pass over the numbers for each of the two vectors, and one over the words of the high bits for their tables. The
/// previous values of the parts are not read.
pub fn build(
    items: &[u64],
    low: &mut [u64],
    words: &mut [u64],
    upper: &mut [usize],
    lower: &mut [u64],
) -> Result<u8, BuildError>
    ensures width { IfOk result (λ l. l ≡ width_of items.now) }
    ensures parts { IfOk result (λ l. Holds items.now
        (parts_of (length items.now) l low.new (lists_of words.new upper.new lower.new))) }
    ensures wrong_length { IsErrOf result BuildError.WrongLength
        ↔ ¬ (HasPartRoom items.now low.old words.old upper.old lower.old) }
    ensures not_sorted { IsErrOf result BuildError.NotSorted
        ↔ (HasPartRoom items.now low.old words.old upper.old lower.old × HasFall items.now) }
    ensures kept { IsErr result → (low.new ≡ low.old) × (words.new ≡ words.old)
        × (upper.new ≡ upper.old) × (lower.new ≡ lower.old) }
{
    let Some(width) = width_if_room(items, &*low, &*words, &*upper, &*lower) else {
        return Err(BuildError::WrongLength);
    };
    if !is_rising(items) {
        return Err(BuildError::NotSorted);
    }
    clear(&mut *low);
    write_low(low, items, width);
    clear(&mut *words);
    if !write_tested(&mut *words, items, width) {
        return Err(BuildError::NotSorted);
    }
    match tables_view::build(&*words, upper, lower) {
        Some(_) => Ok(width),
        None => unreachable!(),
    }
}
