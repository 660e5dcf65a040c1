//! The two tables, written into the caller's memory in one pass over the words.
ghost use Rattle.std.specs.Prelude.{◌≡◌, ◌+◌, ◌*◌, ◌^◌, ◌<◌, length, min, IsNone, IfSome, SomeIff};
ghost use Rattle.std.specs.Int.{div_ceil};
ghost use Rattle.bit_lists.specs.Bits.{bits_of, IsShort};
ghost use Rattle.bit_lists.specs.Count.{ones_before, ones_of};
ghost use Rattle.bitm_tables.specs.Entry.{lower_entry};
ghost use Rattle.bitm_tables.specs.Tables.{HasSizes, HasTables};
ghost use Rattle.tables_view.specs.Sizes.{IsFilled, lists_of};

use crate::view::has_sizes;
use bitm_tables::levels::L2_ENTRIES_PER_L1_ENTRY;
use bitm_tables::tables::make_entry;

/// Writes the lower entries of an upper block and returns the number of its 1 bits.
fn fill_part(words: &[u64], part: usize, lower: &mut [u64]) -> usize
    requires short { IsShort words.now }
    requires begun { part * 2 ^ 26 < length words.now }
    requires sized { length lower.old ≡ div_ceil (length words.now) 32 }
    requires so_far { IsFilled (lower_entry (bits_of words.now)) lower.old (part * 2 ^ 21) }
    ensures sized { length lower.new ≡ length lower.old }
    ensures filled { IsFilled (lower_entry (bits_of words.now)) lower.new
        (min (div_ceil (length words.now) 32) ((part + 1) * 2 ^ 21)) }
    ensures ones { ones_before (bits_of words.now) (part * 2 ^ 32) + result
        ≡ ones_before (bits_of words.now) ((part + 1) * 2 ^ 32) }
{
    let first = part * L2_ENTRIES_PER_L1_ENTRY;
    let end = lower.len().min(first + L2_ENTRIES_PER_L1_ENTRY);
    let mut in_part = 0;
    for at in first..end {
        let (entry, ones) = make_entry(words, at, in_part);
        lower[at] = entry;
        in_part += ones;
    }
    in_part
}

/// Writes both tables of the words and returns the number of 1 bits.
fn fill(words: &[u64], upper: &mut [usize], lower: &mut [u64]) -> usize
    requires { HasSizes (lists_of words.now upper.old lower.old) }
    ensures sizes { HasSizes (lists_of words.now upper.new lower.new) }
    ensures tables { HasTables (lists_of words.now upper.new lower.new) }
    ensures ones { result ≡ ones_of (bits_of words.now) }
{
    let mut ones = 0;
    for part in 0..upper.len() {
        upper[part] = ones;
        ones += fill_part(words, part, &mut *lower);
    }
    ones
}

/// Writes both tables of the words and returns the number of 1 bits. Returns `None`, and writes nothing, exactly where
/// there are 2^58 words or more, or a table has another length than `upper_len` or `lower_len` of the words.
///
/// # Cost
/// Each word is read once. What was in the tables' memory is not read.
pub fn build(words: &[u64], upper: &mut [usize], lower: &mut [u64]) -> Option<usize>
    ensures ones { SomeIff result (HasSizes (lists_of words.now upper.old lower.old))
        (ones_of (bits_of words.now)) }
    ensures sizes { IfSome result (λ _. HasSizes (lists_of words.now upper.new lower.new)) }
    ensures tables { IfSome result (λ _. HasTables (lists_of words.now upper.new lower.new)) }
    ensures kept { IsNone result → (upper.new ≡ upper.old) × (lower.new ≡ lower.old) }
{
    if !has_sizes(words, &*upper, &*lower) {
        return None;
    }
    Some(fill(words, upper, lower))
}
