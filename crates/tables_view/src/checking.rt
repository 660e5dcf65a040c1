//! Whether tables match the words.
ghost use Rattle.std.specs.Prelude.{◌≡◌, ◌+◌, ◌*◌, ◌^◌, ◌<◌, ◌↔◌, length, min, IsTrue, IsNone, IfSome};
ghost use Rattle.std.specs.Int.{div_ceil};
ghost use Rattle.bit_lists.specs.Bits.{bits_of};
ghost use Rattle.bit_lists.specs.Count.{ones_before};
ghost use Rattle.bitm_tables.specs.Entry.{lower_entry};
ghost use Rattle.bitm_tables.specs.Tables.{HasSizes, HasTables};
ghost use Rattle.tables_view.specs.Sizes.{IsFilled, lists_of};

use bitm_tables::levels::L2_ENTRIES_PER_L1_ENTRY;
use bitm_tables::tables::make_entry;

/// The number of 1 bits in an upper block, if its lower entries are right; `None` only where the tables do not match
/// the words.
fn ones_of_part(words: &[u64], upper: &[usize], lower: &[u64], part: usize) -> Option<usize>
    requires sized { HasSizes (lists_of words.now upper.now lower.now) }
    requires begun { part * 2 ^ 26 < length words.now }
    requires so_far { IsFilled (lower_entry (bits_of words.now)) lower.now (part * 2 ^ 21) }
    ensures filled { IfSome result (λ _. IsFilled (lower_entry (bits_of words.now)) lower.now
        (min (div_ceil (length words.now) 32) ((part + 1) * 2 ^ 21))) }
    ensures ones { IfSome result (λ n. ones_before (bits_of words.now) (part * 2 ^ 32) + n
        ≡ ones_before (bits_of words.now) ((part + 1) * 2 ^ 32)) }
    ensures wrong { IsNone result → ¬ (HasTables (lists_of words.now upper.now lower.now)) }
{
    let first = part * L2_ENTRIES_PER_L1_ENTRY;
    let end = lower.len().min(first + L2_ENTRIES_PER_L1_ENTRY);
    let mut in_part = 0;
    for at in first..end {
        let (entry, ones) = make_entry(words, at, in_part);
        if lower[at] != entry {
            return None;
        }
        in_part += ones;
    }
    Some(in_part)
}

/// Whether the tables match the words. One pass over the words, which stops at the first wrong entry.
pub(crate) fn are_tables(words: &[u64], upper: &[usize], lower: &[u64]) -> bool
    requires { HasSizes (lists_of words.now upper.now lower.now) }
    ensures { IsTrue result ↔ HasTables (lists_of words.now upper.now lower.now) }
{
    let mut ones = 0;
    for part in 0..upper.len() {
        if upper[part] != ones {
            return false;
        }
        let Some(more) = ones_of_part(words, upper, lower, part) else {
            return false;
        };
        ones += more;
    }
    true
}
