//! The two tables as sections of a block: written, and compared with the words.
ghost use Rattle.std.specs.Prelude.{◌≡◌, ◌↔◌, IsTrue};
ghost use Rattle.bit_lists.specs.Bits.{bits_of};
ghost use Rattle.bit_lists.specs.Count.{ones_of};
ghost use Rattle.bitm_tables.specs.Tables.{HasSizes, HasTables};
ghost use Rattle.tables_view.specs.Sizes.{lists_of};

use crate::entries::{as_entries, as_entries_mut};
use tables_view::{TablesView, build};

/// Writes both tables of the words and returns the number of 1 bits.
///
/// # Conditions
/// There are fewer than 2^58 words, and the tables have the lengths that these need.
/// # Cost
/// Each word is read once (evident from the code).
///
/// ```
/// let ones = fill_tables(&words, upper, lower);   // 40 words: 1 upper entry, 2 lower entries
/// ```
pub fn fill_tables(words: &[u64], upper: &mut [u64], lower: &mut [u64]) -> usize
    requires { HasSizes (lists_of words.now upper.old lower.old) }
    ensures sizes { HasSizes (lists_of words.now upper.new lower.new) }
    ensures tables { HasTables (lists_of words.now upper.new lower.new) }
    ensures ones { result ≡ ones_of (bits_of words.now) }
{
    match build(words, as_entries_mut(upper), lower) {
        Some(ones) => ones,
        None => unreachable!(),
    }
}

/// Whether the tables match the words.
///
/// # Conditions
/// There are fewer than 2^58 words, and the tables have the lengths that these need.
/// # Cost
/// One pass over the words, which stops at the first wrong entry (evident from the code).
///
/// ```
/// are_tables(&words, upper, lower);   // true of tables that `fill_tables` wrote
/// ```
pub fn are_tables(words: &[u64], upper: &[u64], lower: &[u64]) -> bool
    requires { HasSizes (lists_of words.now upper.now lower.now) }
    ensures { IsTrue result ↔ HasTables (lists_of words.now upper.now lower.now) }
{
    match TablesView::over(words, as_entries(upper), lower) {
        Some(borrowed) => borrowed.check(),
        None => unreachable!(),
    }
}
