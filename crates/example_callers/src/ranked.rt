//! Ranks by tables that may be wrong as indices of your own array: none is out of bounds, whatever the tables hold.
ghost use Rattle.std.specs.Prelude.{◌≡◌, ◌<◌, ◌≤◌, Some, None, length, slice_index};
ghost use Rattle.bitm.specs.Count.{ones_before};
ghost use Rattle.bitm.specs.Tables.{HasTables, bits_in};

use bitm_view::{Answer, TablesView};

/// The item of your array at the rank of `position`, by tables that may be wrong; the array has one item more than
/// there are bits. `None` where there are fewer bits, or the tables are wrong.
pub fn item_at_rank(borrowed: &TablesView<'_>, position: usize, items: &[u64]) -> Option<u64>
    requires { length (bits_in borrowed.now) < length items.now }
    ensures item { HasTables borrowed.now → position ≤ length (bits_in borrowed.now)
        → result ≡ Some (slice_index items.now (ones_before (bits_in borrowed.now) position)) }
    ensures none { length (bits_in borrowed.now) < position → result ≡ None }
{
    match borrowed.rank::<1>(position) {
        // No count is above its index, whatever the tables hold.
        Answer::Found(count) => Some(items[count]),
        Answer::Absent | Answer::Wrong => None,
    }
}
