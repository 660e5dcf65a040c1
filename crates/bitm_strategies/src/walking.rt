//! The search for an entry of an upper block by a walk from an earlier one.
ghost use Rattle.std.specs.Prelude.{◌≡◌, ◌+◌, ◌-◌, ◌*◌, ◌/◌, ◌<◌, ◌≤◌, length};
ghost use Rattle.bit_lists.specs.Bits.{bits_of, IsShort};
ghost use Rattle.bitm_tables.specs.Entry.{lower_entry, entries_from};
ghost use Rattle.bitm_tables.specs.Reads.{ReadsAtMost};
ghost use Rattle.bitm_select.specs.Search.{entry_in, IsCountAbove, IsLastEntry, items_to, sought_in};
ghost use Rattle.bitm_tables.specs.Tables.{HasTables};

use bitm_select::search::entries::sought_entry;
use bitm_select::search::record::NOT_READ;
use bitm_tables::entry::{entries_of_part, ones_to_entry};
use bitm_tables::levels::L2_ENTRIES_PER_L1_ENTRY;
use bitm_tables::source::TableSource;

/// The last entry of an upper block, from entry `from` on, with no more than `rank` of the kind before it in the upper
/// block: its position in the upper block, its packed counts, and how many of the kind stand in the upper block before
/// the next one, or `NOT_READ` where it is the upper block's last.
#[inline(always)]
pub(crate) fn walk<const BIT: u8, T: TableSource>(
    source: &mut T,
    part: usize,
    from: usize,
    rank: usize,
) -> (usize, u64, usize)
    requires tables { HasTables (T.lists source.old) }
    requires short { IsShort (T.lists source.old).words }
    requires inside { part < length (T.lists source.old).upper }
    requires from { from < entries_from (length (T.lists source.old).lower) part }
    requires at_most { items_to BIT (bits_of (T.lists source.old).words) part from ≤ rank }
    ensures last { IsLastEntry (sought_in BIT (T.lists source.old).words)
        (length (T.lists source.old).lower) part rank result.0 }
    ensures entry { result.1
        ≡ lower_entry (sought_in BIT (T.lists source.old).words) (entry_in part result.0) }
    ensures above { IsCountAbove BIT (T.lists source.old) part result.0 result.2 }
    ensures order { from ≤ result.0 }
    ensures reads { ReadsAtMost (T.reads source.old) (T.reads source.new)
        0 (result.0 - from + 2) 0 }
    ensures same { T.lists source.new ≡ T.lists source.old }
{
    let first = part * L2_ENTRIES_PER_L1_ENTRY;
    let end = entries_of_part(source.lower_len(), part);
    let mut packed = sought_entry::<BIT, T>(source, first + from);
    for next in from + 1..end {
        let entry = sought_entry::<BIT, T>(source, first + next);
        let above = ones_to_entry(entry);
        if rank < above {
            return (next - 1, packed, above);
        }
        packed = entry;
    }
    (end - 1, packed, NOT_READ)
}
