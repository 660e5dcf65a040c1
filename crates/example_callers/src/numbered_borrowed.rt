//! Values by the number of a hash, over levels that came from elsewhere, as from a file, and may hold anything.
ghost use Rattle.std.specs.Prelude.{◌≡◌, ◌≤◌, length, slice_index};
ghost use Rattle.std.specs.Option.{option_map};
ghost use Rattle.bitm.specs.Count.{ones_of};
ghost use Rattle.bitm.specs.Tables.{bits_in, HasTables};
ghost use Rattle.perfect_hash.specs.Numbers.{number_by, AreSizes};

use bitm_view::{Answer, TablesView};
use perfect_hash::total_number_on;

/// The value at the number of a hash. Whatever words, tables and sizes hold, that number is one of a value.
pub fn value_of_hash(
    borrowed: &TablesView<'_>,
    sizes: &[usize],
    values: &[u64],
    hash: u64,
) -> Option<u64>
    ensures { let b = bits_in borrowed.now in
        HasTables borrowed.now → AreSizes sizes.now b → ones_of b ≤ length values.now
        → result ≡ option_map (slice_index values.now) (number_by sizes.now b hash) }
{
    if sizes.len() > 256 {
        return None;
    }
    match total_number_on(&mut borrowed.probe(), sizes, values.len(), hash) {
        Answer::Found(number) => Some(values[number]),
        Answer::Absent | Answer::Wrong => None,
    }
}
