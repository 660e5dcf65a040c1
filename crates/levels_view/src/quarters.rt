//! Whether quarters of basic blocks in the caller's memory, which may hold anything, match the words.
ghost use Rattle.std.specs.Prelude.{◌≡◌, ◌*◌, ◌<◌, ◌↔◌, IsTrue, length};
ghost use Rattle.bit_lists.specs.Count.{ones_before};
ghost use Rattle.bitm_tables.specs.Quarters.{AreQuartersOf};
ghost use Rattle.bitm_tables.specs.Tables.{IsIndexed, bits_in};
ghost use Rattle.levels_view.specs.Quarters.{CountsToQuarter};

use bitm_tables::entry::ones_to_entry;
use bitm_tables::levels::BITS_PER_L1_ENTRY;
use bitm_tables::quarters::ones_to_quarter;
use bitm_tables::ranking::rank_on;
use bitm_tables::source::TableSource;

/// Bits of a quarter of a basic block.
const QUARTER_BITS: usize = 128;

/// How many 1 bits stand before an index, or in all where there are fewer bits.
fn ones_up_to<T: TableSource>(source: &mut T, index: usize) -> usize
    requires indexed { IsIndexed (T.lists source.old) }
    ensures ones { result ≡ ones_before (bits_in (T.lists source.old)) index }
    ensures same { T.lists source.new ≡ T.lists source.old }
{
    let bits = 64 * source.words_len();
    let end = if index < bits { index } else { bits };
    match rank_on(source, end) {
        Some(ones) => ones,
        None => unreachable!(),
    }
}

/// Whether the number of its basic block counts to a quarter of a source's words; `quarter` is its index among all.
fn counts_to<T: TableSource>(source: &mut T, number: u64, quarter: usize) -> bool
    requires indexed { IsIndexed (T.lists source.old) }
    requires begun { 2 * quarter < length (T.lists source.old).words }
    ensures answer { IsTrue result ↔ CountsToQuarter (bits_in (T.lists source.old)) quarter number }
    ensures same { T.lists source.new ≡ T.lists source.old }
{
    let first = quarter * QUARTER_BITS;
    let part = ones_up_to(source, first - first % BITS_PER_L1_ENTRY);
    let before = ones_up_to(source, first);
    ones_to_entry(number) + ones_to_quarter(number, quarter % 4) == before - part
}

/// Whether the quarters match a source's words.
///
/// # Conditions
/// The source's tables match its words.
/// # Cost
/// Two ranks for every two words (evident from the code).
///
/// ```
/// are_quarters(&mut source, &quarters);   // true of what `bitm_tables::quarters::fill_quarters` wrote
/// ```
pub fn are_quarters<T: TableSource>(source: &mut T, quarters: &[u64]) -> bool
    requires indexed { IsIndexed (T.lists source.old) }
    ensures answer { IsTrue result ↔ AreQuartersOf (bits_in (T.lists source.old)) quarters.now }
    ensures same { T.lists source.new ≡ T.lists source.old }
{
    let words = source.words_len();
    if quarters.len() != words.div_ceil(8) {
        return false;
    }
    for quarter in 0..words.div_ceil(2) {
        if !counts_to(source, quarters[quarter / 4], quarter) {
            return false;
        }
    }
    true
}
