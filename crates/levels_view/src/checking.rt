//! Whether the tables of levels match the words.
ghost use Rattle.std.specs.Prelude.{◌≡◌, ◌+◌, ◌*◌, ◌<◌, ◌≤◌, ◌↔◌, IsTrue, length};
ghost use Rattle.bit_lists.specs.Count.{ones_before, zeros_before};
ghost use Rattle.bitm_tables.specs.Tables.{IsIndexed, bits_in};
ghost use Rattle.matrix_levels.specs.Matrix.{IsMatrix};
ghost use Rattle.levels_view.specs.Check.{AreCounts, AreCountsAt, HasQuarters, HasStarts};

use crate::levels::LevelsView;
use crate::quarters::are_quarters;
use bitm::index_laws;
use bitm_tables::ranking::rank_on;
use bitm_tables::source::TableSource;

/// How many 1 bits stand before an index.
#[inline(always)]
fn ones_to<T: TableSource>(source: &mut T, index: usize) -> usize
    requires indexed { IsIndexed (T.lists source.old) }
    requires inside { index ≤ length (bits_in (T.lists source.old)) }
    ensures ones { result ≡ ones_before (bits_in (T.lists source.old)) index }
    ensures same { T.lists source.new ≡ T.lists source.old }
{
    match rank_on(source, index) {
        Some(ones) => ones,
        None => unreachable!(),
    }
}

/// How many 1 bits stand before a level of `len` numbers, and how many of its items have a 0 bit.
///
/// # Conditions
/// The source's tables match its words, which have all bits of the level.
/// # Cost
/// Two ranks (evident from the code).
pub fn counts_of<T: TableSource>(source: &mut T, len: usize, depth: usize) -> (usize, usize)
    requires indexed { IsIndexed (T.lists source.old) }
    requires inside { depth * len + len ≤ length (bits_in (T.lists source.old)) }
    ensures ones { result.0 ≡ ones_before (bits_in (T.lists source.old)) (depth * len) }
    ensures zeros { zeros_before (bits_in (T.lists source.old)) (depth * len) + result.1
        ≡ zeros_before (bits_in (T.lists source.old)) (depth * len + len) }
    ensures same { T.lists source.new ≡ T.lists source.old }
{
    let start = depth * len;
    let before = ones_to(source, start);
    let through = ones_to(source, start + len);
    (before, len - (through - before))
}

/// Whether the entries of a level match the words of a source.
#[inline(always)]
fn are_counts_at<T: TableSource>(levels: &LevelsView<'_>, source: &mut T, depth: u8) -> bool
    requires indexed { IsIndexed (T.lists source.old) }
    requires inside { depth * levels.now.len + levels.now.len
        ≤ length (bits_in (T.lists source.old)) }
    requires depth { depth < levels.now.width }
    ensures answer { IsTrue result ↔ AreCountsAt levels.now (bits_in (T.lists source.old)) depth }
    ensures same { T.lists source.new ≡ T.lists source.old }
{
    let (ones, zeros) = counts_of(source, levels.len(), depth as usize);
    levels.ones_before_level(depth) == ones && levels.zeros_of_level(depth) == zeros
}

/// Whether the tables of levels match the words of a source.
///
/// # Conditions
/// The source's tables match its words, and there are enough words for all numbers.
/// # Cost
/// Two ranks for each level (evident from the code).
fn are_counts<T: TableSource>(levels: &LevelsView<'_>, source: &mut T) -> bool
    requires indexed { IsIndexed (T.lists source.old) }
    requires room { levels.now.width * levels.now.len ≤ length (bits_in (T.lists source.old)) }
    ensures answer { IsTrue result ↔ AreCounts levels.now (bits_in (T.lists source.old)) }
    ensures same { T.lists source.new ≡ T.lists source.old }
{
    for depth in 0..levels.width() {
        if !are_counts_at(levels, source, depth) {
            return false;
        }
    }
    true
}

/// Whether the quarters of levels, where there are any, match the words of a source.
///
/// # Conditions
/// The source's tables match its words.
/// # Cost
/// The cost of `are_quarters`, and nothing where there are none (evident from the code).
fn has_quarters<T: TableSource>(levels: &LevelsView<'_>, source: &mut T) -> bool
    requires { IsIndexed (T.lists source.old) }
    ensures answer { IsTrue result ↔ HasQuarters levels.now (bits_in (T.lists source.old)) }
    ensures same { T.lists source.new ≡ T.lists source.old }
{
    levels.is_compact() || are_quarters(source, levels.quarters())
}

/// Whether the table of starts of levels says of each prefix of the known length where the numbers with it start.
///
/// # Conditions
/// The source's tables match its words, there are enough words for all numbers, and the tables of the levels and the
/// quarters match the words.
/// # Cost
/// For each prefix a rank for each level that is known (evident from the code).
fn has_starts<T: TableSource>(levels: &LevelsView<'_>, source: &mut T) -> bool
    requires indexed { IsIndexed (T.lists source.old) }
    requires room { levels.now.width * levels.now.len ≤ length (bits_in (T.lists source.old)) }
    requires counts { AreCounts levels.now (bits_in (T.lists source.old)) }
    requires quarters { HasQuarters levels.now (bits_in (T.lists source.old)) }
    ensures { IsTrue result ↔ HasStarts levels.now (bits_in (T.lists source.old)) }
{
    index_laws::tables_have_sizes();
    let (known, width) = (levels.known(), levels.width());
    // These find where a prefix starts without the table.
    let plain = levels.without_starts();
    // There is one prefix without bits, and none of its bits is read.
    let rest = (width - known) % 64;
    for begin in 0..levels.starts().len() {
        let number = (begin as u64) << rest;
        match plain.total_position_on(source, number, 0, known, 0) {
            Some(position) => {
                if levels.starts()[begin] != position as u64 {
                    return false;
                }
            }
            None => unreachable!(),
        }
    }
    true
}

/// Whether the levels are levels of a matrix in a source: their tables, the quarters where there are any, and the table
/// of starts match the words.
///
/// # Conditions
/// The source's tables match its words, and there are enough words for all numbers.
/// # Cost
/// Two ranks for each level, with quarters two for every two words, and with known bits one for each prefix of them and
/// each of their levels (evident from the code).
///
/// ```
/// are_levels(&levels, &mut source);   // true of the levels that a matrix lends
/// ```
pub fn are_levels<T: TableSource>(levels: &LevelsView<'_>, source: &mut T) -> bool
    requires indexed { IsIndexed (T.lists source.old) }
    requires room { levels.now.width * levels.now.len ≤ length (bits_in (T.lists source.old)) }
    ensures { IsTrue result ↔ IsMatrix levels.now (T.lists source.old) }
{
    let _len = levels.len(); // whose clause says that the tables are as long as those of a matrix
    if !are_counts(levels, source) {
        return false;
    }
    if !has_quarters(levels, source) {
        return false;
    }
    has_starts(levels, source)
}
