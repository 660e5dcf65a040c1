//! Calls on the parts of one sequence, over any source of its upper words: their reads are counted.
ghost use Rattle.std.specs.Prelude.{◌≡◌, ◌+◌, ◌*◌, ◌↔◌, ℕ, List, IsTrue, length};
ghost use Rattle.std.specs.List.{Contains};
ghost use Rattle.bit_lists.specs.Bits.{digit_count};
ghost use Rattle.bitm_tables.specs.Reads.{OnlyReads, ReadsAtMost};
ghost use Rattle.elias_fano.specs.SequenceParts.{parts_of, parts_with, AreParts, Holds};
ghost use Rattle.elias_fano.specs.Low.{sharing, ReadsFragments};
ghost use Rattle.elias_fano.specs.Sequence.{IsFirstAtLeast, IsLastAtMost};

use crate::finds::BySearch;
use crate::low::LowDigits;
use crate::predecessor::{contains_by, last_at_most_by};
use crate::searching::first_at_least_by;
use bitm::index_laws;
use bitm_select::search::selected::found;
use bitm_tables::source::TableSource;

/// By searches in the tables, with no tests of what right tables have.
const BY_TABLES: BySearch<0> = BySearch;

/// The least index of a sequence whose number is at least `v` (the successor); `None` exactly where there is none.
///
/// The sequence is handed in by its parts: the low bits are as `EliasFano::low_digits` gives them, `n` is the number of
/// its items, and the source has its `upper_words`.
///
/// # Conditions
/// The parts form one sequence of fewer than 2^56 numbers; the source's tables match its words.
/// # Cost
/// Two selections of 0 bits in the source, one of them if no number has low bits, or one selection of a 1 bit where `n`
/// is 1, and none where it is 0; then a search among the low bits of the items with the same high bits as `v`, which
/// reads nothing of the source. So at most `2 * (digits + 1)` upper entries, where the number of them has `digits`
/// binary digits, 46 lower entries and 16 words, and at most as many selections as `n` has binary digits. The search
/// reads at most one fragment of the low bits for each binary digit of how many items share the high bits of `v`.
pub fn first_at_least_on<T: TableSource>(
    source: &mut T,
    low: &mut LowDigits<'_>,
    n: usize,
    v: u64,
) -> Option<usize>
    requires parts { AreParts (parts_with n low.old (T.lists source.old)) }
    ensures answer { (xs : List ℕ) → Holds xs (parts_with n low.old (T.lists source.old))
        → IsFirstAtLeast xs v result }
    ensures reads { ReadsAtMost (T.reads source.old) (T.reads source.new)
        (digit_count n * (digit_count (length (T.lists source.old).upper) + 1))
        (digit_count n * 23) (digit_count n * 8) }
    ensures two { ReadsAtMost (T.reads source.old) (T.reads source.new)
        (2 * (digit_count (length (T.lists source.old).upper) + 1)) (2 * 23) (2 * 8) }
    ensures same { T.lists source.new ≡ T.lists source.old }
    ensures shared { (xs : List ℕ) → Holds xs (parts_with n low.old (T.lists source.old))
        → ReadsFragments low.old low.new (digit_count (sharing xs low.old.width v)) }
{
    index_laws::tables_have_sizes();
    found(first_at_least_by(source, &BY_TABLES, low, n, v))
}

/// The least index of a sequence whose number is at least `v` (the successor); `None` exactly where there is none. It
/// is `first_at_least_on` where reads of fragments are not counted.
///
/// The sequence is handed in by its parts: `low` and `width` are what `EliasFano` answers as `low_words` and
/// `low_width`, `n` is the number of its items, and the source has its `upper_words`.
///
/// # Conditions
/// The parts form one sequence of fewer than 2^56 numbers; the source's tables match its words.
/// # Cost
/// The cost of `first_at_least_on`: at most two selections in the source.
pub fn first_at_least_counted<T: TableSource>(
    source: &mut T,
    low: &[u64],
    width: u8,
    n: usize,
    v: u64,
) -> Option<usize>
    requires parts { AreParts (parts_of n width low.now (T.lists source.old)) }
    ensures answer { (xs : List ℕ) → Holds xs (parts_of n width low.now (T.lists source.old))
        → IsFirstAtLeast xs v result }
    ensures reads { ReadsAtMost (T.reads source.old) (T.reads source.new)
        (digit_count n * (digit_count (length (T.lists source.old).upper) + 1))
        (digit_count n * 23) (digit_count n * 8) }
    ensures two { ReadsAtMost (T.reads source.old) (T.reads source.new)
        (2 * (digit_count (length (T.lists source.old).upper) + 1)) (2 * 23) (2 * 8) }
    ensures same { T.lists source.new ≡ T.lists source.old }
{
    first_at_least_on(source, &mut LowDigits::new(low, width), n, v)
}

/// The greatest index of a sequence whose number is at most `v` (the predecessor); `None` exactly where there is none.
///
/// # Conditions
/// As of `first_at_least_on`.
/// # Cost
/// The cost of `first_at_least_on` of `v + 1`, and nothing where `v` is 2^64 - 1.
pub fn last_at_most_counted<T: TableSource>(
    source: &mut T,
    low: &mut LowDigits<'_>,
    n: usize,
    v: u64,
) -> Option<usize>
    requires parts { AreParts (parts_with n low.old (T.lists source.old)) }
    ensures answer { (xs : List ℕ) → Holds xs (parts_with n low.old (T.lists source.old))
        → IsLastAtMost xs v result }
    ensures reads { OnlyReads T.lists T.reads source.old source.new
        (2 * (digit_count (length (T.lists source.old).upper) + 1)) (2 * 23) (2 * 8) }
    ensures shared { (xs : List ℕ) → Holds xs (parts_with n low.old (T.lists source.old))
        → ReadsFragments low.old low.new (digit_count (sharing xs low.old.width (v + 1))) }
{
    index_laws::tables_have_sizes();
    found(last_at_most_by(source, &BY_TABLES, low, n, v))
}

/// Whether `v` is one of the numbers of a sequence.
///
/// # Conditions
/// As of `first_at_least_on`.
/// # Cost
/// Two selections of 0 bits in the source, and a search among the low bits of the items with the same high bits as `v`
/// as in `first_at_least_on`, with one more fragment of these.
pub fn contains_counted<T: TableSource>(
    source: &mut T,
    low: &mut LowDigits<'_>,
    n: usize,
    v: u64,
) -> bool
    requires parts { AreParts (parts_with n low.old (T.lists source.old)) }
    ensures answer { (xs : List ℕ) → Holds xs (parts_with n low.old (T.lists source.old))
        → IsTrue result ↔ Contains xs v }
    ensures reads { OnlyReads T.lists T.reads source.old source.new
        (2 * (digit_count (length (T.lists source.old).upper) + 1)) (2 * 23) (2 * 8) }
    ensures shared { (xs : List ℕ) → Holds xs (parts_with n low.old (T.lists source.old))
        → ReadsFragments low.old low.new (digit_count (sharing xs low.old.width v) + 1) }
{
    index_laws::tables_have_sizes();
    match contains_by(source, &BY_TABLES, low, n, v) {
        Some(is) => is,
        None => unreachable!(),
    }
}
