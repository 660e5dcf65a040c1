//! The numbers of a sequence in a range, over any source of the words of its high bits: reads are counted.
ghost use Rattle.std.specs.Prelude.{◌+◌, ◌*◌, ◌<◌, ◌≤◌, ◌↔◌, ℕ, List, length, slice_index};
ghost use Rattle.bitm.specs.Bits.{digit_count};
ghost use Rattle.bitm.specs.Reads.{OnlyReads};
ghost use Rattle.elias_fano.specs.SequenceParts.{parts_of, AreParts, Holds};

use bitm::{Select0ForRank101111, SelectForRank101111, TableSource};
use elias_fano::{Sequence, first_at_least_counted, laws};

/// The index from which on the numbers of a sequence are at least `v`; `n`, where each is less.
///
/// # Conditions
/// As of `first_at_least_counted`.
/// # Cost
/// One call of it.
fn index_from<T: TableSource>(source: &mut T, low: &[u64], width: u8, n: usize, v: u64) -> usize
    requires { AreParts (parts_of n width low.now (T.lists source.old)) }
    ensures reached { (xs : List ℕ) → Holds xs (parts_of n width low.now (T.lists source.old))
        → (k : ℕ) → k < length xs → (result ≤ k) ↔ (v ≤ slice_index xs k) }
    ensures reads { OnlyReads T.lists T.reads source.old source.new
        (2 * (digit_count (length (T.lists source.old).upper) + 1)) (2 * 23) (2 * 8) }
{
    laws::reached_from_there();
    match first_at_least_counted(source, low, width, n, v) {
        Some(position) => position,
        None => n,
    }
}

/// The indexes of the numbers of a sequence that are at least `from` and less than `to`: from the first index that is
/// answered on, before the second.
///
/// The sequence is handed in by its parts, as `first_at_least_counted` takes them.
///
/// # Conditions
/// As of `first_at_least_counted`.
/// # Cost
/// Two calls of it: at most four selections in the source, whatever the numbers between are.
pub fn indexes_between<T: TableSource>(
    source: &mut T,
    low: &[u64],
    width: u8,
    n: usize,
    from: u64,
    to: u64,
) -> (usize, usize)
    requires { AreParts (parts_of n width low.now (T.lists source.old)) }
    ensures between { (xs : List ℕ) → Holds xs (parts_of n width low.now (T.lists source.old))
        → (k : ℕ) → k < length xs
        → ((result.0 ≤ k) × (k < result.1)) ↔ ((from ≤ slice_index xs k) × (slice_index xs k < to)) }
    ensures reads { OnlyReads T.lists T.reads source.old source.new
        (4 * (digit_count (length (T.lists source.old).upper) + 1)) (4 * 23) (4 * 8) }
{
    let begin = index_from(source, low, width, n, from);
    let end = index_from(source, low, width, n, to);
    (begin, end)
}

/// `indexes_between` over the parts of a sequence that selects by any strategies.
pub fn between<S: SelectForRank101111, S0: Select0ForRank101111>(
    sequence: &Sequence<S, S0>,
    from: u64,
    to: u64,
) -> (usize, usize)
    ensures { let xs = sequence.now.items in (k : ℕ) → k < length xs
        → ((result.0 ≤ k) × (k < result.1)) ↔ ((from ≤ slice_index xs k) × (slice_index xs k < to)) }
{
    laws::numbers_rise(sequence);
    let (low, width, n) = (sequence.low_words(), sequence.low_width(), sequence.len());
    indexes_between(&mut sequence.probe(), low, width, n, from, to)
}
