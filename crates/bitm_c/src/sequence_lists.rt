//! Lists of queries of a sequence. Each answer is what the single call gives, by the codes of lists.
ghost use Rattle.std.specs.Prelude.{◌≡◌, ◌≢◌, ◌<◌, ◌-◌, ◌↔◌, ℕ, length, slice_index};
ghost use Rattle.elias_fano_view.specs.Lists.{IsIndexCode};
ghost use Rattle.bitm_abi.specs.Lists.{AreAnswersCounted};
ghost use Rattle.bitm_abi.specs.Sequence.{sequence_parts, sought_by, IsContained, IsPredecessor, IsSequenceSized};

use bitm_abi::{BAD_SIZE, ListCounts, Sequence, contains_list, last_at_most_list, report_list};

/// Writes the successor of each value, which is the least index whose number is at least the value, and how many of the
/// answers are codes.
#[unsafe(no_mangle)]
pub extern "C" fn bitm_sequence_first_at_least_list(
    sequence: &Sequence<'_>,
    values: &[u64],
    out: &mut [usize],
    counts: &mut ListCounts,
) -> u32
    ensures ok { (result ≡ 0) ↔ IsSequenceSized sequence.now × (length out.old ≡ length values.now) }
    ensures unchanged { result ≢ 0 → (result ≡ 2) × (out.new ≡ out.old)
        × (counts.new ≡ counts.old) }
    ensures successors { result ≡ 0 → (j : ℕ) → j < length values.now
        → IsIndexCode (sequence_parts sequence.now) (slice_index values.now j) (slice_index out.new j) }
    ensures counts { result ≡ 0 → AreAnswersCounted out.new counts.new }
{
    let Some(borrowed) = sequence.borrowed() else {
        return BAD_SIZE;
    };
    let done = borrowed.first_at_least_list(values, &mut *out);
    report_list(done, &*out, counts)
}

/// Writes the predecessor of each value, which is the greatest index whose number is at most the value, and how many of
/// the answers are codes.
#[unsafe(no_mangle)]
pub extern "C" fn bitm_sequence_last_at_most_list(
    sequence: &Sequence<'_>,
    values: &[u64],
    out: &mut [usize],
    counts: &mut ListCounts,
) -> u32
    ensures ok { (result ≡ 0) ↔ IsSequenceSized sequence.now × (length out.old ≡ length values.now) }
    ensures unchanged { result ≢ 0 → (result ≡ 2) × (out.new ≡ out.old)
        × (counts.new ≡ counts.old) }
    ensures predecessors { result ≡ 0 → (j : ℕ) → j < length values.now
        → IsPredecessor (slice_index values.now j) (sequence_parts sequence.now)
        (sought_by (slice_index out.new j)) }
    ensures counts { result ≡ 0 → AreAnswersCounted out.new counts.new }
{
    let Some(borrowed) = sequence.borrowed() else {
        return BAD_SIZE;
    };
    let done = last_at_most_list(&borrowed, values, &mut *out);
    report_list(done, &*out, counts)
}

/// Writes whether each value is one of the numbers, as 0 or 1, and how many of the answers are codes.
#[unsafe(no_mangle)]
pub extern "C" fn bitm_sequence_contains_list(
    sequence: &Sequence<'_>,
    values: &[u64],
    out: &mut [usize],
    counts: &mut ListCounts,
) -> u32
    ensures ok { (result ≡ 0) ↔ IsSequenceSized sequence.now × (length out.old ≡ length values.now) }
    ensures unchanged { result ≢ 0 → (result ≡ 2) × (out.new ≡ out.old)
        × (counts.new ≡ counts.old) }
    ensures contained { result ≡ 0 → (j : ℕ) → j < length values.now
        → IsContained (slice_index values.now j) (sequence_parts sequence.now) (slice_index out.new j) }
    ensures counts { result ≡ 0 → AreAnswersCounted out.new counts.new }
{
    let Some(borrowed) = sequence.borrowed() else {
        return BAD_SIZE;
    };
    let done = contains_list(&borrowed, values, &mut *out);
    report_list(done, &*out, counts)
}
