//! Lists of queries of a sequence, by the codes of lists.
ghost use Rattle.std.specs.Prelude.{◌≡◌, ◌<◌, ◌↔◌, ℕ, IsTrue, false, length, slice_index};
ghost use Rattle.bitm_abi.specs.Sequence.{sought_by, IsContained, IsPredecessor};

use bitm_select::search::selected::{NO_ANSWER, WRONG_TABLES};
use bitm_tables::answer::Answer;
use elias_fano_view::SequenceView;

/// Writes the predecessor of each value. Returns false, and writes nothing, exactly where `out` is not as long as
/// `values`.
pub fn last_at_most_list(parts: &SequenceView<'_>, values: &[u64], out: &mut [usize]) -> bool
    ensures room { IsTrue result ↔ length out.old ≡ length values.now }
    ensures predecessors { IsTrue result → (j : ℕ) → j < length values.now → IsPredecessor
        (slice_index values.now j) parts.now (sought_by (slice_index out.new j)) }
    ensures kept { result ≡ false → out.new ≡ out.old }
{
    if out.len() != values.len() {
        return false;
    }
    last_each(parts, values, out);
    true
}

/// Writes whether each value is one of the numbers. Returns false, and writes nothing, exactly where `out` is not as
/// long as `values`.
pub fn contains_list(parts: &SequenceView<'_>, values: &[u64], out: &mut [usize]) -> bool
    ensures room { IsTrue result ↔ length out.old ≡ length values.now }
    ensures contained { IsTrue result → (j : ℕ) → j < length values.now
        → IsContained (slice_index values.now j) parts.now (slice_index out.new j) }
    ensures kept { result ≡ false → out.new ≡ out.old }
{
    if out.len() != values.len() {
        return false;
    }
    contain_each(parts, values, out);
    true
}

/// The predecessor of each value.
fn last_each(parts: &SequenceView<'_>, values: &[u64], out: &mut [usize])
    requires { length out.old ≡ length values.now }
    ensures { (j : ℕ) → j < length values.now → IsPredecessor (slice_index values.now j) parts.now
        (sought_by (slice_index out.new j)) }
{
    for at in 0..values.len() {
        out[at] = last_code(parts, values[at]);
    }
}

/// The predecessor of a value, by the codes of lists.
#[inline(always)]
fn last_code(parts: &SequenceView<'_>, value: u64) -> usize
    ensures { IsPredecessor value parts.now (sought_by result) }
{
    let _ = parts.len(); // its clause makes the limit of the length known to the proof
    match parts.last_at_most(value) {
        Answer::Found(index) => index,
        Answer::Absent => NO_ANSWER,
        Answer::Wrong => WRONG_TABLES,
    }
}

/// Whether each value is one of the numbers.
fn contain_each(parts: &SequenceView<'_>, values: &[u64], out: &mut [usize])
    requires { length out.old ≡ length values.now }
    ensures { (j : ℕ) → j < length values.now
        → IsContained (slice_index values.now j) parts.now (slice_index out.new j) }
{
    for at in 0..values.len() {
        out[at] = contained_code(parts, values[at]);
    }
}

/// Whether a value is one of the numbers, as 0 or 1, or the code of wrong parts.
#[inline(always)]
fn contained_code(parts: &SequenceView<'_>, value: u64) -> usize
    ensures { IsContained value parts.now result }
{
    match parts.contains(value) {
        Some(is) => is as usize,
        None => WRONG_TABLES,
    }
}
