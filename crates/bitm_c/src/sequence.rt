//! Monotone integer sequences (Elias-Fano) whose parts lie in the caller's memory.
ghost use Rattle.std.specs.Prelude.{◌≡◌, ◌≢◌, ◌<◌, ◌≤◌, ◌↔◌, ◌⊎◌, ℕ, List, length, slice_index};
ghost use Rattle.tables_view.specs.Sizes.{lists_of};
ghost use Rattle.elias_fano.specs.Parts.{width_of};
ghost use Rattle.elias_fano.specs.Sequence.{HasFall};
ghost use Rattle.elias_fano.specs.SequenceParts.{parts_of, AreParts, Holds};
ghost use Rattle.bit_lists.specs.Kept.{IsKeptFrom};
ghost use Rattle.elias_fano_view.specs.Lists.{AreItems};
ghost use Rattle.elias_fano_view.specs.Sizes.{sizes_of, HasPartRoom, IsLargest};
ghost use Rattle.bitm_c.specs.Sequence.{ItemAnswered, PositionAnswered};
ghost use Rattle.bitm_abi.specs.Lists.{IsStopped};
ghost use Rattle.bitm_abi.specs.Sequence.{sequence_parts, sizes_in_c, IsSequenceSized};

use bitm_abi::{BAD_SIZE, OK, Sequence, SequenceLens, UNSORTED, WRONG, report, report_list_answer};
use elias_fano_view::{BuildError, Sizes, build};

/// Writes the lengths of the parts of a sequence of `len` numbers whose last and largest is `largest`.
#[unsafe(no_mangle)]
pub extern "C" fn bitm_sequence_sizes(len: usize, largest: u64, out: &mut SequenceLens) -> u32
    ensures ok { (result ≡ 0) ↔ IsLargest len largest }
    ensures sizes { result ≡ 0 → out.new ≡ sizes_in_c (sizes_of len largest) }
    ensures kept { result ≢ 0 → (result ≡ 2) × (out.new ≡ out.old) }
{
    match Sizes::of(len, largest) {
        Some(sizes) => {
            *out = SequenceLens {
                width: sizes.width as u64,
                low_len: sizes.low as u64,
                words_len: sizes.words as u64,
                upper_len: sizes.upper as u64,
                lower_len: sizes.lower as u64,
            };
            OK
        }
        None => BAD_SIZE,
    }
}

/// Writes the parts of the sequence of the given numbers, and how many low bits each number has.
#[unsafe(no_mangle)]
pub extern "C" fn bitm_sequence_build(
    items: &[u64],
    low: &mut [u64],
    words: &mut [u64],
    upper: &mut [usize],
    lower: &mut [u64],
    width: &mut u64,
) -> u32
    ensures ok { (result ≡ 0) → HasPartRoom items.now low.old words.old upper.old lower.old }
    ensures bad { (result ≡ 2) ↔ ¬ (HasPartRoom items.now low.old words.old upper.old lower.old) }
    ensures unsorted { (result ≡ 4)
        ↔ (HasPartRoom items.now low.old words.old upper.old lower.old × HasFall items.now) }
    ensures status { result ≢ 0 → (result ≡ 2) ⊎ (result ≡ 4) }
    ensures width { result ≡ 0 → width.new ≡ width_of items.now }
    ensures parts { result ≡ 0 → Holds items.now
        (parts_of (length items.now) width.new low.new (lists_of words.new upper.new lower.new)) }
    ensures kept { result ≢ 0 → (low.new ≡ low.old) × (words.new ≡ words.old)
        × (upper.new ≡ upper.old) × (lower.new ≡ lower.old) × (width.new ≡ width.old) }
{
    match build(items, low, words, upper, lower) {
        Ok(low_width) => {
            *width = low_width as u64;
            OK
        }
        Err(BuildError::WrongLength) => BAD_SIZE,
        Err(BuildError::NotSorted) => UNSORTED,
    }
}

/// Whether the parts form a sequence: one pass over the words of the high bits for their tables, and one more for the
/// numbers.
#[unsafe(no_mangle)]
pub extern "C" fn bitm_sequence_check(sequence: &Sequence<'_>) -> u32
    ensures ok { (result ≡ 0) ↔ (IsSequenceSized sequence.now × AreParts (sequence_parts sequence.now)) }
    ensures bad { (result ≡ 2) ↔ ¬ (IsSequenceSized sequence.now) }
    ensures status { (result ≡ 0) ⊎ (result ≡ 2) ⊎ (result ≡ 3) }
{
    match sequence.borrowed() {
        Some(borrowed) => { if borrowed.check() { OK } else { WRONG } }
        None => BAD_SIZE,
    }
}

/// Number `index`.
#[unsafe(no_mangle)]
pub extern "C" fn bitm_sequence_get(sequence: &Sequence<'_>, index: usize, out: &mut u64) -> u32
    ensures { ItemAnswered sequence.now index result out.old out.new }
{
    match sequence.borrowed() {
        Some(borrowed) => report(borrowed.get(index), out),
        None => BAD_SIZE,
    }
}

/// The successor of `value`: the least index whose number is at least `value`.
#[unsafe(no_mangle)]
pub extern "C" fn bitm_sequence_first_at_least(
    sequence: &Sequence<'_>,
    value: u64,
    out: &mut usize,
) -> u32
    ensures { PositionAnswered sequence.now value result out.old out.new }
{
    match sequence.borrowed() {
        Some(borrowed) => report(borrowed.first_at_least(value), out),
        None => BAD_SIZE,
    }
}

/// Writes the numbers at a list of indices, up to the first that is not found, and how many were written; the status
/// says why there are no more.
#[unsafe(no_mangle)]
pub extern "C" fn bitm_sequence_get_list(
    sequence: &Sequence<'_>,
    indices: &[usize],
    out: &mut [u64],
    written: &mut usize,
) -> u32
    ensures bad { (result ≡ 2)
        ↔ ¬ (IsSequenceSized sequence.now × (length out.old ≡ length indices.now)) }
    ensures kept { result ≡ 2 → (out.new ≡ out.old) × (written.new ≡ written.old) }
    ensures stopped { result ≢ 2
        → IsStopped sequence.now.len indices.now written.new result }
    ensures most { result ≢ 2 → written.new ≤ length indices.now }
    ensures inside { result ≢ 2 → (j : ℕ) → j < written.new
        → slice_index indices.now j < sequence.now.len }
    ensures items { result ≢ 2 → (xs : List ℕ) → Holds xs (sequence_parts sequence.now)
        → AreItems xs indices.now written.new out.new }
    ensures whole { result ≢ 2 → (xs : List ℕ) → Holds xs (sequence_parts sequence.now)
        → written.new < length indices.now
        → length xs ≤ slice_index indices.now written.new }
    ensures behind { result ≢ 2 → IsKeptFrom written.new out.old out.new }
{
    match sequence.borrowed() {
        Some(view) => report_list_answer(view.get_list(indices, out), indices.len(), written),
        None => BAD_SIZE,
    }
}
