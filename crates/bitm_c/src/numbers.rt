//! More queries of a sequence: the predecessor of a value, whether a value is one of the numbers, and the numbers in
//! order.
ghost use Rattle.std.specs.Prelude.{◌≡◌, ◌≢◌, ◌-◌, ◌≤◌, ◌↔◌, ◌⊎◌, ℕ, List, length, min};
ghost use Rattle.elias_fano.specs.SequenceParts.{Holds};
ghost use Rattle.bit_lists.specs.Kept.{IsKeptFrom};
ghost use Rattle.elias_fano_view.specs.Lists.{AreItemsFrom};
ghost use Rattle.bitm_c.specs.Numbers.{ContainsAnswered, LastAnswered};
ghost use Rattle.bitm_abi.specs.Sequence.{sequence_parts, IsSequenceSized};

use bitm_abi::{BAD_SIZE, OK, Sequence, WRONG, report};

/// The predecessor of `value`: the greatest index whose number is at most `value`.
#[unsafe(no_mangle)]
pub extern "C" fn bitm_sequence_last_at_most(
    sequence: &Sequence<'_>,
    value: u64,
    out: &mut usize,
) -> u32
    ensures { LastAnswered sequence.now value result out.old out.new }
{
    match sequence.borrowed() {
        Some(borrowed) => report(borrowed.last_at_most(value), out),
        None => BAD_SIZE,
    }
}

/// Whether `value` is one of the numbers, as 0 or 1.
#[unsafe(no_mangle)]
pub extern "C" fn bitm_sequence_contains(sequence: &Sequence<'_>, value: u64, out: &mut u64) -> u32
    ensures { ContainsAnswered sequence.now value result out.old out.new }
{
    let Some(borrowed) = sequence.borrowed() else {
        return BAD_SIZE;
    };
    match borrowed.contains(value) {
        Some(is) => {
            *out = is as u64;
            OK
        }
        None => WRONG,
    }
}

/// Writes the numbers from number `from` on until none is left or `out` is full, and how many were written; the status
/// says whether there are fewer than that.
#[unsafe(no_mangle)]
pub extern "C" fn bitm_sequence_items(
    sequence: &Sequence<'_>,
    from: usize,
    out: &mut [u64],
    written: &mut usize,
) -> u32
    ensures bad { (result ≡ 2) ↔ ¬ (IsSequenceSized sequence.now) }
    ensures full { result ≢ 2
        → (result ≡ 0) ↔ written.new ≡ min (length out.old) (sequence.now.len - from) }
    ensures status { (result ≡ 0) ⊎ (result ≡ 2) ⊎ (result ≡ 3) }
    ensures most { result ≢ 2 → written.new ≤ min (length out.old) (sequence.now.len - from) }
    ensures all { result ≢ 2 → (xs : List ℕ) → Holds xs (sequence_parts sequence.now)
        → written.new ≡ min (length out.old) (length xs - from) }
    ensures items { result ≢ 2 → (xs : List ℕ) → Holds xs (sequence_parts sequence.now)
        → AreItemsFrom xs from written.new out.new }
    ensures behind { result ≢ 2 → IsKeptFrom written.new out.old out.new }
    ensures kept { result ≡ 2 → (out.new ≡ out.old) × (written.new ≡ written.old) }
{
    let Some(borrowed) = sequence.borrowed() else {
        return BAD_SIZE;
    };
    let count = borrowed.items_from(from, &mut *out);
    *written = count;
    if count == out.len().min(sequence.len.saturating_sub(from)) {
        OK
    } else {
        WRONG
    }
}
