//! The list of free slots.
ghost use Rattle.std.specs.Prelude.{◌≡◌, ◌+◌, ◌*◌, ◌^◌, ◌<◌, ◌≤◌, length};
ghost use Rattle.bit_lists.specs.Bits.{bits_of};
ghost use Rattle.bit_lists.specs.Count.{ones_of};
ghost use Rattle.hash_buckets.specs.Free.{AreTaken, StandForUsed, StandsNext};

use bit_words::words;

/// A free slot, and from where the next is sought.
#[derive(Clone, Copy)]
struct Next {
    slot: usize,
    at: usize,
}

/// What stands for slot `keys + i`: the first free slot from `at` on where that slot is used, else what stood for the
/// slot before it.
fn next_free(used: &[u64], keys: usize, i: usize, last: usize, at: usize) -> Next
    requires short { length used.now < 2 ^ 52 }
    requires inside { keys + i < 64 * length used.now }
    requires few { ones_of (bits_of used.now) ≤ keys }
    requires order { last ≤ at }
    requires below { last < keys }
    requires within { at ≤ keys }
    requires taken { AreTaken (bits_of used.now) keys i at }
    ensures { StandsNext (bits_of used.now) keys i last at result.slot result.at }
{
    if !words::get_bit(used, keys + i) {
        return Next { slot: last, at };
    }
    match words::find_bit_zero(used, at) {
        Some(slot) if slot < keys => Next { slot, at: slot + 1 },
        _ => unreachable!(),
    }
}

/// Writes for each slot from `keys` on what stands for it: a free slot where it is used, in ascending order.
///
/// # Conditions
/// There is a key and a bit for each slot, and fewer than 2^52 words; no more bits are 1 than there are keys.
/// # Cost
/// One pass over the bits of the slots (evident from the code).
pub(crate) fn write_free(used: &[u64], keys: usize, free: &mut [u64])
    requires some { 0 < keys }
    requires short { length used.now < 2 ^ 52 }
    requires all { keys + length free.old ≤ 64 * length used.now }
    requires few { ones_of (bits_of used.now) ≤ keys }
    ensures { StandForUsed (bits_of used.now) keys free.new }
{
    let mut last = 0;
    let mut at = 0;
    for i in 0..free.len() {
        let next = next_free(used, keys, i, last, at);
        last = next.slot;
        at = next.at;
        free[i] = last as u64;
    }
}
