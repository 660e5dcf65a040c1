//! The positions of 1 bits, or 0 bits, among the first bits of words, written into the caller's memory.
ghost use Rattle.std.specs.Prelude.{◌≡◌, ◌+◌, ◌-◌, ◌*◌, ◌<◌, ◌≤◌, ℕ, length, min, slice_index};
ghost use Rattle.bit_lists.specs.Bits.{IsShort};
ghost use Rattle.bit_lists.specs.Count.{count_before, count_of, Picks};
ghost use Rattle.bit_words.specs.First.{first_bits};

use crate::slices::nearest::next_in;

/// Writes the positions of the 1 bits, or 0 bits, from `from` on and before `len`, in rising order, until none is left
/// or `out` is full, and answers how many were written. The rest of `out` is unchanged.
///
/// # Conditions
/// There are `len` bits, in fewer than 2^58 words.
/// # Cost
/// Each word from that position on is read once, up to the last one found, and once more for each bit found in it.
pub fn positions_in(words: &[u64], len: usize, one: bool, from: usize, out: &mut [usize]) -> usize
    requires len { len ≤ 64 * length words.now }
    requires short { IsShort words.now }
    ensures number { let b = first_bits words.now len in
        result ≡ min (length out.old) (count_of b one - count_before b one from) }
    ensures len { length out.new ≡ length out.old }
    ensures positions { let b = first_bits words.now len in (j : ℕ) → j < result
        → Picks b one (count_before b one from + j) (slice_index out.new j) }
    ensures unchanged { (j : ℕ) → result ≤ j → slice_index out.new j ≡ slice_index out.old j }
{
    let mut next = from;
    for at in 0..out.len() {
        let Some(position) = next_in(words, len, one, next) else {
            return at;
        };
        out[at] = position;
        next = position + 1;
    }
    out.len()
}
