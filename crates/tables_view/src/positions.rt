//! The positions of 1 bits, written into the caller's memory.
ghost use Rattle.std.specs.Prelude.{◌≡◌, ◌+◌, ◌-◌, ◌<◌, ◌≤◌, ℕ, length, min, slice_index, true};
ghost use Rattle.bit_lists.specs.Bits.{bits_of, IsShort};
ghost use Rattle.bit_lists.specs.Count.{ones_before, ones_of, Picks};

use bit_words::slices::positions_in;

/// Writes the positions of the 1 bits from position `from` on in rising order until `out` is full, and returns their
/// number. The rest of `out` keeps its values.
///
/// # Conditions
/// There are fewer than 2^58 words.
/// # Cost
/// The cost of `bit_words::slices::positions_in`.
pub fn ones_from(words: &[u64], from: usize, out: &mut [usize]) -> usize
    requires { IsShort words.now }
    ensures number { result ≡ min (length out.old)
        (ones_of (bits_of words.now) - ones_before (bits_of words.now) from) }
    ensures len { length out.new ≡ length out.old }
    ensures positions { (j : ℕ) → j < result → Picks (bits_of words.now) true
        (ones_before (bits_of words.now) from + j) (slice_index out.new j) }
    ensures kept { (j : ℕ) → result ≤ j → slice_index out.new j ≡ slice_index out.old j }
{
    positions_in(words, words.len() * 64, true, from, out)
}
