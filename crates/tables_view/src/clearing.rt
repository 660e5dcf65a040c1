//! Clearing words and bits.
ghost use Rattle.std.specs.Prelude.{◌≡◌, ◌%◌, ◌<◌, ◌≤◌, ℕ, false, length, replicate, slice_index};
ghost use Rattle.bit_lists.specs.Bits.{bits_of, item};

use bit_words::words;

/// Clears every second word, from word `first` on.
#[inline(always)]
fn clear_half(words: &mut [u64], first: usize)
    ensures zeros { (j : ℕ) → first ≤ j → j % 2 ≡ first % 2 → slice_index words.new j ≡ 0 }
    ensures below { (j : ℕ) → j < first → slice_index words.new j ≡ slice_index words.old j }
    ensures kept { (j : ℕ) → slice_index words.old j ≡ 0 → slice_index words.new j ≡ 0 }
{
    let mut at = first;
    while at < words.len() {
        words[at] = 0;
        at += 2;
    }
}

/// Clears the words from word `first` on.
#[inline(always)]
fn clear_words(words: &mut [u64], first: usize)
    requires { first ≤ length words.old }
    ensures len { length words.new ≡ length words.old }
    ensures zeros { (j : ℕ) → first ≤ j → slice_index words.new j ≡ 0 }
    ensures below { (j : ℕ) → j < first → slice_index words.new j ≡ slice_index words.old j }
{
    // A loop over all words would be compiled to a call of C's `memset`, and the archive for C calls nothing.
    clear_half(&mut *words, first);
    clear_half(words, first + 1);
}

/// Clears all words.
pub fn clear(words: &mut [u64])
    ensures { words.new ≡ replicate (length words.old) 0 }
{
    clear_words(words, 0);
}

/// Clears the bits from position `bit` on; changes nothing where the words end before that position.
///
/// # Cost
/// Each word from that position on is written once, and one is read.
pub fn clear_from(words: &mut [u64], bit: usize)
    ensures len { length words.new ≡ length words.old }
    ensures before { (i : ℕ) → i < bit
        → item (bits_of words.new) i ≡ item (bits_of words.old) i }
    ensures from { (i : ℕ) → bit ≤ i → item (bits_of words.new) i ≡ false }
{
    let at = bit / 64;
    if at >= words.len() {
        return;
    }
    clear_words(&mut *words, at + 1);
    words::try_set_bits_0_64(words, bit, 0, (64 - bit % 64) as u8);
}
