//! The first 0 bit from a position on, where it is near.
ghost use Rattle.std.specs.Prelude.{◌≡◌, ◌+◌, ◌/◌, ◌<◌, ◌≤◌, ℕ, true, false, length, MatchOption};
ghost use Rattle.bit_lists.specs.Bits.{item, IsShort};
ghost use Rattle.bit_lists.specs.Count.{IsFirstFrom};
ghost use Rattle.bitm_tables.specs.Reads.{OnlyReads};
ghost use Rattle.bitm_tables.specs.Tables.{bits_in};

use bit_words::words;
use bitm_tables::source::TableSource;

/// The position of the first 0 bit from `from` on; `None` only where no such bit is in the `WORDS` words from the word
/// of `from` on, or in the fewer words that are left.
///
/// # Conditions
/// There are fewer than 2^58 words.
/// # Cost
/// Reads the words up to the bit's, at most `WORDS`.
#[inline(always)]
pub fn near_zero_on<const WORDS: usize, T: TableSource>(
    source: &mut T,
    from: usize,
) -> Option<usize>
    requires { IsShort (T.lists source.old).words }
    ensures zero { let b = bits_in (T.lists source.old) in MatchOption result
        ((p : ℕ) → from ≤ p → p / 64 < from / 64 + WORDS → p < length b → item b p ≡ true)
        (IsFirstFrom b false from) }
    ensures reads { OnlyReads T.lists T.reads source.old source.new 0 0 WORDS }
{
    let mut start = from;
    for _ in 0..WORDS {
        let at = start / 64;
        if at >= source.words_len() {
            return None;
        }
        let word = source.word(at);
        if let Some(position) = words::find_bit_zero(&[word], start % 64) {
            return Some(64 * at + position);
        }
        start = 64 * at + 64;
    }
    None
}
