//! The last 0 bit up to a position, where it is near.
ghost use Rattle.std.specs.Prelude.{◌≡◌, ◌+◌, ◌/◌, ◌<◌, ◌≤◌, ℕ, true, false, length, MatchOption};
ghost use Rattle.bit_lists.specs.Bits.{item, IsShort};
ghost use Rattle.bit_lists.specs.Count.{IsLastTo};
ghost use Rattle.bitm_tables.specs.Reads.{OnlyReads};
ghost use Rattle.bitm_tables.specs.Tables.{bits_in};

use bit_words::words;
use bitm_tables::source::TableSource;

/// The position of the last 0 bit up to `to`; `None` only where the `WORDS` words up to the word of `to` have no such
/// bit.
///
/// # Conditions
/// The position `to` is inside, and there are fewer than 2^58 words.
/// # Cost
/// At most `WORDS` words.
#[inline(always)]
pub fn near_last_zero_on<const WORDS: usize, T: TableSource>(
    source: &mut T,
    to: usize,
) -> Option<usize>
    requires inside { to < length (bits_in (T.lists source.old)) }
    requires short { IsShort (T.lists source.old).words }
    ensures zero { let b = bits_in (T.lists source.old) in MatchOption result
        ((p : ℕ) → p ≤ to → to / 64 < p / 64 + WORDS → item b p ≡ true) (IsLastTo b false to) }
    ensures reads { OnlyReads T.lists T.reads source.old source.new 0 0 WORDS }
{
    let mut last = to;
    for _ in 0..WORDS {
        let at = last / 64;
        let word = source.word(at);
        if let Some(position) = words::rfind_bit_zero(&[word], last % 64) {
            return Some(64 * at + position);
        }
        if at == 0 {
            return None;
        }
        last = 64 * at - 1;
    }
    None
}
