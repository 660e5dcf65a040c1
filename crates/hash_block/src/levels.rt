//! Whether sizes are sizes of levels.
ghost use Rattle.std.specs.Prelude.{◌≡◌, ◌*◌, ◌^◌, ◌<◌, ◌≤◌, ◌↔◌, IsTrue, length, SomeIff, sum};
ghost use Rattle.bit_lists.specs.Bits.{bits_of};
ghost use Rattle.perfect_hash.specs.Numbers.{AreSizes};
ghost use Rattle.perfect_hash.specs.Placed.{FitIn};

use crate::sections::LEVELS;

/// How many words levels of these sizes take; `None` exactly where a level has none, or all have more than there are.
fn fitting(words: usize, sizes: &[usize]) -> Option<usize>
    requires { words < 2 ^ 58 }
    ensures { SomeIff result (FitIn words sizes.now) (sum sizes.now) }
{
    let mut used = 0;
    for size in sizes {
        if *size == 0 || *size > words - used {
            return None;
        }
        used += *size;
    }
    Some(used)
}

/// Whether the sizes are sizes of levels of these words: each level has a word, together they have all words, and there
/// are at most 256 levels.
///
/// # Conditions
/// There are fewer than 2^58 words.
/// # Cost
/// One pass over the sizes (evident from the code).
///
/// ```
/// are_levels(&words, &[1, 2]);   // true of three words
/// ```
#[tactic(auto, using(bitm::proofs::BitLaws::bits_are_counted))]
pub fn are_levels(words: &[u64], sizes: &[usize]) -> bool
    requires { length words.now < 2 ^ 58 }
    ensures { IsTrue result ↔ AreSizes sizes.now (bits_of words.now) }
{
    match fitting(words.len(), sizes) {
        Some(used) => used == words.len() && sizes.len() <= LEVELS,
        None => false,
    }
}
