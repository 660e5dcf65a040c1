//! Whether parts form a hash.
ghost use Rattle.std.specs.Prelude.{◌≡◌, ◌<◌, ◌≤◌, ◌↔◌, All, length, IsTrue, MatchOption};
ghost use Rattle.hash_buckets.specs.Numbers.{slots_of, AreBucketLevels};
ghost use Rattle.hash_buckets.specs.Parts.{NeverFall};

use crate::asking::fits;
use crate::positions::Level;

/// How many slots levels have; `None` exactly where they are not levels whose buckets have one of `seeds` seeds each.
pub(crate) fn slots_in(levels: &[Level], seeds: usize) -> Option<usize>
    ensures { MatchOption result (AreBucketLevels levels.now seeds → ⊥)
        (λ slots. AreBucketLevels levels.now seeds × (slots ≡ slots_of levels.now)) }
{
    let mut begin = 0;
    let mut first = 0;
    for level in levels {
        if !fits(level, seeds - begin, first) {
            return None;
        }
        begin += level.buckets;
        first += level.slots;
    }
    Some(first)
}

/// Whether numbers rise, and are less than a bound.
pub(crate) fn rise_below(numbers: &[u64], bound: usize) -> bool
    ensures { IsTrue result ↔ (All (λ number. number < bound) numbers.now × NeverFall numbers.now) }
{
    let mut last = 0;
    for number in numbers {
        if *number < last || *number as usize >= bound {
            return false;
        }
        last = *number;
    }
    true
}
