//! A step inside a word: the next numbers of a sequence, where their 1 bits stand in the word of the position. The
//! parts may hold anything, and so may the position.
ghost use Rattle.std.specs.Prelude.{◌≡◌, ◌+◌, ◌<◌, ◌≤◌, ℕ, List, IfSome};
ghost use Rattle.elias_fano.specs.Low.{HasFragments, ReadsFragments};
ghost use Rattle.elias_fano.specs.Parts.{ArePartsOf};
ghost use Rattle.elias_fano.specs.Sequence.{Reaches};
ghost use Rattle.postings.specs.Spot.{IsSpot};

use crate::spot::Spot;
use bit_words::words as bits;
use elias_fano::LowDigits;
use elias_fano::building::item_at_one;

/// How many numbers are looked at one after another.
const STEPS: usize = 4;

/// The next number, where its 1 bit stands in the word of the 1 bit at `spot`.
#[inline(always)]
fn next_in_word(words: &[u64], low: &mut LowDigits<'_>, n: usize, spot: Spot) -> Option<Spot>
    requires fragments { HasFragments low.old n }
    requires at { spot.at < n }
    ensures next { (xs : List ℕ) → ArePartsOf xs n low.old.width low.old.words words.now
        → IsSpot xs words.now spot → IfSome result (IsSpot xs words.now) }
    ensures at { IfSome result (λ s. (s.at ≡ spot.at + 1) × (s.at < n)) }
    ensures fragments { ReadsFragments low.old low.new 1 }
{
    let at = spot.at + 1;
    let k = spot.one / 64;
    if at >= n || k >= words.len() {
        return None;
    }
    let Some(digit) = bits::find_bit_one(&[words[k]], spot.one % 64 + 1) else {
        return None;
    };
    let one = 64 * k + digit;
    Some(Spot {
        at,
        one,
        number: item_at_one(one, low, at),
    })
}

/// The first number that is at least `v`, which is more than the number at `spot`, where it is one of the next four and
/// their 1 bits stand in the word of the 1 bit at `spot`. Where these are not the parts of a sequence, or the position
/// is not the position of a number, it is some number that is at least `v`.
///
/// # Conditions
/// There are as many low bits as the numbers take, and the position is that of one of them. They may hold anything.
/// # Cost
/// Reads one word, and the low bits of at most four numbers; none of them where the high bits of `v` are more than four
/// above those of the number at `spot` (evident from the code).
///
/// # Example
/// ```
/// // over the parts of 2, 5, 9, from the position of 2
/// near_in_word(&words, &mut low, 3, spot, 3);      // Some(Spot { at: 1, one, number: 5 })
/// ```
#[inline(always)]
pub fn near_in_word(
    words: &[u64],
    low: &mut LowDigits<'_>,
    n: usize,
    spot: Spot,
    v: u64,
) -> Option<Spot>
    requires fragments { HasFragments low.old n }
    requires at { spot.at < n }
    requires less { spot.number < v }
    ensures near { (xs : List ℕ) → ArePartsOf xs n low.old.width low.old.words words.now
        → IsSpot xs words.now spot → IfSome result (λ s. IsSpot xs words.now s × Reaches xs v s.at) }
    ensures at_least { IfSome result (λ s. v ≤ s.number) }
    ensures fragments { ReadsFragments low.old low.new 4 }
{
    let above = (v >> low.width()) as usize;
    if above.saturating_sub(spot.one.saturating_sub(spot.at)) > STEPS {
        return None;
    }
    let mut last = spot;
    for step in 0..STEPS {
        match next_in_word(words, &mut *low, n, last) {
            Some(next) if next.number >= v => return Some(next),
            Some(next) => last = next,
            None => return None,
        }
    }
    None
}
