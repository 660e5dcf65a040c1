//! Where a cursor over a sequence stands, and how it moves. The parts of the sequence may hold anything, and so may the
//! position.
ghost use Rattle.std.specs.Prelude.{◌≡◌, ◌+◌, ◌*◌, ◌<◌, ◌≤◌, ℕ, List, length};
ghost use Rattle.bit_lists.specs.Bits.{digit_count};
ghost use Rattle.bitm_tables.specs.Reads.{OnlyReads};
ghost use Rattle.bitm_tables.specs.Tables.{HasSizes};
ghost use Rattle.elias_fano.specs.SequenceParts.{parts_with, HasLengths, Holds};
ghost use Rattle.elias_fano.specs.Low.{sharing, ReadsFragments};
ghost use Rattle.postings.specs.Moves.{HasMoved, HasStarted, IsMove, IsReaching};

use crate::near::{far_on, seek_on};
use bitm_tables::answer::Answer;
use bitm_tables::source::TableSource;
use elias_fano::LowDigits;

/// Where a cursor over a sequence stands: the index of its number, the position of that number's 1 bit among the words
/// of the high bits, and the number. It is at the end where no number has the index.
#[repr(C)]
#[derive(Clone, Copy)]
pub struct Spot {
    /// The index of the number.
    pub at: usize,
    /// The position of its 1 bit.
    pub one: usize,
    /// The number.
    pub number: u64,
}

/// The position of the first of `n` numbers, or the end where there is none: `None` only where these are not the parts
/// of a sequence.
///
/// # Conditions
/// There are fewer than 2^56 numbers and at most 63 low bits, and as many low words as these take; there are fewer than
/// 2^58 words, and the tables have the right lengths. They may hold anything.
/// # Cost
/// What three selections by binary search read, whatever the parts hold, and the low bits of one number, and of one for
/// each binary digit of how many numbers share the high bits 0; in parts that form no sequence, for each binary digit
/// of `n`.
///
/// # Example
/// ```
/// // over the parts of 2, 5, 9
/// total_start_on(&mut borrowed.probe(), &mut low, 3);      // Some(Spot { at: 0, one, number: 2 })
/// ```
pub fn total_start_on<T: TableSource>(
    source: &mut T,
    low: &mut LowDigits<'_>,
    n: usize,
) -> Option<Spot>
    requires lengths { HasLengths (parts_with n low.old (T.lists source.old)) }
    requires sized { HasSizes (T.lists source.old) }
    ensures started { (xs : List ℕ) → Holds xs (parts_with n low.old (T.lists source.old))
        → HasStarted xs (T.lists source.old).words n result }
    ensures reads { OnlyReads T.lists T.reads source.old source.new
        (3 * (digit_count (length (T.lists source.old).upper) + 1)) (3 * 23) (3 * 8) }
    ensures fragments { ReadsFragments low.old low.new (digit_count n + 1) }
    ensures shared { (xs : List ℕ) → Holds xs (parts_with n low.old (T.lists source.old))
        → ReadsFragments low.old low.new (digit_count (sharing xs low.old.width 0) + 1) }
{
    match far_on(source, low, n, 0) {
        Answer::Found(spot) => Some(spot),
        Answer::Absent => Some(Spot {
            at: n,
            one: 0,
            number: 0,
        }),
        Answer::Wrong => None,
    }
}

/// Moves to the first number from `spot` on that is at least `v`, and answers it; `Absent` exactly where each is less,
/// and then the position is the end. Where the number there is at least `v` it stays.
///
/// Whatever the parts and the position hold, a number that is found is at least `v`, and the position stays or moves
/// forward in the words. Where they form a sequence, and the position is at one of its numbers or its end, as
/// `total_start_on` and this call leave it, the answer is the right one, and never `Wrong`. For `Wrong` the position
/// stays.
///
/// # Conditions
/// As of `total_start_on`. The position may be any.
/// # Cost
/// Nothing is read where the number at the position is at least `v`. Else at most what three selections by binary
/// search read and 25 words, whatever the parts hold; and the low bits of at most nine numbers, and of one for each
/// binary digit of how many numbers share the high bits of `v`; in parts that form no sequence, for each binary digit
/// of `n`. Evident from the code: the selections are made only where the number is not near, that is where the 0 bits
/// to skip do not end in the eight words from the word of the position on, or none of the eight numbers from there on
/// is at least `v`.
///
/// # Example
/// ```
/// // over the parts of 2, 5, 9, from where `total_start_on` left the position
/// total_next_on(&mut borrowed.probe(), &mut low, 3, &mut spot, 3);      // Found(5)
/// total_next_on(&mut borrowed.probe(), &mut low, 3, &mut spot, 10);     // Absent
/// ```
#[inline]
pub fn total_next_on<T: TableSource>(
    source: &mut T,
    low: &mut LowDigits<'_>,
    n: usize,
    spot: &mut Spot,
    v: u64,
) -> Answer<u64>
    requires lengths { HasLengths (parts_with n low.old (T.lists source.old)) }
    requires sized { HasSizes (T.lists source.old) }
    ensures next { (xs : List ℕ) → Holds xs (parts_with n low.old (T.lists source.old))
        → IsMove xs (T.lists source.old).words n v spot.old result spot.new }
    ensures moves { HasMoved n v spot.old result spot.new }
    ensures nothing { IsReaching n v spot.old → (T.reads source.new ≡ T.reads source.old) × (low.new ≡ low.old) }
    ensures reads { OnlyReads T.lists T.reads source.old source.new
        (3 * (digit_count (length (T.lists source.old).upper) + 1)) (3 * 23) (25 + 3 * 8) }
    ensures fragments { ReadsFragments low.old low.new (8 + (digit_count n + 1)) }
    ensures shared { (xs : List ℕ) → Holds xs (parts_with n low.old (T.lists source.old))
        → ReadsFragments low.old low.new (8 + (digit_count (sharing xs low.old.width v) + 1)) }
{
    if spot.at >= n {
        return Answer::Absent;
    }
    if spot.number >= v {
        return Answer::Found(spot.number);
    }
    match seek_on(source, low, n, *spot, v) {
        Answer::Found(found) => {
            *spot = found;
            Answer::Found(found.number)
        }
        Answer::Absent => {
            spot.at = n;
            Answer::Absent
        }
        Answer::Wrong => Answer::Wrong,
    }
}
