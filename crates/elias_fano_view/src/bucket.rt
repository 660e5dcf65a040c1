//! The successor of a value, from the ends of its bucket, which lists of selections code. The bucket is the numbers
//! with the high bits of the value.
ghost use Rattle.std.specs.Prelude.{◌≡◌, ◌-◌, ◌/◌, ◌^◌, ◌<◌, ◌≤◌, ℕ, List, length, slice_index, false, IsSomeAnd};
ghost use Rattle.std.specs.Prelude.{IfSome};
ghost use Rattle.bitm_select.specs.Answers.{IsSelectCode};
ghost use Rattle.bit_lists.specs.Bits.{digit_count, IsShort};
ghost use Rattle.bitm_tables.specs.Tables.{HasTables, Lists};
ghost use Rattle.elias_fano.specs.Buckets.{CountsTo, CountsBelow};
ghost use Rattle.elias_fano.specs.Parts.{IsUpper};
ghost use Rattle.elias_fano.specs.Answers.{IsIndexIn, IsSuccessorOf};
ghost use Rattle.elias_fano.specs.SequenceParts.{parts_with, Holds};
ghost use Rattle.elias_fano_view.specs.Lists.{AreEndCodes};
ghost use Rattle.elias_fano.specs.Low.{sharing, HasFragments, ReadsFragments};
ghost use Rattle.elias_fano.specs.Claims.{IfIndex, ClaimsBelow, ClaimsLess, ClaimsTo};

use bitm_select::search::selected::{NO_ANSWER, WRONG_TABLES};
use bitm_tables::answer::Answer;
use elias_fano::LowDigits;
use elias_fano::building::{count_at_zero, index_in_bucket};

/// Writes the high bits of each value less `less`, or 0 where that is negative.
#[inline(always)]
pub(crate) fn rank_each(values: &[u64], width: u8, less: usize, ranks: &mut [usize])
    requires width { width ≤ 63 }
    requires room { length values.now ≤ length ranks.old }
    ensures ranks { (j : ℕ) → j < length values.now
        → slice_index ranks.new j ≡ slice_index values.now j / 2 ^ width - less }
    ensures room { length ranks.new ≡ length ranks.old }
{
    for k in 0..values.len() {
        ranks[k] = ((values[k] >> width) as usize).saturating_sub(less);
    }
}

/// The number of items whose high bits are at most `above`, from the code `code` of the 0 bit that ends their
/// bucket; `None` only where the parts are wrong.
#[inline(always)]
fn count_to(code: usize, above: usize, n: usize) -> Option<usize>
    ensures within { IfSome result (λ c. c ≤ n) }
    ensures claimed { (upper : Lists) → IsSelectCode false upper above code
        → IfSome result (ClaimsTo upper n above) }
    ensures count { (xs : List ℕ) (l : ℕ) (upper : Lists) → IsUpper xs l upper.words
        → HasTables upper → IsShort upper.words → n ≡ length xs → IsSelectCode false upper above code
        → IsSomeAnd result (CountsTo xs l above) }
{
    if code == NO_ANSWER {
        return Some(n);
    }
    if code == WRONG_TABLES {
        return None;
    }
    count_at_zero(code, above, n)
}

/// The number of items whose high bits are less than `above`, as `count_to` finds it.
#[inline(always)]
fn count_below(code: usize, above: usize, n: usize) -> Option<usize>
    ensures within { IfSome result (λ c. c ≤ n) }
    ensures claimed { (upper : Lists) → (0 < above → IsSelectCode false upper (above - 1) code)
        → IfSome result (ClaimsBelow upper n above) }
    ensures count { (xs : List ℕ) (l : ℕ) (upper : Lists) → IsUpper xs l upper.words
        → HasTables upper → IsShort upper.words → n ≡ length xs
        → (0 < above → IsSelectCode false upper (above - 1) code)
        → IsSomeAnd result (CountsBelow xs l above) }
{
    if above == 0 {
        return Some(0);
    }
    count_to(code, above - 1, n)
}

/// The successor of `v` among `n` numbers: the least index whose number is at least `v`. `begin` and `end` code the 0
/// bits at the ends of its bucket. Reads the low bits of as many numbers as `index_in_bucket` does.
#[inline(always)]
pub(crate) fn index_of(
    low: &mut LowDigits<'_>,
    n: usize,
    v: u64,
    begin: usize,
    end: usize,
) -> Answer<usize>
    requires { HasFragments low.old n }
    ensures inside { IsIndexIn n result }
    ensures claimed { (upper : Lists) → AreEndCodes (parts_with n low.old upper) v begin end
        → IfIndex n result (ClaimsLess (parts_with n low.old upper) v) }
    ensures answer { (xs : List ℕ) (upper : Lists) → Holds xs (parts_with n low.old upper)
        → AreEndCodes (parts_with n low.old upper) v begin end → IsSuccessorOf xs v result }
    ensures fragments { ReadsFragments low.old low.new (digit_count n) }
    ensures shared { (xs : List ℕ) (upper : Lists) → Holds xs (parts_with n low.old upper)
        → AreEndCodes (parts_with n low.old upper) v begin end
        → ReadsFragments low.old low.new (digit_count (sharing xs low.old.width v)) }
{
    let width = low.width();
    let above = (v >> width) as usize;
    let Some(first) = count_below(begin, above, n) else {
        return Answer::Wrong;
    };
    if width == 0 {
        return index_in_bucket(low, n, first, n, v);
    }
    let Some(last) = count_to(end, above, n) else {
        return Answer::Wrong;
    };
    index_in_bucket(low, n, first, last, v)
}
