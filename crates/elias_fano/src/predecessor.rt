//! The last number that is at most a value, and whether a value is one of the numbers. The parts may hold anything.
ghost use Rattle.std.specs.Prelude.{◌≡◌, ◌+◌, ◌*◌, ◌≤◌, ◌↔◌, ℕ, List, false, IfSome, IsTrue, length, IsSomeAnd};
ghost use Rattle.std.specs.List.{Contains};
ghost use Rattle.bit_lists.specs.Bits.{digit_count};
ghost use Rattle.bitm_tables.specs.Reads.{OnlyReads};
ghost use Rattle.bitm_tables.specs.Tables.{HasSizes};
ghost use Rattle.elias_fano.specs.Answers.{IsIndexIn, IsPredecessorOf};
ghost use Rattle.elias_fano.specs.SequenceParts.{parts_with, HasLengths, Holds};
ghost use Rattle.elias_fano.specs.Low.{sharing, ReadsFragments};
ghost use Rattle.elias_fano.specs.Sequence.{ReachesTo};
ghost use Rattle.elias_fano.specs.Claims.{IfLast, ClaimsAtMost, ClaimsLess};

use crate::finds::FindsEnds;
use crate::low::LowDigits;
use crate::searching::{WITH_TESTS, first_at_least_by, is_in_bucket};
use bitm_tables::answer::Answer;
use bitm_tables::source::TableSource;

/// How many numbers are at most `v`: the numbers before the first that is at least `v + 1`; `None` only where the parts
/// are wrong.
#[inline(always)]
fn count_at_most<T: TableSource, F: FindsEnds<T>>(
    source: &mut T,
    finder: &F,
    low: &mut LowDigits<'_>,
    n: usize,
    v: u64,
) -> Option<usize>
    requires lengths { HasLengths (parts_with n low.old (T.lists source.old)) }
    requires sized { HasSizes (T.lists source.old) }
    ensures within { IfSome result (λ c. c ≤ n) }
    ensures claimed { F.claims → IfSome result
        (ClaimsAtMost (parts_with n low.old (T.lists source.old)) v) }
    ensures reaches { (xs : List ℕ) → Holds xs (parts_with n low.old (T.lists source.old))
        → F.finds finder.now (T.lists source.old) → IsSomeAnd result (ReachesTo xs v) }
    ensures reads { let most = F.most (T.lists source.old) in
        let end = F.most_end (T.lists source.old) in
        OnlyReads T.lists T.reads source.old source.new (most.upper + end.upper)
        (most.lower + end.lower) (most.words + end.words) }
    ensures fragments { ReadsFragments low.old low.new (digit_count n) }
    ensures shared { (xs : List ℕ) → Holds xs (parts_with n low.old (T.lists source.old))
        → F.finds finder.now (T.lists source.old)
        → ReadsFragments low.old low.new (digit_count (sharing xs low.old.width (v + 1))) }
{
    if v == u64::MAX {
        return Some(n);
    }
    match first_at_least_by(source, finder, low, n, v + 1) {
        Answer::Found(position) => Some(position),
        Answer::Absent => Some(n),
        Answer::Wrong => None,
    }
}

/// The greatest index whose number is at most `v` (the predecessor), of the `n` numbers whose parts are the low bits
/// and the source's words, with the ends of a bucket that `finder` finds. All calls for the predecessor are this one.
///
/// # Conditions
/// As of `total_item_on`.
/// # Cost
/// The cost of `first_at_least_by` of `v + 1`, and nothing where `v` is 2^64 - 1.
#[inline(always)]
pub(crate) fn last_at_most_by<T: TableSource, F: FindsEnds<T>>(
    source: &mut T,
    finder: &F,
    low: &mut LowDigits<'_>,
    n: usize,
    v: u64,
) -> Answer<usize>
    requires lengths { HasLengths (parts_with n low.old (T.lists source.old)) }
    requires sized { HasSizes (T.lists source.old) }
    ensures inside { IsIndexIn n result }
    ensures claimed { F.claims
        → IfLast result (ClaimsAtMost (parts_with n low.old (T.lists source.old)) v) }
    ensures answer { (xs : List ℕ) → Holds xs (parts_with n low.old (T.lists source.old))
        → F.finds finder.now (T.lists source.old) → IsPredecessorOf xs v result }
    ensures reads { let most = F.most (T.lists source.old) in
        let end = F.most_end (T.lists source.old) in
        OnlyReads T.lists T.reads source.old source.new (most.upper + end.upper)
        (most.lower + end.lower) (most.words + end.words) }
    ensures fragments { ReadsFragments low.old low.new (digit_count n) }
    ensures shared { (xs : List ℕ) → Holds xs (parts_with n low.old (T.lists source.old))
        → F.finds finder.now (T.lists source.old)
        → ReadsFragments low.old low.new (digit_count (sharing xs low.old.width (v + 1))) }
{
    match count_at_most(source, finder, low, n, v) {
        Some(0) => Answer::Absent,
        Some(count) => Answer::Found(count - 1),
        None => Answer::Wrong,
    }
}

/// The greatest index whose number is at most `v` (the predecessor), of the `n` numbers whose parts are the low bits
/// and the source's words.
///
/// Whatever the parts hold, an index that is found is below `n`, and by the parts (`ClaimsAtMost`) the numbers up to
/// `v` end after it, or at index 0 for `Absent`. Where they form a sequence, with the tables of its upper words, it is
/// the right one, `Absent` is answered exactly where each number is more, and `Wrong` never.
///
/// # Conditions
/// As of `total_item_on`.
/// # Cost
/// The cost of `total_first_at_least_on` of `v + 1`, and nothing where `v` is 2^64 - 1.
pub fn total_last_at_most_on<T: TableSource>(
    source: &mut T,
    low: &mut LowDigits<'_>,
    n: usize,
    v: u64,
) -> Answer<usize>
    requires lengths { HasLengths (parts_with n low.old (T.lists source.old)) }
    requires sized { HasSizes (T.lists source.old) }
    ensures inside { IsIndexIn n result }
    ensures claimed { IfLast result (ClaimsAtMost (parts_with n low.old (T.lists source.old)) v) }
    ensures answer { (xs : List ℕ) → Holds xs (parts_with n low.old (T.lists source.old))
        → IsPredecessorOf xs v result }
    ensures reads { OnlyReads T.lists T.reads source.old source.new
        (2 * (digit_count (length (T.lists source.old).upper) + 1)) (2 * 23) (2 * 8) }
    ensures fragments { ReadsFragments low.old low.new (digit_count n) }
    ensures shared { (xs : List ℕ) → Holds xs (parts_with n low.old (T.lists source.old))
        → ReadsFragments low.old low.new (digit_count (sharing xs low.old.width (v + 1))) }
{
    last_at_most_by(source, &WITH_TESTS, low, n, v)
}

/// Whether `v` is one of the `n` numbers whose parts are the low bits and the source's words, with the ends of the
/// bucket of `v` that `finder` finds. All calls for membership are this one.
///
/// # Conditions
/// As of `total_item_on`.
/// # Cost
/// The start of the bucket, and its end where a number starts there or later; then at most one fragment of the low bits
/// for each binary digit of how many numbers share the high bits of `v`, and one more; in parts that form no sequence,
/// for each binary digit of `n`.
#[inline(always)]
pub(crate) fn contains_by<T: TableSource, F: FindsEnds<T>>(
    source: &mut T,
    finder: &F,
    low: &mut LowDigits<'_>,
    n: usize,
    v: u64,
) -> Option<bool>
    requires lengths { HasLengths (parts_with n low.old (T.lists source.old)) }
    requires sized { HasSizes (T.lists source.old) }
    ensures answer { (xs : List ℕ) → Holds xs (parts_with n low.old (T.lists source.old))
        → F.finds finder.now (T.lists source.old)
        → IsSomeAnd result (λ is. IsTrue is ↔ Contains xs v) }
    ensures claimed { F.claims → IfSome result (λ is. (p : ℕ)
        × ClaimsLess (parts_with n low.old (T.lists source.old)) v p × (p ≡ n → is ≡ false)) }
    ensures reads { let most = F.most (T.lists source.old) in
        let end = F.most_end (T.lists source.old) in
        OnlyReads T.lists T.reads source.old source.new (most.upper + end.upper)
        (most.lower + end.lower) (most.words + end.words) }
    ensures fragments { ReadsFragments low.old low.new (digit_count n + 1) }
    ensures shared { (xs : List ℕ) → Holds xs (parts_with n low.old (T.lists source.old))
        → F.finds finder.now (T.lists source.old)
        → ReadsFragments low.old low.new (digit_count (sharing xs low.old.width v) + 1) }
{
    let above = (v >> low.width()) as usize;
    match finder.begin(source, n, above) {
        Answer::Found(begin) => match finder.end(source, n, above, begin) {
            Some(end) => is_in_bucket(low, begin.wrapping_sub(above), end, v),
            None => None,
        },
        Answer::Absent => Some(false),
        Answer::Wrong => None,
    }
}

/// Whether `v` is one of the `n` numbers whose parts are the low bits and the source's words.
///
/// `None` is answered only where the parts do not form a sequence with the tables of its upper words; with any other
/// answer it is by the parts (`ClaimsLess`) where the numbers less than `v` end, and it is false where that is at `n`.
///
/// # Conditions
/// As of `total_item_on`.
/// # Cost
/// Two selections of 0 bits in the source: at most twice as many upper entries as their number has binary digits and
/// one more, 46 lower entries and 16 words, whatever the parts hold. Then at most one fragment of the low bits for each
/// binary digit of how many numbers share the high bits of `v`, and one more; in parts that form no sequence, for each
/// binary digit of `n`.
pub fn total_contains_on<T: TableSource>(
    source: &mut T,
    low: &mut LowDigits<'_>,
    n: usize,
    v: u64,
) -> Option<bool>
    requires lengths { HasLengths (parts_with n low.old (T.lists source.old)) }
    requires sized { HasSizes (T.lists source.old) }
    ensures answer { (xs : List ℕ) → Holds xs (parts_with n low.old (T.lists source.old))
        → IsSomeAnd result (λ is. IsTrue is ↔ Contains xs v) }
    ensures claimed { IfSome result (λ is. (p : ℕ)
        × ClaimsLess (parts_with n low.old (T.lists source.old)) v p × (p ≡ n → is ≡ false)) }
    ensures reads { OnlyReads T.lists T.reads source.old source.new
        (2 * (digit_count (length (T.lists source.old).upper) + 1)) (2 * 23) (2 * 8) }
    ensures fragments { ReadsFragments low.old low.new (digit_count n + 1) }
    ensures shared { (xs : List ℕ) → Holds xs (parts_with n low.old (T.lists source.old))
        → ReadsFragments low.old low.new (digit_count (sharing xs low.old.width v) + 1) }
{
    contains_by(source, &WITH_TESTS, low, n, v)
}
