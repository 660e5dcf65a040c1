//! Reads of a sequence from its parts, and the search for the first number that reaches a value. The parts may hold
//! anything: the calls on a sequence's own parts are the calls on any parts.
ghost use Rattle.std.specs.Prelude.{◌≡◌, ◌+◌, ◌-◌, ◌*◌, ◌/◌, ◌%◌, ◌^◌, ◌<◌, ◌≤◌, ℕ, List, IsSomeAnd};
ghost use Rattle.std.specs.Prelude.{length, slice_index, false, IfSome, IsTrue, ◌↔◌};
ghost use Rattle.std.specs.List.{Contains};
ghost use Rattle.bit_lists.specs.Bits.{bits_of, digit_count};
ghost use Rattle.bit_lists.specs.Count.{Picks};
ghost use Rattle.bitm_tables.specs.Reads.{OnlyReads, ReadsAtMost};
ghost use Rattle.bitm_tables.specs.Tables.{HasSizes};
ghost use Rattle.bitm_tables.specs.Entry.{less};
ghost use Rattle.elias_fano.specs.Answers.{IsItem, IsOfIndex, IsIndexIn, IsSuccessorOf};
ghost use Rattle.elias_fano.specs.Buckets.{CountsBelow, CountsTo, HasEnds, LowsRise, Splits};
ghost use Rattle.elias_fano.specs.SequenceParts.{parts_with, HasLengths, Holds};
ghost use Rattle.elias_fano.specs.Low.{fragment, joined_item, sharing, HasFragments, ReadsFragments};
ghost use Rattle.elias_fano.specs.Parts.{ArePartsOf, HasFragment, HasOneAt, IsUpper};
ghost use Rattle.elias_fano.specs.Claims.{IfIndex, PartsAt, ClaimsLess};

use crate::finds::{BySearch, FindsEnds, FindsOne};
use crate::low::LowDigits;
use bit_words::n_lowest_bits;
use bitm_tables::answer::Answer;
use bitm_tables::source::TableSource;

/// By searches in the tables, with tests of what right tables have.
pub(crate) const WITH_TESTS: BySearch<1> = BySearch;

/// The number whose part above its low bits is `above`: the low bits are fragment `at`.
///
/// # Conditions
/// There is such a fragment. Where the number is 2^64 or more, the answer is any.
/// # Cost
/// At most one fragment of the low bits is read.
#[inline(always)]
pub fn join_digits(above: usize, low: &mut LowDigits<'_>, at: usize) -> u64
    requires { HasFragment low.old.words at low.old.width }
    ensures number { joined_item above low.old at < 2 ^ 64 → result ≡ joined_item above low.old at }
    ensures fragments { ReadsFragments low.old low.new 1 }
{
    let width = low.width();
    if width == 0 {
        return above as u64;
    }
    ((above as u64) << width).wrapping_add(low.fragment(at))
}

/// Number `at` of a sequence, whose 1 bit in the upper vector is at `position`: as many 0 bits are before that position
/// as the number says above its low bits.
///
/// # Conditions
/// There is fragment `at`, in words that may hold anything. Where they are not the low words of a sequence, or the
/// number's 1 bit is at another position, the answer is any.
/// # Cost
/// At most one fragment of the low bits is read.
#[inline(always)]
pub fn item_at_one(position: usize, low: &mut LowDigits<'_>, at: usize) -> u64
    requires { HasFragment low.old.words at low.old.width }
    ensures item { (xs : List ℕ) (n : ℕ) (upper : List ℕ)
        → HasOneAt xs n low.old.width low.old.words upper at position → result ≡ slice_index xs at }
    ensures fragments { ReadsFragments low.old low.new 1 }
{
    join_digits(position.wrapping_sub(at), low, at)
}

/// Number `at` of the `n` numbers whose parts are the low bits and the source's words, with the 1 bit that `finder`
/// finds. All calls for a number are this one.
///
/// # Conditions
/// As of `total_item_on`.
/// # Cost
/// The 1 bit of the number, and at most one fragment of the low bits.
#[inline(always)]
pub(crate) fn item_by<T: TableSource, F: FindsOne<T>>(
    source: &mut T,
    finder: &F,
    low: &mut LowDigits<'_>,
    n: usize,
    at: usize,
) -> Answer<u64>
    requires lengths { HasLengths (parts_with n low.old (T.lists source.old)) }
    requires sized { HasSizes (T.lists source.old) }
    ensures inside { IsOfIndex n at result }
    ensures answer { (xs : List ℕ) → Holds xs (parts_with n low.old (T.lists source.old))
        → F.finds finder.now (T.lists source.old) → IsItem xs at result }
    ensures reads { let most = F.most (T.lists source.old) in
        OnlyReads T.lists T.reads source.old source.new most.upper most.lower most.words }
    ensures fragments { ReadsFragments low.old low.new 1 }
{
    if at >= n {
        return Answer::Absent;
    }
    match finder.one(source, at) {
        Answer::Found(position) => Answer::Found(item_at_one(position, low, at)),
        Answer::Absent => Answer::Wrong,
        Answer::Wrong => Answer::Wrong,
    }
}

/// Number `at` of the `n` numbers whose parts are the low bits and the source's words.
///
/// Whatever the parts hold, `Absent` is answered exactly where there is no such number. Where they form a sequence,
/// with the tables of its upper words, the number is the right one, and `Wrong` is never answered.
///
/// # Conditions
/// There are fewer than 2^56 numbers and at most 63 low bits, and as many low words as these take; there are fewer than
/// 2^58 words, and the tables have the right lengths. They may hold anything.
/// # Cost
/// One selection in the source, and one fragment of the low bits: at most as many upper entries as their number has
/// binary digits and one more, 23 lower entries and eight words, whatever the parts hold.
#[inline(always)]
pub fn total_item_on<T: TableSource>(
    source: &mut T,
    low: &mut LowDigits<'_>,
    n: usize,
    at: usize,
) -> Answer<u64>
    requires lengths { HasLengths (parts_with n low.old (T.lists source.old)) }
    requires sized { HasSizes (T.lists source.old) }
    ensures inside { IsOfIndex n at result }
    ensures answer { (xs : List ℕ) → Holds xs (parts_with n low.old (T.lists source.old))
        → IsItem xs at result }
    ensures reads { OnlyReads T.lists T.reads source.old source.new
        (digit_count (length (T.lists source.old).upper) + 1) 23 8 }
    ensures fragments { ReadsFragments low.old low.new 1 }
{
    item_by(source, &WITH_TESTS, low, n, at)
}

/// How many items have a number at most `above` above their low bits, where the 0 bit of that number stands at
/// `position`; `None` only where it does not.
#[inline(always)]
pub fn count_at_zero(position: usize, above: usize, n: usize) -> Option<usize>
    ensures within { IfSome result (λ c. c ≤ n) }
    ensures is { IfSome result (λ c. c ≡ less position above) }
    ensures count { (xs : List ℕ) (l : ℕ) (upper : List ℕ) → IsUpper xs l upper → n ≡ length xs
        → Picks (bits_of upper) false above position → IsSomeAnd result (CountsTo xs l above) }
{
    let count = position.wrapping_sub(above);
    if count <= n { Some(count) } else { None }
}

/// The least index from `first` up to `end` whose low bits are at least `rest`, and `end` where there is none; `first`
/// where there are no low bits.
///
/// # Conditions
/// The two indices are in order, and there are fragments up to `end`, in words that may hold anything. Where the low
/// bits fall somewhere in that range, the answer is any index of it, or `end`.
/// # Cost
/// At most one fragment for each binary digit of how many indices there are, and none where there are no low bits.
#[inline]
fn split_low(low: &mut LowDigits<'_>, first: usize, end: usize, rest: u64) -> usize
    requires some { HasFragments low.old end }
    requires order { first ≤ end }
    requires fits { rest < 2 ^ low.old.width }
    ensures claimed { PartsAt (fragment low.old) low.old.width first end rest result }
    ensures splits { LowsRise low.old first end → Splits (fragment low.old) first end rest result }
    ensures none { low.old.width ≡ 0 → low.new ≡ low.old }
    ensures fragments { ReadsFragments low.old low.new (digit_count (end - first)) }
{
    if low.width() == 0 {
        return first;
    }
    let mut from = first;
    let mut left = end - first;
    while left > 0 {
        let half = left / 2;
        if low.fragment(from + half) < rest {
            from += half + 1;
            left -= half + 1;
        } else {
            left = half;
        }
    }
    from
}

/// The low bits of `v`: the same number of bits as each number has.
#[inline(always)]
fn low_part(low: &LowDigits<'_>, v: u64) -> u64
    requires { low.now.width ≤ 63 }
    ensures { result ≡ v % 2 ^ low.now.width }
{
    v & n_lowest_bits(low.width())
}

/// The least index whose number is at least `v` (the successor), of `n` numbers, where the numbers from `first` up to
/// `end` have the high bits of `v`; where there are no low bits `end` is not looked at.
///
/// Whatever the parts hold, and whatever these two indices are, an index that is found is below `n`, and low bits part
/// there, or at `n` for `Absent` (`PartsAt`).
///
/// # Conditions
/// There are fewer than 2^56 numbers and at most 63 low bits, and as many fragments as numbers; `end` is at most `n`.
/// # Cost
/// At most one fragment for each binary digit of how many numbers share the high bits of `v`; in parts that form no
/// sequence, for each binary digit of `n`.
#[inline(always)]
pub fn index_in_bucket(
    low: &mut LowDigits<'_>,
    n: usize,
    first: usize,
    end: usize,
    v: u64,
) -> Answer<usize>
    requires some { HasFragments low.old n }
    requires end { end ≤ n }
    ensures inside { IsIndexIn n result }
    ensures claimed { let w = low.old.width in IfIndex n result
        (PartsAt (fragment low.old) w first end (v % 2 ^ w)) }
    ensures answer { (xs upper : List ℕ) → ArePartsOf xs n low.old.width low.old.words upper
        → HasEnds xs low.old.width v first end → IsSuccessorOf xs v result }
    ensures fragments { ReadsFragments low.old low.new (digit_count n) }
    ensures shared { (xs upper : List ℕ) → ArePartsOf xs n low.old.width low.old.words upper
        → HasEnds xs low.old.width v first end
        → ReadsFragments low.old low.new (digit_count (sharing xs low.old.width v)) }
{
    if end < first {
        return Answer::Wrong;
    }
    let rest = low_part(low, v);
    let position = split_low(low, first, end, rest);
    if position < n {
        Answer::Found(position)
    } else {
        Answer::Absent
    }
}

/// Whether one of the numbers from `first` up to `end`, which are the numbers with the high bits of `v`, is `v`; `None`
/// where these two indices are not in order.
///
/// Whatever the parts hold, low bits part at some index (`PartsAt`), and the answer is false where that is `end`.
///
/// # Conditions
/// There are fewer than 2^56 numbers and at most 63 low bits, and as many fragments as numbers up to `end`.
/// # Cost
/// At most one fragment for each binary digit of how many numbers there are between the two, and one more; none where
/// there are no low bits.
#[inline(always)]
pub(crate) fn is_in_bucket(
    low: &mut LowDigits<'_>,
    first: usize,
    end: usize,
    v: u64,
) -> Option<bool>
    requires { HasFragments low.old end }
    ensures claimed { let w = low.old.width in IfSome result (λ is. (p : ℕ)
        × PartsAt (fragment low.old) w first end (v % 2 ^ w) p × (p ≡ end → is ≡ false)) }
    ensures answer { (xs : List ℕ) (n : ℕ) (upper : List ℕ)
        → ArePartsOf xs n low.old.width low.old.words upper
        → CountsBelow xs low.old.width (v / 2 ^ low.old.width) first
        → CountsTo xs low.old.width (v / 2 ^ low.old.width) end
        → IsSomeAnd result (λ is. IsTrue is ↔ Contains xs v) }
    ensures fragments { ReadsFragments low.old low.new (digit_count (end - first) + 1) }
{
    if end < first {
        return None;
    }
    let sought = low_part(low, v);
    let position = split_low(low, first, end, sought);
    if position == end {
        return Some(false);
    }
    Some(low.width() == 0 || low.fragment(position) == sought)
}

/// The least index whose number is at least `v` (the successor), of the `n` numbers whose parts are the low bits and
/// the source's words, with the ends of the bucket of `v` that `finder` finds. All calls for the successor are this
/// one.
///
/// # Conditions
/// As of `total_item_on`.
/// # Cost
/// The start of the bucket, and its end where numbers have low bits and one starts there or later; then at most one
/// fragment of the low bits for each binary digit of how many numbers share the high bits of `v`; in parts that form no
/// sequence, for each binary digit of `n`.
#[inline(always)]
pub(crate) fn first_at_least_by<T: TableSource, F: FindsEnds<T>>(
    source: &mut T,
    finder: &F,
    low: &mut LowDigits<'_>,
    n: usize,
    v: u64,
) -> Answer<usize>
    requires lengths { HasLengths (parts_with n low.old (T.lists source.old)) }
    requires sized { HasSizes (T.lists source.old) }
    ensures inside { IsIndexIn n result }
    ensures claimed { F.claims
        → IfIndex n result (ClaimsLess (parts_with n low.old (T.lists source.old)) v) }
    ensures answer { (xs : List ℕ) → Holds xs (parts_with n low.old (T.lists source.old))
        → F.finds finder.now (T.lists source.old) → IsSuccessorOf xs v result }
    ensures reads { let most = F.most (T.lists source.old) in
        let end = F.most_end (T.lists source.old) in
        OnlyReads T.lists T.reads source.old source.new (most.upper + end.upper)
        (most.lower + end.lower) (most.words + end.words) }
    ensures few { let most = F.most (T.lists source.old) in F.spares → n ≤ 1
        → ReadsAtMost (T.reads source.old) (T.reads source.new) (n * most.upper)
        (n * most.lower) (n * most.words) }
    ensures fragments { ReadsFragments low.old low.new (digit_count n) }
    ensures shared { (xs : List ℕ) → Holds xs (parts_with n low.old (T.lists source.old))
        → F.finds finder.now (T.lists source.old)
        → ReadsFragments low.old low.new (digit_count (sharing xs low.old.width v)) }
{
    let width = low.width();
    let above = (v >> width) as usize;
    let begin = match finder.begin(source, n, above) {
        Answer::Found(begin) => begin,
        Answer::Absent => return Answer::Absent,
        Answer::Wrong => return Answer::Wrong,
    };
    let first = begin.wrapping_sub(above);
    if width == 0 {
        return index_in_bucket(low, n, first, n, v);
    }
    match finder.end(source, n, above, begin) {
        Some(end) => index_in_bucket(low, n, first, end, v),
        None => Answer::Wrong,
    }
}

/// The least index whose number is at least `v` (the successor), of the `n` numbers whose parts are the low bits and
/// the source's words.
///
/// Whatever the parts hold, an index that is found is below `n`, and by the parts (`ClaimsLess`) the numbers less than
/// `v` end there, or at `n` for `Absent`. Where they form a sequence, with the tables of its upper words, it is the
/// right one, `Absent` is answered exactly where each number is less, and `Wrong` never.
///
/// # Conditions
/// As of `total_item_on`.
/// # Cost
/// Two selections of 0 bits in the source, and one where numbers have no low bits: at most twice as many upper entries
/// as their number has binary digits and one more, 46 lower entries and 16 words, whatever the parts hold. Then at most
/// one fragment of the low bits for each binary digit of how many numbers share the high bits of `v`; in parts that
/// form no sequence, for each binary digit of `n`.
pub fn total_first_at_least_on<T: TableSource>(
    source: &mut T,
    low: &mut LowDigits<'_>,
    n: usize,
    v: u64,
) -> Answer<usize>
    requires lengths { HasLengths (parts_with n low.old (T.lists source.old)) }
    requires sized { HasSizes (T.lists source.old) }
    ensures inside { IsIndexIn n result }
    ensures claimed { IfIndex n result (ClaimsLess (parts_with n low.old (T.lists source.old)) v) }
    ensures answer { (xs : List ℕ) → Holds xs (parts_with n low.old (T.lists source.old))
        → IsSuccessorOf xs v result }
    ensures reads { OnlyReads T.lists T.reads source.old source.new
        (2 * (digit_count (length (T.lists source.old).upper) + 1)) (2 * 23) (2 * 8) }
    ensures fragments { ReadsFragments low.old low.new (digit_count n) }
    ensures shared { (xs : List ℕ) → Holds xs (parts_with n low.old (T.lists source.old))
        → ReadsFragments low.old low.new (digit_count (sharing xs low.old.width v)) }
{
    first_at_least_by(source, &WITH_TESTS, low, n, v)
}
