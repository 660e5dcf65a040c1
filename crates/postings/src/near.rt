//! The next number of a sequence that is at least a value, from a position on: by the words after that position where
//! it is near, else by selections. The parts may hold anything, and so may the position.
ghost use Rattle.std.specs.Prelude.{◌≡◌, ◌+◌, ◌-◌, ◌*◌, ◌<◌, ◌≤◌, ◌^◌};
ghost use Rattle.std.specs.Prelude.{◌/◌, ℕ, List, IfSome, length, slice_index, true, false};
ghost use Rattle.bit_lists.specs.Bits.{bits_of, digit_count, IsShort};
ghost use Rattle.bit_lists.specs.Count.{IsFirstOneFrom, Picks};
ghost use Rattle.bitm_tables.specs.Reads.{OnlyReads};
ghost use Rattle.bitm_tables.specs.Tables.{bits_in, HasSizes};
ghost use Rattle.elias_fano.specs.SequenceParts.{parts_with, HasLengths, Holds};
ghost use Rattle.elias_fano.specs.Low.{sharing, HasFragments, ReadsFragments};
ghost use Rattle.postings.specs.Moves.{IfFound, IsFar, IsForward, IsReaching};
ghost use Rattle.postings.specs.Spot.{IsBehind, IsNear, IsSpot, IsUpTo};

use crate::spot::Spot;
use bit_words::words;
use bitm_select::search::record::among;
use bitm_select::search::selecting::total_select_on;
use bitm_tables::answer::Answer;
use bitm_tables::source::TableSource;
use elias_fano::building::{count_at_zero, item_at_one};
use elias_fano::{LowDigits, laws, total_first_at_least_on};

/// What the words near a position say of the first number that is at least a value.
#[derive(Clone, Copy)]
pub(crate) enum Near {
    /// It was found.
    Found(Spot),
    /// Each number is less.
    Ended,
    /// It is not near.
    Far,
}

/// How many numbers are looked at one after another.
const STEPS: usize = 8;

/// How many words are read for the next one.
const WORDS: usize = 2;

/// The first one from `position` on, if it is in the word that has it or in the next.
#[inline(always)]
fn next_one_on<T: TableSource>(source: &mut T, position: usize) -> Option<usize>
    requires { IsShort (T.lists source.old).words }
    ensures first { IfSome result (IsFirstOneFrom (bits_in (T.lists source.old)) position) }
    ensures reads { OnlyReads T.lists T.reads source.old source.new 0 0 2 }
{
    let first = position / 64;
    let mut from = position % 64;
    for k in 0..WORDS {
        if first + k >= source.words_len() {
            return None;
        }
        let word = source.word(first + k);
        if let Some(digit) = words::find_bit_one(&[word], from) {
            return Some((first + k) * 64 + digit);
        }
        from = 0;
    }
    None
}

/// The zero with `zeros` zeros before it, if it is in the eight words from the word of `one` on, where `at` ones stand
/// before the one at `one`, and no more than `zeros` zeros; some zero, or none, where they do not.
#[inline(always)]
fn skip_on<T: TableSource>(source: &mut T, one: usize, at: usize, zeros: usize) -> Option<usize>
    requires short { IsShort (T.lists source.old).words }
    requires inside { one < length (bits_in (T.lists source.old)) }
    ensures zero { Picks (bits_in (T.lists source.old)) true at one → one - at ≤ zeros
        → IfSome result (Picks (bits_in (T.lists source.old)) false zeros) }
    ensures within { IfSome result (λ p. p < length (bits_in (T.lists source.old))) }
    ensures reads { OnlyReads T.lists T.reads source.old source.new 0 0 9 }
{
    let first = one / 64;
    let word = source.word(first);
    let ones = words::count_range(&[word], 0, one % 64);
    let before = (first * 64).saturating_sub(at.saturating_sub(ones));
    let count = (source.words_len() - first).min(8);
    among::<0, T>(source, first, count, zeros.saturating_sub(before))
}

/// The first number that is at least `v` among the next eight from number `at` on, where the ones of the numbers before
/// it, all less than `v`, stand before bit `position`, and no others; some number that is at least `v` where they do
/// not.
#[inline(always)]
fn walk_on<T: TableSource>(
    source: &mut T,
    low: &mut LowDigits<'_>,
    n: usize,
    at: usize,
    position: usize,
    v: u64,
) -> Near
    requires short { IsShort (T.lists source.old).words }
    requires fragments { HasFragments low.old n }
    requires within { at ≤ n }
    ensures near { (xs : List ℕ) → Holds xs (parts_with n low.old (T.lists source.old))
        → IsBehind xs (T.lists source.old).words v at position
        → IsNear xs (T.lists source.old).words v result }
    ensures up_to { IsUpTo n v result }
    ensures reads { OnlyReads T.lists T.reads source.old source.new 0 0 16 }
    ensures fragments { ReadsFragments low.old low.new 8 }
{
    let mut position = position;
    for step in 0..STEPS {
        let at = at + step;
        if at >= n {
            return Near::Ended;
        }
        let one = match next_one_on(&mut *source, position) {
            Some(one) => one,
            None => return Near::Far,
        };
        let number = item_at_one(one, &mut *low, at);
        if number >= v {
            return Near::Found(Spot { at, one, number });
        }
        position = one + 1;
    }
    Near::Far
}

/// The first number that is at least `v`, which is more than the number at `spot`: by zeros of the eight words from its
/// one on, and by eight numbers after these.
#[inline(always)]
pub(crate) fn near_on<T: TableSource>(
    source: &mut T,
    low: &mut LowDigits<'_>,
    n: usize,
    spot: Spot,
    v: u64,
) -> Near
    requires short { IsShort (T.lists source.old).words }
    requires fragments { HasFragments low.old n }
    requires at { spot.at < n }
    requires inside { spot.one < length (bits_in (T.lists source.old)) }
    requires less { spot.number < v }
    ensures near { (xs : List ℕ) → Holds xs (parts_with n low.old (T.lists source.old))
        → IsSpot xs (T.lists source.old).words spot
        → IsNear xs (T.lists source.old).words v result }
    ensures up_to { IsUpTo n v result }
    ensures reads { OnlyReads T.lists T.reads source.old source.new 0 0 25 }
    ensures fragments { ReadsFragments low.old low.new 8 }
{
    let above = (v >> low.width()) as usize;
    if spot.one.saturating_sub(spot.at) >= above {
        return walk_on(source, low, n, spot.at + 1, spot.one + 1, v);
    }
    let Some(zero) = skip_on(source, spot.one, spot.at, above - 1) else {
        return Near::Far;
    };
    let Some(at) = count_at_zero(zero, above - 1, n) else {
        return Near::Far;
    };
    walk_on(source, low, n, at, zero + 1, v)
}

/// The first number that is at least `v`; `Absent` exactly where there is none, if these are the parts of a sequence.
#[inline(never)]
pub(crate) fn far_on<T: TableSource>(
    source: &mut T,
    low: &mut LowDigits<'_>,
    n: usize,
    v: u64,
) -> Answer<Spot>
    requires lengths { HasLengths (parts_with n low.old (T.lists source.old)) }
    requires sized { HasSizes (T.lists source.old) }
    ensures far { (xs : List ℕ) → Holds xs (parts_with n low.old (T.lists source.old))
        → IsFar xs (T.lists source.old).words v result }
    ensures up_to { IfFound result (IsReaching n v) }
    ensures reads { OnlyReads T.lists T.reads source.old source.new
        (3 * (digit_count (length (T.lists source.old).upper) + 1)) (3 * 23) (3 * 8) }
    ensures fragments { ReadsFragments low.old low.new (digit_count n + 1) }
    ensures shared { (xs : List ℕ) → Holds xs (parts_with n low.old (T.lists source.old))
        → ReadsFragments low.old low.new (digit_count (sharing xs low.old.width v) + 1) }
{
    laws::one_for_each_item();
    let at = match total_first_at_least_on(source, low, n, v) {
        Answer::Found(at) => at,
        Answer::Absent => return Answer::Absent,
        Answer::Wrong => return Answer::Wrong,
    };
    let one = match total_select_on::<1, T>(source, at) {
        Answer::Found(one) => one,
        Answer::Absent => return Answer::Wrong,
        Answer::Wrong => return Answer::Wrong,
    };
    let number = item_at_one(one, low, at);
    if number < v {
        return Answer::Wrong;
    }
    Answer::Found(Spot { at, one, number })
}

/// The first number that is at least `v`, which is more than the number at `spot`; `Absent` exactly where there is
/// none, if these are the parts of a sequence.
#[inline(always)]
fn near_or_far_on<T: TableSource>(
    source: &mut T,
    low: &mut LowDigits<'_>,
    n: usize,
    spot: Spot,
    v: u64,
) -> Answer<Spot>
    requires lengths { HasLengths (parts_with n low.old (T.lists source.old)) }
    requires sized { HasSizes (T.lists source.old) }
    requires at { spot.at < n }
    requires inside { spot.one < length (bits_in (T.lists source.old)) }
    requires less { spot.number < v }
    ensures far { (xs : List ℕ) → Holds xs (parts_with n low.old (T.lists source.old))
        → IsSpot xs (T.lists source.old).words spot
        → IsFar xs (T.lists source.old).words v result }
    ensures up_to { IfFound result (IsReaching n v) }
    ensures reads { OnlyReads T.lists T.reads source.old source.new
        (3 * (digit_count (length (T.lists source.old).upper) + 1)) (3 * 23) (25 + 3 * 8) }
    ensures fragments { ReadsFragments low.old low.new (8 + (digit_count n + 1)) }
    ensures shared { (xs : List ℕ) → Holds xs (parts_with n low.old (T.lists source.old))
        → ReadsFragments low.old low.new (8 + (digit_count (sharing xs low.old.width v) + 1)) }
{
    match near_on(source, low, n, spot, v) {
        Near::Found(found) => Answer::Found(found),
        Near::Ended => Answer::Absent,
        Near::Far => far_on(source, low, n, v),
    }
}

/// The first number that is at least `v`, which is more than the number at `spot`; `Absent` exactly where there is
/// none, if these are the parts of a sequence. Whatever they hold, a number that is found has its 1 bit after the 1 bit
/// of `spot`.
///
/// # Cost
/// At most 25 words are read where the number is near (`near_on`); else also what three selections read.
#[inline(always)]
pub(crate) fn seek_on<T: TableSource>(
    source: &mut T,
    low: &mut LowDigits<'_>,
    n: usize,
    spot: Spot,
    v: u64,
) -> Answer<Spot>
    requires lengths { HasLengths (parts_with n low.old (T.lists source.old)) }
    requires sized { HasSizes (T.lists source.old) }
    requires at { spot.at < n }
    requires less { spot.number < v }
    ensures far { (xs : List ℕ) → Holds xs (parts_with n low.old (T.lists source.old))
        → IsSpot xs (T.lists source.old).words spot
        → IsFar xs (T.lists source.old).words v result }
    ensures forward { IfFound result (IsForward n v spot) }
    ensures reads { OnlyReads T.lists T.reads source.old source.new
        (3 * (digit_count (length (T.lists source.old).upper) + 1)) (3 * 23) (25 + 3 * 8) }
    ensures fragments { ReadsFragments low.old low.new (8 + (digit_count n + 1)) }
    ensures shared { (xs : List ℕ) → Holds xs (parts_with n low.old (T.lists source.old))
        → ReadsFragments low.old low.new (8 + (digit_count (sharing xs low.old.width v) + 1)) }
{
    if spot.one / 64 >= source.words_len() {
        return Answer::Wrong;
    }
    match near_or_far_on(source, low, n, spot, v) {
        Answer::Found(found) => {
            if found.one > spot.one {
                Answer::Found(found)
            } else {
                Answer::Wrong
            }
        }
        Answer::Absent => Answer::Absent,
        Answer::Wrong => Answer::Wrong,
    }
}
