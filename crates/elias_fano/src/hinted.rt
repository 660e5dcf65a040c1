//! Calls on parts that may hold anything, which select by hints of the words of the high bits.
ghost use Rattle.std.specs.Prelude.{◌≡◌, ◌+◌, ◌*◌, ◌↔◌, ⊤, ℕ, List, true, false, IfSome, IsTrue, length, IsSomeAnd};
ghost use Rattle.std.specs.List.{Contains};
ghost use Rattle.bit_lists.specs.Bits.{digit_count};
ghost use Rattle.bitm_select.specs.Answers.{HasBit, IsSelected};
ghost use Rattle.bitm_select.specs.Claims.{ClaimsNone};
ghost use Rattle.bitm_selection.specs.Hints.{AreHints};
ghost use Rattle.bitm_tables.specs.Answers.{IfAbsent};
ghost use Rattle.bitm_tables.specs.Reads.{OnlyReads};
ghost use Rattle.bitm_tables.specs.Tables.{bits_in, HasSizes, HasTables};
ghost use Rattle.elias_fano.specs.Answers.{IsItem, IsOfIndex, IsIndexIn, IsPredecessorOf, IsSuccessorOf};
ghost use Rattle.elias_fano.specs.Ends.{searched};
ghost use Rattle.elias_fano.specs.SequenceParts.{parts_with, with_hints, HasLengths, Holds};
ghost use Rattle.elias_fano.specs.Low.{sharing, ReadsFragments};
ghost use Rattle.elias_fano.specs.Claims.{IfLast, IfIndex, ClaimsAtMost, ClaimsLess};

use crate::finds::{FindsEnds, FindsOne, NEAR, begin_behind, count_to};
use crate::low::LowDigits;
use crate::predecessor::{contains_by, last_at_most_by};
use crate::searching::{count_at_zero, first_at_least_by, item_by};
use bitm::near_zero_on;
use bitm_selection::{Hints, hinted_select_on};
use bitm_tables::answer::Answer;
use bitm_tables::source::TableSource;

/// The position of the 0 bit with `rank` 0 bits before it, as `hinted_select_on` finds it, out of the way of the search
/// in the words from the start of a bucket, after which it is seldom needed.
#[inline(never)]
fn hinted_zero_on<T: TableSource>(source: &mut T, hints: &[u64], rank: usize) -> Answer<usize>
    requires { HasSizes (T.lists source.old) }
    ensures bit { HasBit (bits_in (T.lists source.old)) false result }
    ensures answer { HasTables (T.lists source.old)
        → AreHints false (T.lists source.old).words hints.now
        → IsSelected (bits_in (T.lists source.old)) false rank result }
    ensures none { IfAbsent result (ClaimsNone false (T.lists source.old) rank) }
    ensures reads { OnlyReads T.lists T.reads source.old source.new
        (digit_count (length (T.lists source.old).upper) + 1) 23 17 }
{
    hinted_select_on::<0, T>(source, hints, rank)
}

/// By hints of the words: the start of a bucket by the hints of the 0 bits, and the end in the next eight words, or,
/// where it is not in these, by the hints too. Where a hint leads to no bit, the tables decide.
#[derive(Drop)]
struct ByHints<'a> {
    hints: Hints<'a>,
}

impl<'a, T: TableSource> FindsOne<T> for ByHints<'a> {
    ghost finds = { λ by lists. AreHints true lists.words by.hints.ones.now };

    ghost most = { searched 23 17 };

    #[inline(always)]
    fn one(&self, source: &mut T, rank: usize) -> Answer<usize> {
        hinted_select_on::<1, T>(source, self.hints.ones, rank)
    }
}

impl<'a, T: TableSource> FindsEnds<T> for ByHints<'a> {
    ghost finds = { λ by lists. AreHints false lists.words by.hints.zeros.now };

    ghost claims = { ⊤ };

    ghost spares = { ⊥ };

    ghost most = { searched 23 17 };

    ghost most_end = { searched 23 25 };

    #[inline(always)]
    fn begin(&self, source: &mut T, _n: usize, above: usize) -> Answer<usize> {
        if above == 0 {
            return Answer::Found(0);
        }
        begin_behind(hinted_select_on::<0, T>(source, self.hints.zeros, above - 1))
    }

    #[inline(always)]
    fn end(&self, source: &mut T, n: usize, above: usize, begin: usize) -> Option<usize> {
        match near_zero_on::<NEAR, T>(source, begin) {
            Some(zero) => count_at_zero(zero, above, n),
            None => count_to(hinted_zero_on(source, self.hints.zeros, above), n, above),
        }
    }
}

/// `total_item_on`, with hints of the words of the high bits.
///
/// Where the parts form a sequence, with the tables and hints of its upper words, the number is the right one, and
/// `Wrong` is never answered. With an empty list of hints it is `total_item_on`.
///
/// # Conditions
/// The conditions of `total_item_on`; the list of hints is empty, or as long as `hints_len` of `bitm_selection` says.
/// It may hold anything.
/// # Cost
/// One selection in the source, and one fragment of the low bits: one hint and nine words, and where the bit is not in
/// the eight words after its hint, what `total_item_on` reads besides.
///
/// ```
/// hinted_item_on(&mut source, &hints, &mut low, 7, 4);   // Found(11) of 2, 3, 5, 7, 11, 13, 24
/// ```
pub fn hinted_item_on<T: TableSource>(
    source: &mut T,
    hints: &[u64],
    low: &mut LowDigits<'_>,
    n: usize,
    at: usize,
) -> Answer<u64>
    requires lengths { HasLengths (with_hints hints.now (parts_with n low.old (T.lists source.old))) }
    requires sized { HasSizes (T.lists source.old) }
    ensures inside { IsOfIndex n at result }
    ensures answer { (xs : List ℕ)
        → Holds xs (with_hints hints.now (parts_with n low.old (T.lists source.old)))
        → IsItem xs at result }
    ensures reads { OnlyReads T.lists T.reads source.old source.new
        (digit_count (length (T.lists source.old).upper) + 1) 23 17 }
    ensures fragments { ReadsFragments low.old low.new 1 }
{
    let hints = Hints::over(hints, n);
    item_by(source, &ByHints { hints }, low, n, at)
}

/// `total_first_at_least_on`, with hints of the words of the high bits.
///
/// Where the parts form a sequence, with the tables and hints of its upper words, the index is the right one, `Absent`
/// is answered exactly where each number is less, and `Wrong` never.
///
/// # Conditions
/// As of `hinted_item_on`.
/// # Cost
/// One selection of a 0 bit by a hint, then at most eight words, or, where the numbers that share the high bits of `v`
/// do not end in these, a second selection: at most twice as many upper entries as their number has binary digits and
/// one more, 46 lower entries and 42 words, whatever the parts hold. The fragments of low bits are as for
/// `total_first_at_least_on`.
///
/// ```
/// hinted_first_at_least_on(&mut source, &hints, &mut low, 7, 8);   // Found(4) of 2, 3, 5, 7, 11, 13, 24
/// ```
pub fn hinted_first_at_least_on<T: TableSource>(
    source: &mut T,
    hints: &[u64],
    low: &mut LowDigits<'_>,
    n: usize,
    v: u64,
) -> Answer<usize>
    requires lengths { HasLengths (with_hints hints.now (parts_with n low.old (T.lists source.old))) }
    requires sized { HasSizes (T.lists source.old) }
    ensures inside { IsIndexIn n result }
    ensures claimed { IfIndex n result (ClaimsLess (parts_with n low.old (T.lists source.old)) v) }
    ensures answer { (xs : List ℕ)
        → Holds xs (with_hints hints.now (parts_with n low.old (T.lists source.old)))
        → IsSuccessorOf xs v result }
    ensures reads { OnlyReads T.lists T.reads source.old source.new
        (2 * (digit_count (length (T.lists source.old).upper) + 1)) (2 * 23) 42 }
    ensures fragments { ReadsFragments low.old low.new (digit_count n) }
    ensures shared { (xs : List ℕ)
        → Holds xs (with_hints hints.now (parts_with n low.old (T.lists source.old)))
        → ReadsFragments low.old low.new (digit_count (sharing xs low.old.width v)) }
{
    let hints = Hints::over(hints, n);
    first_at_least_by(source, &ByHints { hints }, low, n, v)
}

/// `total_last_at_most_on`, with hints of the words of the high bits.
///
/// Where the parts form a sequence, with the tables and hints of its upper words, the index is the right one, `Absent`
/// is answered exactly where each number is more, and `Wrong` never.
///
/// # Conditions
/// As of `hinted_item_on`.
/// # Cost
/// The cost of `hinted_first_at_least_on` of `v + 1`, and nothing where `v` is 2^64 - 1.
///
/// ```
/// hinted_last_at_most_on(&mut source, &hints, &mut low, 7, 8);   // Found(3) of 2, 3, 5, 7, 11, 13, 24
/// ```
pub fn hinted_last_at_most_on<T: TableSource>(
    source: &mut T,
    hints: &[u64],
    low: &mut LowDigits<'_>,
    n: usize,
    v: u64,
) -> Answer<usize>
    requires lengths { HasLengths (with_hints hints.now (parts_with n low.old (T.lists source.old))) }
    requires sized { HasSizes (T.lists source.old) }
    ensures inside { IsIndexIn n result }
    ensures claimed { IfLast result (ClaimsAtMost (parts_with n low.old (T.lists source.old)) v) }
    ensures answer { (xs : List ℕ)
        → Holds xs (with_hints hints.now (parts_with n low.old (T.lists source.old)))
        → IsPredecessorOf xs v result }
    ensures reads { OnlyReads T.lists T.reads source.old source.new
        (2 * (digit_count (length (T.lists source.old).upper) + 1)) (2 * 23) 42 }
    ensures fragments { ReadsFragments low.old low.new (digit_count n) }
    ensures shared { (xs : List ℕ)
        → Holds xs (with_hints hints.now (parts_with n low.old (T.lists source.old)))
        → ReadsFragments low.old low.new (digit_count (sharing xs low.old.width (v + 1))) }
{
    let hints = Hints::over(hints, n);
    last_at_most_by(source, &ByHints { hints }, low, n, v)
}

/// `total_contains_on`, with hints of the words of the high bits.
///
/// `None` is answered only where the parts do not form a sequence with the tables and hints of its upper words.
///
/// # Conditions
/// As of `hinted_item_on`.
/// # Cost
/// The cost of `hinted_first_at_least_on`, and one more fragment of the low bits.
///
/// ```
/// hinted_contains_on(&mut source, &hints, &mut low, 7, 8);   // Some(false) of 2, 3, 5, 7, 11, 13, 24
/// ```
pub fn hinted_contains_on<T: TableSource>(
    source: &mut T,
    hints: &[u64],
    low: &mut LowDigits<'_>,
    n: usize,
    v: u64,
) -> Option<bool>
    requires lengths { HasLengths (with_hints hints.now (parts_with n low.old (T.lists source.old))) }
    requires sized { HasSizes (T.lists source.old) }
    ensures answer { (xs : List ℕ)
        → Holds xs (with_hints hints.now (parts_with n low.old (T.lists source.old)))
        → IsSomeAnd result (λ is. IsTrue is ↔ Contains xs v) }
    ensures claimed { IfSome result (λ is. (p : ℕ)
        × ClaimsLess (parts_with n low.old (T.lists source.old)) v p × (p ≡ n → is ≡ false)) }
    ensures reads { OnlyReads T.lists T.reads source.old source.new
        (2 * (digit_count (length (T.lists source.old).upper) + 1)) (2 * 23) 42 }
    ensures fragments { ReadsFragments low.old low.new (digit_count n + 1) }
    ensures shared { (xs : List ℕ)
        → Holds xs (with_hints hints.now (parts_with n low.old (T.lists source.old)))
        → ReadsFragments low.old low.new (digit_count (sharing xs low.old.width v) + 1) }
{
    let hints = Hints::over(hints, n);
    contains_by(source, &ByHints { hints }, low, n, v)
}
