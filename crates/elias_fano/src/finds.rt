//! How numbers are found in the words of the high bits: the 1 bit of a number, and the ends of a bucket, which is the
//! numbers with the high bits of a value, side by side. So a query of a sequence runs one body, over any source and by
//! an index's own strategies.
ghost use Rattle.std.specs.Prelude.{◌≡◌, ◌≢◌, ◌+◌, ◌-◌, ◌^◌, ◌<◌, ◌≤◌, ℕ, List, length, ⊤, true, false};
ghost use Rattle.std.specs.Prelude.{IfSome, IsSomeAnd};
ghost use Rattle.bit_lists.specs.Bits.{digit_count};
ghost use Rattle.bitm_select.specs.Answers.{HasBit, IsFoundFrom, IsSelected};
ghost use Rattle.bitm_select.specs.Claims.{ClaimsNone};
ghost use Rattle.bitm_tables.specs.Answers.{IfAbsent};
ghost use Rattle.bitm_tables.specs.declared.answer.Answer.TheVariants.{Absent};
ghost use Rattle.bitm_tables.specs.declared.source.counts.ReadCounts.{ReadCounts};
ghost use Rattle.bitm_tables.specs.Reads.{none_read, OnlyReads, ReadsAtMost};
ghost use Rattle.bitm_tables.specs.Tables.{bits_in, HasSizes, HasTables, Lists};
ghost use Rattle.elias_fano.specs.Buckets.{BeginsAt, CountsTo};
ghost use Rattle.elias_fano.specs.Ends.{searched, HoldsHigh, IsBegin, ClaimsBegin};
ghost use Rattle.elias_fano.specs.Parts.{IsUpper};
ghost use Rattle.elias_fano.specs.Claims.{ClaimsTo};

use crate::searching::count_at_zero;
use bitm::{Select, Select0, near_zero_on};
use bitm_select::search::selecting::{ByTables, search_on};
use bitm_tables::answer::Answer;
use bitm_tables::source::TableSource;

/// A way to find the 1 bit of a number.
pub(crate) trait FindsOne<T: TableSource> {
    /// Whether the value finds the bits of these lists.
    ghost finds: { Self → Lists → Type 0 };

    /// The most reads of a search.
    ghost most: { Lists → ReadCounts };

    /// The position of the 1 bit with exactly `rank` 1 bits before it.
    ///
    /// # Conditions
    /// There are fewer than 2^58 words, and the tables have the right lengths. They may hold anything.
    fn one(&self, source: &mut T, rank: usize) -> Answer<usize>
        requires { HasSizes (T.lists source.old) }
        ensures answer { HasTables (T.lists source.old) → finds self.now (T.lists source.old)
            → IsSelected (bits_in (T.lists source.old)) true rank result }
        ensures reads { let most = most (T.lists source.old) in
            OnlyReads T.lists T.reads source.old source.new most.upper most.lower most.words };
}

/// A way to find where the numbers with the same high bits start and end.
pub(crate) trait FindsEnds<T: TableSource> {
    /// Whether the value finds the bits of these lists.
    ghost finds: { Self → Lists → Type 0 };

    /// Whether its answers are what words and tables claim, whatever these hold.
    ghost claims: { Type 0 };

    /// Whether it reads nothing of no numbers, and of one number for one end only.
    ghost spares: { Type 0 };

    /// The most reads of the search for the start.
    ghost most: { Lists → ReadCounts };

    /// The most reads of the search for the end.
    ghost most_end: { Lists → ReadCounts };

    /// The first position with `above` 0 bits before it, where `n` numbers start whose high bits are `above` or more;
    /// `Absent` where all of them have less.
    ///
    /// # Conditions
    /// There are fewer than 2^58 words, and the tables have the right lengths. They may hold anything.
    fn begin(&self, source: &mut T, n: usize, above: usize) -> Answer<usize>
        requires { HasSizes (T.lists source.old) }
        ensures begin { (xs : List ℕ) (l : ℕ) → HoldsHigh xs n l (T.lists source.old)
            → finds self.now (T.lists source.old)
            → IsBegin xs l (bits_in (T.lists source.old)) above result }
        ensures claimed { claims → ClaimsBegin (T.lists source.old) n above result }
        ensures first { above ≡ 0 → source.new ≡ source.old }
        ensures none { spares → n ≡ 0 → (result ≡ Absent) × (source.new ≡ source.old) }
        ensures reads { let most = most (T.lists source.old) in
            OnlyReads T.lists T.reads source.old source.new most.upper most.lower most.words };

    /// How many of `n` numbers have high bits of at most `above`, where `begin` is the first position with `above` 0
    /// bits before it; `None` only where the parts are wrong.
    ///
    /// # Conditions
    /// The conditions of `begin`.
    fn end(&self, source: &mut T, n: usize, above: usize, begin: usize) -> Option<usize>
        requires { HasSizes (T.lists source.old) }
        ensures within { IfSome result (λ c. c ≤ n) }
        ensures count { (xs : List ℕ) (l : ℕ) → HoldsHigh xs n l (T.lists source.old)
            → finds self.now (T.lists source.old)
            → BeginsAt (bits_in (T.lists source.old)) above begin
            → IsSomeAnd result (CountsTo xs l above) }
        ensures claimed { claims → IfSome result (ClaimsTo (T.lists source.old) n above) }
        ensures alone { spares → n ≡ 1 → 0 < above → source.new ≡ source.old }
        ensures reads { let most = most_end (T.lists source.old) in
            OnlyReads T.lists T.reads source.old source.new most.upper most.lower most.words }
        ensures spared { let most = most (T.lists source.old) in spares
            → ReadsAtMost (T.reads source.old) (T.reads source.new) most.upper most.lower most.words };
}

/// The position of the 0 bit with `rank` 0 bits before it, as `search_on` finds it. It is not inlined, so that both
/// ends of a bucket are found by one copy of the search.
#[inline(never)]
fn zero_on<const TESTS: u8, T: TableSource>(source: &mut T, rank: usize) -> Answer<usize>
    requires { HasSizes (T.lists source.old) }
    ensures bit { HasBit (bits_in (T.lists source.old)) false result }
    ensures answer { HasTables (T.lists source.old)
        → IsSelected (bits_in (T.lists source.old)) false rank result }
    ensures none { TESTS ≢ 0
        → IfAbsent result (ClaimsNone false (T.lists source.old) rank) }
    ensures reads { OnlyReads T.lists T.reads source.old source.new
        (digit_count (length (T.lists source.old).upper) + 1) 23 8 }
{
    search_on::<0, TESTS, T, ByTables>(source, &ByTables, rank)
}

/// The first position with `above` 0 bits before it, from the answer of a selection of the 0 bit with one less.
#[inline(always)]
pub(crate) fn begin_behind(zero: Answer<usize>) -> Answer<usize>
    requires { IsFoundFrom 0 (2 ^ 64 - 1) zero }
    ensures begin { (xs : List ℕ) (l : ℕ) (lists : Lists) (above : ℕ) → IsUpper xs l lists.words
        → 0 < above → IsSelected (bits_in lists) false (above - 1) zero
        → IsBegin xs l (bits_in lists) above result }
    ensures claimed { (lists : Lists) (n above : ℕ) → 0 < above → above < 2 ^ 64
        → HasBit (bits_in lists) false zero
        → IfAbsent zero (ClaimsNone false lists (above - 1)) → ClaimsBegin lists n above result }
{
    match zero {
        Answer::Found(position) => Answer::Found(position + 1),
        Answer::Absent => Answer::Absent,
        Answer::Wrong => Answer::Wrong,
    }
}

/// How many of `n` numbers have high bits of at most `above`, from the answer of a selection of the 0 bit with `above`
/// 0 bits before it; `None` only where the parts are wrong.
#[inline(always)]
pub(crate) fn count_to(zero: Answer<usize>, n: usize, above: usize) -> Option<usize>
    ensures within { IfSome result (λ c. c ≤ n) }
    ensures count { (xs : List ℕ) (l : ℕ) (lists : Lists) → IsUpper xs l lists.words
        → n ≡ length xs → IsSelected (bits_in lists) false above zero
        → IsSomeAnd result (CountsTo xs l above) }
    ensures claimed { (lists : Lists) → HasBit (bits_in lists) false zero
        → IfAbsent zero (ClaimsNone false lists above) → IfSome result (ClaimsTo lists n above) }
{
    match zero {
        Answer::Found(position) => count_at_zero(position, above, n),
        Answer::Absent => Some(n),
        Answer::Wrong => None,
    }
}

/// By searches in the tables, as `search_on` of `bitm_select` makes them. Where `TESTS` is 0 they look for no wrong
/// tables but by the words, and few numbers are spared the searches that they don't need.
#[derive(Clone, Copy)]
pub(crate) struct BySearch<const TESTS: u8>;

impl<const TESTS: u8, T: TableSource> FindsOne<T> for BySearch<TESTS> {
    ghost finds = { λ _ _. ⊤ };

    ghost most = { searched 23 8 };

    #[inline(always)]
    fn one(&self, source: &mut T, rank: usize) -> Answer<usize> {
        search_on::<1, TESTS, T, ByTables>(source, &ByTables, rank)
    }
}

impl<const TESTS: u8, T: TableSource> FindsEnds<T> for BySearch<TESTS> {
    ghost finds = { λ _ _. ⊤ };

    ghost claims = { TESTS ≢ 0 };

    ghost spares = { TESTS ≡ 0 };

    ghost most = { searched 23 8 };

    ghost most_end = { searched 23 8 };

    #[inline(always)]
    fn begin(&self, source: &mut T, n: usize, above: usize) -> Answer<usize> {
        if TESTS == 0 && n == 0 {
            return Answer::Absent;
        }
        if above == 0 {
            return Answer::Found(0);
        }
        begin_behind(zero_on::<TESTS, T>(source, above - 1))
    }

    #[inline(always)]
    fn end(&self, source: &mut T, n: usize, above: usize, _begin: usize) -> Option<usize> {
        // Of one number all bits but the highest are low bits.
        if TESTS == 0 && n == 1 && above > 0 {
            return Some(n);
        }
        count_to(zero_on::<TESTS, T>(source, above), n, above)
    }
}

/// In how many words the end of a bucket is looked for before it is selected.
pub(crate) const NEAR: usize = 8;

/// By an index over the words: the start by its own strategy, and the end in the next eight words, or, where it is not
/// in these, by a search in the tables of the source.
#[derive(Clone, Copy)]
pub(crate) struct ByIndex<'a, I> {
    pub(crate) index: &'a I,
}

impl<'a, T: TableSource, I: Select> FindsOne<T> for ByIndex<'a, I> {
    ghost finds = { λ by lists. I.bits by.index.now ≡ bits_in lists };

    ghost most = { λ _. none_read };

    #[inline(always)]
    fn one(&self, _source: &mut T, rank: usize) -> Answer<usize> {
        let _len = self.index.len();
        match self.index.try_select(rank) {
            Some(position) => Answer::Found(position),
            None => Answer::Absent,
        }
    }
}

impl<'a, T: TableSource, I: Select0> FindsEnds<T> for ByIndex<'a, I> {
    ghost finds = { λ by lists. I.bits by.index.now ≡ bits_in lists };

    ghost claims = { ⊥ };

    ghost spares = { ⊥ };

    ghost most = { λ _. none_read };

    ghost most_end = { searched 23 16 };

    #[inline(always)]
    fn begin(&self, _source: &mut T, _n: usize, above: usize) -> Answer<usize> {
        let _len = self.index.len();
        if above == 0 {
            return Answer::Found(0);
        }
        match self.index.try_select0(above - 1) {
            Some(position) => Answer::Found(position + 1),
            None => Answer::Absent,
        }
    }

    #[inline(always)]
    fn end(&self, source: &mut T, n: usize, above: usize, begin: usize) -> Option<usize> {
        match near_zero_on::<NEAR, T>(source, begin) {
            Some(zero) => count_at_zero(zero, above, n),
            None => count_to(zero_on::<0, T>(source, above), n, above),
        }
    }
}
