//! The number of a hash over any source of words and tables, and over what may hold anything.
ghost use Rattle.std.specs.Prelude.{◌≡◌, ◌≢◌, ◌↔◌, ◌+◌, ◌*◌, ◌/◌, ◌^◌, ◌<◌, ◌≤◌, length, true, IsTrue, None};
ghost use Rattle.bitm_select.specs.Answers.{HasBit};
ghost use Rattle.bit_lists.specs.Bits.{item};
ghost use Rattle.bit_lists.specs.Count.{ones_of};
ghost use Rattle.bitm_tables.specs.Reads.{word_read, OnlyReads, ReadsAtMost};
ghost use Rattle.bitm_tables.specs.Tables.{bits_in, HasSizes, HasTables, IsIndexed};
ghost use Rattle.bitm_tables.specs.Answers.{IfAbsent};
ghost use Rattle.perfect_hash.specs.Asking.{IsBelow, IsNumbered};
ghost use Rattle.perfect_hash.specs.Levels.{fall_in, looked, position_from, ExceedsBy};
ghost use Rattle.perfect_hash.specs.Numbers.{number_by, number_in, AreSizes};
ghost use Rattle.perfect_hash.specs.Placed.{FitIn, IsPlaced, WhereAbsent, WhereWrong};

use crate::levels::{Placing, Plain};
use crate::querying::{BySource, Query};
use bit_words::words;
use bitm::index_laws;
use bitm_select::search::selected::found;
use bitm_tables::answer::Answer;
use bitm_tables::source::TableSource;
use bitm_tables::source::counts::ReadCounts;

/// Whether the bit at `position` of the source's words is 1.
///
/// # Conditions
/// There is such a bit.
/// # Cost
/// One word is read.
#[inline(always)]
#[tactic(auto, using(bitm::proofs::BitLaws::bits_are_counted))]
pub(crate) fn is_one_on<T: TableSource>(source: &mut T, position: usize) -> bool
    requires { position < length (bits_in (T.lists source.old)) }
    ensures bit { result ≡ item (bits_in (T.lists source.old)) position }
    ensures counted { T.reads source.new ≡ word_read (T.reads source.old) }
    ensures same { T.lists source.new ≡ T.lists source.old }
{
    words::get_bit(&[source.word(position / 64)], position % 64)
}

/// Whether a level of `size` words, which are some, has them after the first `begin` of `len` words. Where `TESTS` is 0
/// nothing is tested.
#[inline(always)]
fn fits<const TESTS: u8>(size: usize, begin: usize, len: usize) -> bool
    requires before { begin ≤ len }
    requires untested { TESTS ≡ 0 → (0 < size) × (begin + size ≤ len) }
    ensures { IsTrue result ↔ ((0 < size) × (begin + size ≤ len)) }
{
    TESTS == 0 || (size != 0 && size <= len - begin)
}

/// The position of the 1 bit that a hash falls on, in the first of the levels where it falls on one; `Wrong` where the
/// sizes turn out not to be sizes of levels. Where `TESTS` is 0 they must be, and are not tested.
#[inline(always)]
fn one_by<const TESTS: u8, Q: Query, T: TableSource, P: Placing>(
    query: &Q,
    source: &mut T,
    placing: &P,
    sizes: &[usize],
    hash: u64,
    reads: &mut ReadCounts,
) -> Answer<usize>
    requires few { length sizes.now ≤ 256 }
    requires short { length (Q.bits query.now (T.lists source.old)) < 2 ^ 64 }
    requires untested { TESTS ≡ 0 → AreSizes sizes.now (Q.bits query.now (T.lists source.old)) }
    ensures one { HasBit (Q.bits query.now (T.lists source.old)) true result }
    ensures position { let b = Q.bits query.now (T.lists source.old) in
        AreSizes sizes.now b → IsPlaced
        (position_from (fall_in (P.fall placing.now) sizes.now hash) b 0 0 sizes.now) result }
    ensures fit { WhereAbsent result
        (FitIn (length (Q.bits query.now (T.lists source.old)) / 64) sizes.now) }
    ensures none { let b = Q.bits query.now (T.lists source.old) in WhereAbsent result
        (position_from (fall_in (P.fall placing.now) sizes.now hash) b 0 0 sizes.now ≡ None) }
    ensures wrong { WhereWrong result
        (FitIn (length (Q.bits query.now (T.lists source.old)) / 64) sizes.now → ⊥) }
    ensures reads { OnlyReads T.lists T.reads source.old source.new 0 0 (length sizes.now) }
    ensures looked { let b = Q.bits query.now (T.lists source.old) in AreSizes sizes.now b
        → (T.reads source.new).words ≡ (T.reads source.old).words
        + Q.words_each * looked (fall_in (P.fall placing.now) sizes.now hash) b 0 0 sizes.now }
    ensures seeds { ReadsAtMost reads.old reads.new 0 0 (length sizes.now) }
    ensures counted { let b = Q.bits query.now (T.lists source.old) in AreSizes sizes.now b
        → reads.new.words ≡ reads.old.words
        + P.seeds_each * looked (fall_in (P.fall placing.now) sizes.now hash) b 0 0 sizes.now }
{
    let mut begin = 0;
    for (level, size) in sizes.iter().enumerate() {
        if !fits::<TESTS>(*size, begin, query.words_len(source)) {
            return Answer::Wrong;
        }
        let position = 64 * begin + placing.position(begin, hash, level as u32, *size, &mut *reads);
        if query.is_one(source, position) {
            return Answer::Found(position);
        }
        begin += *size;
    }
    Answer::Absent
}

/// Whether a rank at `position` is a number below `count`. No rank exceeds its position. Where `TESTS` is 0 nothing is
/// tested.
#[inline(always)]
fn is_number<const TESTS: u8>(rank: usize, position: usize, count: usize) -> bool
    ensures below { IsTrue result → TESTS ≢ 0 → rank < count }
    ensures passes { (TESTS ≢ 0 → rank < count) → rank ≤ position → IsTrue result }
{
    TESTS == 0 || (rank < count && rank <= position)
}

/// The number of a hash in the bits that `query` queries, where `placing` says where hashes fall: the body of each
/// look-up of one hash, over a source or an index, which may hold anything where `TESTS` is not 0.
///
/// # Cost
/// Of each level up to the one where the hash falls on a 1 bit, one bit and what places the hash; and one rank.
#[inline(always)]
pub(crate) fn number_by<const TESTS: u8, Q: Query, T: TableSource, P: Placing>(
    query: &Q,
    source: &mut T,
    placing: &P,
    sizes: &[usize],
    count: usize,
    hash: u64,
    reads: &mut ReadCounts,
) -> Answer<usize>
    requires few { length sizes.now ≤ 256 }
    requires short { length (Q.bits query.now (T.lists source.old)) < 2 ^ 64 }
    requires sized { Q.sized query.now (T.lists source.old) }
    requires untested { TESTS ≡ 0 → AreSizes sizes.now (Q.bits query.now (T.lists source.old)) }
    ensures below { TESTS ≢ 0 → IsBelow count result }
    ensures number { let b = Q.bits query.now (T.lists source.old) in
        Q.ready query.now (T.lists source.old) → AreSizes sizes.now b
        → (TESTS ≢ 0 → ones_of b ≤ count)
        → IsNumbered (number_in (fall_in (P.fall placing.now) sizes.now) sizes.now b hash) result }
    ensures inside { Q.ready query.now (T.lists source.old)
        → IsBelow (ones_of (Q.bits query.now (T.lists source.old))) result }
    ensures fit { IfAbsent result
        (FitIn (length (Q.bits query.now (T.lists source.old)) / 64) sizes.now) }
    ensures none { IfAbsent result (number_in (fall_in (P.fall placing.now) sizes.now) sizes.now
        (Q.bits query.now (T.lists source.old)) hash ≡ None) }
    ensures reads { OnlyReads T.lists T.reads source.old source.new 1 1 (length sizes.now + 8) }
    ensures looked { let b = Q.bits query.now (T.lists source.old) in AreSizes sizes.now b
        → ExceedsBy 8 ((T.reads source.old).words
        + Q.words_each * looked (fall_in (P.fall placing.now) sizes.now hash) b 0 0 sizes.now)
        (T.reads source.new).words }
    ensures seeds { ReadsAtMost reads.old reads.new 0 0 (length sizes.now) }
    ensures counted { let b = Q.bits query.now (T.lists source.old) in AreSizes sizes.now b
        → reads.new.words ≡ reads.old.words
        + P.seeds_each * looked (fall_in (P.fall placing.now) sizes.now hash) b 0 0 sizes.now }
{
    match one_by::<TESTS, Q, T, P>(query, source, placing, sizes, hash, reads) {
        Answer::Found(position) => match query.rank(source, position) {
            Some(number) if is_number::<TESTS>(number, position, count) => Answer::Found(number),
            _ => Answer::Wrong,
        },
        Answer::Absent => Answer::Absent,
        Answer::Wrong => Answer::Wrong,
    }
}

/// The number of a hash over any source, whatever words, tables and sizes hold: `Count` of a number below `count`,
/// `Absent` only where the sizes are sizes of levels in these words and the hash falls on no 1 bit, or `Wrong`. Where
/// the tables match the words, and the words are levels of these sizes with no more 1 bits than `count`, the number is
/// right, and `Wrong` is never answered.
///
/// # Conditions
/// There are fewer than 2^58 words, the tables have the right lengths, and there are no more than 256 sizes.
/// # Cost
/// At most one word a level is read, and what `rank_on` reads: one upper entry, one lower entry and eight words.
#[inline]
pub fn total_number_on<T: TableSource>(
    source: &mut T,
    sizes: &[usize],
    count: usize,
    hash: u64,
) -> Answer<usize>
    requires sized { HasSizes (T.lists source.old) }
    requires few { length sizes.now ≤ 256 }
    ensures below { IsBelow count result }
    ensures number { let b = bits_in (T.lists source.old) in
        HasTables (T.lists source.old) → AreSizes sizes.now b → ones_of b ≤ count
        → IsNumbered (number_by sizes.now b hash) result }
    ensures fit { IfAbsent result (FitIn (length (T.lists source.old).words) sizes.now) }
    ensures none { IfAbsent result
        (number_by sizes.now (bits_in (T.lists source.old)) hash ≡ None) }
    ensures reads { OnlyReads T.lists T.reads source.old source.new 1 1 (length sizes.now + 8) }
{
    total_number_by_on(source, &Plain, sizes, count, hash, &mut ReadCounts::new())
}

/// As `total_number_on`, where `placing` says where hashes fall; the seeds that it reads are counted too, at most one a
/// level.
#[inline]
pub fn total_number_by_on<T: TableSource, P: Placing>(
    source: &mut T,
    placing: &P,
    sizes: &[usize],
    count: usize,
    hash: u64,
    reads: &mut ReadCounts,
) -> Answer<usize>
    requires sized { HasSizes (T.lists source.old) }
    requires few { length sizes.now ≤ 256 }
    ensures below { IsBelow count result }
    ensures number { let b = bits_in (T.lists source.old) in
        HasTables (T.lists source.old) → AreSizes sizes.now b → ones_of b ≤ count
        → IsNumbered (number_in (fall_in (P.fall placing.now) sizes.now) sizes.now b hash) result }
    ensures fit { IfAbsent result (FitIn (length (T.lists source.old).words) sizes.now) }
    ensures none { IfAbsent result (number_in (fall_in (P.fall placing.now) sizes.now) sizes.now
        (bits_in (T.lists source.old)) hash ≡ None) }
    ensures reads { OnlyReads T.lists T.reads source.old source.new 1 1 (length sizes.now + 8) }
    ensures looked { let b = bits_in (T.lists source.old) in AreSizes sizes.now b
        → ExceedsBy 8 ((T.reads source.old).words
        + looked (fall_in (P.fall placing.now) sizes.now hash) b 0 0 sizes.now)
        (T.reads source.new).words }
    ensures seeds { ReadsAtMost reads.old reads.new 0 0 (length sizes.now) }
{
    number_by::<1, BySource, T, P>(&BySource, source, placing, sizes, count, hash, reads)
}

/// The number of a hash over any source, where `placing` says where hashes fall. The seeds that it reads are counted
/// too, at most one a level.
///
/// # Conditions
/// The source's tables match its words, which are levels of these sizes.
/// # Cost
/// One word is read of each level up to the one where the hash falls on a 1 bit, and what `rank_on` reads: at most one
/// upper entry, one lower entry and eight words.
#[inline]
pub(crate) fn number_by_on<T: TableSource, P: Placing>(
    source: &mut T,
    placing: &P,
    sizes: &[usize],
    hash: u64,
    reads: &mut ReadCounts,
) -> Option<usize>
    requires indexed { IsIndexed (T.lists source.old) }
    requires sizes { AreSizes sizes.now (bits_in (T.lists source.old)) }
    ensures value { result ≡ number_in (fall_in (P.fall placing.now) sizes.now) sizes.now
        (bits_in (T.lists source.old)) hash }
    ensures reads { OnlyReads T.lists T.reads source.old source.new 1 1 (length sizes.now + 8) }
    ensures looked { let b = bits_in (T.lists source.old) in
        ExceedsBy 8 ((T.reads source.old).words
        + looked (fall_in (P.fall placing.now) sizes.now hash) b 0 0 sizes.now)
        (T.reads source.new).words }
{
    index_laws::tables_have_sizes();
    found(total_number_by_on(source, placing, sizes, usize::MAX, hash, reads))
}
