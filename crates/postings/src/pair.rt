//! The union of two sequences: both are decoded by blocks of numbers, which are merged.
ghost use Rattle.std.specs.Prelude.{◌≡◌, ◌+◌, ◌-◌, ◌^◌, ◌<◌, ◌≤◌, ◌⊎◌, ℕ, List, IsTrue, length, slice_index};
ghost use Rattle.std.specs.List.Sorted.{IsNonDecreasing};
ghost use Rattle.bit_lists.specs.Kept.{IsKeptFrom};
ghost use Rattle.elias_fano.specs.SequenceParts.{Holds};
ghost use Rattle.postings.specs.Joined.{AreJoined, IsJoining, IsLeastOf};
ghost use Rattle.postings.specs.Merged.{written_in, IsMerged};
ghost use Rattle.postings.specs.Pair.{pair_from, IsBlockOf};
ghost use Rattle.postings.specs.Shared.{IsInAll, IsMeeting};

use crate::merged::Merged;
use elias_fano_view::SequenceView;

/// How many numbers are decoded at once.
pub(crate) const BLOCK: usize = 32;

/// How far a merge is: the indices in the two blocks, how many numbers were written, and the least number that may be
/// written next.
#[derive(Clone, Copy)]
pub(crate) struct Stand {
    pub(crate) one: usize,
    pub(crate) other: usize,
    pub(crate) count: usize,
    pub(crate) low: u64,
}

/// The first `len` of some numbers; `ends` where no number of their sequence comes after these.
#[derive(Clone, Copy)]
pub(crate) struct Block<'a> {
    pub(crate) numbers: &'a [u64],
    pub(crate) len: usize,
    pub(crate) ends: bool,
}

/// What is to do after a merge that left room.
#[derive(Clone, Copy)]
pub(crate) enum Step {
    /// The next block of the one sequence is to be read.
    One,
    /// The next block of the other sequence is to be read.
    Other,
    /// The greatest number of 64 bits is to be written.
    Last,
    /// No number is left.
    End,
}

/// A block of numbers that was read, and the index of its first number.
#[derive(Drop)]
pub(crate) struct Read {
    pub(crate) numbers: [u64; BLOCK],
    pub(crate) from: usize,
    pub(crate) len: usize,
}

/// The number at an index of a block, or the greatest number of 64 bits past its end.
#[inline(always)]
fn head(block: Block<'_>, at: usize) -> u64
    requires { block.len ≤ length block.numbers.now }
    ensures is { at < block.entry.len → result ≡ slice_index block.entry.numbers.now at }
    ensures none { block.entry.len ≤ at → result ≡ 2 ^ 64 - 1 }
{
    if at < block.len {
        block.numbers[at]
    } else {
        u64::MAX
    }
}

/// The index after a number that is no more than the least, else the index of the number.
#[inline(always)]
pub(crate) fn passed(at: usize, number: u64, least: u64) -> usize
    requires { number ≤ least → at < 2 ^ 64 - 1 }
    ensures past { number ≤ least → result ≡ at + 1 }
    ensures same { least < number → result ≡ at }
{
    if number <= least { at + 1 } else { at }
}

/// Writes the least number, unless it is below `low`; answers how many are written then, and the least number that may
/// still be written.
#[inline(always)]
pub(crate) fn write(out: &mut [u64], count: usize, low: u64, least: u64) -> (usize, u64)
    requires room { count < length out.old }
    requires some { least < 2 ^ 64 - 1 }
    ensures joins { (old now : List (List ℕ)) → (from : ℕ) → IsJoining old from count out.old now low
        → (low ≤ least → IsLeastOf now (length now) low least)
        → IsJoining old from result.0 out.new now result.1 }
    ensures meets { (old now : List (List ℕ)) → (from : ℕ) → IsMeeting old from count out.old now low
        → (low ≤ least → IsInAll old least)
        → ((x : ℕ) → low ≤ x → x < least → IsInAll old x → ⊥)
        → IsMeeting old from result.0 out.new now result.1 }
    ensures low { least < result.1 }
    ensures count { (count ≤ result.0) × (result.0 ≤ count + 1) }
    ensures rest { IsKeptFrom result.0 out.old out.new }
{
    if least < low {
        return (count, low);
    }
    out[count] = least;
    (count + 1, least + 1)
}

/// Merges two blocks, until there is no room, or a block has no more numbers though its sequence has, or neither has a
/// number below the greatest of 64 bits.
#[inline(always)]
fn merge(one: Block<'_>, other: Block<'_>, stand: Stand, out: &mut [u64]) -> Stand
    requires one_block { one.len ≤ length one.numbers.now }
    requires other_block { other.len ≤ length other.numbers.now }
    requires inside { (stand.one ≤ one.len) × (stand.other ≤ other.len) }
    requires room { stand.count ≤ length out.old }
    requires short { (one.len < 2 ^ 64 - 1) × (other.len < 2 ^ 64 - 1) }
    ensures inside { (result.one ≤ one.entry.len) × (result.other ≤ other.entry.len) }
    ensures count { (stand.count ≤ result.count) × (result.count ≤ length out.old) }
    ensures rest { IsKeptFrom result.count out.old out.new }
    ensures joins { (old : List (List ℕ)) → (xs ys : List ℕ) → (i j from : ℕ)
        → IsBlockOf xs i one.entry.len one.entry.numbers.now → IsBlockOf ys j other.entry.len other.entry.numbers.now
        → IsNonDecreasing xs → IsNonDecreasing ys
        → (IsTrue one.entry.ends → length xs ≡ i + one.entry.len)
        → (IsTrue other.entry.ends → length ys ≡ j + other.entry.len)
        → IsJoining old from stand.count out.old (pair_from xs (i + stand.one) ys (j + stand.other)) stand.low
        → IsJoining old from result.count out.new (pair_from xs (i + result.one) ys (j + result.other)) result.low }
    ensures stops { result.count < length out.old
        → (result.one < one.entry.len) ⊎ IsTrue one.entry.ends
        → (result.other < other.entry.len) ⊎ IsTrue other.entry.ends
        → (result.one < one.entry.len → slice_index one.entry.numbers.now result.one ≡ 2 ^ 64 - 1)
        × (result.other < other.entry.len → slice_index other.entry.numbers.now result.other ≡ 2 ^ 64 - 1) }
{
    let mut now = stand;
    while now.count < out.len()
        && (now.one < one.len || one.ends)
        && (now.other < other.len || other.ends)
    {
        let first = head(one, now.one);
        let second = head(other, now.other);
        let least = first.min(second);
        if least == u64::MAX {
            return now;
        }
        let (count, low) = write(out, now.count, now.low, least);
        now = Stand {
            one: passed(now.one, first, least),
            other: passed(now.other, second, least),
            count,
            low,
        };
    }
    now
}

/// What is to do where a merge of two blocks ended and left room.
#[inline(always)]
fn step_after(stand: Stand, one: Block<'_>, other: Block<'_>) -> Step
    ensures one { result ≡ Step.One → (one.entry.len ≤ stand.one) × ¬ IsTrue one.entry.ends }
    ensures other { result ≡ Step.Other → (other.entry.len ≤ stand.other) × ¬ IsTrue other.entry.ends }
    ensures last { result ≡ Step.Last → ((stand.one < one.entry.len) ⊎ IsTrue one.entry.ends)
        × ((stand.other < other.entry.len) ⊎ IsTrue other.entry.ends)
        × ((stand.one < one.entry.len) ⊎ (stand.other < other.entry.len)) }
    ensures end { result ≡ Step.End → (one.entry.len ≤ stand.one) × IsTrue one.entry.ends
        × (other.entry.len ≤ stand.other) × IsTrue other.entry.ends }
{
    if stand.one >= one.len && !one.ends {
        Step::One
    } else if stand.other >= other.len && !other.ends {
        Step::Other
    } else if stand.one < one.len || stand.other < other.len {
        Step::Last
    } else {
        Step::End
    }
}

/// The block that was read, of a sequence of `len` numbers.
#[inline(always)]
pub(crate) fn block_of(read: &Read, len: usize) -> Block<'_>
    requires within { read.now.from + read.now.len ≤ len }
    ensures numbers { result.numbers.now ≡ read.now.numbers }
    ensures len { result.len ≡ read.now.len }
    ensures ends { IsTrue result.ends → len ≡ read.now.from + read.now.len }
    ensures goes_on { ¬ IsTrue result.ends → read.now.from + read.now.len < len }
{
    Block {
        numbers: &read.numbers,
        len: read.len,
        ends: read.from + read.len >= len,
    }
}

/// Reads the next block; `false` only where the parts form no sequence.
#[inline(always)]
pub(crate) fn read_on(sequence: &SequenceView<'_>, read: &mut Read) -> bool
    requires more { read.old.from + read.old.len < sequence.now.len }
    ensures from { read.new.from ≡ read.old.from + read.old.len }
    ensures within { read.new.from + read.new.len ≤ sequence.now.len }
    ensures room { (length read.new.numbers ≡ length read.old.numbers) × (read.new.len ≤ length read.new.numbers) }
    ensures some { IsTrue result → 0 < read.new.len }
    ensures block { (xs : List ℕ) → Holds xs sequence.now → 0 < length read.old.numbers
        → IsTrue result × IsBlockOf xs read.new.from read.new.len read.new.numbers }
{
    let _ = sequence.len();
    read.from += read.len;
    read.len = sequence.items_from(read.from, &mut read.numbers);
    read.len > 0
}

/// The union of two sequences, of the one from number `one_at` on and of the other from number `other_at` on, in memory
/// that may hold anything: what `total_union` writes of cursors there. Where both form a sequence, and no index is past
/// the end, it is `Done`. Whatever the memory holds, what is after the numbers that are written stays as it was.
///
/// # Cost
/// One selection for each 32 numbers of a sequence that are read; then each word of their high bits is read once, and
/// the low bits of each. The numbers from the index on are read, also those below `from`, and at most 32 of each
/// sequence past the last that is written (evident from the code).
///
/// # Example
/// ```
/// // of 2, 5, 9 and 5, 7: the union is 2, 5, 7, 9
/// total_union_of_two(&one, 0, &other, 0, 0, &mut out);     // Done(4)
/// ```
pub fn total_union_of_two(
    one: &SequenceView<'_>,
    one_at: usize,
    other: &SequenceView<'_>,
    other_at: usize,
    from: u64,
    out: &mut [u64],
) -> Merged
    ensures joined { (xs ys : List ℕ) → Holds xs one.now → Holds ys other.now
        → one_at ≤ length xs → other_at ≤ length ys
        → IsMerged result (λ count. AreJoined (pair_from xs one_at ys other_at) from count (length out.old) out.new) }
    ensures most { written_in result ≤ length out.old }
    ensures rest { IsKeptFrom (written_in result) out.old out.new }
{
    if one_at > one.len() || other_at > other.len() {
        return Merged::Wrong(0);
    }
    let mut first = Read {
        numbers: [0; BLOCK],
        from: one_at,
        len: 0,
    };
    let mut second = Read {
        numbers: [0; BLOCK],
        from: other_at,
        len: 0,
    };
    let mut stand = Stand {
        one: 0,
        other: 0,
        count: 0,
        low: from,
    };
    loop {
        let one_block = block_of(&first, one.len());
        let other_block = block_of(&second, other.len());
        stand = merge(one_block, other_block, stand, out);
        if stand.count >= out.len() {
            return Merged::Done(stand.count);
        }
        match step_after(stand, one_block, other_block) {
            Step::One => {
                if !read_on(one, &mut first) {
                    return Merged::Wrong(stand.count);
                }
                stand.one = 0;
            }
            Step::Other => {
                if !read_on(other, &mut second) {
                    return Merged::Wrong(stand.count);
                }
                stand.other = 0;
            }
            Step::Last => {
                out[stand.count] = u64::MAX;
                return Merged::Done(stand.count + 1);
            }
            Step::End => return Merged::Done(stand.count),
        }
    }
}
