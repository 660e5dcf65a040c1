//! The intersection of two sequences: both are decoded by blocks of numbers, which are compared.
ghost use Rattle.std.specs.Prelude.{◌≡◌, ◌+◌, ◌-◌, ◌^◌, ◌<◌, ◌≤◌, ◌⊎◌, ℕ, List, IsTrue, length, slice_index};
ghost use Rattle.std.specs.List.Sorted.{IsNonDecreasing};
ghost use Rattle.bit_lists.specs.Kept.{IsKeptFrom};
ghost use Rattle.elias_fano.specs.SequenceParts.{Holds};
ghost use Rattle.postings.specs.Merged.{written_in, IsMerged};
ghost use Rattle.postings.specs.Pair.{pair_from, IsBlockOf};
ghost use Rattle.postings.specs.Shared.{AreInAll, IsInAll, IsMeeting};

use crate::merged::Merged;
use crate::pair::{BLOCK, Block, Read, Stand, Step, block_of, passed, read_on, write};
use elias_fano_view::SequenceView;

/// Writes the least of two numbers where both are it, unless it is below `low`; answers how many are written then, and
/// the least number that may be written next.
#[inline(always)]
fn write_shared(out: &mut [u64], count: usize, low: u64, least: u64, both: bool) -> (usize, u64)
    requires room { count < length out.old }
    requires some { least < 2 ^ 64 - 1 }
    ensures meets { (old now : List (List ℕ)) → (from : ℕ) → IsMeeting old from count out.old now low
        → (IsTrue both → low ≤ least → IsInAll old least)
        → ((x : ℕ) → low ≤ x → x ≤ least → IsInAll old x → IsTrue both × (x ≡ least))
        → IsMeeting old from result.0 out.new now result.1 }
    ensures low { least < result.1 }
    ensures count { (count ≤ result.0) × (result.0 ≤ count + 1) }
    ensures rest { IsKeptFrom result.0 out.old out.new }
{
    if both {
        write(out, count, low, least)
    } else {
        (count, low.max(least + 1))
    }
}

/// Compares the numbers of two blocks and writes those that both have, until there is no room, or a block has no more,
/// or the greatest number of 64 bits is next in both.
#[inline(always)]
fn meet(one: Block<'_>, other: Block<'_>, stand: Stand, out: &mut [u64]) -> Stand
    requires one_block { one.len ≤ length one.numbers.now }
    requires other_block { other.len ≤ length other.numbers.now }
    requires inside { (stand.one ≤ one.len) × (stand.other ≤ other.len) }
    requires room { stand.count ≤ length out.old }
    requires short { (one.len < 2 ^ 64 - 1) × (other.len < 2 ^ 64 - 1) }
    ensures inside { (result.one ≤ one.entry.len) × (result.other ≤ other.entry.len) }
    ensures count { (stand.count ≤ result.count) × (result.count ≤ length out.old) }
    ensures rest { IsKeptFrom result.count out.old out.new }
    ensures meets { (old : List (List ℕ)) → (xs ys : List ℕ) → (i j from : ℕ)
        → IsBlockOf xs i one.entry.len one.entry.numbers.now → IsBlockOf ys j other.entry.len other.entry.numbers.now
        → IsNonDecreasing xs → IsNonDecreasing ys
        → IsMeeting old from stand.count out.old (pair_from xs (i + stand.one) ys (j + stand.other)) stand.low
        → IsMeeting old from result.count out.new (pair_from xs (i + result.one) ys (j + result.other)) result.low }
    ensures stops { result.count < length out.old → result.one < one.entry.len → result.other < other.entry.len
        → (slice_index one.entry.numbers.now result.one ≡ 2 ^ 64 - 1)
        × (slice_index other.entry.numbers.now result.other ≡ 2 ^ 64 - 1) }
{
    let mut now = stand;
    while now.count < out.len() && now.one < one.len && now.other < other.len {
        let first = one.numbers[now.one];
        let second = other.numbers[now.other];
        let least = first.min(second);
        if least == u64::MAX {
            return now;
        }
        let (count, low) = write_shared(out, now.count, now.low, least, first == second);
        now = Stand {
            one: passed(now.one, first, least),
            other: passed(now.other, second, least),
            count,
            low,
        };
    }
    now
}

/// What is to do where two blocks were compared and there is room.
#[inline(always)]
fn step_to_meet(stand: Stand, one: Block<'_>, other: Block<'_>) -> Step
    ensures one { result ≡ Step.One → (one.entry.len ≤ stand.one) × ¬ IsTrue one.entry.ends }
    ensures other { result ≡ Step.Other → (other.entry.len ≤ stand.other) × ¬ IsTrue other.entry.ends }
    ensures last { result ≡ Step.Last → (stand.one < one.entry.len) × (stand.other < other.entry.len) }
    ensures end { result ≡ Step.End → ((one.entry.len ≤ stand.one) × IsTrue one.entry.ends)
        ⊎ ((other.entry.len ≤ stand.other) × IsTrue other.entry.ends) }
{
    if stand.one >= one.len {
        if one.ends { Step::End } else { Step::One }
    } else if stand.other >= other.len {
        if other.ends { Step::End } else { Step::Other }
    } else {
        Step::Last
    }
}

/// The intersection of two sequences, of the one from number `one_at` on and of the other from number `other_at` on, in
/// memory that may hold anything: what `total_intersect` writes of cursors there. Where both form a sequence, and no
/// index is past the end, it is `Done`. Whatever the memory holds, what is after the numbers that are written stays as
/// it was.
///
/// # Cost
/// The cost of `total_union_of_two`, up to where one of the sequences ends. Where one of them is much shorter,
/// `total_intersect` reads less.
///
/// # Example
/// ```
/// // of 2, 5, 9 and 5, 7, 9: the intersection is 5, 9
/// total_intersect_of_two(&one, 0, &other, 0, 0, &mut out);     // Done(2)
/// ```
pub fn total_intersect_of_two(
    one: &SequenceView<'_>,
    one_at: usize,
    other: &SequenceView<'_>,
    other_at: usize,
    from: u64,
    out: &mut [u64],
) -> Merged
    ensures shared { (xs ys : List ℕ) → Holds xs one.now → Holds ys other.now
        → one_at ≤ length xs → other_at ≤ length ys
        → IsMerged result (λ count. AreInAll (pair_from xs one_at ys other_at) from count (length out.old) out.new) }
    ensures most { written_in result ≤ length out.old }
    ensures rest { IsKeptFrom (written_in result) out.old out.new }
{
    if one_at > one.len() || other_at > other.len() {
        return Merged::Wrong(0);
    }
    let mut first = Read {
        numbers: [0; BLOCK],
        from: one_at,
        len: 0,
    };
    let mut second = Read {
        numbers: [0; BLOCK],
        from: other_at,
        len: 0,
    };
    let mut stand = Stand {
        one: 0,
        other: 0,
        count: 0,
        low: from,
    };
    loop {
        let one_block = block_of(&first, one.len());
        let other_block = block_of(&second, other.len());
        stand = meet(one_block, other_block, stand, out);
        if stand.count >= out.len() {
            return Merged::Done(stand.count);
        }
        match step_to_meet(stand, one_block, other_block) {
            Step::One => {
                if !read_on(one, &mut first) {
                    return Merged::Wrong(stand.count);
                }
                stand.one = 0;
            }
            Step::Other => {
                if !read_on(other, &mut second) {
                    return Merged::Wrong(stand.count);
                }
                stand.other = 0;
            }
            Step::Last => {
                out[stand.count] = u64::MAX;
                return Merged::Done(stand.count + 1);
            }
            Step::End => return Merged::Done(stand.count),
        }
    }
}
