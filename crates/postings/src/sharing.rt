//! The intersection of lists: the numbers that all of them share.
ghost use Rattle.std.specs.Prelude.{◌≡◌, ℕ, ◌+◌, ◌<◌, ◌≤◌, All, map, length, slice_index};
ghost use Rattle.postings.specs.Merged.{written_in, IfDone, IsMerged};
ghost use Rattle.postings.specs.Shared.{list_at, AreInAll, AskedAtMost, IfNext, IsAsked, IsInAll};
ghost use Rattle.bit_lists.specs.Kept.{IsKeptFrom};
ghost use Rattle.postings.specs.Shared.{UnlessUnknown};

use crate::cursor::{Cursor, TotalCursor};
use crate::merged::Merged;
use bitm_tables::answer::Answer;

/// What the lists after the first say of a number of the first.
#[derive(Clone, Copy)]
pub(crate) enum Agreed {
    /// It stands in each.
    All,
    /// It does not stand in some, which has this number next.
    Next(u64),
    /// Some list has no such number and no greater one.
    Ended,
    /// Some list turned out wrong.
    Unknown,
}

/// Queries the lists after the first for `v`, in order, up to one that does not have it.
fn ask_others<C: TotalCursor>(lists: &mut [C], v: u64) -> Agreed
    ensures asked { All C.right lists.old → IsAsked (map C.left lists.old) (map C.calls lists.old)
        v result (map C.left lists.new) (map C.calls lists.new) }
    ensures right { All C.right lists.old → All C.right lists.new }
    ensures later { IfNext result (λ x. v < x) }
    ensures sound { UnlessUnknown result (map C.wrong lists.new ≡ map C.wrong lists.old) }
    ensures same { map C.kept lists.new ≡ map C.kept lists.old }
{
    for i in 1..lists.len() {
        match lists[i].total_next_geq(v) {
            Answer::Absent => return Agreed::Ended,
            Answer::Wrong => return Agreed::Unknown,
            Answer::Found(x) => {
                if x != v {
                    return Agreed::Next(x);
                }
            }
        }
    }
    Agreed::All
}

/// The intersection of lists in memory that may hold anything: what `intersect` writes where all are right, up to where
/// one turns out wrong. Whatever the memory holds, it is `Done` only if no call of a cursor answered `Wrong`, and what
/// is after the numbers that are written stays as it was.
///
/// # Conditions
/// There is a list.
/// # Cost
/// The cost of `intersect`, where all lists are right. Whatever they hold it ends: each turn begins at a greater
/// number.
///
/// # Example
/// ```
/// // of 2, 5, 9 and 5, 7, 9: the intersection is 5, 9
/// total_intersect(&mut lists, 0, &mut out);     // Done(2)
/// ```
pub fn total_intersect<C: TotalCursor>(lists: &mut [C], from: u64, out: &mut [u64]) -> Merged
    requires { 0 < length lists.old }
    ensures shared { All C.right lists.old → IsMerged result (λ count.
        AreInAll (map C.left lists.old) from count (length out.old) out.new) }
    ensures most { written_in result ≤ length out.old }
    ensures rest { IsKeptFrom (written_in result) out.old out.new }
    ensures asked { All C.right lists.old → AskedAtMost (map C.calls lists.old) (map C.calls lists.new)
        (length (list_at (map C.left lists.old) 0) + 1) }
    ensures left { All C.right lists.old → (x : ℕ) → from ≤ x → IsInAll (map C.left lists.old) x
        → ((k : ℕ) → k < written_in result → slice_index out.new k < x)
        → IsInAll (map C.left lists.new) x }
    ensures right { All C.right lists.old → All C.right lists.new }
    ensures sound { IfDone result (map C.wrong lists.new ≡ map C.wrong lists.old) }
    ensures same { map C.kept lists.new ≡ map C.kept lists.old }
{
    let mut low = from;
    let mut count = 0;
    while count < out.len() {
        let v = match lists[0].total_next_geq(low) {
            Answer::Found(v) => v,
            Answer::Absent => return Merged::Done(count),
            Answer::Wrong => return Merged::Wrong(count),
        };
        match ask_others(lists, v) {
            Agreed::Ended => return Merged::Done(count),
            Agreed::Unknown => return Merged::Wrong(count),
            Agreed::Next(x) => low = x,
            Agreed::All => {
                out[count] = v;
                count += 1;
                if v == u64::MAX {
                    return Merged::Done(count);
                }
                low = v + 1;
            }
        }
    }
    Merged::Done(count)
}

/// Writes the numbers from `from` on that stand in each of the lists, from their cursors on: rising, each once, until
/// none is left or `out` is full; and answers how many. What is after them stays as it was.
///
/// Where there was no more room, a call with the last number and one more for `from` goes on: no number was passed that
/// it has to find.
///
/// # Conditions
/// There is a list.
/// # Cost
/// Each list is queried at most once for each number of the first list, and once more. So the shortest is best first.
///
/// # Example
/// ```
/// // of 2, 5, 9 and 5, 7, 9: the intersection is 5, 9
/// intersect(&mut lists, 0, &mut out);     // 2
/// ```
pub fn intersect<C: Cursor>(lists: &mut [C], from: u64, out: &mut [u64]) -> usize
    requires { 0 < length lists.old }
    ensures shared { AreInAll (map C.left lists.old) from result (length out.old) out.new }
    ensures rest { IsKeptFrom result out.old out.new }
    ensures asked { AskedAtMost (map C.calls lists.old) (map C.calls lists.new)
        (length (list_at (map C.left lists.old) 0) + 1) }
    ensures left { (x : ℕ) → from ≤ x → IsInAll (map C.left lists.old) x
        → ((k : ℕ) → k < result → slice_index out.new k < x)
        → IsInAll (map C.left lists.new) x }
{
    match total_intersect(lists, from, out) {
        Merged::Done(count) => count,
        Merged::Wrong(_) => unreachable!(),
    }
}
