//! The union of lists: the numbers that stand in any of them.
ghost use Rattle.std.specs.Prelude.{◌≡◌, ℕ, ◌+◌, ◌<◌, ◌≤◌, All, map, length, slice_index, Some};
ghost use Rattle.postings.specs.Joined.{AreJoined, IsInSome, IsLeastAnswer, IsLesser};
ghost use Rattle.postings.specs.Merged.{written_in, IfDone, IsMerged};
ghost use Rattle.postings.specs.Moves.{UnlessWrong};
ghost use Rattle.bit_lists.specs.Kept.{IsKeptFrom};
ghost use Rattle.postings.specs.Shared.{AskedAtMost, KeepsFrom};

use crate::cursor::{Cursor, TotalCursor};
use crate::merged::Merged;
use bitm_tables::answer::Answer;

/// The lesser of two numbers; the first may be missing.
#[inline(always)]
fn lesser(one: Option<u64>, other: u64) -> u64
    ensures { IsLesser one (Some other) (Some result) }
{
    match one {
        Some(x) => if x <= other { x } else { other },
        None => other,
    }
}

/// The least number from `v` on in any of the lists; each is queried once, up to one that turns out wrong.
pub fn least_from<C: TotalCursor>(lists: &mut [C], v: u64) -> Answer<u64>
    ensures least { All C.right lists.old
        → IsLeastAnswer (map C.left lists.old) (length (map C.left lists.old)) v result }
    ensures keeps { All C.right lists.old → KeepsFrom (map C.left lists.old) (map C.left lists.new) v }
    ensures asked { AskedAtMost (map C.calls lists.old) (map C.calls lists.new) 1 }
    ensures right { All C.right lists.old → All C.right lists.new }
    ensures sound { UnlessWrong result (map C.wrong lists.new ≡ map C.wrong lists.old) }
    ensures same { map C.kept lists.new ≡ map C.kept lists.old }
{
    let mut least = None;
    for i in 0..lists.len() {
        match lists[i].total_next_geq(v) {
            Answer::Found(x) => least = Some(lesser(least, x)),
            Answer::Absent => {}
            Answer::Wrong => return Answer::Wrong,
        }
    }
    match least {
        Some(x) => Answer::Found(x),
        None => Answer::Absent,
    }
}

/// The union of lists in memory that may hold anything: what `union` writes where all are right, up to where one turns
/// out wrong. Whatever the memory holds, it is `Done` only if no call of a cursor answered `Wrong`, and what is after
/// the numbers that are written stays as it was.
///
/// # Cost
/// Each list is queried at most once for each number that is written, and once more, whatever they hold.
///
/// # Example
/// ```
/// // of 2, 5, 9 and 5, 7: the union is 2, 5, 7, 9
/// total_union(&mut lists, 0, &mut out);     // Done(4)
/// ```
pub fn total_union<C: TotalCursor>(lists: &mut [C], from: u64, out: &mut [u64]) -> Merged
    ensures joined { All C.right lists.old → IsMerged result (λ count.
        AreJoined (map C.left lists.old) from count (length out.old) out.new) }
    ensures most { written_in result ≤ length out.old }
    ensures rest { IsKeptFrom (written_in result) out.old out.new }
    ensures asked { AskedAtMost (map C.calls lists.old) (map C.calls lists.new)
        (written_in result + 1) }
    ensures left { All C.right lists.old → (x : ℕ) → from ≤ x → IsInSome (map C.left lists.old) x
        → ((k : ℕ) → k < written_in result → slice_index out.new k < x)
        → IsInSome (map C.left lists.new) x }
    ensures right { All C.right lists.old → All C.right lists.new }
    ensures sound { IfDone result (map C.wrong lists.new ≡ map C.wrong lists.old) }
    ensures same { map C.kept lists.new ≡ map C.kept lists.old }
{
    let mut low = from;
    let mut count = 0;
    while count < out.len() {
        let v = match least_from(lists, low) {
            Answer::Found(v) => v,
            Answer::Absent => return Merged::Done(count),
            Answer::Wrong => return Merged::Wrong(count),
        };
        out[count] = v;
        count += 1;
        if v == u64::MAX {
            return Merged::Done(count);
        }
        low = v + 1;
    }
    Merged::Done(count)
}

/// Writes the numbers from `from` on that stand in any of the lists, from their cursors on: rising, each once, until
/// none is left or `out` is full; and answers how many. What is after them stays as it was.
///
/// Where there was no more room, a call with the last number and one more for `from` goes on: no number was passed that
/// it has to find.
///
/// # Cost
/// Each list is queried at most once for each number that is written, and once more.
///
/// # Example
/// ```
/// // of 2, 5, 9 and 5, 7: the union is 2, 5, 7, 9
/// union(&mut lists, 0, &mut out);     // 4
/// ```
pub fn union<C: Cursor>(lists: &mut [C], from: u64, out: &mut [u64]) -> usize
    ensures joined { AreJoined (map C.left lists.old) from result (length out.old) out.new }
    ensures rest { IsKeptFrom result out.old out.new }
    ensures asked { AskedAtMost (map C.calls lists.old) (map C.calls lists.new) (result + 1) }
    ensures left { (x : ℕ) → from ≤ x → IsInSome (map C.left lists.old) x
        → ((k : ℕ) → k < result → slice_index out.new k < x)
        → IsInSome (map C.left lists.new) x }
{
    match total_union(lists, from, out) {
        Merged::Done(count) => count,
        Merged::Wrong(_) => unreachable!(),
    }
}
