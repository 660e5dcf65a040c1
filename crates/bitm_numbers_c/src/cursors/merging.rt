//! The intersection and the union of the sequences of several cursors.
ghost use Rattle.std.specs.Prelude.{◌≡◌, ◌≢◌, ◌-◌, ◌/◌, ◌<◌, ◌≤◌, ◌↔◌, ◌⊎◌, ℕ, [], ◌∷◌, All, IsTrue};
ghost use Rattle.std.specs.Prelude.{length, map, slice_index};
ghost use Rattle.postings.specs.Joined.{AreJoined, IsInSome};
ghost use Rattle.bit_lists.specs.Kept.{IsKeptFrom};
ghost use Rattle.postings.specs.Merged.{written_in, IsMerged};
ghost use Rattle.postings.specs.Shared.{AreInAll, IsInAll};
ghost use Rattle.bitm_numbers_c.specs.Cursor.{left_in, IsCursorSized, IsMergeStatus, IsRight};

use crate::cursors::cursor::Cursor;
use bitm_abi::{BAD_SIZE, OK, WRONG};
use bitm_tables::answer::Answer;
use postings::{
    Merged, least_from, total_intersect, total_intersect_of_two, total_union, total_union_of_two,
};

/// The room from which on the sequences of two cursors are decoded by blocks.
const ROOM: usize = 64;

/// Whether the sequence of each cursor has the right lengths.
fn are_sized(cursors: &[Cursor<'_>]) -> bool
    ensures { IsTrue result ↔ All IsCursorSized cursors.now }
{
    cursors.iter().all(|cursor| cursor.upper().is_some())
}

/// Reports how a merge ended, and writes how many numbers it wrote where no list turned out wrong.
#[inline(always)]
fn report_merged(merged: Merged, written: &mut usize) -> u32
    ensures { IsMergeStatus merged result written.old written.new }
{
    match merged {
        Merged::Done(count) => {
            *written = count;
            OK
        }
        Merged::Wrong(_) => WRONG,
    }
}

/// The union of the sequences of two cursors, from the cursors on, decoded by blocks. No cursor moves.
fn union_of_two(one: &Cursor<'_>, other: &Cursor<'_>, from: u64, out: &mut [u64]) -> Merged
    ensures joined { IsRight one.now → IsRight other.now → IsMerged result (λ count.
        AreJoined (left_in one.now ∷ left_in other.now ∷ []) from count (length out.old) out.new) }
    ensures most { written_in result ≤ length out.old }
    ensures rest { IsKeptFrom (written_in result) out.old out.new }
{
    let (Some((first, one_at)), Some((second, other_at))) = (
        one.borrowed_from(),
        other.borrowed_from(),
    ) else {
        return Merged::Wrong(0);
    };
    total_union_of_two(&first, one_at, &second, other_at, from, out)
}

/// The intersection of the sequences of two cursors, from the cursors on, decoded by blocks. No cursor moves.
fn intersection_of_two(one: &Cursor<'_>, other: &Cursor<'_>, from: u64, out: &mut [u64]) -> Merged
    ensures shared { IsRight one.now → IsRight other.now → IsMerged result (λ count.
        AreInAll (left_in one.now ∷ left_in other.now ∷ []) from count (length out.old) out.new) }
    ensures most { written_in result ≤ length out.old }
    ensures rest { IsKeptFrom (written_in result) out.old out.new }
{
    let (Some((first, one_at)), Some((second, other_at))) = (
        one.borrowed_from(),
        other.borrowed_from(),
    ) else {
        return Merged::Wrong(0);
    };
    total_intersect_of_two(&first, one_at, &second, other_at, from, out)
}

/// Whether neither of two cursors has more than some four times the numbers left that the other has: else a cursor that
/// skips reads less than blocks do.
fn are_alike(one: &Cursor<'_>, other: &Cursor<'_>) -> bool
    ensures { IsTrue result
        ↔ ((one.now.sequence.len - one.now.index) / 4 ≤ other.now.sequence.len - other.now.index)
        × ((other.now.sequence.len - other.now.index) / 4 ≤ one.now.sequence.len - one.now.index) }
{
    let one_left = one.sequence.len.saturating_sub(one.index);
    let other_left = other.sequence.len.saturating_sub(other.index);
    one_left / 4 <= other_left && other_left / 4 <= one_left
}

/// Moves each cursor past the numbers that were written, the first of `out`, by one call for each.
fn pass(cursors: &mut [Cursor<'_>], from: u64, merged: Merged, out: &[u64]) -> Merged
    requires { written_in merged ≤ length out.now }
    ensures merged { All IsRight cursors.old → result ≡ merged }
    ensures count { written_in result ≡ written_in merged }
    ensures left { All IsRight cursors.old → (x : ℕ) → from ≤ x → IsInSome (map left_in cursors.old) x
        → ((k : ℕ) → k < written_in merged → slice_index out.now k < x) → IsInSome (map left_in cursors.new) x }
    ensures shared { All IsRight cursors.old → (x : ℕ) → from ≤ x → IsInAll (map left_in cursors.old) x
        → ((k : ℕ) → k < written_in merged → slice_index out.now k < x) → IsInAll (map left_in cursors.new) x }
    ensures right { All IsRight cursors.old → All IsRight cursors.new }
    ensures sequences { map (λ c. c.sequence) cursors.new ≡ map (λ c. c.sequence) cursors.old }
{
    let Merged::Done(count) = merged else {
        return merged;
    };
    let low = if count == 0 {
        from
    } else {
        out[count - 1].saturating_add(1)
    };
    match least_from(cursors, low) {
        Answer::Wrong => Merged::Wrong(count),
        _ => merged,
    }
}

/// Whether a merge reads two sequences by blocks: true only where there are two cursors, each at its end or at a number
/// that is at least `from`, and room for many numbers. A cursor that stands before `from` skips to it instead.
fn reads_blocks(cursors: &[Cursor<'_>], from: u64, room: usize) -> bool
    ensures { IsTrue result → length cursors.now ≡ 2 }
{
    cursors.len() == 2 && room >= ROOM && cursors[0].is_from(from) && cursors[1].is_from(from)
}

/// The union of the sequences of several cursors, from the cursors on, which move past the numbers that are written: of
/// two cursors by blocks where there is room for many numbers.
fn unite(cursors: &mut [Cursor<'_>], from: u64, out: &mut [u64]) -> Merged
    ensures joined { All IsRight cursors.old → IsMerged result (λ count.
        AreJoined (map left_in cursors.old) from count (length out.old) out.new) }
    ensures most { written_in result ≤ length out.old }
    ensures rest { IsKeptFrom (written_in result) out.old out.new }
    ensures left { All IsRight cursors.old → (x : ℕ) → from ≤ x → IsInSome (map left_in cursors.old) x
        → ((k : ℕ) → k < written_in result → slice_index out.new k < x) → IsInSome (map left_in cursors.new) x }
    ensures right { All IsRight cursors.old → All IsRight cursors.new }
    ensures sequences { map (λ c. c.sequence) cursors.new ≡ map (λ c. c.sequence) cursors.old }
{
    if !reads_blocks(&*cursors, from, out.len()) {
        return total_union(cursors, from, out);
    }
    let merged = union_of_two(&cursors[0], &cursors[1], from, out);
    pass(cursors, from, merged, out)
}

/// The intersection of the sequences of several cursors, from the cursors on, which move past the numbers that are
/// written: of two cursors by blocks where there is room for many numbers, and they have about as many left.
fn share(cursors: &mut [Cursor<'_>], from: u64, out: &mut [u64]) -> Merged
    requires { 0 < length cursors.old }
    ensures shared { All IsRight cursors.old → IsMerged result (λ count.
        AreInAll (map left_in cursors.old) from count (length out.old) out.new) }
    ensures most { written_in result ≤ length out.old }
    ensures rest { IsKeptFrom (written_in result) out.old out.new }
    ensures left { All IsRight cursors.old → (x : ℕ) → from ≤ x → IsInAll (map left_in cursors.old) x
        → ((k : ℕ) → k < written_in result → slice_index out.new k < x) → IsInAll (map left_in cursors.new) x }
    ensures right { All IsRight cursors.old → All IsRight cursors.new }
    ensures sequences { map (λ c. c.sequence) cursors.new ≡ map (λ c. c.sequence) cursors.old }
{
    if !reads_blocks(&*cursors, from, out.len()) || !are_alike(&cursors[0], &cursors[1]) {
        return total_intersect(cursors, from, out);
    }
    let merged = intersection_of_two(&cursors[0], &cursors[1], from, out);
    pass(cursors, from, merged, out)
}

/// Writes the numbers from `from` on that stand in the sequence of each cursor, from the cursors on, and how many. A
/// wrong length of a sequence is found before anything is written or a cursor moves.
#[unsafe(no_mangle)]
pub extern "C" fn bitm_cursors_intersect(
    cursors: &mut [Cursor<'_>],
    from: u64,
    out: &mut [u64],
    written: &mut usize,
) -> u32
    ensures bad { (result ≡ 2) ↔ (length cursors.old ≡ 0) }
    ensures status { (result ≡ 0) ⊎ (result ≡ 2) ⊎ (result ≡ 3) }
    ensures sizes { ¬ All IsCursorSized cursors.old
        → (result ≡ 3) × (cursors.new ≡ cursors.old) × (out.new ≡ out.old) }
    ensures sequences { map (λ c. c.sequence) cursors.new ≡ map (λ c. c.sequence) cursors.old }
    ensures shared { All IsRight cursors.old → result ≢ 2 → (result ≡ 0)
        × AreInAll (map left_in cursors.old) from written.new (length out.old) out.new }
    ensures most { result ≡ 0 → written.new ≤ length out.old }
    ensures rest { result ≡ 0 → IsKeptFrom written.new out.old out.new }
    ensures left { All IsRight cursors.old → result ≡ 0 → (x : ℕ) → from ≤ x → IsInAll (map left_in cursors.old) x
        → ((k : ℕ) → k < written.new → slice_index out.new k < x) → IsInAll (map left_in cursors.new) x }
    ensures right { All IsRight cursors.old → All IsRight cursors.new }
    ensures kept { result ≢ 0 → written.new ≡ written.old }
{
    if cursors.is_empty() {
        return BAD_SIZE;
    }
    if !are_sized(cursors) {
        return WRONG;
    }
    report_merged(share(cursors, from, out), written)
}

/// Writes the numbers from `from` on that stand in the sequence of any cursor, from the cursors on, and how many. A
/// wrong length of a sequence is found before anything is written or a cursor moves.
#[unsafe(no_mangle)]
pub extern "C" fn bitm_cursors_union(
    cursors: &mut [Cursor<'_>],
    from: u64,
    out: &mut [u64],
    written: &mut usize,
) -> u32
    ensures status { (result ≡ 0) ⊎ (result ≡ 3) }
    ensures sizes { ¬ All IsCursorSized cursors.old
        → (result ≡ 3) × (cursors.new ≡ cursors.old) × (out.new ≡ out.old) }
    ensures sequences { map (λ c. c.sequence) cursors.new ≡ map (λ c. c.sequence) cursors.old }
    ensures joined { All IsRight cursors.old → (result ≡ 0)
        × AreJoined (map left_in cursors.old) from written.new (length out.old) out.new }
    ensures most { result ≡ 0 → written.new ≤ length out.old }
    ensures rest { result ≡ 0 → IsKeptFrom written.new out.old out.new }
    ensures left { All IsRight cursors.old → (x : ℕ) → from ≤ x → IsInSome (map left_in cursors.old) x
        → ((k : ℕ) → k < written.new → slice_index out.new k < x) → IsInSome (map left_in cursors.new) x }
    ensures right { All IsRight cursors.old → All IsRight cursors.new }
    ensures kept { result ≢ 0 → written.new ≡ written.old }
{
    if !are_sized(cursors) {
        return WRONG;
    }
    report_merged(unite(cursors, from, out), written)
}
