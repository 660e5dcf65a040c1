//! A node's children, by the positions of the 0 bits before and after its 1 bits: nothing is read.
ghost use Rattle.std.specs.Prelude.{◌≡◌, ◌+◌, ◌^◌, ◌<◌, ℕ, List, length, slice_index};
ghost use Rattle.louds.specs.Answers.{AreChildrenOf, AreChildrenWithin, IsChildOf, IsChildWithin};
ghost use Rattle.louds.specs.Answers.{IsDegreeOf, IsDegreeWithin};
ghost use Rattle.louds.specs.Held.{zero_position};
ghost use Rattle.louds.specs.Tree.{IsTree};

use bitm_tables::answer::Answer;

/// Child `k` of a node that has more than `k` children, where the 0 bit before the node's 1 bits stands at `start`;
/// `Wrong` only where it does not.
#[inline(always)]
pub(crate) fn child_from(start: usize, len: usize, node: usize, k: usize) -> Answer<usize>
    requires node { node < len }
    requires room { start + k < 2 ^ 64 }
    ensures inside { IsChildWithin len node result }
    ensures answer { (d : List ℕ) → len ≡ length d → IsTree d → start ≡ zero_position d node
        → k < slice_index d node → IsChildOf d node k result }
{
    let child = (start + k).wrapping_sub(node);
    if node < child && child < len {
        Answer::Found(child)
    } else {
        Answer::Wrong
    }
}

/// Child `k` of a node, where the 0 bits before and after the node's 1 bits stand at `start` and `end`; `Wrong` only
/// where they do not.
#[inline(always)]
pub(crate) fn child_between(
    start: usize,
    end: usize,
    len: usize,
    node: usize,
    k: usize,
) -> Answer<usize>
    requires { node < len }
    ensures inside { IsChildWithin len node result }
    ensures answer { (d : List ℕ) → len ≡ length d → IsTree d → start ≡ zero_position d node
        → end ≡ zero_position d (node + 1) → IsChildOf d node k result }
{
    if end <= start {
        return Answer::Wrong;
    }
    if k >= end - start - 1 {
        return Answer::Absent;
    }
    child_from(start, len, node, k)
}

/// The degree of a node, where the 0 bits before and after the node's 1 bits stand at `start` and `end`; `Wrong` only
/// where they do not.
#[inline(always)]
pub(crate) fn degree_between(start: usize, end: usize, len: usize, node: usize) -> Answer<usize>
    requires { node < len }
    ensures inside { IsDegreeWithin len node result }
    ensures answer { (d : List ℕ) → len ≡ length d → IsTree d → start ≡ zero_position d node
        → end ≡ zero_position d (node + 1) → IsDegreeOf d node result }
{
    let degree = end.wrapping_sub(start).wrapping_sub(1);
    if degree < len {
        Answer::Found(degree)
    } else {
        Answer::Wrong
    }
}

/// The children of a node, where the 0 bits before and after the node's 1 bits stand at `start` and `end`; `Wrong` only
/// where they do not.
#[inline(always)]
pub(crate) fn children_between(
    start: usize,
    end: usize,
    len: usize,
    node: usize,
) -> Answer<(usize, usize)>
    requires { node < len }
    ensures inside { AreChildrenWithin len node result }
    ensures answer { (d : List ℕ) → len ≡ length d → IsTree d → start ≡ zero_position d node
        → end ≡ zero_position d (node + 1) → AreChildrenOf d node result }
{
    let first = start.wrapping_sub(node);
    let past = end.wrapping_sub(node + 1);
    if node < first && first <= past && past <= len {
        Answer::Found((first, past))
    } else {
        Answer::Wrong
    }
}
