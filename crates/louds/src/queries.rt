//! Parents, leaves and siblings, one body for each: over any source, whose words and tables may hold anything, and by
//! any way to find a bit. The calls of the tree, the calls of `counted` and calls over a block run them.
//!
//! ```
//! parent_by(&ByTables, &mut source, 4, 3);   // Found(2), Absent or Wrong
//! ```
ghost use Rattle.std.specs.Prelude.{◌≡◌, ◌+◌, ◌-◌, ◌*◌, ◌^◌, ◌<◌, ◌≤◌, ℕ, List, length, slice_index};
ghost use Rattle.std.specs.Prelude.{IfSome, MatchOption, Some};
ghost use Rattle.bitm_tables.specs.Reads.{OnlyReads};
ghost use Rattle.bitm_tables.specs.Tables.{HasSizes};
ghost use Rattle.bitm_selection.specs.Selection.{OnlySelectsBy};
ghost use Rattle.louds.specs.Answers.{IsChildRankOf, IsChildRankWithin, IsLeafOf, IsLeafWithin};
ghost use Rattle.louds.specs.Answers.{IsNextSiblingOf, IsNextSiblingWithin, IsParentOf, IsParentWithin};
ghost use Rattle.louds.specs.Answers.{IsPreviousSiblingOf, IsPreviousSiblingWithin};
ghost use Rattle.louds.specs.Counted.{degrees_in, IsLouds};
ghost use Rattle.louds.specs.Held.{zero_position, IsOneOf};
ghost use Rattle.louds.specs.Node.{IsParentNodeOf, IsParentNodeWithin};
ghost use Rattle.louds.specs.Tree.{IsChild};

use crate::children::NEAR_WORDS;
use crate::near::near_last_zero_on;
use crate::node::Node;
use bitm_selection::Finds;
use bitm_tables::answer::Answer;
use bitm_tables::ranking::bit_on;
use bitm_tables::source::TableSource;

/// The position of the 0 bit before the 1 bits of a node, or of the last 0 bit; `None` only where the source holds no
/// tree, or `finder` does not find its bits.
///
/// # Conditions
/// There are fewer than 2^58 words, and the tables have the right lengths. They may hold anything. The node is none
/// after the last.
/// # Cost
/// What a search reads.
#[inline(always)]
pub fn zero_by<F: Finds, T: TableSource>(
    finder: &F,
    source: &mut T,
    len: usize,
    node: usize,
) -> Option<usize>
    requires sized { HasSizes (T.lists source.old) }
    requires node { node ≤ len }
    ensures position { IsLouds len (T.lists source.old) → F.finds finder.now (T.lists source.old)
        → result ≡ Some (zero_position (degrees_in len (T.lists source.old)) node) }
    ensures small { IfSome result (λ position. position < 2 ^ 64 - 1) }
    ensures reads { OnlySelectsBy T.lists T.reads source.old source.new
        (F.most (T.lists source.old)) 1 0 }
{
    match finder.zero(source, node) {
        Answer::Found(position) => Some(position),
        Answer::Absent => None,
        Answer::Wrong => None,
    }
}

/// The position of the 1 bit of a node; `None` only where the source holds no tree, or `finder` does not find its bits.
///
/// # Conditions
/// There are fewer than 2^58 words, and the tables have the right lengths. They may hold anything. There is such a
/// node.
/// # Cost
/// What a search reads.
#[inline(always)]
pub fn one_by<F: Finds, T: TableSource>(
    finder: &F,
    source: &mut T,
    len: usize,
    node: usize,
) -> Option<usize>
    requires sized { HasSizes (T.lists source.old) }
    requires node { node < len }
    ensures position { IsLouds len (T.lists source.old) → F.finds finder.now (T.lists source.old)
        → MatchOption result ⊥ (IsOneOf (degrees_in len (T.lists source.old)) node) }
    ensures small { IfSome result (λ position. position < 2 ^ 64 - 1) }
    ensures reads { OnlySelectsBy T.lists T.reads source.old source.new
        (F.most (T.lists source.old)) 1 0 }
{
    match finder.one(source, node) {
        Answer::Found(position) => Some(position),
        Answer::Absent => None,
        Answer::Wrong => None,
    }
}

/// The parent of a node whose 1 bit stands at a position; `Wrong` only where none does.
///
/// # Conditions
/// There is such a node, and it is not the root.
/// # Cost
/// Constant time; evident from the code.
#[inline(always)]
pub fn parent_at(position: usize, len: usize, node: usize) -> Answer<usize>
    requires some { 0 < node }
    requires inside { node < len }
    ensures inside { IsParentWithin len node result }
    ensures answer { (d : List ℕ) → len ≡ length d → IsOneOf d node position → IsParentOf d node result }
{
    let parent = position.wrapping_sub(node + 1);
    if parent < node {
        Answer::Found(parent)
    } else {
        Answer::Wrong
    }
}

/// The parent of a node, by its number.
///
/// Whatever the source holds, a parent is less than the node, and the answer is `Absent` exactly at the root and where
/// there is no such node. Where it holds a tree whose bits `finder` finds, the answer is the parent, and never `Wrong`.
///
/// # Conditions
/// There are fewer than 2^58 words, and the tables have the right lengths. They may hold anything.
/// # Cost
/// What a search reads, whatever the source holds.
#[inline(always)]
pub fn parent_by<F: Finds, T: TableSource>(
    finder: &F,
    source: &mut T,
    len: usize,
    node: usize,
) -> Answer<usize>
    requires { HasSizes (T.lists source.old) }
    ensures inside { IsParentWithin len node result }
    ensures answer { IsLouds len (T.lists source.old) → F.finds finder.now (T.lists source.old)
        → IsParentOf (degrees_in len (T.lists source.old)) node result }
    ensures reads { OnlySelectsBy T.lists T.reads source.old source.new
        (F.most (T.lists source.old)) 1 0 }
{
    if node == 0 || node >= len {
        return Answer::Absent;
    }
    match one_by(finder, source, len, node) {
        Some(position) => parent_at(position, len, node),
        None => Answer::Wrong,
    }
}

/// `zero_by`, out of the way of calls that seldom need it.
#[inline(never)]
pub(crate) fn far_zero_by<F: Finds, T: TableSource>(
    finder: &F,
    source: &mut T,
    len: usize,
    node: usize,
) -> Option<usize>
    requires sized { HasSizes (T.lists source.old) }
    requires node { node ≤ len }
    ensures position { IsLouds len (T.lists source.old) → F.finds finder.now (T.lists source.old)
        → result ≡ Some (zero_position (degrees_in len (T.lists source.old)) node) }
    ensures reads { OnlySelectsBy T.lists T.reads source.old source.new
        (F.most (T.lists source.old)) 1 0 }
{
    zero_by(finder, source, len, node)
}

/// The position of the 0 bit before the 1 bits of a node, where the 1 bit of a child stands at `one`; `None` only where
/// the source holds no tree in which it does, or `finder` does not find its bits.
///
/// # Conditions
/// There are fewer than 2^58 words, and the tables have the right lengths. They may hold anything. There is such a
/// node.
/// # Cost
/// Two words, and what a search reads where these have no 0 bit up to `one`, whatever the source holds; in a tree that
/// is so only where 64 other children or more stand before the child.
#[inline(always)]
fn start_by<F: Finds, T: TableSource>(
    finder: &F,
    source: &mut T,
    len: usize,
    node: usize,
    one: usize,
) -> Option<usize>
    requires sized { HasSizes (T.lists source.old) }
    requires node { node < len }
    ensures position { let d = degrees_in len (T.lists source.old) in
        IsLouds len (T.lists source.old) → F.finds finder.now (T.lists source.old)
        → (k : ℕ) → k < slice_index d node → one ≡ zero_position d node + 1 + k
        → result ≡ Some (zero_position d node) }
    ensures near { let d = degrees_in len (T.lists source.old) in
        IsLouds len (T.lists source.old)
        → (k : ℕ) → k < slice_index d node → one ≡ zero_position d node + 1 + k → k < 64
        → OnlyReads T.lists T.reads source.old source.new 0 0 2 }
    ensures reads { OnlySelectsBy T.lists T.reads source.old source.new
        (F.most (T.lists source.old)) 1 2 }
{
    if one / 64 >= source.words_len() {
        return None;
    }
    match near_last_zero_on::<NEAR_WORDS, T>(source, one) {
        Some(position) => Some(position),
        None => far_zero_by(finder, source, len, node),
    }
}

/// The parent of a node, with its position, by the node's number: `parent_by` with what a walk carries on.
///
/// Whatever the source holds, a parent is less than the node, and the answer is `Absent` exactly at the root and where
/// there is no such node. Where it holds a tree whose bits `finder` finds, the answer is the parent, and never `Wrong`.
///
/// # Conditions
/// There are fewer than 2^58 words, and the tables have the right lengths. They may hold anything.
/// # Cost
/// What two searches read, and two words, whatever the source holds; in a tree whose bits `finder` finds what one
/// search reads, and two words, unless 64 children of the parent or more stand before the node.
#[inline(always)]
pub(crate) fn parent_of_by<F: Finds, T: TableSource>(
    finder: &F,
    source: &mut T,
    len: usize,
    node: usize,
) -> Answer<Node>
    requires { HasSizes (T.lists source.old) }
    ensures inside { IsParentNodeWithin len node result }
    ensures answer { IsLouds len (T.lists source.old) → F.finds finder.now (T.lists source.old)
        → IsParentNodeOf (degrees_in len (T.lists source.old)) node result }
    ensures near { IsLouds len (T.lists source.old) → F.finds finder.now (T.lists source.old)
        → (i k : ℕ) → IsChild (degrees_in len (T.lists source.old)) i k node → k < 64
        → OnlySelectsBy T.lists T.reads source.old source.new (F.most (T.lists source.old)) 1 2 }
    ensures reads { OnlySelectsBy T.lists T.reads source.old source.new
        (F.most (T.lists source.old)) 2 2 }
{
    if node == 0 || node >= len {
        return Answer::Absent;
    }
    let Some(one) = one_by(finder, source, len, node) else {
        return Answer::Wrong;
    };
    let Answer::Found(number) = parent_at(one, len, node) else {
        return Answer::Wrong;
    };
    match start_by(finder, source, len, number, one) {
        Some(position) => Answer::Found(Node { number, position }),
        None => Answer::Wrong,
    }
}

/// Whether a node has no children, by its number.
///
/// Whatever the source holds, the answer is `Absent` exactly where there is no such node. Where it holds a tree whose
/// bits `finder` finds, the answer is whether the degree is 0, and never `Wrong`.
///
/// # Conditions
/// There are fewer than 2^58 words, and the tables have the right lengths. They may hold anything.
/// # Cost
/// What a search reads, and one word, whatever the source holds.
#[inline(always)]
pub fn is_leaf_by<F: Finds, T: TableSource>(
    finder: &F,
    source: &mut T,
    len: usize,
    node: usize,
) -> Answer<bool>
    requires { HasSizes (T.lists source.old) }
    ensures inside { IsLeafWithin len node result }
    ensures answer { IsLouds len (T.lists source.old) → F.finds finder.now (T.lists source.old)
        → IsLeafOf (degrees_in len (T.lists source.old)) node result }
    ensures reads { OnlySelectsBy T.lists T.reads source.old source.new
        (F.most (T.lists source.old)) 1 1 }
{
    if node >= len {
        return Answer::Absent;
    }
    let Some(start) = zero_by(finder, source, len, node) else {
        return Answer::Wrong;
    };
    match bit_on(source, start + 1) {
        Some(bit) => Answer::Found(!bit),
        None => Answer::Wrong,
    }
}

/// Which child of its parent a node is, counted from 0, by the node's number.
///
/// Whatever the source holds, that is less than the number of nodes, and the answer is `Absent` exactly at the root and
/// where there is no such node. Where the source holds a tree whose bits `finder` finds, the node is that child of its
/// parent, and the answer is never `Wrong`.
///
/// # Conditions
/// There are fewer than 2^58 words, and the tables have the right lengths. They may hold anything.
/// # Cost
/// What two searches read, whatever the source holds.
#[inline(always)]
pub fn child_rank_by<F: Finds, T: TableSource>(
    finder: &F,
    source: &mut T,
    len: usize,
    node: usize,
) -> Answer<usize>
    requires { HasSizes (T.lists source.old) }
    ensures inside { IsChildRankWithin len node result }
    ensures answer { IsLouds len (T.lists source.old) → F.finds finder.now (T.lists source.old)
        → IsChildRankOf (degrees_in len (T.lists source.old)) node result }
    ensures reads { OnlySelectsBy T.lists T.reads source.old source.new
        (F.most (T.lists source.old)) 2 0 }
{
    if node == 0 || node >= len {
        return Answer::Absent;
    }
    let Some(position) = one_by(finder, source, len, node) else {
        return Answer::Wrong;
    };
    let Answer::Found(parent) = parent_at(position, len, node) else {
        return Answer::Wrong;
    };
    let Some(start) = zero_by(finder, source, len, parent) else {
        return Answer::Wrong;
    };
    let k = position.wrapping_sub(start + 1);
    if k < len {
        Answer::Found(k)
    } else {
        Answer::Wrong
    }
}

/// The next child of a node's parent, by its number.
///
/// Whatever the source holds, it is the number after the node's own, and there is such a node. Where the source holds a
/// tree whose bits `finder` finds, the answer is the next sibling, `Absent` exactly at the last child, at the root and
/// where there is no such node, and never `Wrong`.
///
/// # Conditions
/// There are fewer than 2^58 words, and the tables have the right lengths. They may hold anything.
/// # Cost
/// What a search reads, and one word, whatever the source holds.
#[inline(always)]
pub fn next_sibling_by<F: Finds, T: TableSource>(
    finder: &F,
    source: &mut T,
    len: usize,
    node: usize,
) -> Answer<usize>
    requires { HasSizes (T.lists source.old) }
    ensures inside { IsNextSiblingWithin len node result }
    ensures answer { IsLouds len (T.lists source.old) → F.finds finder.now (T.lists source.old)
        → IsNextSiblingOf (degrees_in len (T.lists source.old)) node result }
    ensures reads { OnlySelectsBy T.lists T.reads source.old source.new
        (F.most (T.lists source.old)) 1 1 }
{
    if node >= len {
        return Answer::Absent;
    }
    let Some(position) = one_by(finder, source, len, node) else {
        return Answer::Wrong;
    };
    match bit_on(source, position + 1) {
        Some(true) if node + 1 < len => Answer::Found(node + 1),
        Some(false) => Answer::Absent,
        _ => Answer::Wrong,
    }
}

/// The child of a node's parent before it, by its number.
///
/// Whatever the source holds, it is the number before the node's own. Where the source holds a tree whose bits `finder`
/// finds, the answer is the previous sibling, `Absent` exactly at the first child, at the root and where there is no
/// such node, and never `Wrong`.
///
/// # Conditions
/// There are fewer than 2^58 words, and the tables have the right lengths. They may hold anything.
/// # Cost
/// What a search reads, and one word, whatever the source holds; nothing at the root.
#[inline(always)]
pub fn previous_sibling_by<F: Finds, T: TableSource>(
    finder: &F,
    source: &mut T,
    len: usize,
    node: usize,
) -> Answer<usize>
    requires { HasSizes (T.lists source.old) }
    ensures inside { IsPreviousSiblingWithin len node result }
    ensures answer { IsLouds len (T.lists source.old) → F.finds finder.now (T.lists source.old)
        → IsPreviousSiblingOf (degrees_in len (T.lists source.old)) node result }
    ensures reads { OnlySelectsBy T.lists T.reads source.old source.new
        (F.most (T.lists source.old)) 1 1 }
{
    if node == 0 || node >= len {
        return Answer::Absent;
    }
    let Some(position) = one_by(finder, source, len, node) else {
        return Answer::Wrong;
    };
    match bit_on(source, position.wrapping_sub(1)) {
        Some(true) => Answer::Found(node - 1),
        Some(false) => Answer::Absent,
        None => Answer::Wrong,
    }
}
