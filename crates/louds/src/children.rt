//! Degrees and children, one body for each: over any source, whose words and tables may hold anything, and by any way
//! to find a bit. The calls of the tree, the calls of `counted` and calls over a block run them.
//!
//! ```
//! child_by(&ByTables, &mut source, 4, 0, 1);   // Found(2), Absent or Wrong
//! ```
ghost use Rattle.std.specs.Prelude.{◌≡◌, ◌==◌, ◌+◌, ◌*◌, ◌<◌, ◌≤◌, slice_index, Some};
ghost use Rattle.bitm_tables.specs.Reads.{OnlyReads};
ghost use Rattle.bitm_tables.specs.Tables.{HasSizes};
ghost use Rattle.bitm_selection.specs.Selection.{OnlySelectsBy};
ghost use Rattle.louds.specs.Answers.{AreChildrenOf, AreChildrenWithin, IsChildOf, IsChildWithin};
ghost use Rattle.louds.specs.Answers.{IsDegreeOf, IsDegreeWithin};
ghost use Rattle.louds.specs.Counted.{degrees_in, IsLouds, OnlySelects};
ghost use Rattle.louds.specs.Held.{zero_position};

use crate::between::{child_between, child_from, children_between, degree_between};
use crate::near::near_last_zero_on;
use crate::queries::{far_zero_by, zero_by};
use bitm::near_zero_on;
use bitm_select::search::selecting::ByTables;
use bitm_selection::Finds;
use bitm_tables::answer::Answer;
use bitm_tables::ranking::bit_on;
use bitm_tables::source::TableSource;

/// In how many words the 1 bits of a node are looked at before their end is searched: up to which child, and how many
/// words these bits and the 0 bit before them are in at most.
const NEAR: usize = 64;

pub(crate) const NEAR_WORDS: usize = 2;

/// Child `k` of a node, one of its first 64, where the 0 bit before the node's 1 bits stands at `start`; `Wrong` only
/// where the source holds no tree.
///
/// The last 0 bit up to where the child's 1 bit would stand is the one at `start` exactly where there is such a child.
#[inline(always)]
fn near_child_on<T: TableSource>(
    source: &mut T,
    len: usize,
    node: usize,
    start: usize,
    k: usize,
) -> Answer<usize>
    requires sized { HasSizes (T.lists source.old) }
    requires node { node < len }
    requires near { k < 64 }
    ensures inside { IsChildWithin len node result }
    ensures answer { IsLouds len (T.lists source.old)
        → start ≡ zero_position (degrees_in len (T.lists source.old)) node
        → IsChildOf (degrees_in len (T.lists source.old)) node k result }
    ensures reads { OnlyReads T.lists T.reads source.old source.new 0 0 2 }
{
    let position = start.saturating_add(k + 1);
    if position / 64 >= source.words_len() {
        return Answer::Absent;
    }
    match near_last_zero_on::<NEAR_WORDS, T>(source, position) {
        Some(last) if last > start => Answer::Absent,
        Some(last) if last == start => child_from(start, len, node, k),
        _ => Answer::Wrong,
    }
}

/// Child `k` of a node, where the 0 bit before the node's 1 bits stands at `start`; `Wrong` only where it does not, the
/// source holds no tree, or `finder` does not find its bits.
///
/// # Conditions
/// There are fewer than 2^58 words, and the tables have the right lengths. They may hold anything. There is such a
/// node.
/// # Cost
/// Two words where `k` is less than 64, and what a search reads otherwise, whatever the source holds.
///
/// ```
/// child_after_by(&ByTables, &mut source, 4, 0, 1, 1);   // Found(2), Absent or Wrong: the root's 0 bit stands at 1
/// ```
#[inline(always)]
pub fn child_after_by<F: Finds, T: TableSource>(
    finder: &F,
    source: &mut T,
    len: usize,
    node: usize,
    start: usize,
    k: usize,
) -> Answer<usize>
    requires sized { HasSizes (T.lists source.old) }
    requires node { node < len }
    ensures inside { IsChildWithin len node result }
    ensures answer { IsLouds len (T.lists source.old) → F.finds finder.now (T.lists source.old)
        → start ≡ zero_position (degrees_in len (T.lists source.old)) node
        → IsChildOf (degrees_in len (T.lists source.old)) node k result }
    ensures near { k < 64 → OnlyReads T.lists T.reads source.old source.new 0 0 2 }
    ensures far { 64 ≤ k → OnlySelectsBy T.lists T.reads source.old source.new
        (F.most (T.lists source.old)) 1 0 }
{
    if k < NEAR {
        return near_child_on(source, len, node, start, k);
    }
    match far_zero_by(finder, source, len, node + 1) {
        Some(end) => child_between(start, end, len, node, k),
        None => Answer::Wrong,
    }
}

/// Child `k` of a node, by its number.
///
/// Whatever the source holds, a child is more than the node and less than the number of nodes. Where it holds a tree
/// whose bits `finder` finds, the answer is the child, `Absent` exactly where there is none, and never `Wrong`.
///
/// # Conditions
/// There are fewer than 2^58 words, and the tables have the right lengths. They may hold anything.
/// # Cost
/// What two searches read, whatever the source holds; of the first 64 children what one search reads, and two words.
#[inline(always)]
pub fn child_by<F: Finds, T: TableSource>(
    finder: &F,
    source: &mut T,
    len: usize,
    node: usize,
    k: usize,
) -> Answer<usize>
    requires { HasSizes (T.lists source.old) }
    ensures inside { IsChildWithin len node result }
    ensures answer { IsLouds len (T.lists source.old) → F.finds finder.now (T.lists source.old)
        → IsChildOf (degrees_in len (T.lists source.old)) node k result }
    ensures near { k < 64 → OnlySelectsBy T.lists T.reads source.old source.new
        (F.most (T.lists source.old)) 1 2 }
    ensures far { 64 ≤ k → OnlySelectsBy T.lists T.reads source.old source.new
        (F.most (T.lists source.old)) 2 0 }
{
    if node >= len {
        return Answer::Absent;
    }
    match zero_by(finder, source, len, node) {
        Some(start) => child_after_by(finder, source, len, node, start, k),
        None => Answer::Wrong,
    }
}

/// Child `k` of a node, by its number and by binary search: `child_by` with `ByTables`.
///
/// # Conditions
/// There are fewer than 2^58 words, and the tables have the right lengths. They may hold anything.
/// # Cost
/// What two selections by binary search read, whatever the source holds; of the first 64 children what one selection
/// reads, and two words.
///
/// ```
/// total_child_on(&mut source, 4, 0, 1);   // Found(2), Absent or Wrong
/// ```
pub fn total_child_on<T: TableSource>(
    source: &mut T,
    len: usize,
    node: usize,
    k: usize,
) -> Answer<usize>
    requires { HasSizes (T.lists source.old) }
    ensures inside { IsChildWithin len node result }
    ensures answer { IsLouds len (T.lists source.old)
        → IsChildOf (degrees_in len (T.lists source.old)) node k result }
    ensures near { k < 64 → OnlySelects T.lists T.reads source.old source.new 1 2 }
    ensures reads { OnlySelects T.lists T.reads source.old source.new 2 0 }
{
    child_by(&ByTables, source, len, node, k)
}

/// The position of the 0 bit after the 1 bits of a node, where the 0 bit before them stands at `start`; `None` only
/// where it does not, the source holds no tree, or `finder` does not find its bits.
#[inline(always)]
pub(crate) fn end_after_by<F: Finds, T: TableSource>(
    finder: &F,
    source: &mut T,
    len: usize,
    node: usize,
    start: usize,
) -> Option<usize>
    requires sized { HasSizes (T.lists source.old) }
    requires node { node < len }
    ensures position { IsLouds len (T.lists source.old) → F.finds finder.now (T.lists source.old)
        → start ≡ zero_position (degrees_in len (T.lists source.old)) node
        → result ≡ Some (zero_position (degrees_in len (T.lists source.old)) (node + 1)) }
    ensures reads { OnlySelectsBy T.lists T.reads source.old source.new
        (F.most (T.lists source.old)) 1 2 }
{
    match near_zero_on::<NEAR_WORDS, T>(source, start.saturating_add(1)) {
        Some(end) => Some(end),
        None => far_zero_by(finder, source, len, node + 1),
    }
}

/// The degree of a node, where the 0 bit before the node's 1 bits stands at `start`; `Wrong` only where it does not,
/// the source holds no tree, or `finder` does not find its bits.
///
/// # Conditions
/// There are fewer than 2^58 words, and the tables have the right lengths. They may hold anything. There is such a
/// node.
/// # Cost
/// Two words, and what a search reads where these have no 0 bit after `start`, whatever the source holds.
///
/// ```
/// degree_after_by(&ByTables, &mut source, 4, 0, 1);   // Found(2) or Wrong: the root's 0 bit stands at 1
/// ```
#[inline(always)]
pub fn degree_after_by<F: Finds, T: TableSource>(
    finder: &F,
    source: &mut T,
    len: usize,
    node: usize,
    start: usize,
) -> Answer<usize>
    requires sized { HasSizes (T.lists source.old) }
    requires node { node < len }
    ensures inside { IsDegreeWithin len node result }
    ensures answer { IsLouds len (T.lists source.old) → F.finds finder.now (T.lists source.old)
        → start ≡ zero_position (degrees_in len (T.lists source.old)) node
        → IsDegreeOf (degrees_in len (T.lists source.old)) node result }
    ensures reads { OnlySelectsBy T.lists T.reads source.old source.new
        (F.most (T.lists source.old)) 1 2 }
{
    match end_after_by(finder, source, len, node, start) {
        Some(end) => degree_between(start, end, len, node),
        None => Answer::Wrong,
    }
}

/// How many children a node has, by its number.
///
/// Whatever the source holds, that is less than the number of nodes, and the answer is `Absent` exactly where there is
/// no such node. Where it holds a tree whose bits `finder` finds, the answer is the degree, and never `Wrong`.
///
/// # Conditions
/// There are fewer than 2^58 words, and the tables have the right lengths. They may hold anything.
/// # Cost
/// What a search reads, and two words; what another search reads too where these have no 0 bit after the node's 1 bits,
/// which in a tree is so only where it has more than 64 children.
///
/// ```
/// degree_by(&ByTables, &mut source, 4, 0);   // Found(2), Absent or Wrong
/// ```
#[inline(always)]
pub fn degree_by<F: Finds, T: TableSource>(
    finder: &F,
    source: &mut T,
    len: usize,
    node: usize,
) -> Answer<usize>
    requires { HasSizes (T.lists source.old) }
    ensures inside { IsDegreeWithin len node result }
    ensures answer { IsLouds len (T.lists source.old) → F.finds finder.now (T.lists source.old)
        → IsDegreeOf (degrees_in len (T.lists source.old)) node result }
    ensures reads { OnlySelectsBy T.lists T.reads source.old source.new
        (F.most (T.lists source.old)) 2 2 }
{
    if node >= len {
        return Answer::Absent;
    }
    match zero_by(finder, source, len, node) {
        Some(start) => degree_after_by(finder, source, len, node, start),
        None => Answer::Wrong,
    }
}

/// How many children a node has, by its number and by binary search: `degree_by` with `ByTables`.
///
/// # Conditions
/// There are fewer than 2^58 words, and the tables have the right lengths. They may hold anything.
/// # Cost
/// What two selections by binary search read, and two words, whatever the source holds; what one selection reads, and
/// two words, where these have a 0 bit after the node's 1 bits.
///
/// ```
/// total_degree_on(&mut source, 4, 0);   // Found(2), Absent or Wrong
/// ```
pub fn total_degree_on<T: TableSource>(source: &mut T, len: usize, node: usize) -> Answer<usize>
    requires { HasSizes (T.lists source.old) }
    ensures inside { IsDegreeWithin len node result }
    ensures answer { IsLouds len (T.lists source.old)
        → IsDegreeOf (degrees_in len (T.lists source.old)) node result }
    ensures reads { OnlySelects T.lists T.reads source.old source.new 2 2 }
{
    degree_by(&ByTables, source, len, node)
}

/// The children of a node, where the 0 bit before the node's 1 bits stands at `start`; `Wrong` only where it does not,
/// the source holds no tree, or `finder` does not find its bits.
#[inline(always)]
pub(crate) fn children_after_by<F: Finds, T: TableSource>(
    finder: &F,
    source: &mut T,
    len: usize,
    node: usize,
    start: usize,
) -> Answer<(usize, usize)>
    requires sized { HasSizes (T.lists source.old) }
    requires node { node < len }
    ensures inside { AreChildrenWithin len node result }
    ensures answer { IsLouds len (T.lists source.old) → F.finds finder.now (T.lists source.old)
        → start ≡ zero_position (degrees_in len (T.lists source.old)) node
        → AreChildrenOf (degrees_in len (T.lists source.old)) node result }
    ensures reads { OnlySelectsBy T.lists T.reads source.old source.new
        (F.most (T.lists source.old)) 1 2 }
{
    match end_after_by(finder, source, len, node, start) {
        Some(end) => children_between(start, end, len, node),
        None => Answer::Wrong,
    }
}

/// The children of a node, by its number: the nodes from the first of the two numbers on, and before the second.
///
/// Whatever the source holds, these are nodes after the given one, and the answer is `Absent` exactly where there is no
/// such node. Where it holds a tree whose bits `finder` finds, they are the children in their order, and the answer is
/// never `Wrong`.
///
/// # Conditions
/// There are fewer than 2^58 words, and the tables have the right lengths. They may hold anything.
/// # Cost
/// The cost of `degree_by`.
///
/// ```
/// children_by(&ByTables, &mut source, 4, 0);   // Found((1, 3)), Absent or Wrong
/// ```
#[inline(always)]
pub fn children_by<F: Finds, T: TableSource>(
    finder: &F,
    source: &mut T,
    len: usize,
    node: usize,
) -> Answer<(usize, usize)>
    requires { HasSizes (T.lists source.old) }
    ensures inside { AreChildrenWithin len node result }
    ensures answer { IsLouds len (T.lists source.old) → F.finds finder.now (T.lists source.old)
        → AreChildrenOf (degrees_in len (T.lists source.old)) node result }
    ensures reads { OnlySelectsBy T.lists T.reads source.old source.new
        (F.most (T.lists source.old)) 2 2 }
{
    if node >= len {
        return Answer::Absent;
    }
    match zero_by(finder, source, len, node) {
        Some(start) => children_after_by(finder, source, len, node, start),
        None => Answer::Wrong,
    }
}

/// The children of a node, by its number and by binary search: `children_by` with `ByTables`.
///
/// # Conditions
/// There are fewer than 2^58 words, and the tables have the right lengths. They may hold anything.
/// # Cost
/// The cost of `total_degree_on`.
///
/// ```
/// total_children_on(&mut source, 4, 0);   // Found((1, 3)), Absent or Wrong
/// ```
pub fn total_children_on<T: TableSource>(
    source: &mut T,
    len: usize,
    node: usize,
) -> Answer<(usize, usize)>
    requires { HasSizes (T.lists source.old) }
    ensures inside { AreChildrenWithin len node result }
    ensures answer { IsLouds len (T.lists source.old)
        → AreChildrenOf (degrees_in len (T.lists source.old)) node result }
    ensures reads { OnlySelects T.lists T.reads source.old source.new 2 2 }
{
    children_by(&ByTables, source, len, node)
}

/// Whether a node has no children, where the 0 bit before its 1 bits stands at `start`.
///
/// # Conditions
/// The source holds a tree of `len` nodes, and there is such a node.
/// # Cost
/// One word.
#[inline(always)]
pub(crate) fn ends_after_on<T: TableSource>(
    source: &mut T,
    len: usize,
    node: usize,
    start: usize,
) -> bool
    requires tree { IsLouds len (T.lists source.old) }
    requires node { node < len }
    requires start { start ≡ zero_position (degrees_in len (T.lists source.old)) node }
    ensures leaf { result ≡ (slice_index (degrees_in len (T.lists source.old)) node == 0) }
    ensures reads { OnlyReads T.lists T.reads source.old source.new 0 0 1 }
{
    match bit_on(source, start + 1) {
        Some(bit) => !bit,
        None => unreachable!(),
    }
}
