//! Parents, leaves, siblings and ranks among siblings over any source, whose words and tables may hold anything.
ghost use Rattle.bitm_tables.specs.Tables.{HasSizes};
ghost use Rattle.louds.specs.Answers.{IsChildRankOf, IsChildRankWithin, IsLeafOf, IsLeafWithin};
ghost use Rattle.louds.specs.Answers.{IsNextSiblingOf, IsNextSiblingWithin, IsParentOf, IsParentWithin};
ghost use Rattle.louds.specs.Answers.{IsPreviousSiblingOf, IsPreviousSiblingWithin};
ghost use Rattle.louds.specs.Counted.{degrees_in, IsLouds, OnlySelects};

use bitm_select::search::selecting::ByTables;
use bitm_tables::answer::Answer;
use bitm_tables::source::TableSource;
use louds::queries::{child_rank_by, is_leaf_by, next_sibling_by, parent_by, previous_sibling_by};

/// The parent of a node, by its number.
///
/// Whatever the source holds, a parent is less than the node, and the answer is `Absent` exactly at the root and where
/// there is no such node. Where it holds a tree, the answer is the parent, and never `Wrong`.
///
/// # Conditions
/// There are fewer than 2^58 words, and the tables have the right lengths. They may hold anything.
/// # Cost
/// What a selection by binary search reads, whatever the source holds.
///
/// ```
/// total_parent_on(&mut source, 4, 3);   // Found(2), Absent or Wrong
/// ```
pub fn total_parent_on<T: TableSource>(source: &mut T, len: usize, node: usize) -> Answer<usize>
    requires { HasSizes (T.lists source.old) }
    ensures inside { IsParentWithin len node result }
    ensures answer { IsLouds len (T.lists source.old)
        → IsParentOf (degrees_in len (T.lists source.old)) node result }
    ensures reads { OnlySelects T.lists T.reads source.old source.new 1 0 }
{
    parent_by(&ByTables, source, len, node)
}

/// Whether a node has no children, by its number.
///
/// Whatever the source holds, the answer is `Absent` exactly where there is no such node. Where it holds a tree, the
/// answer is whether the degree is 0, and never `Wrong`.
///
/// # Conditions
/// There are fewer than 2^58 words, and the tables have the right lengths. They may hold anything.
/// # Cost
/// What a selection by binary search reads, and one word, whatever the source holds.
///
/// ```
/// total_is_leaf_on(&mut source, 4, 3);   // Found(true), Absent or Wrong
/// ```
pub fn total_is_leaf_on<T: TableSource>(source: &mut T, len: usize, node: usize) -> Answer<bool>
    requires { HasSizes (T.lists source.old) }
    ensures inside { IsLeafWithin len node result }
    ensures answer { IsLouds len (T.lists source.old)
        → IsLeafOf (degrees_in len (T.lists source.old)) node result }
    ensures reads { OnlySelects T.lists T.reads source.old source.new 1 1 }
{
    is_leaf_by(&ByTables, source, len, node)
}

/// The next child of a node's parent, by its number.
///
/// Whatever the source holds, it is the number after the node's own, and there is such a node. Where the source holds a
/// tree, the answer is the next sibling, `Absent` exactly at the last child, at the root and where there is no such
/// node, and never `Wrong`.
///
/// # Conditions
/// There are fewer than 2^58 words, and the tables have the right lengths. They may hold anything.
/// # Cost
/// What a selection by binary search reads, and one word, whatever the source holds.
///
/// ```
/// total_next_sibling_on(&mut source, 4, 1);   // Found(2), Absent or Wrong
/// ```
pub fn total_next_sibling_on<T: TableSource>(
    source: &mut T,
    len: usize,
    node: usize,
) -> Answer<usize>
    requires { HasSizes (T.lists source.old) }
    ensures inside { IsNextSiblingWithin len node result }
    ensures answer { IsLouds len (T.lists source.old)
        → IsNextSiblingOf (degrees_in len (T.lists source.old)) node result }
    ensures reads { OnlySelects T.lists T.reads source.old source.new 1 1 }
{
    next_sibling_by(&ByTables, source, len, node)
}

/// The child of a node's parent before it, by its number.
///
/// Whatever the source holds, it is the number before the node's own. Where the source holds a tree, the answer is the
/// previous sibling, `Absent` exactly at the first child, at the root and where there is no such node, and never
/// `Wrong`.
///
/// # Conditions
/// There are fewer than 2^58 words, and the tables have the right lengths. They may hold anything.
/// # Cost
/// What a selection by binary search reads, and one word, whatever the source holds; nothing at the root.
///
/// ```
/// total_previous_sibling_on(&mut source, 4, 2);   // Found(1), Absent or Wrong
/// ```
pub fn total_previous_sibling_on<T: TableSource>(
    source: &mut T,
    len: usize,
    node: usize,
) -> Answer<usize>
    requires { HasSizes (T.lists source.old) }
    ensures inside { IsPreviousSiblingWithin len node result }
    ensures answer { IsLouds len (T.lists source.old)
        → IsPreviousSiblingOf (degrees_in len (T.lists source.old)) node result }
    ensures reads { OnlySelects T.lists T.reads source.old source.new 1 1 }
{
    previous_sibling_by(&ByTables, source, len, node)
}

/// Which child of its parent a node is, counted from 0, by the node's number.
///
/// Whatever the source holds, that is less than the number of nodes, and the answer is `Absent` exactly at the root and
/// where there is no such node. Where the source holds a tree, the node is that child of its parent, and the answer is
/// never `Wrong`.
///
/// # Conditions
/// There are fewer than 2^58 words, and the tables have the right lengths. They may hold anything.
/// # Cost
/// What two selections by binary search read, whatever the source holds.
///
/// ```
/// total_child_rank_on(&mut source, 4, 2);   // Found(1), Absent or Wrong
/// ```
pub fn total_child_rank_on<T: TableSource>(source: &mut T, len: usize, node: usize) -> Answer<usize>
    requires { HasSizes (T.lists source.old) }
    ensures inside { IsChildRankWithin len node result }
    ensures answer { IsLouds len (T.lists source.old)
        → IsChildRankOf (degrees_in len (T.lists source.old)) node result }
    ensures reads { OnlySelects T.lists T.reads source.old source.new 2 0 }
{
    child_rank_by(&ByTables, source, len, node)
}
