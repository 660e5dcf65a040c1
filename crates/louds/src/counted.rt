//! The calls of a tree over any source, by binary search: their reads are counted.
ghost use Rattle.std.specs.Prelude.{◌≡◌, ◌==◌, ◌<◌, slice_index};
ghost use Rattle.louds.specs.Counted.{degrees_in, IsLouds, OnlySelects};
ghost use Rattle.louds.specs.Tree.{MatchesChild, MatchesNextSibling, MatchesParent};

use crate::between::degree_between;
use crate::children::total_child_on;
use crate::queries::{is_leaf_by, next_sibling_by, parent_by, zero_by};
use bitm::index_laws;
use bitm_select::search::selecting::ByTables;
use bitm_tables::answer::Answer;
use bitm_tables::source::TableSource;

/// How many children a node has.
///
/// # Conditions
/// The source holds a tree of `len` nodes, and there is such a node.
/// # Cost
/// What two selections by binary search read.
pub fn degree_on<T: TableSource>(source: &mut T, len: usize, node: usize) -> usize
    requires tree { IsLouds len (T.lists source.old) }
    requires node { node < len }
    ensures degree { result ≡ slice_index (degrees_in len (T.lists source.old)) node }
    ensures reads { OnlySelects T.lists T.reads source.old source.new 2 0 }
{
    index_laws::tables_have_sizes();
    let start = zero_by(&ByTables, source, len, node);
    let end = zero_by(&ByTables, source, len, node + 1);
    let (Some(start), Some(end)) = (start, end) else {
        unreachable!()
    };
    match degree_between(start, end, len, node) {
        Answer::Found(degree) => degree,
        _ => unreachable!(),
    }
}

/// Whether a node has no children.
///
/// # Conditions
/// The source holds a tree of `len` nodes, and there is such a node.
/// # Cost
/// What a selection by binary search reads, and one word.
pub fn is_leaf_on<T: TableSource>(source: &mut T, len: usize, node: usize) -> bool
    requires tree { IsLouds len (T.lists source.old) }
    requires node { node < len }
    ensures leaf { result ≡ (slice_index (degrees_in len (T.lists source.old)) node == 0) }
    ensures reads { OnlySelects T.lists T.reads source.old source.new 1 1 }
{
    index_laws::tables_have_sizes();
    match is_leaf_by(&ByTables, source, len, node) {
        Answer::Found(leaf) => leaf,
        _ => unreachable!(),
    }
}

/// Child `k` of a node; `None` exactly where it has no more than `k` children.
///
/// # Conditions
/// The source holds a tree of `len` nodes, and there is such a node.
/// # Cost
/// What two selections by binary search read.
pub fn child_on<T: TableSource>(source: &mut T, len: usize, node: usize, k: usize) -> Option<usize>
    requires tree { IsLouds len (T.lists source.old) }
    requires node { node < len }
    ensures child { MatchesChild (degrees_in len (T.lists source.old)) node k result }
    ensures reads { OnlySelects T.lists T.reads source.old source.new 2 0 }
{
    index_laws::tables_have_sizes();
    total_child_on(source, len, node, k).right()
}

/// The parent of a node; `None` exactly where it is the root.
///
/// # Conditions
/// The source holds a tree of `len` nodes, and there is such a node.
/// # Cost
/// What a selection by binary search reads.
pub fn parent_on<T: TableSource>(source: &mut T, len: usize, node: usize) -> Option<usize>
    requires tree { IsLouds len (T.lists source.old) }
    requires node { node < len }
    ensures parent { MatchesParent (degrees_in len (T.lists source.old)) node result }
    ensures reads { OnlySelects T.lists T.reads source.old source.new 1 0 }
{
    index_laws::tables_have_sizes();
    parent_by(&ByTables, source, len, node).right()
}

/// The next child of a node's parent; `None` exactly where the node is the last child or the root.
///
/// # Conditions
/// The source holds a tree of `len` nodes, and there is such a node.
/// # Cost
/// What a selection by binary search reads, and one word.
pub fn next_sibling_on<T: TableSource>(source: &mut T, len: usize, node: usize) -> Option<usize>
    requires tree { IsLouds len (T.lists source.old) }
    requires node { node < len }
    ensures sibling { MatchesNextSibling (degrees_in len (T.lists source.old)) node result }
    ensures reads { OnlySelects T.lists T.reads source.old source.new 1 1 }
{
    index_laws::tables_have_sizes();
    match next_sibling_by(&ByTables, source, len, node) {
        Answer::Found(sibling) => Some(sibling),
        Answer::Absent => None,
        Answer::Wrong => unreachable!(),
    }
}
