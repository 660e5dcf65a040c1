//! Queries of a tree in a block.
ghost use Rattle.std.specs.Prelude.{◌≡◌};
ghost use Rattle.bitm_trees_c.specs.Tree.{ChildAnswered, ChildRankAnswered, DegreeAnswered, LeafAnswered};
ghost use Rattle.bitm_trees_c.specs.Tree.{NextSiblingAnswered, ParentAnswered, PreviousSiblingAnswered};

use bitm_abi::{BAD_SIZE, Tree, as_number, report};

/// The parent of a node.
#[unsafe(no_mangle)]
pub extern "C" fn bitm_tree_parent(tree: &Tree<'_>, node: usize, out: &mut usize) -> u32
    ensures { ParentAnswered tree.now node result out.old out.new }
{
    match tree.view() {
        Some(view) => report(view.parent(node), out),
        None => BAD_SIZE,
    }
}

/// Child `k` of a node, counted from 0.
#[unsafe(no_mangle)]
pub extern "C" fn bitm_tree_child(tree: &Tree<'_>, node: usize, k: usize, out: &mut usize) -> u32
    ensures { ChildAnswered tree.now node k result out.old out.new }
{
    match tree.view() {
        Some(view) => report(view.child(node, k), out),
        None => BAD_SIZE,
    }
}

/// How many children a node has.
#[unsafe(no_mangle)]
pub extern "C" fn bitm_tree_degree(tree: &Tree<'_>, node: usize, out: &mut usize) -> u32
    ensures { DegreeAnswered tree.now node result out.old out.new }
{
    match tree.view() {
        Some(view) => report(view.degree(node), out),
        None => BAD_SIZE,
    }
}

/// Whether a node has no children, as 0 or 1.
#[unsafe(no_mangle)]
pub extern "C" fn bitm_tree_is_leaf(tree: &Tree<'_>, node: usize, out: &mut usize) -> u32
    ensures { LeafAnswered tree.now node result out.old out.new }
{
    match tree.view() {
        Some(view) => report(as_number(view.is_leaf(node)), out),
        None => BAD_SIZE,
    }
}

/// The next child of a node's parent.
#[unsafe(no_mangle)]
pub extern "C" fn bitm_tree_next_sibling(tree: &Tree<'_>, node: usize, out: &mut usize) -> u32
    ensures { NextSiblingAnswered tree.now node result out.old out.new }
{
    match tree.view() {
        Some(view) => report(view.next_sibling(node), out),
        None => BAD_SIZE,
    }
}

/// The child of a node's parent before it.
#[unsafe(no_mangle)]
pub extern "C" fn bitm_tree_previous_sibling(tree: &Tree<'_>, node: usize, out: &mut usize) -> u32
    ensures { PreviousSiblingAnswered tree.now node result out.old out.new }
{
    match tree.view() {
        Some(view) => report(view.previous_sibling(node), out),
        None => BAD_SIZE,
    }
}

/// Which child of its parent a node is, counted from 0.
#[unsafe(no_mangle)]
pub extern "C" fn bitm_tree_child_rank(tree: &Tree<'_>, node: usize, out: &mut usize) -> u32
    ensures { ChildRankAnswered tree.now node result out.old out.new }
{
    match tree.view() {
        Some(view) => report(view.child_rank(node), out),
        None => BAD_SIZE,
    }
}
