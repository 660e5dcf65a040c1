//! Ways up and down trees, compared with lists of parents, and answers worked by hand.
use bitm::{Select0ForRank101111, SelectForRank101111};
use louds::counted::{child_on, degree_on, is_leaf_on, next_sibling_on, parent_on};
use louds::{BinaryLouds, Louds, LoudsError, are_parents};
use std::alloc::Global;
use std::process::Abort;

/// The parent of a node.
fn parent_in(parents: &[usize], node: usize) -> Option<usize> {
    parents.get(node.checked_sub(1)?).copied()
}

/// How many steps up lead from one node to another; `None` where none do.
fn steps(parents: &[usize], node: usize, above: usize) -> Option<usize> {
    let mut at = node;
    for count in 0..parents.len().saturating_add(1) {
        if at == above {
            return Some(count);
        }
        at = parent_in(parents, at)?;
    }
    None
}

/// The greatest node from which both nodes are reached on the way down.
fn lowest(parents: &[usize], one: usize, other: usize) -> usize {
    let mut low = 0;
    for node in 0..parents.len().saturating_add(1) {
        if steps(parents, one, node).is_some() && steps(parents, other, node).is_some() {
            low = node;
        }
    }
    low
}

/// Whether two answers are the same.
fn same(found: Option<usize>, wanted: Option<usize>) -> bool {
    found == wanted
}

/// Whether what a tree says of one node, and of it and each of its nodes, is what the list of parents says.
fn node_agrees<S: SelectForRank101111, S0: Select0ForRank101111>(
    tree: &Louds<S, S0>,
    parents: &[usize],
    one: usize,
) -> bool {
    if one >= tree.len() {
        return false;
    }
    let mut agrees = same(tree.parent(one), parent_in(parents, one));
    agrees &= same(Some(tree.depth(one)), steps(parents, one, 0));
    for other in 0..tree.len() {
        agrees &= tree.is_ancestor(one, other) != same(steps(parents, other, one), None);
        agrees &= tree.lowest_common_ancestor(one, other) == lowest(parents, one, other);
    }
    agrees
}

/// Whether a list of parents is taken, and what the tree says of each two of its nodes is what the list says; `None`
/// where they differ, or where it is not taken, though it should be.
fn taken<S: SelectForRank101111, S0: Select0ForRank101111>(
    built: &Result<Louds<S, S0>, LoudsError>,
    parents: &[usize],
) -> Option<bool> {
    let Ok(tree) = built else {
        let is_right = matches!(built, Err(LoudsError::NotATree)) && !are_parents(parents);
        return is_right.then_some(false);
    };
    let mut agrees = tree.len() == parents.len().saturating_add(1);
    for one in 0..tree.len() {
        agrees &= node_agrees(tree, parents, one);
    }
    agrees.then_some(true)
}

/// The same of the tree of a list of parents.
fn is_taken(alloc: Global, parents: &[usize]) -> Option<bool> {
    taken(&BinaryLouds::from_parents(alloc, parents), parents)
}

/// The next list of parents in the order of a dictionary; `false` after the last one.
fn go_on(parents: &mut [usize; 8]) -> bool {
    for back in 0..8usize {
        let at = 7usize.saturating_sub(back);
        let next = parents[at].saturating_add(1);
        if next <= at {
            for later in at..8usize {
                parents[later] = next;
            }
            return true;
        }
    }
    false
}

#[test]
fn all_trees_of_nine_nodes_agree_with_their_parents(rt: HostRuntime) {
    // as many as ordered trees of nine nodes, a Catalan number
    let mut parents = [0usize; 8];
    let mut trees = 1u32;
    for _ in 0..2000 {
        assert!(rt; is_taken(rt.alloc(), parents.as_slice()) == Some(true));
        if !go_on(&mut parents) {
            break;
        }
        trees = trees.wrapping_add(1);
    }
    assert!(rt; trees == 1430);
}

#[test]
fn all_lists_of_four_parents_give_trees_or_none(rt: HostRuntime) {
    // 14 ordered trees have five nodes, each with one list of parents
    let mut trees = 0u32;
    for code in 0..4096usize {
        let parents = [code % 8, code / 8 % 8, code / 64 % 8, code / 512];
        match is_taken(rt.alloc(), parents.as_slice()) {
            Some(is_tree) => trees = trees.wrapping_add(is_tree as u32),
            None => panic!(&rt; "{code} does not agree"),
        }
    }
    assert!(rt; trees == 14);
}

/// Two nodes of a tree in which 0 has the children 1 2 3, 1 has 4 5, and 3 has 6; and the lowest node above both.
const LOWEST: [(usize, usize, usize); 3] = [(4, 5, 1), (5, 6, 0), (3, 6, 3)];

/// Whether a tree's ways are those by hand.
fn leads_as_by_hand<S: SelectForRank101111, S0: Select0ForRank101111>(tree: &Louds<S, S0>) -> bool {
    if tree.len() != 7 {
        return false;
    }
    let mut agrees = (tree.degree(0) == 3) & (tree.degree(3) == 1) & (tree.depth(6) == 2);
    agrees &= tree.is_ancestor(3, 6) & !tree.is_ancestor(1, 6);
    agrees &= same(tree.previous_sibling(5), Some(4));
    agrees &= same(tree.previous_sibling(4), None) & same(tree.previous_sibling(0), None);
    let below = tree.children_of_range(1..3);
    agrees &= (below.start == 4) & (below.end == 6);
    for (one, other, low) in LOWEST {
        agrees &= one < tree.len() && other < tree.len();
        agrees = agrees && tree.lowest_common_ancestor(one, other) == low;
    }
    agrees
}

/// Whether counted walks down the same tree, and up it and across it, are those by hand.
fn counts_as_by_hand<S: SelectForRank101111, S0: Select0ForRank101111>(
    tree: &Louds<S, S0>,
) -> bool {
    let len = tree.len();
    if len != 7 {
        return false;
    }
    let probe = &mut tree.probe();
    let mut agrees = (degree_on(probe, len, 1) == 2) & is_leaf_on(probe, len, 2);
    agrees &= same(child_on(probe, len, 3, 0), Some(6));
    agrees &= same(parent_on(probe, len, 5), Some(1));
    agrees &= same(next_sibling_on(probe, len, 4), Some(5));
    agrees & same(next_sibling_on(probe, len, 5), None)
}

/// Whether parents are taken, and all ways of their tree are those by hand.
fn is_by_hand<S: SelectForRank101111, S0: Select0ForRank101111>(
    built: &Result<Louds<S, S0>, LoudsError>,
) -> bool {
    match built {
        Ok(tree) => leads_as_by_hand(tree) & counts_as_by_hand(tree),
        Err(_) => false,
    }
}

#[test]
fn ways_are_those_worked_by_hand(rt: HostRuntime) {
    let parents = [0usize, 0, 0, 1, 1, 3];
    let agrees = is_by_hand(&BinaryLouds::from_parents(rt.alloc(), parents.as_slice()));
    assert!(rt; agrees);
}
