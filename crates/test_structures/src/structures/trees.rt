//! Trees compared with a search for parents by the definition, and answers worked by hand.
use bitm::{Select0ForRank101111, SelectForRank101111};
use louds::{BinaryLouds, Louds, LoudsError, Node, SampledLouds, is_tree};
use std::alloc::Global;
use std::process::Abort;

/// What is known of a node from its parent: the parent, which child it is, and its next sibling, where it has them.
type Position = (Option<usize>, Option<usize>, Option<usize>);

/// The parent, the rank among its children and the next sibling of a node, by the definition.
fn position_of(degrees: &[usize], node: usize) -> Position {
    let mut number = 1usize;
    for (i, degree) in degrees.iter().enumerate() {
        for k in 0..*degree {
            if number == node {
                let is_last = k.wrapping_add(1) == *degree;
                let next = if is_last {
                    None
                } else {
                    Some(node.wrapping_add(1))
                };
                return (Some(i), Some(k), next);
            }
            number = number.wrapping_add(1);
        }
    }
    (None, None, None)
}

/// Whether each node but the root has a parent before it, and there are no more children.
fn has_parents(degrees: &[usize]) -> bool {
    let mut sum = 1usize;
    for degree in degrees {
        sum = sum.wrapping_add(*degree);
    }
    for node in 1..degrees.len() {
        // None is before it where there is none.
        if position_of(degrees, node).0.unwrap_or(node) >= node {
            return false;
        }
    }
    sum == degrees.len()
}

/// Whether two answers are the same.
fn same(found: Option<usize>, wanted: Option<usize>) -> bool {
    found == wanted
}

/// Whether a node that was found has this number, or none was found where there is none.
fn has_number(found: Option<Node>, wanted: Option<usize>) -> bool {
    match found {
        Some(node) => wanted == Some(node.number()),
        None => wanted == None,
    }
}

/// Whether what a node says of its parent and siblings, by its number and by its position, is what the list says.
fn goes_up<S: SelectForRank101111, S0: Select0ForRank101111>(
    tree: &Louds<S, S0>,
    degrees: &[usize],
    i: usize,
) -> bool {
    if i >= tree.len() {
        return false;
    }
    let node = tree.node(i);
    let (parent, k, next) = position_of(degrees, i);
    let mut agrees = i == 0 || !same(parent, None);
    agrees &= same(tree.parent(i), parent);
    agrees &= same(tree.child_rank(i), k);
    agrees &= same(tree.next_sibling(i), next);
    agrees &= has_number(tree.parent_of(node), parent);
    agrees & has_number(tree.next_sibling_of(node), next)
}

/// Whether what a node says of its degree and its children, by its number and by its position, is that it has the given
/// number of children, which are the nodes from the given one on.
fn has_children<S: SelectForRank101111, S0: Select0ForRank101111>(
    tree: &Louds<S, S0>,
    i: usize,
    degree: usize,
    first: usize,
) -> bool {
    if i >= tree.len() {
        return false;
    }
    let node = tree.node(i);
    let mut agrees = (tree.degree(i) == degree) & (tree.is_leaf(i) == (degree == 0));
    agrees &= (tree.degree_of(node) == degree) & (tree.is_leaf_of(node) == (degree == 0));
    agrees &= same(tree.child(i, degree), None) & same(tree.child(i, usize::MAX), None);
    for k in 0..degree {
        let child = Some(first.wrapping_add(k));
        agrees &= same(tree.child(i, k), child) & has_number(tree.child_of(node, k), child);
    }
    agrees
}

/// Whether what each node says of its children, its parent and its siblings is what the list says.
fn goes_down<S: SelectForRank101111, S0: Select0ForRank101111>(
    tree: &Louds<S, S0>,
    degrees: &[usize],
) -> bool {
    let mut agrees = tree.len() == degrees.len();
    let mut number = 1usize;
    for (i, degree) in degrees.iter().enumerate() {
        agrees &= has_children(tree, i, *degree, number) & goes_up(tree, degrees, i);
        number = number.wrapping_add(*degree);
    }
    agrees
}

/// Whether degrees are taken, and their tree is what they say, where they are right; and where they are not, refused.
fn is_right<S: SelectForRank101111, S0: Select0ForRank101111>(
    built: &Result<Louds<S, S0>, LoudsError>,
    degrees: &[usize],
    right: bool,
) -> bool {
    match built {
        Ok(tree) => right && goes_down(tree, degrees),
        Err(error) => !right && *error == LoudsError::NotATree,
    }
}

/// Whether the list of degrees below `len` of a code is a tree; `None` where it does not agree, `Some(false)` where
/// its sum is not below `len`.
fn is_coded(alloc: Global, len: usize, code: usize) -> Option<bool> {
    let mut all = [0usize; 7];
    let base = len.max(1);
    let (mut rest, mut sum) = (code, 0usize);
    for i in 0..len.min(7) {
        all[i] = rest % base;
        sum = sum.wrapping_add(all[i]);
        rest /= base;
    }
    if sum >= base {
        return Some(false);
    }
    let degrees = &all[..len.min(7)];
    let right = has_parents(degrees);
    let built = BinaryLouds::build(alloc, degrees);
    let agrees = is_tree(degrees) == right && is_right(&built, degrees, right);
    agrees.then_some(right)
}

/// How many of the lists of `len` degrees below it, with a sum below it, are trees; `None` where one does not agree.
fn trees_of(alloc: Global, len: usize) -> Option<u32> {
    let mut trees = 0u32;
    for code in 0..len.checked_pow(len.min(7) as u32)? {
        trees = trees.wrapping_add(is_coded(alloc, len, code)? as u32);
    }
    Some(trees)
}

#[test]
fn all_trees_of_up_to_seven_nodes_agree_with_the_definition(rt: HostRuntime) {
    // as many as ordered trees of that many nodes, the Catalan numbers; an empty list is no tree
    let known = [0u32, 1, 1, 2, 5, 14, 42, 132];
    for (len, known) in known.iter().enumerate() {
        assert!(rt; trees_of(rt.alloc(), len) == Some(*known));
    }
}

/// Whether these degrees are taken, and what each node says of its parent and siblings is what they say.
fn is_walked_up<S: SelectForRank101111, S0: Select0ForRank101111>(
    built: &Result<Louds<S, S0>, LoudsError>,
    degrees: &[usize],
) -> bool {
    let Ok(tree) = built else {
        return false;
    };
    let mut agrees = true;
    for i in 0..degrees.len() {
        agrees &= goes_up(tree, degrees, i);
    }
    agrees
}

/// Whether the nodes of a tree do so, of `len` nodes, at most 1100, where each has `width` children while there are
/// nodes left.
fn wide_agrees(alloc: Global, len: usize, width: usize) -> bool {
    let mut all = [0usize; 1100];
    let mut known = 1usize;
    for i in 0..len.min(1100) {
        all[i] = width.min(len.saturating_sub(known));
        known = known.saturating_add(all[i]);
    }
    let degrees = &all[..len.min(1100)];
    is_walked_up(&SampledLouds::build(alloc, degrees), degrees)
}

#[test]
fn paths_stars_and_wide_trees_agree(rt: HostRuntime) {
    for len in [1usize, 2, 64, 300, 1100] {
        for width in [1usize, 2, 63, 64, 2000] {
            assert!(rt; wide_agrees(rt.alloc(), len, width));
        }
    }
}

/// Nodes of a tree in which 0 has the children 1 2 3, 1 has 4 5, and 3 has 6; each with the index of a child and that.
const CHILDREN: [(usize, usize, Option<usize>); 4] = [
    (0, 2, Some(3)),
    (1, 1, Some(5)),
    (3, 0, Some(6)),
    (2, 0, None),
];

/// Whether its degrees are taken, and the tree answers as by hand.
fn is_by_hand<S: SelectForRank101111, S0: Select0ForRank101111>(
    built: &Result<Louds<S, S0>, LoudsError>,
) -> bool {
    let Ok(tree) = built else {
        return false;
    };
    if tree.len() != 7 {
        return false;
    }
    let mut agrees = same(tree.parent(6), Some(3)) & same(tree.parent(5), Some(1));
    agrees &= same(tree.child_rank(5), Some(1));
    agrees &= same(tree.next_sibling(4), Some(5)) & same(tree.next_sibling(5), None);
    agrees &= tree.is_leaf(2) & !tree.is_leaf(3);
    for (node, k, child) in CHILDREN {
        agrees &= node < tree.len() && same(tree.child(node, k), child);
    }
    agrees
}

#[test]
fn answers_are_those_worked_by_hand(rt: HostRuntime) {
    let degrees = [3usize, 2, 0, 1, 0, 0, 0];
    let agrees = is_by_hand(&SampledLouds::build(rt.alloc(), degrees.as_slice()));
    assert!(rt; agrees);
}

/// Whether degrees are refused as no tree.
fn is_refused(alloc: Global, degrees: &[usize]) -> bool {
    matches!(
        BinaryLouds::build(alloc, degrees),
        Err(LoudsError::NotATree)
    )
}

#[test]
fn too_great_degrees_are_no_tree(rt: HostRuntime) {
    for degrees in [[usize::MAX, 0, 0], [1, usize::MAX, 1], [3, 0, 0]] {
        assert!(rt; is_refused(rt.alloc(), degrees.as_slice()));
    }
}

/// Whether an error prints this text.
fn says(alloc: Global, error: LoudsError, text: &str) -> bool {
    match format!(in alloc; "{}", error) {
        Ok(said) => said.as_str() == text,
        Err(_) => false,
    }
}

#[test]
fn an_error_says_what_it_is(rt: HostRuntime) {
    for (error, text) in [
        (LoudsError::NotATree, "the degrees are those of no tree"),
        (LoudsError::TooLong, "there are 2^60 degrees or more"),
        (LoudsError::OutOfMemory, "no memory"),
    ] {
        assert!(rt; says(rt.alloc(), error, text));
    }
}
