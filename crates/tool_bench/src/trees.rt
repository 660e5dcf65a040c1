//! Rows of trees: parents, children and degrees by samples and by binary search, from numbers and from nodes that carry
//! their positions, and the building.
ghost use Rattle.std.specs.Prelude.{All, IfOk};
ghost use Rattle.louds.specs.Node.{IsNode};

use crate::bench::{Batch, Bench, Label, least, sum};
use crate::content::{draw, queries};
use bitm::{GetSize, Select0ForRank101111, SelectForRank101111};
use louds::{BinaryLouds, Louds, Node, SampledLouds};
use std::alloc::{AllocError, Global};

/// The degrees of a tree of `count` nodes: each is drawn from 0 to 3, and changed where a node would be left without a
/// parent or there would be too many nodes.
pub(crate) fn degrees(alloc: Global, count: usize) -> Result<Vec<usize>, AllocError> {
    let mut state = 88_172_645_463_325_252;
    let mut known = 1usize;
    let mut degrees = Vec::with_capacity(alloc, count)?;
    for node in 0..count {
        let drawn = (draw(&mut state) >> 62) as usize;
        let least = (known == node.saturating_add(1)) as usize;
        let degree = drawn.max(least).min(count.saturating_sub(known));
        known = known.saturating_add(degree);
        degrees.push(degree)?;
    }
    Ok(degrees)
}

/// A call of a tree.
#[derive(Clone, Copy)]
enum Call {
    Parent,
    Child,
    Degree,
}

/// Calls of a tree, by the numbers of nodes.
#[derive(Drop)]
struct Calls<'a, S: SelectForRank101111, S0: Select0ForRank101111> {
    call: Call,
    tree: &'a Louds<S, S0>,
    nodes: &'a [usize],
}

impl<'a, S: SelectForRank101111, S0: Select0ForRank101111> Batch for Calls<'a, S, S0> {
    #[inline(never)]
    fn run(&self) -> usize {
        let (tree, nodes) = (self.tree, self.nodes);
        let len = tree.len();
        match self.call {
            Call::Parent => {
                sum!(nodes, node => if *node < len { tree.parent(*node) } else { None })
            }
            Call::Child => {
                sum!(nodes, node => if *node < len { tree.child(*node, 0) } else { None })
            }
            Call::Degree => {
                sum!(nodes, node => if *node < len { Some(tree.degree(*node)) } else { None })
            }
        }
    }
}

/// Adds the rows of a tree.
fn add_tree<'a, S: SelectForRank101111 + GetSize, S0: Select0ForRank101111 + GetSize>(
    bench: &mut Bench<'a>,
    by: &'a str,
    tree: &Louds<S, S0>,
    nodes: &[usize],
) {
    bench.add_space(Label("tree_space", by), tree.size_bytes_dyn(), tree.len());
    for (name, call) in [
        ("tree_parent", Call::Parent),
        ("tree_child", Call::Child),
        ("tree_degree", Call::Degree),
    ] {
        bench.least(Label(name, by), nodes.len(), &Calls { call, tree, nodes });
    }
}

/// The nodes of these numbers, with their positions.
fn nodes_of(alloc: Global, tree: &SampledLouds, numbers: &[usize]) -> Result<Vec<Node>, AllocError>
    ensures { IfOk result (λ nodes. All (λ n. IsNode tree.now.degrees n) nodes.items) }
{
    let mut nodes = Vec::with_capacity(alloc, numbers.len())?;
    for number in numbers {
        if *number < tree.len() {
            nodes.push(tree.node(*number))?;
        }
    }
    Ok(nodes)
}

/// The parent of a node, as a call of its own, so that its position is answered too.
#[inline(never)]
fn parent_of(tree: &SampledLouds, node: Node) -> Option<Node>
    requires { IsNode tree.now.degrees node }
{
    tree.parent_of(node)
}

/// The first child of a node, as a call of its own.
#[inline(never)]
fn child_of(tree: &SampledLouds, node: Node) -> Option<Node>
    requires { IsNode tree.now.degrees node }
{
    tree.first_child_of(node)
}

/// Adds up the parents, the first children or the degrees of nodes that carry their positions.
#[inline(never)]
fn walk(call: Call, tree: &SampledLouds, nodes: &[Node]) -> usize
    requires { All (λ n. IsNode tree.now.degrees n) nodes.now }
{
    match call {
        Call::Parent => sum!(nodes, node => parent_of(tree, *node), found => found.number()),
        Call::Child => sum!(nodes, node => child_of(tree, *node), found => found.number()),
        Call::Degree => sum!(nodes, node => Some(tree.degree_of(*node))),
    }
}

/// Times one of these walks, and adds its row.
fn add_walk(
    bench: &mut Bench<'_>,
    name: &'static str,
    call: Call,
    tree: &SampledLouds,
    nodes: &[Node],
)
    requires { All (λ n. IsNode tree.now.degrees n) nodes.now }
{
    least!(
        bench,
        Label(name, "sampled"),
        nodes.len(),
        walk(call, tree, nodes)
    );
}

/// Adds the rows of nodes that carry their positions.
fn add_walks(
    bench: &mut Bench<'_>,
    tree: &SampledLouds,
    numbers: &[usize],
) -> Result<(), AllocError> {
    let kept = nodes_of(bench.alloc(), tree, numbers)?;
    for (name, call) in [
        ("tree_parent_of_node", Call::Parent),
        ("tree_child_of_node", Call::Child),
        ("tree_degree_of_node", Call::Degree),
    ] {
        add_walk(bench, name, call, tree, kept.as_slice());
    }
    Ok(())
}

/// Adds the rows of a tree of these degrees.
fn add_trees(bench: &mut Bench<'_>, degrees: &[usize], nodes: &[usize]) -> Result<(), AllocError> {
    let begun = bench.used();
    if let Ok(sampled) = SampledLouds::build(bench.alloc(), degrees) {
        bench.add_since(begun, Label("tree_build", "sampled"), degrees.len());
        add_tree(bench, "sampled", &sampled, nodes);
        add_walks(bench, &sampled, nodes)?;
    }
    if let Ok(binary) = BinaryLouds::build(bench.alloc(), degrees) {
        add_tree(bench, "binary", &binary, nodes);
    }
    Ok(())
}

/// Adds the rows of a tree of `count` nodes.
pub(crate) fn add_rows(bench: &mut Bench<'_>, count: usize) -> Result<(), AllocError> {
    let drawn = degrees(bench.alloc(), count)?;
    let nodes = queries(bench.alloc(), count)?;
    add_trees(bench, drawn.as_slice(), nodes.as_slice())
}
