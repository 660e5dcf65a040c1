//! Lists of queries of a tree in a block.
ghost use Rattle.std.specs.Prelude.{◌≡◌, ◌≢◌, ◌-◌, ◌^◌, ◌<◌, ◌↔◌, ℕ, length, slice_index};
ghost use Rattle.bitm_abi.specs.Lists.{AreAnswersCounted};
ghost use Rattle.bitm_abi.specs.Tree.{tree_parts};
ghost use Rattle.bitm_view.specs.Queries.{selected_by};
ghost use Rattle.tree_block.specs.Block.{HasLengths};
ghost use Rattle.bitm_trees_c.specs.Tree.{without_hints, IsChildAnswer, IsDegree, IsParent, IsTreeAnswer};

use bitm_abi::{BAD_SIZE, ListCounts, Tree, report_list};
use tree_block::LoudsView;

/// A query of each node of a list.
#[derive(Clone, Copy)]
pub enum Asked {
    /// Its parent.
    Parent,
    /// How many children it has.
    Degree,
}

/// The answer to a query of each node.
#[inline(always)]
fn ask_each(view: &LoudsView<'_>, asked: Asked, nodes: &[usize], out: &mut [usize])
    requires { length out.old ≡ length nodes.now }
    ensures { (j : ℕ) → j < length nodes.now
        → IsTreeAnswer asked (slice_index nodes.now j) (without_hints view.now)
        (selected_by (slice_index out.new j)) }
{
    let _ = view.len(); // its clause makes the limit of the length known to the proof
    match asked {
        Asked::Parent => view.parent_list(nodes, out),
        Asked::Degree => view.degree_list(nodes, out),
    }
}

/// The answers to a query of each node of a list, by a status.
#[inline(always)]
fn ask_list(
    tree: &Tree<'_>,
    asked: Asked,
    nodes: &[usize],
    out: &mut [usize],
    counts: &mut ListCounts,
) -> u32
    ensures ok { (result ≡ 0) ↔ HasLengths (tree_parts tree.now) × (length out.old ≡ length nodes.now) }
    ensures kept { result ≢ 0 → (result ≡ 2) × (out.new ≡ out.old) × (counts.new ≡ counts.old) }
    ensures answers { result ≡ 0 → (j : ℕ) → j < length nodes.now → IsTreeAnswer asked
        (slice_index nodes.now j) (without_hints (tree_parts tree.now)) (selected_by (slice_index out.new j)) }
    ensures counts { result ≡ 0 → AreAnswersCounted out.new counts.new }
{
    let Some(view) = tree.view() else {
        return BAD_SIZE;
    };
    if out.len() != nodes.len() {
        return BAD_SIZE;
    }
    ask_each(&view, asked, nodes, &mut *out);
    report_list(true, &*out, counts)
}

/// The parent of each node of a list, and how many of the answers are codes.
#[unsafe(no_mangle)]
pub extern "C" fn bitm_tree_parent_list(
    tree: &Tree<'_>,
    nodes: &[usize],
    out: &mut [usize],
    counts: &mut ListCounts,
) -> u32
    ensures ok { (result ≡ 0) ↔ HasLengths (tree_parts tree.now) × (length out.old ≡ length nodes.now) }
    ensures kept { result ≢ 0 → (result ≡ 2) × (out.new ≡ out.old) × (counts.new ≡ counts.old) }
    ensures parents { result ≡ 0 → (j : ℕ) → j < length nodes.now → IsParent
        (slice_index nodes.now j) (without_hints (tree_parts tree.now)) (selected_by (slice_index out.new j)) }
    ensures counts { result ≡ 0 → AreAnswersCounted out.new counts.new }
{
    ask_list(tree, Asked::Parent, nodes, out, counts)
}

/// How many children each node of a list has, and how many of the answers are codes.
#[unsafe(no_mangle)]
pub extern "C" fn bitm_tree_degree_list(
    tree: &Tree<'_>,
    nodes: &[usize],
    out: &mut [usize],
    counts: &mut ListCounts,
) -> u32
    ensures ok { (result ≡ 0) ↔ HasLengths (tree_parts tree.now) × (length out.old ≡ length nodes.now) }
    ensures kept { result ≢ 0 → (result ≡ 2) × (out.new ≡ out.old) × (counts.new ≡ counts.old) }
    ensures degrees { result ≡ 0 → (j : ℕ) → j < length nodes.now → IsDegree
        (slice_index nodes.now j) (without_hints (tree_parts tree.now)) (selected_by (slice_index out.new j)) }
    ensures counts { result ≡ 0 → AreAnswersCounted out.new counts.new }
{
    ask_list(tree, Asked::Degree, nodes, out, counts)
}

/// Child `ks[i]` of each node `nodes[i]`.
#[inline(always)]
fn child_each(view: &LoudsView<'_>, nodes: &[usize], ks: &[usize], out: &mut [usize])
    requires room { length out.old ≡ length nodes.now }
    requires ks { length ks.now ≡ length nodes.now }
    ensures { (j : ℕ) → j < length nodes.now → IsChildAnswer (slice_index nodes.now j)
        (slice_index ks.now j) (without_hints view.now) (selected_by (slice_index out.new j)) }
{
    let _ = view.len(); // its clause makes the limit of the length known to the proof
    view.child_list(nodes, ks, out);
}

/// Child `ks[i]` of each node `nodes[i]`, and how many of the answers are codes.
#[unsafe(no_mangle)]
pub extern "C" fn bitm_tree_child_list(
    tree: &Tree<'_>,
    nodes: &[usize],
    ks: &[usize],
    out: &mut [usize],
    counts: &mut ListCounts,
) -> u32
    ensures ok { (result ≡ 0) ↔ HasLengths (tree_parts tree.now)
        × (length ks.now ≡ length nodes.now) × (length out.old ≡ length nodes.now) }
    ensures kept { result ≢ 0 → (result ≡ 2) × (out.new ≡ out.old) × (counts.new ≡ counts.old) }
    ensures children { result ≡ 0 → (j : ℕ) → j < length nodes.now → IsChildAnswer
        (slice_index nodes.now j) (slice_index ks.now j) (without_hints (tree_parts tree.now))
        (selected_by (slice_index out.new j)) }
    ensures counts { result ≡ 0 → AreAnswersCounted out.new counts.new }
{
    let Some(view) = tree.view() else {
        return BAD_SIZE;
    };
    if ks.len() != nodes.len() || out.len() != nodes.len() {
        return BAD_SIZE;
    }
    child_each(&view, nodes, ks, &mut *out);
    report_list(true, &*out, counts)
}
