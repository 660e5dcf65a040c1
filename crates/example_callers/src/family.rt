//! How many children a node's parent has, by a tree on an index.
ghost use Rattle.std.specs.Prelude.{◌≡◌, ◌<◌, ℕ, MatchOption, length, slice_index};
ghost use Rattle.louds.specs.Counted.{degrees_in, IsLouds, OnlySelects};
ghost use Rattle.louds.specs.Tree.{IsChild};

use bitm::TableSource;
use louds::SampledLouds;
use louds::counted::{degree_on, parent_on};

/// How many children the parent of a node has, itself among them; `None` exactly at the root.
///
/// # Conditions
/// There is such a node.
pub fn family_size(tree: &SampledLouds, node: usize) -> Option<usize>
    requires { node < length tree.now.degrees }
    ensures { let d = tree.now.degrees in MatchOption result (node ≡ 0)
        (λ n. (i : ℕ) × (k : ℕ) × IsChild d i k node × (n ≡ slice_index d i)) }
{
    match tree.parent(node) {
        Some(parent) => Some(tree.degree(parent)),
        None => None,
    }
}

/// What `family_size` answers, over any source that holds a tree of `len` nodes.
///
/// # Conditions
/// There is such a node.
/// # Cost
/// What three selections by binary search read.
pub fn family_size_on<T: TableSource>(source: &mut T, len: usize, node: usize) -> Option<usize>
    requires tree { IsLouds len (T.lists source.old) }
    requires node { node < len }
    ensures size { let d = degrees_in len (T.lists source.old) in MatchOption result (node ≡ 0)
        (λ n. (i : ℕ) × (k : ℕ) × IsChild d i k node × (n ≡ slice_index d i)) }
    ensures reads { OnlySelects T.lists T.reads source.old source.new 3 0 }
{
    match parent_on(source, len, node) {
        Some(parent) => Some(degree_on(source, len, parent)),
        None => None,
    }
}
