//! A tree whose nodes are numbered level by level, in about two bits a node.
//!
//! Contracts see a tree as the list of its nodes' degrees: how many children each has.
//!
//! ```
//! let Ok(tree) = SampledLouds::build(alloc, [2usize, 0, 1, 0].as_slice()) else { .. };
//! tree.child(0, 1);       // Some(2)
//! tree.parent(3);         // Some(2)
//! tree.next_sibling(1);   // Some(2)
//! tree.is_leaf(1);        // true
//! ```
//!
//! # Source
//! Jacobson, 'Space-efficient static trees and graphs' (FOCS 1989).
#![tactic(auto)]

// What is in each file:
// - `between`: what the 0 bits before and after a node's 1 bits show of its children
// - `checking`: which lists of degrees are trees
// - `children`: degrees and children, one body for each, over any source, and by any way to find a bit
// - `climbing`: ways up and down from nodes
// - `counted`: the calls of a tree over any source, with a bound on their reads
// - `error`: why degrees were refused
// - `labelled`: a tree whose nodes have labels
// - `labels`: numbers of one width, side by side
// - `laws`: laws of the definitions
// - `leading`: children by their labels, and nodes by their words, one body for each, over any source and labels
// - `making`: the bits of a tree, built in one pass over the degrees
// - `near`: the last 0 bit up to a position, where it is near
// - `node`: nodes that carry their positions
// - `parents`: a tree from the list of its nodes' parents
// - `probing`: labels of nodes, whose reads are counted
// - `queries`: parents, leaves and siblings, one body for each, over any source and by any way to find a bit
// - `rising`: whether the labels of siblings rise, one body, over any labels
// - `tree`: the type of a tree, and its queries
mod between;
mod checking;
pub mod children;
mod climbing;
pub mod counted;
mod error;
mod labelled;
mod labels;
pub mod laws;
pub mod leading;
mod making;
mod near;
mod node;
mod parents;
pub mod probing;
pub mod queries;
pub mod rising;
mod tree;

pub use checking::{is_tree, misfit};
pub use error::{LabelsError, LoudsError};
pub use labelled::{LabelledLouds, SampledTrie, are_labels};
pub use labels::{all_fit, write_numbers};
pub use making::write_degrees;
pub use near::near_last_zero_on;
pub use node::Node;
pub use parents::are_parents;
pub use tree::{BinaryLouds, Louds, SampledLouds};
