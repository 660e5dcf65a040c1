//! A tree in a block of memory, such as a mapped file: nothing is allocated or copied, and no call has a condition on
//! what the memory holds.
//!
//! With the block of a tree the answers agree with the tree. If it is stale or hostile, every call still terminates
//! within its read bound, a parent is less than its child, and a child is more than its parent and less than the number
//! of nodes.
//!
//! ```
//! let mut block = [0u64; 64];                                   // size(4) words
//! build([2usize, 0, 1, 0].as_slice(), block.as_mut_slice());    // Ok(())
//! let Some(tree) = LoudsView::open(block.as_slice()) else { .. };
//! tree.check();        // true
//! tree.parent(3);      // Found(2), Absent or Wrong
//! tree.child(0, 1);    // Found(2), Absent or Wrong
//! ```
//!
//! # Source
//! Jacobson, 'Space-efficient static trees and graphs' (FOCS 1989).
#![tactic(auto)]

// What is in each file:
// - `building`: the block of a tree, written into the caller's memory
// - `checking`: whether words hold a tree
// - `error`: why no block was written
// - `lists`: lists of parents, degrees and children over any source
// - `queries`: parents, leaves, siblings and ranks among siblings over any source
// - `sections`: the sections of the block of a tree
// - `tree`: the view of a block, and its queries
// - `trie`: a trie in a block of memory, such as a mapped file
// - `words`: the trie of sorted words, written into the caller's memory
mod building;
mod checking;
mod error;
mod lists;
mod queries;
mod sections;
mod tree;
pub mod trie;
pub mod words;

pub use bitm_tables::answer::Answer;
pub use building::{build, write_tree};
pub use error::BuildError;
pub use lists::{total_child_list_on, total_degree_list_on, total_parent_list_on};
pub use louds::children::{total_child_on, total_children_on, total_degree_on};
pub use queries::{
    total_child_rank_on, total_is_leaf_on, total_next_sibling_on, total_parent_on,
    total_previous_sibling_on,
};
pub use sections::{LOUDS, Lens, size};
pub use tree::LoudsView;
