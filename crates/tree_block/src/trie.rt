//! A trie in a block of memory, such as a mapped file: nothing is allocated or copied, and no call has a condition on
//! what the memory holds.
//!
//! With the block of a trie the answers agree with the trie. If it is stale or hostile, every call still terminates
//! within its read bound, and a child is more than its parent and less than the number of nodes.
//!
//! ```
//! let mut block = [0u64; 88];                                   // size(4, 8, true) words
//! // the words a, b and be: nodes 1 to 3 have the letters a, b and e, and a word ends at each of them
//! build(&[2, 0, 1, 0], &[97, 98, 101], 8, &[0b1110], block.as_mut_slice());   // Ok(())
//! let Some(trie) = TrieView::open(block.as_slice()) else { .. };
//! trie.check();                 // true
//! trie.find(b"be".as_slice());             // Found(3), Absent or Wrong
//! trie.longest(b"bee".as_slice());         // Found((3, 2)) or Wrong
//! trie.child_by_label(0, 98);   // Found(2), Absent or Wrong
//! trie.is_end(3);               // Found(true)
//! ```
//!
//! # Source
//! Jacobson, 'Space-efficient static trees and graphs' (FOCS 1989).
// What is in each file:
// - `building`: the block of a trie, written into the caller's memory
// - `error`: why no block was written
// - `given`: whether labels that are given are those of a tree
// - `labels`: the labels of nodes, whose reads are counted
// - `queries`: children by their labels, and nodes by their words, over any source
// - `sections`: the sections of the block of a trie
// - `view`: the view of a block, and its queries
// - `words`: the word that leads to a node, over any source
mod building;
mod error;
mod given;
mod labels;
mod queries;
mod sections;
mod view;
mod words;

pub use crate::LoudsView;
pub use bitm_tables::answer::Answer;
pub use building::build;
pub use error::BuildError;
pub use labels::LabelProbe;
pub use queries::{total_child_by_label_on, total_find_on, total_longest_on};
pub use sections::{TRIE, size};
pub use view::TrieView;
pub use words::{total_word_on, word_by};
