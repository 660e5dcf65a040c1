//! The trie of sorted words, written into the caller's memory: its degrees, its labels and where words end, or its
//! block.
//!
//! The words stand one after another in bytes, and rise strictly in the order of a dictionary. Labels have 8 bits.
//! Nothing is allocated.
//!
//! ```
//! nodes(b"aabeb".as_slice(), &[0, 1, 4, 5]);   // Ok(5): the words a, abe and b
//! let mut degrees = [0usize; 5];
//! let mut labels = [0u64; 4];
//! let mut ends = [0u64; 1];
//! let mut parents = [0usize; 4];
//! grow(b"aabeb".as_slice(), &[0, 1, 4, 5], degrees.as_mut_slice(), labels.as_mut_slice(),
//!     ends.as_mut_slice(), parents.as_mut_slice());   // Ok(())
//! degrees;   // 2, 1, 0, 1, 0
//! labels;    // a, b, b and e
//! ends;      // 0b10110: of nodes 1, 2 and 4
//! ```
// What is in each file:
// - `building`: the block of the trie of sorted words
// - `error`: why no trie was grown
// - `growing`: the parts of the trie of sorted words
// - `levels`: how many nodes each level has, and where it begins
// - `placing`: where each node stands, level by level
// - `words`: words that stand one after another in bytes
mod building;
mod error;
mod growing;
mod levels;
mod placing;
mod words;

pub use building::build;
pub use error::WordsError;
pub use growing::grow;
pub use words::{nodes, unsorted_word};
