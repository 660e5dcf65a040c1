//! The header and directory of a block: one piece of memory, which is also one file, with a structure's numbers, its
//! sections and their checksums. Nothing in it is a pointer. `docs/FORMAT.md` has the bytes.
//!
//! ```
//! let sections = [Section { role: 1, count: 30 }];
//! let Some(len) = size(sections.as_slice()) else { .. };      // 56 words
//! // write 30 words from word 24 on, and then
//! seal(&head, sections.as_slice(), block.as_mut_slice());     // Ok(()): header, directory, checksums and zeros
//!
//! let Ok(block) = Block::open(block.as_slice()) else { .. };  // what the sections hold is not looked at
//! block.head();                                               // head
//! block.section(0);                                           // Some(the 30 words)
//! block.verify();                                             // true
//! ```
#![tactic(auto)]

// What is in each file:
// - `checksum`: the checksum of words
// - `copying`: items that are copied
// - `error`: why words are no block, and why none was written
// - `head`: the numbers of a header
// - `layout`: where the sections stand
// - `reading`: a block whose header and directory are right
// - `verifying`: whether the sections are as they were written
// - `writing`: header, directory and checksums, written around the sections
mod checksum;
mod copying;
mod error;
mod head;
mod layout;
mod reading;
mod verifying;
mod writing;

pub use checksum::{checksum_in, checksum_of, sees_one_word};
pub use copying::copy_items;
pub use error::{OpenError, WriteError};
pub use head::Head;
pub use layout::{ENTRY_WORDS, HEADER_WORDS, MOST_SECTIONS, Section, aligned, head_len, size};
pub use reading::{Block, len_in};
pub use verifying::is_verified;
pub use writing::{seal, seal_sized};
