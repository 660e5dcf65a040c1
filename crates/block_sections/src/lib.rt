//! Sections of a caller's own in a block of any kind, such as notes or samples: a copy of the block with one section
//! more.
//!
//! A reader of a kind steps over the sections after its own (`docs/FORMAT.md`), so the new block opens as the old one
//! does.
//!
//! ```
//! let note = Section { role: 1 << 16, count: 11 };                        // eleven bytes of a caller's own
//! let Some(len) = extended_size(block.as_slice(), &note) else { .. };     // 80 of a block of 64 words with 4 sections
//! let hello_world = [0x6f77206f6c6c6568, 0x646c72];
//! extend(block.as_slice(), &note, &hello_world, longer.as_mut_slice());   // Ok(())
//! ```
#![tactic(auto)]

// What is in each file:
// - `error`: why a block was not extended
// - `extending`: a copy of a block with one section more
// - `placing`: its sections, and their words
// - `laws`: a block that is extended by a section holds the same as before
mod error;
mod extending;
pub mod laws;
mod placing;

pub use error::ExtendError;
pub use extending::{extend, extended_size};
