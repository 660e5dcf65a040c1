//! Strings of bytes in a block of memory, such as a mapped file, each with a number: a minimal perfect hash of their
//! hashes, and the strings one after another in the order of their numbers. Nothing is allocated or copied, and no
//! query has a condition on what the memory holds.
//!
//! With the block of strings `find` answers the number of a string exactly where it is one of them. If the block is
//! stale or hostile, every call still returns within its read bound, and the string of the number that is found is that
//! one.
//!
//! ```
//! // `hash` is a `HashView` of a perfect hash of what `hashes` writes, with its seed
//! let mut block = [0u64; 112];                                       // size(1, 1, 3, 9)
//! build(&hash, b"adabobeve".as_slice(), &[3, 6, 9], block.as_mut_slice());   // Ok(())
//! let Some(names) = open(block.as_slice()) else { .. };
//! names.check();                    // true
//! names.find(b"bob".as_slice());    // Found(number)
//! names.find(b"bo".as_slice());     // Absent
//! names.get(0);                     // Found((0, 3)): the first string by number has three bytes
//! ```
//!
//! # Source
//! Aumasson and Bernstein, 'SipHash: a fast short-input PRF' (INDOCRYPT 2012); Fowler, Noll and Vo, 'The FNV
//! Non-Cryptographic Hash Algorithm' (Internet-Draft draft-eastlake-fnv), for blocks of kind 10; Müller, Sanders,
//! Schulze and Zhou, 'Retrieval and perfect hashing using fingerprinting' (SEA 2014).
// What is in each file:
// - `arranging`: strings written one after another, in the order of their numbers
// - `building`: the block of strings, written into the caller's memory
// - `bytes`: bytes in words: read, compared and written
// - `error`: why no block of strings was written
// - `fnv`: how the strings of blocks of kind 10 are hashed
// - `given`: strings that are given one after another
// - `hashing`: how strings are hashed, and keys
// - `kinds`: the kinds of blocks of strings, and how the strings of each are hashed
// - `listing`: the hashes of strings that are given one after another
// - `numbers`: up to eight bytes of a string as a number
// - `opening`: the view of a block, and whether the block holds what it says
// - `placing`: which string has which number
// - `sections`: the sections of the block of strings
// - `sip`: the state of SipHash
// - `view`: strings in memory that may hold anything
mod arranging;
mod building;
mod bytes;
mod error;
mod fnv;
mod given;
mod hashing;
mod kinds;
mod listing;
mod numbers;
mod opening;
mod placing;
mod sections;
mod sip;
mod view;

pub use bitm_tables::answer::Answer;
pub use building::{build, round_trip};
pub use error::BuildError;
pub use given::are_given;
pub use hashing::{hash, key_hash};
pub use kinds::{FNV_STRINGS, STRINGS};
pub use listing::hashes;
pub use opening::{check, open};
pub use sections::size;
pub use view::StringsView;
