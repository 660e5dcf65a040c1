//! Posting lists: cursors over lists of numbers that never decrease, their intersection and their union.
//!
//! A cursor moves forward only, by `next_geq`: to the first number from it on that is at least a value. `Seeker` is one
//! over an Elias-Fano sequence, owned or borrowed, `SliceCursor` one over a slice. Contracts see a cursor as the list
//! of the numbers from it on, and how often it was queried.
//!
//! ```
//! let (Some(evens), Some(primes)) = (SliceCursor::over(&[2, 4, 6, 8]), SliceCursor::over(&[2, 3, 5, 7])) else { .. };
//! let mut lists = [evens, primes];
//! let mut out = [0; 8];
//! union(&mut lists, 3, &mut out);        // 6: 3, 4, 5, 6, 7, 8
//! ```
#![tactic(auto)]

// What is in each file:
// - `cursor`: what a cursor is
// - `joining`: the union of lists
// - `meeting`: the intersection of two sequences, by blocks of their numbers
// - `merged`: how a merge of lists ends
// - `near`: the next number of a sequence that is at least a value, from a position on
// - `pair`: the union of two sequences
// - `plain`: a cursor over a slice
// - `sequence`: a cursor over a sequence
// - `sharing`: the intersection of lists
// - `spot`: where a cursor over a sequence stands, and how it moves
// - `stepping`: a step of a position inside a word
mod cursor;
mod joining;
mod meeting;
mod merged;
mod near;
mod pair;
mod plain;
mod sequence;
mod sharing;
mod spot;
mod stepping;

pub use cursor::{Cursor, TotalCursor};
pub use joining::{least_from, total_union, union};
pub use meeting::total_intersect_of_two;
pub use merged::Merged;
pub use pair::total_union_of_two;
pub use plain::SliceCursor;
pub use sequence::Seeker;
pub use sharing::{intersect, total_intersect};
pub use spot::{Spot, total_next_on, total_start_on};
pub use stepping::near_in_word;
