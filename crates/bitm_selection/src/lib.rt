//! Ways to find the bit of a rank in a source: by search in its tables, by hints, or by the strategies of an index over
//! its words. A structure's call over any source and its call over its own index so run one body.
//!
//! ```
//! fn second_one<F: Finds, T: TableSource>(finder: &F, source: &mut T) -> Answer<usize> {
//!     finder.one(source, 1)
//! }
//! second_one(&ByTables, &mut source);             // by binary search in the tables: what it reads is counted
//! second_one(&Hints::over(&hints, ones), &mut source);   // by the positions of each 128th bit
//! second_one(&index, &mut index.probe());         // by the index's own strategy
//! ```
#![tactic(auto)]

// What is in each file:
// - `finding`: ways to find the bit of a rank in a source that may hold anything
// - `hints`: the positions of each 128th bit of either kind, and selection from them
mod finding;
mod hints;

pub use finding::Finds;
pub use hints::{
    BITS_PER_HINT, Hints, are_all_hints, are_hints, are_hints_within, fill_hints, hint_words,
    hinted_select_on, hints_len, hints_room, write_hints, write_hints_within,
};
