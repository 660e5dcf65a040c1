//! Words and their two tables as sections of a block: every section is a slice of 64-bit words, the upper table too.
//! They may hold anything.
#![tactic(auto)]

// What is in each file:
// - `entries`: words of a block as entries of an upper table
// - `hints`: the optional section of hints
// - `sections`: words and their tables as the first three sections of a block
// - `source`: a source over three sections
// - `tables`: the tables, written and compared with the words
mod entries;
mod hints;
mod sections;
mod source;
mod tables;

pub use entries::{as_entries, as_entries_mut};
pub use hints::{HINTS, hints_of, hints_with};
pub use sections::{has_tables, table_sections, tables_of};
pub use source::probe;
pub use tables::{are_tables, fill_tables};
