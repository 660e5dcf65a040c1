//! Selection over a source of words and tables. The tables, their entries, the sources and rank are in `bitm_tables`,
//! whose names this crate re-exports. Nothing here owns a table. Most functions accept any tables and say what they
//! answer where these match the words.
#![tactic(auto)]

// What is in each file:
// - `many`: lists of ranks and selections, side by side, so that their waits for memory overlap
// - `search`: one selection
pub mod many;
pub mod search;

pub use bitm_tables::{answer, entry, levels, quarters, source, tables};
