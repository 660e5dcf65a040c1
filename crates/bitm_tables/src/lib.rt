//! What an index is made of: the levels of its tables, their entries, how they are built, sources that count their
//! reads, and rank over a source. Nothing here owns a table: the index of `bitm` owns its tables, and `bitm_view`
//! borrows them. So most functions accept any tables, and say what they answer where these match the words.
#![tactic(auto)]

// What is in each file:
// - `answer`: the answer of a query over tables that may hold anything
// - `entry`: one entry of the lower table
// - `levels`: the sizes of the levels
// - `quarters`: a third table, for ranks that read two words
// - `ranking`: rank over a source
// - `source`: sources that count their reads
// - `tables`: how the tables are built
pub mod answer;
pub mod entry;
pub mod levels;
pub mod quarters;
pub mod ranking;
pub mod source;
pub mod tables;
