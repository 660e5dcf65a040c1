//! Rank and selection over a source of words and tables, each with a bound on its reads.

// What is in each file:
// - `entries`: the entry of an upper block, by a guess or by binary search
// - `entry_range`: the entry in a range, by a guess that narrows it and by binary search
// - `record`: the basic block of an entry, its word, the bit of the word
// - `selected`: the answer of a selection, as a value and as a code
// - `selecting`: the upper block of a rank, and the whole selection
// - `steps`: the entry near a guess, one after another
pub mod entries;
pub mod entry_range;
pub mod record;
pub mod selected;
pub mod selecting;
pub mod steps;

pub use bitm_tables::ranking;
