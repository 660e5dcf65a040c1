//! Many ranks or selections at once over a source of words and tables, side by side, so that their waits for memory
//! overlap. The tables may hold anything; where they match the words, each answer is what a single query gives.
// What is in each file:
// - `lists`: the calls: lists of ranks and of selections
// - `loaded`: the second half of a group of selections: the basic block and its words
// - `query`: the first half of a group of selections: the entry, by binary search from a guess
// - `ranks`: a group of ranks: the reads of all, then the counting
pub mod lists;
pub mod loaded;
pub mod query;
pub mod ranks;
