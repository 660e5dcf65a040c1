//! Tests of the index, its strategies and its sources, a file a topic; the name of a test is the sentence that it
//! shows. A source of a user's own (`computed`) is proved to have its words' tables.
//!
//! Clauses that are proved fix nearly every answer here. They are tested all the same, for what no proof of ours
//! says:
//!
//! - that the definitions of the clauses mean what their words say: so what is expected comes from outside, worked
//!   out by hand or taken from tests of the original crate, and never from an answer of our own;
//! - that the compiler and the toolchain make of the proved code a program that does the same: so it is the compiled
//!   code that answers;
//! - what no clause says: that `build` finds memory where there is some, which strategy an index calls, which types
//!   have bytes on the heap.
//!
//! The language bindings compare the compiled library with plain lists, by hundreds of thousands of calls.
// What is in each file:
// - `computed`: a source whose words and tables are computed
// - `contents`: rank and selection over small bit vectors, borrowed and owned, by each strategy
// - `every_position`: every position and every rank, to past the end
// - `in_word`: selection in one word, against rows worked out by hand and a walk over the bits
// - `large`: a bit vector of 2^20 words
// - `logarithms`: the logarithm of how many items one sample stands for
// - `many`: many queries of an index at once, of few words and of enough words for the searches to start from a guess
// - `readme`: the answers that the README states beside its program
// - `samples`: selection by samples
// - `simple`: the simple rank
// - `sizes`: which types keep bytes on the heap, and how many
// - `strategies`: the index with strategies and a density that a user wrote
// - `tables`: the tables that an index keeps, its size, and ranks of a few contents, worked out by hand
// - `two_parts`: answers round the end of the first part of 2^32 bits, and in the second, over words that are all 1
// - `walk`: what the tests share
#[cfg(test)]
mod computed;
#[cfg(test)]
mod contents;
#[cfg(test)]
mod every_position;
#[cfg(test)]
mod in_word;
#[cfg(test)]
mod large;
#[cfg(test)]
mod logarithms;
#[cfg(test)]
mod many;
#[cfg(test)]
mod readme;
#[cfg(test)]
mod samples;
#[cfg(test)]
mod simple;
#[cfg(test)]
mod sizes;
#[cfg(test)]
mod strategies;
#[cfg(test)]
mod tables;
#[cfg(test)]
mod two_parts;
#[cfg(test)]
mod walk;
