//! Trees, tries and text indexes for C: written into the caller's memory, which may be a mapped file, opened in a
//! bounded number of reads, checked, and queried where they lie. No call allocates, keeps a pointer or has state. Each
//! call is defined for all numbers: it tests its arguments, and answers by a status of `bitm_abi`.
//!
//! `include/bitm.h` declares the exports for C and C++ and says what each one answers; they stand in one archive with
//! the exports of `bitm_c`.
#![tactic(auto)]

// What is in each file:
// - `text`: the index of a text as C passes it
// - `text_making`: the block of the index of a text, opened, and its length
// - `text_queries`: the positions of a pattern, and parts of the text, over letters and over bytes
// - `texts`: the index of a text, built and checked
// - `tree_lists`: lists of queries of a tree
// - `tree_making`: the block of a tree, written, opened and checked
// - `tree_queries`: parents, children, degrees and siblings
// - `tries`: tries that are one block of memory
mod text;
mod text_making;
mod text_queries;
mod texts;
mod tree_lists;
mod tree_making;
mod tree_queries;
mod tries;
