//! Tries for C, each one block of memory: written into the caller's memory, which may be a mapped file, opened in a
//! bounded number of reads, checked, and queried where they lie. No call allocates, keeps a pointer or has state. Each
//! call is defined for all numbers: it tests its arguments, and answers by a status of `bitm_abi`.
//!
//! `include/bitm.h` declares the exports for C and C++ and says what each one answers; they stand in one archive with
//! the exports of `bitm_c`; the calls of a tree take the tree of a trie.
// What is in each file:
// - `bytes`: nodes by their words, over bytes
// - `making`: the block of a trie, written, opened and checked
// - `of_words`: the block of the trie of sorted words
// - `queries`: labels, ends and words of nodes, and children by their labels
// - `trie`: a trie as C passes it
// - `words`: nodes by their words, over labels
mod bytes;
mod making;
mod of_words;
mod queries;
mod trie;
mod words;
