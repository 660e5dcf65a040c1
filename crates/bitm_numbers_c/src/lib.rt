//! Lists of numbers for C: sequences and sparse bits in blocks, cursors over sequences, and wavelet matrices. No call
//! allocates, keeps a pointer or has state. Each call is defined for all numbers: it tests its arguments, and answers
//! by a status of `bitm_abi`.
//!
//! `include/bitm.h` declares the exports for C and C++ and says what each one answers; they stand in one archive with
//! the exports of `bitm_c`.
#![tactic(auto)]

// What is in each file:
// - `cursors`: cursors over sequences, their intersection and their union
// - `matrix`: wavelet matrices that are one block of memory
// - `sequence_blocks`: the block of a sequence, written, opened as a sequence and checked
// - `sparse`: sparse bits as C passes them
// - `sparse_lists`: lists of queries of sparse bits
// - `sparse_making`: the block of sparse bits, written, opened and checked
// - `sparse_queries`: a bit, ranks, selections and the nearest bits
mod cursors;
mod matrix;
mod sequence_blocks;
mod sparse;
mod sparse_lists;
mod sparse_making;
mod sparse_queries;
