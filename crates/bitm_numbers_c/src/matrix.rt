//! Wavelet matrices that are one block of memory, for C: written into the caller's memory, which may be a mapped file,
//! opened in a bounded number of reads, checked, and queried where they lie. No call allocates, keeps a pointer or has
//! state. Each call is defined for all numbers: it tests its arguments, and answers by a status of `bitm_abi`.
//!
//! `include/bitm.h` declares the exports for C and C++ and says what each one answers; they stand in one archive with
//! the exports of `bitm_c`.
// What is in each file:
// - `matrix_lists`: lists of queries of a matrix
// - `matrix_making`: the block of a matrix, written, opened and checked
// - `matrix_queries`: a number by its index, and ranks and indices of a number
// - `matrix_ranges`: queries of a range of the numbers of a matrix
// - `matrix_tallies`: the distinct, the most frequent and the common numbers of ranges
mod matrix_lists;
mod matrix_making;
mod matrix_queries;
mod matrix_ranges;
mod matrix_tallies;
