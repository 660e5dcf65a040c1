//! Strings for C, each with a number, in one block of memory: written into the caller's memory, which may be a mapped
//! file, opened in a bounded number of reads, checked, and queried where they lie. No call allocates, keeps a pointer
//! or has state. Each call is defined for all numbers: it tests its arguments, and answers by a status of `bitm_abi`.
//!
//! `include/bitm.h` declares the exports for C and C++ and says what each one answers; they stand in one archive with
//! the exports of `bitm_c` and those of `hashes`, whose calls build the hash of the strings.
// What is in each file:
// - `hashing`: the hashes of strings, and of keys
// - `making`: the block of strings, written, opened and checked
// - `queries`: which number each string has, and which string each number
// - `strings`: strings in a block as C passes them
mod hashing;
mod making;
mod queries;
mod strings;
