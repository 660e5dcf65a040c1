//! Sets of keys for C: minimal perfect hashes, fingerprints, dictionaries, and strings with numbers. No call
//! allocates, keeps a pointer or has state. Each call is defined for all numbers: it tests its arguments, and answers
//! by a status of `bitm_abi`.
//!
//! `include/bitm.h` declares the exports for C and C++ and says what each one answers; they stand in one archive with
//! the exports of `bitm_c`.
#![tactic(auto)]

// What is in each file:
// - `dictionary`: a dictionary as C passes it
// - `dictionary_making`: the block of a dictionary, written, opened and checked
// - `dictionary_queries`: whether numbers are keys of a dictionary
// - `hash_blocks`: the block of a perfect hash, written, opened as a hash and checked
// - `hashes`: minimal perfect hashes in the caller's memory, and fingerprints of their keys
// - `seeded_blocks`: the block of a perfect hash with seeds, written, opened as a hash and checked
// - `strings`: strings in one block of memory, each with a number
mod dictionary;
mod dictionary_making;
mod dictionary_queries;
mod hash_blocks;
mod hashes;
mod seeded_blocks;
mod strings;
