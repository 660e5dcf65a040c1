//! Minimal perfect hashes in the caller's memory, and fingerprints of their keys. No call allocates, keeps a pointer or
//! has state. Each call is defined for all numbers: it tests its arguments, and answers by a status of `bitm_abi`.
//!
//! `include/bitm.h` declares the exports for C and C++ and says what each one answers; they stand in one archive with
//! the exports of `bitm_c`.
// What is in each file:
// - `hash`: levels, built, and the numbers of hashes
// - `keys`: the numbers of keys whose fingerprint is there
// - `prints`: the fingerprints of keys, written
// - `seeded`: hashes with a seed for each word
mod hash;
mod keys;
mod prints;
mod seeded;
