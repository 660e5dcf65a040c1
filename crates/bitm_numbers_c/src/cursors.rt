//! Cursors over sequences in the caller's memory, their intersection and their union. No call allocates, keeps a
//! pointer or has state. Each call is defined for all numbers: it tests its arguments, and answers by a status of
//! `bitm_abi`.
//!
//! `include/bitm.h` declares the exports for C and C++ and says what each one answers; they stand in one archive with
//! the exports of `bitm_c`, which builds and queries the sequences.
// What is in each file:
// - `cursor`: a cursor as C passes it
// - `merging`: the intersection and the union of several
// - `moving`: a cursor is set to the first number, and moves on
mod cursor;
mod merging;
mod moving;
