//! The index of a text, built in the caller's memory and checked: of letters below a bound, and of bytes. No call
//! allocates, keeps a pointer or has state. Each call is defined for all numbers: it tests its arguments, and answers
//! by a status of `bitm_abi`.
//!
//! `include/bitm.h` declares the exports for C and C++ and says what each one answers; they stand in one archive with
//! the exports of `bitm_c`; `text_making` opens the blocks, and `text_queries` queries them.
// What is in each file:
// - `blocks`: how many words a block takes, and checking one
// - `byte_ordering`: the block of a text of bytes in two steps
// - `bytes`: the block of a text of bytes
// - `letters`: the block of a text of letters below a bound
// - `ordering`: the block of a text of letters below a bound in two steps
mod blocks;
mod byte_ordering;
mod bytes;
mod letters;
mod ordering;
