//! Blocks of the numbers in a text, and what they answer: what the program `bitm` does, less its arguments and files.
// What is in each file:
// - `answering`: the answers to the lines of a text
// - `bits`: blocks of bits with their index
// - `building`: the block of the numbers in a text
// - `bytes`: the words of a block as bytes
// - `command`: the command that the arguments are
// - `failure`: why there is no answer
// - `format`: which format a file is in
// - `indices`: lists of numbers in memory that is found for them
// - `kind`: the kinds of blocks
// - `matrix`: blocks of a wavelet matrix
// - `old`: files of version 2 of the format
// - `program`: the program without its process
// - `queryable`: what answers questions
// - `question`: the question of a line
// - `reply`: the answer to a line
// - `sequence`: blocks of a monotone sequence
// - `sparse`: blocks of bits of which few are 1
// - `tree`: blocks of a tree
mod answering;
mod bits;
mod building;
mod bytes;
mod command;
mod failure;
mod format;
mod indices;
mod kind;
mod matrix;
mod old;
mod program;
mod queryable;
mod question;
mod reply;
mod sequence;
mod sparse;
mod tree;

pub use answering::query;
pub use building::build;
pub use bytes::{words_of_bytes, write_words};
pub use failure::Failure;
pub use format::{Format, format_in};
pub use kind::{Kind, kind_in};
pub use old::{OldHead, is_old, old_head};
pub use program::start;
