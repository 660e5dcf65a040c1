//! Blocks of every kind: whether they are as they were written, and what their headers say: what `bitm check` and
//! `bitm info` do, less their process.
// What is in each file:
// - `checking`: whether a block is as it was written
// - `command`: the command that the arguments are
// - `describing`: what a block's header says
// - `kind`: the kinds of blocks
// - `program`: the program without its process
mod checking;
mod command;
mod describing;
mod kind;
mod program;

pub use checking::{check, check_old};
pub use describing::info;
pub use program::start;
