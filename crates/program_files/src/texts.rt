//! The index of a text as a file, and where patterns stand in the text: what `bitm text` does, less its process.
// What is in each file:
// - `answering`: what the text of a file answers of patterns
// - `building`: the file of a text
// - `command`: the command that the arguments are
// - `failure`: why there is no answer
// - `numbering`: the lines of a text that have one of some patterns
// - `patterns`: the patterns of a list, one a line
// - `all_positions`: at how many positions of a text patterns stand, and at which
// - `program`: the program without its process
mod all_positions;
mod answering;
mod building;
mod command;
mod failure;
mod numbering;
mod patterns;
mod program;

pub use answering::{count, lines, locate};
pub use building::build;
pub use failure::Failure;
pub use program::start;
