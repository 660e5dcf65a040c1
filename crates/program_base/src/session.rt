//! Answers commands over a vector of bits, line by line: what the program `bitm_vectors` does, less its process.
// What is in each file:
// - `answer`: the answer to a line
// - `command`: the commands
// - `index`: an index over a copy of the vector
// - `lines`: the lines of an input that are not empty
// - `program`: the program without its process
// - `session`: the vector and its index, and what a line does to them
mod answer;
mod command;
mod index;
mod lines;
mod program;
mod session;

pub use program::{CANNOT_READ, WriteFailed, run, start};
