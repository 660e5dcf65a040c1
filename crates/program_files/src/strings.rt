//! The block of the lines of a text, each a string with a number, as a file, and which lines have which number: what
//! `bitm strings` does, less its process.
// What is in each file:
// - `building`: the block of the lines of a text
// - `command`: the command that the arguments are
// - `failure`: why there is no answer
// - `finding`: the numbers of the lines of a text
// - `gathering`: the lines of a text, one after another
// - `numbering`: the block of strings that stand one after another
// - `program`: the program without its process
mod building;
mod command;
mod failure;
mod finding;
mod gathering;
mod numbering;
mod program;

pub use building::build;
pub use failure::Failure;
pub use finding::find;
pub use program::start;
