//! The text that the programs read: its lines, the parts of a line, and the numbers that they write.
// What is in each file:
// - `digits`: the numbers that digits write
// - `lines`: the lines of a text, and the parts of a line
// - `list`: the numbers of a text, one a line
// - `order`: the order of the numbers of a text
pub mod digits;
mod lines;
mod list;
mod order;

pub use lines::{FilledLines, Lines, first_part, only_part};
pub use list::{ListError, numbers};
pub use order::first_fall;
