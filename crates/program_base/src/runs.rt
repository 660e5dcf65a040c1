//! What programs share: where they read from, why they end without an answer, and what they end with and say then.
// What is in each file:
// - `ending`: the status that a run ends with, and what it says
// - `failure`: what refuses an answer of any program
// - `form`: how answers are written
// - `reading`: the bytes of files and of the standard input
mod ending;
mod failure;
mod form;
mod reading;

pub use ending::{Stop, end};
pub use failure::{CANNOT_WRITE, CannotWrite, NO_MEMORY};
pub use form::{Form, form_of, none_in};
pub use reading::{CANNOT_READ, CannotRead, Sources, read_all};
