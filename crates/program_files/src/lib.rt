//! What the program `bitm` does with files: numbers, texts and strings written as blocks, and blocks of each kind
//! checked, described and queried.
#![tactic(auto)]

// What is in each file:
// - `blocks`: blocks of the numbers in a text, and what they answer
// - `kinds`: `bitm check` and `bitm info`, over blocks of every kind
// - `strings`: the block of the lines of a text, each with a number
// - `texts`: the index of a text as a file, and where patterns stand in the text
pub mod blocks;
pub mod kinds;
pub mod strings;
pub mod texts;
